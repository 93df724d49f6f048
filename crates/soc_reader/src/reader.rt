//! Reads a text word by word.
ghost use Rattle.std.specs.Prelude.{◌≡◌, [], true, false, option_map, IfOk, OnErr};
ghost use Rattle.soc_reader.specs.ItemsValue.{add, of_known, may_name as may_be_named};
ghost use Rattle.soc_reader.specs.Drafts.{IsIndexed};
ghost use Rattle.soc_reader.specs.Steps.{begin_if, after_value, at, between, begun, begin_entry as begins_entry, begin_data as begins_data, begin_free as begins_free, begin as begins, list_from as lists_from, after_length as lists_after, step_value as steps_value, step_counted as steps_counted, step_name as steps_name, step_at, closed_at};
ghost use Rattle.soc_reader.specs.Views.{value_of, known_of, part_of, is_list, Steps, Closes, AddsLength};
ghost use Rattle.soc_reader.specs.Table.{word_value as value_that_is, owner as owner_of, shape_of as shape_that_follows, entry, name as named_item};
ghost use Rattle.soc_reader.specs.Keywords.{number as number_in, is_lengths_word as says_lengths, is_coordinate as is_number_like};

use crate::collect::{
    add_bare, add_list, add_name, add_place, add_value, has_xy, may_give, may_name, opened,
    place_after,
};
use crate::kept::{ItemsSoFar, ReadPart, ReadValue};
use crate::keys::{After, Key, Shape, Subject};
use crate::lexicon::{
    flag_of, is_coordinate, is_free_word, is_lengths_word, is_letter_word, is_printable, key_of,
    number_of,
};
use outside::{Stop, Word};
use soc_model::CHAINS_MOST;
use std::alloc::Global;
use std::mem::replace;

/// One more keyword with its value.
fn added<'a>(
    kept: &mut ItemsSoFar<'a>,
    part: &mut ReadPart<'a>,
    subject: Subject,
    key: Key,
    value: ReadValue<'a>,
) -> Result<(), Stop>
    requires { IsIndexed kept.old.draft }
    ensures { Steps
        (at (add (entry subject key (value_of value.entry)) (known_of kept.old)) between) result
        part.new kept.new }
{
    add_value(kept, subject, key, value)?;
    *part = ReadPart::Between;
    Ok(())
}

/// After a keyword.
fn begin_value<'a>(
    kept: &mut ItemsSoFar<'a>,
    part: &mut ReadPart<'a>,
    subject: Subject,
    key: Key,
    shape: Shape,
) -> Result<(), Stop>
    requires { IsIndexed kept.old.draft }
    ensures { Steps (begun of_known (known_of kept.old) subject key shape) result part.new
        kept.new }
{
    match shape {
        Shape::NoWord => {
            add_bare(kept, subject, key)?;
            *part = ReadPart::Between;
            Ok(())
        }
        _ => {
            *part = ReadPart::Wants {
                subject,
                key,
                shape,
            };
            Ok(())
        }
    }
}

/// What a keyword speaks of, where it may stand.
fn owner(key: Key, opened: Subject) -> Option<Subject>
    ensures { result ≡ owner_of key opened }
{
    match key {
        Key::SocName
        | Key::TotalModules
        | Key::Options
        | Key::PowerFlag
        | Key::XyFlag
        | Key::Module => Some(Subject::Chip),
        Key::ScanUse | Key::TamUse | Key::Patterns | Key::Power => match opened {
            Subject::OfTest(number, test) => Some(Subject::OfTest(number, test)),
            Subject::Chip | Subject::OfModule(_) => None,
        },
        Key::Level
        | Key::Inputs
        | Key::Outputs
        | Key::Bidirs
        | Key::Setup
        | Key::ScanChains
        | Key::TotalTests
        | Key::Test => match opened {
            Subject::Chip => None,
            Subject::OfModule(number) | Subject::OfTest(number, _) => Some(Subject::OfModule(
                number,
            )),
        },
    }
}

/// What follows a keyword.
fn shape_of(key: Key) -> Shape
    ensures { result ≡ shape_that_follows key }
{
    match key {
        Key::SocName => Shape::OneWord,
        Key::Options => Shape::NoWord,
        Key::PowerFlag | Key::XyFlag | Key::ScanUse | Key::TamUse => Shape::OneFlag,
        Key::ScanChains => Shape::ManyNumbers,
        Key::TotalModules
        | Key::Module
        | Key::Level
        | Key::Inputs
        | Key::Outputs
        | Key::Bidirs
        | Key::Setup
        | Key::TotalTests
        | Key::Test
        | Key::Patterns
        | Key::Power => Shape::OneNumber,
    }
}

/// A keyword, where it may stand and may be given.
fn begin_entry<'a>(kept: &mut ItemsSoFar<'a>, part: &mut ReadPart<'a>, key: Key) -> Result<(), Stop>
    requires { IsIndexed kept.old.draft }
    ensures { Steps
        (begins_entry of_known (known_of kept.old) key (owner_of key (known_of kept.old).opened))
        result part.new kept.new }
{
    let Some(subject) = owner(key, opened(kept)) else {
        return Err(Stop::Refused);
    };
    if !may_give(kept, subject, key) {
        return Err(Stop::Refused);
    }
    begin_value(kept, part, subject, key, shape_of(key))
}

/// A module's name, where it may have that.
fn name_module<'a>(
    kept: &mut ItemsSoFar<'a>,
    part: &mut ReadPart<'a>,
    number: u64,
    name: &'a [u8],
) -> Result<(), Stop>
    requires { IsIndexed kept.old.draft }
    ensures { Steps
        (begin_if (may_be_named number name.now (known_of kept.old))
        (at (add (named_item number name.now) (known_of kept.old)) between)) result part.new
        kept.new }
{
    if !may_name(kept, number, name) {
        return Err(Stop::Refused);
    }
    add_name(kept, number, name)?;
    *part = ReadPart::Between;
    Ok(())
}

/// The first word of place data, where it may stand.
fn begin_data<'a>(
    kept: &mut ItemsSoFar<'a>,
    part: &mut ReadPart<'a>,
    is_data: bool,
) -> Result<(), Stop>
    requires { IsIndexed kept.old.draft }
    ensures { Steps (begins_data (known_of kept.old) is_data (known_of kept.old).opened) result
        part.new kept.new }
{
    if opened(kept) == Subject::Chip || !is_data {
        return Err(Stop::Refused);
    }
    *part = ReadPart::WantsCoordinate;
    Ok(())
}

/// A word that is no keyword, where it may be a name or begin place data.
fn begin_free<'a>(
    kept: &mut ItemsSoFar<'a>,
    part: &mut ReadPart<'a>,
    word: &'a [u8],
) -> Result<(), Stop>
    requires { IsIndexed kept.old.draft }
    ensures { Steps
        (begins_free of_known (known_of kept.old) word.now (known_of kept.old).place
        (known_of kept.old).opened) result part.new kept.new }
{
    let is_data = has_xy(kept) && is_letter_word(word);
    match (place_after(kept), opened(kept)) {
        (After::AfterNumber, Subject::OfModule(number)) => {
            if is_data {
                *part = ReadPart::NameOrData {
                    module: number,
                    name: word,
                };
                return Ok(());
            }
            name_module(kept, part, number, word)
        }
        _ => begin_data(kept, part, is_data),
    }
}

/// The first word of an item.
fn begin_item<'a>(
    kept: &mut ItemsSoFar<'a>,
    part: &mut ReadPart<'a>,
    word: &'a [u8],
) -> Result<(), Stop>
    requires { IsIndexed kept.old.draft }
    ensures { Steps (begins of_known (known_of kept.old) word.now) result part.new kept.new }
{
    if let Some(key) = key_of(place_after(kept) == After::AfterOptions, word) {
        return begin_entry(kept, part, key);
    }
    if place_after(kept) == After::AfterData && is_coordinate(word) {
        add_place(kept);
        *part = ReadPart::Between;
        return Ok(());
    }
    if !is_free_word(word) {
        return Err(Stop::Refused);
    }
    begin_free(kept, part, word)
}

/// After a keyword and its value.
fn give_value<'a>(
    kept: &mut ItemsSoFar<'a>,
    part: &mut ReadPart<'a>,
    subject: Subject,
    key: Key,
    value: Option<ReadValue<'a>>,
) -> Result<(), Stop>
    requires { IsIndexed kept.old.draft }
    ensures { Steps
        (after_value of_known (known_of kept.old) subject key (option_map value_of value.entry))
        result part.new kept.new }
{
    match value {
        Some(value) => added(kept, part, subject, key, value),
        None => Err(Stop::Refused),
    }
}

/// Goes on with a list that has `left` lengths to come. Without any it is whole, and is added.
fn go_on_listing<'a>(
    kept: &mut ItemsSoFar<'a>,
    part: &mut ReadPart<'a>,
    subject: Subject,
    key: Key,
    read: Vec<u64>,
    left: u64,
) -> Result<(), Stop>
    requires { IsIndexed kept.old.draft }
    ensures { Steps (lists_from of_known (known_of kept.old) subject key read.items left) result
        part.new kept.new }
{
    if left == 0 {
        add_list(kept, subject, key, read)?;
        *part = ReadPart::Between;
        return Ok(());
    }
    *part = ReadPart::Listing {
        subject,
        key,
        read,
        left,
    };
    Ok(())
}

/// The value that one word is.
fn word_value<'a>(shape: Shape, word: Word<'a>) -> Option<ReadValue<'a>>
    ensures { option_map value_of result
        ≡ value_that_is shape (word.entry.bytes.now, word.entry.line) }
{
    match shape {
        Shape::NoWord | Shape::ManyNumbers => None,
        Shape::OneWord => is_printable(word.bytes).then_some(ReadValue::Word(word.bytes)),
        Shape::OneNumber => match number_of(word.bytes) {
            Some(number) => Some(ReadValue::Count {
                number,
                line: word.line,
            }),
            None => None,
        },
        Shape::OneFlag => match flag_of(word.bytes) {
            Some(b) => Some(ReadValue::Flag(b)),
            None => None,
        },
    }
}

/// The word behind a keyword.
fn step_value<'a>(
    kept: &mut ItemsSoFar<'a>,
    part: &mut ReadPart<'a>,
    subject: Subject,
    key: Key,
    shape: Shape,
    word: Word<'a>,
) -> Result<(), Stop>
    requires { IsIndexed kept.old.draft }
    ensures { Steps
        (steps_value of_known (known_of kept.old) subject key shape
        (word.entry.bytes.now, word.entry.line)) result part.new kept.new }
{
    if shape == Shape::ManyNumbers {
        return match number_of(word.bytes) {
            Some(count) => {
                *part = ReadPart::Counted {
                    subject,
                    key,
                    count,
                };
                Ok(())
            }
            None => Err(Stop::Refused),
        };
    }
    give_value(kept, part, subject, key, word_value(shape, word))
}

/// Reads one more length of a list, which then has `left` lengths to come.
fn step_length<'a>(
    kept: &mut ItemsSoFar<'a>,
    part: &mut ReadPart<'a>,
    subject: Subject,
    key: Key,
    mut read: Vec<u64>,
    left: u64,
    word: &'a [u8],
) -> Result<(), Stop>
    requires { IsIndexed kept.old.draft }
    ensures { Steps
        (lists_after of_known (known_of kept.old) subject key read.items left (number_in word.now))
        result part.new kept.new }
{
    let Some(length) = number_of(word) else {
        return Err(Stop::Refused);
    };
    read.push(length)?;
    go_on_listing(kept, part, subject, key, read, left)
}

/// A list without lengths, with room for `count`, or for as many as a module of a chip may have where these are fewer.
fn no_lengths(alloc: Global, count: u64) -> Result<Vec<u64>, Stop>
    ensures none { IfOk result (λ read. read.items ≡ []) }
    ensures memory { OnErr result (result ≡ Err Stop.NoMemory) }
{
    match Vec::with_capacity(alloc, count.min(CHAINS_MOST) as usize) {
        Ok(read) => Ok(read),
        Err(_) => Err(Stop::NoMemory),
    }
}

/// Directly after the number of scan chains.
fn step_counted<'a>(
    alloc: Global,
    kept: &mut ItemsSoFar<'a>,
    part: &mut ReadPart<'a>,
    subject: Subject,
    key: Key,
    count: u64,
    word: &'a [u8],
) -> Result<(), Stop>
    requires { IsIndexed kept.old.draft }
    ensures { Steps
        (steps_counted of_known (known_of kept.old) subject key count word.now
        (says_lengths word.now)) result part.new kept.new }
{
    if is_lengths_word(word) {
        let read = no_lengths(alloc, count)?;
        return go_on_listing(kept, part, subject, key, read, count);
    }
    if count == 0 {
        add_list(kept, subject, key, Vec::new(alloc))?;
        return begin_item(kept, part, word);
    }
    let read = no_lengths(alloc, count)?;
    step_length(kept, part, subject, key, read, count - 1, word)
}

/// After a word that may be a name or begin place data.
fn step_name<'a>(
    kept: &mut ItemsSoFar<'a>,
    part: &mut ReadPart<'a>,
    number: u64,
    name: &'a [u8],
    word: &'a [u8],
) -> Result<(), Stop>
    requires { IsIndexed kept.old.draft }
    ensures { Steps
        (steps_name of_known (known_of kept.old) number name.now word.now (is_number_like word.now))
        result part.new kept.new }
{
    if is_coordinate(word) {
        add_place(kept);
        *part = ReadPart::Between;
        return Ok(());
    }
    if !may_name(kept, number, name) {
        return Err(Stop::Refused);
    }
    add_name(kept, number, name)?;
    begin_item(kept, part, word)
}

/// One more length in the midst of a list, which is put in where the list stands. False where the part is no list of
/// which more than one length is to come, or the word is no number: then it stays as it is.
fn add_length(part: &mut ReadPart<'_>, word: &[u8]) -> Result<bool, Stop>
    ensures added { result ≡ Ok true → AddsLength part.old word.now part.new }
    ensures other { result ≡ Ok false → part.new ≡ part.old }
    ensures memory { OnErr result (result ≡ Err Stop.NoMemory) }
{
    match part {
        ReadPart::Listing { read, left, .. } => {
            if *left < 2 {
                return Ok(false);
            }
            let Some(length) = number_of(word) else {
                return Ok(false);
            };
            read.push(length)?;
            *left -= 1;
            Ok(true)
        }
        _ => Ok(false),
    }
}

/// A word behind some lengths. In the midst of a list nothing is moved.
fn step_listing<'a>(
    kept: &mut ItemsSoFar<'a>,
    part: &mut ReadPart<'a>,
    word: Word<'a>,
) -> Result<(), Stop>
    requires indexed { IsIndexed kept.old.draft }
    requires list { is_list part.old ≡ true }
    ensures { Steps
        (step_at of_known (known_of kept.old) (part_of part.old)
        (word.entry.bytes.now, word.entry.line)) result part.new kept.new }
{
    if add_length(part, word.bytes)? {
        return Ok(());
    }
    match replace(part, ReadPart::Between) {
        ReadPart::Listing {
            subject,
            key,
            read,
            left,
        } => {
            if left == 0 {
                return Err(Stop::Refused);
            }
            step_length(kept, part, subject, key, read, left - 1, word.bytes)
        }
        _ => unreachable!(),
    }
}

/// The next word, wherever it stands.
pub fn step_word<'a>(
    alloc: Global,
    kept: &mut ItemsSoFar<'a>,
    part: &mut ReadPart<'a>,
    word: Word<'a>,
) -> Result<(), Stop>
    requires { IsIndexed kept.old.draft }
    ensures { Steps
        (step_at of_known (known_of kept.old) (part_of part.old)
        (word.entry.bytes.now, word.entry.line)) result part.new kept.new }
{
    match part {
        ReadPart::Between => begin_item(kept, part, word.bytes),
        ReadPart::Wants {
            subject,
            key,
            shape,
        } => {
            let (subject, key, shape) = (*subject, *key, *shape);
            step_value(kept, part, subject, key, shape, word)
        }
        ReadPart::Counted {
            subject,
            key,
            count,
        } => {
            let (subject, key, count) = (*subject, *key, *count);
            step_counted(alloc, kept, part, subject, key, count, word.bytes)
        }
        ReadPart::Listing { .. } => step_listing(kept, part, word),
        ReadPart::WantsCoordinate => {
            if !is_coordinate(word.bytes) {
                return Err(Stop::Refused);
            }
            add_place(kept);
            *part = ReadPart::Between;
            Ok(())
        }
        ReadPart::NameOrData { module, name } => {
            let (module, name) = (*module, *name);
            step_name(kept, part, module, name, word.bytes)
        }
    }
}

/// The text ends here.
pub fn close_text<'a>(
    alloc: Global,
    kept: &mut ItemsSoFar<'a>,
    part: ReadPart<'a>,
) -> Result<(), Stop>
    requires { IsIndexed kept.old.draft }
    ensures { Closes (closed_at of_known (known_of kept.old) (part_of part.entry)) result kept.new }
{
    match part {
        ReadPart::Between => Ok(()),
        ReadPart::Counted {
            subject,
            key,
            count,
        } => {
            if count > 0 {
                return Err(Stop::Refused);
            }
            add_list(kept, subject, key, Vec::new(alloc))
        }
        ReadPart::NameOrData { module, name } => {
            if !may_name(kept, module, name) {
                return Err(Stop::Refused);
            }
            add_name(kept, module, name)
        }
        ReadPart::Wants { .. } | ReadPart::Listing { .. } | ReadPart::WantsCoordinate => {
            Err(Stop::Refused)
        }
    }
}
