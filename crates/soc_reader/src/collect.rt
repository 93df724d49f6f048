//! Adds items to what is kept of those before.
ghost use Rattle.std.specs.Prelude.{◌≡◌, ◌||◌, ◌&&◌, ℕ, List, not, IfOk, OnOk, OnErr, true, false, []};
ghost use Rattle.soc_reader.specs.Grammar.{opens, after_entry, gives_xy as gives, is_given as gives_this, renames as gives_other};
ghost use Rattle.soc_reader.specs.Table.{Value, nothing, lengths, may_repeat as repeats, entry, name as named_item, place_data, coordinate};
ghost use Rattle.soc_reader.specs.Marks.{is_marked};
ghost use Rattle.soc_reader.specs.Names.{name_in, is_other_name};
ghost use Rattle.soc_reader.specs.ItemsValue.{add, with_total, known_by, is_of_test as says_of_test, may_give as may_be_given, may_name as may_be_named};
ghost use Rattle.soc_reader.specs.Drafts.{IsIndexed};
ghost use Rattle.soc_reader.specs.Views.{value_of, totals_of, known_of, WentOn};
ghost use Rattle.indexmap.specs.IndexMap.{IsEmpty};

use crate::build::{give_chip, no_chip, put_name, tell_chains, tell_module, tell_test};
use crate::kept::{ItemsSoFar, ReadValue, Total};
use crate::keys::{After, Given, Key, Subject};
use crate::marks::{Marks, is_in, mark_given, open_rows};
use indexmap::IndexMap;
use outside::{NoMemory, Stop};
use soc_model::{MODULES_MOST, TESTS_MOST};
use std::alloc::{AllocFailed, Global};

/// What is spoken of after a keyword and its value.
fn opened_by(subject: Subject, key: Key, value: &ReadValue<'_>, opened: Subject) -> Subject
    ensures { result ≡ opens subject key (value_of value.now) opened }
{
    match (key, value) {
        (Key::SocName | Key::TotalModules | Key::Options | Key::PowerFlag | Key::XyFlag, _) => {
            Subject::Chip
        }
        (Key::Module, ReadValue::Count { number, .. }) => Subject::OfModule(*number),
        (Key::Test, ReadValue::Count { number, .. }) => match subject {
            Subject::OfModule(module) => Subject::OfTest(module, *number),
            _ => opened,
        },
        _ => opened,
    }
}

/// Where the next item stands after a keyword and its value.
fn after_key(key: Key) -> After
    ensures { result ≡ after_entry key }
{
    match key {
        Key::Options | Key::PowerFlag | Key::XyFlag => After::AfterOptions,
        Key::Module => After::AfterNumber,
        Key::SocName
        | Key::TotalModules
        | Key::Level
        | Key::Inputs
        | Key::Outputs
        | Key::Bidirs
        | Key::Setup
        | Key::ScanChains
        | Key::TotalTests
        | Key::Test
        | Key::ScanUse
        | Key::TamUse
        | Key::Patterns
        | Key::Power => After::Elsewhere,
    }
}

/// Whether a keyword and its value are `XY 1`.
fn gives_xy(key: Key, value: &ReadValue<'_>) -> bool
    ensures { (s : Subject) → result ≡ gives (entry s key (value_of value.now)) }
{
    match (key, value) {
        (Key::XyFlag, ReadValue::Flag(b)) => *b,
        _ => false,
    }
}

/// Whether `XY 1` was given, with a keyword and its value behind what was given before.
fn xy_after(key: Key, value: &ReadValue<'_>, before: bool) -> bool
    ensures { (s : Subject) → result ≡ (gives (entry s key (value_of value.now)) || before) }
{
    if gives_xy(key, value) {
        return true;
    }
    before
}

/// The chip, and as many modules and tests as it may have.
const SUBJECTS_MOST: u64 = 1 + MODULES_MOST + TESTS_MOST;

/// What most texts have at least for each subject, in bytes: the keywords of a test with their numbers.
const SUBJECT_BYTES: u64 = 64;

/// No marks, with room for the subjects of a text of `bytes` bytes.
fn no_marks(alloc: Global, bytes: usize) -> Result<Marks, NoMemory>
    ensures { IfOk result IsEmpty }
{
    let room = (bytes as u64 / SUBJECT_BYTES).min(SUBJECTS_MOST);
    let marks = IndexMap::with_capacity(alloc, room as usize)?;
    Ok(marks)
}

/// What is kept of no items, of a text of `bytes` bytes.
#[tactic(auto, unfolding(crate::specs::Views::known_of, crate::specs::ItemsValue::known_by))]
pub fn nothing_kept<'a>(alloc: Global, bytes: usize) -> Result<ItemsSoFar<'a>, NoMemory>
    ensures none { IfOk result (λ kept. known_of kept ≡ known_by []) }
    ensures indexed { IfOk result (λ kept. IsIndexed kept.draft) }
{
    let given = no_marks(alloc, bytes)?;
    Ok(ItemsSoFar {
        draft: no_chip(alloc),
        totals: Vec::new(alloc),
        opened: Subject::Chip,
        after: After::Elsewhere,
        xy: false,
        given,
        names: IndexMap::new(alloc),
    })
}

/// Whether a keyword may be given again: then it goes on with that module or test.
fn may_repeat(key: Key) -> bool
    ensures { result ≡ repeats key }
{
    matches!(key, Key::Module | Key::Test)
}

/// Makes the rows of a test the last ones, where that is what a keyword goes on with.
fn open_test(given: &mut Marks, key: Key, opened: Subject) -> Result<(), Stop>
    ensures ok { OnOk result
        ((s : Subject) (k : Key) → is_marked s k given.new ≡ is_marked s k given.old) }
    ensures memory { OnErr result (result ≡ Err Stop.NoMemory) }
{
    match key {
        Key::Test => open_rows(given, opened),
        _ => Ok(()),
    }
}

/// Marks a keyword of a subject as given, where it may be given once.
fn mark_entry(given: &mut Marks, subject: Subject, key: Key, opened: Subject) -> Result<(), Stop>
    ensures ok { OnOk result ((s : Subject) (k : Key) (v : Value) →
        (not (repeats k) && is_marked s k given.new)
        ≡ ((not (repeats k) && gives_this s k (entry subject key v))
        || (not (repeats k) && is_marked s k given.old))) }
    ensures memory { OnErr result (result ≡ Err Stop.NoMemory) }
{
    if may_repeat(key) {
        return open_test(given, key, opened);
    }
    mark_given(given, Given { subject, key })
}

/// Notes a keyword with its value, where that is a total.
fn note_total(
    totals: &mut Vec<Total>,
    subject: Subject,
    key: Key,
    value: &ReadValue<'_>,
) -> Result<(), Stop>
    ensures noted { OnOk result (totals_of totals.new.items
        ≡ with_total (entry subject key (value_of value.now)) (totals_of totals.old.items)) }
    ensures memory { OnErr result (result ≡ Err Stop.NoMemory) }
{
    let ReadValue::Count { number, line } = value else {
        return Ok(());
    };
    let (number, line) = (*number, *line);
    match (subject, key) {
        (Subject::Chip, Key::TotalModules) => totals.push(Total::Modules { number, line })?,
        (Subject::OfModule(module), Key::TotalTests) => totals.push(Total::Tests {
            module,
            number,
            line,
        })?,
        _ => {}
    }
    Ok(())
}

/// Whether a keyword says something of a test.
fn is_of_test(key: Key) -> bool
    ensures { result ≡ says_of_test key }
{
    matches!(key, Key::ScanUse | Key::TamUse | Key::Patterns | Key::Power)
}

/// Goes on behind a keyword with its value.
fn go_on(
    kept: &mut ItemsSoFar<'_>,
    subject: Subject,
    key: Key,
    value: &ReadValue<'_>,
) -> Result<(), Stop>
    ensures went_on { OnOk result
        (WentOn (entry subject key (value_of value.now)) kept.old kept.new) }
    ensures memory { OnErr result (result ≡ Err Stop.NoMemory) }
{
    let opened = opened_by(subject, key, value, kept.opened);
    let xy = xy_after(key, value, kept.xy);
    mark_entry(&mut kept.given, subject, key, opened)?;
    note_total(&mut kept.totals, subject, key, value)?;
    kept.opened = opened;
    kept.after = after_key(key);
    kept.xy = xy;
    Ok(())
}

/// Adds a keyword with the word behind it. Most of a text speaks of tests: behind what is said of one nothing else is opened.
#[inline(always)]
pub fn add_value(
    kept: &mut ItemsSoFar<'_>,
    subject: Subject,
    key: Key,
    value: ReadValue<'_>,
) -> Result<(), Stop>
    requires { IsIndexed kept.old.draft }
    ensures added { OnOk result
        (known_of kept.new ≡ add (entry subject key (value_of value.entry)) (known_of kept.old)) }
    ensures indexed { OnOk result (IsIndexed kept.new.draft) }
    ensures memory { OnErr result (result ≡ Err Stop.NoMemory) }
{
    match subject {
        Subject::OfTest(number, test) => {
            tell_test(&mut kept.draft, number, test, key, &value);
            if is_of_test(key) {
                mark_given(&mut kept.given, Given { subject, key })?;
                kept.after = After::Elsewhere;
                return Ok(());
            }
            go_on(kept, subject, key, &value)
        }
        Subject::OfModule(number) => {
            tell_module(&mut kept.draft, number, key, &value)?;
            go_on(kept, subject, key, &value)
        }
        Subject::Chip => {
            give_chip(&mut kept.draft, key, &value)?;
            go_on(kept, subject, key, &value)
        }
    }
}

/// Adds a keyword behind which no word stands.
pub fn add_bare(kept: &mut ItemsSoFar<'_>, subject: Subject, key: Key) -> Result<(), Stop>
    requires { IsIndexed kept.old.draft }
    ensures added { OnOk result
        (known_of kept.new ≡ add (entry subject key nothing) (known_of kept.old)) }
    ensures indexed { OnOk result (IsIndexed kept.new.draft) }
    ensures memory { OnErr result (result ≡ Err Stop.NoMemory) }
{
    go_on(kept, subject, key, &ReadValue::Nothing)
}

/// Adds a keyword with a list of lengths.
pub fn add_list(
    kept: &mut ItemsSoFar<'_>,
    subject: Subject,
    key: Key,
    list: Vec<u64>,
) -> Result<(), Stop>
    requires { IsIndexed kept.old.draft }
    ensures added { OnOk result
        (known_of kept.new ≡ add (entry subject key (lengths list.items)) (known_of kept.old)) }
    ensures indexed { OnOk result (IsIndexed kept.new.draft) }
    ensures memory { OnErr result (result ≡ Err Stop.NoMemory) }
{
    tell_chains(&mut kept.draft, subject, key, list);
    go_on(kept, subject, key, &ReadValue::Nothing)
}

/// Notes the name of a module, which has no other.
fn note_name<'a>(
    names: &mut IndexMap<u64, &'a [u8]>,
    number: u64,
    name: &'a [u8],
) -> Result<(), Stop>
    requires { is_other_name (name_in names.old number) name.now ≡ false }
    ensures noted { OnOk result ((m : ℕ) (w : List ℕ) → is_other_name (name_in names.new m) w
        ≡ (gives_other m w (named_item number name.now) || is_other_name (name_in names.old m) w)) }
    ensures memory { OnErr result (result ≡ Err Stop.NoMemory) }
{
    names.insert(number, name)?;
    Ok(())
}

/// Adds the name of a module, which has no other.
pub fn add_name<'a>(kept: &mut ItemsSoFar<'a>, number: u64, name: &'a [u8]) -> Result<(), Stop>
    requires indexed { IsIndexed kept.old.draft }
    requires free { (known_of kept.old).renamed number name.now ≡ false }
    ensures added { OnOk result
        (known_of kept.new ≡ add (named_item number name.now) (known_of kept.old)) }
    ensures indexed { OnOk result (IsIndexed kept.new.draft) }
    ensures memory { OnErr result (result ≡ Err Stop.NoMemory) }
{
    note_name(&mut kept.names, number, name)?;
    put_name(&mut kept.draft, number, name)?;
    kept.after = After::Elsewhere;
    Ok(())
}

/// Adds the first two words of place data, or a further coordinate.
#[tactic(auto, unfolding(crate::specs::Views::known_of, crate::specs::ItemsValue::add))]
pub fn add_place(kept: &mut ItemsSoFar<'_>)
    requires { IsIndexed kept.old.draft }
    ensures place { known_of kept.new ≡ add place_data (known_of kept.old) }
    ensures coordinate { known_of kept.new ≡ add coordinate (known_of kept.old) }
    ensures indexed { IsIndexed kept.new.draft }
{
    kept.after = After::AfterData;
}

/// What is spoken of after the items.
#[tactic(auto, unfolding(crate::specs::Views::known_of))]
pub fn opened(kept: &ItemsSoFar<'_>) -> Subject
    ensures { result ≡ (known_of kept.now).opened }
{
    kept.opened
}

/// Where the next item stands.
#[tactic(auto, unfolding(crate::specs::Views::known_of))]
pub fn place_after(kept: &ItemsSoFar<'_>) -> After
    ensures { result ≡ (known_of kept.now).place }
{
    kept.after
}

/// Whether `XY 1` was given.
#[tactic(auto, unfolding(crate::specs::Views::known_of))]
pub fn has_xy(kept: &ItemsSoFar<'_>) -> bool
    ensures { result ≡ (known_of kept.now).xy }
{
    kept.xy
}

/// Whether this may be given after the items.
#[tactic(auto, unfolding(crate::specs::Views::known_of))]
pub fn may_give(kept: &ItemsSoFar<'_>, subject: Subject, key: Key) -> bool
    ensures { result ≡ may_be_given subject key (known_of kept.now) }
{
    may_repeat(key) || !is_in(&kept.given, Given { subject, key })
}

/// Whether a module has no other name than this.
fn fits_name(names: &IndexMap<u64, &[u8]>, number: u64, name: &[u8]) -> bool
    ensures { result ≡ not (is_other_name (name_in names.now number) name.now) }
{
    match names.get(&number) {
        Some(found) => name == *found,
        None => true,
    }
}

/// Whether a module may have this name after the items.
#[tactic(auto, unfolding(crate::specs::Views::known_of))]
pub fn may_name(kept: &ItemsSoFar<'_>, number: u64, name: &[u8]) -> bool
    ensures may { result ≡ may_be_named number name.now (known_of kept.now) }
    ensures free { result ≡ true → (known_of kept.now).renamed number name.now ≡ false }
{
    fits_name(&kept.names, number, name)
}
