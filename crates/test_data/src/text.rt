//! Reads the words of test data.
ghost use Rattle.std.specs.Prelude.{◌≡◌, ◌≤◌, ◌++◌, ◌∷◌, [], ℕ, List, length, option_map};
ghost use Rattle.keyword_text.specs.Reads.{Makes};
ghost use Rattle.test_data.specs.DataWords.{bit_word};
ghost use Rattle.test_data.specs.DataReads.{after, ended, entry_of, headed as headed_state, within as within_state, with_pattern as pattern_more};
ghost use Rattle.test_data.specs.DataPlaces.{bits_in, kept_entries, patterns_in, state_in, word_at, IsWordSpot, IsReadAs};

use crate::DATA_MOST;
use crate::places::{BitPlace, PatternPlaces, TestEntry};
use crate::spots::{WordSpot, next_spot};
use outside::{Stop, Unread, end_line, number, push, same_word};
use plan_model::PLAN_NUMBER_MOST;
use soc_model::TestId;
use std::alloc::Global;

/// What was read of test data so far.
#[derive(Drop)]
pub enum DataText {
    /// Nothing.
    Empty,
    /// The word `Data`.
    Titled,
    /// `Data 1`.
    Begun,
    /// This, some whole entries, and the word `Test`.
    Headed {
        entries: Vec<TestEntry>,
    },
    /// These with the number of a module.
    Numbered {
        entries: Vec<TestEntry>,
        number: u64,
    },
    /// Whole entries, and one of which whole patterns were read.
    Within {
        entries: Vec<TestEntry>,
        test: TestId,
        patterns: Vec<PatternPlaces>,
    },
    /// These with the load word of a pattern.
    Loaded {
        entries: Vec<TestEntry>,
        test: TestId,
        patterns: Vec<PatternPlaces>,
        load: BitPlace,
    },
}

/// The bytes of a word.
fn word_bytes(bytes: &[u8], spot: WordSpot) -> &[u8]
    requires { IsWordSpot bytes.now spot }
    ensures { result.now ≡ word_at bytes.now spot }
{
    let (_, rest) = bytes.split_at(spot.from);
    let (word, _) = rest.split_at(spot.len);
    word
}

/// Where the bits of a word stand, if it is a bit word.
fn bit_place(bytes: &[u8], spot: WordSpot) -> Option<BitPlace>
    requires few { length bytes.now ≤ DATA_MOST }
    requires spot { IsWordSpot bytes.now spot }
    ensures { option_map (bits_in bytes.now) result ≡ bit_word (word_at bytes.now spot) }
{
    if spot.all_bits {
        return Some(BitPlace {
            at: spot.from as u32,
            count: spot.len as u32,
        });
    }
    if word_bytes(bytes, spot) == b"-".as_slice() {
        return Some(BitPlace {
            at: spot.from as u32,
            count: 0,
        });
    }
    None
}

/// Whole entries, and one more.
fn with_entry(
    entries: Vec<TestEntry>,
    test: TestId,
    patterns: Vec<PatternPlaces>,
) -> Result<Vec<TestEntry>, Stop>
    ensures { (bytes : List ℕ) →
        Makes (kept_entries bytes) (Some (kept_entries bytes entries
        ++ entry_of test (patterns_in bytes patterns.items) ∷ [])) result }
{
    let mut entries = entries;
    push(&mut entries, TestEntry { test, patterns })?;
    Ok(entries)
}

/// Whole entries and the word `Test` behind the patterns of the last one.
fn headed(
    entries: Vec<TestEntry>,
    test: TestId,
    patterns: Vec<PatternPlaces>,
) -> Result<DataText, Stop>
    ensures { (bytes : List ℕ) → Makes (state_in bytes)
        (Some (headed_state (kept_entries bytes entries
        ++ entry_of test (patterns_in bytes patterns.items) ∷ []))) result }
{
    let mut entries = entries;
    push(&mut entries, TestEntry { test, patterns })?;
    Ok(DataText::Headed { entries })
}

/// Whole entries and one of which a pattern more was read.
fn with_pattern(
    entries: Vec<TestEntry>,
    test: TestId,
    patterns: Vec<PatternPlaces>,
    load: BitPlace,
    unload: BitPlace,
) -> Result<DataText, Stop>
    ensures { (bytes : List ℕ) → Makes (state_in bytes)
        (Some (within_state (kept_entries bytes entries) test
        (pattern_more (patterns_in bytes patterns.items) (bits_in bytes load)
        (bits_in bytes unload)))) result }
{
    let mut patterns = patterns;
    push(&mut patterns, PatternPlaces { load, unload })?;
    Ok(DataText::Within {
        entries,
        test,
        patterns,
    })
}

/// What is read with one more word.
fn next_text(alloc: Global, bytes: &[u8], spot: WordSpot, text: DataText) -> Result<DataText, Stop>
    requires few { length bytes.now ≤ DATA_MOST }
    requires spot { IsWordSpot bytes.now spot }
    ensures { Makes (state_in bytes.now)
        (after (state_in bytes.now text) (word_at bytes.now spot, spot.line)) result }
{
    match text {
        DataText::Empty => {
            if same_word(word_bytes(bytes, spot), b"Data") {
                return Ok(DataText::Titled);
            }
            Err(Stop::Refused)
        }
        DataText::Titled => match number(word_bytes(bytes, spot), PLAN_NUMBER_MOST) {
            Some(1) => Ok(DataText::Begun),
            _ => Err(Stop::Refused),
        },
        DataText::Begun => {
            if same_word(word_bytes(bytes, spot), b"Test") {
                return Ok(DataText::Headed {
                    entries: Vec::new(alloc),
                });
            }
            Err(Stop::Refused)
        }
        DataText::Headed { entries } => match number(word_bytes(bytes, spot), PLAN_NUMBER_MOST) {
            Some(number) => Ok(DataText::Numbered { entries, number }),
            None => Err(Stop::Refused),
        },
        DataText::Numbered {
            entries,
            number: module,
        } => {
            match number(word_bytes(bytes, spot), PLAN_NUMBER_MOST) {
                Some(test) => Ok(DataText::Within {
                    entries,
                    test: TestId { module, test },
                    patterns: Vec::new(alloc),
                }),
                None => Err(Stop::Refused),
            }
        }
        DataText::Within {
            entries,
            test,
            patterns,
        } => {
            if same_word(word_bytes(bytes, spot), b"Test") {
                return headed(entries, test, patterns);
            }
            match bit_place(bytes, spot) {
                Some(load) => Ok(DataText::Loaded {
                    entries,
                    test,
                    patterns,
                    load,
                }),
                None => Err(Stop::Refused),
            }
        }
        DataText::Loaded {
            entries,
            test,
            patterns,
            load,
        } => match bit_place(bytes, spot) {
            Some(unload) => with_pattern(entries, test, patterns, load, unload),
            None => Err(Stop::Refused),
        },
    }
}

/// The entries, where a text may end here.
fn ended_text(alloc: Global, text: DataText) -> Result<Vec<TestEntry>, Stop>
    ensures { (bytes : List ℕ) → Makes (kept_entries bytes) (ended (state_in bytes text)) result }
{
    match text {
        DataText::Begun => Ok(Vec::new(alloc)),
        DataText::Within {
            entries,
            test,
            patterns,
        } => with_entry(entries, test, patterns),
        _ => Err(Stop::Refused),
    }
}

/// The entries that a text says, by where their words stand.
pub fn read_entries(alloc: Global, bytes: &[u8]) -> Result<Vec<TestEntry>, Unread>
    requires { length bytes.now ≤ DATA_MOST }
    ensures { IsReadAs bytes.now result }
{
    let mut text = DataText::Empty;
    let mut place = 0usize;
    let mut line = 1u64;
    while let Some(spot) = next_spot(bytes, place, line) {
        text = match next_text(alloc, bytes, spot, text) {
            Ok(next) => next,
            Err(Stop::Refused) => return Err(Unread::Refused { line: spot.line }),
            Err(Stop::NoMemory) => return Err(Unread::NoMemory),
        };
        place = spot.from + spot.len;
        line = spot.line;
    }
    match ended_text(alloc, text) {
        Ok(entries) => Ok(entries),
        Err(Stop::Refused) => Err(Unread::Refused {
            line: end_line(bytes),
        }),
        Err(Stop::NoMemory) => Err(Unread::NoMemory),
    }
}
