//! Test data as it is kept, and the call that reads it.
ghost use Rattle.std.specs.Prelude.{◌≡◌, ◌≤◌, length, option_map, position};
ghost use Rattle.soc_model.specs.Chips.{same_test};
ghost use Rattle.test_data.specs.declared.places.TestEntry.{TestEntry as KeptEntry};
ghost use Rattle.test_data.specs.DataWords.{EntryValue};
ghost use Rattle.test_data.specs.DataAnswers.{IsReadData};
ghost use Rattle.test_data.specs.DataPlaces.{bits_value, entries_in, pattern_at};

use crate::places::{PatternWords, TestEntry, bytes_of};
use crate::text::read_entries;
use crate::{DATA_MOST, DataFault};
use outside::Unread;
use soc_model::TestId;
use std::alloc::Global;
use std::marker::Model;

/// Test data: the bytes of its text, and where their words stand. Its model is the list of its entries.
#[derive(Drop)]
pub struct TestData {
    bytes: Vec<u8>,
    entries: Vec<TestEntry>,
}

impl Model for TestData {
    ghost use Rattle.std.specs.Prelude.{List};
    ghost use Rattle.test_data.specs.DataWords.{EntryValue};
    ghost use Rattle.test_data.specs.DataPlaces.{entries_in};

    ghost Value = { List EntryValue };

    ghost view = { λ d. entries_in d.bytes.items d.entries.items };
}

impl TestData {
    /// How many entries there are.
    pub fn len(&self) -> usize
        ensures { result ≡ length self.now }
    {
        self.entries.len()
    }

    /// The place of the first entry of a test. None comes exactly where there is no such entry.
    pub fn place(&self, id: TestId) -> Option<usize>
        ensures { result ≡ position (λ (e : EntryValue). same_test id e.test) self.now }
    {
        entry_place(&self.entries, id)
    }

    /// The bits of a pattern of an entry, both by their places. None comes exactly where there is no such pattern.
    pub fn pattern(&self, entry: usize, pattern: usize) -> Option<PatternWords<'_>>
        ensures { option_map bits_value result ≡ pattern_at self.now entry pattern }
    {
        let found = self.entries.get(entry)?;
        let places = found.patterns.get(pattern)?;
        Some(PatternWords {
            load: bytes_of(&self.bytes, places.load),
            unload: bytes_of(&self.bytes, places.unload),
        })
    }

    /// The bytes of the text, and the entries in their order.
    pub(crate) fn parts(&self) -> (&[u8], &[TestEntry])
        ensures { self.now ≡ entries_in result.0.now result.1.now }
    {
        (&self.bytes, &self.entries)
    }
}

/// The place of the first entry of a test.
fn entry_place(entries: &[TestEntry], id: TestId) -> Option<usize>
    ensures { result ≡ position (λ (e : KeptEntry). same_test id e.test) entries.now }
{
    entries.iter().position(|entry| id == entry.test)
}

/// The test data that a text says; the text is kept in it.
///
/// `Text` comes exactly where the text says none, with the line of the first word with which no test data begins so, or with the
/// last line where it ends too early.
pub fn read_data(alloc: Global, bytes: Vec<u8>) -> Result<TestData, DataFault>
    requires { length bytes.items ≤ DATA_MOST }
    ensures { IsReadData bytes.items result }
{
    match read_entries(alloc, &bytes) {
        Ok(entries) => Ok(TestData { bytes, entries }),
        Err(Unread::Refused { line }) => Err(DataFault::Text { line }),
        Err(Unread::NoMemory) => Err(DataFault::NoMemory),
    }
}
