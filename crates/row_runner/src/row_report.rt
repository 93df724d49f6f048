//! How many rows passed and failed, and what is said of the latter.
use outside::{NoMemory, extend, push_number};
use std::alloc::Global;

/// The most bytes of an answer that are shown.
const SHOWN_MOST: usize = 2_000;

/// How many rows passed and failed, and what is to be printed of the latter.
#[derive(Drop)]
pub struct RowReport {
    passed: u64,
    failed: u64,
    text: Vec<u8>,
}

impl RowReport {
    /// No row yet.
    pub fn new(alloc: Global) -> RowReport {
        RowReport {
            passed: 0,
            failed: 0,
            text: Vec::new(alloc),
        }
    }

    /// One more row that passed.
    pub fn pass(&mut self) {
        self.passed = self.passed.saturating_add(1);
    }

    /// One more row that failed, by its file and line, with what is said of it.
    pub fn fail(&mut self, name: &str, line: u64, said: &[u8]) -> Result<(), NoMemory> {
        self.failed = self.failed.saturating_add(1);
        extend(&mut self.text, name.as_bytes())?;
        extend(&mut self.text, b":")?;
        push_number(&mut self.text, u128::from(line))?;
        extend(&mut self.text, b": ")?;
        extend(&mut self.text, said.get(..SHOWN_MOST).unwrap_or(said))?;
        extend(&mut self.text, b"\n")
    }

    /// Ends the text with how many rows passed and failed.
    pub fn end(&mut self) -> Result<(), NoMemory> {
        extend(&mut self.text, b"rows: ")?;
        push_number(&mut self.text, u128::from(self.passed))?;
        extend(&mut self.text, b" passed, ")?;
        push_number(&mut self.text, u128::from(self.failed))?;
        extend(&mut self.text, b" failed\n")
    }

    /// The text of the report.
    pub fn text(&self) -> &[u8] {
        &self.text
    }

    /// Whether no row failed.
    pub fn is_clean(&self) -> bool {
        self.failed == 0
    }
}
