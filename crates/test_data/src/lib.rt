//! Test data of the user's own: for each test over the wires and each of its patterns the bits of the stimulus and of the
//! response, as a text says them.
//!
//! Data is read exactly where its text says it, and it suits a chip exactly where it has each live test over the wires, all its
//! patterns and all their bits. It is kept as the bytes of the text and where their words stand. Errors are the line at
//! which a text is refused, what shows first that data doesn't suit a chip, and out of memory.
#![tactic(auto)]

mod data;
mod laws;
mod misfits;
mod places;
mod spots;
mod text;

pub use data::{TestData, read_data};
pub use laws::{
    data_is_not_refused, data_refused_once, data_without_misfit_suits, each_text_is_answered,
    say_one_data, some_content_agrees,
};
pub use misfits::{Wanted, first_misfit, wanted_for};
pub use places::{PatternWords, bit_of};
use soc_model::TestId;

/// Bytes of a text of test data, at most.
pub const DATA_MOST: usize = 268_435_456;

/// What test data says of a bit.
#[derive(Clone, Copy, PartialEq, Eq, Debug)]
pub enum DataBit {
    Zero,
    One,
    /// It may be any.
    Any,
}

/// Why no test data was read of a text.
#[derive(Clone, Copy, PartialEq, Eq, Debug)]
pub enum DataFault {
    /// The text is refused: on this line stands the first word with which no test data begins so, or the text ends too early
    /// on it.
    Text { line: u64 },
    /// There was no memory for the data.
    NoMemory,
}

/// What shows first that test data doesn't suit a chip. Wanted numbers are those of the chip.
#[derive(Clone, Copy, PartialEq, Eq, Debug)]
pub enum Misfit {
    /// The first entry whose name is of no live test over the wires, or was given before; or else the first such test of the
    /// chip that has no entry.
    Test {
        test: TestId,
    },
    /// The first entry with another number of patterns than its test.
    Patterns {
        test: TestId,
        wanted: u64,
    },
    /// The first word with another number of bits than it has to have is the load word of a pattern, counted from 1.
    Load {
        test: TestId,
        pattern: u64,
        wanted: u128,
    },
    /// It is the unload word of a pattern.
    Unload {
        test: TestId,
        pattern: u64,
        wanted: u128,
    },
}
