//! Checks programs of Shifts, Captures and Rests for one test over the wires of a wrapped module: whether they load each
//! pattern and read each response, whatever the contents are.
//!
//! A program is read from its text word by word; the grammar is a set of whole lists of words. What makes a program right is
//! said of its run, bit by bit (specs/RightPrograms.antt); the checker counts Shifts.
//!
//! A program is accepted exactly where it is right. Errors are its first fault, the line at which a text is refused, and out of
//! memory.
#![tactic(auto)]

mod check;
mod counting;
mod laws;
mod reading;
mod steps;
mod tokens;

pub use check::{ProgramRoom, check_program};
pub use laws::{
    each_program_text_has_an_answer, faultless_programs_are_right, program_faults_are_exact,
    program_texts_have_one_answer,
};
pub use reading::read_program;
use soc_model::TestId;
use thiserror::Error;

/// One step of a program, of one cycle or more.
#[derive(Clone, Copy, PartialEq, Eq, Debug)]
pub enum Entry {
    /// All cells stay for `cycles` cycles, at least one.
    Rest { cycles: u64 },
    /// All cells move one place on in each of `cycles` cycles, at least one.
    Shift { cycles: u64 },
    /// The response of a pattern, counted from 1, is captured in one cycle.
    Capture { pattern: u64 },
}

/// A program for one test over the wires.
#[derive(Drop)]
pub struct Program {
    /// The test, by the numbers of its module and of itself.
    pub test: TestId,
    /// What is done, in this order.
    pub entries: Vec<Entry>,
}

/// Why no program was read of a text.
#[derive(Debug, Drop, Error)]
pub enum ProgramTextFault {
    /// The grammar refuses the text: on this line stands the first word with which no program's text begins so, or the text
    /// ends too early on it.
    #[error("line {line} of the program's text: no program goes on so")]
    Text { line: u64 },
    /// There was no memory for the program.
    #[error("out of memory while the program's text was read")]
    NoMemory,
}

/// What shows first that a program isn't right, with the place of the entry, counted from 0; the end of a program has the
/// number of its entries as its place. At one place the faults come in the order of [`Setup`](Self::Setup),
/// [`Pattern`](Self::Pattern), [`Load`](Self::Load), [`Missing`](Self::Missing), [`Unload`](Self::Unload).
#[derive(Clone, Copy, PartialEq, Eq, Debug)]
pub enum ProgramFault {
    /// The first entry that isn't a Rest comes before the setup of the module is over.
    Setup { place: usize },
    /// A capture of no pattern of the test, or of one that was captured before.
    Pattern { place: usize },
    /// A capture after fewer Shifts than the longest path in has cells, since the capture before it or the beginning.
    Load { place: usize },
    /// A capture or the end after fewer Shifts than the longest path out has cells, since the capture before it.
    Unload { place: usize },
    /// The end, with fewer captures than the test has patterns.
    Missing { place: usize },
}
