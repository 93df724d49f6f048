//! From a tester's fail log to the failing cells: what a log says, and which response bit of which test a tester reads at a
//! cycle on a wire.
//!
//! A log is read exactly where it says one, and the bit that is answered is the one that the run of `plan_model` shows there, for
//! every content. Errors are the line at which a log is refused, and out of memory.
#![tactic(auto)]

mod cells;
mod laws;
mod locator;
mod log;
mod tokens;
mod wired;

pub use laws::{
    each_log_has_an_answer, logs_are_not_refused, logs_refused_once, say_one_log, spots_are_one,
    spots_are_reads,
};
pub use locator::Locator;
pub use log::read_log;
use soc_model::TestId;

/// A cell whose bit is part of a response.
#[derive(Clone, Copy, PartialEq, Eq, Debug)]
pub enum Cell {
    /// A cell of a scan chain of the module: the place of the chain, and that of the cell in it, both counted from 0; the
    /// cell at place 0 is nearest to the scan input.
    Flop { chain: usize, place: u64 },
    /// The cell of an output terminal of the module, counted from 0.
    Out { number: u64 },
}

/// What a tester reads: a bit of the response of a test.
#[derive(Clone, Copy, PartialEq, Eq, Debug)]
pub struct Spot {
    /// The test, by the numbers of its module and of itself.
    pub test: TestId,
    /// The pattern, counted from 1.
    pub pattern: u64,
    /// The cell that the pattern's capture filled.
    pub cell: Cell,
}

/// Why no fails were read of a text.
#[derive(Clone, Copy, PartialEq, Eq, Debug)]
pub enum LogFault {
    /// The grammar refuses the text: on this line stands the first word with which no log begins so, or the text ends too
    /// early on it.
    Text { line: u64 },
    /// There was no memory for the log.
    NoMemory,
}
