//! Reads and prints the text of a test plan.
//!
//! The grammar is a set of whole lists of words: the words of a plan's lines, where keywords may be written in any case
//! and numbers by any digits of their value. What begins a list of the set, and where a text first leaves all of them,
//! follows from that set alone.
//!
//! A plan that is printed is read back. Errors are the line at which a text is refused, and out of memory.
#![tactic(auto)]

mod laws;
mod parts;
mod printing;
mod reading;
mod steps;
mod tokens;

pub use laws::{
    each_text_has_an_answer, plans_are_answered, plans_are_not_refused, printed_plans_are_answered,
    printed_plans_are_read, refused_once, say_one_plan,
};
pub use printing::print_plan;
pub use reading::read_plan;
use thiserror::Error;

/// Why no plan was read of a text.
#[derive(Debug, Drop, Error)]
pub enum PlanTextFault {
    /// The grammar refuses the text: on this line stands the first word with which no plan's text begins so, or the text
    /// ends too early on it.
    #[error("line {line} of the plan's text: no plan goes on so")]
    Text { line: u64 },
    /// There was no memory for the plan.
    #[error("out of memory while the plan's text was read")]
    NoMemory,
}
