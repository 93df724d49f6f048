//! Reads and prints the text of limits: wires, power, budget, precedences and power profiles for the tests of a chip.
#![tactic(auto)]

mod build;
mod collect;
mod graph;
mod items;
mod laws;
mod lexicon;
mod loops;
mod named;
mod places;
mod print;
mod read;
mod reader;
mod refusals;
mod whole;

pub use laws::{
    each_text_has_an_answer, loops_are_where_no_rank_is, loops_go_round,
    printed_limits_are_answered, printed_limits_are_read, texts_are_answered,
    texts_have_one_answer,
};
use outside::{NoMemory, Unread};
pub use print::print_limits;
pub use read::{Bounds, read_bounds, read_limits};
use soc_model::TestId;
use thiserror::Error;

/// Prefixes that a search may enter where the text names no budget.
pub const BUDGET: u64 = 20_000;

/// Why limits were not read. The refusals are tried in this order.
#[derive(Debug, Drop, Error)]
pub enum LimFault {
    /// No text of limits begins with the words up to one on this line, or the text ends too early on this line.
    #[error("line {line} of the limits' text: no limits are written so")]
    Text { line: u64 },
    /// The item whose keyword stands on this line is the first that names a test which isn't in the chip.
    #[error("line {line} of the limits' text: the name stands for none of the chip's tests")]
    UnknownTest { line: u64 },
    /// The precedences of live tests have this loop: each test precedes the next, and the last the first.
    #[error("the precedences of the limits have a cycle")]
    Cycle { tests: Vec<TestId> },
    /// This live test is the first with a power that passes the limit, and this is the first such power of it.
    #[error("a power of {power}, drawn by one of the tests alone, passes the limit")]
    TestPower { test: TestId, power: u64 },
    /// There was no memory for the limits.
    #[error("out of memory while the limits' text was read")]
    NoMemory,
}

impl From<NoMemory> for LimFault {
    ghost use Rattle.std.specs.Prelude.{◌≡◌};
    ghost use Rattle.limits_text.specs.declared.LimFault.TheVariants.{NoMemory};

    ghost from_gives = { λ _ fault. fault ≡ NoMemory };

    fn from(_want: NoMemory) -> LimFault {
        LimFault::NoMemory
    }
}

impl From<Unread> for LimFault {
    ghost use Rattle.std.specs.Prelude.{◌≡◌};
    ghost use Rattle.limits_text.specs.Answers.{fault_of};

    ghost from_gives = { λ unread fault. fault ≡ fault_of unread };

    fn from(unread: Unread) -> LimFault {
        match unread {
            Unread::Refused { line } => LimFault::Text { line },
            Unread::NoMemory => LimFault::NoMemory,
        }
    }
}
