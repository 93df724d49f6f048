//! Checks a plan: the first rule of good plans that it breaks, and what shows that first.
//!
//! A plan passes exactly where it keeps the rules of `plan_model` and its certificate is accepted (`bound_certificate`); else its
//! one fault is answered. Errors are that fault and out of memory.
#![tactic(auto)]

mod check;
mod clashes;
mod events;
mod judging;
mod known;
mod lookups;
mod meetings;
mod named;
mod order;
mod placed;
mod places;
mod power;
mod space;
mod starts;
mod verdict;
mod widths;
mod wrappers;

use bound_certificate::BoundFault;
pub use check::{Scratch, check_plan};
pub use judging::judge_plan;
use soc_model::TestId;

/// The first rule of good plans that a plan breaks, and what shows that first. Buses go by their places, modules and
/// tests by their numbers; of two tests the first in the order of the chip comes first.
#[derive(Clone, Copy, PartialEq, Eq, Debug)]
pub enum PlanFault {
    /// F1: a bus without a wire, or more wires than there are.
    Width { bus: usize },
    /// F2: a module that isn't in the chip.
    UnknownModule { module: u64 },
    /// F3: a module that is listed twice, or one with a test over the wires that is listed nowhere.
    ModulePlace { module: u64 },
    /// F4: a wrapper that isn't wanted, is repeated or doesn't fit its bus, or one that is missing.
    WrapperList { module: u64, scan: bool },
    /// F5: a wrapper that isn't proper.
    Cells { module: u64, scan: bool },
    /// F6: a start of no live test, a second start, or a test without a start.
    Tests { test: TestId },
    /// F7: two tests at one cycle on one bus.
    Wire { a: TestId, b: TestId, cycle: u64 },
    /// F8: two tests of one module at one cycle.
    Busy { a: TestId, b: TestId, cycle: u64 },
    /// F9: a test of a module's parent (the first) and one of the module at one cycle.
    Parent { a: TestId, b: TestId, cycle: u64 },
    /// F10: a test that starts before one that precedes it has ended.
    Before { a: TestId, b: TestId },
    /// F11: more power than the limit at a cycle, and that power.
    Power { cycle: u64, sum: u64 },
    /// F12: a cycle count that isn't the greatest end, which is the right one.
    Cycles { right: u64 },
    /// F13: a certificate that isn't accepted.
    Bound(BoundFault),
}
