//! Searches for an architecture of fixed buses whose scheduled tests end early: buses, and an order of the tests, are
//! changed at random, and each change is weighed by the schedule that comes of it. The cycles of a test are those
//! in packed wrappers.
//!
//! The search owes nothing of what it finds: whoever makes a plan of it checks that plan. Times are in cycles, widths in
//! wires; modules, tests and buses go by their places.
#![tactic(auto)]

mod order;
mod rounds;
mod search;
mod setting;
mod state;
mod weighing;

pub use arch_schedule::TimedTests;
pub use search::{Found, Search};
