//! The game of a case, by which the weights of a leaf are found: parts of a whole for the resources (the buses of the known ranks, the
//! spare wires, lists of tests) against choices of slots.
//!
//! Each module answers the parts with the slot that costs it least, and all answers together are a cut: how much of each resource they
//! use. A matrix game has the best parts against all cuts so far. The play ends where neither side gains by more, after a fixed number of
//! cuts, or where the parts hold as weights at the goal. Then the best mix of the cuts says how long each test is tested. No clause
//! promises more than that each call is safe and ends.
#![tactic(auto)]

mod answers;
mod fractions;
mod game;
mod games;
mod mixing;
mod picks;
mod play;
mod resources;
mod scale;

pub use game::MatrixGame;
pub use games::CaseGame;
pub use picks::Pick;
