//! An architecture of test buses settles by bottom-up, top-down and reshuffle steps, until no neighbour costs less. The
//! steps are after TR-ARCHITECT (Goel and Marinissen 2002), for fixed test buses in place of TestRails.
//!
//! Each call takes an architecture that is sound for the table of `width_table`. What it answers is sound for the table. The only error
//! is out of memory, and then the architecture is dropped.
#![tactic(auto)]

mod merging;
mod moving;
mod settling;
mod steps;
mod weighing;

pub use settling::{reshuffle, settle};
pub use steps::{bottom_up, top_down};
