//! The most that modules are worth on buses, over plain lists of numbers: those that fit on one bus, and all buses on some wires.
//!
//! Times are in cells, widths in wires. Nothing here takes memory, and there are no errors.
#![tactic(auto)]

mod knapsack;
mod sharing;

pub use knapsack::{add_item, clear_row};
pub use sharing::{add_rank, fill_rest};
