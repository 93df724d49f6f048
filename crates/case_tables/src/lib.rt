//! What the search for proofs knows: the tables of a chip, the cases of a proof, its lists of tests, the weights of a leaf, and mixes of
//! slots.
//!
//! Times are in cycles, widths in wires, powers in the unit of the limits; modules, tests and lists go by their places, buses by their
//! ranks, the widest first. No clause promises more than that each call is safe and ends.
#![tactic(auto)]

mod cases;
mod chip;
mod filling;
mod lists;
mod mix;
mod weights;

pub use cases::{Case, RANGES_MOST, RANKS_MOST, REST};
pub use chip::ChipTables;
pub use filling::tables_of;
pub use lists::{ChosenLists, LISTS_MOST, ListForm, Lists};
pub use mix::Mix;
pub use weights::{LeafWeights, WEIGHT_MOST, scaled_weight};
