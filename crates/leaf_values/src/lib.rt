//! What weights of a leaf show: the slots of the modules in a case, what tests pay for lists, and the greatest claim at which the
//! weights hold.
//!
//! A slot is a width at which the time of a module falls, on a rank that it may be on. Each module takes the slot that costs it least;
//! what the weights show is found exactly, in 128 bits. Times are in cycles, widths in wires, powers in the unit of the limits. No clause
//! promises more than that each call is safe and ends.
#![tactic(auto)]

mod basis;
mod pays;
mod power;
mod power_lists;
mod power_uses;
mod slots;
mod values;

pub use basis::LeafBasis;
pub use pays::Pays;
pub use power_uses::PowerUses;
pub use slots::{Range, Slots, Spans, StepRange};
pub use values::LeafValues;
