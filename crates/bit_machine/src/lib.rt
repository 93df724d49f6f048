//! Wrapped modules, bit by bit (the wrapped cores of Iyengar, Chakrabarty and Marinissen 2002). One module in its wrapper
//! is a [`Session`]: shift and capture do to its chains what one cycle of a test does. A whole chip under a good plan is a
//! [`Chip`]: each cycle drives its wires, does the operations of all tests that are active, and shows what is read.
//!
//! A cycle is the step that the runs of `plan_model` define, for the made contents that a seed fixes. The one error is out of
//! memory: all memory is taken as a value is made, none for a cycle.
//!
//! A cycle is one call; lengths are in cells, and each cell and each wire has one bit. Tests as a plan places them, with the
//! chains of their wrappers, come from `vector_lines`.
#![tactic(auto)]

mod bits;
mod capturing;
mod chip;
mod laws;
mod machine;
mod ring;
mod session;
mod stepped;
mod stepping;
mod words;

pub use chip::{Chip, Report};
pub use laws::held_stimuli_stand;
pub use session::Session;
