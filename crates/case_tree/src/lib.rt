//! The tree of cases that a search for a proof grows: which node is divided how, the weights of each leaf, the length of its text, and the
//! proof that it is.
//!
//! Nodes go by the order in which they were made, modules, tests and lists by their places, ranks from the widest bus on. Widths are in
//! wires, lengths in bytes. All memory of a tree is taken as it is made. No clause promises more than that each call is safe and ends.
#![tactic(auto)]

mod packs;
mod printing;
mod text;
mod tree;

pub use packs::FoundPack;
pub use printing::proof_of;
pub use text::{DIGITS_MOST, TEXT_MOST, nines};
pub use tree::{CaseTree, NodeRule, ProofNames};
