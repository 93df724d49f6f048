//! The commands that check a bound of a chip's plans, or draw one: `tree` checks a width tree, `bound` a proof by cases on buses, and
//! `picture` draws a plan, maybe with the bound of such a proof. Each is decided before anything is written; no good plan has
//! fewer cycles than a bound that is answered.
#![tactic(auto)]

mod bound_files;
mod checking;
mod deciding;
mod drawing;
mod laws;
mod proof_lines;
mod tree_lines;
mod trees;

pub use deciding::{decide_bound, decide_picture_with_proof, decide_tree};
pub use drawing::decide_picture;
pub use laws::bounds_are_trustworthy;
