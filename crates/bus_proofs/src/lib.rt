//! Lower bounds on the cycles of a chip's plans by cases on its buses: when a proof is accepted, and the law that an accepted
//! proof bounds every good plan.
//!
//! Buses go by their ranks, the widest first, counted from 0; modules and tests by their numbers; widths are in wires, claims
//! in cycles.
#![tactic(auto)]

mod check;
mod laws;
mod nodes;
mod walk;

pub use check::{ProofRoom, check_proof};
pub use laws::{
    accepted_cases_have_no_plan, accepted_proofs_are_bounds, accepted_proofs_have_no_fault,
    less_shows_less, nodes_tell_the_tree, plans_have_rankings, proofs_have_one_fault,
};

/// Why a proof isn't accepted. Lists and nodes go by their places, counted from 0.
#[derive(Clone, Copy, PartialEq, Eq, Debug)]
pub enum ProofFault {
    /// The list at this place is the first that breaks its rule.
    BadList {
        place: usize,
    },
    /// All lists keep their rules; the node at this place breaks its rule, and every node before it is as it should be.
    BadNode {
        place: usize,
    },
    /// All lists keep their rules; the leaf at this place keeps its rule and doesn't hold: it shows `shown` cycles where
    /// `claimed` are claimed; every node before it is as it should be.
    Less {
        place: usize,
        claimed: u64,
        shown: u128,
    },
}
