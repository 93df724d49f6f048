//! Looks for lists of tests by which a leaf can be weighed: those that a mix of slots takes more of than of the other resources, and
//! those of the elementary bounds.
//!
//! Lists of turns are cliques of tests that exclude each other, crowds are tests of which too many pass the power limit. Those that are
//! found are added to the lists of the proof, and chosen. No clause promises more than that each call is safe and ends.
#![tactic(auto)]

mod cliques;
mod crowds;
mod elementary;
mod finding;
mod graph;
mod levels;

pub use cliques::Cliques;
pub use crowds::{Crowds, MixedPowers};
pub use elementary::add_elementary_lists;
pub use finding::ListSearch;
