//! Laws of lists, ranges, options, numbers and their tests that proofs of more than one crate use. There is no code here.
#![tactic(auto)]
