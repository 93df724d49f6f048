//! Tests of the searches for leaves of whole modules: of the linear programmes, of what sets of modules are worth, and of the claims that
//! are found.
//!
//! They stand in a crate of their own, since a crate with tests is proved once more with them.
#![tactic(auto)]

#[cfg(test)]
mod programmes;
#[cfg(test)]
mod searches;
#[cfg(test)]
mod values;
