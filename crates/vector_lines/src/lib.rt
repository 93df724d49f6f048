//! What a tester drives and compares under a good plan, cycle by cycle, for any contents: the [`Vectors`] of the plan. A
//! [`Lane`] is a live test as its plan places it, and a [`Path`] one of its chains, by the numbers of the bits that it loads
//! and answers.
//!
//! The vectors are what the runs of `plan_model` carry and show. They are made from the contents ([`Contents`]), with no cells
//! that are stepped. [`MadeContents`] are those that a seed fixes. The one error is out of memory: all memory is taken as a value
//! is made, none for a line.
//!
//! Lengths are in cells, and each cell and each wire has one bit. Tests as a plan places them, and the wrappers of their
//! modules, come from `live_tests`.
#![tactic(auto)]

mod building;
mod contents;
mod lane;
mod laws;
mod layout;
mod lines;
mod made;
mod numbers;
mod path;
mod placing;
mod stretches;
mod vectors;

pub use contents::{Contents, PatternBits};
pub use lane::Lane;
pub use laws::{
    made_contents_stand, responses_are_numbered, responses_have_lengths, stimuli_are_numbered,
};
pub use layout::Layout;
pub use made::{Line, MadeContents, bit_of};
pub use numbers::{NumberRun, Numbers, Walk, next_value, walk_from};
pub use path::Path;
pub use placing::placed_lanes;
pub use vectors::Vectors;
