//! Lower bounds on the cycles of a chip's plans by cases on the widths of buses: the text of a width tree, and its check.
//!
//! A tree splits on the width of the bus of a module, again and again, and ends in reasons why no good plan of a case is
//! shorter than claimed. Modules go by their numbers, widths are in wires, claims and values in cycles.
//!
//! A tree is accepted exactly where its definition says so; then no good plan has fewer cycles than it claims. Errors are the one
//! fault that comes first, the line at which a text is refused, and out of memory.
#![tactic(auto)]

mod areas;
mod check;
mod intervals;
mod laws;
mod leaves;
mod lists;
mod parts;
mod reading;
mod steps;
mod tables;
mod tokens;
mod walk;

pub use check::{TreeRoom, check_tree};
pub use laws::{
    accepted_trees_are_bounds, accepted_trees_have_no_fault, each_text_has_an_answer,
    nodes_tell_the_tree, refused_once, say_one_tree, trees_are_answered, trees_are_not_refused,
    trees_have_one_fault,
};
pub use reading::read_tree;
use thiserror::Error;

/// A node of a width tree.
#[derive(Drop)]
pub enum Node {
    /// The bus of the module has at most `at` wires, or it has more: a node for each follows.
    Split { module: u64, at: u64 },
    /// The live tests of the module take turns: their lower times on its greatest width, together.
    Time { module: u64 },
    /// The least areas, in wires times cycles, of all modules lie on the wires beside each other.
    Area,
    /// Any two of the modules are too wide for two buses, so that their tests over the wires take turns on one bus.
    Bus { modules: Vec<u64> },
    /// Both modules are too wide for two buses, and no width is in the intervals of both: no good plan is in this case.
    Apart { a: u64, b: u64 },
}

/// A width tree: its claim in cycles, and its nodes in the order of its text, each before those of its branches.
#[derive(Drop)]
pub struct Tree {
    /// The cycles that no good plan is claimed to go below.
    pub claimed: u64,
    /// The nodes.
    pub nodes: Vec<Node>,
}

/// Why no tree was read of a text.
#[derive(Debug, Drop, Error)]
pub enum TreeTextFault {
    /// The grammar refuses the text: on this line stands the first word with which no tree's text begins so, or the text
    /// ends too early on it.
    #[error("line {line} of the tree's text: no tree goes on so")]
    Text { line: u64 },
    /// There was no memory for the tree.
    #[error("out of memory while the tree's text was read")]
    NoMemory,
}

/// Why a tree isn't accepted. Nodes go by their places, counted from 0.
#[derive(Clone, Copy, PartialEq, Eq, Debug)]
pub enum TreeFault {
    /// The node at this place breaks its rule, and every node before it is as it should be.
    BadNode {
        place: usize,
    },
    /// The leaf at this place keeps its rule, and the cycles that it shows are less than `claimed`; every node before it is
    /// as it should be.
    Less {
        place: usize,
        claimed: u64,
        shown: u128,
    },
}
