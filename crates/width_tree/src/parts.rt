//! What was read of a tree, up to some word of its text.

use crate::Node;

/// The claim and the nodes that were read whole.
#[derive(Drop)]
pub struct Draft {
    pub claimed: u64,
    pub nodes: Vec<Node>,
    /// How many nodes are still to begin: those of the branches that are open.
    pub wanted: usize,
}

/// What was read of the part that comes next.
#[derive(Drop)]
pub enum Part {
    /// Nothing: the word `Tree` comes.
    WantsTree,
    /// The word `Tree`: its number 1 comes.
    WantsForm,
    /// The word `Bound` comes.
    WantsBound,
    /// The claim comes.
    WantsClaim,
    /// No node has begun.
    Between,
    /// The word `Split`: its module comes.
    WantsSplitModule,
    /// The module of a split: its width comes.
    WantsSplitWidth { module: u64 },
    /// The word `Time`: its module comes.
    WantsTimeModule,
    /// Modules on one bus, which may go on.
    InBus { modules: Vec<u64> },
    /// The word `Apart`: its first module comes.
    WantsFirst,
    /// The first module of `Apart`: the second comes.
    WantsSecond { a: u64 },
}
