//! What was read of a proof, up to some word of its text.

use plan_model::{Node, Pricing, TestList, Weights};
use soc_model::TestId;

/// The claim, the lists and the nodes that were read whole.
#[derive(Drop)]
pub struct Draft {
    pub claimed: u64,
    pub lists: Vec<TestList>,
    pub nodes: Vec<Node>,
    /// How many nodes are still to begin: those of the branches that are open.
    pub wanted: usize,
}

/// A kind of list that names tests.
#[derive(Clone, Copy)]
pub enum ListKind {
    Turns,
    TurnsOn { rank: u64 },
    Crowd { most: u64 },
}

/// A leaf, of which more lists may come.
#[derive(Drop)]
pub enum Leaf {
    Sum { weights: Weights },
    Pack { pricing: Pricing },
}

/// What was read of the part that comes next.
#[derive(Drop)]
pub enum Part {
    /// Nothing: the word `Proof` comes.
    WantsProof,
    /// The word `Proof`: its number 1 comes.
    WantsForm,
    /// The word `Bound` comes.
    WantsBound,
    /// The claim comes.
    WantsClaim,
    /// No list and no node has begun.
    Between,
    /// The word `TurnsOn`: its rank comes.
    WantsListRank,
    /// The word `Crowd`: how many of its tests may be active together comes.
    WantsMost,
    /// The word `Power`: its number comes.
    WantsNear,
    /// A list of tests, which may go on, and may end once it has a test.
    InTests {
        kind: ListKind,
        tests: Vec<TestId>,
    },
    /// A list of tests and the module of one more: that test's number comes.
    WantsTest {
        kind: ListKind,
        tests: Vec<TestId>,
        module: u64,
    },
    /// The word `Wide`: its rank comes.
    WantsWideRank,
    /// The rank of `Wide`: its width comes.
    WantsWidth {
        rank: u64,
    },
    /// The word `Place`: its module comes.
    WantsModule,
    /// The module of `Place`: its rank comes.
    WantsPlaceRank {
        module: u64,
    },
    /// The module and the rank of `Place`, and twins of the rank, which may go on.
    InPlace {
        module: u64,
        rank: u64,
        twins: Vec<u64>,
    },
    /// The word `Sum`: the weight of a wire comes.
    WantsWire,
    /// The weights of a wire and of ranks, which may go on.
    InRanks {
        weights: Weights,
    },
    /// The word `Pack`: the cycles of a cell come.
    WantsGrain,
    /// The cycles of a cell and prices, which may go on.
    InPrices {
        pricing: Pricing,
    },
    /// Prices and the module of one more: that price comes.
    WantsPrice {
        pricing: Pricing,
        module: u64,
    },
    /// A leaf and the word `Of`: the place of a list comes.
    WantsList {
        leaf: Leaf,
    },
    /// A leaf and the place of a list: the list's weight comes.
    WantsListWeight {
        leaf: Leaf,
        list: u64,
    },
    /// A leaf, whose last number is the weight of a list: more lists may come.
    InLists {
        leaf: Leaf,
    },
}

/// What was read of a text so far.
#[derive(Drop)]
pub struct ReadSoFar {
    pub draft: Draft,
    pub part: Part,
}
