//! What a proof by cases on buses is: a claim in cycles, lists of tests, and a tree of cases whose leaves weigh
//! wires, buses and lists, or price modules.
//!
//! Buses go by their ranks, the widest first, counted from 0; modules and tests by their numbers; widths are in wires. This crate
//! has the types alone: `proof_text` reads and prints them, `bus_proofs` says what is accepted and what that shows, and
//! `proof_search` finds them.

use soc_model::TestId;

/// Lists of a proof's text, at most.
pub const LISTS_MOST: usize = 256;
/// The greatest weight of a proof's text.
pub const WEIGHT_MOST: u64 = 999_999_999;
/// The greatest price of a proof's text.
pub const PRICE_MOST: u64 = 999_999_999_999_999;

/// A list of tests that a leaf may weigh: something of which they can use only a limited amount at one cycle.
#[derive(Drop)]
pub enum TestList {
    /// Each of the tests excludes each other one, so that no two are ever active together.
    Turns { tests: Vec<TestId> },
    /// Tests of which each excludes each other one, with every test over the wires of the bus of this rank that excludes each of them.
    TurnsOn { rank: u64, tests: Vec<TestId> },
    /// At most `most` of the tests are active together: more would pass the limit of power.
    Crowd { most: u64, tests: Vec<TestId> },
    /// The power: a test that is less than `near` away from the limit counts for all of it, one below `near` for nothing.
    Power { near: u64 },
}

/// The weights of a leaf.
#[derive(Drop)]
pub struct Weights {
    /// The weight of a wire beyond the least widths.
    pub wire: u64,
    /// The weight of each rank, from rank 0 on.
    pub ranks: Vec<u64>,
    /// Lists by their places, each with its weight.
    pub lists: Vec<(u64, u64)>,
}

/// What a leaf pays for modules, and how it counts the time on a bus.
#[derive(Drop)]
pub struct Pricing {
    /// The cycles of a cell, at least 1: a bus has as many cells as the cycles below the claim hold, and a module takes as many as
    /// its time fills.
    pub grain: u64,
    /// Modules by their numbers, each with its price. One that isn't named has none.
    pub prices: Vec<(u64, u64)>,
    /// Lists by their places, each with its weight.
    pub lists: Vec<(u64, u64)>,
}

/// A node of a tree of cases.
#[derive(Drop)]
pub enum Node {
    /// The bus of the rank has at most `width` wires, or it has more: a node for each follows.
    Wide {
        rank: u64,
        width: u64,
    },
    /// The module is on the bus of the rank or on that of a twin, or it is on none of them: a node for each follows.
    Place {
        module: u64,
        rank: u64,
        twins: Vec<u64>,
    },
    /// What all tests weigh is more than can go into `claimed - 1` cycles; `claimed` is the claim of the [`Proof`].
    Sum {
        weights: Weights,
    },
    /// The modules that fit together on buses, by their cells, are worth less than all prices; the claim is that of the [`Proof`].
    Pack {
        pricing: Pricing,
    },
}

/// A proof of a bound: its claim, its lists, and its nodes in the order of its text, each before those of its branches.
#[derive(Drop)]
pub struct Proof {
    /// The cycles that no good plan is claimed to go below.
    pub claimed: u64,
    /// The lists of tests.
    pub lists: Vec<TestList>,
    /// The nodes.
    pub nodes: Vec<Node>,
}
