//! The leaves Pack of a tree.

use outside::NoMemory;
use std::alloc::Global;
use tables::{NONE, filled, item_or, put_item};

/// The numbers of a leaf Pack before its prices: its claim, the cycles of a cell, the bytes of its line, how many prices are above 0,
/// and how many lists it has.
const HEAD: usize = 5;

/// A leaf Pack that was found.
#[derive(Clone, Copy)]
pub struct FoundPack<'a> {
    /// The claim at which it holds, in cycles.
    pub claim: u64,
    /// The cycles of a cell.
    pub grain: u64,
    /// The price of each wired module.
    pub prices: &'a [u64],
    /// How many lists it has.
    pub count: usize,
    /// The place of each of them among the lists of the proof.
    pub lists: &'a [usize],
    /// The weight of each of them.
    pub weights: &'a [u64],
}

/// What a leaf may be in the text.
#[derive(Clone, Copy)]
pub(crate) struct LeafChoice {
    /// The greatest claim at which its weights hold, in cycles.
    pub sum: u64,
    /// Where the leaf Pack stands of the case that it is a part of, NONE where there is none.
    pub taken: usize,
    /// Where its own leaf Pack stands, NONE where there is none.
    pub own: usize,
}

/// A leaf that has its weights alone.
const WEIGHTS_ALONE: LeafChoice = LeafChoice {
    sum: u64::MAX,
    taken: NONE,
    own: NONE,
};

/// The leaves Pack of a tree, and which node has which.
#[derive(Drop)]
pub(crate) struct LeafPacks {
    modules: usize,
    /// The numbers of all leaves: each has its head, then the price of each module, then its lists, each before its weight.
    pool: Vec<u64>,
    /// How much of the pool is taken.
    pooled: usize,
    /// What each node may be.
    choices: Vec<LeafChoice>,
}

impl LeafPacks {
    /// Room for leaves Pack of a chip of `modules` wired modules: `pool_most` numbers, for `nodes_most` nodes. `NoMemory` where there
    /// is none.
    pub fn new(
        alloc: Global,
        modules: usize,
        nodes_most: usize,
        pool_most: usize,
    ) -> Result<LeafPacks, NoMemory> {
        let pool = filled(alloc, 0u64, pool_most)?;
        let choices = filled(alloc, WEIGHTS_ALONE, nodes_most)?;
        Ok(LeafPacks {
            modules,
            pool,
            pooled: 0,
            choices,
        })
    }

    /// Whether there is room for one more leaf of `lists` lists.
    pub fn has_room(&self, lists: usize) -> bool {
        let numbers = HEAD
            .saturating_add(self.modules)
            .saturating_add(lists.saturating_mul(2));
        self.pooled.saturating_add(numbers) <= self.pool.len()
    }

    /// Adds a number to the pool.
    fn push(&mut self, number: u64) {
        put_item(&mut self.pool, self.pooled, number);
        self.pooled = self.pooled.saturating_add(1);
    }

    /// Adds a leaf, the line of which has `length` bytes and `priced` prices. Answers where it stands, NONE where there is no room.
    pub fn add(&mut self, found: FoundPack<'_>, length: u64, priced: u64) -> usize {
        if !self.has_room(found.count) {
            return NONE;
        }
        let pack = self.pooled;
        self.push(found.claim);
        self.push(found.grain);
        self.push(length);
        self.push(priced);
        self.push(found.count as u64);
        for module in 0..self.modules {
            self.push(item_or(found.prices, module, 0));
        }
        for at in 0..found.count {
            self.push(item_or(found.lists, at, NONE) as u64);
            self.push(item_or(found.weights, at, 0));
        }
        pack
    }

    /// A number of a leaf; 0 where there is none.
    fn number(&self, pack: usize, place: usize) -> u64 {
        if pack == NONE {
            return 0;
        }
        item_or(&self.pool, pack.saturating_add(place), 0)
    }

    /// The claim of a leaf, in cycles; 0 where there is none.
    pub fn claim(&self, pack: usize) -> u64 {
        self.number(pack, 0)
    }

    /// The cycles of a cell of a leaf.
    pub fn grain(&self, pack: usize) -> u64 {
        self.number(pack, 1)
    }

    /// The bytes of the line of a leaf; 0 where there is none.
    pub fn length(&self, pack: usize) -> u64 {
        self.number(pack, 2)
    }

    /// How many prices of a leaf are above 0.
    pub fn priced(&self, pack: usize) -> u64 {
        self.number(pack, 3)
    }

    /// How many lists a leaf has.
    pub fn lists(&self, pack: usize) -> usize {
        self.number(pack, 4) as usize
    }

    /// The price of a module.
    pub fn price(&self, pack: usize, module: usize) -> u64 {
        self.number(pack, HEAD.saturating_add(module))
    }

    /// Where a list of a leaf stands among its numbers.
    fn place_of(&self, at: usize) -> usize {
        HEAD.saturating_add(self.modules)
            .saturating_add(at.saturating_mul(2))
    }

    /// The place of a list of a leaf among the lists of the proof.
    pub fn list(&self, pack: usize, at: usize) -> usize {
        self.number(pack, self.place_of(at)) as usize
    }

    /// The weight of a list of a leaf.
    pub fn weight(&self, pack: usize, at: usize) -> u64 {
        self.number(pack, self.place_of(at).saturating_add(1))
    }

    /// What a node may be.
    pub fn choice(&self, node: usize) -> LeafChoice {
        item_or(&self.choices, node, WEIGHTS_ALONE)
    }

    /// Says what a node may be.
    pub fn set_choice(&mut self, node: usize, choice: LeafChoice) {
        put_item(&mut self.choices, node, choice);
    }

    /// The leaf Pack that a node is in a text of this claim: NONE where its weights hold at the claim, else the one of the case that it
    /// is a part of, where that holds, else its own.
    pub fn of_node(&self, node: usize, claim: u64) -> usize {
        let choice = self.choice(node);
        if choice.sum >= claim {
            return NONE;
        }
        if self.claim(choice.taken) >= claim {
            return choice.taken;
        }
        choice.own
    }
}
