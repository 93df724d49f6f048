//! The weights of a leaf.

use crate::cases::RANGES_MOST;
use crate::lists::LISTS_MOST;
use outside::NoMemory;
use std::alloc::Global;
use tables::{NONE, copy_items, fill_items, filled, item_or, put_item};

/// The greatest weight of a leaf.
pub const WEIGHT_MOST: u64 = 999_999_999;

/// Weights of a leaf: of wires, of ranks, and of lists by their places among those of the proof.
#[derive(Drop)]
pub struct LeafWeights {
    /// The weight of a wire.
    pub wire: u64,
    /// The weight of each rank.
    pub ranks: Vec<u64>,
    /// How many lists there are.
    pub count: usize,
    /// The place of each list.
    lists: Vec<usize>,
    /// The weight of each list.
    uses: Vec<u64>,
}

/// A weight scaled so that one of `most` becomes `whole`, rounded to the nearest; 0 where `most` is.
pub fn scaled_weight(weight: u64, most: u64, whole: u64) -> u64 {
    let product = u128::from(weight).wrapping_mul(u128::from(whole));
    let rounded = product.wrapping_add(u128::from(most / 2));
    let scaled = rounded.checked_div(u128::from(most)).unwrap_or(0);
    u64::try_from(scaled).unwrap_or(u64::MAX)
}

/// The greatest of the first `count` numbers.
fn greatest_of(list: &[u64], count: usize) -> u64 {
    let mut most: u64 = 0;
    for place in 0..count.min(list.len()) {
        most = most.max(list[place]);
    }
    most
}

/// Scales the first `count` weights.
fn scale_all(list: &mut [u64], count: usize, most: u64, whole: u64) {
    for place in 0..count.min(list.len()) {
        list[place] = scaled_weight(list[place], most, whole);
    }
}

impl LeafWeights {
    /// Room for weights, all 0. `NoMemory` where memory runs out.
    pub fn new(alloc: Global) -> Result<LeafWeights, NoMemory> {
        let ranks = filled(alloc, 0u64, RANGES_MOST)?;
        let lists = filled(alloc, 0usize, LISTS_MOST)?;
        let uses = filled(alloc, 0u64, LISTS_MOST)?;
        Ok(LeafWeights {
            wire: 0,
            ranks,
            count: 0,
            lists,
            uses,
        })
    }

    /// Makes all weights 0.
    pub fn clear_weights(&mut self) {
        self.wire = 0;
        self.count = 0;
        fill_items(&mut self.ranks, 0);
    }

    /// Adds the weight of a list, where it isn't 0.
    pub fn add_list(&mut self, list: usize, weight: u64) {
        if weight > 0 {
            put_item(&mut self.lists, self.count, list);
            put_item(&mut self.uses, self.count, weight);
            self.count = self.count.saturating_add(1);
        }
    }

    /// Makes the weights those of another one.
    pub fn copy_weights(&mut self, other: &LeafWeights) {
        self.wire = other.wire;
        self.count = other.count;
        copy_items(&mut self.ranks, &other.ranks);
        copy_items(&mut self.lists, &other.lists);
        copy_items(&mut self.uses, &other.uses);
    }

    /// The greatest of the weights.
    pub fn greatest(&self) -> u64 {
        let ranks = greatest_of(&self.ranks, self.ranks.len());
        let lists = greatest_of(&self.uses, self.count);
        self.wire.max(ranks).max(lists)
    }

    /// Scales the weights so that one of `most` becomes `whole`.
    pub fn scale(&mut self, most: u64, whole: u64) {
        self.wire = scaled_weight(self.wire, most, whole);
        let count = self.ranks.len();
        scale_all(&mut self.ranks, count, most, whole);
        scale_all(&mut self.uses, self.count, most, whole);
    }

    /// The place of one of the lists among those of the proof, NONE where there is none.
    pub fn list_at(&self, at: usize) -> usize {
        item_or(&self.lists, at, NONE)
    }

    /// The weight of one of the lists.
    pub fn use_at(&self, at: usize) -> u64 {
        item_or(&self.uses, at, 0)
    }

    /// The weight of a rank.
    pub fn rank(&self, rank: usize) -> u64 {
        item_or(&self.ranks, rank, 0)
    }
}
