//! What an attempt leaves to those after it.

use crate::known_sets::{part, part_mut};
use crate::listing::{LISTS_MOST, Listing};
use crate::module_set::{copy_row, words_of};
use crate::points::Point;
use outside::NoMemory;
use pack_values::REST;
use std::alloc::Global;
use tables::{NONE, filled, item_or, put_item};

/// The most sets that are left.
const SETS_MOST: usize = 256;

/// What an attempt leaves to those after it: its best prices with the worths of lists, and the sets of modules that counted in its
/// programme, at most 256 of them.
#[derive(Drop)]
pub struct Warm {
    modules: usize,
    words: usize,
    /// Whether there are prices.
    whole: bool,
    /// The price of each module, in parts of a whole.
    prices: Vec<i64>,
    /// How many lists have a worth.
    count: usize,
    /// Their places among the lists of the proof.
    places: Vec<usize>,
    /// The worth of each, in parts of a whole.
    worths: Vec<i64>,
    /// How many sets there are.
    sets: usize,
    /// For each set the rank that it was on, `REST` for the rest.
    ranks: Vec<usize>,
    /// For each set a row of marks: its modules.
    rows: Vec<u64>,
}

/// Copies the first `count` items of a list.
fn copy_front<T: Copy>(to: &mut [T], from: &[T], count: usize) {
    for place in 0..count.min(to.len()).min(from.len()) {
        to[place] = from[place];
    }
}

/// Whether two rows of marks are the same.
fn same_row(one: &[u64], other: &[u64]) -> bool {
    for word in 0..one.len().min(other.len()) {
        if one[word] != other[word] {
            return false;
        }
    }
    true
}

/// Whether more than one place of a row is marked.
fn has_two(row: &[u64]) -> bool {
    let mut marks: u32 = 0;
    for word in 0..row.len() {
        marks = marks.saturating_add(row[word].count_ones());
    }
    marks > 1
}

impl Warm {
    /// Nothing was left yet for a chip of `modules` modules. `NoMemory` where memory runs out.
    pub fn new(alloc: Global, modules: usize) -> Result<Warm, NoMemory> {
        let words = words_of(modules);
        let prices = filled(alloc, 0i64, modules)?;
        let places = filled(alloc, NONE, LISTS_MOST)?;
        let worths = filled(alloc, 0i64, LISTS_MOST)?;
        let ranks = filled(alloc, REST, SETS_MOST)?;
        let rows = filled(alloc, 0u64, SETS_MOST.saturating_mul(words))?;
        Ok(Warm {
            modules,
            words,
            whole: false,
            prices,
            count: 0,
            places,
            worths,
            sets: 0,
            ranks,
            rows,
        })
    }

    /// Forgets all.
    pub fn clear_warm(&mut self) {
        self.whole = false;
        self.count = 0;
        self.sets = 0;
    }

    /// Becomes what another one is.
    pub fn copy_warm(&mut self, other: &Warm) {
        self.whole = other.whole;
        self.count = other.count;
        self.sets = other.sets;
        copy_front(&mut self.prices, &other.prices, other.modules);
        copy_front(&mut self.places, &other.places, other.count);
        copy_front(&mut self.worths, &other.worths, other.count);
        copy_front(&mut self.ranks, &other.ranks, other.sets);
        let words = other.sets.saturating_mul(other.words);
        copy_front(&mut self.rows, &other.rows, words);
    }

    /// Whether there are prices.
    pub fn has_prices(&self) -> bool {
        self.whole
    }

    /// How many lists have a worth.
    pub fn lists(&self) -> usize {
        self.count
    }

    /// The place among the lists of the proof of one of them, NONE where it isn't there.
    pub fn list(&self, at: usize) -> usize {
        if at < self.count {
            item_or(&self.places, at, NONE)
        } else {
            NONE
        }
    }

    /// The worth of one of them, in parts of a whole.
    pub(crate) fn worth(&self, at: usize) -> i64 {
        item_or(&self.worths, at, 0)
    }

    /// The price of a module, in parts of a whole.
    pub(crate) fn price(&self, module: usize) -> i64 {
        item_or(&self.prices, module, 0)
    }

    /// How many sets there are.
    pub(crate) fn sets(&self) -> usize {
        self.sets
    }

    /// The rank that a set was on, `REST` for the rest.
    pub(crate) fn rank(&self, set: usize) -> usize {
        item_or(&self.ranks, set, REST)
    }

    /// The modules of a set, as a row of marks.
    pub(crate) fn row(&self, set: usize) -> &[u64] {
        part(&self.rows, set.saturating_mul(self.words), self.words)
    }

    /// Takes prices, and the worths of lists that have one. There are no sets yet.
    pub(crate) fn take_point(&mut self, point: &Point, lists: &Listing) {
        self.clear_warm();
        self.whole = true;
        for module in 0..self.modules {
            put_item(&mut self.prices, module, point.price(module));
        }
        for at in 0..lists.count {
            self.add_list(lists.list(at), point.worth(at));
        }
    }

    /// Adds a list, where it has a worth.
    fn add_list(&mut self, list: usize, worth: i64) {
        if worth > 0 && self.count < LISTS_MOST {
            put_item(&mut self.places, self.count, list);
            put_item(&mut self.worths, self.count, worth);
            self.count = self.count.saturating_add(1);
        }
    }

    /// Whether a set is there already.
    fn has_set(&self, row: &[u64]) -> bool {
        for set in 0..self.sets {
            if same_row(self.row(set), row) {
                return true;
            }
        }
        false
    }

    /// Adds the set of modules of a row of marks that was on a rank, where it has two modules and isn't there yet.
    pub(crate) fn add_set(&mut self, rank: usize, row: &[u64]) {
        if self.sets >= SETS_MOST || !has_two(row) || self.has_set(row) {
            return;
        }
        put_item(&mut self.ranks, self.sets, rank);
        let from = self.sets.saturating_mul(self.words);
        copy_row(part_mut(&mut self.rows, from, self.words), row);
        self.sets = self.sets.saturating_add(1);
    }
}
