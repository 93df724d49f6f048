//! Sets of modules that were found, with the ranks and widths that they are the best on.

use crate::cases::RANGES_MOST;
use crate::offers::PackItem;
use outside::{NoMemory, both};
use std::alloc::Global;
use tables::{NONE, filled, item_or, marked, put_item, set_mark, words_for};

/// The most sets that are kept.
const SETS_MOST: usize = 4096;

/// Where a set is the best one: a rank (or the rest) and a width, and the place of its row.
#[derive(Clone, Copy)]
struct SetPlace {
    rank: usize,
    width: usize,
    row: usize,
}

/// No set.
const NOT_FOUND: SetPlace = SetPlace {
    rank: 0,
    width: 0,
    row: NONE,
};

/// Sets that were found.
#[derive(Drop)]
pub(crate) struct Sets {
    words: usize,
    /// How many there may be.
    most: usize,
    found: Vec<SetPlace>,
    /// How many there are.
    pub count: usize,
    /// Rows of marks of modules.
    rows: Vec<u64>,
    /// How many rows there are.
    filled: usize,
    /// For each range the row of its last set.
    last: Vec<usize>,
}

impl Sets {
    /// Room for the sets of `modules` modules on `wires` wires. `NoMemory` where memory runs out.
    pub fn new(alloc: Global, modules: usize, wires: usize) -> Result<Sets, NoMemory> {
        let words = words_for(modules);
        let most = wires.saturating_add(1).saturating_mul(wires).min(SETS_MOST);
        let (found, rows) = both(
            filled(alloc, NOT_FOUND, most),
            filled(alloc, 0u64, most.saturating_mul(words)),
        )?;
        let last = filled(alloc, NONE, RANGES_MOST)?;
        Ok(Sets {
            words,
            most,
            found,
            count: 0,
            rows,
            filled: 0,
            last,
        })
    }

    /// Forgets all sets.
    pub fn clear_sets(&mut self) {
        self.count = 0;
        self.filled = 0;
        for range in 0..self.last.len() {
            put_item(&mut self.last, range, NONE);
        }
    }

    /// Makes a row of some items. Its place, `NONE` where there is no more room.
    pub fn add_row(&mut self, items: &[PackItem]) -> usize {
        let row = self.filled;
        if row >= self.most {
            return NONE;
        }
        let from = row.saturating_mul(self.words);
        for word in 0..self.words {
            put_item(&mut self.rows, from.saturating_add(word), 0);
        }
        for item in items {
            set_mark(&mut self.rows, from, item.module, true);
        }
        self.filled = row.saturating_add(1);
        row
    }

    /// Notes the row that is the best on a range, whose rank is given, at a width, where that isn't the same as before.
    pub fn note(&mut self, range: usize, rank: usize, width: usize, row: usize) {
        let last = item_or(&self.last, range, NONE);
        if row == NONE || row == last || self.count >= self.most {
            return;
        }
        put_item(&mut self.found, self.count, SetPlace { rank, width, row });
        put_item(&mut self.last, range, row);
        self.count = self.count.saturating_add(1);
    }

    /// The rank of a set.
    pub fn rank(&self, at: usize) -> usize {
        item_or(&self.found, at, NOT_FOUND).rank
    }

    /// The width of a set.
    pub fn width(&self, at: usize) -> usize {
        item_or(&self.found, at, NOT_FOUND).width
    }

    /// Whether a set has a module.
    pub fn has(&self, at: usize, module: usize) -> bool {
        let row = item_or(&self.found, at, NOT_FOUND).row;
        row < self.filled && marked(&self.rows, row.saturating_mul(self.words), module)
    }
}
