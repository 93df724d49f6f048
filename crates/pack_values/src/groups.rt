//! Ranks on which a bus of a width is worth the same: the same modules with a price may be there, and no list turns on one of them.

use crate::cases::{PackCase, RANGES_MOST, REST};
use crate::prices::Prices;
use crate::uses::Uses;
use outside::{NoMemory, both};
use std::alloc::Global;
use tables::{filled, item_or, marked, put_item, set_mark, words_for};

/// The groups of the ranges of a case: a range is a known rank, at its place, or the rest, behind them.
#[derive(Drop)]
pub(crate) struct Groups {
    words: usize,
    /// How many ranges there are.
    pub count: usize,
    /// For each range the first one of its group.
    group: Vec<usize>,
    /// For each range whether a list turns on its bus.
    turned: Vec<bool>,
    /// For each range a row of marks: the modules with a price that may be there.
    rows: Vec<u64>,
}

/// The rank of a range.
pub(crate) fn rank_of(case: &PackCase, range: usize) -> usize {
    if range < case.known { range } else { REST }
}

impl Groups {
    /// Room for the cases of `modules` modules. `NoMemory` where memory runs out.
    pub fn new(alloc: Global, modules: usize) -> Result<Groups, NoMemory> {
        let words = words_for(modules);
        let (group, turned) = both(
            filled(alloc, 0usize, RANGES_MOST),
            filled(alloc, false, RANGES_MOST),
        )?;
        let rows = filled(alloc, 0u64, words.saturating_mul(RANGES_MOST))?;
        Ok(Groups {
            words,
            count: 0,
            group,
            turned,
            rows,
        })
    }

    /// Takes the ranges of a case.
    pub fn take_ranges<U: Uses>(&mut self, case: &PackCase, uses: &U, prices: &Prices) {
        self.count = case.known.saturating_add(1);
        for range in 0..self.count {
            put_item(&mut self.turned, range, false);
        }
        for at in 0..prices.count {
            let rank = uses.rank(prices.list(at));
            if rank < case.known {
                put_item(&mut self.turned, rank, true);
            }
        }
        for range in 0..self.count {
            self.take_modules(case, prices, range);
            let group = self.find(range);
            put_item(&mut self.group, range, group);
        }
    }

    /// Notes the modules with a price that may be on a range.
    fn take_modules(&mut self, case: &PackCase, prices: &Prices, range: usize) {
        let from = range.saturating_mul(self.words);
        let rank = rank_of(case, range);
        for module in 0..case.modules {
            let on = prices.price(module) > 0 && case.may_be(module, rank);
            set_mark(&mut self.rows, from, module, on);
        }
    }

    /// Whether the same modules with a price may be on two ranges.
    fn same_modules(&self, one: usize, other: usize) -> bool {
        let one = one.saturating_mul(self.words);
        let other = other.saturating_mul(self.words);
        for word in 0..self.words {
            let left = item_or(&self.rows, one.saturating_add(word), 0);
            if left != item_or(&self.rows, other.saturating_add(word), 0) {
                return false;
            }
        }
        true
    }

    /// The first range whose buses are worth the same as those of a range.
    fn find(&self, range: usize) -> usize {
        if item_or(&self.turned, range, true) {
            return range;
        }
        for other in 0..range {
            if !item_or(&self.turned, other, true) && self.same_modules(range, other) {
                return other;
            }
        }
        range
    }

    /// The first range of a range's group.
    pub fn group_of(&self, range: usize) -> usize {
        item_or(&self.group, range, 0)
    }

    /// Whether a module with a price may be on a range.
    pub fn has(&self, range: usize, module: usize) -> bool {
        marked(&self.rows, range.saturating_mul(self.words), module)
    }

    /// Whether a range is of a group and has buses of a width.
    pub fn has_width(&self, case: &PackCase, group: usize, range: usize, width: usize) -> bool {
        let rank = rank_of(case, range);
        self.group_of(range) == group && width >= case.low(rank).max(1) && width <= case.high(rank)
    }

    /// Whether some range of a group has buses of a width.
    pub fn is_wanted(&self, case: &PackCase, group: usize, width: usize) -> bool {
        for range in group..self.count {
            if self.has_width(case, group, range, width) {
                return true;
            }
        }
        false
    }

    /// The least width of at least 1 of a group's buses; the greatest number where there is none.
    pub fn first_width(&self, case: &PackCase, group: usize) -> usize {
        let mut least = usize::MAX;
        for range in group..self.count {
            let first = case.low(rank_of(case, range)).max(1);
            if self.has_width(case, group, range, first) {
                least = least.min(first);
            }
        }
        least
    }

    /// The greatest width of a group's buses.
    pub fn last_width(&self, case: &PackCase, group: usize) -> usize {
        let mut most = 0;
        for range in group..self.count {
            if self.group_of(range) == group {
                most = most.max(case.high(rank_of(case, range)));
            }
        }
        most
    }
}
