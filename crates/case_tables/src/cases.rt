//! A case of a proof: intervals of widths for the first ranks of a ranking, and the ranks that each wired module may be on.

use outside::NoMemory;
use std::alloc::Global;
use tables::{fill_items, filled, item_or, mark_place, marked, put_item, unmark_place};

/// The most known ranks of a case.
pub const RANKS_MOST: usize = 256;
/// What stands in the place of a rank for all ranks that aren't known.
pub const REST: usize = RANKS_MOST;
/// The most ranges of widths of a case: one of each rank, and one of the rest.
pub const RANGES_MOST: usize = RANKS_MOST + 1;
/// The words of a row of marks of ranks.
const WORDS: usize = 4;

/// A case: its wired modules go by their places, its buses by their ranks, the widest first. Widths are in wires.
#[derive(Drop)]
pub struct Case {
    /// The wires.
    wires: usize,
    /// How many wired modules there are.
    pub modules: usize,
    /// How many ranks are known.
    pub known: usize,
    /// For each known rank the least width of its bus.
    low: Vec<usize>,
    /// For each known rank the greatest width of its bus.
    high: Vec<usize>,
    /// For each wired module a row of marks: the known ranks that it may be on.
    may: Vec<u64>,
    /// For each wired module whether it may be on a rank that isn't known.
    rest: Vec<bool>,
}

impl Case {
    /// The case in which no rank is known. `NoMemory` where memory runs out.
    pub fn new(alloc: Global, wires: usize, modules: usize) -> Result<Case, NoMemory> {
        let low = filled(alloc, 0usize, RANKS_MOST)?;
        let high = filled(alloc, 0usize, RANKS_MOST)?;
        let room = modules.saturating_mul(WORDS);
        let may = filled(alloc, 0u64, room)?;
        let rest = filled(alloc, true, modules)?;
        Ok(Case {
            wires,
            modules,
            known: 0,
            low,
            high,
            may,
            rest,
        })
    }

    /// Becomes the case in which no rank is known.
    pub fn clear_ranks(&mut self) {
        self.known = 0;
        fill_items(&mut self.may, 0);
        fill_items(&mut self.rest, true);
    }

    /// The least width of a rank's bus.
    pub fn low_of(&self, rank: usize) -> usize {
        item_or(&self.low, rank, 0)
    }

    /// The greatest width of a rank's bus.
    pub fn high_of(&self, rank: usize) -> usize {
        item_or(&self.high, rank, 0)
    }

    /// Whether a module may be on a rank that isn't known.
    pub fn may_rest(&self, module: usize) -> bool {
        item_or(&self.rest, module, false)
    }

    /// Whether a module may be on a known rank.
    pub fn may_be(&self, module: usize, rank: usize) -> bool {
        marked(&self.may, module.saturating_mul(WORDS), rank)
    }

    /// Says that a module may be on a rank.
    fn allow(&mut self, module: usize, rank: usize) {
        mark_place(&mut self.may, module.saturating_mul(WORDS), rank);
    }

    /// Says that a module may not be on a rank.
    fn forbid(&mut self, module: usize, rank: usize) {
        unmark_place(&mut self.may, module.saturating_mul(WORDS), rank);
    }

    /// The least widths together.
    pub fn low_sum(&self) -> usize {
        let mut sum: usize = 0;
        for rank in 0..self.known {
            sum = sum.saturating_add(self.low_of(rank));
        }
        sum
    }

    /// The wires beyond all least widths.
    pub fn spare(&self) -> usize {
        self.wires.saturating_sub(self.low_sum())
    }

    /// The greatest width of a bus whose rank isn't known.
    pub fn rest_high(&self) -> usize {
        if self.known == 0 {
            return self.wires;
        }
        let last = self.known.saturating_sub(1);
        self.spare().min(self.high_of(last))
    }

    /// Lessens the greatest widths: no bus is wider than the one before it, or takes more than the wires that are spare.
    pub fn tighten(&mut self) {
        let spare = self.spare();
        let mut before = usize::MAX;
        for rank in 0..self.known {
            let most = self.low_of(rank).saturating_add(spare);
            let high = self.high_of(rank).min(most).min(before);
            put_item(&mut self.high, rank, high);
            before = high;
        }
    }

    /// Whether no buses fit the intervals.
    pub fn is_empty(&self) -> bool {
        for rank in 0..self.known {
            if self.high_of(rank) < self.low_of(rank) {
                return true;
            }
        }
        self.low_sum() > self.wires
    }

    /// Says of each module that may be on a rank that isn't known that it may be on a rank, and of no other.
    fn allow_rank(&mut self, rank: usize) {
        for module in 0..self.modules {
            if self.may_rest(module) {
                self.allow(module, rank);
            } else {
                self.forbid(module, rank);
            }
        }
    }

    /// Makes one more rank known.
    fn add_rank(&mut self) {
        let rank = self.known;
        put_item(&mut self.low, rank, 0);
        put_item(&mut self.high, rank, self.wires);
        self.known = rank.saturating_add(1);
        self.allow_rank(rank);
        self.tighten();
    }

    /// Makes the buses from a rank on at most so wide.
    fn narrow(&mut self, rank: usize, width: usize) {
        for at in rank..self.known {
            let high = self.high_of(at).min(width);
            put_item(&mut self.high, at, high);
        }
    }

    /// Makes the buses up to a rank at least so wide.
    fn widen(&mut self, rank: usize, width: usize) {
        for at in 0..rank.saturating_add(1) {
            let low = self.low_of(at).max(width);
            put_item(&mut self.low, at, low);
        }
    }

    /// Becomes the first or the second case of a division by the width of a rank's bus: at most `width` wires, or more.
    pub fn wide(&mut self, rank: usize, width: usize, second: bool) {
        if rank >= self.known {
            self.add_rank();
        }
        if second {
            self.widen(rank, width.saturating_add(1));
        } else {
            self.narrow(rank, width);
        }
        self.tighten();
    }

    /// Whether the same modules may be on two ranks.
    fn same_modules(&self, rank: usize, other: usize) -> bool {
        for module in 0..self.modules {
            if self.may_be(module, rank) != self.may_be(module, other) {
                return false;
            }
        }
        true
    }

    /// Whether a rank has a single width.
    fn is_fixed(&self, rank: usize) -> bool {
        self.low_of(rank) == self.high_of(rank)
    }

    /// Whether a rank is a twin of another one: the buses of both have the same width, and the same modules may be on them.
    pub fn is_twin(&self, rank: usize, other: usize) -> bool {
        if rank == other || self.low_of(rank) != self.low_of(other) {
            return false;
        }
        self.is_fixed(rank) && self.is_fixed(other) && self.same_modules(rank, other)
    }

    /// Leaves a module a single rank, where it may be on that, else none.
    fn only_on(&mut self, module: usize, rank: usize) {
        let may = self.may_be(module, rank);
        let from = module.saturating_mul(WORDS);
        for word in 0..WORDS {
            put_item(&mut self.may, from.saturating_add(word), 0);
        }
        put_item(&mut self.rest, module, false);
        if may {
            self.allow(module, rank);
        }
    }

    /// Says that a module is on none of some ranks.
    fn not_on(&mut self, module: usize, ranks: &[usize]) {
        for at in 0..ranks.len() {
            self.forbid(module, ranks[at]);
        }
    }

    /// Becomes the first or the second case of a division by the place of a module: on the first of some ranks, which are
    /// twins, or on none of them.
    pub fn place(&mut self, module: usize, ranks: &[usize], second: bool) {
        if second {
            self.not_on(module, ranks);
        } else {
            self.only_on(module, item_or(ranks, 0, 0));
        }
    }
}
