//! A case of a proof as plain tables: the times of the modules, the widths of the known ranks, and who may be where.

use outside::{NoMemory, both};
use std::alloc::Global;
use tables::{fill_items, filled, item_or, marked, put_item, set_mark, words_for};

/// The mark of the rest among ranks: the buses whose ranks aren't known.
pub const REST: usize = 256;
/// Ranges of a case, at most: 256 ranks and the rest.
pub(crate) const RANGES_MOST: usize = 257;

/// A case that isn't empty, and is tightened. Ranks go from 0 on, at most 256 are known.
#[derive(Drop)]
pub struct PackCase {
    /// The wires.
    pub wires: usize,
    /// How many wired modules there are.
    pub modules: usize,
    /// How many ranks are known.
    pub known: usize,
    /// The wires beyond all least widths.
    pub spare: usize,
    /// The greatest width of a bus of the rest.
    pub rest_high: usize,
    /// The words of a row of marks of modules.
    pub(crate) words: usize,
    /// The cycles of a module at [module * wires + width - 1].
    times: Vec<u64>,
    /// The cycles of the self tests of each module.
    own: Vec<u64>,
    /// For each width a row of marks: the modules whose time is less than at one wire fewer.
    falls: Vec<u64>,
    /// For each known rank the least width of its bus.
    low: Vec<usize>,
    /// For each known rank the greatest width of its bus.
    high: Vec<usize>,
    /// For each rank, and at `REST` for the rest, a row of marks: the modules that may be there.
    pub(crate) may: Vec<u64>,
}

impl PackCase {
    /// Room for the cases of a chip of `modules` wired modules on `wires` wires; all times are 0. `NoMemory` where memory runs out.
    pub fn new(alloc: Global, wires: usize, modules: usize) -> Result<PackCase, NoMemory> {
        let words = words_for(modules);
        let (times, own) = both(
            filled(alloc, 0u64, modules.saturating_mul(wires)),
            filled(alloc, 0u64, modules),
        )?;
        let (falls, may) = both(
            filled(alloc, 0u64, words.saturating_mul(wires.saturating_add(1))),
            filled(alloc, 0u64, words.saturating_mul(RANGES_MOST)),
        )?;
        let (low, high) = both(
            filled(alloc, 0usize, RANGES_MOST),
            filled(alloc, 0usize, RANGES_MOST),
        )?;
        Ok(PackCase {
            wires,
            modules,
            known: 0,
            spare: wires,
            rest_high: wires,
            words,
            times,
            own,
            falls,
            low,
            high,
            may,
        })
    }

    /// Notes whether the time of a module at a width is less than at one wire fewer.
    fn note_fall(&mut self, module: usize, width: usize) {
        let falls = self.time(module, width) < self.time(module, width.saturating_sub(1));
        let from = width.saturating_mul(self.words);
        set_mark(&mut self.falls, from, module, falls);
    }

    /// Sets the packed times of a module's live tests over the wires, together, at a width from 1 to the wires. They never grow
    /// with the width. Once for a chip.
    pub fn set_time(&mut self, module: usize, width: usize, cycles: u64) {
        if module >= self.modules || width < 1 || width > self.wires {
            return;
        }
        let place = module.saturating_mul(self.wires).saturating_add(width);
        put_item(&mut self.times, place.saturating_sub(1), cycles);
        self.note_fall(module, width);
        if width < self.wires {
            self.note_fall(module, width.saturating_add(1));
        }
    }

    /// Sets the patterns of a module's live self tests, together. Once for a chip.
    pub fn set_own(&mut self, module: usize, cycles: u64) {
        put_item(&mut self.own, module, cycles);
    }

    /// Begins a case in which no module may be anywhere yet, and each known rank has width 0. At most 256 ranks are known.
    pub fn begin(&mut self, known: usize, spare: usize, rest_high: usize) {
        self.known = known.min(REST);
        self.spare = spare.min(self.wires);
        self.rest_high = rest_high.min(self.wires);
        fill_items(&mut self.may, 0);
        for rank in 0..self.known {
            self.set_rank(rank, 0, 0);
        }
    }

    /// Sets the least and the greatest width of a known rank's bus.
    pub fn set_rank(&mut self, rank: usize, low: usize, high: usize) {
        put_item(&mut self.low, rank, low);
        put_item(&mut self.high, rank, high.min(self.wires));
    }

    /// Says that a module may be on a known rank, or on the rest at `REST`.
    pub fn allow(&mut self, module: usize, rank: usize) {
        if module < self.modules && rank <= REST {
            set_mark(&mut self.may, rank.saturating_mul(self.words), module, true);
        }
    }

    /// The cycles of a module's tests at a width; the greatest number at one that isn't from 1 to the wires.
    pub fn time(&self, module: usize, width: usize) -> u64 {
        if width < 1 || width > self.wires {
            return u64::MAX;
        }
        let place = module.saturating_mul(self.wires).saturating_add(width);
        item_or(&self.times, place.saturating_sub(1), u64::MAX)
    }

    /// The cycles of a module's self tests.
    pub fn own(&self, module: usize) -> u64 {
        item_or(&self.own, module, 0)
    }

    /// The least width of a known rank's bus; 0 on the rest, whose slots begin at 1.
    pub fn low(&self, rank: usize) -> usize {
        if rank == REST {
            return 0;
        }
        item_or(&self.low, rank, 0)
    }

    /// The greatest width of a known rank's bus, or of a bus of the rest.
    pub fn high(&self, rank: usize) -> usize {
        if rank == REST {
            return self.rest_high;
        }
        item_or(&self.high, rank, 0)
    }

    /// Whether a module may be on a known rank, or on the rest.
    pub fn may_be(&self, module: usize, rank: usize) -> bool {
        rank <= REST && marked(&self.may, rank.saturating_mul(self.words), module)
    }

    /// Whether the time of a module at a width is less than at one wire fewer.
    pub(crate) fn falls(&self, module: usize, width: usize) -> bool {
        marked(&self.falls, width.saturating_mul(self.words), module)
    }

    /// Whether the tests of a module at a width, and its self tests, take fewer cycles than a claim.
    pub(crate) fn is_short(&self, module: usize, width: usize, claim: u64) -> bool {
        self.time(module, width).saturating_add(self.own(module)) < claim
    }

    /// Whether a module has a slot on a rank (or the rest) at a width: it may be there, the width is at least 1 and in range, and
    /// its tests take fewer cycles than the claim.
    pub fn has_slot(&self, module: usize, rank: usize, width: usize, claim: u64) -> bool {
        self.may_be(module, rank)
            && width >= self.low(rank).max(1)
            && width <= self.high(rank)
            && self.is_short(module, width, claim)
    }

    /// Whether a module has a slot on some width of a rank: where there is one, the greatest width is one.
    fn has_slot_on(&self, module: usize, rank: usize, claim: u64) -> bool {
        self.has_slot(module, rank, self.high(rank), claim)
    }

    /// Whether a module has a slot on some rank or on the rest.
    fn has_slot_somewhere(&self, module: usize, claim: u64) -> bool {
        for rank in 0..self.known {
            if self.has_slot_on(module, rank, claim) {
                return true;
            }
        }
        self.has_slot_on(module, REST, claim)
    }

    /// Whether each module has a slot at a claim.
    pub fn all_have_slots(&self, claim: u64) -> bool {
        for module in 0..self.modules {
            if !self.has_slot_somewhere(module, claim) {
                return false;
            }
        }
        true
    }
}
