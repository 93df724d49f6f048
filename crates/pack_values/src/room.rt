//! Room for knapsacks, and what they found.

use crate::cases::{PackCase, RANGES_MOST};
use crate::groups::{Groups, rank_of};
use crate::knapsack::Knapsack;
use crate::offers::{BusAt, Offers};
use crate::prices::Prices;
use crate::sets::Sets;
use crate::terms::Terms;
use crate::uses::{Uses, list_room, self_pay};
use crate::wires::{add_bus, fill_rest};
use outside::{NoMemory, both};
use std::alloc::Global;
use tables::{NONE, filled, item_or, put_item};

/// Room for knapsacks, and the best sets that were found.
#[derive(Drop)]
pub struct PackRoom {
    /// The wires.
    wires: usize,
    groups: Groups,
    offers: Offers,
    knapsack: Knapsack,
    sets: Sets,
    /// What a bus of a group is worth at [group * (wires + 1) + width].
    worth: Vec<u64>,
    /// What the buses are worth together, for each number of wires.
    row: Vec<u128>,
    most: u128,
}

/// What is best on a bus.
#[derive(Clone, Copy)]
struct BestSet {
    worth: u64,
    /// The place of the row of the set, where there is one.
    row: usize,
}

/// No bus.
const NO_BEST: BestSet = BestSet {
    worth: 0,
    row: NONE,
};

impl PackRoom {
    /// Room for the cases of a chip of `modules` wired modules on `wires` wires. `NoMemory` where memory runs out.
    pub fn new(alloc: Global, modules: usize, wires: usize) -> Result<PackRoom, NoMemory> {
        let widths = wires.saturating_add(1);
        let (groups, offers) = both(Groups::new(alloc, modules), Offers::new(alloc, modules))?;
        let (knapsack, sets) = both(
            Knapsack::new(alloc, modules),
            Sets::new(alloc, modules, wires),
        )?;
        let (worth, row) = both(
            filled(alloc, 0u64, widths.saturating_mul(RANGES_MOST)),
            filled(alloc, 0u128, widths),
        )?;
        Ok(PackRoom {
            wires,
            groups,
            offers,
            knapsack,
            sets,
            worth,
            row,
            most: 0,
        })
    }

    /// The best sets of modules on each rank and width where one may change, at whole prices, and what all buses are worth together
    /// (`most`). `keep` says whether the sets themselves are wanted: of each rank, and of the rest, those that are worth more than the
    /// sets of fewer wires. Where the grain is 0 or there are more than 4,096 cells, there are no sets, and the most is the greatest
    /// number.
    pub fn value<U: Uses>(
        &mut self,
        case: &PackCase,
        uses: &U,
        prices: &Prices,
        claim: u64,
        grain: u64,
        keep: bool,
    ) {
        self.sets.clear_sets();
        self.most = u128::MAX;
        if let Some(terms) = Terms::exact(prices, claim, grain, keep) {
            self.solve(case, uses, prices, terms);
            self.add_up(case);
        }
    }

    /// Guesses of best sets, by cells that are so many times as great that some 250 are left. Each set fits, but needn't be the best.
    /// `most` stays as it was.
    pub fn guess<U: Uses>(
        &mut self,
        case: &PackCase,
        uses: &U,
        prices: &Prices,
        claim: u64,
        grain: u64,
    ) {
        self.sets.clear_sets();
        if let Some(terms) = Terms::exact(prices, claim, grain, true) {
            self.solve(case, uses, prices, terms.guessed());
        }
    }

    /// Works out what a bus of each range is worth at each width.
    fn solve<U: Uses>(&mut self, case: &PackCase, uses: &U, prices: &Prices, terms: Terms) {
        self.groups.take_ranges(case, uses, prices);
        for group in 0..self.groups.count {
            if self.groups.group_of(group) == group {
                self.solve_group(case, uses, prices, terms, group);
            }
        }
    }

    /// Solves a group of ranges.
    fn solve_group<U: Uses>(
        &mut self,
        case: &PackCase,
        uses: &U,
        prices: &Prices,
        terms: Terms,
        group: usize,
    ) {
        let first = self.groups.first_width(case, group);
        let last = self.groups.last_width(case, group);
        let rank = rank_of(case, group);
        let mut best = NO_BEST;
        let mut stale = true;
        for width in first..last.saturating_add(1) {
            let bus = BusAt { group, rank, width };
            if width == first {
                self.offers
                    .gather(case, uses, prices, terms, &self.groups, bus);
            } else if self.offers.widen(case, uses, prices, terms, bus) {
                stale = true;
            }
            if stale && self.groups.is_wanted(case, group, width) {
                best = self.solve_bus(terms, best);
                stale = false;
            }
            self.note_width(case, group, width, best);
        }
    }

    /// What is best on a bus with the modules that are offered, where `before` is the best of those with fewer wires.
    fn solve_bus(&mut self, terms: Terms, before: BestSet) -> BestSet {
        let worth = self.knapsack.solve(self.offers.items(), terms);
        if !terms.keep {
            return BestSet { worth, row: NONE };
        }
        let worth = self.knapsack.mend(terms.cells);
        if worth <= before.worth {
            return before;
        }
        let row = self.sets.add_row(self.knapsack.picks());
        BestSet { worth, row }
    }

    /// Notes what is best on the buses of a group at a width.
    fn note_width(&mut self, case: &PackCase, group: usize, width: usize, best: BestSet) {
        let place = self.base(group).saturating_add(width);
        put_item(&mut self.worth, place, best.worth);
        if best.row == NONE {
            return;
        }
        for range in group..self.groups.count {
            if self.groups.has_width(case, group, range, width) {
                self.sets.note(range, rank_of(case, range), width, best.row);
            }
        }
    }

    /// Where the worths of a group begin.
    fn base(&self, group: usize) -> usize {
        group.saturating_mul(self.wires.saturating_add(1))
    }

    /// Adds up what all buses are worth together.
    fn add_up(&mut self, case: &PackCase) {
        let spare = case.spare.min(self.wires);
        let base = self.base(self.groups.group_of(case.known));
        fill_rest(&mut self.row, spare, &self.worth, base, case.rest_high);
        for rank in 0..case.known {
            let low = case.low(rank);
            let base = self.base(self.groups.group_of(rank)).saturating_add(low);
            let span = case.high(rank).saturating_sub(low);
            add_bus(&mut self.row, spare, &self.worth, base, span);
        }
        self.most = item_or(&self.row, spare, 0);
    }

    /// The most that all buses of the last `value` are worth together.
    pub fn most(&self) -> u128 {
        self.most
    }

    /// How many sets the last call kept, at most 4,096.
    pub fn sets(&self) -> usize {
        self.sets.count
    }

    /// The rank of a set, `REST` for the rest.
    pub fn set_rank(&self, at: usize) -> usize {
        self.sets.rank(at)
    }

    /// The width of a set.
    pub fn set_width(&self, at: usize) -> usize {
        self.sets.width(at)
    }

    /// Whether a set has a module.
    pub fn has(&self, at: usize, module: usize) -> bool {
        self.sets.has(at, module)
    }

    /// Whether the `most` of the last `value` shows that a leaf with these prices and weights holds at this claim: prices and self tests
    /// are together more than the buses and the lists can hold in fewer cycles. (A leaf also holds where some module has no slot.)
    pub fn shows<U: Uses>(&self, uses: &U, prices: &Prices, claim: u64) -> bool {
        let room = list_room(uses, prices);
        let paid = prices.total().saturating_add(self_pay(uses, prices));
        let held = room.saturating_mul(u128::from(claim));
        paid.saturating_add(room) > self.most.saturating_add(held)
    }

    /// Whether a leaf with these prices, weights and this grain holds at a claim. The sets are gone, and `most` is that of the leaf.
    pub fn holds<U: Uses>(
        &mut self,
        case: &PackCase,
        uses: &U,
        prices: &Prices,
        claim: u64,
        grain: u64,
    ) -> bool {
        self.value(case, uses, prices, claim, grain, false);
        if self.most == u128::MAX {
            return false;
        }
        !case.all_have_slots(claim) || self.shows(uses, prices, claim)
    }

    /// The cells of knapsacks so far, twice where sets were kept, and 25 for each module that was looked at, since `begin_work`.
    pub fn work(&self) -> u64 {
        self.knapsack.work
    }

    /// Counts the work from 0 on.
    pub fn begin_work(&mut self) {
        self.knapsack.work = 0;
    }
}
