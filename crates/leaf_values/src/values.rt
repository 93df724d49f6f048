//! What weights of a leaf show exactly, and the greatest claim at which they hold.

use crate::basis::LeafBasis;
use crate::pays::Pays;
use crate::power_uses::PowerUses;
use crate::slots::{Range, Spans, StepRange};
use case_tables::{ChipTables, LeafWeights, Lists, REST};
use outside::NoMemory;
use std::alloc::Global;
use tables::item_or;

/// The cost of a slot, and its cycles.
#[derive(Clone, Copy)]
struct Cost {
    cost: u128,
    cycles: u64,
}

/// No slot.
const NO_COST: Cost = Cost {
    cost: u128::MAX,
    cycles: 0,
};

/// The rate of a range: that of its least width, and of each wire more. Slots take fewer than `most` cycles.
#[derive(Clone, Copy)]
struct Rated {
    range: Range,
    base: u64,
    wire: u64,
    most: u64,
}

/// What weights show: the least costs together, the weights together, and the most cycles of a slot of least cost.
#[derive(Clone, Copy)]
struct Shown {
    num: u128,
    den: u128,
    cycles: u64,
    /// Whether each module has a slot.
    whole: bool,
}

impl Shown {
    /// Whether a claim holds.
    fn holds(self, claim: u64) -> bool {
        let cycles = u128::from(claim.saturating_sub(1));
        !self.whole || self.num > self.den.saturating_mul(cycles)
    }

    /// What the weights show of a claim at which they don't hold.
    fn least(self) -> u64 {
        let above = self.num.saturating_add(self.den.saturating_sub(1));
        let least = above.checked_div(self.den).unwrap_or(0);
        u64::try_from(least).unwrap_or(0)
    }
}

/// The product of a weight and cycles.
fn weighed(weight: u64, cycles: u64) -> u128 {
    u128::from(weight).wrapping_mul(u128::from(cycles))
}

/// Weights of a leaf as they are valued: what the tests pay for lists, and what doesn't depend on slots.
#[derive(Drop)]
pub struct LeafValues {
    pays: Pays,
    own: u128,
    den: u128,
}

impl LeafValues {
    /// Room for the weights of a chip. `NoMemory` where memory runs out.
    pub fn new(alloc: Global, chip: &ChipTables) -> Result<LeafValues, NoMemory> {
        let pays = Pays::new(alloc, chip)?;
        Ok(LeafValues {
            pays,
            own: 0,
            den: 0,
        })
    }

    /// Takes the weights of a leaf over the spans of its case.
    pub fn take(&mut self, basis: &LeafBasis, spans: &Spans, weights: &LeafWeights) {
        self.den = weighed(weights.wire, spans.spare as u64);
        self.add_ranks(spans, weights);
        self.pays.clear_pays();
        self.add_lists(&basis.lists, weights);
        self.take_own(basis);
        self.pays.note_paying(&basis.chip);
    }

    /// Adds the weights of the known ranks.
    fn add_ranks(&mut self, spans: &Spans, weights: &LeafWeights) {
        for rank in 0..spans.known {
            self.den = self.den.saturating_add(u128::from(weights.rank(rank)));
        }
    }

    /// Adds the weights of the lists, and what tests pay for them.
    fn add_lists(&mut self, lists: &Lists, weights: &LeafWeights) {
        for at in 0..weights.count {
            let list = weights.list_at(at);
            let weight = weights.use_at(at);
            self.den = self.den.saturating_add(weighed(weight, lists.room(list)));
            self.pays.add(lists, list, weight);
        }
    }

    /// What the self tests pay.
    fn take_own(&mut self, basis: &LeafBasis) {
        self.own = 0;
        for test in 0..basis.chip.tests {
            if basis.chip.is_self_test(test) {
                let cycles = item_or(&basis.chip.patterns, test, 0);
                let cost = self.cost_of(basis, test, REST, 1, cycles);
                self.own = self.own.saturating_add(cost);
            }
        }
    }

    /// What a test of `cycles` cycles pays on a rank, on a width.
    fn cost_of(
        &self,
        basis: &LeafBasis,
        test: usize,
        rank: usize,
        width: usize,
        cycles: u64,
    ) -> u128 {
        let cost = weighed(self.pays.of_test(test, rank), cycles);
        if self.pays.power_count == 0 {
            return cost;
        }
        cost.saturating_add(self.power_cost(&basis.powers, test, width))
    }

    /// What a test pays for power on a width.
    fn power_cost(&self, powers: &PowerUses, test: usize, width: usize) -> u128 {
        let mut cost: u128 = 0;
        for at in 0..self.pays.power_count {
            let used = powers.use_at(self.pays.power_at(at), test, width);
            cost = cost.saturating_add(weighed(self.pays.power_pay(at), used));
        }
        cost
    }

    /// What the tests of a module over the wires pay on a rank, on a width.
    fn lists_cost(&self, basis: &LeafBasis, module: usize, rank: usize, width: usize) -> u128 {
        let mut cost: u128 = 0;
        let end = basis.chip.first_of(module.saturating_add(1));
        for at in basis.chip.first_of(module)..end {
            let test = basis.chip.test_in_order(at);
            if basis.chip.goes_over_wires(test) {
                let cycles = basis.chip.time_at(test, width);
                cost = cost.saturating_add(self.cost_of(basis, test, rank, width, cycles));
            }
        }
        cost
    }

    /// The lesser of a cost and that of a step of a module.
    fn try_step(
        &self,
        basis: &LeafBasis,
        module: usize,
        rated: Rated,
        step: usize,
        best: Cost,
    ) -> Cost {
        let cycles = basis.slots.time_of(step);
        if cycles >= rated.most {
            return best;
        }
        let width = basis.slots.width_of(step).max(rated.range.first);
        let wires = width.saturating_sub(rated.range.low) as u64;
        let rate = rated.base.saturating_add(rated.wire.saturating_mul(wires));
        let mut cost = weighed(rate, cycles);
        if cost < best.cost && self.pays.pays(module) {
            let lists = self.lists_cost(basis, module, rated.range.rank, width);
            cost = cost.saturating_add(lists);
        }
        if cost >= best.cost {
            return best;
        }
        Cost { cost, cycles }
    }

    /// The least of a cost and those of the steps of a span.
    fn try_span(
        &self,
        basis: &LeafBasis,
        module: usize,
        rated: Rated,
        span: StepRange,
        best: Cost,
    ) -> Cost {
        let mut best = best;
        for step in span.from..span.end {
            best = self.try_step(basis, module, rated, step, best);
        }
        best
    }

    /// The least cost of a module over its slots of fewer than `most` cycles.
    fn least(
        &self,
        basis: &LeafBasis,
        spans: &Spans,
        weights: &LeafWeights,
        module: usize,
        most: u64,
    ) -> Cost {
        let mut best = NO_COST;
        for at in spans.first_of(module)..spans.first_of(module.saturating_add(1)) {
            let span = spans.span(at);
            let range = spans.range(span.range);
            let rated = Rated {
                range,
                base: base_of(weights, range.rank),
                wire: weights.wire,
                most,
            };
            best = self.try_span(basis, module, rated, span, best);
        }
        best
    }

    /// The least cost of a module at the weights taken, over its slots of fewer cycles than a claim; None where it has no such slot.
    pub fn cost_of_module(
        &self,
        basis: &LeafBasis,
        spans: &Spans,
        weights: &LeafWeights,
        module: usize,
        claim: u64,
    ) -> Option<u128> {
        let own = item_or(&basis.chip.selfs, module, 0);
        let most = claim.saturating_sub(own);
        let least = self.least(basis, spans, weights, module, most);
        if least.cost == u128::MAX {
            return None;
        }
        Some(least.cost)
    }

    /// What the weights taken show where only slots of fewer cycles than a claim count.
    fn shown(&self, basis: &LeafBasis, spans: &Spans, weights: &LeafWeights, claim: u64) -> Shown {
        let mut shown = Shown {
            num: self.own,
            den: self.den,
            cycles: 0,
            whole: true,
        };
        for module in 0..basis.chip.modules {
            let own = item_or(&basis.chip.selfs, module, 0);
            let most = claim.saturating_sub(own);
            let least = self.least(basis, spans, weights, module, most);
            if least.cost == u128::MAX {
                shown.whole = false;
                return shown;
            }
            shown.num = shown.num.saturating_add(least.cost);
            shown.cycles = shown.cycles.max(least.cycles.saturating_add(own));
        }
        shown
    }

    /// Whether the weights taken hold at a claim.
    pub fn hold_at(
        &self,
        basis: &LeafBasis,
        spans: &Spans,
        weights: &LeafWeights,
        claim: u64,
    ) -> bool {
        self.shown(basis, spans, weights, claim).holds(claim)
    }

    /// The greatest claim up to the goal at which the weights taken hold.
    pub fn value(&self, basis: &LeafBasis, spans: &Spans, weights: &LeafWeights) -> u64 {
        let goal = basis.chip.goal;
        let shown = self.shown(basis, spans, weights, goal);
        if shown.holds(goal) {
            return goal;
        }
        let low = shown.least().min(goal);
        let end = shown.cycles.saturating_add(1).min(goal);
        self.between(basis, spans, weights, low, end)
    }

    /// The greatest claim from `low` on, at which the weights hold, and below `end`, at which they don't where it is above
    /// `low`: the slots only get fewer as the claim falls.
    fn between(
        &self,
        basis: &LeafBasis,
        spans: &Spans,
        weights: &LeafWeights,
        low: u64,
        end: u64,
    ) -> u64 {
        let mut low = low;
        let mut end = end;
        for _ in 0..64 {
            if low.saturating_add(1) >= end {
                break;
            }
            let mid = low.saturating_add(end.saturating_sub(low) / 2);
            if self.hold_at(basis, spans, weights, mid) {
                low = mid;
            } else {
                end = mid;
            }
        }
        low
    }
}

/// The rate of the least width of a rank; that of the rest is 0.
fn base_of(weights: &LeafWeights, rank: usize) -> u64 {
    if rank == REST { 0 } else { weights.rank(rank) }
}
