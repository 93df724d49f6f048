//! How modules answer the weights of a game: each takes a slot of least cost.

use crate::resources::Resources;
use leaf_values::{LeafBasis, Pays, Range, Spans, StepRange};
use tables::{as_number, item_or};

/// The slot that a module takes.
#[derive(Clone, Copy, Drop)]
pub struct Pick {
    /// The place of its range among those of the case.
    pub range: usize,
    /// The step of the module's time.
    pub step: usize,
    /// Its width in wires.
    pub width: usize,
}

/// No slot.
pub(crate) const NO_PICK: Pick = Pick {
    range: 0,
    step: 0,
    width: 0,
};

/// A slot with its cost.
#[derive(Clone, Copy)]
struct PickedSlot {
    cost: u64,
    pick: Pick,
}

/// What the slots of a case cost.
#[derive(Clone, Copy)]
pub(crate) struct Prices<'a> {
    /// The chip with its slots and lists.
    pub basis: &'a LeafBasis,
    /// The slots.
    pub spans: &'a Spans,
    /// The resources of the game.
    pub resources: &'a Resources,
    /// Their parts of the weights.
    pub parts: &'a [i64],
    /// What tests pay for lists.
    pub pays: &'a Pays,
    /// The part of a spare wire.
    pub wire: u64,
}

impl Prices<'_> {
    /// What a test pays for lists of power on a width.
    fn power_cost(&self, test: usize, width: usize) -> u64 {
        let mut cost: u64 = 0;
        for at in 0..self.pays.power_count {
            let list = self.pays.power_at(at);
            let share = self.basis.powers.share_at(list, test, width);
            cost = cost.wrapping_add(share.wrapping_mul(self.pays.power_pay(at)));
        }
        cost
    }

    /// What a test pays for all lists on the bus of a rank.
    fn test_cost(&self, test: usize, rank: usize, width: usize) -> u64 {
        if !self.basis.chip.goes_over_wires(test) {
            return 0;
        }
        let pay = self.pays.of_test(test, rank);
        let share = self.basis.slots.share_of_test(test, width);
        let cost = share.wrapping_mul(pay);
        cost.wrapping_add(self.power_cost(test, width))
    }

    /// What the tests of a module pay for all lists on the bus of a rank.
    fn lists_cost(&self, module: usize, rank: usize, width: usize) -> u64 {
        let chip = &self.basis.chip;
        let mut cost: u64 = 0;
        let end = chip.first_of(module.saturating_add(1));
        for at in chip.first_of(module)..end {
            let test = chip.test_in_order(at);
            cost = cost.wrapping_add(self.test_cost(test, rank, width));
        }
        cost
    }

    /// The better one of a slot and another, where a bus of the range has a part.
    fn try_slot(
        &self,
        module: usize,
        range: Range,
        base: u64,
        pick: Pick,
        best: PickedSlot,
    ) -> PickedSlot {
        let wires = pick.width.saturating_sub(range.low) as u64;
        let rate = base.wrapping_add(self.wire.wrapping_mul(wires));
        let mut cost = rate.wrapping_mul(self.basis.slots.share_of(pick.step));
        if cost >= best.cost {
            return best;
        }
        if self.pays.pays(module) {
            cost = cost.wrapping_add(self.lists_cost(module, range.rank, pick.width));
        }
        if cost >= best.cost {
            return best;
        }
        PickedSlot { cost, pick }
    }

    /// The best one of the slots of a span and another, where a bus of the range has a part.
    fn try_span(
        &self,
        module: usize,
        range: Range,
        base: u64,
        span: StepRange,
        best: PickedSlot,
    ) -> PickedSlot {
        let mut better = best;
        for step in span.from..span.end {
            let width = self.basis.slots.width_of(step).max(range.first);
            let pick = Pick {
                range: span.range,
                step,
                width,
            };
            better = self.try_slot(module, range, base, pick, better);
        }
        better
    }

    /// The first slot of a module that costs least.
    pub fn least(&self, module: usize) -> Pick {
        let mut best = PickedSlot {
            cost: u64::MAX,
            pick: NO_PICK,
        };
        let from = self.spans.first_of(module);
        let end = self.spans.first_of(module.saturating_add(1));
        for at in from..end {
            let span = self.spans.span(at);
            let range = self.spans.range(span.range);
            let place = self.resources.of_rank(range.rank);
            let base = as_number(item_or(self.parts, place, 0));
            best = self.try_span(module, range, base, span, best);
        }
        best.pick
    }
}
