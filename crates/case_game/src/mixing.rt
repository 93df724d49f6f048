//! The mix of the answers of a game: how long each test is tested, and how much power all tests draw.

use crate::picks::Pick;
use crate::play::Play;
use case_tables::{Mix, REST};
use leaf_values::{LeafBasis, Spans};
use tables::{NONE, SHARE_PLACES, as_number, as_part, item_or, put_item};

/// Adds to the part at a place.
fn add_part(parts: &mut [i64], place: usize, more: i64) {
    let sum = item_or(parts, place, 0).saturating_add(more);
    put_item(parts, place, sum);
}

/// Begins a mix with what self tests take.
fn begin_mix(basis: &LeafBasis, mix: &mut Mix) {
    for test in 0..basis.chip.tests {
        let mut own = 0;
        if basis.chip.is_self_test(test) {
            own = as_part(basis.slots.share_of_test(test, 1));
        }
        put_item(&mut mix.on_all, test, own);
    }
}

/// Says that nothing is tested on the buses of the known ranks yet.
fn clear_ranks(basis: &LeafBasis, mix: &mut Mix) {
    for place in 0..mix.known.saturating_mul(basis.chip.tests) {
        put_item(&mut mix.on_rank, place, 0);
    }
}

/// Adds a test on a slot of a rank, which has a part of the mix.
fn add_test(basis: &LeafBasis, mix: &mut Mix, test: usize, pick: Pick, rank: usize, part: u64) {
    if !basis.chip.goes_over_wires(test) {
        return;
    }
    let share = basis.slots.share_of_test(test, pick.width);
    let used = as_part(part.wrapping_mul(share) >> SHARE_PLACES);
    add_part(&mut mix.on_all, test, used);
    if rank != REST {
        let place = rank.saturating_mul(basis.chip.tests).saturating_add(test);
        add_part(&mut mix.on_rank, place, used);
    }
}

/// Adds a module on a slot of a rank, which has a part of the mix.
fn add_module(basis: &LeafBasis, mix: &mut Mix, module: usize, pick: Pick, rank: usize, part: u64) {
    let end = basis.chip.first_of(module.saturating_add(1));
    for at in basis.chip.first_of(module)..end {
        let test = basis.chip.test_in_order(at);
        add_test(basis, mix, test, pick, rank, part);
    }
}

impl Play {
    /// Adds an answer, as its part says.
    fn add_answer(&self, basis: &LeafBasis, spans: &Spans, mix: &mut Mix, answer: usize) {
        let part = as_number(item_or(&self.mix, answer, 0));
        if part == 0 {
            return;
        }
        for module in 0..basis.chip.modules {
            let pick = self.pick_of(answer, module);
            let rank = spans.range(pick.range).rank;
            add_module(basis, mix, module, pick, rank, part);
        }
    }

    /// Writes the mix of all answers.
    pub fn mixed(&self, basis: &LeafBasis, spans: &Spans, mix: &mut Mix) {
        mix.known = spans.known;
        mix.value = self.best;
        begin_mix(basis, mix);
        clear_ranks(basis, mix);
        for answer in 0..self.cuts {
            self.add_answer(basis, spans, mix, answer);
        }
    }

    /// What a test uses of a list of power in an answer.
    fn power_share(&self, basis: &LeafBasis, list: usize, answer: usize, test: usize) -> u64 {
        if !basis.chip.goes_over_wires(test) {
            return basis.powers.share_at(list, test, 1);
        }
        let module = item_or(&basis.chip.home, test, NONE);
        let width = self.pick_of(answer, module).width;
        basis.powers.share_at(list, test, width)
    }

    /// What all tests use of a list of power in an answer.
    fn power_of(&self, basis: &LeafBasis, list: usize, answer: usize) -> u64 {
        let mut sum: u64 = 0;
        for test in 0..basis.chip.tests {
            sum = sum.saturating_add(self.power_share(basis, list, answer, test));
        }
        sum
    }

    /// What the mix uses of a list of power.
    pub fn power_mixed(&self, basis: &LeafBasis, list: usize) -> i64 {
        let mut sum: u128 = 0;
        for answer in 0..self.cuts {
            let part = u128::from(as_number(item_or(&self.mix, answer, 0)));
            if part > 0 {
                let used = u128::from(self.power_of(basis, list, answer));
                sum = sum.saturating_add(part.saturating_mul(used));
            }
        }
        i64::try_from(sum >> SHARE_PLACES).unwrap_or(i64::MAX)
    }
}
