//! The answers of modules to the weights of a game: the slots that they take, and how much of each resource all of them use
//! together, which is a cut of the game.

use crate::picks::{NO_PICK, Pick, Prices};
use crate::resources::{RESOURCES_MOST, Resources};
use case_tables::{ChipTables, LISTS_MOST, ListForm};
use leaf_values::LeafBasis;
use outside::NoMemory;
use std::alloc::Global;
use tables::{NONE, SHARE_PLACES, as_number, as_part, fill_items, filled, item_or, put_item};

/// The most cuts of a game.
pub(crate) const CUTS_MOST: usize = 300;

/// The answers so far, and the last one.
#[derive(Drop)]
pub(crate) struct Answers {
    /// How many wired modules there are.
    modules: usize,
    /// The slot that a module took, at [answer * modules + module].
    picks: Vec<Pick>,
    /// For each resource how much of it the last answer uses, as a part of what there is at each cycle.
    pub used: Vec<i64>,
    /// For each list of the game what self tests use of it.
    own: Vec<i64>,
    /// For each live test the width of its slot in the last answer.
    width: Vec<usize>,
    /// For each live test the rank of its slot in the last answer.
    rank: Vec<usize>,
}

/// Adds to the part at a place.
fn add_part(parts: &mut [i64], place: usize, more: u64) {
    let sum = item_or(parts, place, 0).saturating_add(as_part(more));
    put_item(parts, place, sum);
}

/// What a self test uses of a list.
fn own_share(basis: &LeafBasis, list: usize, test: usize) -> u64 {
    if basis.lists.form_of(list) == ListForm::Power {
        return basis.powers.share_at(list, test, 1);
    }
    if basis.lists.has(list, test) {
        return basis.slots.share_of_test(test, 1);
    }
    0
}

/// What the self tests use of a list, together.
fn own_use(basis: &LeafBasis, list: usize) -> u64 {
    let mut sum: u64 = 0;
    for test in 0..basis.chip.tests {
        if basis.chip.is_self_test(test) {
            sum = sum.saturating_add(own_share(basis, list, test));
        }
    }
    sum
}

impl Answers {
    /// Room for the games of a chip. `NoMemory` where memory runs out.
    pub fn new(alloc: Global, chip: &ChipTables) -> Result<Answers, NoMemory> {
        let room = CUTS_MOST.saturating_mul(chip.modules);
        let picks = filled(alloc, NO_PICK, room)?;
        let used = filled(alloc, 0i64, RESOURCES_MOST)?;
        let own = filled(alloc, 0i64, LISTS_MOST)?;
        let width = filled(alloc, 1usize, chip.tests)?;
        let rank = filled(alloc, 0usize, chip.tests)?;
        Ok(Answers {
            modules: chip.modules,
            picks,
            used,
            own,
            width,
            rank,
        })
    }

    /// The slot that a module took in an answer.
    pub fn pick_of(&self, answer: usize, module: usize) -> Pick {
        let place = answer.saturating_mul(self.modules).saturating_add(module);
        item_or(&self.picks, place, NO_PICK)
    }

    /// Notes what self tests use of the lists of a game.
    pub fn take_own(&mut self, basis: &LeafBasis, resources: &Resources) {
        for at in 0..resources.listed {
            let used = own_use(basis, resources.list(at));
            put_item(&mut self.own, at, as_part(used));
        }
    }

    /// Notes the slot of a module's tests.
    fn note_slot(&mut self, chip: &ChipTables, module: usize, width: usize, rank: usize) {
        let end = chip.first_of(module.saturating_add(1));
        for at in chip.first_of(module)..end {
            let test = chip.test_in_order(at);
            put_item(&mut self.width, test, width);
            put_item(&mut self.rank, test, rank);
        }
    }

    /// A module takes its first slot that costs least.
    fn answer(&mut self, prices: Prices<'_>, answer: usize, module: usize) {
        let pick = prices.least(module);
        let place = answer.saturating_mul(self.modules).saturating_add(module);
        put_item(&mut self.picks, place, pick);
        let range = prices.spans.range(pick.range);
        let share = prices.basis.slots.share_of(pick.step);
        let wires = pick.width.saturating_sub(range.low) as u64;
        let bus = prices.resources.of_rank(range.rank);
        add_part(&mut self.used, bus, share);
        add_part(
            &mut self.used,
            prices.resources.rest,
            share.wrapping_mul(wires),
        );
        self.note_slot(&prices.basis.chip, module, pick.width, range.rank);
    }

    /// Whether a test counts in a list of turns on the bus of a rank.
    fn is_reached(&self, basis: &LeafBasis, list: usize, test: usize) -> bool {
        if basis.lists.has(list, test) {
            return true;
        }
        let rank = item_or(&self.rank, test, NONE) as u64;
        rank == basis.lists.number_of(list) && basis.lists.reaches(list, test)
    }

    /// Whether a test counts in a list of a form other than power.
    fn counts(&self, basis: &LeafBasis, form: ListForm, list: usize, test: usize) -> bool {
        if form == ListForm::TurnsOn {
            return self.is_reached(basis, list, test);
        }
        basis.lists.has(list, test)
    }

    /// What a test over the wires uses of a list of a form.
    fn share_in(&self, basis: &LeafBasis, form: ListForm, list: usize, test: usize) -> u64 {
        let width = item_or(&self.width, test, 1);
        if form == ListForm::Power {
            return basis.powers.share_at(list, test, width);
        }
        if self.counts(basis, form, list, test) {
            return basis.slots.share_of_test(test, width);
        }
        0
    }

    /// What the tests over the wires use of a list, together.
    fn list_use(&self, basis: &LeafBasis, list: usize) -> u64 {
        let form = basis.lists.form_of(list);
        let mut sum: u64 = 0;
        for test in 0..basis.chip.tests {
            if basis.chip.goes_over_wires(test) {
                sum = sum.saturating_add(self.share_in(basis, form, list, test));
            }
        }
        sum
    }

    /// Notes what all tests use of the lists.
    fn take_lists(&mut self, basis: &LeafBasis, resources: &Resources) {
        for at in 0..resources.listed {
            let list = resources.list(at);
            let own = as_number(item_or(&self.own, at, 0));
            let used = self.list_use(basis, list).saturating_add(own);
            let part = used.checked_div(basis.lists.room(list)).unwrap_or(0);
            let place = resources.lists_from.saturating_add(at);
            put_item(&mut self.used, place, as_part(part));
        }
    }

    /// Makes what is used of the spare wires a part of them.
    fn share_rest(&mut self, resources: &Resources) {
        let wires = as_number(item_or(&self.used, resources.rest, 0));
        let part = wires.checked_div(resources.spare).unwrap_or(0);
        put_item(&mut self.used, resources.rest, as_part(part));
    }

    /// All modules take their first slots that cost least, as an answer.
    pub fn respond(&mut self, prices: Prices<'_>, answer: usize) {
        fill_items(&mut self.used, 0);
        for module in 0..self.modules {
            self.answer(prices, answer, module);
        }
        self.share_rest(prices.resources);
        self.take_lists(prices.basis, prices.resources);
    }

    /// What the parts of `count` resources are worth against the last answer.
    pub fn worth(&self, parts: &[i64], count: usize) -> i64 {
        let mut sum: i128 = 0;
        for place in 0..count {
            let used = i128::from(item_or(&self.used, place, 0));
            let part = i128::from(item_or(parts, place, 0));
            sum = sum.saturating_add(used.wrapping_mul(part));
        }
        i64::try_from(sum >> SHARE_PLACES).unwrap_or(i64::MAX)
    }
}
