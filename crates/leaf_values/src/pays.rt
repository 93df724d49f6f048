//! What tests pay for the lists of a leaf, as its weights say.

use case_tables::{ChipTables, LISTS_MOST, ListForm, Lists, RANKS_MOST};
use outside::NoMemory;
use std::alloc::Global;
use tables::{NONE, fill_items, filled, item_or, put_item};

/// What tests pay for each unit of their use of lists.
#[derive(Drop)]
pub struct Pays {
    tests: usize,
    /// For each live test what it pays as a member of lists.
    member: Vec<u64>,
    /// For each rank whether tests on its bus pay more.
    on_rank: Vec<bool>,
    /// What a live test pays more on the bus of a rank, at [rank * tests + test].
    rank: Vec<u64>,
    /// Whether tests pay more on the bus of any rank.
    any_rank: bool,
    /// How many lists of power are paid for.
    pub power_count: usize,
    /// These lists of power.
    power: Vec<usize>,
    /// For each of them what is paid for it.
    power_pay: Vec<u64>,
    /// For each wired module whether its tests pay anything.
    paying: Vec<bool>,
}

/// Adds to the number at a place.
fn add_to(numbers: &mut [u64], place: usize, more: u64) {
    let sum = item_or(numbers, place, 0).saturating_add(more);
    put_item(numbers, place, sum);
}

impl Pays {
    /// Room for the leaves of a chip. `NoMemory` where memory runs out.
    pub fn new(alloc: Global, chip: &ChipTables) -> Result<Pays, NoMemory> {
        let room = chip.tests.saturating_mul(RANKS_MOST);
        let member = filled(alloc, 0u64, chip.tests)?;
        let on_rank = filled(alloc, false, RANKS_MOST)?;
        let rank = filled(alloc, 0u64, room)?;
        let power = filled(alloc, NONE, LISTS_MOST)?;
        let power_pay = filled(alloc, 0u64, LISTS_MOST)?;
        let paying = filled(alloc, false, chip.modules)?;
        Ok(Pays {
            tests: chip.tests,
            member,
            on_rank,
            rank,
            any_rank: false,
            power_count: 0,
            power,
            power_pay,
            paying,
        })
    }

    /// Nothing is paid.
    pub fn clear_pays(&mut self) {
        fill_items(&mut self.member, 0);
        fill_items(&mut self.on_rank, false);
        self.any_rank = false;
        self.power_count = 0;
    }

    /// Adds what the tests of a list pay.
    fn add_members(&mut self, lists: &Lists, list: usize, pay: u64) {
        for test in 0..self.tests {
            if lists.has(list, test) {
                add_to(&mut self.member, test, pay);
            }
        }
    }

    /// Says that nothing more is paid on the bus of a rank.
    fn clear_rank(&mut self, rank: usize) {
        let from = rank.saturating_mul(self.tests);
        for test in 0..self.tests {
            put_item(&mut self.rank, from.saturating_add(test), 0);
        }
    }

    /// Makes a rank one on whose bus tests may pay more.
    fn open_rank(&mut self, rank: usize) {
        if item_or(&self.on_rank, rank, true) {
            return;
        }
        put_item(&mut self.on_rank, rank, true);
        self.any_rank = true;
        self.clear_rank(rank);
    }

    /// Adds what other tests pay for a list where they are on the bus of its rank.
    fn add_reached(&mut self, lists: &Lists, list: usize, pay: u64) {
        let rank = lists.number_of(list) as usize;
        self.open_rank(rank);
        let from = rank.saturating_mul(self.tests);
        for test in 0..self.tests {
            if lists.reaches(list, test) {
                add_to(&mut self.rank, from.saturating_add(test), pay);
            }
        }
    }

    /// Adds a list of power.
    fn add_power(&mut self, list: usize, pay: u64) {
        put_item(&mut self.power, self.power_count, list);
        put_item(&mut self.power_pay, self.power_count, pay);
        self.power_count = self.power_count.saturating_add(1);
    }

    /// Adds what tests pay for a list.
    pub fn add(&mut self, lists: &Lists, list: usize, pay: u64) {
        match lists.form_of(list) {
            ListForm::Power => self.add_power(list, pay),
            ListForm::TurnsOn => {
                self.add_members(lists, list, pay);
                self.add_reached(lists, list, pay);
            }
            _ => self.add_members(lists, list, pay),
        }
    }

    /// Whether any test of a wired module pays as a member of a list.
    fn has_member(&self, chip: &ChipTables, module: usize) -> bool {
        let end = chip.first_of(module.saturating_add(1));
        for at in chip.first_of(module)..end {
            let test = chip.test_in_order(at);
            if item_or(&self.member, test, 0) > 0 {
                return true;
            }
        }
        false
    }

    /// Notes of all wired modules whether their tests pay anything, once all lists are added.
    pub fn note_paying(&mut self, chip: &ChipTables) {
        let all = self.power_count > 0 || self.any_rank;
        for module in 0..chip.modules {
            let paying = all || self.has_member(chip, module);
            put_item(&mut self.paying, module, paying);
        }
    }

    /// Whether the tests of a wired module pay anything.
    pub fn pays(&self, module: usize) -> bool {
        item_or(&self.paying, module, true)
    }

    /// What a test pays for each cycle on the bus of a rank, but for lists of power.
    pub fn of_test(&self, test: usize, rank: usize) -> u64 {
        let own = item_or(&self.member, test, 0);
        if !item_or(&self.on_rank, rank, false) {
            return own;
        }
        let place = rank.saturating_mul(self.tests).saturating_add(test);
        own.saturating_add(item_or(&self.rank, place, 0))
    }

    /// A list of power that is paid for.
    pub fn power_at(&self, at: usize) -> usize {
        item_or(&self.power, at, NONE)
    }

    /// What is paid for each unit of a list of power.
    pub fn power_pay(&self, at: usize) -> u64 {
        item_or(&self.power_pay, at, 0)
    }
}
