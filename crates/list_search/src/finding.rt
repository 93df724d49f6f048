//! Finds lists of tests that a mix of slots passes.

use crate::{Cliques, Crowds, MixedPowers};
use case_tables::{ChipTables, ChosenLists, ListForm, Lists, Mix};
use outside::{NoMemory, both};
use std::alloc::Global;
use tables::{fill_items, filled, item_or, mark_place, put_item, sum_of_marked};

/// How many steps the search for a list of turns takes at most.
const TURNS_STEPS: usize = 20_000;
/// How many steps that for a list of turns on the bus of one rank takes at most.
const TURNS_ON_STEPS: usize = 4_000;
/// A list counts as passed where the mix takes more of it than the value by one part in `PARTS`.
const PARTS: i64 = 2_000;

/// The most crowds that are found at once.
const CROWDS_MOST: usize = 2;

/// A search for lists of tests, with its room.
#[derive(Drop)]
pub struct ListSearch {
    /// The search for cliques.
    cliques: Cliques,
    /// The search for crowds.
    crowds: Crowds,
    /// A row of marks: the tests that may be in a clique.
    open: Vec<u64>,
    /// A row of marks: these and the tests that exclude one of them.
    near: Vec<u64>,
}

/// What a test and all that exclude it weigh together.
fn around(chip: &ChipTables, weights: &[i64], test: usize) -> i64 {
    let from = test.saturating_mul(chip.words);
    let mut sum = item_or(weights, test, 0);
    for word in 0..chip.words {
        let marks = item_or(&chip.rows, from.saturating_add(word), 0);
        sum = sum.saturating_add(sum_of_marked(weights, word, marks));
    }
    sum
}

impl ListSearch {
    /// Room for a chip. `NoMemory` where memory runs out.
    pub fn new(alloc: Global, chip: &ChipTables) -> Result<ListSearch, NoMemory> {
        let marks = both(
            filled(alloc, 0u64, chip.words),
            filled(alloc, 0u64, chip.words),
        );
        let searches = both(
            Cliques::new(alloc, chip.tests),
            Crowds::new(alloc, &chip.least),
        );
        let ((cliques, crowds), (open, near)) = both(searches, marks)?;
        Ok(ListSearch {
            cliques,
            crowds,
            open,
            near,
        })
    }

    /// Marks a test as one that may be in a clique, with all that exclude it.
    fn open_test(&mut self, chip: &ChipTables, test: usize) {
        mark_place(&mut self.open, 0, test);
        mark_place(&mut self.near, 0, test);
        let from = test.saturating_mul(chip.words);
        for word in 0..chip.words {
            let marks = item_or(&self.near, word, 0);
            let others = item_or(&chip.rows, from.saturating_add(word), 0);
            put_item(&mut self.near, word, marks | others);
        }
    }

    /// Marks the tests that may be in a clique that weighs more than a bound. Whether there are any.
    fn open_tests(&mut self, chip: &ChipTables, weights: &[i64], more_than: i64) -> bool {
        fill_items(&mut self.open, 0);
        fill_items(&mut self.near, 0);
        let mut any = false;
        for test in 0..chip.tests {
            if around(chip, weights, test) > more_than {
                self.open_test(chip, test);
                any = true;
            }
        }
        any
    }

    /// Takes the tests that may be in a clique that weighs more than a bound, with those that may count beside one where that is
    /// wanted. Whether there are any.
    fn take_tests(
        &mut self,
        chip: &ChipTables,
        weights: &[i64],
        more_than: i64,
        beside: bool,
    ) -> bool {
        if !self.open_tests(chip, weights, more_than) {
            return false;
        }
        if beside {
            self.cliques
                .take_tests(&chip.rows, weights, &self.near, &self.open);
        } else {
            self.cliques
                .take_tests(&chip.rows, weights, &self.open, &self.open);
        }
        true
    }

    /// Adds the clique that was found as a list. Whether that is new to those that are chosen.
    fn add_found(
        &self,
        chip: &ChipTables,
        form: ListForm,
        number: u64,
        lists: &mut Lists,
        chosen: &mut ChosenLists,
    ) -> bool {
        let list = lists.add(chip, form, number, self.cliques.found());
        chosen.add(list)
    }

    /// Adds a list of turns that the mix passes by more than a bound. Whether one is new to those that are chosen.
    fn find_turns(
        &mut self,
        chip: &ChipTables,
        more_than: i64,
        lists: &mut Lists,
        chosen: &mut ChosenLists,
    ) -> bool {
        if !self.cliques.search(more_than, TURNS_STEPS) {
            return false;
        }
        self.add_found(chip, ListForm::Turns, 1, lists, chosen)
    }

    /// Adds a list of turns on the bus of a rank that the mix passes by more than a bound. Whether one is new to those that are
    /// chosen.
    fn find_turns_on(
        &mut self,
        chip: &ChipTables,
        mix: &Mix,
        rank: usize,
        more_than: i64,
        lists: &mut Lists,
        chosen: &mut ChosenLists,
    ) -> bool {
        let from = rank.saturating_mul(chip.tests);
        if !self.cliques.take_beside(&mix.on_rank, from) {
            return false;
        }
        if !self.cliques.search(more_than, TURNS_ON_STEPS) {
            return false;
        }
        self.add_found(chip, ListForm::TurnsOn, rank as u64, lists, chosen)
    }

    /// Adds lists of turns that a mix passes by more than a bound. Whether any is new to those that are chosen.
    fn find_cliques(
        &mut self,
        chip: &ChipTables,
        mix: &Mix,
        more_than: i64,
        lists: &mut Lists,
        chosen: &mut ChosenLists,
    ) -> bool {
        if !self.take_tests(chip, &mix.on_all, more_than, mix.known > 0) {
            return false;
        }
        let mut any = self.find_turns(chip, more_than, lists, chosen);
        for rank in 0..mix.known {
            if self.find_turns_on(chip, mix, rank, more_than, lists, chosen) {
                any = true;
            }
        }
        any
    }

    /// Adds the list of turns that weighs most, as far as a search finds it.
    pub(crate) fn add_heaviest(
        &mut self,
        chip: &ChipTables,
        weights: &[i64],
        lists: &mut Lists,
        chosen: &mut ChosenLists,
    ) {
        if self.take_tests(chip, weights, 0, false) && self.cliques.search(0, TURNS_STEPS) {
            self.add_found(chip, ListForm::Turns, 1, lists, chosen);
        }
    }

    /// Adds the crowd that is made for `most` to the lists, where a mix passes it by more than a bound. Whether it is new to those
    /// that are chosen.
    fn add_crowd(
        &mut self,
        chip: &ChipTables,
        powers: MixedPowers<'_>,
        most: u64,
        more_than: i64,
        lists: &mut Lists,
        chosen: &mut ChosenLists,
    ) -> bool {
        let active = self.crowds.make(powers, most, more_than);
        if active == 0 {
            return false;
        }
        let list = lists.add(chip, ListForm::Crowd, active as u64, &self.crowds.members);
        chosen.add(list)
    }

    /// Adds crowds that a mix passes by more than a bound to the lists. Whether any is new to those that are chosen.
    fn find_crowds(
        &mut self,
        chip: &ChipTables,
        mix: &Mix,
        more_than: i64,
        lists: &mut Lists,
        chosen: &mut ChosenLists,
    ) -> bool {
        if chip.limit == 0 {
            return false;
        }
        let powers = MixedPowers {
            limit: chip.limit,
            least: &chip.least,
            on_all: &mix.on_all,
        };
        self.crowds.begin(powers);
        let mut last = 0;
        let mut added: usize = 0;
        for place in 0..self.crowds.powers.len() {
            let most = item_or(&self.crowds.powers, place, 0);
            let is_new = most > last && added < CROWDS_MOST;
            last = most;
            if is_new && self.add_crowd(chip, powers, most, more_than, lists, chosen) {
                added = added.saturating_add(1);
            }
        }
        added > 0
    }

    /// Adds lists to those of a proof that a mix passes by more than one part in 2,000 of its value. Whether any is new to those that
    /// are chosen.
    pub fn find_lists(
        &mut self,
        chip: &ChipTables,
        mix: &Mix,
        lists: &mut Lists,
        chosen: &mut ChosenLists,
    ) -> bool {
        let part = mix.value.checked_div(PARTS).unwrap_or(0);
        let more_than = mix.value.saturating_add(part);
        let turns = self.find_cliques(chip, mix, more_than, lists, chosen);
        let crowds = self.find_crowds(chip, mix, more_than, lists, chosen);
        turns || crowds
    }
}
