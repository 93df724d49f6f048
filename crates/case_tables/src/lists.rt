//! The lists of tests that a proof names, and those that a case is weighed with.

use crate::chip::ChipTables;
use outside::NoMemory;
use std::alloc::Global;
use tables::{NONE, filled, item_or, mark_place, marked, put_item};

/// The most lists of a proof.
pub const LISTS_MOST: usize = 256;

/// What the rule of a list says of its tests.
#[derive(Clone, Copy, PartialEq, Eq, Drop)]
pub enum ListForm {
    /// Its tests exclude each other.
    Turns,
    /// Its tests exclude each other, and those on the bus of a rank that exclude each of them count too.
    TurnsOn,
    /// At most some of its tests are active together.
    Crowd,
    /// The power that tests draw, where one that draws nearly all counts for all.
    Power,
}

/// The lists of a proof.
#[derive(Drop)]
pub struct Lists {
    /// How many there are.
    pub count: usize,
    /// The words of a row of marks.
    words: usize,
    /// For each list its form.
    form: Vec<ListForm>,
    /// For each list its rank (TurnsOn), how many are active at most (Crowd), or from what power on a test counts (Power).
    number: Vec<u64>,
    /// For each list a row of marks: its tests.
    members: Vec<u64>,
    /// For each list a row of marks: of TurnsOn the other tests over the wires that exclude all of its tests.
    apart: Vec<u64>,
}

/// Whether a test excludes each test of a row of marks, of which it is none.
fn excludes_all(chip: &ChipTables, test: usize, members: &[u64]) -> bool {
    let from = test.saturating_mul(chip.words);
    for word in 0..chip.words {
        let near = item_or(&chip.rows, from.saturating_add(word), 0);
        if item_or(members, word, 0) & !near != 0 {
            return false;
        }
    }
    true
}

impl Lists {
    /// Room for the lists of a chip; there are none yet. `NoMemory` where memory runs out.
    pub fn new(alloc: Global, chip: &ChipTables) -> Result<Lists, NoMemory> {
        let room = LISTS_MOST.saturating_mul(chip.words);
        let form = filled(alloc, ListForm::Power, LISTS_MOST)?;
        let number = filled(alloc, 0u64, LISTS_MOST)?;
        let members = filled(alloc, 0u64, room)?;
        let apart = filled(alloc, 0u64, room)?;
        Ok(Lists {
            count: 0,
            words: chip.words,
            form,
            number,
            members,
            apart,
        })
    }

    /// The form of a list.
    pub fn form_of(&self, list: usize) -> ListForm {
        item_or(&self.form, list, ListForm::Power)
    }

    /// The number of a list: its rank, how many of its tests are active at most, or from what power on a test counts.
    pub fn number_of(&self, list: usize) -> u64 {
        item_or(&self.number, list, 0)
    }

    /// How much of a list there is at each cycle.
    pub fn room(&self, list: usize) -> u64 {
        match self.form_of(list) {
            ListForm::Crowd => self.number_of(list),
            _ => 1,
        }
    }

    /// Whether a test is in a list.
    pub fn has(&self, list: usize, test: usize) -> bool {
        marked(&self.members, list.saturating_mul(self.words), test)
    }

    /// Whether a test counts in a list where its module is on the bus of the list's rank.
    pub fn reaches(&self, list: usize, test: usize) -> bool {
        marked(&self.apart, list.saturating_mul(self.words), test)
    }

    /// Whether a list has exactly the tests of a row of marks.
    fn has_all(&self, list: usize, members: &[u64]) -> bool {
        let from = list.saturating_mul(self.words);
        for word in 0..self.words {
            let own = item_or(&self.members, from.saturating_add(word), 0);
            if own != item_or(members, word, 0) {
                return false;
            }
        }
        true
    }

    /// The place of a list, NONE where it isn't there.
    fn place_of(&self, form: ListForm, number: u64, members: &[u64]) -> usize {
        for list in 0..self.count {
            if self.form_of(list) == form && self.number_of(list) == number {
                if self.has_all(list, members) {
                    return list;
                }
            }
        }
        NONE
    }

    /// Writes the tests of a list.
    fn write_members(&mut self, list: usize, members: &[u64]) {
        let from = list.saturating_mul(self.words);
        for word in 0..self.words {
            let marks = item_or(members, word, 0);
            put_item(&mut self.members, from.saturating_add(word), marks);
        }
    }

    /// Marks the tests over the wires that exclude all tests of a list.
    fn write_apart(&mut self, chip: &ChipTables, list: usize, members: &[u64]) {
        let from = list.saturating_mul(self.words);
        for test in 0..chip.tests {
            if chip.goes_over_wires(test) && excludes_all(chip, test, members) {
                mark_place(&mut self.apart, from, test);
            }
        }
    }

    /// Answers the place of the list of the tests of a row of marks, which is added where it isn't there yet; NONE where there is no
    /// room for it. `number` is its rank (TurnsOn), how many are active at most (Crowd), from what power on a test counts (Power), or 1.
    pub fn add(
        &mut self,
        chip: &ChipTables,
        form: ListForm,
        number: u64,
        members: &[u64],
    ) -> usize {
        let found = self.place_of(form, number, members);
        if found != NONE {
            return found;
        }
        let list = self.count;
        if list >= LISTS_MOST {
            return NONE;
        }
        put_item(&mut self.form, list, form);
        put_item(&mut self.number, list, number);
        self.write_members(list, members);
        if form == ListForm::TurnsOn {
            self.write_apart(chip, list, members);
        }
        self.count = list.saturating_add(1);
        list
    }
}

/// The lists that a case is weighed with, by their places among those of the proof.
#[derive(Drop)]
pub struct ChosenLists {
    /// How many there are.
    pub count: usize,
    /// Their places among the lists of the proof.
    places: Vec<usize>,
}

impl ChosenLists {
    /// Room for lists; none is chosen yet. `NoMemory` where memory runs out.
    pub fn new(alloc: Global) -> Result<ChosenLists, NoMemory> {
        let places = filled(alloc, NONE, LISTS_MOST)?;
        Ok(ChosenLists { count: 0, places })
    }

    /// Chooses none.
    pub fn clear_choice(&mut self) {
        self.count = 0;
    }

    /// The place of one of them among the lists.
    pub fn at(&self, index: usize) -> usize {
        item_or(&self.places, index, NONE)
    }

    /// Whether a list is chosen.
    pub fn contains(&self, list: usize) -> bool {
        for index in 0..self.count {
            if self.at(index) == list {
                return true;
            }
        }
        false
    }

    /// Chooses a list. Whether that is one, and wasn't chosen yet.
    pub fn add(&mut self, list: usize) -> bool {
        if list == NONE || self.count >= LISTS_MOST || self.contains(list) {
            return false;
        }
        put_item(&mut self.places, self.count, list);
        self.count = self.count.saturating_add(1);
        true
    }
}
