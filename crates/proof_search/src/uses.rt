//! What tests use of lists.

use case_tables::ListForm;
use leaf_values::LeafBasis;
use pack_values::Uses;
use tables::{NONE, item_or};

/// What the tests of a chip use of the lists so far.
#[derive(Clone, Copy)]
pub struct ListUses<'a> {
    /// The chip with its lists.
    pub basis: &'a LeafBasis,
}

impl ListUses<'_> {
    /// The rank whose bus a list turns on, `NONE` where it turns none on.
    fn rank_of(&self, list: usize) -> usize {
        match self.basis.lists.form_of(list) {
            ListForm::TurnsOn => self.basis.lists.number_of(list) as usize,
            _ => NONE,
        }
    }

    /// Whether a test counts in a list that isn't one of power, on a rank.
    fn counts(&self, list: usize, test: usize, rank: usize) -> bool {
        self.basis.lists.has(list, test)
            || (rank == self.rank_of(list) && self.basis.lists.reaches(list, test))
    }

    /// What a test of `cycles` cycles uses of a list, on a rank at a width.
    fn of_test(&self, list: usize, test: usize, rank: usize, width: usize, cycles: u64) -> u64 {
        if self.basis.lists.form_of(list) == ListForm::Power {
            return self.basis.powers.use_at(list, test, width);
        }
        if self.counts(list, test, rank) {
            cycles
        } else {
            0
        }
    }
}

impl Uses for ListUses<'_> {
    fn of_module(&self, list: usize, module: usize, rank: usize, width: usize) -> u64 {
        let chip = &self.basis.chip;
        let mut used: u64 = 0;
        for at in chip.first_of(module)..chip.first_of(module.saturating_add(1)) {
            let test = chip.test_in_order(at);
            if chip.goes_over_wires(test) {
                let cycles = chip.time_at(test, width);
                used = used.saturating_add(self.of_test(list, test, rank, width, cycles));
            }
        }
        used
    }

    fn of_selfs(&self, list: usize) -> u64 {
        let chip = &self.basis.chip;
        let mut used: u64 = 0;
        for test in 0..chip.tests {
            if chip.is_self_test(test) {
                let cycles = item_or(&chip.patterns, test, 0);
                used = used.saturating_add(self.of_test(list, test, NONE, 1, cycles));
            }
        }
        used
    }

    fn most(&self, list: usize) -> u64 {
        self.basis.lists.room(list)
    }

    fn rank(&self, list: usize) -> usize {
        self.rank_of(list)
    }
}
