//! What tests use of the lists of power, on each width.

use crate::power::power_use;
use case_tables::{ChipTables, Lists};
use outside::{NoMemory, push};
use std::alloc::Global;
use tables::{item_or, short_share};

/// Uses in the table, at most, where it is of more lists than one.
const USES_MOST: usize = 1 << 22;

/// What tests use of the lists of power, which are the first lists.
#[derive(Drop)]
pub struct PowerUses {
    /// How many of the lists these are: others aren't weighed.
    pub count: usize,
    tests: usize,
    wires: usize,
    /// The use in cycles at [(list * tests + test) * wires + width - 1].
    uses: Vec<u64>,
    /// The uses as shares.
    shares: Vec<u32>,
}

/// The use of a list of power by a test of `time` cycles.
#[derive(Clone, Copy)]
struct Used {
    time: u64,
    cycles: u64,
    share: u32,
}

/// The use of a list by a test of `time` cycles, which is the last one where that took as many.
fn use_of(chip: &ChipTables, near: u64, test: usize, time: u64, last: Used) -> Used {
    if time == last.time {
        return last;
    }
    let cycles = power_use(chip, near, test, time);
    let share = short_share(cycles, chip.cap);
    Used {
        time,
        cycles,
        share,
    }
}

impl PowerUses {
    /// The uses of lists, all of power: of the first ones, where the table would be too long for all. `NoMemory` where there is
    /// none.
    pub fn new(alloc: Global, chip: &ChipTables, lists: &Lists) -> Result<PowerUses, NoMemory> {
        let rows = chip.tests.saturating_mul(chip.wires);
        let most = USES_MOST.checked_div(rows).unwrap_or(0).max(1);
        let count = lists.count.min(most);
        let mut powers = PowerUses {
            count,
            tests: chip.tests,
            wires: chip.wires,
            uses: Vec::new(alloc),
            shares: Vec::new(alloc),
        };
        for list in 0..count {
            powers.push_list(chip, lists.number_of(list))?;
        }
        Ok(powers)
    }

    /// Adds the uses of a list by all tests.
    fn push_list(&mut self, chip: &ChipTables, near: u64) -> Result<(), NoMemory> {
        for test in 0..chip.tests {
            self.push_test(chip, near, test)?;
        }
        Ok(())
    }

    /// Adds the uses of a list by a test, on each width.
    fn push_test(&mut self, chip: &ChipTables, near: u64, test: usize) -> Result<(), NoMemory> {
        let mut last = Used {
            time: u64::MAX,
            cycles: 0,
            share: 0,
        };
        for place in 0..chip.wires {
            let time = chip.time_at(test, place.saturating_add(1));
            last = use_of(chip, near, test, time, last);
            push(&mut self.uses, last.cycles)?;
            push(&mut self.shares, last.share)?;
        }
        Ok(())
    }

    /// The place of the use of a list by a test on a width.
    fn place(&self, list: usize, test: usize, width: usize) -> usize {
        let row = list.saturating_mul(self.tests).saturating_add(test);
        let place = row.saturating_mul(self.wires).saturating_add(width);
        place.saturating_sub(1)
    }

    /// The use of a list by a test on a width of at least 1, in cycles.
    pub fn use_at(&self, list: usize, test: usize, width: usize) -> u64 {
        item_or(&self.uses, self.place(list, test, width), 0)
    }

    /// The use of a list by a test on a width of at least 1, as a share.
    pub fn share_at(&self, list: usize, test: usize, width: usize) -> u64 {
        u64::from(item_or(&self.shares, self.place(list, test, width), 0))
    }
}
