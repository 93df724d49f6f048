//! What the search asks of a chip and its limits, as plain tables.
//!
//! Times are in cycles, widths in wires, powers in the unit of the limits.

use std::alloc::Global;
use tables::{NONE, item_or};

/// The tables of a chip and its limits. Live tests go by their places in the order of the chip, modules with live tests over the wires by
/// their places among those.
#[derive(Drop)]
pub struct ChipTables {
    /// How many wires there are.
    pub wires: usize,
    /// The power limit, 0 where there is none.
    pub limit: u64,
    /// The cycles of the plan.
    pub goal: u64,
    /// The cycles that a better plan has at most, at least 1.
    pub cap: u64,
    /// How many wired modules there are.
    pub modules: usize,
    /// The numbers of the wired modules.
    pub number: Vec<u64>,
    /// How many live tests there are.
    pub tests: usize,
    /// For each live test the number of its module.
    pub test_module: Vec<u64>,
    /// For each live test its number in its module.
    pub test_number: Vec<u64>,
    /// For each live test the place of its module among the wired ones, NONE where that isn't wired.
    pub home: Vec<usize>,
    /// For each live test whether it goes over the wires.
    pub tam: Vec<bool>,
    /// For each live test the least that it draws at a cycle.
    pub least: Vec<u64>,
    /// For each live test its own power, which is what it draws where it has no profile.
    pub own: Vec<u64>,
    /// Where the steps of each live test's profile begin; behind them where the last ones end.
    pub steps_first: Vec<usize>,
    /// For each step of a profile the cycle of the test that it begins at.
    pub step_from: Vec<u64>,
    /// For each step of a profile its power.
    pub step_power: Vec<u64>,
    /// For each live test the cycles that it takes as a self test, 0 over the wires.
    pub patterns: Vec<u64>,
    /// The packed time of a live test at [test * wires + width - 1].
    pub time: Vec<u64>,
    /// The packed times of a wired module's tests over the wires, together, at [module * wires + width - 1].
    pub total: Vec<u64>,
    /// For each wired module the cycles of its self tests, together.
    pub selfs: Vec<u64>,
    /// Where the live tests of each wired module begin in `order`; behind them where the last ones end.
    pub first: Vec<usize>,
    /// The live tests of the wired modules, module by module.
    pub order: Vec<usize>,
    /// The words of a row of marks.
    pub words: usize,
    /// For each live test a row of marks: the tests that it excludes.
    pub rows: Vec<u64>,
    /// For each live test the number of its module's parent, the greatest number where there is none.
    pub parent: Vec<u64>,
    /// For each precedence of two live tests the earlier one.
    pub before: Vec<usize>,
    /// For each precedence of two live tests the later one.
    pub after: Vec<usize>,
}

impl ChipTables {
    /// The tables of a chip of no tests on some wires, under a power limit (0 where there is none), for a plan of `goal` cycles. Takes
    /// no memory.
    pub fn without_tests(alloc: Global, wires: usize, limit: u64, goal: u64) -> ChipTables {
        ChipTables {
            wires,
            limit,
            goal,
            cap: goal.saturating_sub(1).max(1),
            modules: 0,
            number: Vec::new(alloc),
            tests: 0,
            test_module: Vec::new(alloc),
            test_number: Vec::new(alloc),
            home: Vec::new(alloc),
            tam: Vec::new(alloc),
            least: Vec::new(alloc),
            own: Vec::new(alloc),
            steps_first: Vec::new(alloc),
            step_from: Vec::new(alloc),
            step_power: Vec::new(alloc),
            patterns: Vec::new(alloc),
            time: Vec::new(alloc),
            total: Vec::new(alloc),
            selfs: Vec::new(alloc),
            first: Vec::new(alloc),
            order: Vec::new(alloc),
            words: 0,
            rows: Vec::new(alloc),
            parent: Vec::new(alloc),
            before: Vec::new(alloc),
            after: Vec::new(alloc),
        }
    }

    /// Whether a live test goes over the wires.
    pub fn goes_over_wires(&self, test: usize) -> bool {
        item_or(&self.tam, test, false)
    }

    /// Whether a live test is a self test.
    pub fn is_self_test(&self, test: usize) -> bool {
        !item_or(&self.tam, test, true)
    }

    /// Where the live tests of a wired module begin in `order`; at the number of wired modules: where the last ones end.
    pub fn first_of(&self, module: usize) -> usize {
        item_or(&self.first, module, 0)
    }

    /// The live test at a place of `order`, NONE where there is none.
    pub fn test_in_order(&self, at: usize) -> usize {
        item_or(&self.order, at, NONE)
    }

    /// The packed time of a live test on a width of at least 1.
    pub fn time_at(&self, test: usize, width: usize) -> u64 {
        let row = test.saturating_mul(self.wires).saturating_add(width);
        item_or(&self.time, row.saturating_sub(1), 0)
    }

    /// The packed times of a wired module's tests over the wires on a width of at least 1, together.
    pub fn total_at(&self, module: usize, width: usize) -> u64 {
        let row = module.saturating_mul(self.wires).saturating_add(width);
        item_or(&self.total, row.saturating_sub(1), 0)
    }
}
