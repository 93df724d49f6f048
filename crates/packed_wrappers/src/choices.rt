//! Which wrapper is taken for a mode of a module at each width.
ghost use Rattle.std.specs.Prelude.{◌^◌, ◌≤◌};
ghost use Rattle.soc_model.specs.Chips.{module_value};
ghost use Rattle.plan_model.specs.Listing.{module_size};

use crate::cells::ModeCells;
use crate::dealer::Dealer;
use outside::{NoMemory, push};
use soc_model::{Module, is_of_mode};
use std::alloc::Global;
use tables::item_or;
use wrapper_design::PathLengths;

/// A wrapper that is taken.
#[derive(Clone, Copy, Drop)]
pub(crate) struct PackedChoice {
    /// Its width, in chains.
    pub width: u64,
    /// Its longest path from the inputs, in cells.
    pub si: u64,
    /// Its longest path to the outputs, in cells.
    pub so: u64,
    /// The work that was left as it was dealt, 0 where it is dealt longest first.
    pub budget: u64,
    /// The cycles of the mode's tests in it, together.
    cycles: u64,
}

/// No wrapper.
pub(crate) const NO_CHOICE: PackedChoice = PackedChoice {
    width: 0,
    si: 0,
    so: 0,
    budget: 0,
    cycles: u64::MAX,
};

/// The wrappers that are taken for a mode of a module, from the narrowest on, each from its own width on.
#[derive(Drop)]
pub(crate) struct PackedChoices {
    taken: Vec<PackedChoice>,
}

impl PackedChoices {
    /// The wrapper that is taken at a width; `NO_CHOICE` where the mode has no live test over the wires.
    pub fn at(&self, width: u64) -> PackedChoice {
        let mut last = NO_CHOICE;
        for choice in &self.taken {
            if choice.width > width {
                break;
            }
            last = *choice;
        }
        last
    }
}

/// What the cycles of a mode's tests depend on, beside the lengths of the paths.
#[derive(Clone, Copy)]
struct TestSums {
    setup: u64,
    /// How many live tests over the wires the mode has.
    tests: u64,
    /// Their patterns together.
    patterns: u64,
}

/// The sums of a mode of a module.
fn sums_of(module: &Module, scan: bool) -> TestSums {
    let mut tests: u64 = 0;
    let mut patterns: u64 = 0;
    for test in &module.tests {
        if is_of_mode(test, scan) {
            tests = tests.saturating_add(1);
            patterns = patterns.saturating_add(test.patterns);
        }
    }
    TestSums {
        setup: module.setup,
        tests,
        patterns,
    }
}

impl TestSums {
    /// The cycles of the tests together, where the longest paths have these lengths.
    fn cycles(&self, si: u64, so: u64) -> u64 {
        let ends = self.setup.saturating_add(si.min(so));
        let shifts = si.max(so).saturating_add(1);
        self.tests
            .saturating_mul(ends)
            .saturating_add(shifts.saturating_mul(self.patterns))
    }
}

/// The wrapper at a width whose longest part has this length.
fn choice_of(
    sums: &TestSums,
    cells: &ModeCells,
    width: u64,
    part: u64,
    budget: u64,
) -> PackedChoice {
    let si = cells.in_share(width as usize).max(part);
    let so = cells.out_share(width as usize).max(part);
    PackedChoice {
        width,
        si,
        so,
        budget,
        cycles: sums.cycles(si, so),
    }
}

/// A search through the widths of a mode.
#[derive(Drop)]
struct WidthSearch<'a> {
    sums: TestSums,
    cells: ModeCells,
    /// The designs, whose scan chains are dealt longest first.
    paths: PathLengths<'a>,
    dealer: Dealer,
}

impl<'a> WidthSearch<'a> {
    /// The wrapper at a width, where it may take fewer cycles than `best`. It is dealt better than longest first where this may
    /// help and work is left.
    fn choice_at(&mut self, width: u64, best: u64) -> Result<PackedChoice, NoMemory>
        requires some_wire { 1 ≤ width }
        requires few_wires { width ≤ 256 }
    {
        let low = self.cells.low(width as usize);
        let least = choice_of(&self.sums, &self.cells, width, low, 0);
        if least.cycles >= best {
            return Ok(least);
        }
        let (si, so) = self.paths.at(width)?;
        let part = si.min(so);
        let budget = self.dealer.work;
        if width == 1 || budget == 0 || part <= low {
            return Ok(choice_of(&self.sums, &self.cells, width, part, 0));
        }
        self.dealer.deal_scans(&self.cells, width as usize, low);
        let dealt = part.min(self.dealer.part);
        Ok(choice_of(&self.sums, &self.cells, width, dealt, budget))
    }
}

/// The wrappers that are taken on 1 to `wires` wires, by some work, and the work that is left. At each width it is the one
/// of the width before, where that takes no more cycles. `NoMemory` where memory runs out.
pub(crate) fn choices_of(
    alloc: Global,
    module: &Module,
    scan: bool,
    wires: u64,
    work: u64,
) -> Result<(PackedChoices, u64), NoMemory>
    requires small { module_size (module_value «module».now) ≤ 10 ^ 18 }
    requires few { wires ≤ 256 }
{
    let mut taken = Vec::new(alloc);
    let sums = sums_of(module, scan);
    if sums.tests == 0 {
        return Ok((PackedChoices { taken }, work));
    }
    let cells = ModeCells::new(alloc, module, scan)?;
    let dealer = Dealer::new(alloc, cells.count(), wires as usize, work)?;
    let mut search = WidthSearch {
        sums,
        cells,
        paths: PathLengths::new(alloc, module, scan)?,
        dealer,
    };
    let mut best = u64::MAX;
    for width in 1..wires + 1 {
        let choice = search.choice_at(width, best)?;
        if choice.cycles < best {
            best = choice.cycles;
            push(&mut taken, choice)?;
        }
    }
    Ok((PackedChoices { taken }, search.dealer.work))
}
