//! The sizes of a module, and the lower times of its tests by them. They are taken once for a module, so that the times of
//! its tests at any widths don't walk its scan chains again.
ghost use Rattle.std.specs.Prelude.{◌≡◌, ◌+◌, ◌^◌, ◌<◌, ◌≤◌, length, sum};
ghost use Rattle.soc_model.specs.Chips.{module_value};
ghost use Rattle.plan_model.specs.Listing.{module_size};
ghost use Rattle.plan_model.specs.Plans.{greatest};
ghost use Rattle.plan_model.specs.Bounds.{quotient_up};
ghost use Rattle.bound_rules.specs.Sizes.{sizes_of, least_chain, time_by, work_by, times_by, tam_times_by, works_by, IsFitting};

use plan_model::closed_time;
use soc_model::{Module, Test, live, over_wires};

/// What the times of a module's tests depend on, beside the width.
#[derive(Clone, Copy)]
pub struct Sizes {
    /// Cycles before the first shift of a test over the wires.
    setup: u64,
    /// Input cells.
    inputs: u64,
    /// Output cells.
    outputs: u64,
    /// The length of the longest scan chain, in cells; 0 where there is none.
    longest: u64,
    /// The lengths of all scan chains together.
    flops: u64,
}

/// The greatest of the lengths, or 0 where there is none.
fn greatest_of(lengths: &[u64]) -> u64
    ensures { result ≡ greatest lengths.now }
{
    let mut longest = 0u64;
    for length in lengths {
        longest = longest.max(*length);
    }
    longest
}

/// The lengths together.
fn sum_of(lengths: &[u64]) -> u64
    requires { sum lengths.now < 2 ^ 63 }
    ensures { result ≡ sum lengths.now }
{
    lengths.iter().sum()
}

/// The length of the longest of `width` chains, where cells are dealt as evenly as can be.
fn dealt_length(cells: u64, width: u64) -> u64
    requires { 1 ≤ width }
    ensures { result ≡ quotient_up cells width }
{
    cells.div_ceil(width)
}

impl Sizes {
    /// The sizes of a module.
    pub fn of(module: &Module) -> Sizes
        requires { module_size (module_value «module».now) ≤ 10 ^ 18 }
        ensures sizes { result ≡ sizes_of (module_value «module».now) }
        ensures fitting { IsFitting result }
    {
        Sizes {
            setup: module.setup,
            inputs: module.inputs + module.bidirs,
            outputs: module.outputs + module.bidirs,
            longest: greatest_of(&module.chains),
            flops: sum_of(&module.chains),
        }
    }

    /// The least length of the longest chain of a wrapper of `width` chains, with `ends` input or output cells.
    fn chain_length(&self, scan: bool, ends: u64, width: u64) -> u64
        requires width { 1 ≤ width }
        requires fits { ends + self.now.flops < 2 ^ 63 }
        ensures { result ≡ least_chain self.now scan ends width }
    {
        if scan {
            self.longest.max(dealt_length(ends + self.flops, width))
        } else {
            dealt_length(ends, width)
        }
    }

    /// The lower time of a live test.
    pub fn time(&self, test: &Test, width: u64) -> u64
        requires width { 1 ≤ width }
        requires live { 1 ≤ test.now.patterns }
        requires fitting { IsFitting self.now }
        requires work { work_by self.now test.now ≤ 10 ^ 18 }
        ensures time { result ≡ time_by self.now width test.now }
        ensures small { result ≤ work_by self.now test.now }
    {
        if test.tam {
            let si = self.chain_length(test.scan, self.inputs, width);
            let so = self.chain_length(test.scan, self.outputs, width);
            closed_time(self.setup, si, so, test.patterns)
        } else {
            test.patterns
        }
    }

    /// The lower times of the live tests of a list together.
    pub fn times(&self, tests: &[Test], width: u64) -> u64
        requires width { 1 ≤ width }
        requires fitting { IsFitting self.now }
        requires work { works_by self.now tests.now ≤ 10 ^ 18 }
        ensures time { result ≡ times_by self.now width tests.now }
        ensures small { result ≤ works_by self.now tests.now }
    {
        let mut sum = 0;
        for test in tests {
            if live(test) {
                sum += self.time(test, width);
            }
        }
        sum
    }

    /// The lower times of those tests of a list that go over the wires, together.
    pub fn tam_times(&self, tests: &[Test], width: u64) -> u64
        requires width { 1 ≤ width }
        requires fitting { IsFitting self.now }
        requires work { works_by self.now tests.now ≤ 10 ^ 18 }
        ensures time { result ≡ tam_times_by self.now width tests.now }
        ensures small { result ≤ works_by self.now tests.now }
    {
        let mut sum = 0;
        for test in tests {
            if over_wires(test) {
                sum += self.time(test, width);
            }
        }
        sum
    }
}
