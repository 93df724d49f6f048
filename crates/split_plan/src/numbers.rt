//! The numbers that the limits on the size of a chip ask for, of the chip of parts, before it is made.
ghost use Rattle.std.specs.Prelude.{◌≡◌, ◌+◌, ◌*◌, ◌^◌, ◌<◌, ◌≤◌, length, OnOk, IfErr, if◌then◌else◌};
ghost use Rattle.std.specs.List.{All};
ghost use Rattle.soc_model.specs.declared.Test.{Test};
ghost use Rattle.soc_model.specs.Chips.{soc_value, module_value};
ghost use Rattle.soc_model.specs.Sizes.{HasSmall, IsWithinSize};
ghost use Rattle.soc_model.specs.SoundChips.{IsSoundChip};
ghost use Rattle.plan_model.specs.Plans.{LimitsValue};
ghost use Rattle.plan_model.specs.SoundLimits.{IsSoundLimits};
ghost use Rattle.split_plan.specs.Cuts.{part_count as parts_of};
ghost use Rattle.split_plan.specs.Laws.{IsRefusal};
ghost use Rattle.split_plan.specs.Parts.{split_chip};
ghost use Rattle.split_plan.specs.Steps.{count_in, count_all as parts_in_all, module_work as work_in, total_work as work_in_all};

use crate::SplitFault;
use soc_model::{Module, Soc, TESTS_MOST, Test, WORK_MOST, Which, cells_and_one, live, over_wires};

/// How many parts a test has.
pub(crate) fn part_count(test: &Test, most: u64) -> u64
    requires some { 1 ≤ most }
    requires patterns { test.now.patterns < 10 ^ 12 }
    ensures count { result ≡ parts_of most test.now }
    ensures one { 1 ≤ result }
    ensures bounded { result ≤ 10 ^ 12 }
{
    if over_wires(test) {
        test.patterns.div_ceil(most)
    } else {
        1
    }
}

/// How many parts the tests of a module have.
fn count_parts(module: &Module, most: u64) -> u128
    requires some { 1 ≤ most }
    requires small { All (λ (t : Test). t.patterns < 10 ^ 12) «module».now.tests.items }
    requires few { length «module».now.tests.items ≤ 4096 }
    ensures count { result ≡ count_in most (module_value «module».now) }
    ensures bounded { result ≤ 10 ^ 16 }
{
    let mut total = 0u128;
    for test in &module.tests {
        total += u128::from(part_count(test, most));
    }
    total
}

/// How many parts all tests of the chip have.
fn count_all(soc: &Soc, most: u64) -> u128
    requires some { 1 ≤ most }
    requires sound { IsSoundChip (soc_value soc.now) }
    ensures { result ≡ parts_in_all most (soc_value soc.now) }
{
    let mut total = 0u128;
    for module in soc.modules.values() {
        total += count_parts(module, most);
    }
    total
}

/// The work of a test's parts together: patterns times cells, and the setup once a part where the test goes over the wires.
fn work_of(test: &Test, cells: u128, setup: u64, most: u64) -> u128
    requires some { 1 ≤ most }
    requires patterns { test.now.patterns < 10 ^ 12 }
    requires cells { cells < 10 ^ 16 }
    requires setup { setup < 10 ^ 12 }
    ensures work { result
        ≡ test.now.patterns * cells + (if test.now.tam then setup * parts_of most test.now else 0) }
    ensures bounded { result ≤ 2 * 10 ^ 28 }
{
    let setup = if test.tam {
        u128::from(setup) * u128::from(part_count(test, most))
    } else {
        0
    };
    u128::from(test.patterns) * cells + setup
}

/// The work of the parts of a module's live tests.
fn module_work(module: &Module, most: u64) -> u128
    requires some { 1 ≤ most }
    requires small { HasSmall (module_value «module».now) }
    requires chains { length «module».now.chains.items ≤ 1000 }
    requires tests { length «module».now.tests.items ≤ 4096 }
    ensures work { result ≡ work_in most (module_value «module».now) }
    ensures bounded { result ≤ 10 ^ 32 }
{
    let cells = cells_and_one(module);
    let mut sum = 0u128;
    for test in &module.tests {
        if live(test) {
            sum += work_of(test, cells, module.setup, most);
        }
    }
    sum
}

/// The work of the chip of parts.
fn total_work(soc: &Soc, most: u64) -> u128
    requires some { 1 ≤ most }
    requires sound { IsSoundChip (soc_value soc.now) }
    ensures { result ≡ work_in_all most (soc_value soc.now) }
{
    let mut sum = 0u128;
    for module in soc.modules.values() {
        sum += module_work(module, most);
    }
    sum
}

/// Whether the chip of parts keeps to the limits on the size of a chip. The error is the first that it passes.
pub(crate) fn check_numbers(soc: &Soc, most: u64) -> Result<(), SplitFault>
    requires some { 1 ≤ most }
    requires sound { IsSoundChip (soc_value soc.now) }
    ensures fits { OnOk result ((limits : LimitsValue) → IsSoundLimits (soc_value soc.now) limits →
        IsWithinSize (split_chip limits most (soc_value soc.now))) }
    ensures refused { IfErr result
        (λ fault. (limits : LimitsValue) → IsSoundLimits (soc_value soc.now) limits →
        IsRefusal (split_chip limits most (soc_value soc.now)) fault) }
{
    let tests = count_all(soc, most);
    if tests > u128::from(TESTS_MOST) {
        return Err(SplitFault::Limit {
            which: Which::Tests,
            value: tests,
        });
    }
    let work = total_work(soc, most);
    if work > u128::from(WORK_MOST) {
        return Err(SplitFault::Limit {
            which: Which::Work,
            value: work,
        });
    }
    Ok(())
}
