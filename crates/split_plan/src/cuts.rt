//! The tests of a module and their parts, by number.
ghost use Rattle.std.specs.Prelude.{◌≡◌, ℕ, ◌^◌, ◌<◌, ◌≤◌, length, map, IfOk};
ghost use Rattle.std.specs.List.{All};
ghost use Rattle.soc_model.specs.declared.Test.{Test};
ghost use Rattle.soc_model.specs.Chips.{module_value};
ghost use Rattle.plan_model.specs.Plans.{greatest};
ghost use Rattle.plan_model.specs.Views.{limits_value};
ghost use Rattle.split_plan.specs.Cuts.{part_size as size_of, part_power as power_of, peak as most_drawn, cut_of as cut_test, cuts_in as cuts_of_module};
ghost use Rattle.split_plan.specs.Steps.{HasRoom, profiled as tests_of};

use crate::numbers::part_count;
use indexmap::IndexSet;
use outside::{NoMemory, push};
use plan_model::Limits;
use soc_model::{Module, Test, TestId, over_wires};
use std::alloc::Global;

/// A test and the parts that it is cut into, which are numbered one after another in its module.
#[derive(Clone, Copy, Drop)]
pub struct Cut {
    /// The test by name.
    pub whole: TestId,
    /// The test.
    pub test: Test,
    /// The number of its first part.
    pub number: u64,
    /// How many parts it has, at least one.
    pub count: u64,
    /// The patterns of each part but the last.
    pub size: u64,
    /// The power of each part.
    pub power: u64,
}

/// The greatest power of steps.
fn greatest_power(steps: &[(u64, u64)]) -> u64
    ensures { result ≡ greatest (map (λ (s : ℕ × ℕ). s.1) steps.now) }
{
    let mut greatest: u64 = 0;
    for (_, power) in steps {
        greatest = greatest.max(*power);
    }
    greatest
}

/// The most that a test draws at any cycle.
fn peak(limits: &Limits, profiled: &IndexSet<TestId>, id: TestId, own: u64) -> u64
    requires { profiled.now.keys ≡ tests_of (limits_value limits.now).profiles }
    ensures { result ≡ most_drawn (limits_value limits.now) id own }
{
    match profiled.get_index_of(&id) {
        Some(place) => greatest_power(&limits.profiles[place].steps),
        None => own,
    }
}

/// The power of each of `count` parts of a test.
fn part_power(
    limits: &Limits,
    profiled: &IndexSet<TestId>,
    id: TestId,
    test: &Test,
    count: u64,
) -> u64
    requires { profiled.now.keys ≡ tests_of (limits_value limits.now).profiles }
    ensures { result ≡ power_of (limits_value limits.now) id test.now count }
{
    if count <= 1 {
        test.power
    } else {
        peak(limits, profiled, id, test.power)
    }
}

/// The patterns of each part of a test but the last.
fn part_size(test: &Test, most: u64) -> u64
    ensures { result ≡ size_of most test.now }
{
    if over_wires(test) {
        most
    } else {
        test.patterns
    }
}

/// A test of a module and its parts, the first of which has that number.
fn cut_of(
    limits: &Limits,
    profiled: &IndexSet<TestId>,
    most: u64,
    home: u64,
    number: u64,
    test: &Test,
) -> Cut
    requires named { profiled.now.keys ≡ tests_of (limits_value limits.now).profiles }
    requires some { 1 ≤ most }
    requires patterns { test.now.patterns < 10 ^ 12 }
    requires number { number ≤ 10 ^ 17 }
    ensures cut { result ≡ cut_test (limits_value limits.now) most home number test.now }
    ensures room { HasRoom result }
    ensures bounded { result.count ≤ 10 ^ 12 }
{
    let whole = TestId {
        module: home,
        test: test.number,
    };
    let count = part_count(test, most);
    let power = part_power(limits, profiled, whole, test, count);
    Cut {
        whole,
        test: *test,
        number,
        count,
        size: part_size(test, most),
        power,
    }
}

/// The tests of a module and their parts, which are numbered from 1.
pub(crate) fn cuts_in(
    alloc: Global,
    limits: &Limits,
    profiled: &IndexSet<TestId>,
    most: u64,
    module: &Module,
) -> Result<Vec<Cut>, NoMemory>
    requires named { profiled.now.keys ≡ tests_of (limits_value limits.now).profiles }
    requires some { 1 ≤ most }
    requires small { All (λ (t : Test). t.patterns < 10 ^ 12) «module».now.tests.items }
    requires few { length «module».now.tests.items ≤ 4096 }
    ensures cuts { IfOk result (λ cuts. cuts.items
        ≡ cuts_of_module (limits_value limits.now) most (module_value «module».now)) }
    ensures room { IfOk result (λ cuts. All HasRoom cuts.items) }
{
    let mut cuts = Vec::new(alloc);
    let mut number: u64 = 1;
    for test in &module.tests {
        let cut = cut_of(limits, profiled, most, module.number, number, test);
        number += cut.count;
        push(&mut cuts, cut)?;
    }
    Ok(cuts)
}
