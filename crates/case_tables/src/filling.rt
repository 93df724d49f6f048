//! The tables of a chip and its limits, filled from both.
ghost use Rattle.std.specs.Prelude.{◌≡◌, ℕ, ◌^◌, ◌<◌, ◌≤◌, Some, IsTrue, length, slice_get};
ghost use Rattle.soc_model.specs.Chips.{ModuleValue, is_live, module_value};
ghost use Rattle.soc_model.specs.Sizes.{test_work};
ghost use Rattle.case_tables.specs.TimesOf.{AreTimesOf};

use crate::ChipTables;
use live_tests::{Problem, Resolved, profile_place};
use outside::{NoMemory, both, push};
use plan_model::Limits;
use proof_facts::{ExclusionRows, PackedTimes};
use soc_model::{Module, Soc, Test, TestId, has_tam_test, live, module_at};
use std::alloc::Global;
use tables::{NONE, item_or, mark_place, words_for};

/// Adds the steps of a profile.
fn push_steps(chip: &mut ChipTables, steps: &[(u64, u64)]) -> Result<(), NoMemory> {
    for step in steps {
        push(&mut chip.step_from, step.0)?;
        push(&mut chip.step_power, step.1)?;
    }
    Ok(())
}

/// Adds the steps of the profile at a place, where there is one.
fn push_profile(
    chip: &mut ChipTables,
    limits: &Limits,
    found: Option<usize>,
) -> Result<(), NoMemory> {
    if let Some(place) = found {
        if place < limits.profiles.len() {
            push_steps(chip, &limits.profiles[place].steps)?;
        }
    }
    let end = chip.step_from.len();
    push(&mut chip.steps_first, end)
}

/// Adds how a test is named and what it draws.
fn push_name(chip: &mut ChipTables, number: u64, parent: u64, test: &Test) -> Result<(), NoMemory> {
    push(&mut chip.test_module, number)?;
    push(&mut chip.test_number, test.number)?;
    push(&mut chip.parent, parent)?;
    push(&mut chip.tam, test.tam)?;
    push(&mut chip.own, test.power)?;
    push(&mut chip.patterns, if test.tam { 0 } else { test.patterns })
}

/// Adds the place of a test's module among the wired ones.
fn push_home(chip: &mut ChipTables, wired: bool) -> Result<(), NoMemory> {
    let test = chip.tests;
    if wired {
        let module = chip.modules;
        push(&mut chip.order, test)?;
        return push(&mut chip.home, module);
    }
    push(&mut chip.home, NONE)
}

/// The number of the parent of a module at a place, the greatest number where there is none.
fn parent_number(soc: &Soc, resolved: &Resolved, place: usize) -> u64 {
    let Some(parent) = item_or(&resolved.parents, place, None) else {
        return u64::MAX;
    };
    if parent < soc.modules.len() {
        module_at(soc, parent).number
    } else {
        u64::MAX
    }
}

/// Adds the packed time of a live test of the module at a place on each width.
fn push_times(
    chip: &mut ChipTables,
    times: &PackedTimes<'_>,
    place: usize,
    test: &Test,
    wires: u64,
) -> Result<(), NoMemory>
    requires place { place < length times.now.chip.modules }
    requires wires { wires ≤ times.now.wires }
    requires few_wires { wires ≤ 256 }
    requires live { IsTrue (is_live test.now) }
    requires work { (m : ModuleValue) → slice_get times.now.chip.modules place ≡ Some m →
        test_work m test.now ≤ 10 ^ 18 }
{
    for width in 1..wires + 1 {
        let cycles = times.test_time(place, test, width);
        push(&mut chip.time, cycles)?;
    }
    Ok(())
}

/// Adds a live test of the module at a place.
fn push_test(
    chip: &mut ChipTables,
    problem: &Problem<'_>,
    times: &PackedTimes<'_>,
    place: usize,
    module: &Module,
    wired: bool,
    test: &Test,
) -> Result<(), NoMemory>
    requires times { AreTimesOf problem.now times.now.chip times.now.wires }
    requires there { slice_get problem.now.soc.modules place ≡ Some (module_value «module».now) }
    requires test_there { (k : ℕ) × (slice_get «module».now.tests.items k ≡ Some test.now) }
    requires live { IsTrue (is_live test.now) }
{
    let id = TestId {
        module: module.number,
        test: test.number,
    };
    let found = profile_place(&problem.limits.profiles, &problem.resolved.profiles, id);
    let parent = parent_number(problem.soc, problem.resolved, place);
    push_name(chip, module.number, parent, test)?;
    push_profile(chip, problem.limits, found)?;
    push_home(chip, wired)?;
    push_times(chip, times, place, test, problem.limits.wires)?;
    chip.tests = chip.tests.saturating_add(1);
    Ok(())
}

/// Adds the live tests of the module at a place.
fn push_tests(
    chip: &mut ChipTables,
    problem: &Problem<'_>,
    times: &PackedTimes<'_>,
    place: usize,
    module: &Module,
    wired: bool,
) -> Result<(), NoMemory>
    requires times { AreTimesOf problem.now times.now.chip times.now.wires }
    requires there { slice_get problem.now.soc.modules place ≡ Some (module_value «module».now) }
{
    for test in &module.tests {
        if live(test) {
            push_test(chip, problem, times, place, module, wired, test)?;
        }
    }
    Ok(())
}

/// Adds what a wired module's tests over the wires take on each width.
fn push_totals(
    chip: &mut ChipTables,
    problem: &Problem<'_>,
    times: &PackedTimes<'_>,
    place: usize,
) -> Result<(), NoMemory>
    requires times { AreTimesOf problem.now times.now.chip times.now.wires }
    requires place { place < length problem.now.soc.modules }
{
    for width in 1..problem.limits.wires + 1 {
        let cycles = times.tam_time(place, width);
        push(&mut chip.total, cycles)?;
    }
    let own = times.self_time(place);
    push(&mut chip.selfs, own)
}

/// Adds the module at a place with its tests.
fn push_module(
    chip: &mut ChipTables,
    problem: &Problem<'_>,
    times: &PackedTimes<'_>,
    place: usize,
) -> Result<(), NoMemory>
    requires times { AreTimesOf problem.now times.now.chip times.now.wires }
    requires place { place < length problem.now.soc.modules }
{
    let module = module_at(problem.soc, place);
    let wired = has_tam_test(module);
    push_tests(chip, problem, times, place, module, wired)?;
    if !wired {
        return Ok(());
    }
    push_totals(chip, problem, times, place)?;
    push(&mut chip.number, module.number)?;
    let end = chip.order.len();
    push(&mut chip.first, end)?;
    chip.modules = chip.modules.saturating_add(1);
    Ok(())
}

/// Adds all modules with their tests.
fn push_modules(
    chip: &mut ChipTables,
    problem: &Problem<'_>,
    times: &PackedTimes<'_>,
) -> Result<(), NoMemory>
    requires times { AreTimesOf problem.now times.now.chip times.now.wires }
{
    push(&mut chip.first, 0)?;
    push(&mut chip.steps_first, 0)?;
    for place in 0..problem.soc.modules.len() {
        push_module(chip, problem, times, place)?;
    }
    Ok(())
}

/// Adds the precedences of live tests.
fn push_precedences(chip: &mut ChipTables, resolved: &Resolved) -> Result<(), NoMemory> {
    for pair in &resolved.precedences {
        push(&mut chip.before, pair.0)?;
        push(&mut chip.after, pair.1)?;
    }
    Ok(())
}

/// Marks in the row that begins at a word the places that hold.
fn set_row(rows: &mut [u64], start: usize, holds: &[bool]) {
    for place in 0..holds.len() {
        if holds[place] {
            mark_place(rows, start, place);
        }
    }
}

/// Adds which live tests exclude each other, and the least that each draws.
fn push_rows(alloc: Global, chip: &mut ChipTables, problem: &Problem<'_>) -> Result<(), NoMemory> {
    let tests = problem.resolved.tests.names().len();
    let words = words_for(tests);
    let mut bits = vec![in alloc; 0u64; tests.saturating_mul(words)]?;
    let rows = ExclusionRows::new(alloc, problem)?;
    for test in 0..tests {
        let marks = rows.row(alloc, test)?;
        set_row(&mut bits, test.saturating_mul(words), &marks);
        push(&mut chip.least, rows.least(test))?;
    }
    chip.words = words;
    chip.rows = bits;
    Ok(())
}

/// Adds what a chip and its limits say.
fn push_all(
    alloc: Global,
    chip: &mut ChipTables,
    problem: &Problem<'_>,
    times: &PackedTimes<'_>,
) -> Result<(), NoMemory>
    requires times { AreTimesOf problem.now times.now.chip times.now.wires }
{
    push_modules(chip, problem, times)?;
    push_precedences(chip, problem.resolved)?;
    push_rows(alloc, chip, problem)
}

/// The tables of a chip and its limits, for a plan of `goal` cycles. `NoMemory` where memory runs out.
pub fn tables_of(alloc: Global, problem: &Problem<'_>, goal: u64) -> Result<ChipTables, NoMemory> {
    let limits = problem.limits;
    let times = PackedTimes::new(alloc, problem.soc, limits.wires)?;
    let mut chip = ChipTables::without_tests(
        alloc,
        limits.wires as usize,
        limits.power.unwrap_or(0),
        goal,
    );
    let pushed = push_all(alloc, &mut chip, problem, &times);
    drop(times);
    let (chip, ()) = both(Ok(chip), pushed)?;
    Ok(chip)
}
