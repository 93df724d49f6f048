//! Tests of an accepted plan that are placed in nested frames of a table, and taken back.
ghost use Rattle.std.specs.Prelude.{◌≡◌, ℕ, ◌<◌, true, false, length};
ghost use Rattle.soc_model.specs.Chips.{soc_value};
ghost use Rattle.soc_model.specs.SoundChips.{IsSoundChip};
ghost use Rattle.plan_model.specs.Faults.{IsFaultless};
ghost use Rattle.plan_model.specs.SoundLimits.{IsSoundLimits};
ghost use Rattle.plan_model.specs.Views.{limits_value, plan_value};
ghost use Rattle.resource_table.specs.Jobs.{job_value, Precedes};
ghost use Rattle.resource_table.specs.Schedules.{is_placed, IsListSchedule};

use crate::lines::count_of;
use crate::searches::job_of_plan;
use outside::{NoMemory, extend, push, push_number};
use plan_model::{Limits, Plan};
use resource_table::{Job, Table, TableOf, list_schedules_are_short};
use soc_model::Soc;
use std::alloc::Global;

/// Whether a test may be placed next: it is one of the job and isn't placed, and those that precede it are.
fn may_be_next<J>(job: &Job, table: &TableOf<J>, test: usize) -> bool
    requires { table.now.job ≡ job_value job.now }
    ensures in_job { result ≡ true → test < length table.now.job.tests }
    ensures new { result ≡ true → is_placed table.now.placed test ≡ false }
    ensures ready { result ≡ true → (earlier : ℕ) → Precedes table.now.job earlier test →
        is_placed table.now.placed earlier ≡ true }
{
    if test >= job.tests.len() || table.is_placed(test) {
        return false;
    }
    for (earlier, later) in &job.before {
        if *later == test && !(*earlier < job.tests.len() && table.is_placed(*earlier)) {
            return false;
        }
    }
    true
}

/// Appends a line of what a table answers of each test of the job: the least start at which it fits, or `-` where it is placed.
fn push_answers<J>(text: &mut Vec<u8>, job: &Job, table: &TableOf<J>) -> Result<(), NoMemory>
    requires { table.now.job ≡ job_value job.now }
{
    for test in 0..job.tests.len() {
        if test > 0 {
            push(text, b' ')?;
        }
        if table.is_placed(test) {
            push(text, b'-')?;
        } else {
            push_number(text, u128::from(table.earliest(test)))?;
        }
    }
    push(text, b'\n')
}

/// Places the tests one inside the other, each at its least start, and takes them back. Before each is placed, and again after it
/// is taken back, a line tells what the table answers, as does one beside all of them.
fn place_nested<J>(
    job: &Job,
    table: &mut TableOf<J>,
    tests: &[usize],
    text: &mut Vec<u8>,
) -> Result<(), NoMemory>
    requires job { table.old.job ≡ job_value job.now }
    requires list { IsListSchedule table.old.job table.old.placed }
    ensures { table.new ≡ table.old }
{
    push_answers(text, job, table)?;
    let [test, inner @ ..] = tests else {
        return Ok(());
    };
    if !may_be_next(job, table, *test) {
        return extend(text, b"no test to be placed\n");
    }
    list_schedules_are_short();
    let start = table.earliest(*test);
    let mut frame = table.place(*test, start);
    let placed = place_nested(job, frame.table(), inner, text);
    frame.undo();
    placed?;
    push_answers(text, job, table)
}

/// The numbers of a text.
fn numbers_of(alloc: Global, words: &str) -> Result<Vec<usize>, NoMemory> {
    let mut numbers = Vec::new(alloc);
    for word in words.split_whitespace() {
        push(&mut numbers, count_of(word) as usize)?;
    }
    Ok(numbers)
}

/// `frames TEST ..`: what a table answers of the tests of an accepted plan, by their places in its job, as these are placed in
/// nested frames and taken back.
pub fn answers_of_frames(
    alloc: Global,
    soc: &Soc,
    limits: &Limits,
    plan: &Plan,
    words: &str,
) -> Result<Vec<u8>, NoMemory>
    requires sound { IsSoundChip (soc_value soc.now) }
    requires limits { IsSoundLimits (soc_value soc.now) (limits_value limits.now) }
    requires accepted { IsFaultless (soc_value soc.now) (limits_value limits.now)
        (plan_value plan.now) }
{
    list_schedules_are_short();
    let job = job_of_plan(alloc, soc, limits, plan)?;
    let tests = numbers_of(alloc, words)?;
    let mut table = Table::new(alloc, &job)?;
    let mut text = Vec::new(alloc);
    place_nested(&job, &mut table, tests.as_slice(), &mut text)?;
    Ok(text)
}
