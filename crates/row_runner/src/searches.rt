//! Searches for an order of the tests of an accepted plan, by either end of a test as the estimate: the commands search by one
//! of them alone.
ghost use Rattle.std.specs.Prelude.{IfOk};
ghost use Rattle.soc_model.specs.Chips.{soc_value};
ghost use Rattle.soc_model.specs.SoundChips.{IsSoundChip};
ghost use Rattle.plan_model.specs.Faults.{IsFaultless};
ghost use Rattle.plan_model.specs.SoundLimits.{IsSoundLimits};
ghost use Rattle.plan_model.specs.Views.{limits_value, plan_value};
ghost use Rattle.resource_table.specs.Jobs.{job_value, IsSoundJob};
ghost use Rattle.schedule_search.specs.Estimates.{CanAsk, IsAtLeastReady, IsAtMostNow, IsEstimate};

use outside::{NoMemory, copied, extend, push, push_number};
use plan_model::{Limits, Plan};
use planner::{JobSource, job_of};
use resource_table::{Job, Table};
use schedule_search::{Ahead, Found, Search, first_order};
use soc_model::Soc;
use std::alloc::Global;

/// The job of the tests of an accepted plan.
pub fn job_of_plan(alloc: Global, soc: &Soc, limits: &Limits, plan: &Plan) -> Result<Job, NoMemory>
    requires sound { IsSoundChip (soc_value soc.now) }
    requires limits { IsSoundLimits (soc_value soc.now) (limits_value limits.now) }
    requires accepted { IsFaultless (soc_value soc.now) (limits_value limits.now)
        (plan_value plan.now) }
    ensures { IfOk result (λ job. IsSoundJob (job_value job)) }
{
    let parts = JobSource {
        soc,
        limits,
        buses: &plan.buses,
        wrappers: &plan.wrappers,
    };
    job_of(alloc, &parts)
}

/// Appends the places of tests, each behind a space.
fn push_order(text: &mut Vec<u8>, order: &[usize]) -> Result<(), NoMemory> {
    for test in order {
        push(text, b' ')?;
        push_number(text, *test as u128)?;
    }
    Ok(())
}

/// The cycles of what was found, whether no order takes fewer, and the order, by the places of the tests in the job.
fn text_of_found(alloc: Global, found: &Found<'_>) -> Result<Vec<u8>, NoMemory> {
    let mut text = Vec::new(alloc);
    push_number(&mut text, u128::from(found.cycles))?;
    let how: &[u8] = if found.complete {
        b" complete :"
    } else {
        b" cut off :"
    };
    extend(&mut text, how)?;
    push_order(&mut text, found.order)?;
    Ok(text)
}

/// The order with which a search begins, by the places of the tests in the job.
pub fn first_order_of(
    alloc: Global,
    soc: &Soc,
    limits: &Limits,
    plan: &Plan,
) -> Result<Vec<u8>, NoMemory>
    requires sound { IsSoundChip (soc_value soc.now) }
    requires limits { IsSoundLimits (soc_value soc.now) (limits_value limits.now) }
    requires accepted { IsFaultless (soc_value soc.now) (limits_value limits.now)
        (plan_value plan.now) }
{
    let job = job_of_plan(alloc, soc, limits, plan)?;
    let order = first_order(alloc, &job)?;
    let mut text = copied(alloc, b":")?;
    push_order(&mut text, &order)?;
    Ok(text)
}

/// What a search finds. Nothing where a second run finds something else.
fn found_twice<F: Fn(&Table<'_>, usize) -> u64>(
    alloc: Global,
    search: &mut Search<'_, F>,
) -> Result<Vec<u8>, NoMemory>
    requires { IsEstimate (λ t test. F.pre search.old.ahead t test)
        (λ t test estimate. F.post search.old.ahead t test estimate) }
{
    let mut first = text_of_found(alloc, &search.run())?;
    let again = text_of_found(alloc, &search.run())?;
    if first.as_slice() != again.as_slice() {
        first.clear();
    }
    Ok(first)
}

/// What a search finds by where a test would end if it were placed now.
fn found_by_ends_now(alloc: Global, job: &Job, budget: u64) -> Result<Vec<u8>, NoMemory>
    requires { IsSoundJob (job_value job.now) }
{
    let ahead = Ahead::new(
        |table: &Table<'_>, test: usize| -> u64
            requires { CanAsk table.now test }
            ensures least { IsAtLeastReady table.now test result }
            ensures most { IsAtMostNow table.now test result }
        { table.end_now(test) },
    );
    let mut search = Search::new(alloc, job, budget, ahead)?;
    found_twice(alloc, &mut search)
}

/// What a search finds by where a test would end if it began as soon as it is ready.
fn found_by_ready_ends(alloc: Global, job: &Job, budget: u64) -> Result<Vec<u8>, NoMemory>
    requires { IsSoundJob (job_value job.now) }
{
    let ahead = Ahead::new(
        |table: &Table<'_>, test: usize| -> u64
            requires { CanAsk table.now test }
            ensures least { IsAtLeastReady table.now test result }
            ensures most { IsAtMostNow table.now test result }
        { table.ready_end(test) },
    );
    let mut search = Search::new(alloc, job, budget, ahead)?;
    found_twice(alloc, &mut search)
}

/// What a search within the budget of the limits finds, by the ends now or else by the ready ends.
pub fn found_by(
    alloc: Global,
    soc: &Soc,
    limits: &Limits,
    plan: &Plan,
    ends_now: bool,
) -> Result<Vec<u8>, NoMemory>
    requires sound { IsSoundChip (soc_value soc.now) }
    requires limits { IsSoundLimits (soc_value soc.now) (limits_value limits.now) }
    requires accepted { IsFaultless (soc_value soc.now) (limits_value limits.now)
        (plan_value plan.now) }
{
    let job = job_of_plan(alloc, soc, limits, plan)?;
    if ends_now {
        found_by_ends_now(alloc, &job, limits.budget)
    } else {
        found_by_ready_ends(alloc, &job, limits.budget)
    }
}
