//! The schedule of a plan: the list schedule of an order of its tests that the search finds.
ghost use Rattle.std.specs.Prelude.{◌≡◌, ◌<◌, length, IfOk};
ghost use Rattle.std.specs.List.{All};
ghost use Rattle.resource_table.specs.Jobs.{job_value};
ghost use Rattle.schedule_search.specs.Estimates.{IsEstimate};
ghost use Rattle.planner.specs.Schedules.{AreStartsOf, IsFoundList};
ghost use Rattle.planner.specs.Wirings.{IsWiring, IsScheduled};

use crate::job::job_with;
use crate::wiring::Wiring;
use live_tests::Problem;
use outside::{NoMemory, push};
use resource_table::{Job, Table};
use schedule_search::{Ahead, Search};
use soc_model::TestId;
use std::alloc::Global;

/// When each test starts, and when the last one ends.
#[derive(Drop)]
pub(crate) struct Schedule {
    /// The starts, in the order of placing.
    pub(crate) starts: Vec<(TestId, u64)>,
    /// The end of the test that ends last, in cycles; 0 where there is none.
    pub(crate) cycles: u64,
}

/// The starts of the tests of an order, each with its test.
fn starts_of(
    alloc: Global,
    job: &Job,
    order: &[usize],
    starts: &[u64],
) -> Result<Vec<(TestId, u64)>, NoMemory>
    requires long { length starts.now ≡ length order.now }
    requires inside { All (λ test. test < length (job_value job.now).tests) order.now }
    ensures { IfOk result
        (λ listed. AreStartsOf (job_value job.now) order.now starts.now listed.items) }
{
    let mut listed = Vec::new(alloc);
    for place in 0..order.len() {
        let id = job.tests[order[place]].id;
        push(&mut listed, (id, starts[place]))?;
    }
    Ok(listed)
}

/// The list schedule of the order that a search finds.
fn found_schedule<F: Fn(&Table<'_>, usize) -> u64>(
    alloc: Global,
    job: &Job,
    search: &mut Search<'_, F>,
) -> Result<Schedule, NoMemory>
    requires job { search.old.job ≡ job_value job.now }
    requires estimate { IsEstimate (λ t test. F.pre search.old.ahead t test)
        (λ t test estimate. F.post search.old.ahead t test estimate) }
    ensures { IfOk result
        (λ s. IsFoundList (job_value job.now) search.old.budget s.starts.items s.cycles) }
{
    let found = search.run();
    let starts = starts_of(alloc, job, found.order, found.starts)?;
    Ok(Schedule {
        starts,
        cycles: found.cycles,
    })
}

/// The list schedule of the order of the live tests that the search finds, over a wiring. `NoMemory` where memory runs out.
pub(crate) fn schedule_of<F: Fn(&Table<'_>, usize) -> u64>(
    alloc: Global,
    problem: &Problem<'_>,
    wiring: &Wiring,
    ahead: Ahead<F>,
) -> Result<Schedule, NoMemory>
where
    F: Drop,
    requires wiring { IsWiring problem.now.soc problem.now.limits wiring.now }
    requires estimate { IsEstimate (λ t test. F.pre ahead t test)
        (λ t test estimate. F.post ahead t test estimate) }
    ensures { IfOk result (IsScheduled problem.now.soc problem.now.limits wiring.now) }
{
    let job = job_with(alloc, problem, &wiring.buses, &wiring.wrappers)?;
    let mut search = Search::new(alloc, &job, problem.limits.budget, ahead)?;
    let schedule = found_schedule(alloc, &job, &mut search)?;
    Ok(schedule)
}
