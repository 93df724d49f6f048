//! The order in which tests are tried, and what each test waits for.
ghost use Rattle.std.specs.Prelude.{◌≡◌, ◌≤◌, [], map, IfOk};
ghost use Rattle.resource_table.specs.Jobs.{job_value, IsSoundJob};
ghost use Rattle.resource_table.specs.Befores.{listed};
ghost use Rattle.schedule_search.specs.Walks.{by_length as by_length_of};
ghost use Rattle.schedule_search.specs.Prefixes.{AreFollowers, AreMissing};
ghost use Rattle.schedule_search.specs.Progress.{AreTries};
ghost use Rattle.schedule_search.specs.declared.tries.TriedTest.{TriedTest};

use crate::order::cycles_at;
use live_tests::{Neighbours, all_after, count_before};
use outside::{NoMemory, push};
use resource_table::{Job, JobTest};
use std::alloc::Global;
use std::cmp::Reverse;

/// What the walk over the orders of a job goes by.
#[derive(Drop)]
pub(crate) struct OrderTables {
    /// All tests, the longest first; of those that take the same cycles the one that stands first in the job.
    pub(crate) tests: Vec<usize>,
    /// For each test those that it precedes.
    pub(crate) after: Vec<Neighbours>,
    /// For each test how many precedences it has.
    pub(crate) missing: Vec<usize>,
    /// The greatest power of a step of a test.
    pub(crate) most: u64,
    /// How many prefixes of orders may be entered.
    pub(crate) budget: u64,
}

/// A test by its cycles and its place in the job. The order is that of trying: longest first, ties by place.
#[derive(Clone, Copy, PartialEq, Eq, PartialOrd, Ord, Drop)]
pub(crate) struct TriedTest {
    /// The cycles of the test.
    pub(crate) cycles: Reverse<u64>,
    /// Its place in the job.
    pub(crate) place: usize,
}

/// The tests of a job by their cycles and places, in the order in which they are tried.
fn sorted_by_length(alloc: Global, job: &Job) -> Result<Vec<TriedTest>, NoMemory>
    ensures { IfOk result (λ by_length. map (λ (t : TriedTest). t.place) by_length.items
        ≡ by_length_of (job_value job.now)) }
{
    let mut by_length = Vec::new(alloc);
    for place in 0..job.tests.len() {
        let cycles = Reverse(cycles_at(job, place));
        push(&mut by_length, TriedTest { cycles, place })?;
    }
    by_length.sort_unstable();
    Ok(by_length)
}

/// The places of tests.
fn places_of(alloc: Global, by_length: &[TriedTest]) -> Result<Vec<usize>, NoMemory>
    ensures { IfOk result
        (λ places. places.items ≡ map (λ (t : TriedTest). t.place) by_length.now) }
{
    let mut places = Vec::new(alloc);
    for tried in by_length {
        push(&mut places, tried.place)?;
    }
    Ok(places)
}

/// All tests of a job in the order in which they are tried.
fn by_length(alloc: Global, job: &Job) -> Result<Vec<usize>, NoMemory>
    ensures { IfOk result (λ tests. tests.items ≡ by_length_of (job_value job.now)) }
{
    let by_length = sorted_by_length(alloc, job)?;
    places_of(alloc, &by_length)
}

/// For each test of a job those that it precedes.
fn followers(alloc: Global, job: &Job) -> Result<Vec<Neighbours>, NoMemory>
    requires { IsSoundJob (job_value job.now) }
    ensures { IfOk result (λ lists. AreFollowers (job_value job.now) (map listed lists.items)) }
{
    let lists = all_after(alloc, job.tests.len(), &job.before)?;
    Ok(lists)
}

/// For each test of a job how many precedences it has.
fn all_missing(alloc: Global, job: &Job) -> Result<Vec<usize>, NoMemory>
    requires { IsSoundJob (job_value job.now) }
    ensures { IfOk result (λ missing. AreMissing (job_value job.now) [] missing.items) }
{
    let missing = count_before(alloc, job.tests.len(), &job.before)?;
    Ok(missing)
}

/// The greatest power of some steps, or `most` where none is greater.
fn greater_power(steps: &[(u64, u64)], most: u64) -> u64
    ensures { most ≤ result }
{
    let mut greatest: u64 = most;
    for step in steps {
        greatest = greatest.max(step.1);
    }
    greatest
}

/// The greatest power of a step of some tests, 0 where there is none. A walk takes it for a hint: any number would do.
fn most_power(tests: &[JobTest]) -> u64 {
    let mut most: u64 = 0;
    for test in tests {
        most = greater_power(&test.power, most);
    }
    most
}

/// What the walk over the orders of a job goes by. `NoMemory` where memory runs out.
pub(crate) fn tries_of(alloc: Global, job: &Job, budget: u64) -> Result<OrderTables, NoMemory>
    requires { IsSoundJob (job_value job.now) }
    ensures tries { IfOk result (AreTries (job_value job.now)) }
    ensures budget { IfOk result (λ tries. tries.budget ≡ budget) }
{
    Ok(OrderTables {
        tests: by_length(alloc, job)?,
        after: followers(alloc, job)?,
        missing: all_missing(alloc, job)?,
        most: most_power(&job.tests),
        budget,
    })
}
