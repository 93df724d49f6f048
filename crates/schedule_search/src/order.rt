//! The first order of the tests of a job: again and again the longest test is taken whose predecessors are all taken. Tests
//! go by their places in the job.
ghost use Rattle.std.specs.Prelude.{◌≡◌, ◌<◌, length, IfOk};
ghost use Rattle.resource_table.specs.Jobs.{job_value, cycles_of, IsSoundJob};
ghost use Rattle.schedule_search.specs.Orders.{IsFirstOrder};
ghost use Rattle.schedule_search.specs.Progress.{AreTries};

use crate::prefix::Prefix;
use crate::tries::{OrderTables, tries_of};
use outside::NoMemory;
use resource_table::Job;
use std::alloc::Global;

/// The cycles of a test.
pub(crate) fn cycles_at(job: &Job, test: usize) -> u64
    requires { test < length (job_value job.now).tests }
    ensures { result ≡ cycles_of (job_value job.now) test }
{
    job.tests[test].length
}

/// The first order of the tests of a sound job, by what the walk goes by. `NoMemory` where there is no memory.
pub(crate) fn first_by(
    alloc: Global,
    job: &Job,
    tries: &OrderTables,
) -> Result<Vec<usize>, NoMemory>
    requires sound { IsSoundJob (job_value job.now) }
    requires tries { AreTries (job_value job.now) tries.now }
    ensures { IfOk result (λ order. IsFirstOrder (job_value job.now) order.items) }
{
    let mut prefix = Prefix::new(alloc, job.tests.len())?;
    prefix.begin(job, tries);
    while !prefix.free.is_empty() {
        prefix.take_first(job, tries);
    }
    Ok(prefix.tests)
}

/// The first order of the tests of a sound job, by their places in it: again and again the longest test is taken whose
/// predecessors are all taken, and of two that take the same cycles the one that stands first. `NoMemory` where there is
/// no memory.
pub fn first_order(alloc: Global, job: &Job) -> Result<Vec<usize>, NoMemory>
    requires { IsSoundJob (job_value job.now) }
    ensures { IfOk result (λ order. IsFirstOrder (job_value job.now) order.items) }
{
    first_by(alloc, job, &tries_of(alloc, job, 0)?)
}
