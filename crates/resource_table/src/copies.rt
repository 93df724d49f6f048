//! A copy of a job.
ghost use Rattle.std.specs.Prelude.{◌≡◌, map, IfOk};
ghost use Rattle.resource_table.specs.Jobs.{test_value, job_value};

use crate::{Job, JobTest};
use outside::{NoMemory, push};
use std::alloc::Global;

/// A copy of a test.
fn copy_test(alloc: Global, test: &JobTest) -> Result<JobTest, NoMemory>
    ensures { IfOk result (λ copy. test_value copy ≡ test_value test.now) }
{
    let power = Vec::from_slice(alloc, &test.power)?;
    Ok(JobTest {
        id: test.id,
        place: test.place,
        parent: test.parent,
        bus: test.bus,
        length: test.length,
        power,
    })
}

/// A copy of tests.
fn copy_tests(alloc: Global, tests: &[JobTest]) -> Result<Vec<JobTest>, NoMemory>
    ensures { IfOk result (λ copy. map test_value copy.items ≡ map test_value tests.now) }
{
    let mut copy = Vec::new(alloc);
    for test in tests {
        push(&mut copy, copy_test(alloc, test)?)?;
    }
    Ok(copy)
}

/// A copy of a job.
pub fn copy_job(alloc: Global, job: &Job) -> Result<Job, NoMemory>
    ensures { IfOk result (λ copy. job_value copy ≡ job_value job.now) }
{
    let tests = copy_tests(alloc, &job.tests)?;
    let before = Vec::from_slice(alloc, &job.before)?;
    Ok(Job {
        tests,
        before,
        power: job.power,
    })
}
