//! Some tests of a job, in the order in which they are tried. Tests go by their places in the job.
ghost use Rattle.std.specs.Prelude.{◌≡◌, ℕ, ◌<◌, Bool, Some, true, length, slice_get, vec_capacity};
ghost use Rattle.std.specs.List.{filter};
ghost use Rattle.resource_table.specs.Jobs.{job_value};
ghost use Rattle.schedule_search.specs.Walks.{by_length, goes_before as goes_before_of};
ghost use Rattle.schedule_search.specs.Prefixes.{AreSorted, IsPlaceOf, IsWithout};

use crate::lists::{put_at, take_at};
use crate::order::cycles_at;
use resource_table::Job;

/// Whether a test is tried before another: it is longer, or it is as long and stands before it in the job.
fn goes_before(job: &Job, test: usize, other: usize) -> bool
    requires test { test < length (job_value job.now).tests }
    requires other { other < length (job_value job.now).tests }
    ensures { result ≡ goes_before_of (job_value job.now) test other }
{
    let cycles = cycles_at(job, test);
    let others = cycles_at(job, other);
    others < cycles || (cycles == others && test < other)
}

/// How many of some tests are tried before a test: the place where it stands, or where it is to stand.
pub(crate) fn place_of(job: &Job, tests: &[usize], test: usize) -> usize
    requires sorted { AreSorted (job_value job.now) tests.now }
    requires in_job { test < length (job_value job.now).tests }
    ensures { IsPlaceOf (job_value job.now) tests.now test result }
{
    let mut low = 0;
    let mut high = tests.len();
    while low < high {
        let middle = low + (high - low) / 2;
        if goes_before(job, tests[middle], test) {
            low = middle + 1;
        } else {
            high = middle;
        }
    }
    low
}

/// Puts a test among some tests, in room that is there.
pub(crate) fn put_in(job: &Job, tests: &mut Vec<usize>, test: usize)
    requires sorted { AreSorted (job_value job.now) tests.old.items }
    requires in_job { test < length (job_value job.now).tests }
    requires room { length tests.old.items < vec_capacity tests.old }
    ensures put { (p q : ℕ → Bool) → IsWithout p q test → p test ≡ true →
        tests.old.items ≡ filter q (by_length (job_value job.now)) →
        tests.new.items ≡ filter p (by_length (job_value job.now)) }
    ensures room { vec_capacity tests.new ≡ vec_capacity tests.old }
{
    let place = place_of(job, tests, test);
    put_at(tests, place, test);
}

/// Takes a test out of some tests.
pub(crate) fn take_out(job: &Job, tests: &mut Vec<usize>, test: usize)
    requires sorted { AreSorted (job_value job.now) tests.old.items }
    requires there { (k : ℕ) × (slice_get tests.old.items k ≡ Some test) }
    ensures taken { (p q : ℕ → Bool) → IsWithout p q test →
        tests.old.items ≡ filter p (by_length (job_value job.now)) →
        tests.new.items ≡ filter q (by_length (job_value job.now)) }
    ensures room { vec_capacity tests.new ≡ vec_capacity tests.old }
{
    let place = place_of(job, tests, test);
    take_at(tests, place);
}
