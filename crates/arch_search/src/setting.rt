//! What a search goes by: the problem, what binds its schedules, and the cycles of its modules.
ghost use Rattle.std.specs.Prelude.{◌≡◌, ◌<◌, length, IfOk};
ghost use Rattle.resource_table.specs.Jobs.{job_value, IsSoundJob};
ghost use Rattle.arch_schedule.specs.Problems.{IsProblem};
ghost use Rattle.arch_search.specs.Settings.{IsSetting};

use arch_schedule::{TimedTests, Times, times_of};
use outside::NoMemory;
use resource_table::{Job, JobTest};
use std::alloc::Global;

/// What a search goes by.
#[derive(Drop)]
pub struct SearchSetting<'a> {
    /// The tests with their cycles, and the wires.
    pub problem: &'a TimedTests,
    /// The tests with their powers, and what binds them.
    pub job: &'a Job,
    /// The cycles of the modules.
    pub times: Times,
    /// Whether nothing but the wires binds: tests go side by side where they are on different buses.
    pub wires_alone: bool,
    /// The cycles of the longest self test.
    pub longest_self_test: u64,
}

/// Whether a module has tests.
fn has_tests(tests: &[JobTest], place: usize) -> bool {
    tests.iter().any(|test| test.place == place)
}

/// Whether a test's module has a parent with tests.
fn have_parents(tests: &[JobTest]) -> bool {
    let mut seen = None;
    for test in tests {
        if test.parent != seen {
            if let Some(place) = test.parent {
                if has_tests(tests, place) {
                    return true;
                }
            }
            seen = test.parent;
        }
    }
    false
}

/// Whether two tests are of one module, and not both over the wires.
fn share_a_module(one: &JobTest, other: &JobTest) -> bool {
    one.place == other.place && (one.bus.is_none() || other.bus.is_none())
}

/// Whether a module has a self test beside another test. The tests of a module stand together.
fn have_self_tests_beside(tests: &[JobTest]) -> bool {
    for test in 1..tests.len() {
        if share_a_module(&tests[test - 1], &tests[test]) {
            return true;
        }
    }
    false
}

/// Whether nothing but the wires binds the tests of a job.
fn wires_alone(job: &Job) -> bool {
    if job.power.is_some() || !job.before.is_empty() {
        return false;
    }
    !have_parents(&job.tests) && !have_self_tests_beside(&job.tests)
}

/// The cycles of the longest self test of a job.
fn longest_self_test(job: &Job) -> u64 {
    let mut longest: u64 = 0;
    for test in &job.tests {
        if test.bus.is_none() {
            longest = longest.max(test.length);
        }
    }
    longest
}

impl<'a> SearchSetting<'a> {
    /// What a search for the tests of a job goes by. `NoMemory` where memory runs out.
    pub(crate) fn new(
        alloc: Global,
        problem: &'a TimedTests,
        job: &'a Job,
    ) -> Result<SearchSetting<'a>, NoMemory>
        requires sound { IsSoundJob (job_value job.now) }
        requires problem { IsProblem (job_value job.now) problem.now }
        ensures setting { IfOk result IsSetting }
        ensures problem { IfOk result (λ s. s.problem.now ≡ problem.now) }
    {
        let times = times_of(alloc, problem)?;
        Ok(SearchSetting {
            problem,
            job,
            times,
            wires_alone: wires_alone(job),
            longest_self_test: longest_self_test(job),
        })
    }

    /// Whether there are other buses: there are two modules and two wires.
    pub(crate) fn has_other_buses(&self) -> bool {
        self.problem.wires > 1 && self.problem.modules.len() > 1
    }
}
