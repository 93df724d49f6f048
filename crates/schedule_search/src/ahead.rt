//! Estimates of where a test ends that isn't placed yet.
ghost use Rattle.std.specs.Prelude.{◌≡◌};
ghost use Rattle.schedule_search.specs.Estimates.{CanAsk, IsAtLeastReady, IsAtMostNow, IsEstimate};

use resource_table::{Job, Table, TableOf};
use std::marker::Model;

/// An estimate at tables of any kind.
pub(crate) trait Estimate<J> {
    ghost estimates: { Self → Type 0 };

    /// At least the ready end of the test, and at most its end if it is placed now.
    fn ask(&self, table: &TableOf<J>, test: usize) -> u64
        requires estimates { estimates self.now }
        requires asked { CanAsk table.now test }
        ensures least { IsAtLeastReady table.now test result }
        ensures most { IsAtMostNow table.now test result };
}

/// A closure that estimates where a test ends that isn't placed yet, in cycles.
#[derive(Drop)]
pub struct Ahead<F> {
    /// The closure.
    estimate: F,
}

impl<F> Model for Ahead<F> {
    ghost Value = { F };

    ghost view = { λ a. a.estimate };
}

impl<F: Fn(&Table<'_>, usize) -> u64> Ahead<F> {
    /// Keeps a closure. On each sound table and each test of the job that isn't placed, and that no placed test must
    /// follow, it can be called, and its answer is at least [`Table::ready_end`] and at most [`Table::end_now`].
    pub fn new(f: F) -> Ahead<F>
        requires { IsEstimate (λ t test. F.pre f t test)
            (λ t test estimate. F.post f t test estimate) }
        ensures { result ≡ f }
    {
        Ahead { estimate: f }
    }
}

impl<'a, F: Fn(&Table<'_>, usize) -> u64> Estimate<&'a Job> for Ahead<F> {
    ghost estimates = { λ a. IsEstimate (λ t test. F.pre a t test)
        (λ t test estimate. F.post a t test estimate) };

    fn ask(&self, table: &TableOf<&'a Job>, test: usize) -> u64 {
        (self.estimate)(table, test)
    }
}
