//! The search for an order of the tests of a job whose list schedule takes few cycles.
ghost use Rattle.std.specs.Prelude.{◌≡◌, ◌≤◌, false, not, [], length, vec_capacity, IfOk};
ghost use Rattle.std.specs.Borrow.{sem};
ghost use Rattle.resource_table.specs.Jobs.{job_value, IsSoundJob};
ghost use Rattle.resource_table.specs.Schedules.{IsSoundTable};
ghost use Rattle.schedule_search.specs.Orders.{IsFirstOrder};
ghost use Rattle.schedule_search.specs.Found.{IsFound};
ghost use Rattle.schedule_search.specs.Kept.{HasRoom, IsKept};
ghost use Rattle.schedule_search.specs.Progress.{AreTries, stand_of, IsBest};
ghost use Rattle.schedule_search.specs.Estimates.{IsEstimate};
ghost use Rattle.schedule_search.specs.SearchValues.{SearchValue};
ghost use Rattle.schedule_search.specs.Searches.{Keeps};
ghost use Rattle.schedule_search.specs.Begun.{IsBegun, IsImproved, IsSearched};
ghost use Rattle.schedule_search.specs.Noted.{AreStarts};

use crate::ahead::{Ahead, Estimate};
use crate::exchanges::improve_order;
use crate::lists::{are_same, copy_to, room_for};
use crate::order::first_by;
use crate::prefix::Prefix;
use crate::starts::list_starts;
use crate::tries::{OrderTables, tries_of};
use crate::walk::{Progress, Reached, explore_orders};
use outside::NoMemory;
use resource_table::{Job, Table, TableOf};
use std::alloc::Global;
use std::marker::Model;

/// Up to this number of tests, neighbours of the best order are exchanged.
const EXCHANGED_MOST: usize = 64;

/// Room for a walk, and for what it finds.
#[derive(Drop)]
pub(crate) struct WalkRoom {
    /// A prefix of an order.
    pub(crate) prefix: Prefix,
    /// The best order.
    pub(crate) progress: Progress,
    /// The starts of the best order.
    pub(crate) starts: Vec<u64>,
}

/// A search for an order of the tests of a job whose list schedule takes few cycles.
#[derive(Drop)]
pub struct Search<'a, F> {
    /// The job.
    job: &'a Job,
    /// The empty table.
    table: Table<'a>,
    /// The estimate of where a test ends.
    ahead: Ahead<F>,
    /// What the walk goes by.
    tries: OrderTables,
    /// The first order.
    first: Vec<usize>,
    /// Room for what is found.
    room: WalkRoom,
}

impl<'a, F> Model for Search<'a, F> {
    ghost use Rattle.resource_table.specs.Jobs.{job_value};
    ghost use Rattle.schedule_search.specs.SearchValues.{SearchValue};
    ghost use Rattle.schedule_search.specs.Kept.{IsKept};

    ghost Value = { SearchValue F };

    ghost view = { λ s. record
        { job = job_value s.job.now; budget = s.tries.budget; ahead = s.ahead } };

    ghost invariant = { λ s. IsKept (job_value s.job.now) s.table s.tries s.first s.room };
}

/// What a search found. Tests go by their places in the job.
#[derive(Drop)]
pub struct Found<'s> {
    /// The tests in the order in which they are placed.
    pub order: &'s [usize],
    /// The cycles at which they start, in that order: those of the list schedule of the order.
    pub starts: &'s [u64],
    /// The end of the test that ends last, in cycles; 0 where there is none.
    pub cycles: u64,
    /// Whether no order takes fewer cycles.
    pub complete: bool,
}

/// Begins with the first order, whose starts are listed, and a whole budget.
fn begin_orders<J>(
    job: &Job,
    table: &mut TableOf<J>,
    first: &[usize],
    progress: &mut Progress,
    starts: &mut Vec<u64>,
)
    requires job { table.old.job ≡ job_value job.now }
    requires empty { table.old.placed ≡ [] }
    requires sound { IsSoundTable table.old }
    requires first { IsFirstOrder (job_value job.now) first.now }
    requires room { length (job_value job.now).tests ≤ vec_capacity progress.old.best }
    requires starts_room { length (job_value job.now).tests ≤ vec_capacity starts.old }
    ensures begun { IsBegun (job_value job.now) first.now (stand_of progress.new) }
    ensures starts { AreStarts (job_value job.now) first.now starts.new.items }
    ensures table { table.new ≡ table.old }
    ensures room { vec_capacity progress.new.best ≡ vec_capacity progress.old.best }
    ensures starts_room { vec_capacity starts.new ≡ vec_capacity starts.old }
{
    copy_to(&mut progress.best, first);
    progress.cycles = list_starts(job, table, first, starts);
    progress.entered = 0;
    progress.refused = false;
}

/// Exchanges neighbours of the best order, up to 64 tests.
fn improve_best<J>(job: &Job, table: &mut TableOf<J>, progress: &mut Progress)
    requires job { table.old.job ≡ job_value job.now }
    requires empty { table.old.placed ≡ [] }
    requires best { IsBest (job_value job.now) (stand_of progress.old) }
    ensures improved { IsImproved (job_value job.now) (stand_of progress.old)
        (stand_of progress.new) }
    ensures table { table.new ≡ table.old }
    ensures room { vec_capacity progress.new.best ≡ vec_capacity progress.old.best }
{
    if job.tests.len() <= EXCHANGED_MOST {
        progress.cycles = improve_order(job, table, &mut progress.best, progress.cycles);
    }
}

/// Searches, from an empty table on. The starts of the first order are listed.
fn search_orders<J, E: Estimate<J>>(
    job: &Job,
    tries: &OrderTables,
    ahead: &E,
    table: &mut TableOf<J>,
    first: &[usize],
    room: &mut WalkRoom,
)
    requires job { table.old.job ≡ job_value job.now }
    requires empty { table.old.placed ≡ [] }
    requires sound { IsSoundTable table.old }
    requires tries { AreTries (job_value job.now) tries.now }
    requires estimates { E.estimates ahead.now }
    requires first { IsFirstOrder (job_value job.now) first.now }
    requires room { HasRoom (length (job_value job.now).tests) room.old }
    ensures found { IsSearched (job_value job.now) tries.now.budget (stand_of room.new.progress) }
    ensures starts { AreStarts (job_value job.now) first.now room.new.starts.items }
    ensures table { table.new ≡ table.old }
    ensures room { HasRoom (length (job_value job.now).tests) room.new }
{
    begin_orders(job, table, first, &mut room.progress, &mut room.starts);
    room.prefix.begin(job, tries);
    let from = Reached { end: 0, seen: None };
    explore_orders(
        job,
        tries,
        ahead,
        table,
        &mut room.prefix,
        &mut room.progress,
        from,
    );
    improve_best(job, table, &mut room.progress);
}

/// Searches, from an empty table on, and lists the starts of the best order. Those of the first order are listed already.
fn search_all<J, E: Estimate<J>>(
    job: &Job,
    tries: &OrderTables,
    ahead: &E,
    table: &mut TableOf<J>,
    first: &[usize],
    room: &mut WalkRoom,
)
    requires job { table.old.job ≡ job_value job.now }
    requires empty { table.old.placed ≡ [] }
    requires sound { IsSoundTable table.old }
    requires tries { AreTries (job_value job.now) tries.now }
    requires estimates { E.estimates ahead.now }
    requires first { IsFirstOrder (job_value job.now) first.now }
    requires room { HasRoom (length (job_value job.now).tests) room.old }
    ensures found { IsFound (job_value job.now) tries.now.budget room.new.progress.best.items
        room.new.starts.items room.new.progress.cycles (not room.new.progress.refused) }
    ensures table { table.new ≡ table.old }
    ensures room { HasRoom (length (job_value job.now).tests) room.new }
{
    search_orders(job, tries, ahead, table, first, room);
    if are_same(&room.progress.best, first) {
        return;
    }
    list_starts(job, table, &room.progress.best, &mut room.starts);
}

/// Room for the best order of `tests` tests.
fn no_progress(alloc: Global, tests: usize) -> Result<Progress, NoMemory>
    ensures { IfOk result (λ progress. tests ≤ vec_capacity progress.best) }
{
    Ok(Progress {
        best: room_for(alloc, tests)?,
        cycles: 0,
        entered: 0,
        refused: false,
        late: 0,
    })
}

impl WalkRoom {
    /// Room for `tests` tests.
    fn new(alloc: Global, tests: usize) -> Result<WalkRoom, NoMemory>
        ensures { IfOk result (HasRoom tests) }
    {
        Ok(WalkRoom {
            prefix: Prefix::new(alloc, tests)?,
            progress: no_progress(alloc, tests)?,
            starts: room_for(alloc, tests)?,
        })
    }

    /// What was found.
    fn found(&self) -> Found<'_>
        ensures order { result.order.now ≡ self.now.progress.best.items }
        ensures starts { result.starts.now ≡ self.now.starts.items }
        ensures cycles { result.cycles ≡ self.now.progress.cycles }
        ensures complete { result.complete ≡ not self.now.progress.refused }
    {
        Found {
            order: self.progress.best.as_slice(),
            starts: self.starts.as_slice(),
            cycles: self.progress.cycles,
            complete: !self.progress.refused,
        }
    }
}

/// What a search over a sound job keeps, but for the estimate: the empty table, what the walk goes by, the first order, and room.
fn kept_for<'a>(
    alloc: Global,
    job: &'a Job,
    budget: u64,
) -> Result<(Table<'a>, OrderTables, Vec<usize>, WalkRoom), NoMemory>
    requires { IsSoundJob (job_value job.now) }
    ensures kept { IfOk result (λ kept. IsKept (job_value job.now) kept.0 kept.1 kept.2 kept.3) }
    ensures budget { IfOk result (λ kept. kept.1.budget ≡ budget) }
{
    let tries = tries_of(alloc, job, budget)?;
    let first = first_by(alloc, job, &tries)?;
    let room = WalkRoom::new(alloc, job.tests.len())?;
    let table = Table::new(alloc, job)?;
    Ok((table, tries, first, room))
}

impl<'a, F: Fn(&Table<'_>, usize) -> u64> Search<'a, F> {
    /// A search over a sound job that may enter `budget` prefixes of orders. All memory that it ever takes is taken here;
    /// `NoMemory` where memory runs out.
    pub fn new(
        alloc: Global,
        job: &'a Job,
        budget: u64,
        ahead: Ahead<F>,
    ) -> Result<Search<'a, F>, NoMemory>
    where
        F: Drop,
        requires { IsSoundJob (job_value job.now) }
        ensures { IfOk result
            (λ s. s ≡ record { job = job_value job.now; budget = budget; ahead = ahead }) }
    {
        let (table, tries, first, room) = kept_for(alloc, job, budget)?;
        Ok(Search {
            job,
            table,
            ahead,
            tries,
            first,
            room,
        })
    }

    /// Searches for an order that takes few cycles. First the first order is taken; then all orders are tried, depth
    /// first, as long as prefixes may be entered; last, up to 64 tests, neighbours of the best order are exchanged as
    /// long as that gives fewer cycles. Each call begins anew.
    pub fn run(&mut self) -> Found<'_>
        requires { IsEstimate (λ t test. F.pre self.old.ahead t test)
            (λ t test estimate. F.post self.old.ahead t test estimate) }
        ensures* keeps { sem 𝓛 (Keeps F.row self.entry) }
        ensures found { IsFound self.old.job self.old.budget result.order.now result.starts.now
            result.cycles result.complete }
    {
        search_all(
            self.job,
            &self.tries,
            &self.ahead,
            &mut self.table,
            &self.first,
            &mut self.room,
        );
        self.room.found()
    }
}
