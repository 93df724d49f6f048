//! The table of placed tests.
ghost use Rattle.std.specs.Prelude.{◌≡◌, ℕ, ◌+◌, ◌-◌, ◌^◌, ◌<◌, ◌≤◌, ◌++◌, ◌∷◌, [], length, map, take, Some, replicate, None, IfOk, ◌⊎◌, ◌*◌, vec_capacity, slice_index_or, unwrap_or, IfSome};
ghost use Rattle.std.specs.List.{All, Contains, sum_by};
ghost use Rattle.plan_model.specs.declared.TheConstants.{WIRES_MOST};
ghost use Rattle.resource_table.specs.Calm.{IsCalm};
ghost use Rattle.resource_table.specs.declared.JobTest.{JobTest};
ghost use Rattle.resource_table.specs.declared.Placement.{Placement};
ghost use Rattle.resource_table.specs.Jobs.{test_value, job_value, cycles_of, test_over, tests_over, job_over, IsSoundJob};
ghost use Rattle.resource_table.specs.Befores.{listed, AreListed};
ghost use Rattle.resource_table.specs.PlacedTimes.{busy_places as busy_places_of, AreEmptyTimes};
ghost use Rattle.resource_table.specs.EmptyRows.{AreEmptyRows};
ghost use Rattle.resource_table.specs.Schedules.{TableValue, at_start, last_end as last_end_of, ready_at, is_placed as is_placed_in, MeetsNone, StaysWithin, ComesAfter, Fits, IsEarliest, MayPlace, IsSoundTable};

use crate::copies::copy_job;
use crate::earlier::{all_before, earlier_than};
use crate::empty_times::empty_times;
use crate::history::{
    History, Note, forget_notes, mark_changes, new_history, renew_note, undo_to_mark,
};
use crate::{Job, JobTest, Placement};
use busy_times::{
    BusyPlaces, Draw, Point, Span, Timelines, add_drawn, add_time, after_busy, after_power,
    are_low, calm_end, clear_times, drop_last_unused, push_draws, remove_time, take_drawn,
};
use live_tests::Neighbours;
use outside::NoMemory;
use smallvec::SmallVec;
use std::alloc::Global;
use std::marker::Model;

/// The placed tests of a job, with the resources that they take. It keeps a copy of what it needs of the job; `J` is what
/// leads to the job, see [`Table`].
#[derive(Drop)]
pub struct TableOf<J> {
    /// What leads to the job.
    job: J,
    /// A copy of the job.
    own: Job,
    /// The placed tests, in the order of placing.
    trail: SmallVec<Placement, 16>,
    /// For each test of the job its end, where it is placed.
    ends: Vec<Option<u64>>,
    /// With each placed test, the end of the one up to it that ends last.
    lasts: Vec<u64>,
    /// When each bus and module is busy.
    times: Timelines,
    /// For each test of the job a cycle before which it fits at no start, with what is noted of it.
    bounds: History,
    /// The draws of the placed tests, step by step.
    draws: Vec<Draw>,
    /// Under a limit on power, the profile of the power that they take together.
    points: Vec<Point>,
    /// For each test of the job those that precede it.
    before: Vec<Neighbours>,
}

/// How many notes there is room for, for each test of the job.
const NOTES: usize = 32;

/// A table of placed tests of a job.
pub type Table<'a> = TableOf<&'a Job>;

impl<J> Model for TableOf<J> {
    ghost use Rattle.std.specs.Prelude.{map};
    ghost use Rattle.resource_table.specs.Jobs.{job_value};
    ghost use Rattle.resource_table.specs.Schedules.{TableValue};

    ghost Value = { TableValue };

    ghost use Rattle.resource_table.specs.Befores.{listed, AreListed};
    ghost use Rattle.resource_table.specs.Kept.{IsKept, IsProfiled, IsBounded};
    ghost use Rattle.resource_table.specs.PlacedTimes.{AreTimes};

    ghost view = { λ t. record { job = job_value t.own; placed = t.trail.items } };

    ghost invariant = { λ t. IsKept (job_value t.own) t.trail t.ends t.lasts t.draws
        × AreListed (job_value t.own) (map listed t.before.items)
        × IsProfiled (job_value t.own) t.trail t.draws t.points
        × AreTimes (job_value t.own) t.trail.items t.times
        × IsBounded (job_value t.own) t.trail.items t.bounds };
}

/// The end of a test, where it is placed and ends after `latest`; else `latest`.
fn later_end(earlier: usize, ends: &[Option<u64>], latest: u64) -> u64
    requires in_range { earlier < length ends.now }
    ensures from { latest ≤ result }
    ensures end { unwrap_or (slice_index_or ends.now earlier None) 0 ≤ result }
    ensures is { (result ≡ latest) ⊎ (result ≡ unwrap_or (slice_index_or ends.now earlier None) 0) }
{
    latest.max(ends[earlier].unwrap_or(0))
}

/// The latest end of those of some tests that are placed, 0 where there is none.
fn latest_end(tests: &[usize], ends: &[Option<u64>]) -> u64
    requires in_range { All (λ test. test < length ends.now) tests.now }
    ensures latest { All (λ test. unwrap_or (slice_index_or ends.now test None) 0 ≤ result)
        tests.now }
    ensures is { (result ≡ 0)
        ⊎ ((test : ℕ) × Contains tests.now test
        × (result ≡ unwrap_or (slice_index_or ends.now test None) 0)) }
{
    let mut latest: u64 = 0;
    for test in tests {
        latest = later_end(*test, ends, latest);
    }
    latest
}

/// The last of some ends, 0 where there is none.
fn last_of(ends: &[u64]) -> u64
    ensures { result ≡ slice_index_or ends.now (length ends.now - 1) 0 }
{
    match ends {
        [.., last] => *last,
        [] => 0,
    }
}

/// The steps of the tests together.
fn count_steps(tests: &[JobTest]) -> usize
    requires { sum_by (λ (t : JobTest). length t.power.items) tests.now < 2 ^ 64 }
    ensures { result ≡ sum_by (λ (t : JobTest). length t.power.items) tests.now }
{
    let mut steps = 0;
    for test in tests {
        steps += test.power.len();
    }
    steps
}

/// An entry for each test: none is placed.
fn no_ends(alloc: Global, tests: usize) -> Result<Vec<Option<u64>>, NoMemory>
    ensures { IfOk result (λ ends. ends.items ≡ replicate tests None) }
{
    Ok(vec![in alloc; None; tests]?)
}

/// A trail with room for `tests` placements.
fn new_trail(alloc: Global, tests: usize) -> Result<SmallVec<Placement, 16>, NoMemory>
    ensures items { IfOk result (λ trail. trail.items ≡ []) }
    ensures room { IfOk result (λ trail. tests ≤ trail.capacity) }
{
    let mut trail = SmallVec::new(alloc);
    trail.reserve(tests)?;
    Ok(trail)
}

/// No ends yet, with room for those of `tests` tests.
fn new_lasts(alloc: Global, tests: usize) -> Result<Vec<u64>, NoMemory>
    ensures items { IfOk result (λ lasts. lasts.items ≡ []) }
    ensures room { IfOk result (λ lasts. tests ≤ vec_capacity lasts) }
{
    Ok(Vec::with_capacity(alloc, tests)?)
}

/// Draws with room for one of each step.
fn new_draws(alloc: Global, steps: usize) -> Result<Vec<Draw>, NoMemory>
    ensures items { IfOk result (λ draws. draws.items ≡ []) }
    ensures room { IfOk result (λ draws. steps ≤ vec_capacity draws) }
{
    Ok(Vec::with_capacity(alloc, steps)?)
}

/// Points with room for one of each test and one of each step, and for a quarter more of them that no test needs any longer.
fn new_points(alloc: Global, tests: usize, steps: usize) -> Result<Vec<Point>, NoMemory>
    ensures items { IfOk result (λ points. points.items ≡ []) }
    ensures room { IfOk result (λ points. tests + steps ≤ vec_capacity points) }
{
    let Some(marks) = tests.checked_add(steps) else {
        return Err(NoMemory);
    };
    let room = marks.saturating_add(marks / 4);
    Ok(Vec::with_capacity(alloc, room)?)
}

/// What a table keeps of its placements. It is made by a function of its own, and what the table makes of its job by another: one
/// that has all parts of a table in its hands wherever memory runs out takes much longer to prove.
#[derive(Drop)]
struct Rows {
    ends: Vec<Option<u64>>,
    lasts: Vec<u64>,
    draws: Vec<Draw>,
    points: Vec<Point>,
    trail: SmallVec<Placement, 16>,
    bounds: History,
}

/// Rows in which none of `tests` tests is placed, with room for all of them and for their steps.
fn new_rows(alloc: Global, tests: usize, steps: usize) -> Result<Rows, NoMemory>
    ensures { IfOk result (AreEmptyRows tests steps) }
{
    Ok(Rows {
        ends: no_ends(alloc, tests)?,
        lasts: new_lasts(alloc, tests)?,
        draws: new_draws(alloc, steps)?,
        points: new_points(alloc, tests, steps)?,
        trail: new_trail(alloc, tests)?,
        bounds: new_history(alloc, tests, tests, tests.saturating_mul(NOTES))?,
    })
}

/// What a table makes of its job.
#[derive(Drop)]
struct JobParts {
    own: Job,
    times: Timelines,
    before: Vec<Neighbours>,
}

/// A copy of a job, its timelines, empty, and for each of its tests those that precede it.
fn job_parts(alloc: Global, job: &Job) -> Result<JobParts, NoMemory>
    requires { IsSoundJob (job_value job.now) }
    ensures own { IfOk result (λ parts. job_value parts.own ≡ job_value job.now) }
    ensures times { IfOk result (λ parts. AreEmptyTimes (job_value job.now).tests parts.times) }
    ensures before { IfOk result
        (λ parts. AreListed (job_value job.now) (map listed parts.before.items)) }
{
    let before = all_before(alloc, job.tests.len(), &job.before)?;
    let times = empty_times(alloc, &job.tests)?;
    let own = copy_job(alloc, job)?;
    Ok(JobParts { own, times, before })
}

/// What a test keeps busy.
#[inline(always)]
fn busy_places(test: &JobTest) -> BusyPlaces
    ensures { result ≡ busy_places_of (test_value test.now) }
{
    BusyPlaces {
        bus: test.bus,
        own: test.place,
        parent: test.parent,
    }
}

/// Takes all ends away.
fn clear_ends(ends: &mut Vec<Option<u64>>)
    ensures { ends.new.items ≡ replicate (length ends.old.items) None }
{
    ends.fill(None);
}

/// Takes all placements off a trail, which keeps its room.
fn clear_trail(trail: &mut SmallVec<Placement, 16>)
    ensures items { trail.new.items ≡ [] }
    ensures room { trail.new.capacity ≡ trail.old.capacity }
{
    trail.clear();
}

/// Lets a test go over a bus and take `length` cycles.
fn send_one_over(test: &mut JobTest, bus: Option<usize>, length: u64)
    ensures { test_value test.new ≡ test_over bus length (test_value test.old) }
{
    test.bus = bus;
    test.length = length;
}

/// Lets each test go over the bus and take the cycles that stand at its place.
fn send_over(tests: &mut [JobTest], buses: &[Option<usize>], lengths: &[u64])
    requires buses { length buses.now ≡ length tests.old }
    requires lengths { length lengths.now ≡ length tests.old }
    ensures { map test_value tests.new
        ≡ tests_over buses.now lengths.now (map test_value tests.old) }
{
    for place in 0..tests.len() {
        send_one_over(&mut tests[place], buses[place], lengths[place]);
    }
}

impl<'a> TableOf<&'a Job> {
    /// An empty table of a sound job. All memory that it ever takes is taken here; `NoMemory` where memory runs out.
    pub fn new(alloc: Global, job: &'a Job) -> Result<Table<'a>, NoMemory>
        requires { IsSoundJob (job_value job.now) }
        ensures empty { IfOk result (λ t. t ≡ record { job = job_value job.now; placed = [] }) }
        ensures sound { IfOk result IsSoundTable }
    {
        let tests = job.tests.len();
        let steps = count_steps(&job.tests);
        let Rows {
            ends,
            lasts,
            draws,
            points,
            trail,
            bounds,
        } = new_rows(alloc, tests, steps)?;
        let JobParts { own, times, before } = job_parts(alloc, job)?;
        Ok(TableOf {
            job,
            own,
            trail,
            ends,
            lasts,
            times,
            bounds,
            draws,
            points,
            before,
        })
    }
}

impl<J> TableOf<J> {
    /// Every table is sound. The call does nothing: a caller learns this by it.
    pub(crate) fn tables_are_sound(&self)
        ensures { IsSoundTable self.now }
    {
        let _ = &self.job;
    }

    /// Whether a test is placed.
    pub fn is_placed(&self, test: usize) -> bool
        requires in_job { test < length self.now.job.tests }
        ensures placed { result ≡ is_placed_in self.now.placed test }
        ensures sound { IsSoundTable self.now }
    {
        self.ends[test].is_some()
    }

    /// The latest end of the placed tests that precede a test, 0 where there is none.
    fn ready(&self, test: usize) -> u64
        requires in_job { test < length self.now.job.tests }
        ensures ready { result ≡ ready_at self.now.job self.now.placed test }
        ensures after { ComesAfter self.now.job self.now.placed test result }
        ensures most { result ≤ last_end_of self.now.job self.now.placed }
    {
        latest_end(earlier_than(&self.before, test), &self.ends)
    }

    /// The latest end of the placed tests that precede a test, or 0, and the test's length: the test doesn't end before,
    /// wherever it is placed.
    pub fn ready_end(&self, test: usize) -> u64
        requires in_job { test < length self.now.job.tests }
        ensures end { result
            ≡ ready_at self.now.job self.now.placed test + cycles_of self.now.job test }
        ensures sound { IsSoundTable self.now }
    {
        self.ready(test) + self.own.tests[test].length
    }

    /// The least start from `start` on at which a test meets no placed one that excludes it.
    #[inline(always)]
    fn after_times(&self, test: usize, start: u64, last: u64) -> u64
        requires in_job { test < length self.now.job.tests }
        requires start { start ≤ last }
        requires last { last ≡ last_end_of self.now.job self.now.placed }
        ensures from { start ≤ result }
        ensures most { result ≤ last }
        ensures apart { MeetsNone self.now.job self.now.placed test result }
        ensures least { (other : ℕ) → start ≤ other →
            MeetsNone self.now.job self.now.placed test other → result ≤ other }
    {
        let wanted = &self.own.tests[test];
        let places = busy_places(wanted);
        after_busy(&self.times, places, wanted.length, start, last)
    }

    /// The least start from `start` on at which a test stays within the limit on power.
    fn after_draws(&self, test: usize, start: u64, last: u64) -> u64
        requires in_job { test < length self.now.job.tests }
        requires start { start ≤ last }
        requires last { last ≡ last_end_of self.now.job self.now.placed }
        ensures from { start ≤ result }
        ensures most { result ≤ last }
        ensures within { StaysWithin self.now.job self.now.placed test result }
        ensures least { (other : ℕ) → start ≤ other →
            StaysWithin self.now.job self.now.placed test other → result ≤ other }
    {
        let Some(limit) = self.own.power else {
            return start;
        };
        let wanted = &self.own.tests[test];
        after_power(
            &self.points,
            limit,
            &wanted.power,
            wanted.length,
            start,
            last,
        )
    }

    /// The end of the test that ends last, 0 where none is placed.
    fn last(&self) -> u64
        ensures last { result ≡ last_end_of self.now.job self.now.placed }
        ensures sound { IsSoundTable self.now }
    {
        last_of(&self.lasts)
    }

    /// A start before which a test doesn't fit, and at which the placed tests that precede it have ended.
    fn begin(&self, test: usize) -> u64
        requires in_job { test < length self.now.job.tests }
        ensures after { ComesAfter self.now.job self.now.placed test result }
        ensures most { result ≤ last_end_of self.now.job self.now.placed }
        ensures least { (other : ℕ) → Fits self.now.job self.now.placed test other →
            result ≤ other }
    {
        self.ready(test).max(self.bounds.values[test].start)
    }

    /// The least start at which a test fits beside the placed tests, by what they take.
    fn sought_start(&self, test: usize) -> u64
        requires in_job { test < length self.now.job.tests }
        ensures earliest { IsEarliest self.now.job self.now.placed test result }
        ensures at_last { result ≤ last_end_of self.now.job self.now.placed }
        ensures sound { IsSoundTable self.now }
    {
        let last = self.last();
        let first = self.begin(test);
        let mut free = self.after_times(test, first, last);
        'starts: loop {
            let within = self.after_draws(test, free, last);
            if within == free {
                return free;
            }
            let next = self.after_times(test, within, last);
            if next == within {
                return within;
            }
            free = next;
        }
    }

    /// One more than how many tests are placed.
    fn depth(&self) -> usize
        ensures depth { result ≡ length self.now.placed + 1 }
        ensures sound { IsSoundTable self.now }
    {
        self.trail.len() + 1
    }

    /// What is noted of a test.
    fn note_of(&self, test: usize) -> Note
        requires in_job { test < length self.now.job.tests }
        ensures found { result.depth ≡ length self.now.placed + 1 →
            IsEarliest self.now.job self.now.placed test result.start }
        ensures at_last { result.depth ≡ length self.now.placed + 1 →
            result.start ≤ last_end_of self.now.job self.now.placed }
        ensures sound { IsSoundTable self.now }
    {
        self.bounds.values[test]
    }

    /// The least start at which a test fits beside the placed tests: at no cycle it meets a test of its bus, of its
    /// module, of that one's direct parent or of a direct child, the power stays within the limit, and the placed tests
    /// that precede it have ended. It is the end of the last placed test at the latest.
    pub fn earliest(&self, test: usize) -> u64
        requires in_job { test < length self.now.job.tests }
        ensures earliest { IsEarliest self.now.job self.now.placed test result }
        ensures at_last { result ≤ last_end_of self.now.job self.now.placed }
        ensures sound { IsSoundTable self.now }
    {
        let note = self.note_of(test);
        if note.depth == self.depth() {
            return note.start;
        }
        self.sought_start(test)
    }

    /// A cycle from which on a test fits within the limit on power beside the placed tests, whatever it is, if none of its steps draws
    /// more than `most`. It is the end of the last placed test at the latest.
    pub fn calm_from(&self, most: u64) -> u64
        ensures calm { IsCalm self.now.job self.now.placed most result }
        ensures at_last { result ≤ last_end_of self.now.job self.now.placed }
        ensures sound { IsSoundTable self.now }
    {
        let last = self.last();
        let Some(limit) = self.own.power else {
            return last;
        };
        calm_end(&self.points, limit.saturating_sub(most), last)
    }

    /// A start at which a test fits beside the placed tests. It is found without a look at what they draw: from a calm cycle on, if
    /// none of its steps draws more than that leaves free; else it is the end of the last placed test.
    pub fn calm_start(&self, test: usize, most: u64, calm: u64) -> u64
        requires in_job { test < length self.now.job.tests }
        requires calm { IsCalm self.now.job self.now.placed most calm }
        requires at_last { calm ≤ last_end_of self.now.job self.now.placed }
        ensures fits { Fits self.now.job self.now.placed test result }
        ensures at_last { result ≤ last_end_of self.now.job self.now.placed }
        ensures sound { IsSoundTable self.now }
    {
        let last = self.last();
        if !are_low(&self.own.tests[test].power, most) {
            return last;
        }
        let first = self.ready(test).max(calm);
        self.after_times(test, first, last)
    }

    /// Where a test ends if it starts at the least start at which it fits beside the placed tests.
    pub fn end_now(&self, test: usize) -> u64
        requires in_job { test < length self.now.job.tests }
        ensures end { (start : ℕ) × IsEarliest self.now.job self.now.placed test start
            × (result ≡ start + cycles_of self.now.job test) }
        ensures sound { IsSoundTable self.now }
    {
        self.earliest(test) + self.own.tests[test].length
    }

    /// The least start at which a test fits, as [`TableOf::earliest`] answers it. It is noted, as by [`TableOf::note`].
    pub fn noted_start(&mut self, test: usize) -> u64
        requires in_job { test < length self.old.job.tests }
        ensures earliest { IsEarliest self.old.job self.old.placed test result }
        ensures same { self.new ≡ self.old }
        ensures sound { IsSoundTable self.new }
    {
        let start = self.earliest(test);
        let depth = self.depth();
        renew_note(&mut self.bounds, test, Note { start, depth });
        start
    }

    /// Notes the least start at which a test fits, so that it is found sooner beside more placed tests. What is placed stays
    /// as it was. Notes are taken back with the placement under which they were made; where there is no room, nothing is
    /// noted.
    pub fn note(&mut self, test: usize)
        requires in_job { test < length self.old.job.tests }
        ensures same { self.new ≡ self.old }
        ensures sound { IsSoundTable self.new }
    {
        self.noted_start(test);
    }

    /// Takes the points at the end of the power profile out that no placed test needs any longer, so that no look at it passes them.
    /// What is placed stays as it was.
    pub fn forget_points(&mut self)
        ensures same { self.new ≡ self.old }
        ensures sound { IsSoundTable self.new }
    {
        drop_last_unused(&mut self.points);
    }

    /// Appends a placement, and answers how many there were.
    pub(crate) fn push(&mut self, test: usize, start: u64) -> usize
        requires { MayPlace self.old.job self.old.placed test start }
        ensures before { result ≡ length self.old.placed }
        ensures table { self.new
            ≡ record self.old { placed = self.old.placed ++ at_start test start ∷ [] } }
        ensures sound { IsSoundTable self.new }
    {
        let before = self.trail.len();
        let last = self.last();
        let wanted = &self.own.tests[test];
        let earlier = self.draws.len();
        push_draws(&mut self.draws, &wanted.power, start, wanted.length);
        add_drawn(
            self.own.power,
            &mut self.points,
            &self.draws,
            earlier,
            start,
        );
        let to = start + wanted.length;
        let places = busy_places(wanted);
        add_time(&mut self.times, places, Span { from: start, to });
        self.lasts.push_reserved(last.max(to));
        mark_changes(&mut self.bounds);
        self.ends[test] = Some(to);
        self.trail.push_reserved(Placement { test, start });
        before
    }

    /// Takes the last placement back.
    fn pop(&mut self)
        requires { 1 ≤ length self.old.placed }
        ensures { self.new
            ≡ record self.old { placed = take (length self.old.placed - 1) self.old.placed } }
    {
        if let Some(last) = self.trail.pop() {
            let gone = &self.own.tests[last.test];
            let steps = gone.power.len();
            let count = self.draws.len() - steps;
            let to = last.start + gone.length;
            let from = last.start;
            let places = busy_places(gone);
            remove_time(&mut self.times, places, Span { from, to });
            take_drawn(
                self.own.power,
                &mut self.points,
                &self.draws,
                count,
                last.start,
            );
            self.draws.truncate(count);
            self.lasts.truncate(self.trail.len());
            undo_to_mark(&mut self.bounds);
            self.ends[last.test] = None;
        }
    }

    /// How many tests are placed.
    fn count(&self) -> usize
        ensures count { result ≡ length self.now.placed }
        ensures sound { IsSoundTable self.now }
    {
        self.trail.len()
    }

    /// Takes back all but the first `count` placements.
    pub(crate) fn pop_to(&mut self, count: usize)
        requires { count ≤ length self.old.placed }
        ensures table { self.new ≡ record self.old { placed = take count self.old.placed } }
        ensures sound { IsSoundTable self.new }
    {
        while self.count() > count {
            self.pop();
        }
    }

    /// Takes all placements back, and lets each test go over the bus and take the cycles that stand at its place, as
    /// [`crate::OwnTable::restart`] has it. Who holds a table that a frame lends can't call it: the frame would have nothing to take back.
    pub(crate) fn restart(&mut self, buses: &[Option<usize>], lengths: &[u64])
        requires buses { length buses.now ≡ length self.old.job.tests }
        requires lengths { length lengths.now ≡ length self.old.job.tests }
        requires room { All (λ bus. IfSome bus (λ k. k < WIRES_MOST)) buses.now }
        requires sound { IsSoundJob (job_over buses.now lengths.now self.old.job) }
        ensures empty { self.new
            ≡ record { job = job_over buses.now lengths.now self.old.job; placed = [] } }
        ensures sound { IsSoundTable self.new }
    {
        clear_times(&mut self.times);
        clear_ends(&mut self.ends);
        self.lasts.clear();
        self.draws.clear();
        self.points.clear();
        clear_trail(&mut self.trail);
        forget_notes(&mut self.bounds);
        send_over(&mut self.own.tests, buses, lengths);
    }
}
