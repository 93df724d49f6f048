//! The walk over the orders of a job, depth first, within a budget of prefixes that are entered.
//!
//! A test is late where it ends, by its estimate, no earlier than the best order so far; then no order that begins with the placed
//! tests is better. A cycle is calm for a power where a test that draws no more than that stays within the limit from it on.
ghost use Rattle.std.specs.Prelude.{◌≡◌, ℕ, ◌+◌, ◌-◌, ◌<◌, ◌≤◌, ◌++◌, ◌∷◌, [], true, false, length, vec_capacity, Some, IfSome};
ghost use Rattle.resource_table.specs.Jobs.{job_value, cycles_of, Precedes};
ghost use Rattle.resource_table.specs.Schedules.{last_end, ready_at, IsEarliest, IsSoundTable};
ghost use Rattle.resource_table.specs.Calm.{IsCalm};
ghost use Rattle.schedule_search.specs.Estimates.{CanAsk};
ghost use Rattle.schedule_search.specs.OrderCycles.{HasPlaced};
ghost use Rattle.schedule_search.specs.Walks.{walk_from, IsOpen};
ghost use Rattle.schedule_search.specs.Prefixes.{HasPrefixRoom, IsAt, IsOut};
ghost use Rattle.schedule_search.specs.Progress.{AreTries, stand_of, IsBest, NoneBefore, Explored};
ghost use Rattle.schedule_search.specs.Late.{IsLateAt, AreInTime, IsSeen, AreUnplaced};

use crate::ahead::Estimate;
use crate::lists::copy_to;
use crate::order::cycles_at;
use crate::prefix::Prefix;
use crate::tries::OrderTables;
use resource_table::{Job, TableOf, earlier_than, list_schedules_are_short};

/// How far a walk has come.
#[derive(Drop)]
pub(crate) struct Progress {
    /// The best order so far.
    pub(crate) best: Vec<usize>,
    /// The cycles of its list schedule.
    pub(crate) cycles: u64,
    /// How many prefixes were entered.
    pub(crate) entered: u64,
    /// Whether a prefix was refused.
    pub(crate) refused: bool,
    /// The test that was late last, where one was.
    pub(crate) late: usize,
}

/// A test that was placed last, and what was seen of those that are left before it was: all of them are in time. Where it excludes
/// one of them, that may start later now; the others start when they did.
#[derive(Clone, Copy)]
pub(crate) struct PlacedLast {
    /// The test.
    pub(crate) test: usize,
    /// The others end before this cycle.
    pub(crate) cycles: u64,
}

/// Enters one prefix more, where the budget isn't spent; else notes the refusal.
fn enter_prefix(progress: &mut Progress, budget: u64) -> bool
    requires { progress.old.entered ≤ budget }
    ensures entered { result ≡ true → (progress.old.entered < budget)
        × (progress.new ≡ record progress.old { entered = progress.old.entered + 1 }) }
    ensures refused { result ≡ false →
        (progress.old.entered ≡ budget) × (progress.new ≡ record progress.old { refused = true }) }
{
    if progress.entered == budget {
        progress.refused = true;
        return false;
    }
    progress.entered += 1;
    true
}

/// Takes an order for the best one, if it takes fewer cycles.
fn offer_order(progress: &mut Progress, order: &[usize], cycles: u64)
    requires { length order.now ≤ vec_capacity progress.old.best }
    ensures fewer { cycles < progress.old.cycles → stand_of progress.new
        ≡ record (stand_of progress.old) { best = order.now; cycles = cycles } }
    ensures kept { progress.old.cycles ≤ cycles → progress.new ≡ progress.old }
    ensures room { vec_capacity progress.new.best ≡ vec_capacity progress.old.best }
{
    if cycles < progress.cycles {
        copy_to(&mut progress.best, order);
        progress.cycles = cycles;
    }
}

/// Whether a test was in time before the last one was placed, and that one doesn't exclude it: it needn't be asked of then.
fn is_still_in_time(job: &Job, seen: Option<PlacedLast>, test: usize, cycles: u64) -> bool
    requires last { IfSome seen (λ s. s.test < length (job_value job.now).tests) }
    requires in_job { test < length (job_value job.now).tests }
    ensures { result ≡ true → (s : PlacedLast) × (seen ≡ Some s) × (s.cycles ≡ cycles) }
{
    let Some(last) = seen else {
        return false;
    };
    if last.cycles != cycles {
        return false;
    }
    !job.tests[last.test].excludes(&job.tests[test])
}

/// Whether a test that isn't placed ends, by its estimate, at `cycles` or later. Its least start is noted, so that it is found the
/// sooner beside more placed tests. Where it ends in time if it is placed now, no estimate is later, and none is asked for.
fn ends_late<J, E: Estimate<J>>(
    job: &Job,
    ahead: &E,
    table: &mut TableOf<J>,
    test: usize,
    cycles: u64,
) -> bool
    requires job { table.old.job ≡ job_value job.now }
    requires estimates { E.estimates ahead.now }
    requires asked { CanAsk table.old test }
    ensures late { result ≡ true → (start : ℕ) →
        IsEarliest table.old.job table.old.placed test start →
        cycles ≤ start + cycles_of table.old.job test }
    ensures in_time { result ≡ false →
        ready_at table.old.job table.old.placed test + cycles_of table.old.job test < cycles }
    ensures same { table.new ≡ table.old }
{
    let start = table.noted_start(test);
    if start < cycles.saturating_sub(cycles_at(job, test)) {
        return false;
    }
    ahead.ask(table, test) >= cycles
}

/// Whether a test is left and ends, by its estimate, at `cycles` or later. `test` may be any number. The estimate isn't asked for
/// where the test takes fewer cycles than are left behind the last placed one, or where it is still in time.
fn asks_late<J, E: Estimate<J>>(
    job: &Job,
    ahead: &E,
    table: &mut TableOf<J>,
    test: usize,
    left: u64,
    cycles: u64,
    seen: Option<PlacedLast>,
) -> bool
    requires job { table.old.job ≡ job_value job.now }
    requires estimates { E.estimates ahead.now }
    requires sound { IsSoundTable table.old }
    requires seen { IfSome seen (IsSeen table.old) }
    ensures late { result ≡ true → IsLateAt table.old cycles }
    ensures same { table.new ≡ table.old }
{
    if test >= job.tests.len() {
        return false;
    }
    if cycles_at(job, test) < left {
        return false;
    }
    if table.is_placed(test) {
        return false;
    }
    if is_still_in_time(job, seen, test, cycles) {
        return false;
    }
    ends_late(job, ahead, table, test, cycles)
}

/// After this number of tests that were looked at, it pays to see from which cycle on little power is drawn.
const MANY: usize = 16;

/// A cycle from which on each test fits within the limit on power that draws no more than `most`, if it was looked for: that is done
/// under such a limit, as soon as many tests were asked of.
fn calm_after<J>(
    job: &Job,
    table: &TableOf<J>,
    asked: usize,
    calm: Option<u64>,
    most: u64,
) -> Option<u64>
    requires calm { IfSome calm (IsCalm table.now.job table.now.placed most) }
    requires at_last { IfSome calm (λ from. from ≤ last_end table.now.job table.now.placed) }
    ensures calm { IfSome result (IsCalm table.now.job table.now.placed most) }
    ensures at_last { IfSome result (λ from. from ≤ last_end table.now.job table.now.placed) }
{
    if asked != MANY {
        return calm;
    }
    if job.power.is_none() {
        return calm;
    }
    Some(table.calm_from(most))
}

/// Whether a test ends before `cycles` if it starts from a calm cycle on.
fn is_in_time<J>(
    job: &Job,
    table: &TableOf<J>,
    test: usize,
    most: u64,
    calm: Option<u64>,
    cycles: u64,
) -> bool
    requires job { table.now.job ≡ job_value job.now }
    requires in_job { test < length table.now.job.tests }
    requires calm { IfSome calm (IsCalm table.now.job table.now.placed most) }
    requires at_last { IfSome calm (λ from. from ≤ last_end table.now.job table.now.placed) }
    ensures { result ≡ true →
        ready_at table.now.job table.now.placed test + cycles_of table.now.job test < cycles }
{
    let Some(from) = calm else {
        return false;
    };
    let start = table.calm_start(test, most, from);
    start < cycles.saturating_sub(cycles_at(job, test))
}

/// What the tests that are left are asked by.
#[derive(Clone, Copy)]
struct Asked {
    /// The end of the last placed test.
    end: u64,
    /// A test that ends at this cycle or later is late.
    cycles: u64,
    /// The greatest power of a step of a test.
    most: u64,
    /// What was seen as the last test was placed.
    seen: Option<PlacedLast>,
    /// How many prefixes were entered.
    entered: u64,
}

/// Whether a test that isn't placed ends, by its estimate, at `by.cycles` or later. Where it is still in time, or in time
/// from a calm cycle on, it isn't asked where it fits first.
fn ends_late_after<J, E: Estimate<J>>(
    job: &Job,
    ahead: &E,
    table: &mut TableOf<J>,
    by: Asked,
    test: usize,
    calm: Option<u64>,
) -> bool
    requires job { table.old.job ≡ job_value job.now }
    requires estimates { E.estimates ahead.now }
    requires asked { CanAsk table.old test }
    requires seen { IfSome by.seen (IsSeen table.old) }
    requires calm { IfSome calm (IsCalm table.old.job table.old.placed by.most) }
    requires at_last { IfSome calm (λ from. from ≤ last_end table.old.job table.old.placed) }
    ensures late { result ≡ true → (start : ℕ) →
        IsEarliest table.old.job table.old.placed test start →
        by.cycles ≤ start + cycles_of table.old.job test }
    ensures in_time { result ≡ false →
        ready_at table.old.job table.old.placed test + cycles_of table.old.job test < by.cycles }
    ensures same { table.new ≡ table.old }
{
    if is_still_in_time(job, by.seen, test, by.cycles) {
        return false;
    }
    if is_in_time(job, table, test, by.most, calm, by.cycles) {
        return false;
    }
    ends_late(job, ahead, table, test, by.cycles)
}

/// Whether one of some tests ends, by its estimate, at `by.cycles` or later. The tests are those that aren't placed, longest first.
/// Each starts at the end of the last placed test at the latest, and so the look ends at the first of them that is in time even
/// then. The one that was late last is looked at first: it often is again. No estimate is asked for where one is still in time, as
/// it was before the last test was placed; nor, after many, where one is in time even from a calm cycle on.
fn is_late<J, E: Estimate<J>>(
    job: &Job,
    ahead: &E,
    table: &mut TableOf<J>,
    rest: &[usize],
    by: Asked,
    late: &mut usize,
) -> bool
    requires job { table.old.job ≡ job_value job.now }
    requires estimates { E.estimates ahead.now }
    requires sound { IsSoundTable table.old }
    requires ends { by.end ≡ last_end table.old.job table.old.placed }
    requires rest { AreUnplaced table.old.job table.old.placed rest.now }
    requires seen { IfSome by.seen (IsSeen table.old) }
    ensures late { result ≡ true → IsLateAt table.old by.cycles }
    ensures in_time { result ≡ false → AreInTime table.old by.cycles }
    ensures same { table.new ≡ table.old }
{
    let left = by.cycles.saturating_sub(by.end);
    if asks_late(job, ahead, table, *late, left, by.cycles, by.seen) {
        return true;
    }
    let mut calm = None;
    for (asked, test) in rest.iter().enumerate() {
        if cycles_at(job, *test) < left {
            return false;
        }
        calm = calm_after(job, table, asked, calm, by.most);
        if ends_late_after(job, ahead, table, by, *test, calm) {
            *late = *test;
            return true;
        }
    }
    false
}

/// Where this number of tests is left, the least start of each is noted. What is noted beside more placed tests is gone again as
/// these are taken back, and the orders of the last tests are walked again and again: each question would be a search from the first
/// cycle on.
const FEW: usize = 32;

/// Notes the least starts of the tests that are left, where they have just become few.
fn note_few<J>(table: &mut TableOf<J>, rest: &[usize])
    requires rest { AreUnplaced table.old.job table.old.placed rest.now }
    ensures same { table.new ≡ table.old }
{
    if rest.len() != FEW {
        return;
    }
    for place in 0..rest.len() {
        table.note(rest[place]);
    }
}

/// Where the walk goes on, the power profile is tidied if the number of prefixes that were entered is a multiple of this number.
const OFTEN: u64 = 4096;

/// Now and then takes the points at the end of the power profile out that no placed test needs any longer. They are of orders that were
/// left, and each look at the profile would pass them.
fn tidy_points<J>(table: &mut TableOf<J>, entered: u64)
    ensures same { table.new ≡ table.old }
{
    if entered % OFTEN == 0 {
        table.forget_points();
    }
}

/// Whether one of the tests that are left is late, as [`is_late`] answers it. Where none is, the power profile is tidied now and then, and
/// where they have just become few, their least starts are noted.
fn is_over<J, E: Estimate<J>>(
    job: &Job,
    ahead: &E,
    table: &mut TableOf<J>,
    rest: &[usize],
    by: Asked,
    late: &mut usize,
) -> bool
    requires job { table.old.job ≡ job_value job.now }
    requires estimates { E.estimates ahead.now }
    requires sound { IsSoundTable table.old }
    requires ends { by.end ≡ last_end table.old.job table.old.placed }
    requires rest { AreUnplaced table.old.job table.old.placed rest.now }
    requires seen { IfSome by.seen (IsSeen table.old) }
    ensures late { result ≡ true → IsLateAt table.old by.cycles }
    ensures in_time { result ≡ false → AreInTime table.old by.cycles }
    ensures same { table.new ≡ table.old }
{
    if is_late(job, ahead, table, rest, by, late) {
        return true;
    }
    tidy_points(table, by.entered);
    note_few(table, rest);
    false
}

/// What is seen of the tests that are left as one of them is placed, where all of them are in time: without a limit on power only
/// those that it excludes or precedes may start later beside it. It is noted where it precedes none.
fn seen_beside(job: &Job, tries: &OrderTables, test: usize, cycles: u64) -> Option<PlacedLast>
    requires tries { AreTries (job_value job.now) tries.now }
    requires in_job { test < length (job_value job.now).tests }
    ensures seen { IfSome result (λ s. s ≡ record { test = test; cycles = cycles }) }
    ensures precedes_none { IfSome result
        (λ s. (later : ℕ) → Precedes (job_value job.now) test later → ⊥) }
{
    if job.power.is_some() {
        return None;
    }
    if !earlier_than(&tries.after, test).is_empty() {
        return None;
    }
    Some(PlacedLast { test, cycles })
}

/// The test that is placed next.
#[derive(Clone, Copy)]
struct NextTest {
    /// The end of the last placed test.
    end: u64,
    /// The test.
    test: usize,
    /// All tests that are left end before this cycle, by their estimates.
    cycles: u64,
}

/// How far the placed tests reach.
#[derive(Clone, Copy)]
pub(crate) struct Reached {
    /// The end of the last of them.
    pub(crate) end: u64,
    /// What was seen as the last of them was placed.
    pub(crate) seen: Option<PlacedLast>,
}

/// Goes on with all orders that begin with the placed tests and then with one more, which is taken out. Its start is noted:
/// the orders that go on from here with other tests ask for it and place it again and again.
#[cycle(explore_orders)]
fn go_on<J, E: Estimate<J>>(
    job: &Job,
    tries: &OrderTables,
    ahead: &E,
    table: &mut TableOf<J>,
    prefix: &mut Prefix,
    progress: &mut Progress,
    next: NextTest,
)
    requires job { table.old.job ≡ job_value job.now }
    requires sound { IsSoundTable table.old }
    requires tries { AreTries (job_value job.now) tries.now }
    requires estimates { E.estimates ahead.now }
    requires placed { HasPlaced table.old prefix.old.tests.items next.end }
    requires out { IsOut (job_value job.now) prefix.old.tests.items next.test prefix.old }
    requires in_time { AreInTime table.old next.cycles }
    requires best_room { length (job_value job.now).tests ≤ vec_capacity progress.old.best }
    requires going { progress.old.refused ≡ false }
    requires within { progress.old.entered ≤ tries.now.budget }
    requires opened { IsOpen (job_value job.now) (prefix.old.tests.items ++ next.test ∷ []) }
    requires best { IsBest (job_value job.now) (stand_of progress.old) }
    requires none_before { NoneBefore (job_value job.now) (prefix.old.tests.items ++ next.test ∷ [])
        progress.old.best.items }
    ensures table { table.new ≡ table.old }
    ensures out { progress.new.refused ≡ false →
        IsOut (job_value job.now) prefix.old.tests.items next.test prefix.new }
    ensures room { HasPrefixRoom (length (job_value job.now).tests) prefix.new }
    ensures best_room { vec_capacity progress.new.best ≡ vec_capacity progress.old.best }
    ensures within { progress.new.entered ≤ tries.now.budget }
    ensures best { IsBest (job_value job.now) (stand_of progress.new) }
    ensures explored { Explored (job_value job.now) tries.now.budget
        (walk_from (job_value job.now)
        (length (job_value job.now).tests - length prefix.old.tests.items - 1)
        (prefix.old.tests.items ++ next.test ∷ [])) (stand_of progress.old)
        (stand_of progress.new) }
{
    list_schedules_are_short();
    let start = table.noted_start(next.test);
    let next_end = next.end.max(start + cycles_at(job, next.test));
    let seen = seen_beside(job, tries, next.test, next.cycles);
    prefix.append(job, tries, next.test);
    let reached = Reached {
        end: next_end,
        seen,
    };
    let mut frame = table.place(next.test, start);
    explore_orders(job, tries, ahead, frame.table(), prefix, progress, reached);
    frame.undo();
    if !progress.refused {
        prefix.go_back(job, tries);
    }
}

/// Goes on with all orders that begin with the placed tests. Where a prefix was refused, the walk is over, and its own
/// prefix is left as it is then.
#[cycle(explore_orders)]
pub(crate) fn explore_orders<J, E: Estimate<J>>(
    job: &Job,
    tries: &OrderTables,
    ahead: &E,
    table: &mut TableOf<J>,
    prefix: &mut Prefix,
    progress: &mut Progress,
    from: Reached,
)
    requires job { table.old.job ≡ job_value job.now }
    requires sound { IsSoundTable table.old }
    requires tries { AreTries (job_value job.now) tries.now }
    requires estimates { E.estimates ahead.now }
    requires placed { HasPlaced table.old prefix.old.tests.items from.end }
    requires at { IsAt (job_value job.now) prefix.old.tests.items prefix.old }
    requires seen { IfSome from.seen (IsSeen table.old) }
    requires best_room { length (job_value job.now).tests ≤ vec_capacity progress.old.best }
    requires going { progress.old.refused ≡ false }
    requires within { progress.old.entered ≤ tries.now.budget }
    requires opened { IsOpen (job_value job.now) prefix.old.tests.items }
    requires best { IsBest (job_value job.now) (stand_of progress.old) }
    requires none_before { NoneBefore (job_value job.now) prefix.old.tests.items
        progress.old.best.items }
    ensures table { table.new ≡ table.old }
    ensures at { progress.new.refused ≡ false →
        IsAt (job_value job.now) prefix.old.tests.items prefix.new }
    ensures room { HasPrefixRoom (length (job_value job.now).tests) prefix.new }
    ensures best_room { vec_capacity progress.new.best ≡ vec_capacity progress.old.best }
    ensures within { progress.new.entered ≤ tries.now.budget }
    ensures best { IsBest (job_value job.now) (stand_of progress.new) }
    ensures explored { Explored (job_value job.now) tries.now.budget
        (walk_from (job_value job.now)
        (length (job_value job.now).tests - length prefix.old.tests.items)
        prefix.old.tests.items) (stand_of progress.old) (stand_of progress.new) }
{
    if !enter_prefix(progress, tries.budget) {
        return;
    }
    if prefix.rest.is_empty() {
        offer_order(progress, &prefix.tests, from.end);
        return;
    }
    let cycles = progress.cycles;
    let by = Asked {
        end: from.end,
        cycles,
        most: tries.most,
        seen: from.seen,
        entered: progress.entered,
    };
    if is_over(job, ahead, table, &prefix.rest, by, &mut progress.late) {
        return;
    }
    let count = prefix.free.len();
    let mut taken = prefix.take_out(job, 0);
    let mut place = 0;
    while place < count {
        let next = NextTest {
            end: from.end,
            test: taken.test,
            cycles,
        };
        go_on(job, tries, ahead, table, prefix, progress, next);
        if progress.refused {
            return;
        }
        taken = prefix.pass(job, place, taken);
        place += 1;
    }
}
