//! Empty timelines, with room for the times of all tests of a job.
ghost use Rattle.std.specs.Prelude.{◌≡◌, ℕ, ◌+◌, ◌^◌, ◌<◌, ◌≤◌, Some, [], length, map, slice_get, slice_index_or, replicate, vec_capacity, if◌then◌else◌, IfSome, IfOk};
ghost use Rattle.std.specs.List.{All, sum_by};
ghost use Rattle.busy_times.specs.declared.timelines.Timeline.{Timeline};
ghost use Rattle.resource_table.specs.declared.JobTest.{JobTest};
ghost use Rattle.resource_table.specs.declared.empty_times.Kind.TheVariants.{Bus};
ghost use Rattle.resource_table.specs.Jobs.{test_value};
ghost use Rattle.resource_table.specs.Schedules.{is_at};
ghost use Rattle.resource_table.specs.PlacedTimes.{timeline_of as timeline_of_value, takes, least_of, AreEmpty, AreEmptyTimes};

use crate::JobTest;
use busy_times::{Timeline, Timelines, new_latest_ends};
use outside::{NoMemory, push};
use plan_model::WIRES_MOST;
use std::alloc::Global;

/// What a timeline is of.
#[derive(Clone, Copy)]
pub enum Kind {
    /// Of a bus.
    Bus,
    /// Of a module: its own tests.
    Own,
    /// Of a module: the tests of its direct children.
    Children,
}

/// A bus takes a wire at least, so that no chip has more.
const BUSES: usize = WIRES_MOST as usize;

/// The place of the timeline of a kind that a test takes, where it takes one.
fn timeline_of(test: &JobTest, kind: Kind) -> Option<usize>
    ensures { result ≡ timeline_of_value kind (test_value test.now) }
{
    match kind {
        Kind::Bus => test.bus,
        Kind::Own => Some(test.place),
        Kind::Children => test.parent,
    }
}

/// A number of timelines, or as many as it takes to have one at a place; None where that is too great.
fn reaching(count: usize, place: Option<usize>) -> Option<usize>
    ensures from { IfSome result (λ more. count ≤ more) }
    ensures place { IfSome result (λ more. IfSome place (λ k. k < more)) }
{
    match place {
        Some(at) => Some(count.max(at.checked_add(1)?)),
        None => Some(count),
    }
}

/// How many timelines of a kind it takes to have each that a test takes; None where that is too great.
fn count_timelines(tests: &[JobTest], kind: Kind) -> Option<usize>
    ensures { IfSome result (λ count. All
        (λ (t : JobTest). IfSome (timeline_of_value kind (test_value t)) (λ k. k < count))
        tests.now) }
{
    let mut count = 0;
    for test in tests {
        count = reaching(count, timeline_of(test, kind))?;
    }
    Some(count)
}

/// Counts one at a place, where there is one.
fn count_one(counts: &mut [usize], place: Option<usize>)
    requires inside { IfSome place (λ k. k < length counts.old) }
    requires fits { IfSome place (λ k. slice_index_or counts.old k 0 + 1 < 2 ^ 64) }
    ensures { (k : ℕ) → k < length counts.old → slice_index_or counts.new k 0
        ≡ slice_index_or counts.old k 0 + (if is_at place k then 1 else 0) }
{
    if let Some(at) = place {
        counts[at] += 1;
    }
}

/// For each of `count` timelines of a kind how many tests take it.
fn count_takers(
    alloc: Global,
    tests: &[JobTest],
    kind: Kind,
    count: usize,
) -> Result<Vec<usize>, NoMemory>
    requires { All
        (λ (t : JobTest). IfSome (timeline_of_value kind (test_value t)) (λ k. k < count))
        tests.now }
    ensures long { IfOk result (λ counts. length counts.items ≡ count) }
    ensures counts { IfOk result (λ counts. (k : ℕ) → k < count →
        slice_index_or counts.items k 0
        ≡ sum_by (λ (t : JobTest). if takes kind k (test_value t) then 1 else 0) tests.now) }
{
    let mut counts = vec![in alloc; 0; count]?;
    for test in tests {
        count_one(&mut counts, timeline_of(test, kind));
    }
    Ok(counts)
}

/// An empty timeline with room for `room` times.
fn empty_timeline(alloc: Global, room: usize) -> Result<Timeline, NoMemory>
    ensures empty { IfOk result (λ line. line.spans.items ≡ []) }
    ensures room { IfOk result (λ line. room ≤ vec_capacity line.spans) }
{
    let spans = Vec::with_capacity(alloc, room)?;
    Ok(Timeline { spans })
}

/// Empty timelines, one for each number of `rooms`, with room for this number of times.
fn timelines_of_rooms(alloc: Global, rooms: &[usize]) -> Result<Vec<Timeline>, NoMemory>
    ensures long { IfOk result (λ lines. length lines.items ≡ length rooms.now) }
    ensures empty { IfOk result (λ lines. (k : ℕ) (line : Timeline) →
        slice_get lines.items k ≡ Some line → line.spans.items ≡ []) }
    ensures room { IfOk result
        (λ lines. (k : ℕ) (line : Timeline) → slice_get lines.items k ≡ Some line →
        slice_index_or rooms.now k 0 ≤ vec_capacity line.spans) }
{
    let mut lines = Vec::new(alloc);
    for room in rooms {
        push(&mut lines, empty_timeline(alloc, *room)?)?;
    }
    Ok(lines)
}

/// One room, `count` times.
fn equal_rooms(alloc: Global, room: usize, count: usize) -> Result<Vec<usize>, NoMemory>
    ensures { IfOk result (λ rooms. rooms.items ≡ replicate count room) }
{
    Ok(vec![in alloc; room; count]?)
}

/// The empty timelines of the buses: as many as a chip may have, or more, each with room for the times of all tests.
fn empty_buses(alloc: Global, tests: &[JobTest]) -> Result<Vec<Timeline>, NoMemory>
    ensures { IfOk result (λ lines. AreEmpty Bus (map test_value tests.now) lines.items) }
{
    let count = count_timelines(tests, Kind::Bus).ok_or(NoMemory)?;
    let rooms = equal_rooms(alloc, tests.len(), count.max(BUSES))?;
    timelines_of_rooms(alloc, &rooms)
}

/// The empty timelines of a kind that tests keep.
fn empty_timelines(alloc: Global, tests: &[JobTest], kind: Kind) -> Result<Vec<Timeline>, NoMemory>
    requires { least_of kind ≡ 0 }
    ensures { IfOk result (λ lines. AreEmpty kind (map test_value tests.now) lines.items) }
{
    let count = count_timelines(tests, kind).ok_or(NoMemory)?;
    let counts = count_takers(alloc, tests, kind, count)?;
    timelines_of_rooms(alloc, &counts)
}

/// The empty timelines of all buses and modules. They take room for each place of a bus or module up to the last.
pub fn empty_times(alloc: Global, tests: &[JobTest]) -> Result<Timelines, NoMemory>
    ensures { IfOk result (λ times. AreEmptyTimes (map test_value tests.now) times) }
{
    let buses = empty_buses(alloc, tests)?;
    let modules = empty_timelines(alloc, tests, Kind::Own)?;
    let children = empty_timelines(alloc, tests, Kind::Children)?;
    let latest = new_latest_ends(alloc, children.len(), tests.len())?;
    Ok(Timelines {
        buses,
        modules,
        children,
        latest,
    })
}
