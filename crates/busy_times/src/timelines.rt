//! Busy times, kept apart by what they take: a bus, a module, or the children of a module.
ghost use Rattle.std.specs.Prelude.{◌≡◌, ℕ, ◌+◌, ◌-◌, ◌^◌, ◌<◌, ◌≤◌, Some, true, [], length as length_of, take, nat_lt, nat_le, slice_get, vec_len, vec_capacity};
ghost use Rattle.std.specs.List.{All, AllWithin};
ghost use Rattle.std.specs.List.Sorted.{IsNonDecreasingBy, IsPartitionPoint};
ghost use Rattle.busy_times.specs.declared.timelines.Span.{Span};
ghost use Rattle.busy_times.specs.declared.timelines.Timeline.{Timeline};
ghost use Rattle.busy_times.specs.BusyTimes.{AreCleared, AreAllCleared, IsClear, IsPut, IsTaken, AreFree, MayFill, ArePut, MayClear, AreTaken, IsFree, AreOrdered, MayAdd, IsAdded, MayRemove, IsRemoved};

use crate::latest_ends::{LatestEnds, forget_end, have_ended, note_end};

/// A time from a cycle up to before another.
#[derive(Clone, Copy)]
pub struct Span {
    /// The first cycle.
    pub from: u64,
    /// The first cycle after it.
    pub to: u64,
}

/// The times at which one bus, one module, or the children of one module are busy, in the order of their starts.
#[derive(Drop)]
pub struct Timeline {
    /// The times.
    pub spans: Vec<Span>,
}

/// What a test keeps busy: a bus and modules, by their places.
#[derive(Clone, Copy)]
pub struct BusyPlaces {
    /// The bus that it goes over, where it goes over one.
    pub bus: Option<usize>,
    /// Its module.
    pub own: usize,
    /// That module's direct parent, where it has one.
    pub parent: Option<usize>,
}

/// The timelines of all buses and modules, each at the place of its bus or module.
#[derive(Drop)]
pub struct Timelines {
    /// Those of the buses.
    pub buses: Vec<Timeline>,
    /// Those of the modules.
    pub modules: Vec<Timeline>,
    /// Those of the children of the modules.
    pub children: Vec<Timeline>,
    /// Until when the children of the modules run at the latest.
    pub latest: LatestEnds,
}

/// Whether all times start before a cycle. The last of them tells.
fn all_start_before(spans: &[Span], cycle: u64) -> bool
    requires { IsNonDecreasingBy (λ (s : Span). s.from) spans.now }
    ensures { result ≡ true → All (λ (s : Span). s.from < cycle) spans.now }
{
    let count = spans.len();
    if count == 0 {
        return true;
    }
    if spans[count - 1].from >= cycle {
        return false;
    }
    true
}

/// Whether all times have ended by a cycle, where they end in the order of their starts. The last of them tells.
fn all_end_by(spans: &[Span], cycle: u64) -> bool
    requires { IsNonDecreasingBy (λ (s : Span). s.to) spans.now }
    ensures { result ≡ true → All (λ (s : Span). s.to ≤ cycle) spans.now }
{
    let count = spans.len();
    if count == 0 {
        return true;
    }
    if spans[count - 1].to > cycle {
        return false;
    }
    true
}

/// How many times start before a cycle: often all of them.
fn starts_before(spans: &[Span], cycle: u64) -> usize
    requires { IsNonDecreasingBy (λ (s : Span). s.from) spans.now }
    ensures bound { result ≤ length_of spans.now }
    ensures parts { IsPartitionPoint (λ (s : Span). s.from < cycle) (λ (s : Span). cycle ≤ s.from)
        spans.now result }
{
    if all_start_before(spans, cycle) {
        return spans.len();
    }
    spans.partition_point(
        |s: &Span| -> bool
            ensures { result ≡ nat_lt s.now.from cycle }
        { s.from < cycle },
    )
}

/// Whether of some times, which end in the order of their starts, all but the last have ended by a cycle.
fn last_only_runs(spans: &[Span], cycle: u64) -> bool
    requires { IsNonDecreasingBy (λ (s : Span). s.to) spans.now }
    ensures some { result ≡ true → 1 ≤ length_of spans.now }
    ensures parts { result ≡ true →
        IsPartitionPoint (λ (s : Span). s.to ≤ cycle) (λ (s : Span). cycle < s.to) spans.now
        (length_of spans.now - 1) }
{
    let count = spans.len();
    if count < 2 {
        return false;
    }
    if spans[count - 1].to <= cycle {
        return false;
    }
    spans[count - 2].to <= cycle
}

/// How many times have ended by a cycle, where they end in the order of their starts: often all but the last.
fn ended_by(spans: &[Span], cycle: u64) -> usize
    requires { IsNonDecreasingBy (λ (s : Span). s.to) spans.now }
    ensures bound { result ≤ length_of spans.now }
    ensures parts { IsPartitionPoint (λ (s : Span). s.to ≤ cycle) (λ (s : Span). cycle < s.to)
        spans.now result }
{
    if last_only_runs(spans, cycle) {
        return spans.len() - 1;
    }
    spans.partition_point(
        |s: &Span| -> bool
            ensures { result ≡ nat_le s.now.to cycle }
        { s.to <= cycle },
    )
}

/// Puts a time behind all others, which start earlier, in room that is there.
fn push_span(spans: &mut Vec<Span>, span: Span)
    requires room { vec_len spans.old < vec_capacity spans.old }
    requires earlier { All (λ (s : Span). s.from < span.from) spans.old.items }
    ensures put { IsPut span spans.old.items spans.new.items }
    ensures capacity { vec_capacity spans.new ≡ vec_capacity spans.old }
{
    spans.push_reserved(span);
}

/// Puts a time before those that start no earlier, in room that is there. Often there is none of these.
fn put_span(spans: &mut Vec<Span>, span: Span)
    requires room { vec_len spans.old < vec_capacity spans.old }
    requires ordered { IsNonDecreasingBy (λ (s : Span). s.from) spans.old.items }
    ensures put { IsPut span spans.old.items spans.new.items }
    ensures capacity { vec_capacity spans.new ≡ vec_capacity spans.old }
{
    if all_start_before(spans, span.from) {
        push_span(spans, span);
        return;
    }
    let place = starts_before(spans, span.from);
    match spans.insert(place, span) {
        Ok(()) => {}
        Err(_) => unreachable!(),
    }
}

/// Whether a time is the last one.
fn stands_last(spans: &[Span], span: Span) -> bool
    ensures { result ≡ true → slice_get spans.now (length_of spans.now - 1) ≡ Some span }
{
    let count = spans.len();
    if count == 0 {
        return false;
    }
    let last = spans[count - 1];
    if last.from != span.from {
        return false;
    }
    last.to == span.to
}

/// The place of a time that is there.
fn place_of(spans: &[Span], span: Span) -> usize
    requires ordered { IsNonDecreasingBy (λ (s : Span). s.from) spans.now }
    requires there { (place : ℕ) × (slice_get spans.now place ≡ Some span) }
    ensures { slice_get spans.now result ≡ Some span }
{
    let mut place = starts_before(spans, span.from);
    while spans[place].to != span.to {
        place += 1;
    }
    place
}

/// Takes the last time out, where there is one.
fn take_last(spans: &mut Vec<Span>)
    ensures items { spans.new.items ≡ take (length_of spans.old.items - 1) spans.old.items }
    ensures capacity { vec_capacity spans.new ≡ vec_capacity spans.old }
{
    spans.truncate(spans.len().saturating_sub(1));
}

/// Takes a time out that is there. Often it is the last one, and nothing has to move.
fn take_span(spans: &mut Vec<Span>, span: Span)
    requires ordered { IsNonDecreasingBy (λ (s : Span). s.from) spans.old.items }
    requires there { (place : ℕ) × (slice_get spans.old.items place ≡ Some span) }
    ensures taken { IsTaken span spans.old.items spans.new.items }
    ensures capacity { vec_capacity spans.new ≡ vec_capacity spans.old }
{
    if stands_last(spans, span) {
        take_last(spans);
        return;
    }
    let place = place_of(spans, span);
    spans.remove(place);
}

/// The least start from `start` on at which a test of `length` cycles meets none of these times, of which the first `first`
/// have ended by `start`.
fn after_spans(spans: &[Span], first: usize, length: u64, start: u64, last: u64) -> u64
    requires start { start ≤ last }
    requires last { last + length < 2 ^ 63 }
    requires starts { IsNonDecreasingBy (λ (s : Span). s.from) spans.now }
    requires ends { All (λ (s : Span). s.to ≤ last) spans.now }
    requires within { first ≤ length_of spans.now }
    requires ended { AllWithin (λ (s : Span). s.to ≤ start) spans.now 0 first }
    ensures from { start ≤ result }
    ensures most { result ≤ last }
    ensures clear { All (IsClear length result) spans.now }
    ensures least { (other : ℕ) → start ≤ other → All (IsClear length other) spans.now →
        result ≤ other }
{
    let mut next = start;
    for place in first..spans.len() {
        let span = spans[place];
        if next + length <= span.from {
            return next;
        }
        next = next.max(span.to);
    }
    next
}

/// The least start from `start` on at which a test of `length` cycles meets nothing of the timeline at a place, where there
/// is one. The times of a timeline don't overlap here.
fn after_alone(lines: &[Timeline], place: Option<usize>, length: u64, start: u64, last: u64) -> u64
    requires start { start ≤ last }
    requires last { last + length < 2 ^ 63 }
    requires starts { (k : ℕ) (line : Timeline) → slice_get lines.now k ≡ Some line →
        IsNonDecreasingBy (λ (s : Span). s.from) line.spans.items }
    requires in_order { (k : ℕ) (line : Timeline) → slice_get lines.now k ≡ Some line →
        IsNonDecreasingBy (λ (s : Span). s.to) line.spans.items }
    requires ends { (k : ℕ) (line : Timeline) → slice_get lines.now k ≡ Some line →
        All (λ (s : Span). s.to ≤ last) line.spans.items }
    ensures from { start ≤ result }
    ensures most { result ≤ last }
    ensures clear { AreFree lines.now place length result }
    ensures least { (other : ℕ) → start ≤ other → AreFree lines.now place length other →
        result ≤ other }
{
    let Some(at) = place else {
        return start;
    };
    let Some(line) = lines.get(at) else {
        return start;
    };
    let spans = line.spans.as_slice();
    if all_end_by(spans, start) {
        return start;
    }
    let first = ended_by(spans, start);
    after_spans(spans, first, length, start, last)
}

/// The least start from `start` on at which a test of `length` cycles meets nothing of the timeline at a place, where there
/// is one. The times of a timeline may overlap here.
fn after_together(lines: &[Timeline], place: usize, length: u64, start: u64, last: u64) -> u64
    requires start { start ≤ last }
    requires last { last + length < 2 ^ 63 }
    requires starts { (k : ℕ) (line : Timeline) → slice_get lines.now k ≡ Some line →
        IsNonDecreasingBy (λ (s : Span). s.from) line.spans.items }
    requires ends { (k : ℕ) (line : Timeline) → slice_get lines.now k ≡ Some line →
        All (λ (s : Span). s.to ≤ last) line.spans.items }
    ensures from { start ≤ result }
    ensures most { result ≤ last }
    ensures clear { AreFree lines.now (Some place) length result }
    ensures least { (other : ℕ) → start ≤ other → AreFree lines.now (Some place) length other →
        result ≤ other }
{
    let Some(line) = lines.get(place) else {
        return start;
    };
    after_spans(&line.spans, 0, length, start, last)
}

/// The least start from `start` on at which a test of `length` cycles meets no child of the module at a place. Mostly these have
/// all ended.
fn after_children(times: &Timelines, place: usize, length: u64, start: u64, last: u64) -> u64
    requires start { start ≤ last }
    requires last { last + length < 2 ^ 63 }
    requires times { AreOrdered times.now last }
    ensures from { start ≤ result }
    ensures most { result ≤ last }
    ensures clear { AreFree times.now.children.items (Some place) length result }
    ensures least { (other : ℕ) → start ≤ other →
        AreFree times.now.children.items (Some place) length other → result ≤ other }
{
    if have_ended(&times.latest, place, start) {
        return start;
    }
    after_together(&times.children, place, length, start, last)
}

/// Adds a time to the timeline at a place, where there is one, in room that is there.
#[inline(always)]
fn add_span(lines: &mut Vec<Timeline>, place: Option<usize>, span: Span)
    requires { MayFill place lines.old.items }
    ensures { ArePut place span lines.old.items lines.new.items }
{
    if let Some(at) = place {
        put_span(&mut lines[at].spans, span);
    }
}

/// Takes a time out of the timeline at a place, where there is one.
#[inline(always)]
fn remove_span(lines: &mut Vec<Timeline>, place: Option<usize>, span: Span)
    requires { MayClear place span lines.old.items }
    ensures { AreTaken place span lines.old.items lines.new.items }
{
    if let Some(at) = place {
        take_span(&mut lines[at].spans, span);
    }
}

/// Adds the time of a test, in room that is there.
pub fn add_time(times: &mut Timelines, places: BusyPlaces, span: Span)
    requires { MayAdd times.old places }
    ensures { IsAdded places span times.old times.new }
{
    add_span(&mut times.buses, places.bus, span);
    add_span(&mut times.modules, Some(places.own), span);
    add_span(&mut times.children, places.parent, span);
    note_end(&mut times.latest, places.parent, span.to);
}

/// Takes the time of a test out.
pub fn remove_time(times: &mut Timelines, places: BusyPlaces, span: Span)
    requires { MayRemove times.old places span }
    ensures { IsRemoved places span times.old times.new }
{
    remove_span(&mut times.buses, places.bus, span);
    remove_span(&mut times.modules, Some(places.own), span);
    remove_span(&mut times.children, places.parent, span);
    forget_end(&mut times.latest, places.parent);
}

/// Takes all times out of a timeline, which keeps its room.
fn clear_line(line: &mut Timeline)
    ensures empty { line.new.spans.items ≡ [] }
    ensures room { vec_capacity line.new.spans ≡ vec_capacity line.old.spans }
{
    line.spans.clear();
}

/// Takes all times out of timelines, which keep their room.
fn clear_lines(lines: &mut Vec<Timeline>)
    ensures { AreCleared lines.old.items lines.new.items }
{
    for at in 0..lines.len() {
        clear_line(&mut lines[at]);
    }
}

/// Takes all ends away, also what is kept to take them back.
fn clear_latest(latest: &mut LatestEnds)
    ensures long { length_of latest.new.ends.items ≡ length_of latest.old.ends.items }
    ensures before { latest.new.before.items ≡ [] }
    ensures room { vec_capacity latest.new.before ≡ vec_capacity latest.old.before }
{
    latest.ends.fill(0);
    latest.before.clear();
}

/// Takes the times of all tests out.
pub fn clear_times(times: &mut Timelines)
    ensures { AreAllCleared times.old times.new }
{
    clear_lines(&mut times.buses);
    clear_lines(&mut times.modules);
    clear_lines(&mut times.children);
    clear_latest(&mut times.latest);
}

/// A start from `start` on before which a test of `length` cycles meets a test of its module, of that one's direct parent or of a
/// direct child; `start` where it meets none.
fn after_modules(times: &Timelines, places: BusyPlaces, length: u64, start: u64, last: u64) -> u64
    requires start { start ≤ last }
    requires last { last + length < 2 ^ 63 }
    requires times { AreOrdered times.now last }
    ensures from { start ≤ result }
    ensures most { result ≤ last }
    ensures own { result ≡ start →
        AreFree times.now.modules.items (Some places.own) length start }
    ensures parent { result ≡ start → AreFree times.now.modules.items places.parent length start }
    ensures children { result ≡ start →
        AreFree times.now.children.items (Some places.own) length start }
    ensures least { (other : ℕ) → start ≤ other → IsFree times.now places length other →
        result ≤ other }
{
    let own = after_alone(&times.modules, Some(places.own), length, start, last);
    let parent = after_alone(&times.modules, places.parent, length, own, last);
    after_children(times, places.own, length, parent, last)
}

/// The least start from `start` on at which a test of `length` cycles meets none that it may not meet.
pub fn after_busy(times: &Timelines, places: BusyPlaces, length: u64, start: u64, last: u64) -> u64
    requires start { start ≤ last }
    requires last { last + length < 2 ^ 63 }
    requires times { AreOrdered times.now last }
    ensures from { start ≤ result }
    ensures most { result ≤ last }
    ensures free { IsFree times.now places length result }
    ensures least { (other : ℕ) → start ≤ other → IsFree times.now places length other →
        result ≤ other }
{
    let mut found = start;
    'starts: loop {
        let bus = after_alone(&times.buses, places.bus, length, found, last);
        let next = after_modules(times, places, length, bus, last);
        if next == bus {
            return bus;
        }
        found = next;
    }
}
