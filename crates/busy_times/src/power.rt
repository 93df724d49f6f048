//! What tests draw, step by step.
ghost use Rattle.std.specs.Prelude.{◌≡◌, ℕ, ◌+◌, ◌^◌, ◌<◌, ◌≤◌, ◌++◌, ◌∷◌, [], true, drop, length as length_of, slice_index_or, vec_len, vec_capacity};
ghost use Rattle.std.specs.List.{All};
ghost use Rattle.std.specs.List.Sorted.{IsNonDecreasingBy};
ghost use Rattle.soc_model.specs.declared.TheConstants.{NUMBER_WORD_MOST};
ghost use Rattle.busy_times.specs.Draws.{step_end as step_end_of, draws_from, StepsFit, StepFits};
ghost use Rattle.busy_times.specs.Profiles.{IsEndedProfile};

use crate::crowds::after_crowds;
use crate::points::{Point, places_before_near};

/// A power that is drawn from a cycle up to before another.
#[derive(Clone, Copy)]
pub struct Draw {
    /// The first cycle.
    pub from: u64,
    /// The first cycle after it; none is in between where it isn't after the first.
    pub to: u64,
    /// The power.
    pub power: u64,
}

/// Where a step ends, in cycles from the start of its test: where the next one begins, and with the test at the latest.
fn step_end(steps: &[(u64, u64)], at: usize, length: u64) -> u64
    requires { at < length_of steps.now }
    ensures value { result ≡ step_end_of length (drop (at + 1) steps.now) }
    ensures most { result ≤ length }
{
    match steps.get(at + 1) {
        Some(next) => next.0.min(length),
        None => length,
    }
}

/// Adds the draws of a test of these steps from a start, in room that is there.
pub fn push_draws(draws: &mut Vec<Draw>, steps: &[(u64, u64)], start: u64, length: u64)
    requires room { vec_len draws.old + length_of steps.now ≤ vec_capacity draws.old }
    requires start { start + length ≤ 10 ^ 18 }
    requires steps { All (λ (s : ℕ × ℕ). s.0 ≤ NUMBER_WORD_MOST) steps.now }
    ensures items { draws.new.items ≡ draws.old.items ++ draws_from start length steps.now }
    ensures capacity { vec_capacity draws.new ≡ vec_capacity draws.old }
{
    for (at, step) in steps.iter().enumerate() {
        let to = start + step_end(steps, at, length);
        draws.push_reserved(Draw {
            from: start + step.0,
            to,
            power: step.1,
        });
    }
}

/// The least start from `start` on at which a step of a test leaves the load within what is free: the step is from `offset`
/// cycles after the start of the test on up to `end` cycles after it. Its points are looked for from a near place.
fn after_step(
    points: &[Point],
    near: usize,
    free: u64,
    offset: u64,
    end: u64,
    start: u64,
    last: u64,
) -> u64
    requires start { start ≤ last }
    requires last { last + end < 2 ^ 63 }
    requires profile { (load : ℕ → ℕ) × IsEndedProfile load points.now last }
    ensures from { start ≤ result }
    ensures most { result ≤ last }
    ensures fits { (load : ℕ → ℕ) → IsEndedProfile load points.now last → (c : ℕ) →
        result + offset ≤ c → c < result + end → load c ≤ free }
    ensures least { (load : ℕ → ℕ) → IsEndedProfile load points.now last → (other : ℕ) →
        start ≤ other → ((c : ℕ) → other + offset ≤ c → c < other + end → load c ≤ free) →
        result ≤ other }
{
    if end <= offset {
        return start;
    }
    after_crowds(points, near, free, start + offset, end - offset, last) - offset
}

/// A test that draws power by steps, and what may be drawn at once.
#[derive(Drop)]
struct SteppedTest<'a> {
    /// Its steps: the cycles from its start to where each begins, and the power drawn from there on.
    steps: &'a [(u64, u64)],
    /// Its length, in cycles.
    length: u64,
    /// The most power of all tests at once.
    limit: u64,
}

/// Where a look at steps ended.
#[derive(Clone, Copy)]
struct Look {
    /// The place of the step that moved the start, or where the look was to end.
    place: usize,
    /// The start that was left.
    start: u64,
}

/// A place near to the point at which a step begins, from a near one; that one where the step is over as it begins. The step is from
/// `offset` cycles after a start on up to `end` cycles after it.
fn near_step(points: &[Point], near: usize, offset: u64, end: u64, start: u64) -> usize
    requires { IsNonDecreasingBy (λ (p : Point). p.cycle) points.now }
{
    if end <= offset {
        return near;
    }
    places_before_near(points, near, start.saturating_add(offset))
}

/// Looks at the steps of a test from a place on and before another, until one doesn't stay within the limit from `start` on beside
/// what the points tell. Its place is answered, with the least start from which on it does; else the other place, with `start`. The
/// point at the start is sought from a near place.
fn looked_at(
    points: &[Point],
    first: usize,
    test: &SteppedTest,
    from: usize,
    to: usize,
    start: u64,
    last: u64,
) -> Look
    requires start { start ≤ last }
    requires last { last + test.now.length < 2 ^ 63 }
    requires profile { (load : ℕ → ℕ) × IsEndedProfile load points.now last }
    requires within { All (λ (s : ℕ × ℕ). s.1 ≤ test.now.limit) test.now.steps.now }
    requires to { to ≤ length_of test.now.steps.now }
    ensures place { from ≤ to → result.place ≤ to }
    ensures from { start ≤ result.start }
    ensures most { result.start ≤ last }
    ensures moved { result.place < to → start < result.start }
    ensures there { result.place < to → (load : ℕ → ℕ) → IsEndedProfile load points.now last →
        StepFits load test.now.limit result.start test.now.length result.place test.now.steps.now }
    ensures before { (load : ℕ → ℕ) → IsEndedProfile load points.now last → (k : ℕ) → from ≤ k →
        k < result.place → StepFits load test.now.limit start test.now.length k test.now.steps.now }
    ensures least { (load : ℕ → ℕ) → IsEndedProfile load points.now last → (other : ℕ) →
        start ≤ other → StepsFit load test.now.limit other test.now.length test.now.steps.now →
        result.start ≤ other }
{
    let mut near = first;
    for place in from..to {
        let (offset, power) = test.steps[place];
        let end = step_end(test.steps, place, test.length);
        near = near_step(points, near, offset, end, start);
        let next = after_step(points, near, test.limit - power, offset, end, start, last);
        if next != start {
            return Look { place, start: next };
        }
    }
    Look { place: to, start }
}

/// The least start from `start` on at which a test of one step stays within the limit beside what the points tell.
fn after_only(
    points: &[Point],
    limit: u64,
    step: (u64, u64),
    length: u64,
    start: u64,
    last: u64,
) -> u64
    requires start { start ≤ last }
    requires last { last + length < 2 ^ 63 }
    requires profile { (load : ℕ → ℕ) × IsEndedProfile load points.now last }
    requires within { step.1 ≤ limit }
    ensures from { start ≤ result }
    ensures most { result ≤ last }
    ensures fits { (load : ℕ → ℕ) → IsEndedProfile load points.now last →
        StepsFit load limit result length (step ∷ []) }
    ensures least { (load : ℕ → ℕ) → IsEndedProfile load points.now last → (other : ℕ) →
        start ≤ other → StepsFit load limit other length (step ∷ []) → result ≤ other }
{
    let (offset, power) = step;
    after_step(
        points,
        points.len(),
        limit - power,
        offset,
        length,
        start,
        last,
    )
}

/// The least start from `start` on at which a test of these steps stays within the limit beside what the points tell. They
/// are looked at in turn, the first one behind the last, until each of them has left the start where it is: the one that moved it
/// last, and those behind and before it.
fn after_steps(
    points: &[Point],
    limit: u64,
    steps: &[(u64, u64)],
    length: u64,
    start: u64,
    last: u64,
) -> u64
    requires start { start ≤ last }
    requires last { last + length < 2 ^ 63 }
    requires profile { (load : ℕ → ℕ) × IsEndedProfile load points.now last }
    requires within { All (λ (s : ℕ × ℕ). s.1 ≤ limit) steps.now }
    ensures from { start ≤ result }
    ensures most { result ≤ last }
    ensures fits { (load : ℕ → ℕ) → IsEndedProfile load points.now last →
        StepsFit load limit result length steps.now }
    ensures least { (load : ℕ → ℕ) → IsEndedProfile load points.now last → (other : ℕ) →
        start ≤ other → StepsFit load limit other length steps.now → result ≤ other }
{
    let test = SteppedTest {
        steps,
        length,
        limit,
    };
    let mut near = points.len();
    let mut found = start;
    let mut at = steps.len();
    'starts: loop {
        near = places_before_near(points, near, found);
        let behind = looked_at(points, near, &test, at + 1, steps.len(), found, last);
        if behind.place < steps.len() {
            at = behind.place;
            found = behind.start;
            continue 'starts;
        }
        let before = looked_at(points, near, &test, 0, at, found, last);
        if before.place == at {
            return found;
        }
        at = before.place;
        found = before.start;
    }
}

/// The least start from `start` on at which a test of these steps stays within the limit beside what the points tell.
#[inline(always)]
pub fn after_power(
    points: &[Point],
    limit: u64,
    steps: &[(u64, u64)],
    length: u64,
    start: u64,
    last: u64,
) -> u64
    requires start { start ≤ last }
    requires last { last + length < 2 ^ 63 }
    requires profile { (load : ℕ → ℕ) × IsEndedProfile load points.now last }
    requires within { All (λ (s : ℕ × ℕ). s.1 ≤ limit) steps.now }
    ensures from { start ≤ result }
    ensures most { result ≤ last }
    ensures fits { (load : ℕ → ℕ) → IsEndedProfile load points.now last →
        StepsFit load limit result length steps.now }
    ensures least { (load : ℕ → ℕ) → IsEndedProfile load points.now last → (other : ℕ) →
        start ≤ other → StepsFit load limit other length steps.now → result ≤ other }
{
    if steps.len() == 1 {
        return after_only(points, limit, steps[0], length, start, last);
    }
    after_steps(points, limit, steps, length, start, last)
}

/// Whether no step draws more than `most`.
pub fn are_low(steps: &[(u64, u64)], most: u64) -> bool
    ensures { result ≡ true → (k : ℕ) → k < length_of steps.now →
        (slice_index_or steps.now k (0, 0)).1 ≤ most }
{
    for place in 0..steps.len() {
        if steps[place].1 > most {
            return false;
        }
    }
    true
}
