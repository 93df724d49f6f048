//! What the tests of a plan begin and end to draw, as events, and from these the steps of what they draw together.
//!
//! The steps are what the tests draw together at each cycle, by the definitions of `plan_model`, from the placed tests of
//! `live_tests`. Powers have the unit of the chip's file. The only error is out of memory.

ghost use Rattle.std.specs.Prelude.{◌≡◌, ℕ, ◌+◌, ◌*◌, ◌^◌, ◌<◌, ◌≤◌, ◌∷◌, ◌++◌, [], Some, length, slice_get, vec_capacity, IsTrue, IfOk, OnOk, false};
ghost use Rattle.std.specs.List.Sorted.{IsNonDecreasingBy, IsPermutation};
ghost use Rattle.plan_model.specs.Views.{limits_value};
ghost use Rattle.live_tests.specs.declared.placed.PlacedTest.{PlacedTest as the_placed};
ghost use Rattle.live_tests.specs.Profiles.{AreProfilePlaces};
ghost use Rattle.live_tests.specs.Events.{all_events, step_events, test_events, begun_by, ended_by, IsLastOf, HasSteps, EndBy};
ghost use Rattle.live_tests.specs.Loads.{IsLoad, drawn_by, load_steps, with_change};

use crate::{PlacedTest, profile_place, profile_places};
use indexmap::IndexMap;
use outside::{NoMemory, push};
use plan_model::Limits;
use soc_model::TestId;
use std::alloc::Global;

/// At one cycle: the power that tests begin to draw, and the power that they stop drawing.
#[derive(Clone, Copy, Drop)]
pub struct Event {
    pub cycle: u64,
    pub begins: u64,
    pub ends: u64,
}

/// Puts an event last.
fn put_event(events: &mut Vec<Event>, event: Event)
    requires { length events.old.items < vec_capacity events.old }
    ensures put { events.new.items ≡ events.old.items ++ event ∷ [] }
    ensures room { vec_capacity events.old ≤ vec_capacity events.new }
{
    let _ = events.push(event);
}

/// Puts the events of a test with these steps of power last: one where a step begins before the end, and one at the end.
pub fn put_steps(start: u64, end: u64, steps: &[(u64, u64)], events: &mut Vec<Event>)
    requires later { start ≤ end }
    requires space { length events.old.items + length steps.now + 1 ≤ vec_capacity events.old }
    ensures put { events.new.items ≡ events.old.items ++ step_events start end 0 steps.now }
    ensures room { vec_capacity events.old ≤ vec_capacity events.new }
{
    let length = end - start;
    let mut now = 0;
    for (from, power) in steps {
        if *from >= length {
            continue;
        }
        let event = Event {
            cycle: start + *from,
            begins: *power,
            ends: now,
        };
        put_event(events, event);
        now = *power;
    }
    let last = Event {
        cycle: end,
        begins: 0,
        ends: now,
    };
    put_event(events, last);
}

/// Sorts events by their cycles.
pub fn sort_events(events: &mut Vec<Event>)
    ensures sorted { IsNonDecreasingBy (λ e. e.cycle) events.new.items }
    ensures permutation { IsPermutation events.old.items events.new.items }
    ensures room { vec_capacity events.new ≡ vec_capacity events.old }
{
    events.sort_unstable_by_key(|event| event.cycle);
}

/// Whether the event at a place is the last one of its cycle, among events in the order of their cycles.
pub fn is_last_of_cycle(events: &[Event], at: usize) -> bool
    requires { at < length events.now }
    ensures last { IsTrue result → IsLastOf events.now at }
    ensures other { result ≡ false → IsLastOf events.now at → ⊥ }
{
    let next = at + 1;
    if next >= events.len() {
        return true;
    }
    events[next].cycle != events[at].cycle
}

/// Puts the events of a test with these steps last, and takes room for them.
fn push_steps(
    events: &mut Vec<Event>,
    test: &PlacedTest,
    steps: &[(u64, u64)],
) -> Result<(), NoMemory>
    requires later { test.now.start ≤ test.now.end }
    ensures { OnOk result (events.new.items
        ≡ events.old.items ++ step_events test.now.start test.now.end 0 steps.now) }
{
    let room = steps.len() + 1;
    events.reserve(room)?;
    put_steps(test.start, test.end, steps, events);
    Ok(())
}

/// Puts the events of a test last.
fn push_test(
    events: &mut Vec<Event>,
    limits: &Limits,
    places: &IndexMap<TestId, usize>,
    test: &PlacedTest,
) -> Result<(), NoMemory>
    requires later { test.now.start ≤ test.now.end }
    requires places { AreProfilePlaces places.now limits.now.profiles.items }
    ensures { OnOk result
        (events.new.items ≡ events.old.items ++ test_events (limits_value limits.now) test.now) }
{
    match profile_place(&limits.profiles, places, test.id) {
        Some(place) => push_steps(events, test, &limits.profiles[place].steps),
        None => push_steps(events, test, &[(0, test.power)]),
    }
}

/// The events of tests. Their profiles are found by name.
fn events_of(alloc: Global, limits: &Limits, tests: &[PlacedTest]) -> Result<Vec<Event>, NoMemory>
    requires steps { (i : ℕ) (t : the_placed) → slice_get tests.now i ≡ Some t →
        HasSteps (limits_value limits.now) t }
    ensures { IfOk result
        (λ events. events.items ≡ all_events (limits_value limits.now) tests.now) }
{
    let places = profile_places(alloc, &limits.profiles)?;
    let mut events = Vec::new(alloc);
    for test in tests {
        push_test(&mut events, limits, &places, test)?;
    }
    Ok(events)
}

/// Adds a cycle with the load from there on, where it isn't the load before.
fn push_change(
    steps: &mut Vec<(u64, u64)>,
    cycle: u64,
    before: u64,
    load: u64,
) -> Result<(), NoMemory>
    ensures { OnOk result (steps.new.items ≡ steps.old.items ++ with_change before cycle load) }
{
    if load == before {
        return Ok(());
    }
    push(steps, (cycle, load))
}

/// The power that an event begins.
fn begins_of(event: &Event) -> u128
    ensures is { result ≡ event.now.begins }
    ensures small { result < 2 ^ 64 }
{
    u128::from(event.begins)
}

/// The power that an event ends.
fn ends_of(event: &Event) -> u128
    ensures is { result ≡ event.now.ends }
    ensures small { result < 2 ^ 64 }
{
    u128::from(event.ends)
}

/// The steps of the load that events in order make.
fn swept(alloc: Global, events: &[Event]) -> Result<Vec<(u64, u64)>, NoMemory>
    requires sorted { IsNonDecreasingBy (λ e. e.cycle) events.now }
    requires ended { (c : ℕ) → ended_by events.now c ≤ begun_by events.now c }
    requires fits { (c : ℕ) → begun_by events.now c < ended_by events.now c + 2 ^ 64 }
    ensures { (load : ℕ → ℕ) (last : ℕ) → IsLoad load events.now → EndBy last events.now →
        IfOk result (λ steps. steps.items ≡ load_steps load last) }
{
    let mut steps = Vec::new(alloc);
    let mut begun: u128 = 0;
    let mut ended: u128 = 0;
    let mut load: u64 = 0;
    for at in 0..events.len() {
        begun += begins_of(&events[at]);
        ended += ends_of(&events[at]);
        if !is_last_of_cycle(events, at) {
            continue;
        }
        let now = (begun - ended) as u64;
        push_change(&mut steps, events[at].cycle, load, now)?;
        load = now;
    }
    Ok(steps)
}

/// The steps of what tests draw together: each cycle at which it changes, with the load from there on. The first change is from
/// a load of 0; from the end of the last test on the load is 0 again.
pub fn power_steps(
    alloc: Global,
    limits: &Limits,
    tests: &[PlacedTest],
) -> Result<Vec<(u64, u64)>, NoMemory>
    requires steps { (i : ℕ) (t : the_placed) → slice_get tests.now i ≡ Some t →
        HasSteps (limits_value limits.now) t }
    requires fits { (c : ℕ) → drawn_by (limits_value limits.now) tests.now c < 2 ^ 64 }
    ensures { (last : ℕ) →
        ((i : ℕ) (t : the_placed) → slice_get tests.now i ≡ Some t → t.end ≤ last) →
        IfOk result (λ steps. steps.items
        ≡ load_steps (drawn_by (limits_value limits.now) tests.now) last) }
{
    let mut events = events_of(alloc, limits, tests)?;
    sort_events(&mut events);
    swept(alloc, &events)
}
