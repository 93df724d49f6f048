//! What the tests of a plan draw together, against the limit.

ghost use Rattle.std.specs.Prelude.{◌≡◌, ℕ, ◌+◌, ◌*◌, ◌<◌, ◌≤◌, ◌++◌, Some, length, set, slice_get, vec_capacity};
ghost use Rattle.soc_model.specs.Chips.{SocValue};
ghost use Rattle.plan_model.specs.Plans.{PlanValue};
ghost use Rattle.plan_model.specs.Rules.{Power};
ghost use Rattle.plan_model.specs.Views.{limits_value};
ghost use Rattle.live_tests.specs.declared.placed.PlacedTest.{PlacedTest};
ghost use Rattle.plan_checker.specs.Events.{IsFirstOver};
ghost use Rattle.live_tests.specs.Events.{test_events, all_events, profile_place};
ghost use Rattle.live_tests.specs.Placed.{placed_tests};
ghost use Rattle.live_tests.specs.Names.{AllDiffer};
ghost use Rattle.plan_checker.specs.Named.{ids_of, names_of};
ghost use Rattle.plan_checker.specs.Power.{AreProfiles, IsLoad, IsSoundLoad};
ghost use Rattle.live_tests.specs.Loads.{drawn_by};
ghost use Rattle.plan_checker.specs.Stages.{IsStage};

use crate::PlanFault;
use crate::events::{EVENTS_EACH, Excess, first_excess};
use crate::named::{TestNames, place_named, test_at};
use crate::places::clear_marks;
use live_tests::{Event, PlacedTest, put_steps, sort_events};
use plan_model::{Limits, Profile};

/// The placed tests of a plan, and for each the place of its profile in the limits.
#[derive(Clone, Copy, Drop)]
pub(crate) struct ProfiledTests<'a> {
    pub(crate) limits: &'a Limits,
    pub(crate) placed: &'a [PlacedTest],
    pub(crate) profiles: &'a [usize],
    pub(crate) most: u64,
}

/// Writes the place of a profile at the place of a test.
fn write_place(profiles: &mut [usize], test: usize, profile: usize)
    requires { test < length profiles.old }
    ensures { profiles.new ≡ set profiles.old test profile }
{
    profiles[test] = profile;
}

/// Writes for each test the place of its profile, the number of profiles where it has none. It goes from the last
/// profile to the first.
pub(crate) fn fill_profiles(
    limits: &Limits,
    placed: &[PlacedTest],
    names: &TestNames<'_>,
    profiles: &mut [usize],
)
    requires named { ids_of names.now ≡ names_of placed.now }
    requires apart { AllDiffer (names_of placed.now) }
    requires room { length profiles.old ≡ length placed.now }
    ensures { AreProfiles (limits_value limits.now) placed.now profiles.new }
{
    let count = profile_count(&limits.profiles);
    clear_marks(profiles, count);
    for at in (0..count).rev() {
        match place_named(names, limits.profiles[at].test) {
            Some(place) => write_place(profiles, place, at),
            None => {}
        }
    }
}

/// The number of profiles.
fn profile_count(profiles: &[Profile]) -> usize
    ensures { result ≡ length profiles.now }
{
    profiles.len()
}

/// The place of the profile of the test at a place.
fn profile_of(load: &ProfiledTests<'_>, place: usize) -> usize
    requires load { IsSoundLoad load.now }
    requires within { place < length load.now.placed.now }
    ensures { (j : PlacedTest) → slice_get load.now.placed.now place ≡ Some j →
        result ≡ profile_place (limits_value load.now.limits.now) j.id }
{
    load.profiles[place]
}

/// Puts the events of the test at a place last.
fn put_test(load: &ProfiledTests<'_>, place: usize, events: &mut Vec<Event>)
    requires load { IsSoundLoad load.now }
    requires within { place < length load.now.placed.now }
    requires space { length events.old.items + EVENTS_EACH ≤ vec_capacity events.old }
    ensures put { (j : PlacedTest) → slice_get load.now.placed.now place ≡ Some j →
        events.new.items ≡ events.old.items ++ test_events (limits_value load.now.limits.now) j }
    ensures room { vec_capacity events.old ≤ vec_capacity events.new }
{
    let test = test_at(load.placed, place);
    let profile = profile_of(load, place);
    if profile >= profile_count(&load.limits.profiles) {
        put_steps(test.start, test.end, &[(0, test.power)], events);
    } else {
        put_steps(
            test.start,
            test.end,
            &load.limits.profiles[profile].steps,
            events,
        );
    }
}

/// Writes the events of all placed tests.
fn fill_events(load: &ProfiledTests<'_>, events: &mut Vec<Event>)
    requires load { IsSoundLoad load.now }
    requires space { length load.now.placed.now * EVENTS_EACH ≤ vec_capacity events.old }
    ensures filled { events.new.items
        ≡ all_events (limits_value load.now.limits.now) load.now.placed.now }
    ensures room { vec_capacity events.old ≤ vec_capacity events.new }
{
    events.clear();
    for place in 0..load.placed.len() {
        put_test(load, place, events);
    }
}

/// The first cycle at which the tests draw more than the limit, and what they draw then.
fn first_over(load: &ProfiledTests<'_>, events: &mut Vec<Event>) -> Option<Excess>
    requires load { IsSoundLoad load.now }
    requires space { length load.now.placed.now * EVENTS_EACH ≤ vec_capacity events.old }
    ensures first { IsFirstOver (drawn_by (limits_value load.now.limits.now) load.now.placed.now)
        load.now.most result }
    ensures room { vec_capacity events.old ≤ vec_capacity events.new }
{
    fill_events(load, events);
    sort_events(events);
    first_excess(events, load.most)
}

/// The power of the placed tests of a plan against the limit.
pub(crate) fn check_power(
    limits: &Limits,
    placed: &[PlacedTest],
    profiles: &[usize],
    events: &mut Vec<Event>,
) -> Option<PlanFault>
    requires load { (most : ℕ) → limits.now.power ≡ Some most →
        IsLoad (limits_value limits.now) placed.now profiles.now most }
    requires space { length placed.now * EVENTS_EACH ≤ vec_capacity events.old }
    ensures stage { (soc : SocValue) (plan : PlanValue) → placed.now ≡ placed_tests soc plan →
        IsStage soc (limits_value limits.now) plan Power result }
    ensures room { vec_capacity events.old ≤ vec_capacity events.new }
{
    match limits.power {
        None => None,
        Some(most) => {
            let load = ProfiledTests {
                limits,
                placed,
                profiles,
                most,
            };
            match first_over(&load, events) {
                None => None,
                Some(found) => Some(PlanFault::Power {
                    cycle: found.cycle,
                    sum: found.sum,
                }),
            }
        }
    }
}
