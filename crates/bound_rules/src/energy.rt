//! What tests draw together over their lower times, in power times cycles.
ghost use Rattle.std.specs.Prelude.{◌≡◌, ℕ, ◌*◌, ◌^◌, ◌<◌, ◌≤◌, Some, length, map, position, slice_get, IfSome};
ghost use Rattle.soc_model.specs.Chips.{soc_value, same_test};
ghost use Rattle.soc_model.specs.SoundChips.{IsSoundChip};
ghost use Rattle.plan_model.specs.declared.Profile.{Profile};
ghost use Rattle.plan_model.specs.Views.{limits_value, profile_value};
ghost use Rattle.plan_model.specs.Plans.{step_power};
ghost use Rattle.plan_model.specs.Rules.{IsBound};
ghost use Rattle.plan_model.specs.SoundLimits.{IsSoundLimits, Grow};
ghost use Rattle.plan_model.specs.Bounds.{sum_below, least_energy, power_bound};
ghost use Rattle.bound_rules.specs.Sizes.{works_by, IsFitting};
ghost use Rattle.bound_rules.specs.Energy.{powers_of, energies};
ghost use Rattle.bound_rules.specs.ProfilePlaces.{HasPlaces};
ghost use Rattle.plan_model.specs.ProfilePlaces.{FindProfiles};

use crate::quotient_up;
use crate::sizes::Sizes;
use indexmap::IndexMap;
use plan_model::{Limits, Profile, profile_of};
use soc_model::{Soc, Test, TestId, live, module_at};

/// What a power draws in `cycles` cycles.
fn drawn(power: u64, cycles: u64) -> u128
    ensures drawn { result ≡ power * cycles }
    ensures fits { result ≤ 2 ^ 64 * cycles }
{
    u128::from(power) * u128::from(cycles)
}

/// What a test with these steps draws over its first `length` cycles, added up step by step.
fn steps_energy(steps: &[(u64, u64)], length: u64) -> u128
    requires { Grow 0 steps.now }
    ensures { result ≡ sum_below (λ r. step_power r 0 steps.now) length }
{
    let mut sum = 0u128;
    let mut begun = 0u64;
    let mut power = 0u64;
    for (from, next) in steps {
        let end = length.min(*from);
        sum += drawn(power, end - begun);
        begun = end;
        power = *next;
    }
    sum + drawn(power, length - begun)
}

/// The profiles of limits, and their places by the names of their tests where these are at hand.
#[derive(Clone, Copy, Drop)]
struct Profiles<'a> {
    list: &'a [Profile],
    places: Option<&'a IndexMap<TestId, usize>>,
}

/// The place of the profile of a test. None comes exactly where it has none.
fn place_in(profiles: &Profiles<'_>, id: TestId) -> Option<usize>
    requires { HasPlaces profiles.now }
    ensures { result ≡ position (λ (p : Profile). same_test p.test id) profiles.now.list.now }
{
    match profiles.places {
        Some(places) => places.get(&id).copied(),
        None => profile_of(profiles.list, id),
    }
}

/// What a test draws over its first `length` cycles, added up: by its profile, or its own power at every cycle.
fn test_energy(profiles: &Profiles<'_>, id: TestId, own: u64, length: u64) -> u128
    requires places { HasPlaces profiles.now }
    requires steps { (i : ℕ) (p : Profile) → slice_get profiles.now.list.now i ≡ Some p →
        Grow 0 p.steps.items }
    ensures { result
        ≡ sum_below (powers_of id own (map profile_value profiles.now.list.now)) length }
{
    match place_in(profiles, id) {
        Some(place) => steps_energy(&profiles.list[place].steps, length),
        None => drawn(own, length),
    }
}

/// What the live tests of a module draw over their lower times, added up.
fn module_energy(
    sizes: &Sizes,
    number: u64,
    tests: &[Test],
    profiles: &Profiles<'_>,
    wires: u64,
) -> u128
    requires some_wire { 1 ≤ wires }
    requires fitting { IsFitting sizes.now }
    requires work { works_by sizes.now tests.now ≤ 10 ^ 18 }
    requires places { HasPlaces profiles.now }
    requires steps { (i : ℕ) (p : Profile) → slice_get profiles.now.list.now i ≡ Some p →
        Grow 0 p.steps.items }
    requires fits { energies sizes.now number (map profile_value profiles.now.list.now) wires
        tests.now ≤ 10 ^ 27 }
    ensures { result
        ≡ energies sizes.now number (map profile_value profiles.now.list.now) wires tests.now }
{
    let mut sum = 0u128;
    for test in tests {
        if live(test) {
            let id = TestId {
                module: number,
                test: test.number,
            };
            let length = sizes.time(test, wires);
            sum += test_energy(profiles, id, test.power, length);
        }
    }
    sum
}

/// What all live tests draw over their lower times, added up.
fn total_energy(soc: &Soc, limits: &Limits, places: Option<&IndexMap<TestId, usize>>) -> u128
    requires sound { IsSoundChip (soc_value soc.now) }
    requires limits { IsSoundLimits (soc_value soc.now) (limits_value limits.now) }
    requires places { IfSome places
        (λ found. FindProfiles found.now.entries limits.now.profiles.items) }
    requires fits { least_energy (soc_value soc.now) (limits_value limits.now) ≤ 10 ^ 27 }
    ensures { result ≡ least_energy (soc_value soc.now) (limits_value limits.now) }
{
    let profiles = Profiles {
        list: &limits.profiles,
        places,
    };
    let mut sum = 0u128;
    for place in 0..soc.modules.len() {
        let module = module_at(soc, place);
        sum += module_energy(
            &Sizes::of(module),
            module.number,
            &module.tests,
            &profiles,
            limits.wires,
        );
    }
    sum
}

/// The power bound, with the places of profiles by the names of their tests where these are at hand.
fn bound_with(soc: &Soc, limits: &Limits, places: Option<&IndexMap<TestId, usize>>) -> u64
    requires sound { IsSoundChip (soc_value soc.now) }
    requires limits { IsSoundLimits (soc_value soc.now) (limits_value limits.now) }
    requires places { IfSome places
        (λ found. FindProfiles found.now.entries limits.now.profiles.items) }
    ensures quotient { result
        ≡ power_bound (soc_value soc.now) (limits_value limits.now) limits.now.power }
    ensures small { result ≤ 10 ^ 18 }
    ensures bound { IsBound (soc_value soc.now) (limits_value limits.now) result }
{
    let most = limits.power.unwrap_or(0);
    if most == 0 {
        return 0;
    }
    quotient_up(total_energy(soc, limits, places), most)
}

/// The cycles in which all live tests can draw what they draw over their lower times, where no cycle has more than the
/// power limit: their sum divided by the limit, rounded up; 0 where there is no limit, or a limit of 0. It looks through
/// the profiles for each live test.
pub fn power_bound(soc: &Soc, limits: &Limits) -> u64
    requires sound { IsSoundChip (soc_value soc.now) }
    requires limits { IsSoundLimits (soc_value soc.now) (limits_value limits.now) }
    ensures quotient { result
        ≡ power_bound (soc_value soc.now) (limits_value limits.now) limits.now.power }
    ensures small { result ≤ 10 ^ 18 }
    ensures bound { IsBound (soc_value soc.now) (limits_value limits.now) result }
{
    bound_with(soc, limits, None)
}

/// What `power_bound` answers, where the places of the profiles are at hand by the names of their tests; of
/// more than one of a test the first.
pub fn power_bound_with(soc: &Soc, limits: &Limits, places: &IndexMap<TestId, usize>) -> u64
    requires sound { IsSoundChip (soc_value soc.now) }
    requires limits { IsSoundLimits (soc_value soc.now) (limits_value limits.now) }
    requires places { FindProfiles places.now.entries limits.now.profiles.items }
    ensures quotient { result
        ≡ power_bound (soc_value soc.now) (limits_value limits.now) limits.now.power }
    ensures small { result ≤ 10 ^ 18 }
    ensures bound { IsBound (soc_value soc.now) (limits_value limits.now) result }
{
    bound_with(soc, limits, Some(places))
}
