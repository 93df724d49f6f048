//! What a chip refuses of limits: powers that pass the limit.
ghost use Rattle.std.specs.Prelude.{◌≡◌, ℕ, ◌∷◌, [], map, find, nat_lt, MatchOption};
ghost use Rattle.soc_model.specs.Chips.{soc_value, module_value, live_of, live_tests};
ghost use Rattle.plan_model.specs.Views.{limits_value, profile_value};
ghost use Rattle.live_tests.specs.Profiles.{AreProfilePlaces};
ghost use Rattle.limits_text.specs.Meaning.{powers_named, NonePasses, IsFirstPassing};
ghost use Rattle.limits_text.specs.Passing.{live_at, passing, first_passing};

use indexmap::IndexMap;
use live_tests::profile_place;
use plan_model::{Limits, Profile};
use soc_model::{Module, Soc, Test, TestId, live};

/// The powers of the steps of a profile: the first that passes the limit.
fn passing_step(steps: &[(u64, u64)], most: u64) -> Option<u64>
    ensures { result ≡ find (nat_lt most) (map {A = ℕ × ℕ} (λ s. s.1) steps.now) }
{
    for (_, power) in steps {
        if *power > most {
            return Some(*power);
        }
    }
    None
}

/// The power, where it passes the limit.
fn passing_alone(own: u64, most: u64) -> Option<u64>
    ensures { result ≡ find (nat_lt most) (own ∷ []) }
{
    if own > most { Some(own) } else { None }
}

/// The first power of a test that passes the limit: of a step of its profile, or its own where it has none.
fn passing_power(
    profiles: &[Profile],
    places: &IndexMap<TestId, usize>,
    most: u64,
    id: TestId,
    own: u64,
) -> Option<u64>
    requires { AreProfilePlaces places.now profiles.now }
    ensures { result ≡ find (nat_lt most) (powers_named (map profile_value profiles.now) id own) }
{
    match profile_place(profiles, places, id) {
        Some(place) => passing_step(&profiles[place].steps, most),
        None => passing_alone(own, most),
    }
}

/// A live test of a module, where it passes the limit, and with which power.
fn passing_test(
    profiles: &[Profile],
    places: &IndexMap<TestId, usize>,
    most: u64,
    module: &Module,
    test: &Test,
) -> Option<(TestId, u64)>
    requires { AreProfilePlaces places.now profiles.now }
    ensures { (place : ℕ) →
        result
        ≡ passing (map profile_value profiles.now) most
        (live_at place (module_value «module».now) test.now) }
{
    let id = TestId {
        module: module.number,
        test: test.number,
    };
    let power = passing_power(profiles, places, most, id, test.power)?;
    Some((id, power))
}

/// The first live test of a module that passes the limit, and with which power.
fn passing_in(
    profiles: &[Profile],
    places: &IndexMap<TestId, usize>,
    most: u64,
    module: &Module,
) -> Option<(TestId, u64)>
    requires { AreProfilePlaces places.now profiles.now }
    ensures { (place : ℕ) →
        result
        ≡ first_passing (map profile_value profiles.now) most
        (live_of place (module_value «module».now)) }
{
    for test in &module.tests {
        if !live(test) {
            continue;
        }
        if let Some(found) = passing_test(profiles, places, most, module, test) {
            return Some(found);
        }
    }
    None
}

/// The first live test that passes the limit, and with which power.
fn first_test(
    profiles: &[Profile],
    places: &IndexMap<TestId, usize>,
    most: u64,
    soc: &Soc,
) -> Option<(TestId, u64)>
    requires { AreProfilePlaces places.now profiles.now }
    ensures { result
        ≡ first_passing (map profile_value profiles.now) most (live_tests (soc_value soc.now)) }
{
    for module in soc.modules.values() {
        if let Some(found) = passing_in(profiles, places, most, module) {
            return Some(found);
        }
    }
    None
}

/// The first live test that passes the limit, with the first such power of it.
pub fn test_power(
    soc: &Soc,
    limits: &Limits,
    places: &IndexMap<TestId, usize>,
) -> Option<(TestId, u64)>
    requires { AreProfilePlaces places.now limits.now.profiles.items }
    ensures { MatchOption result
        (NonePasses (soc_value soc.now) (limits_value limits.now))
        (λ first. IsFirstPassing (soc_value soc.now) (limits_value limits.now) first.0 first.1) }
{
    let most = limits.power?;
    first_test(&limits.profiles, places, most, soc)
}
