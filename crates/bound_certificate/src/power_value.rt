//! The value of a Power certificate, with the places of profiles by the names of their tests.
ghost use Rattle.std.specs.Prelude.{◌≡◌, ◌+◌, ◌<◌, ◌≤◌, Some, None, length, if◌then◌else◌};
ghost use Rattle.std.specs.Map.{lookup};
ghost use Rattle.indexmap.specs.IndexMap.{index_map_len, spare};
ghost use Rattle.soc_model.specs.declared.TestId.{TestId as TheTestId};
ghost use Rattle.soc_model.specs.declared.TheConstants.{TESTS_MOST};
ghost use Rattle.soc_model.specs.Chips.{soc_value, same_test};
ghost use Rattle.soc_model.specs.SoundChips.{IsSoundChip};
ghost use Rattle.plan_model.specs.Bounds.{power_bound};
ghost use Rattle.plan_model.specs.SoundLimits.{IsSoundLimits};
ghost use Rattle.plan_model.specs.Views.{limits_value};
ghost use Rattle.live_tests.specs.Names.{AllDiffer};
ghost use Rattle.live_tests.specs.Profiles.{AreProfilePlaces};
ghost use Rattle.bound_certificate.specs.ProfileNames.{names_of};

use bound_rules::{power_bound, power_bound_with};
use indexmap::IndexMap;
use plan_model::{Limits, Profile};
use soc_model::{Soc, TESTS_MOST, TestId};

/// Notes the place of a profile by the name of its test, of which none is noted.
fn put_place(places: &mut IndexMap<TestId, usize>, id: TestId, place: usize)
    requires room { 0 < spare places.old }
    requires new { lookup (same_test id) places.old.entries ≡ None }
    ensures put { (other : TheTestId) → lookup (same_test other) places.new.entries
        ≡ (if same_test id other then Some place else lookup (same_test other) places.old.entries) }
    ensures count { index_map_len places.new ≡ index_map_len places.old + 1 }
    ensures room { spare places.old ≤ spare places.new + 1 }
{
    let _ = places.insert(id, place);
}

/// Writes the places of profiles by the names of their tests.
fn fill_places(profiles: &[Profile], places: &mut IndexMap<TestId, usize>)
    requires differ { AllDiffer (names_of profiles.now) }
    requires few { length profiles.now ≤ TESTS_MOST }
    requires room { TESTS_MOST ≤ index_map_len places.old + spare places.old }
    ensures filled { AreProfilePlaces places.new profiles.now }
    ensures room { TESTS_MOST ≤ index_map_len places.new + spare places.new }
{
    places.clear();
    for place in (0..profiles.len()).rev() {
        put_place(places, profiles[place].test, place);
    }
}

/// The power bound. Of more profiles than a chip may have tests no places are written.
pub fn power_value(soc: &Soc, limits: &Limits, places: &mut IndexMap<TestId, usize>) -> u64
    requires sound { IsSoundChip (soc_value soc.now) }
    requires limits { IsSoundLimits (soc_value soc.now) (limits_value limits.now) }
    requires room { TESTS_MOST ≤ index_map_len places.old + spare places.old }
    ensures value { result
        ≡ power_bound (soc_value soc.now) (limits_value limits.now) limits.now.power }
    ensures room { TESTS_MOST ≤ index_map_len places.new + spare places.new }
{
    if limits.profiles.len() > TESTS_MOST as usize {
        return power_bound(soc, limits);
    }
    fill_places(&limits.profiles, places);
    power_bound_with(soc, limits, places)
}
