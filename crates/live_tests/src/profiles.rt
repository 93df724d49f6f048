//! The profiles of limits, found by the names of their tests.
ghost use Rattle.std.specs.Prelude.{◌≡◌, position, IfOk};
ghost use Rattle.soc_model.specs.Chips.{same_test};
ghost use Rattle.plan_model.specs.declared.Profile.{Profile};
ghost use Rattle.live_tests.specs.Profiles.{AreProfilePlaces};

use indexmap::IndexMap;
use outside::NoMemory;
use plan_model::Profile;
use soc_model::TestId;
use std::alloc::Global;

/// The place of the profile of each test that has one, by the test's name; of more than one the first.
pub fn profile_places(
    alloc: Global,
    profiles: &[Profile],
) -> Result<IndexMap<TestId, usize>, NoMemory>
    ensures { IfOk result (λ places. AreProfilePlaces places profiles.now) }
{
    let mut places = IndexMap::with_capacity(alloc, profiles.len())?;
    for place in (0..profiles.len()).rev() {
        places.insert(profiles[place].test, place)?;
    }
    Ok(places)
}

/// The place of the profile of a test, found by those of all tests. None comes exactly where it has none.
pub fn profile_place(
    profiles: &[Profile],
    places: &IndexMap<TestId, usize>,
    id: TestId,
) -> Option<usize>
    requires { AreProfilePlaces places.now profiles.now }
    ensures { result ≡ position (λ (p : Profile). same_test p.test id) profiles.now }
{
    places.get(&id).copied()
}
