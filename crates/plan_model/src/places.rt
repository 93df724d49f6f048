//! Where the bus and the wrapper of a module stand in a plan, and the profile of a test in the limits.
ghost use Rattle.std.specs.Prelude.{◌≡◌, map, position};
ghost use Rattle.soc_model.specs.Chips.{same_test};
ghost use Rattle.plan_model.specs.declared.Profile.{Profile};
ghost use Rattle.plan_model.specs.declared.Wrapper.{Wrapper};
ghost use Rattle.plan_model.specs.Plans.{bus_place, has_module, wraps};
ghost use Rattle.plan_model.specs.Views.{bus_value, wrapper_value};

use crate::{Bus, Profile, Wrapper};
use soc_model::TestId;

/// Whether a bus lists a module.
pub fn lists_module(bus: &Bus, module: u64) -> bool
    ensures { result ≡ has_module «module» (bus_value bus.now) }
{
    bus.modules.iter().any(|listed| module == *listed)
}

/// The place of the first bus that lists a module, the number of buses where none does.
pub fn bus_of(buses: &[Bus], module: u64) -> usize
    ensures { result ≡ bus_place «module» 0 (map bus_value buses.now) }
{
    let mut place = 0;
    for bus in buses {
        if lists_module(bus, module) {
            return place;
        }
        place += 1;
    }
    place
}

/// Whether a wrapper is of a module in a mode.
fn wraps_mode(wrapper: &Wrapper, module: u64, scan: bool) -> bool
    ensures { result ≡ wraps «module» scan (wrapper_value wrapper.now) }
{
    wrapper.module == module && wrapper.scan == scan
}

/// The place of the first wrapper of a module in a mode. None comes exactly where there is none.
pub fn wrapper_of(wrappers: &[Wrapper], module: u64, scan: bool) -> Option<usize>
    ensures { result
        ≡ position (λ (w : Wrapper). wraps «module» scan (wrapper_value w)) wrappers.now }
{
    wrappers
        .iter()
        .position(|wrapper| wraps_mode(wrapper, module, scan))
}

/// The place of the profile of a test. None comes exactly where it has none.
pub fn profile_of(profiles: &[Profile], id: TestId) -> Option<usize>
    ensures { result ≡ position (λ (p : Profile). same_test p.test id) profiles.now }
{
    profiles.iter().position(|profile| profile.test == id)
}
