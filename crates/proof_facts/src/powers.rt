//! The least that tests draw.
ghost use Rattle.std.specs.Prelude.{◌≡◌, map, position};
ghost use Rattle.soc_model.specs.declared.TestId.{TestId};
ghost use Rattle.soc_model.specs.Chips.{same_test};
ghost use Rattle.plan_model.specs.declared.Profile.{Profile};
ghost use Rattle.plan_model.specs.Plans.{smallest};
ghost use Rattle.plan_model.specs.Views.{limits_value};
ghost use Rattle.proof_facts.specs.Exclusions.{least_power_of};

use plan_model::{Limits, profile_of};
use soc_model::TestId;

/// The least power of some steps, 0 where there is none.
fn least_of(steps: &[(u64, u64)]) -> u64
    ensures { result ≡ smallest (map (λ s. s.1) steps.now) }
{
    let Some(first) = steps.first() else {
        return 0;
    };
    let mut least: u64 = first.1;
    for (_, power) in steps {
        least = least.min(*power);
    }
    least
}

/// The least that a test draws at a cycle, where the place of its profile is at hand.
pub(crate) fn least_at(limits: &Limits, found: Option<usize>, own: u64) -> u64
    requires { (id : TestId)
        × (found ≡ position (λ (p : Profile). same_test p.test id) limits.now.profiles.items) }
    ensures { (id : TestId) →
        found ≡ position (λ (p : Profile). same_test p.test id) limits.now.profiles.items →
        result ≡ least_power_of (limits_value limits.now) id own }
{
    match found {
        Some(place) => least_of(&limits.profiles[place].steps),
        None => own,
    }
}

/// The least that a test draws at a cycle, in the unit of the limits: the least power of its profile, or its own power where
/// it has none. It looks through the profiles.
pub fn least_power(limits: &Limits, id: TestId, own: u64) -> u64
    ensures { result ≡ least_power_of (limits_value limits.now) id own }
{
    least_at(limits, profile_of(&limits.profiles, id), own)
}
