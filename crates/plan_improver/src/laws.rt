//! The law of a plan's numbers. It is the contract of a function that does nothing: a caller learns it by the call.
ghost use Rattle.soc_model.specs.Chips.{SocValue};
ghost use Rattle.soc_model.specs.SoundChips.{IsSoundChip};
ghost use Rattle.plan_model.specs.Plans.{LimitsValue, PlanValue};
ghost use Rattle.plan_model.specs.SoundLimits.{IsSoundLimits};
ghost use Rattle.plan_model.specs.Faults.{IsFaultless};
ghost use Rattle.plan_text.specs.Grammar.{AreSmallStarts, IsInRange};

use plan_model::{certificates_are_bounds, tests_are_short};

/// In a plan without a fault every number is in the range of a plan's text, where its starts are.
pub(crate) fn faultless_plans_are_in_range()
    ensures { (soc : SocValue) (limits : LimitsValue) → IsSoundChip soc → IsSoundLimits soc limits →
        (plan : PlanValue) → IsFaultless soc limits plan → AreSmallStarts plan.starts →
        IsInRange plan }
{
    certificates_are_bounds();
    tests_are_short();
}
