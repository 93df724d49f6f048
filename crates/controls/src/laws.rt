//! The law over the controls of a chip's wrappers: they run the chip as its plan does.
//!
//! A plan says what each test does at each cycle. The wrappers see the controls alone, and from these the same follows.

ghost use Rattle.soc_model.specs.Chips.{SocValue};
ghost use Rattle.soc_model.specs.SoundChips.{IsSoundChip};
ghost use Rattle.plan_model.specs.Plans.{PlanValue, LimitsValue};
ghost use Rattle.plan_model.specs.Rules.{IsGood};
ghost use Rattle.controls.specs.Said.{RunThePlan};

/// In a good plan of a sound chip the controls say what each test does at each cycle, and a chip that goes by them has the bits of the
/// plan's run in all its chains.
pub fn controls_run_the_plan()
    ensures { (soc : SocValue) (limits : LimitsValue) (plan : PlanValue) → IsSoundChip soc →
        IsGood soc limits plan → RunThePlan soc plan }
{}
