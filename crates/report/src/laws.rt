//! The laws of reports. They are the contract of a function that does nothing: a caller learns them by the call.
ghost use Rattle.std.specs.Prelude.{◌≡◌, ℕ, Some};
ghost use Rattle.soc_model.specs.Chips.{SocValue};
ghost use Rattle.plan_model.specs.Plans.{LimitsValue, PlanValue};
ghost use Rattle.plan_model.specs.Rules.{IsGood};
ghost use Rattle.soc_model.specs.SoundChips.{IsSoundChip};
ghost use Rattle.live_tests.specs.declared.placed.PlacedTest.{PlacedTest};
ghost use Rattle.live_tests.specs.Placed.{placed_tests};
ghost use Rattle.report.specs.declared.holders.Hold.{Hold};
ghost use Rattle.report.specs.Holders.{held};
ghost use Rattle.report.specs.Laws.{IsHeldBy, IsPeak, IsShared, IsWhole};
ghost use Rattle.report.specs.Peaks.{peak};

/// In the report of a good plan the power is the greatest of all cycles, with the first cycle that has it. On each bus every cycle is
/// busy or idle, and it is busy as long as its tests take together. The test that held another one ended as that started, and started
/// earlier. So the lines of the tests that end last go back to one that nothing held.
pub fn good_plans_report_right()
    ensures peak { (load : ℕ → ℕ) (cycles : ℕ) → IsPeak load cycles (peak load cycles) }
    ensures shared { (soc : SocValue) (limits : LimitsValue) (plan : PlanValue) (bus : ℕ) →
        IsSoundChip soc → IsGood soc limits plan →
        IsShared (placed_tests soc plan) bus plan.cycles }
    ensures held { (soc : SocValue) (limits : LimitsValue) (plan : PlanValue) (load : ℕ → ℕ)
        (t u : PlacedTest) (kind : Hold) →
        held soc limits load (placed_tests soc plan) t ≡ Some (u, kind) →
        IsHeldBy soc limits load (placed_tests soc plan) t u kind }
    ensures whole { (soc : SocValue) (limits : LimitsValue) (plan : PlanValue) (load : ℕ → ℕ) →
        IsWhole soc limits load (placed_tests soc plan) plan.cycles }
{}
