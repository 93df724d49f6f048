//! The laws of exclusions. Each is the contract of a function that does nothing: a caller learns it by the call.
ghost use Rattle.std.specs.Prelude.{◌≡◌, ◌↔◌, ℕ, ◌≤◌, IsTrue};
ghost use Rattle.soc_model.specs.Chips.{SocValue, LiveTest, id_of};
ghost use Rattle.plan_model.specs.Plans.{LimitsValue, PlanValue, PlannedTest, planned, power_of_id};
ghost use Rattle.plan_model.specs.Right.{IsAt, Meet};
ghost use Rattle.plan_model.specs.Rules.{IsGood};
ghost use Rattle.plan_model.specs.SoundLimits.{IsSoundLimits};
ghost use Rattle.proof_facts.specs.Exclusions.{Excludes, excludes, least_power};

/// Live tests that exclude each other are never active at one cycle of a good plan, where the limits are sound. Tests go
/// by their places among the live tests of the chip.
pub fn exclusions_hold()
    ensures { (soc : SocValue) (limits : LimitsValue) (plan : PlanValue) (i j c : ℕ)
        (t u : PlannedTest) → IsSoundLimits soc limits → IsGood soc limits plan →
        Excludes soc limits i j → IsAt (planned soc plan) i t → IsAt (planned soc plan) j u →
        Meet t u c → ⊥ }
{}

/// The test of exclusion finds exactly the tests that exclude each other, whichever of them is named first.
pub fn exclusions_are_decided()
    ensures decided { (soc : SocValue) (limits : LimitsValue) (i j : ℕ) →
        IsTrue (excludes soc limits i j) ↔ Excludes soc limits i j }
    ensures turned { (soc : SocValue) (limits : LimitsValue) (i j : ℕ) →
        excludes soc limits i j ≡ excludes soc limits j i }
{}

/// A test draws at least its least power at each cycle, where the limits are sound.
pub fn least_powers_are_drawn()
    ensures { (soc : SocValue) (limits : LimitsValue) (l : LiveTest) → IsSoundLimits soc limits →
        (r : ℕ) → least_power limits l ≤ power_of_id limits (id_of l) l.test.power r }
{}
