//! The laws of packed times. Each is the contract of a function that does nothing: a caller learns it by the call.
ghost use Rattle.std.specs.Prelude.{◌≡◌, ℕ, ◌≤◌, Some, List, length, true, false, slice_get};
ghost use Rattle.soc_model.specs.declared.Test.{Test};
ghost use Rattle.soc_model.specs.Chips.{ModuleValue, SocValue, LiveTest, live_tests};
ghost use Rattle.soc_model.specs.Sizes.{test_work};
ghost use Rattle.plan_model.specs.Cells.{ChainValue, IsProper, chain_cells};
ghost use Rattle.plan_model.specs.Plans.{LimitsValue, PlanValue, PlannedTest, planned, operations_of};
ghost use Rattle.plan_model.specs.Right.{IsAt};
ghost use Rattle.plan_model.specs.Rules.{IsGood};
ghost use Rattle.plan_model.specs.Bounds.{lower_time};
ghost use Rattle.proof_facts.specs.Packed.{packed_time};

/// No proper wrapper of 1 to `w` chains makes a test shorter than its packed time on `w` wires: of `k * w + 1` scan chains
/// one of `w` wrapper chains has `k + 1`. A self test takes its patterns. Packed times never grow with the chains of a
/// wrapper, are at least the lower times, and within the test's part of the chip's work.
pub fn packed_times_are_least()
    ensures over_wires { (m : ModuleValue) (t : Test) (chains : List ChainValue) (w : ℕ) →
        t.tam ≡ true → 1 ≤ t.patterns → 1 ≤ length chains → length chains ≤ w →
        IsProper m t.scan chains →
        packed_time m t w ≤ length (operations_of m t (chain_cells m t.scan chains)) }
    ensures self_tests { (m : ModuleValue) (t : Test) (w : ℕ) → t.tam ≡ false →
        packed_time m t w ≡ t.patterns }
    ensures falls { (m : ModuleValue) (t : Test) (v w : ℕ) → 1 ≤ t.patterns → 1 ≤ v → v ≤ w →
        packed_time m t w ≤ packed_time m t v }
    ensures lower { (m : ModuleValue) (t : Test) (w : ℕ) → 1 ≤ t.patterns →
        lower_time m t w ≤ packed_time m t w }
    ensures work { (m : ModuleValue) (t : Test) (w : ℕ) → 1 ≤ t.patterns → 1 ≤ w →
        packed_time m t w ≤ test_work m t }
{}

/// In a good plan a live test over the wires takes at least its packed time on the wires of its bus, and a self test
/// exactly its patterns. Tests go by their places among the live tests of the chip.
pub fn planned_tests_are_packed()
    ensures over_wires { (soc : SocValue) (limits : LimitsValue) (plan : PlanValue) (i : ℕ)
        (l : LiveTest) (t : PlannedTest) → IsGood soc limits plan →
        slice_get (live_tests soc) i ≡ Some l → IsAt (planned soc plan) i t → l.test.tam ≡ true →
        packed_time l.core l.test t.width ≤ length t.operations }
    ensures self_tests { (soc : SocValue) (limits : LimitsValue) (plan : PlanValue) (i : ℕ)
        (l : LiveTest) (t : PlannedTest) → IsGood soc limits plan →
        slice_get (live_tests soc) i ≡ Some l → IsAt (planned soc plan) i t → l.test.tam ≡ false →
        length t.operations ≡ l.test.patterns }
{}
