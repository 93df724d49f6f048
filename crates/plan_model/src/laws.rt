//! The laws over the definitions. Each is the contract of a function that does nothing: a caller learns it by the call.
ghost use Rattle.std.specs.Prelude.{◌≡◌, ◌⊎◌, ℕ, ◌≤◌, Some, List, length, sum, true, false, slice_get};
ghost use Rattle.soc_model.specs.declared.Test.{Test};
ghost use Rattle.soc_model.specs.declared.TheConstants.{WORK_MOST};
ghost use Rattle.soc_model.specs.Chips.{ModuleValue, SocValue, LiveTest, live_tests};
ghost use Rattle.soc_model.specs.Sizes.{IsWithinSize, test_work};
ghost use Rattle.plan_model.specs.declared.TheConstants.{WIRES_MOST, START_MOST, PLAN_NUMBER_MOST};
ghost use Rattle.plan_model.specs.Cells.{ChainValue, IsProper, chain_cells};
ghost use Rattle.plan_model.specs.Plans.{LimitsValue, PlanValue, BoundValue, PlannedTest, planned, chains_of, operations_of, end_of, widths};
ghost use Rattle.plan_model.specs.Runs.{Content};
ghost use Rattle.plan_model.specs.OneTest.{LawOfOneTest};
ghost use Rattle.plan_model.specs.Right.{IsAt, IsRight};
ghost use Rattle.plan_model.specs.Rules.{Each, HasWrapper, HasProperCells, IsGood, IsGoodAlone, IsBound, used_pairs};
ghost use Rattle.plan_model.specs.SoundLimits.{IsSoundLimits};
ghost use Rattle.plan_model.specs.Bounds.{lower_time};
ghost use Rattle.plan_model.specs.Certificates.{CertificateFault, IsAccepted, IsElementary};
ghost use Rattle.plan_model.specs.Faults.{FaultValue, BoundFault, IsFault, IsFaultless};

/// A chain runs right through the operations of its test, for any contents and any bits at first.
pub fn law_of_one_test()
    ensures { LawOfOneTest }
{}

/// Every good plan runs right, bit by bit, for every content.
pub fn good_plans_run_right()
    ensures { (soc : SocValue) (limits : LimitsValue) (plan : PlanValue) (content : Content) →
        IsGood soc limits plan → IsRight soc limits plan content }
{}

/// A plan that is good under any limits is good where its own wires are the only limit. Where those limits are sound, it
/// has no more wires than limits may have.
pub fn good_without_limits()
    ensures alone { (soc : SocValue) (limits : LimitsValue) (plan : PlanValue) →
        IsGood soc limits plan → IsGoodAlone soc plan }
    ensures narrow { (soc : SocValue) (limits : LimitsValue) (plan : PlanValue) →
        IsSoundLimits soc limits → IsGood soc limits plan → sum (widths plan) ≤ WIRES_MOST }
{}

/// No test is longer than its part of the chip's work, wherever there are wrappers and each is proper. So in a good plan of
/// a chip whose size fits no test takes more cycles than the work of a chip may be. One that starts within the starts of
/// plans ends within the numbers of plans, whether or not the plan keeps the other rules.
pub fn tests_are_short()
    ensures work { (soc : SocValue) (plan : PlanValue) (i : ℕ) (l : LiveTest) →
        Each (HasWrapper plan) (used_pairs soc) → Each (HasProperCells soc) plan.wrappers →
        slice_get (live_tests soc) i ≡ Some l →
        length (operations_of l.core l.test (chains_of plan l.core l.test))
        ≤ test_work l.core l.test }
    ensures lengths { (soc : SocValue) (limits : LimitsValue) (plan : PlanValue) (i : ℕ)
        (t : PlannedTest) → IsWithinSize soc → IsGood soc limits plan →
        IsAt (planned soc plan) i t → length t.operations ≤ WORK_MOST }
    ensures ends { (soc : SocValue) (limits : LimitsValue) (plan : PlanValue) (i : ℕ)
        (t : PlannedTest) → IsWithinSize soc → IsGood soc limits plan →
        IsAt (planned soc plan) i t → t.start ≤ START_MOST → end_of t ≤ PLAN_NUMBER_MOST }
    ensures any_ends { (soc : SocValue) (plan : PlanValue) (i : ℕ) (t : PlannedTest) →
        IsWithinSize soc → Each (HasWrapper plan) (used_pairs soc) →
        Each (HasProperCells soc) plan.wrappers → IsAt (planned soc plan) i t →
        t.start ≤ START_MOST → end_of t ≤ PLAN_NUMBER_MOST }
{}

/// No proper wrapper of 1 to `w` chains makes a test shorter than its lower time on `w` wires; that of a self test is its cycles.
pub fn lower_times_are_least()
    ensures over_wires { (m : ModuleValue) (t : Test) (chains : List ChainValue) (w : ℕ) →
        t.tam ≡ true → 1 ≤ t.patterns → 1 ≤ length chains → length chains ≤ w →
        IsProper m t.scan chains →
        lower_time m t w ≤ length (operations_of m t (chain_cells m t.scan chains)) }
    ensures self_tests { (m : ModuleValue) (t : Test) (w : ℕ) → t.tam ≡ false →
        lower_time m t w ≡ t.patterns }
{}

/// An accepted certificate, of any of the six kinds, bounds every good plan on those wires; so does each elementary
/// value.
pub fn certificates_are_bounds()
    ensures accepted { (soc : SocValue) (limits : LimitsValue) (bound : BoundValue) →
        1 ≤ limits.wires → IsAccepted soc limits bound → IsBound soc limits bound.cycles }
    ensures elementary { (soc : SocValue) (limits : LimitsValue) (n : ℕ) → 1 ≤ limits.wires →
        IsElementary soc limits n → IsBound soc limits n }
{}

/// A plan has exactly one fault, or none where it is good and its certificate is accepted. A good plan has no fault but that
/// of its certificate.
pub fn faults_are_exact()
    ensures one { (soc : SocValue) (limits : LimitsValue) (plan : PlanValue) (f g : FaultValue) →
        IsFault soc limits plan f → IsFault soc limits plan g → f ≡ g }
    ensures none { (soc : SocValue) (limits : LimitsValue) (plan : PlanValue) (f : FaultValue) →
        IsFault soc limits plan f → IsFaultless soc limits plan → ⊥ }
    ensures some { (soc : SocValue) (limits : LimitsValue) (plan : PlanValue) →
        IsFaultless soc limits plan ⊎ ((f : FaultValue) × IsFault soc limits plan f) }
    ensures of_bound { (soc : SocValue) (limits : LimitsValue) (plan : PlanValue) (f : FaultValue) →
        IsGood soc limits plan → IsFault soc limits plan f →
        (fault : CertificateFault) × (f ≡ BoundFault fault) }
{}
