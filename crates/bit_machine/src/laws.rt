//! The law over the definitions. It is the contract of a function that does nothing: a caller learns it by the call.
ghost use Rattle.std.specs.Prelude.{◌≡◌, ℕ, true, List, [], get_or};
ghost use Rattle.plan_model.specs.Plans.{PlannedTest};
ghost use Rattle.plan_model.specs.Right.{HoldsStimulus, IsAt};
ghost use Rattle.plan_model.specs.Runs.{Content, State};
ghost use Rattle.bit_machine.specs.Chips.{HasAllBits, holds};

/// The test whose stimulus is counted as held has each of its bits in its cell.
pub fn held_stimuli_stand()
    ensures stands { (content : Content) (tests : List PlannedTest) (state : State) (i : ℕ)
        (t : PlannedTest) (k : ℕ) → IsAt tests i t → HasAllBits tests state →
        holds (content.stimulus t.id k) t.chains (get_or state i []) ≡ true →
        HoldsStimulus content state i t k }
    ensures held { (content : Content) (tests : List PlannedTest) (state : State) (i : ℕ)
        (t : PlannedTest) (k : ℕ) → IsAt tests i t → HasAllBits tests state →
        HoldsStimulus content state i t k →
        holds (content.stimulus t.id k) t.chains (get_or state i []) ≡ true }
{}
