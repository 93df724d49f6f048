//! The laws of pictures. They are the contract of a function that does nothing: a caller learns them by the call.
ghost use Rattle.std.specs.Prelude.{◌≡◌, ℕ, ◌≤◌, ◌<◌, ◌^◌, true, List, [], length};
ghost use Rattle.std.specs.List.{list_all};
ghost use Rattle.soc_model.specs.Chips.{SocValue};
ghost use Rattle.plan_model.specs.Plans.{LimitsValue, PlanValue, planned};
ghost use Rattle.plan_model.specs.Rules.{IsGood};
ghost use Rattle.live_tests.specs.Placed.{placed_tests};
ghost use Rattle.picture.specs.Laws.{AreApart, AreDrawn, AreLaned, AreToldApart, HasFewMarks, ShowsUse, StaysWithin, is_plain};
ghost use Rattle.picture.specs.Marks.{shown, spaced_name};
ghost use Rattle.picture.specs.PictureText.{plan_steps, self_tests};
ghost use Rattle.picture.specs.Rectangles.{bus_wires, laned, wired};

/// In the picture of a good plan each test over the wires has its rectangle, and so has each self test, in one lane. At each cycle
/// the rectangles that have a wire are those of the tests that use it in the run of the plan; so no two rectangles over the
/// wires have a cycle of a wire in common. No two self tests have a cycle of a lane in common, and no step of power is above
/// the limit. Tests next to each other in time on a bus, or in a lane, have different fills, and so have any two tests on buses or in
/// lanes beside each other. All is in cycles, wires, lanes and powers, before they are scaled to units. No module's name, as it is
/// written, begins or ends a tag, and it shows at most 64 characters. The scale of four cycles or more has five to ten marks.
pub fn good_plans_draw_right()
    ensures drawn { (soc : SocValue) (limits : LimitsValue) (plan : PlanValue) →
        IsGood soc limits plan →
        AreDrawn (wired (bus_wires plan) (placed_tests soc plan)) (placed_tests soc plan) }
    ensures apart { (soc : SocValue) (limits : LimitsValue) (plan : PlanValue) →
        IsGood soc limits plan → AreApart (wired (bus_wires plan) (placed_tests soc plan)) }
    ensures lanes { (soc : SocValue) (limits : LimitsValue) (plan : PlanValue) →
        IsGood soc limits plan → AreApart (laned [] (self_tests soc plan)) }
    ensures within { (soc : SocValue) (limits : LimitsValue) (plan : PlanValue) →
        IsGood soc limits plan → StaysWithin limits (plan_steps soc limits plan) }
    ensures used { (soc : SocValue) (limits : LimitsValue) (plan : PlanValue) →
        IsGood soc limits plan →
        ShowsUse (wired (bus_wires plan) (placed_tests soc plan)) (planned soc plan) }
    ensures self_drawn { (soc : SocValue) (limits : LimitsValue) (plan : PlanValue) →
        IsGood soc limits plan → AreLaned (laned [] (self_tests soc plan)) (placed_tests soc plan) }
    ensures told_apart { (soc : SocValue) (limits : LimitsValue) (plan : PlanValue) →
        IsGood soc limits plan → AreToldApart (wired (bus_wires plan) (placed_tests soc plan)) }
    ensures lanes_told_apart { (soc : SocValue) (limits : LimitsValue) (plan : PlanValue) →
        IsGood soc limits plan → AreToldApart (laned [] (self_tests soc plan)) }
    ensures names { (name : List ℕ) → list_all is_plain (spaced_name name) ≡ true }
    ensures short { (name : List ℕ) → length (shown name) ≤ 64 }
    ensures marks { (cycles : ℕ) → 4 ≤ cycles → cycles < 2 ^ 64 → HasFewMarks cycles }
{}
