//! A good plan of a sound chip, placed: what charts, vectors and other uses of an accepted plan are made from.
ghost use Rattle.std.specs.Prelude.{◌≡◌, ℕ, ◌<◌, Some, find, length, map, slice_get, IsTrue};
ghost use Rattle.soc_model.specs.Chips.{ModuleValue, is_live, module_value, soc_value};
ghost use Rattle.soc_model.specs.SoundChips.{IsSoundChip};
ghost use Rattle.plan_model.specs.Plans.{planned_test};
ghost use Rattle.plan_model.specs.Rules.{IsGoodAlone, live_ids};
ghost use Rattle.plan_model.specs.Views.{plan_value};
ghost use Rattle.live_tests.specs.declared.placed.PlacedTest.{PlacedTest as the_placed};
ghost use Rattle.live_tests.specs.Placed.{IsPlaced, is_called, placed_of, placed_tests};
ghost use Rattle.live_tests.specs.Wrapped.{AreModeWrappers};

use crate::{LiveTests, ModeWrappers, Placed, PlacedTest};
use plan_model::Plan;
use soc_model::{Module, Soc, Test, TestId};
use std::marker::Model;

/// A good plan of a sound chip, placed, with the live tests of the chip by name. Clauses see what chip and plan say.
#[derive(Drop)]
pub struct PlacedPlan<'a> {
    pub soc: &'a Soc,
    pub plan: &'a Plan,
    pub names: &'a LiveTests,
    pub placed: &'a Placed,
}

impl<'a> Model for PlacedPlan<'a> {
    ghost use Rattle.soc_model.specs.Chips.{soc_value};
    ghost use Rattle.plan_model.specs.Views.{plan_value};
    ghost use Rattle.live_tests.specs.PlacedPlans.{IsPlacedPlan, PlacedPlanValue};

    ghost Value = { PlacedPlanValue };

    ghost view = { λ p. record { soc = soc_value p.soc.now; plan = plan_value p.plan.now } };

    ghost invariant = { λ p. IsPlacedPlan (soc_value p.soc.now) (plan_value p.plan.now) p.names.now
        p.placed.now };
}

/// The placed test of a name, where these are the names of all.
fn named(names: &LiveTests, placed: &Placed, id: TestId) -> Option<PlacedTest>
    requires { names.now ≡ map (λ (p : the_placed). p.id) placed.now.tests.items }
    ensures { result ≡ find (is_called id) placed.now.tests.items }
{
    let place = names.place(id)?;
    Some(placed.tests[place])
}

impl<'a> PlacedPlan<'a> {
    /// A good plan of a sound chip, where what it says by place is at hand.
    pub fn new(
        soc: &'a Soc,
        plan: &'a Plan,
        names: &'a LiveTests,
        placed: &'a Placed,
    ) -> PlacedPlan<'a>
        requires sound { IsSoundChip (soc_value soc.now) }
        requires good { IsGoodAlone (soc_value soc.now) (plan_value plan.now) }
        requires names { names.now ≡ live_ids (soc_value soc.now) }
        requires placed { IsPlaced (soc_value soc.now) (plan_value plan.now) placed.now }
        ensures chip { result.soc ≡ soc_value soc.now }
        ensures plan { result.plan ≡ plan_value plan.now }
    {
        PlacedPlan {
            soc,
            plan,
            names,
            placed,
        }
    }

    /// The live tests as the plan places them, in the order of the chip.
    pub fn tests(&self) -> &[PlacedTest]
        ensures { result.now ≡ placed_tests self.now.soc self.now.plan }
    {
        &self.placed.tests
    }

    /// The live test of that name. None comes exactly where the chip has none.
    pub fn find(&self, id: TestId) -> Option<PlacedTest>
        ensures { result ≡ find (is_called id) (placed_tests self.now.soc self.now.plan) }
    {
        named(self.names, self.placed, id)
    }

    /// A live test of the module at a place.
    pub fn test(&self, place: usize, module: &Module, test: &Test) -> PlacedTest
        requires module_there { slice_get self.now.soc.modules place
            ≡ Some (module_value «module».now) }
        requires test_there { (k : ℕ) × (slice_get «module».now.tests.items k ≡ Some test.now) }
        requires live { IsTrue (is_live test.now) }
        ensures { result
            ≡ placed_of (planned_test self.now.plan place (module_value «module».now) test.now) }
    {
        let id = TestId {
            module: module.number,
            test: test.number,
        };
        match named(self.names, self.placed, id) {
            Some(test) => test,
            None => unreachable!(),
        }
    }

    /// The wrappers of the module at a place.
    pub fn wrappers(&self, place: usize) -> ModeWrappers
        requires { place < length self.now.soc.modules }
        ensures { (m : ModuleValue) → slice_get self.now.soc.modules place ≡ Some m →
            AreModeWrappers self.now.plan m result }
    {
        self.placed.wrappers[place]
    }
}
