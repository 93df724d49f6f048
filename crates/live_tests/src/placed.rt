//! What a good plan says of the live tests and the modules of its chip, by place.
ghost use Rattle.std.specs.Prelude.{◌≡◌, ◌+◌, ◌++◌, ◌^◌, ◌<◌, ◌∷◌, [], ℕ, Some, length, map, slice_get, IfOk, OnOk, IsTrue};
ghost use Rattle.soc_model.specs.Chips.{is_live, module_value, soc_value};
ghost use Rattle.soc_model.specs.SoundChips.{IsSoundChip};
ghost use Rattle.plan_model.specs.Plans.{planned_test};
ghost use Rattle.plan_model.specs.Rules.{IsGoodAlone};
ghost use Rattle.plan_model.specs.Views.{plan_value};
ghost use Rattle.live_tests.specs.Wrapped.{AreModeWrappers};
ghost use Rattle.live_tests.specs.Placed.{AreWalked, IsPlaced, bus_over as the_bus_over, placed_at, placed_in, placed_of, placed_tests};

use crate::ModeWrappers;
use crate::index::PlanIndex;
use outside::{NoMemory, push};
use plan_model::Plan;
use soc_model::{Module, Soc, Test, TestId, live, module_at};
use std::alloc::Global;

/// A live test as a plan places it. A test over the wires uses all wires of its bus, as [`crate::first_wires`] has them.
#[derive(Clone, Copy, PartialEq, Eq, Debug)]
pub struct PlacedTest {
    /// The test.
    pub id: TestId,
    /// The place of its module in the chip, counted from 0.
    pub place: usize,
    /// The place of its bus in the plan, counted from 0. A self test has none.
    pub bus: Option<usize>,
    /// The cycle at which it starts.
    pub start: u64,
    /// The first cycle after it.
    pub end: u64,
    /// What it draws at every cycle, where it has no profile.
    pub power: u64,
}

/// What a plan says of a chip, by place. A check of the plan finds it out, and what an accepted plan is used for goes on from it.
#[derive(Drop)]
pub struct Placed {
    /// The live tests as the plan places them, in the order of the chip.
    pub tests: Vec<PlacedTest>,
    /// For each module its wrappers, each walked once.
    pub wrappers: Vec<ModeWrappers>,
}

impl Placed {
    /// What a good plan says of its chip. `NoMemory` where memory runs out.
    pub fn new(alloc: Global, soc: &Soc, plan: &Plan) -> Result<Placed, NoMemory>
        requires sound { IsSoundChip (soc_value soc.now) }
        requires good { IsGoodAlone (soc_value soc.now) (plan_value plan.now) }
        ensures { IfOk result
            (λ placed. IsPlaced (soc_value soc.now) (plan_value plan.now) placed) }
    {
        let index = PlanIndex::new(alloc, plan)?;
        let placed = placed_by(alloc, soc, &index);
        // dropped by a call: the end of the scope would drop each of its parts, and be proved for each
        drop(index);
        placed
    }
}

/// The bus of a test over the wires, given that of its module; a self test has none.
pub fn bus_over(tam: bool, bus: usize) -> Option<usize>
    ensures { result ≡ the_bus_over tam bus }
{
    if tam { Some(bus) } else { None }
}

/// A test of that name of the module at a place of the chip, from a start on for `cycles` cycles; the bus is that of its module.
pub fn placed_test(
    id: TestId,
    place: usize,
    test: &Test,
    bus: usize,
    start: u64,
    cycles: u64,
) -> PlacedTest
    requires { start + cycles < 2 ^ 64 }
    ensures { result ≡ placed_at id place test.now bus start cycles }
{
    PlacedTest {
        id,
        place,
        bus: bus_over(test.tam, bus),
        start,
        end: start + cycles,
        power: test.power,
    }
}

/// The cycles of a plan. The call tells that they are a machine's number.
fn plan_cycles(plan: &Plan) -> u64
    ensures { result ≡ (plan_value plan.now).cycles }
{
    plan.cycles
}

/// A chip and a good plan for it, whose tests are placed one by one.
#[derive(Clone, Copy, Drop)]
struct PlannedChip<'a> {
    soc: &'a Soc,
    index: &'a PlanIndex<'a>,
}

impl<'a> PlannedChip<'a> {
    /// A live test of the module at a place, which has these wrappers.
    fn test(
        &self,
        place: usize,
        module: &Module,
        wrappers: &ModeWrappers,
        test: &Test,
    ) -> PlacedTest
        requires sound { IsSoundChip (soc_value self.now.soc.now) }
        requires good { IsGoodAlone (soc_value self.now.soc.now) self.now.index.now }
        requires module_there { slice_get (soc_value self.now.soc.now).modules place
            ≡ Some (module_value «module».now) }
        requires test_there { (k : ℕ) × (slice_get «module».now.tests.items k ≡ Some test.now) }
        requires live { IsTrue (is_live test.now) }
        requires wrappers { AreModeWrappers self.now.index.now (module_value «module».now)
            wrappers.now }
        ensures { result
            ≡ placed_of
            (planned_test self.now.index.now place (module_value «module».now) test.now) }
    {
        let id = TestId {
            module: module.number,
            test: test.number,
        };
        let bus = self.index.bus(module.number);
        let start = self.index.start(id);
        let length = wrappers.cycles(module, test);
        // no test of a good plan ends later
        let _cycles = plan_cycles(self.index.plan());
        placed_test(id, place, test, bus, start, length)
    }

    /// Adds the live tests of the module at a place.
    fn push_module(
        &self,
        tests: &mut Vec<PlacedTest>,
        place: usize,
        module: &Module,
        wrappers: &ModeWrappers,
    ) -> Result<(), NoMemory>
        requires sound { IsSoundChip (soc_value self.now.soc.now) }
        requires good { IsGoodAlone (soc_value self.now.soc.now) self.now.index.now }
        requires module_there { slice_get (soc_value self.now.soc.now).modules place
            ≡ Some (module_value «module».now) }
        requires wrappers { AreModeWrappers self.now.index.now (module_value «module».now)
            wrappers.now }
        ensures { OnOk result (tests.new.items
            ≡ tests.old.items
            ++ placed_in self.now.index.now place (module_value «module».now)
            «module».now.tests.items) }
    {
        for test in &module.tests {
            if live(test) {
                push(tests, self.test(place, module, wrappers, test))?;
            }
        }
        Ok(())
    }

    /// The wrappers of all modules.
    fn wrappers(&self, alloc: Global) -> Result<Vec<ModeWrappers>, NoMemory>
        requires sound { IsSoundChip (soc_value self.now.soc.now) }
        requires good { IsGoodAlone (soc_value self.now.soc.now) self.now.index.now }
        ensures { IfOk result
            (λ wrappers. AreWalked (soc_value self.now.soc.now) self.now.index.now wrappers.items) }
    {
        let count = module_count(self.soc);
        let mut wrappers = Vec::with_capacity(alloc, count)?;
        for place in 0..count {
            let module = module_at(self.soc, place);
            push(
                &mut wrappers,
                ModeWrappers::new(self.soc, self.index, place, module),
            )?;
        }
        Ok(wrappers)
    }

    /// The live tests as the plan places them, in the order of the chip, where these are the wrappers of all modules.
    fn tests(&self, alloc: Global, wrappers: &[ModeWrappers]) -> Result<Vec<PlacedTest>, NoMemory>
        requires sound { IsSoundChip (soc_value self.now.soc.now) }
        requires good { IsGoodAlone (soc_value self.now.soc.now) self.now.index.now }
        requires walked { AreWalked (soc_value self.now.soc.now) self.now.index.now wrappers.now }
        ensures { IfOk result
            (λ tests. tests.items ≡ placed_tests (soc_value self.now.soc.now) self.now.index.now) }
    {
        let mut tests = Vec::new(alloc);
        for place in 0..module_count(self.soc) {
            let module = module_at(self.soc, place);
            self.push_module(&mut tests, place, module, &wrappers[place])?;
        }
        Ok(tests)
    }
}

/// What a good plan says of its chip, found by the plan's index.
fn placed_by(alloc: Global, soc: &Soc, index: &PlanIndex<'_>) -> Result<Placed, NoMemory>
    requires sound { IsSoundChip (soc_value soc.now) }
    requires good { IsGoodAlone (soc_value soc.now) index.now }
    ensures { IfOk result (λ placed. IsPlaced (soc_value soc.now) index.now placed) }
{
    let chip = PlannedChip { soc, index };
    let wrappers = chip.wrappers(alloc)?;
    let tests = chip.tests(alloc, &wrappers)?;
    Ok(Placed { tests, wrappers })
}

/// How many modules a chip has.
pub(crate) fn module_count(soc: &Soc) -> usize
    ensures { result ≡ length (soc_value soc.now).modules }
{
    soc.modules.len()
}
