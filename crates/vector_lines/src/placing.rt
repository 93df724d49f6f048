//! The live tests of a chip as a plan places them.
ghost use Rattle.std.specs.Prelude.{◌≡◌, ◌+◌, ◌^◌, ◌<◌, ◌≤◌, ◌++◌, ◌∷◌, [], List, Some, length, map, slice_get, slice_index, sum, take, IfOk, IsTrue, OnOk};
ghost use Rattle.soc_model.specs.Chips.{is_live, module_value, soc_value};
ghost use Rattle.soc_model.specs.Modes.{scan_lengths};
ghost use Rattle.soc_model.specs.SoundChips.{IsSoundChip};
ghost use Rattle.plan_model.specs.Cells.{IsProper, chain_cells};
ghost use Rattle.plan_model.specs.Listing.{module_size};
ghost use Rattle.plan_model.specs.Plans.{PlannedTest, planned, planned_test, widths};
ghost use Rattle.plan_model.specs.Rules.{IsGoodAlone};
ghost use Rattle.plan_model.specs.Views.{chain_value, plan_value};
ghost use Rattle.live_tests.specs.Placed.{placed_of};
ghost use Rattle.live_tests.specs.Wires.{AreFirstWires};
ghost use Rattle.live_tests.specs.Wrapped.{AreModeWrappers};
ghost use Rattle.vector_lines.specs.Building.{ArePaths};
ghost use Rattle.vector_lines.specs.Lanes.{AreLanes};
ghost use Rattle.vector_lines.specs.Placed.{planned_in, IsPlacedLane, IsSelfLane};

use crate::building::paths_of;
use crate::contents::Contents;
use crate::lane::Lane;
use crate::layout::Layout;
use crate::path::Path;
use live_tests::{ModeWrappers, PlacedPlan, PlacedTest};
use outside::{NoMemory, push};
use plan_model::{Phases, Wrapper};
use soc_model::{Module, Test, TestId, live, module_at};
use std::alloc::Global;

/// A self test, which has no chains.
fn self_test(alloc: Global, placed: &PlacedTest) -> Lane
    ensures { IsSelfLane placed.now result }
{
    let phases = Phases {
        setup: 0,
        si: 0,
        so: 0,
        patterns: 1,
    };
    Lane {
        tam: false,
        key: 0,
        start: placed.start,
        end: placed.end,
        phases,
        first_wire: 0,
        width: 0,
        paths: Vec::new(alloc),
    }
}

/// The chains of a module in a wrapper.
fn wrapped_paths(alloc: Global, module: &Module, wrapper: &Wrapper) -> Result<Vec<Path>, NoMemory>
    requires proper { IsProper (module_value «module».now) wrapper.now.scan
        (map chain_value wrapper.now.chains.items) }
    requires small { module_size (module_value «module».now) ≤ 10 ^ 18 }
    ensures { IfOk result (λ paths. ArePaths («module».now.inputs + «module».now.bidirs)
        (scan_lengths (module_value «module».now) wrapper.now.scan)
        (chain_cells (module_value «module».now) wrapper.now.scan
        (map chain_value wrapper.now.chains.items)) (length wrapper.now.chains.items)
        paths.items) }
{
    let layout = Layout::new(alloc, module, wrapper)?;
    paths_of(alloc, module.inputs + module.bidirs, &layout)
}

/// The module at a place of a chip, with its wrappers in a good plan.
#[derive(Clone, Copy, Drop)]
struct WrappedModule<'a> {
    place: usize,
    module: &'a Module,
    wrappers: &'a ModeWrappers,
}

/// The test at a place of such a module.
#[derive(Clone, Copy, Drop)]
struct WrappedTest<'a> {
    core: WrappedModule<'a>,
    at: usize,
    test: &'a Test,
}

/// A placed plan, and the first wires of its buses.
#[derive(Clone, Copy, Drop)]
struct Setting<'a> {
    placed: &'a PlacedPlan<'a>,
    firsts: &'a [u64],
}

impl<'a> Setting<'a> {
    /// The first wire of a bus, and how many it has.
    fn bus_wires(&self, bus: usize) -> (usize, usize)
        requires firsts { AreFirstWires (widths self.now.placed.now.plan) self.now.firsts.now }
        requires bus { bus < length self.now.placed.now.plan.buses }
        ensures first { result.0 ≡ sum (take bus (widths self.now.placed.now.plan)) }
        ensures width { result.1 ≡ slice_index (widths self.now.placed.now.plan) bus }
    {
        let placed = self.placed;
        let plan = placed.plan;
        (self.firsts[bus] as usize, plan.buses[bus].width as usize)
    }

    /// A live test over the wires of a bus.
    fn wired_test<C: Contents>(
        &self,
        alloc: Global,
        contents: &C,
        wrapped: &WrappedTest<'_>,
        placed: &PlacedTest,
        bus: usize,
    ) -> Result<Lane, NoMemory>
        requires firsts { AreFirstWires (widths self.now.placed.now.plan) self.now.firsts.now }
        requires module_there { slice_get self.now.placed.now.soc.modules wrapped.now.core.place
            ≡ Some (module_value wrapped.now.core.«module».now) }
        requires wrappers { AreModeWrappers self.now.placed.now.plan
            (module_value wrapped.now.core.«module».now) wrapped.now.core.wrappers.now }
        requires test_there { slice_get wrapped.now.core.«module».now.tests.items wrapped.now.at
            ≡ Some wrapped.now.test.now }
        requires live { IsTrue (is_live wrapped.now.test.now) }
        requires placed { placed.now
            ≡ placed_of (planned_test self.now.placed.now.plan wrapped.now.core.place
            (module_value wrapped.now.core.«module».now) wrapped.now.test.now) }
        requires over { placed.now.bus ≡ Some bus }
        ensures { IfOk result (IsPlacedLane (C.keys contents.now) self.now.placed.now.soc
            self.now.placed.now.plan (planned_test self.now.placed.now.plan wrapped.now.core.place
            (module_value wrapped.now.core.«module».now) wrapped.now.test.now)) }
    {
        let (core, test) = (wrapped.core, wrapped.test);
        let module = core.module;
        let whole = self.placed;
        let plan = whole.plan;
        let Some(long) = core.wrappers.in_mode(test.scan) else {
            unreachable!()
        };
        let wrapper = &plan.wrappers[long.place];
        let paths = wrapped_paths(alloc, module, wrapper)?;
        let phases = Phases {
            setup: module.setup,
            si: long.si,
            so: long.so,
            patterns: test.patterns,
        };
        let (first_wire, width) = self.bus_wires(bus);
        let id = TestId {
            module: module.number,
            test: test.number,
        };
        Ok(Lane {
            tam: true,
            key: contents.key(core.place, wrapped.at, id),
            start: placed.start,
            end: placed.end,
            phases,
            first_wire,
            width,
            paths,
        })
    }

    /// The live test at a place of a module.
    fn lane_of<C: Contents>(
        &self,
        alloc: Global,
        contents: &C,
        core: &WrappedModule<'_>,
        at: usize,
        test: &Test,
    ) -> Result<Lane, NoMemory>
        requires firsts { AreFirstWires (widths self.now.placed.now.plan) self.now.firsts.now }
        requires module_there { slice_get self.now.placed.now.soc.modules core.now.place
            ≡ Some (module_value core.now.«module».now) }
        requires wrappers { AreModeWrappers self.now.placed.now.plan
            (module_value core.now.«module».now) core.now.wrappers.now }
        requires test_there { slice_get core.now.«module».now.tests.items at ≡ Some test.now }
        requires live { IsTrue (is_live test.now) }
        ensures { IfOk result (IsPlacedLane (C.keys contents.now) self.now.placed.now.soc
            self.now.placed.now.plan (planned_test self.now.placed.now.plan core.now.place
            (module_value core.now.«module».now) test.now)) }
    {
        let placed = self.placed.test(core.place, core.module, test);
        match placed.bus {
            Some(bus) => {
                let wrapped = WrappedTest {
                    core: *core,
                    at,
                    test,
                };
                self.wired_test(alloc, contents, &wrapped, &placed, bus)
            }
            None => Ok(self_test(alloc, &placed)),
        }
    }

    /// Adds the test at a place of a module, where it is live.
    fn push_test<C: Contents>(
        &self,
        alloc: Global,
        contents: &C,
        lanes: &mut Vec<Lane>,
        core: &WrappedModule<'_>,
        at: usize,
        test: &Test,
    ) -> Result<(), NoMemory>
        requires firsts { AreFirstWires (widths self.now.placed.now.plan) self.now.firsts.now }
        requires module_there { slice_get self.now.placed.now.soc.modules core.now.place
            ≡ Some (module_value core.now.«module».now) }
        requires wrappers { AreModeWrappers self.now.placed.now.plan
            (module_value core.now.«module».now) core.now.wrappers.now }
        requires test_there { slice_get core.now.«module».now.tests.items at ≡ Some test.now }
        ensures { (done : List PlannedTest) →
            AreLanes
            (IsPlacedLane (C.keys contents.now) self.now.placed.now.soc
            self.now.placed.now.plan) done lanes.old.items →
            OnOk result (AreLanes
            (IsPlacedLane (C.keys contents.now) self.now.placed.now.soc
            self.now.placed.now.plan)
            (done
            ++ planned_in self.now.placed.now.plan core.now.place
            (module_value core.now.«module».now) (test.now ∷ [])) lanes.new.items) }
    {
        if !live(test) {
            return Ok(());
        }
        push(lanes, self.lane_of(alloc, contents, core, at, test)?)
    }

    /// Adds the live tests of the module at a place.
    fn push_module<C: Contents>(
        &self,
        alloc: Global,
        contents: &C,
        lanes: &mut Vec<Lane>,
        module: &Module,
        place: usize,
    ) -> Result<(), NoMemory>
        requires firsts { AreFirstWires (widths self.now.placed.now.plan) self.now.firsts.now }
        requires module_there { slice_get self.now.placed.now.soc.modules place
            ≡ Some (module_value «module».now) }
        ensures { (done : List PlannedTest) →
            AreLanes
            (IsPlacedLane (C.keys contents.now) self.now.placed.now.soc
            self.now.placed.now.plan) done lanes.old.items →
            OnOk result (AreLanes
            (IsPlacedLane (C.keys contents.now) self.now.placed.now.soc
            self.now.placed.now.plan)
            (done
            ++ planned_in self.now.placed.now.plan place (module_value «module».now)
            «module».now.tests.items) lanes.new.items) }
    {
        let wrappers = self.placed.wrappers(place);
        let core = WrappedModule {
            place,
            module,
            wrappers: &wrappers,
        };
        for at in 0..module.tests.len() {
            self.push_test(alloc, contents, lanes, &core, at, &module.tests[at])?;
        }
        Ok(())
    }

    /// The live tests of the chip, in its order.
    fn lanes<C: Contents>(&self, alloc: Global, contents: &C) -> Result<Vec<Lane>, NoMemory>
        requires firsts { AreFirstWires (widths self.now.placed.now.plan) self.now.firsts.now }
        ensures { IfOk result (λ lanes. AreLanes
            (IsPlacedLane (C.keys contents.now) self.now.placed.now.soc self.now.placed.now.plan)
            (planned self.now.placed.now.soc self.now.placed.now.plan) lanes.items) }
    {
        let placed = self.placed;
        let soc = placed.soc;
        let mut lanes = Vec::new(alloc);
        for place in 0..soc.modules.len() {
            self.push_module(alloc, contents, &mut lanes, module_at(soc, place), place)?;
        }
        Ok(lanes)
    }
}

/// The live tests of a chip in its order, as a good plan places them, by the keys that contents know them by. `firsts` has the first
/// wire of each bus, and behind them the number of all wires.
pub fn placed_lanes<C: Contents>(
    alloc: Global,
    placed: &PlacedPlan<'_>,
    contents: &C,
    firsts: &[u64],
) -> Result<Vec<Lane>, NoMemory>
    requires { AreFirstWires (widths placed.now.plan) firsts.now }
    ensures { IfOk result
        (λ lanes. AreLanes (IsPlacedLane (C.keys contents.now) placed.now.soc placed.now.plan)
        (planned placed.now.soc placed.now.plan) lanes.items) }
{
    let setting = Setting { placed, firsts };
    setting.lanes(alloc, contents)
}
