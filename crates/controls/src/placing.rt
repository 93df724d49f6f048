//! The live tests of a chip as a good plan places them, with what their controls are made from.
ghost use Rattle.std.specs.Prelude.{◌≡◌, ◌++◌, ℕ, Some, length, map, slice_get, IfOk, IsTrue, OnOk};
ghost use Rattle.soc_model.specs.Chips.{is_live, live_tests, module_value, soc_value};
ghost use Rattle.plan_model.specs.Plans.{PlanValue};
ghost use Rattle.live_tests.specs.Wrapped.{AreModeWrappers, IsWrappedTest};
ghost use Rattle.controls.specs.Tests.{controlled, controlled_in, controlled_live, phases_of as the_phases};

use live_tests::{ModeWrappers, PlacedPlan};
use outside::{NoMemory, push};
use plan_model::Phases;
use soc_model::{Module, Soc, Test, has_tam_test, live, module_at};
use std::alloc::Global;

/// A live test, with what its controls are made from.
#[derive(Clone, Copy, Drop)]
pub struct ControlledTest {
    /// Whether the test goes over the wires.
    pub tam: bool,
    /// The first cycle of the test.
    pub start: u64,
    /// The first cycle after it.
    pub end: u64,
    /// The phases of a test over the wires.
    pub phases: Phases,
    /// How many modules with a live test over the wires come before that of the test.
    pub before: usize,
}

/// The phases of a live test of the module that has these wrappers. A self test has none to speak of.
fn phases_of(module: &Module, wrappers: &ModeWrappers, test: &Test) -> Phases
    requires { (plan : PlanValue)
        × IsWrappedTest plan (module_value «module».now) test.now wrappers.now }
    ensures { (plan : PlanValue) → AreModeWrappers plan (module_value «module».now) wrappers.now →
        result ≡ the_phases plan (module_value «module».now) test.now }
{
    if !test.tam {
        return Phases {
            setup: 0,
            si: 0,
            so: 0,
            patterns: 1,
        };
    }
    match wrappers.in_mode(test.scan) {
        Some(long) => Phases {
            setup: module.setup,
            si: long.si,
            so: long.so,
            patterns: test.patterns,
        },
        None => unreachable!(),
    }
}

/// A live test of the module at a place.
fn controlled_test(
    placed: &PlacedPlan<'_>,
    place: usize,
    before: usize,
    module: &Module,
    test: &Test,
) -> ControlledTest
    requires module_there { slice_get placed.now.soc.modules place
        ≡ Some (module_value «module».now) }
    requires test_there { (k : ℕ) × (slice_get «module».now.tests.items k ≡ Some test.now) }
    requires live { IsTrue (is_live test.now) }
    ensures { result
        ≡ controlled placed.now.plan place before (module_value «module».now) test.now }
{
    // a use of the plan tells that it is good
    let _ = &placed.soc;
    let wrappers = placed.wrappers(place);
    let run = placed.test(place, module, test);
    ControlledTest {
        tam: test.tam,
        start: run.start,
        end: run.end,
        phases: phases_of(module, &wrappers, test),
        before,
    }
}

/// Adds the live tests of the module at a place.
fn push_module(
    placed: &PlacedPlan<'_>,
    tests: &mut Vec<ControlledTest>,
    place: usize,
    before: usize,
    module: &Module,
) -> Result<(), NoMemory>
    requires { slice_get placed.now.soc.modules place ≡ Some (module_value «module».now) }
    ensures { OnOk result (tests.new.items
        ≡ tests.old.items
        ++ controlled_in placed.now.plan place before (module_value «module».now)
        «module».now.tests.items) }
{
    for test in &module.tests {
        if live(test) {
            push(tests, controlled_test(placed, place, before, module, test))?;
        }
    }
    Ok(())
}

/// The live tests of a chip as a good plan places them, in the order of the chip.
pub fn controlled_tests(
    alloc: Global,
    placed: &PlacedPlan<'_>,
) -> Result<Vec<ControlledTest>, NoMemory>
    ensures { IfOk result (λ tests. tests.items
        ≡ map (controlled_live placed.now.soc placed.now.plan) (live_tests placed.now.soc)) }
{
    let mut tests = Vec::new(alloc);
    let mut before = 0;
    for place in 0..module_count(placed.soc) {
        let module = module_at(placed.soc, place);
        push_module(placed, &mut tests, place, before, module)?;
        if has_tam_test(module) {
            before += 1;
        }
    }
    Ok(tests)
}

/// How many modules a chip has.
fn module_count(soc: &Soc) -> usize
    ensures { result ≡ length (soc_value soc.now).modules }
{
    soc.modules.len()
}
