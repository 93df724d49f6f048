//! The tests over the wires of a chip as a plan places them.
ghost use Rattle.std.specs.Prelude.{◌≡◌, ℕ, ◌++◌, ◌∷◌, [], List, Some, slice_get, IfOk, OnOk, IsTrue};
ghost use Rattle.soc_model.specs.Chips.{is_live, module_value};
ghost use Rattle.plan_model.specs.Plans.{PlannedTest, planned, planned_test};
ghost use Rattle.live_tests.specs.Wrapped.{IsModeWrapper};
ghost use Rattle.fail_locate.specs.Wired.{IsWired, AreWired, placed_tests};

use live_tests::{ModeWrapper, PlacedPlan, PlacedTest};
use outside::{NoMemory, push};
use plan_model::Phases;
use soc_model::{Module, Test, TestId, module_at, over_wires};
use std::alloc::Global;

/// A test over the wires as a plan places it.
#[derive(Clone, Copy, Drop)]
pub struct WiredTest {
    /// The test.
    pub id: TestId,
    /// The place of its module in the chip.
    pub place: usize,
    /// The place of its bus in the plan.
    pub bus: usize,
    /// The place of its wrapper in the plan.
    pub wrapper: usize,
    /// The cycle at which it starts.
    pub start: u64,
    /// The first cycle after it.
    pub end: u64,
    /// Its phases.
    pub phases: Phases,
}

/// The bus of a test over the wires.
fn bus_of(test: &PlacedTest) -> usize
    requires { (bus : ℕ) × (test.now.bus ≡ Some bus) }
    ensures { Some result ≡ test.now.bus }
{
    match test.bus {
        Some(bus) => bus,
        None => unreachable!(),
    }
}

/// A test over the wires of the module at a place, in one of the module's wrappers.
fn wired_in(
    placed: &PlacedPlan<'_>,
    place: usize,
    module: &Module,
    test: &Test,
    wrapper: ModeWrapper,
) -> WiredTest
    requires module_there { slice_get placed.now.soc.modules place
        ≡ Some (module_value «module».now) }
    requires test_there { (k : ℕ) × (slice_get «module».now.tests.items k ≡ Some test.now) }
    requires live { IsTrue (is_live test.now) }
    requires tam { IsTrue test.now.tam }
    requires wrapper { IsModeWrapper placed.now.plan (module_value «module».now) test.now.scan
        wrapper }
    ensures { IsWired placed.now.soc placed.now.plan
        (planned_test placed.now.plan place (module_value «module».now) test.now) result }
{
    // a use of the plan tells that its chip is sound
    let _ = &placed.soc;
    let run = placed.test(place, module, test);
    let phases = Phases {
        setup: module.setup,
        si: wrapper.si,
        so: wrapper.so,
        patterns: test.patterns,
    };
    WiredTest {
        id: run.id,
        place,
        bus: bus_of(&run),
        wrapper: wrapper.place,
        start: run.start,
        end: run.end,
        phases,
    }
}

/// A test over the wires of the module at a place.
fn wired(placed: &PlacedPlan<'_>, place: usize, module: &Module, test: &Test) -> WiredTest
    requires module_there { slice_get placed.now.soc.modules place
        ≡ Some (module_value «module».now) }
    requires test_there { (k : ℕ) × (slice_get «module».now.tests.items k ≡ Some test.now) }
    requires live { IsTrue (is_live test.now) }
    requires tam { IsTrue test.now.tam }
    ensures { IsWired placed.now.soc placed.now.plan
        (planned_test placed.now.plan place (module_value «module».now) test.now) result }
{
    // a use of the plan tells that it is good
    let _ = &placed.plan;
    match placed.wrappers(place).in_mode(test.scan) {
        Some(wrapper) => wired_in(placed, place, module, test, wrapper),
        None => unreachable!(),
    }
}

/// Adds a test of the module at a place, where it is live and goes over the wires.
fn push_test(
    placed: &PlacedPlan<'_>,
    tests: &mut Vec<WiredTest>,
    place: usize,
    module: &Module,
    test: &Test,
) -> Result<(), NoMemory>
    requires module_there { slice_get placed.now.soc.modules place
        ≡ Some (module_value «module».now) }
    requires test_there { (k : ℕ) × (slice_get «module».now.tests.items k ≡ Some test.now) }
    ensures { (done : List PlannedTest) →
        AreWired placed.now.soc placed.now.plan done tests.old.items →
        OnOk result (AreWired placed.now.soc placed.now.plan
        (done ++ placed_tests placed.now.plan place (module_value «module».now) (test.now ∷ []))
        tests.new.items) }
{
    if !over_wires(test) {
        return Ok(());
    }
    push(tests, wired(placed, place, module, test))
}

/// Adds the tests over the wires of the module at a place.
fn push_module(
    placed: &PlacedPlan<'_>,
    tests: &mut Vec<WiredTest>,
    place: usize,
    module: &Module,
) -> Result<(), NoMemory>
    requires { slice_get placed.now.soc.modules place ≡ Some (module_value «module».now) }
    ensures { (done : List PlannedTest) →
        AreWired placed.now.soc placed.now.plan done tests.old.items →
        OnOk result (AreWired placed.now.soc placed.now.plan
        (done
        ++ placed_tests placed.now.plan place (module_value «module».now)
        «module».now.tests.items) tests.new.items) }
{
    for at in 0..module.tests.len() {
        push_test(placed, tests, place, module, &module.tests[at])?;
    }
    Ok(())
}

/// The tests over the wires, in the order of the chip.
pub fn wired_tests(alloc: Global, placed: &PlacedPlan<'_>) -> Result<Vec<WiredTest>, NoMemory>
    ensures { IfOk result (λ tests. AreWired placed.now.soc placed.now.plan
        (planned placed.now.soc placed.now.plan) tests.items) }
{
    let mut tests = Vec::new(alloc);
    for place in 0..placed.soc.modules.len() {
        push_module(placed, &mut tests, place, module_at(placed.soc, place))?;
    }
    Ok(tests)
}
