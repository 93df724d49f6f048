//! The live tests as a plan places them, in the order of the chip. A plan that is checked may lack tests or repeat them, and no
//! memory is taken, so what the rules before have noted of it in lent rooms stands in for an index of the plan.

ghost use Rattle.std.specs.Prelude.{◌≡◌, ℕ, ◌++◌, take, ◌+◌, ◌^◌, ◌<◌, ◌≤◌, length, Some, slice_get, slice_index};
ghost use Rattle.soc_model.specs.declared.TestId.{TestId};
ghost use Rattle.soc_model.specs.Chips.{module_value, same_test, soc_value};
ghost use Rattle.plan_model.specs.Views.{plan_value};
ghost use Rattle.plan_model.specs.Plans.{of_first, planned_test};
ghost use Rattle.plan_model.specs.Rules.{live_ids};
ghost use Rattle.live_tests.specs.declared.placed.PlacedTest.{PlacedTest};
ghost use Rattle.live_tests.specs.Placed.{AreWalked, placed_in, placed_of, placed_tests};
ghost use Rattle.live_tests.specs.Wrapped.{AreModeWrappers};
ghost use Rattle.plan_checker.specs.Placing.{IsPlacing};

use crate::lookups::module_count;
use indexmap::IndexSet;
use live_tests::{ModeWrappers, PlacedTest, placed_test};
use plan_model::Plan;
use soc_model::{Module, Soc, Test, TestId, module_at};

/// What stands in the room before the tests of a plan.
pub(crate) const NO_TEST: PlacedTest = PlacedTest {
    id: TestId { module: 0, test: 0 },
    place: 0,
    bus: None,
    start: 0,
    end: 0,
    power: 0,
};

/// What stands in the room before the wrappers of a plan are walked.
pub(crate) const NO_WRAPPERS: ModeWrappers = ModeWrappers {
    scan: None,
    terminals: None,
};

/// What the plan and the rooms that were filled from it say of a module.
#[derive(Clone, Copy, Drop)]
pub(crate) struct PlanLookups<'a> {
    pub(crate) soc: &'a Soc,
    pub(crate) plan: &'a Plan,
    pub(crate) starts: &'a [u64],
    pub(crate) wrappers: &'a IndexSet<(u64, bool)>,
    pub(crate) buses: &'a [usize],
}

/// The module's wrappers, each walked once.
fn mode_wrappers(from: &PlanLookups<'_>, place: usize, module: &Module) -> ModeWrappers
    requires placing { IsPlacing from.now }
    requires there { slice_get (soc_value from.now.soc.now).modules place
        ≡ Some (module_value «module».now) }
    ensures { AreModeWrappers (plan_value from.now.plan.now) (module_value «module».now) result }
{
    let scan = from.wrappers.get_index_of(&(module.number, true));
    let terminals = from.wrappers.get_index_of(&(module.number, false));
    ModeWrappers::found(
        from.soc,
        &from.plan.wrappers,
        place,
        module,
        scan,
        terminals,
    )
}

/// The bus of the module at a place.
pub(crate) fn bus_at(buses: &[usize], place: usize) -> usize
    requires { place < length buses.now }
    ensures { result ≡ slice_index buses.now place }
{
    buses[place]
}

/// Walks the wrappers of all modules.
pub(crate) fn fill_wrappers(from: &PlanLookups<'_>, walked: &mut [ModeWrappers])
    requires placing { IsPlacing from.now }
    requires room { length walked.old ≡ length (soc_value from.now.soc.now).modules }
    ensures { AreWalked (soc_value from.now.soc.now) (plan_value from.now.plan.now) walked.new }
{
    for place in 0..module_count(from.soc) {
        let wrappers = mode_wrappers(from, place, module_at(from.soc, place));
        walked[place] = wrappers;
    }
}

/// The wrappers of the module at a place.
fn wrappers_at(walked: &[ModeWrappers], place: usize) -> ModeWrappers
    requires { place < length walked.now }
    ensures { slice_get walked.now place ≡ Some result }
{
    walked[place]
}

/// The start of the live test at a place of the chip.
fn start_at(from: &PlanLookups<'_>, test: usize) -> u64
    requires placing { IsPlacing from.now }
    requires live { test < length (live_ids (soc_value from.now.soc.now)) }
    ensures start { (id : TestId) →
        slice_get (live_ids (soc_value from.now.soc.now)) test ≡ Some id →
        result
        ≡ of_first (λ (s : TestId × ℕ). same_test s.0 id) (λ s. s.1) 0
        from.now.plan.now.starts.items }
    ensures early { result ≤ 10 ^ 18 }
{
    from.starts[test]
}

/// The live test at a place of the chip, as the plan places it; its module has these wrappers.
fn placed_of(
    from: &PlanLookups<'_>,
    place: usize,
    module: &Module,
    wrappers: &ModeWrappers,
    test: &Test,
    at: usize,
) -> PlacedTest
    requires placing { IsPlacing from.now }
    requires there { slice_get (soc_value from.now.soc.now).modules place
        ≡ Some (module_value «module».now) }
    requires of_module { (i : ℕ) × (slice_get «module».now.tests.items i ≡ Some test.now) }
    requires live { 1 ≤ test.now.patterns }
    requires wrappers { AreModeWrappers (plan_value from.now.plan.now) (module_value «module».now)
        wrappers.now }
    requires called { slice_get
        (placed_tests (soc_value from.now.soc.now) (plan_value from.now.plan.now)) at
        ≡ Some (placed_of (planned_test (plan_value from.now.plan.now) place
        (module_value «module».now) test.now)) }
    ensures { result
        ≡ placed_of (planned_test (plan_value from.now.plan.now) place (module_value «module».now)
        test.now) }
{
    let id = TestId {
        module: module.number,
        test: test.number,
    };
    let bus = bus_at(from.buses, place);
    let start = start_at(from, at);
    let length = wrappers.cycles(module, test);
    placed_test(id, place, test, bus, start, length)
}

/// Writes the live tests of the module at a place, which has these wrappers, from `done` on, and answers the place behind them.
fn fill_module(
    from: &PlanLookups<'_>,
    place: usize,
    module: &Module,
    wrappers: &ModeWrappers,
    placed: &mut [PlacedTest],
    done: usize,
) -> usize
    requires placing { IsPlacing from.now }
    requires there { slice_get (soc_value from.now.soc.now).modules place
        ≡ Some (module_value «module».now) }
    requires wrappers { AreModeWrappers (plan_value from.now.plan.now) (module_value «module».now)
        wrappers.now }
    requires room { done
        + length (placed_in (plan_value from.now.plan.now) place (module_value «module».now)
        «module».now.tests.items) ≤ length placed.old }
    requires first { (k : ℕ) (t : PlacedTest) →
        slice_get
        (placed_in (plan_value from.now.plan.now) place (module_value «module».now)
        «module».now.tests.items) k ≡ Some t →
        slice_get (placed_tests (soc_value from.now.soc.now) (plan_value from.now.plan.now))
        (done + k) ≡ Some t }
    ensures filled { take result placed.new
        ≡ take done placed.old
        ++ placed_in (plan_value from.now.plan.now) place (module_value «module».now)
        «module».now.tests.items }
    ensures count { result ≡ done + length (placed_in (plan_value from.now.plan.now) place
        (module_value «module».now) «module».now.tests.items) }
{
    let mut next = done;
    for test in &module.tests {
        if test.patterns == 0 {
            continue;
        }
        placed[next] = placed_of(from, place, module, wrappers, test, next);
        next += 1;
    }
    next
}

/// Writes all live tests, where these are the wrappers of all modules. A test's start stands at the test's place, so none is looked for.
pub(crate) fn fill_tests(from: &PlanLookups<'_>, walked: &[ModeWrappers], placed: &mut [PlacedTest])
    requires placing { IsPlacing from.now }
    requires walked { AreWalked (soc_value from.now.soc.now) (plan_value from.now.plan.now)
        walked.now }
    requires room { length placed.old
        ≡ length (placed_tests (soc_value from.now.soc.now) (plan_value from.now.plan.now)) }
    ensures { placed.new
        ≡ placed_tests (soc_value from.now.soc.now) (plan_value from.now.plan.now) }
{
    let mut next = 0;
    for place in 0..module_count(from.soc) {
        let wrappers = wrappers_at(walked, place);
        next = fill_module(
            from,
            place,
            module_at(from.soc, place),
            &wrappers,
            placed,
            next,
        );
    }
}
