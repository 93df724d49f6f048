//! The live tests of a chip by the places of their modules, with what their uses of lists are reckoned from.
ghost use Rattle.std.specs.Prelude.{◌≡◌, ◌++◌, ◌<◌, Some, List, length, position, slice_get, IfOk, OnOk};
ghost use Rattle.soc_model.specs.Chips.{LiveTest, SocValue, live_of, module_value, same_test, soc_value};
ghost use Rattle.soc_model.specs.declared.Test.{Test};
ghost use Rattle.soc_model.specs.SoundChips.{IsSoundChip};
ghost use Rattle.plan_model.specs.declared.Profile.{Profile};
ghost use Rattle.live_tests.specs.Names.{name_in};
ghost use Rattle.live_tests.specs.Profiles.{AreProfilePlaces};
ghost use Rattle.live_tests.specs.Resolved.{IsResolved};
ghost use Rattle.leaf_bounds.specs.TestTables.{AreTestsAt, IsTestTable};

use live_tests::{Resolved, profile_place};
use outside::{NoMemory, push};
use plan_model::Limits;
use soc_model::{Module, Soc, TestId, live, module_at};
use std::alloc::Global;

/// A live test.
#[derive(Clone, Copy)]
pub struct TestPlace {
    /// The place of its module in the chip.
    pub module: usize,
    /// Its place among the tests of its module.
    pub test: usize,
    /// The place of its profile, where it has one.
    pub profile: Option<usize>,
}

/// The live tests of a chip, in its order.
#[derive(Drop)]
pub struct TestTable {
    /// All of them.
    pub tests: Vec<TestPlace>,
    /// For each module how many live tests stand before its own; behind them how many there are in all.
    pub starts: Vec<usize>,
}

/// The live test at a place among the tests of a module, whose place this is.
fn test_place(
    limits: &Limits,
    resolved: &Resolved,
    place: usize,
    module: &Module,
    test: usize,
) -> TestPlace
    requires profiles { AreProfilePlaces resolved.now.profiles limits.now.profiles.items }
    requires test { test < length «module».now.tests.items }
    ensures module { result.«module» ≡ place }
    ensures test { result.test ≡ test }
    ensures profile { (t : Test) → slice_get «module».now.tests.items test ≡ Some t →
        result.profile
        ≡ position (λ (p : Profile). same_test p.test (name_in (module_value «module».now) t))
        limits.now.profiles.items }
{
    let id = TestId {
        module: module.number,
        test: module.tests[test].number,
    };
    let profile = profile_place(&limits.profiles, &resolved.profiles, id);
    TestPlace {
        module: place,
        test,
        profile,
    }
}

/// Adds the live tests of a module, whose place this is.
fn push_tests(
    tests: &mut Vec<TestPlace>,
    limits: &Limits,
    resolved: &Resolved,
    place: usize,
    module: &Module,
) -> Result<(), NoMemory>
    requires profiles { AreProfilePlaces resolved.now.profiles limits.now.profiles.items }
    ensures { (soc : SocValue) (ls : List LiveTest) →
        slice_get soc.modules place ≡ Some (module_value «module».now) →
        AreTestsAt soc limits.now ls tests.old.items →
        OnOk result (AreTestsAt soc limits.now (ls ++ live_of place (module_value «module».now))
        tests.new.items) }
{
    for test in 0..module.tests.len() {
        if live(&module.tests[test]) {
            push(tests, test_place(limits, resolved, place, module, test))?;
        }
    }
    Ok(())
}

/// The live tests of a chip. `NoMemory` where memory runs out.
pub(crate) fn test_table(
    alloc: Global,
    soc: &Soc,
    limits: &Limits,
    resolved: &Resolved,
) -> Result<TestTable, NoMemory>
    requires sound { IsSoundChip (soc_value soc.now) }
    requires resolved { IsResolved (soc_value soc.now) limits.now resolved.now }
    ensures { IfOk result (IsTestTable (soc_value soc.now) limits.now) }
{
    let mut tests = Vec::new(alloc);
    let mut starts = Vec::new(alloc);
    for place in 0..soc.modules.len() {
        push(&mut starts, tests.len())?;
        push_tests(&mut tests, limits, resolved, place, module_at(soc, place))?;
    }
    push(&mut starts, tests.len())?;
    Ok(TestTable { tests, starts })
}
