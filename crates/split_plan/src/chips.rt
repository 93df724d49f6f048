//! The chip of parts.
ghost use Rattle.std.specs.Prelude.{◌≡◌, ◌++◌, ◌∷◌, [], ◌^◌, ◌<◌, ◌≤◌, false, length, map, OnOk, IfOk};
ghost use Rattle.std.specs.List.{All};
ghost use Rattle.soc_model.specs.declared.Test.{Test};
ghost use Rattle.soc_model.specs.Chips.{soc_value, module_value};
ghost use Rattle.soc_model.specs.Lookups.{has_module_number};
ghost use Rattle.soc_model.specs.SoundChips.{IsSoundChip};
ghost use Rattle.live_tests.specs.Names.{AllDiffer};
ghost use Rattle.plan_model.specs.SoundLimits.{IsSoundLimits};
ghost use Rattle.plan_model.specs.Views.{limits_value, profile_value};
ghost use Rattle.split_plan.specs.Cuts.{all_cuts, cuts_in as cuts_of_module, part_test, pieces};
ghost use Rattle.split_plan.specs.Parts.{split_chip, split_module};
ghost use Rattle.split_plan.specs.Steps.{HasRoom, profiled as tests_of};

use crate::cuts::{Cut, cuts_in};
use crate::names::index_of;
use crate::parts::push_tests;
use indexmap::IndexSet;
use outside::{NoMemory, copied, extend, push};
use plan_model::{Limits, Profile};
use soc_model::{Module, PutFault, Soc, Test, TestId};
use std::alloc::Global;

/// A chip of parts as it is made, and the tests of the chip that is cut, with their parts.
#[derive(Drop)]
pub(crate) struct Made {
    pub(crate) soc: Soc,
    pub(crate) cuts: Vec<Cut>,
}

/// The tests of profiles.
fn profile_names(alloc: Global, profiles: &[Profile]) -> Result<Vec<TestId>, NoMemory>
    ensures { IfOk result (λ names. names.items ≡ tests_of (map profile_value profiles.now)) }
{
    let mut names = Vec::new(alloc);
    for profile in profiles {
        push(&mut names, profile.test)?;
    }
    Ok(names)
}

/// The parts of tests of a module, as tests.
fn part_tests(alloc: Global, cuts: &[Cut]) -> Result<Vec<Test>, NoMemory>
    requires { All HasRoom cuts.now }
    ensures { IfOk result (λ tests. tests.items ≡ map part_test (pieces cuts.now)) }
{
    let mut tests = Vec::new(alloc);
    for cut in cuts {
        push_tests(&mut tests, cut)?;
    }
    Ok(tests)
}

/// A module with other tests.
fn with_tests(alloc: Global, module: &Module, tests: Vec<Test>) -> Result<Module, NoMemory>
    ensures { IfOk result
        (λ made. module_value made ≡ record (module_value «module».now) { tests = tests.items }) }
{
    let name = copied(alloc, &module.name)?;
    let chains = copied(alloc, &module.chains)?;
    Ok(Module {
        number: module.number,
        name,
        level: module.level,
        inputs: module.inputs,
        outputs: module.outputs,
        bidirs: module.bidirs,
        setup: module.setup,
        chains,
        tests,
    })
}

/// Puts a module last, whose number the chip hasn't.
fn put_new(soc: &mut Soc, module: Module) -> Result<(), NoMemory>
    requires { has_module_number (soc_value soc.old) «module».number ≡ false }
    ensures { OnOk result (soc_value soc.new ≡ record (soc_value soc.old) {
      keys = (soc_value soc.old).keys ++ «module».number ∷ [];
      modules = (soc_value soc.old).modules ++ module_value «module» ∷ [];
    }) }
{
    match soc.put(module) {
        Ok(()) => Ok(()),
        Err(PutFault::Known { .. }) => unreachable!(),
        Err(PutFault::NoMemory { .. }) => Err(NoMemory),
    }
}

/// Puts a module last with the parts of these tests, whose number the chip hasn't.
fn put_parts(alloc: Global, soc: &mut Soc, module: &Module, cuts: &[Cut]) -> Result<(), NoMemory>
    requires new { has_module_number (soc_value soc.old) «module».now.number ≡ false }
    requires room { All HasRoom cuts.now }
    ensures { OnOk result (soc_value soc.new
        ≡ record (soc_value soc.old) {
          keys = (soc_value soc.old).keys ++ «module».now.number ∷ [];
          modules = (soc_value soc.old).modules ++ record (module_value «module».now)
              { tests = map part_test (pieces cuts.now) } ∷ [];
        }) }
{
    let tests = part_tests(alloc, cuts)?;
    let of_parts = with_tests(alloc, module, tests)?;
    put_new(soc, of_parts)
}

/// Adds a module with the parts of its tests, and these tests.
fn add_module(
    alloc: Global,
    made: &mut Made,
    limits: &Limits,
    profiled: &IndexSet<TestId>,
    most: u64,
    module: &Module,
) -> Result<(), NoMemory>
    requires new { has_module_number (soc_value made.old.soc) «module».now.number ≡ false }
    requires named { profiled.now.keys ≡ tests_of (limits_value limits.now).profiles }
    requires some { 1 ≤ most }
    requires small { All (λ (t : Test). t.patterns < 10 ^ 12) «module».now.tests.items }
    requires few { length «module».now.tests.items ≤ 4096 }
    requires room { All HasRoom made.old.cuts.items }
    ensures chip { OnOk result (soc_value made.new.soc
        ≡ record (soc_value made.old.soc) {
          keys = (soc_value made.old.soc).keys ++ «module».now.number ∷ [];
          modules = (soc_value made.old.soc).modules ++ split_module (limits_value limits.now)
              most (module_value «module».now) ∷ [];
        }) }
    ensures cuts { OnOk result (made.new.cuts.items ≡ made.old.cuts.items
        ++ cuts_of_module (limits_value limits.now) most (module_value «module».now)) }
    ensures room { OnOk result (All HasRoom made.new.cuts.items) }
{
    let own = cuts_in(alloc, limits, profiled, most, module)?;
    put_parts(alloc, &mut made.soc, module, &own)?;
    extend(&mut made.cuts, &own)
}

/// A chip with a name and flags and no module, and no tests.
fn nothing_made(alloc: Global, soc: &Soc) -> Result<Made, NoMemory>
    ensures chip { IfOk result
        (λ made. soc_value made.soc ≡ record (soc_value soc.now) { keys = []; modules = [] }) }
    ensures cuts { IfOk result (λ made. made.cuts.items ≡ []) }
{
    let name = copied(alloc, &soc.name)?;
    let mut made = Soc::new(alloc);
    made.name = name;
    made.power_flag = soc.power_flag;
    made.xy_flag = soc.xy_flag;
    Ok(Made {
        soc: made,
        cuts: Vec::new(alloc),
    })
}

/// An index of the tests of profiles.
fn index_of_profiles(alloc: Global, limits: &Limits) -> Result<IndexSet<TestId>, NoMemory>
    requires { AllDiffer (tests_of (limits_value limits.now).profiles) }
    ensures { IfOk result
        (λ profiled. profiled.keys ≡ tests_of (limits_value limits.now).profiles) }
{
    let names = profile_names(alloc, &limits.profiles)?;
    index_of(alloc, &names)
}

/// Adds all modules with the parts of their tests, and these tests.
fn add_modules(
    alloc: Global,
    made: &mut Made,
    soc: &Soc,
    limits: &Limits,
    profiled: &IndexSet<TestId>,
    most: u64,
) -> Result<(), NoMemory>
    requires no_module { soc_value made.old.soc
        ≡ record (soc_value soc.now) { keys = []; modules = [] } }
    requires no_cut { made.old.cuts.items ≡ [] }
    requires chip { IsSoundChip (soc_value soc.now) }
    requires named { profiled.now.keys ≡ tests_of (limits_value limits.now).profiles }
    requires some { 1 ≤ most }
    ensures chip { OnOk result
        (soc_value made.new.soc ≡ split_chip (limits_value limits.now) most (soc_value soc.now)) }
    ensures cuts { OnOk result
        (made.new.cuts.items ≡ all_cuts (limits_value limits.now) most (soc_value soc.now)) }
    ensures room { OnOk result (All HasRoom made.new.cuts.items) }
{
    for module in soc.modules.values() {
        add_module(alloc, made, limits, profiled, most, module)?;
    }
    Ok(())
}

/// The chip of parts, and the tests that are cut with their parts, by the tests of profiles.
fn made_of(
    alloc: Global,
    soc: &Soc,
    limits: &Limits,
    profiled: &IndexSet<TestId>,
    most: u64,
) -> Result<Made, NoMemory>
    requires chip { IsSoundChip (soc_value soc.now) }
    requires named { profiled.now.keys ≡ tests_of (limits_value limits.now).profiles }
    requires some { 1 ≤ most }
    ensures chip { IfOk result (λ made. soc_value made.soc
        ≡ split_chip (limits_value limits.now) most (soc_value soc.now)) }
    ensures cuts { IfOk result
        (λ made. made.cuts.items ≡ all_cuts (limits_value limits.now) most (soc_value soc.now)) }
    ensures room { IfOk result (λ made. All HasRoom made.cuts.items) }
{
    let mut made = nothing_made(alloc, soc)?;
    add_modules(alloc, &mut made, soc, limits, profiled, most)?;
    Ok(made)
}

/// The chip of parts, and the tests that are cut with their parts.
pub(crate) fn cut_chip(
    alloc: Global,
    soc: &Soc,
    limits: &Limits,
    most: u64,
) -> Result<Made, NoMemory>
    requires chip { IsSoundChip (soc_value soc.now) }
    requires limits { IsSoundLimits (soc_value soc.now) (limits_value limits.now) }
    requires some { 1 ≤ most }
    ensures chip { IfOk result (λ made. soc_value made.soc
        ≡ split_chip (limits_value limits.now) most (soc_value soc.now)) }
    ensures cuts { IfOk result
        (λ made. made.cuts.items ≡ all_cuts (limits_value limits.now) most (soc_value soc.now)) }
    ensures room { IfOk result (λ made. All HasRoom made.cuts.items) }
{
    let profiled = index_of_profiles(alloc, limits)?;
    made_of(alloc, soc, limits, &profiled, most)
}
