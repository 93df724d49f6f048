//! What a schedule goes by: which module each test is of, its cycles on each width, and what precedes it.
ghost use Rattle.std.specs.Prelude.{◌≡◌, ℕ, ◌+◌, ◌<◌, ◌≤◌, length, IfOk, OnOk, IfSome, if◌then◌else◌};
ghost use Rattle.std.specs.List.{All, filter};
ghost use Rattle.plan_model.specs.declared.TheConstants.{WIRES_MOST};
ghost use Rattle.soc_model.specs.Chips.{soc_value, is_live, live_tests};
ghost use Rattle.resource_table.specs.Jobs.{job_value, IsSoundJob};
ghost use Rattle.arch_schedule.specs.Problems.{IsTimed, IsProblem};

use crate::room::zeros;
use live_tests::Neighbours;
use outside::{NoMemory, push};
use packed_wrappers::PackedWrappers;
use resource_table::{Job, all_before};
use soc_model::{Module, Soc, Test, TestId, has_tam_test, live, module_at};
use std::alloc::Global;

/// A live test.
#[derive(Drop)]
pub struct TestTimes {
    /// The test, by the numbers of its module and of itself.
    pub id: TestId,
    /// The module that it is of, by its place among those with tests over the wires; None for a self test.
    pub module: Option<usize>,
    /// Its cycles for each number of wires of the bus, from none on. A test over the wires can't run on none, which stands as 0.
    pub cycles: Vec<u64>,
}

/// The tests of a chip, with their cycles on each width.
#[derive(Drop)]
pub struct TimedTests {
    /// The wires.
    pub wires: usize,
    /// The numbers of the modules with tests over the wires, in the order of the chip.
    pub modules: Vec<u64>,
    /// The live tests, in the order of the chip.
    pub tests: Vec<TestTimes>,
    /// For each test those that precede it.
    pub before: Vec<Neighbours>,
}

/// The cycles of a self test, which are the same on each width.
fn own_cycles(alloc: Global, test: &Test, wires: u64) -> Result<Vec<u64>, NoMemory>
    requires { wires ≤ 256 }
    ensures { IfOk result (λ row. length row.items ≡ wires + 1) }
{
    Ok(vec![in alloc; test.patterns; wires as usize + 1]?)
}

/// The cycles of a test of `patterns` patterns over the wires, where the longest paths of its wrapper have these lengths.
fn cycles_of(setup: u64, lengths: (u64, u64), patterns: u64) -> u64 {
    let longer = lengths.0.max(lengths.1);
    let shorter = lengths.0.min(lengths.1);
    let shifts = longer.saturating_add(1).saturating_mul(patterns);
    setup.saturating_add(shifts).saturating_add(shorter)
}

/// The cycles of a test over the wires on each width, in the wrapper that is taken there.
fn wire_cycles(
    alloc: Global,
    packed: &PackedWrappers,
    wires: u64,
    place: usize,
    module: &Module,
    test: &Test,
) -> Result<Vec<u64>, NoMemory>
    requires { wires ≤ 256 }
    ensures { IfOk result (λ row. length row.items ≡ wires + 1) }
{
    let mut row = zeros(alloc, wires as usize + 1)?;
    for width in 1..wires + 1 {
        let lengths = packed.lengths(place, test.scan, width);
        row[width as usize] = cycles_of(module.setup, lengths, test.patterns);
    }
    Ok(row)
}

/// The places of a module.
#[derive(Clone, Copy, Drop)]
struct Standing {
    /// Its place in the chip.
    place: usize,
    /// Its place among the modules with tests over the wires; None where it has none.
    number: Option<usize>,
}

/// A live test of a module.
fn times_of(
    alloc: Global,
    packed: &PackedWrappers,
    wires: u64,
    stands: Standing,
    module: &Module,
    test: &Test,
) -> Result<TestTimes, NoMemory>
    requires { wires ≤ 256 }
    ensures { (modules : ℕ) → IfSome stands.number (λ m. m < modules) →
        IfOk result (IsTimed wires modules) }
{
    let id = TestId {
        module: module.number,
        test: test.number,
    };
    if test.tam {
        let cycles = wire_cycles(alloc, packed, wires, stands.place, module, test)?;
        return Ok(TestTimes {
            id,
            module: stands.number,
            cycles,
        });
    }
    let cycles = own_cycles(alloc, test, wires)?;
    Ok(TestTimes {
        id,
        module: None,
        cycles,
    })
}

/// Adds a test of a module, where it is live.
fn push_test(
    alloc: Global,
    tests: &mut Vec<TestTimes>,
    packed: &PackedWrappers,
    wires: u64,
    stands: Standing,
    module: &Module,
    test: &Test,
) -> Result<(), NoMemory>
    requires { wires ≤ 256 }
    ensures timed { (modules : ℕ) → IfSome stands.number (λ m. m < modules) →
        All (IsTimed wires modules) tests.old.items →
        OnOk result (All (IsTimed wires modules) tests.new.items) }
    ensures count { OnOk result
        (length tests.new.items ≡ length tests.old.items + (if is_live test.now then 1 else 0)) }
{
    if !live(test) {
        return Ok(());
    }
    let times = times_of(alloc, packed, wires, stands, module, test)?;
    push(tests, times)
}

/// Adds the live tests of a module.
fn push_tests(
    alloc: Global,
    tests: &mut Vec<TestTimes>,
    packed: &PackedWrappers,
    wires: u64,
    stands: Standing,
    module: &Module,
) -> Result<(), NoMemory>
    requires { wires ≤ 256 }
    ensures timed { (modules : ℕ) → IfSome stands.number (λ m. m < modules) →
        All (IsTimed wires modules) tests.old.items →
        OnOk result (All (IsTimed wires modules) tests.new.items) }
    ensures count { OnOk result (length tests.new.items
        ≡ length tests.old.items + length (filter is_live «module».now.tests.items)) }
{
    for test in &module.tests {
        push_test(alloc, tests, packed, wires, stands, module, test)?;
    }
    Ok(())
}

/// Adds a module, where it has tests over the wires, and answers its place among those.
fn push_module(modules: &mut Vec<u64>, module: &Module) -> Result<Option<usize>, NoMemory>
    ensures number { IfOk result (λ number. IfSome number (λ m. m < length modules.new.items)) }
    ensures more { OnOk result (length modules.old.items ≤ length modules.new.items) }
{
    if !has_tam_test(module) {
        return Ok(None);
    }
    let number = modules.len();
    push(modules, module.number)?;
    Ok(Some(number))
}

impl TimedTests {
    /// The tests of a job, which are the live tests of a chip, with their cycles on up to `wires` wires in packed wrappers.
    /// `NoMemory` where memory runs out.
    pub fn new(
        alloc: Global,
        soc: &Soc,
        packed: &PackedWrappers,
        wires: u64,
        job: &Job,
    ) -> Result<TimedTests, NoMemory>
        requires some { 1 ≤ wires }
        requires few { wires ≤ WIRES_MOST }
        requires job { IsSoundJob (job_value job.now) }
        requires tests { length (job_value job.now).tests
            ≡ length (live_tests (soc_value soc.now)) }
        ensures { IfOk result (IsProblem (job_value job.now)) }
    {
        let mut modules = Vec::new(alloc);
        let mut tests = Vec::new(alloc);
        for place in 0..soc.modules.len() {
            let module = module_at(soc, place);
            let number = push_module(&mut modules, module)?;
            let stands = Standing { place, number };
            push_tests(alloc, &mut tests, packed, wires, stands, module)?;
        }
        let before = all_before(alloc, job.tests.len(), &job.before)?;
        Ok(TimedTests {
            wires: wires as usize,
            modules,
            tests,
            before,
        })
    }
}
