//! Finds the response bit that is read at a cycle on a wire.
ghost use Rattle.std.specs.Prelude.{◌≡◌, ℕ, ◌+◌, ◌-◌, ◌<◌, ◌≤◌, true, false, length, nat_le, slice_get, slice_index, IfNone, IfOk, IfSome};
ghost use Rattle.std.specs.List.Sorted.{IsNonDecreasing, IsPartitionPoint, IsPermutation};
ghost use Rattle.soc_model.specs.Chips.{soc_value};
ghost use Rattle.soc_model.specs.SoundChips.{IsSoundChip};
ghost use Rattle.plan_model.specs.Moments.{ArePhases, phase_ops};
ghost use Rattle.plan_model.specs.Plans.{PlannedTest, planned};
ghost use Rattle.plan_model.specs.Rules.{IsGoodAlone};
ghost use Rattle.plan_model.specs.Views.{plan_value};
ghost use Rattle.fail_locate.specs.declared.wired.WiredTest.{WiredTest};
ghost use Rattle.fail_locate.specs.Chains.{IsFromEnd, cells_at};
ghost use Rattle.fail_locate.specs.Locating.{IsLast, IsOnWire, IsNearCapture, comes_by};
ghost use Rattle.fail_locate.specs.SpotAt.{spot_at};
ghost use Rattle.fail_locate.specs.Spots.{IsNoSpot, IsSpot};
ghost use Rattle.fail_locate.specs.Wired.{AreInOrder, AreWired, IsWired};

use crate::cells::cell_shown;
use crate::wired::{WiredTest, wired_tests};
use crate::{Cell, Spot};
use live_tests::{LiveTests, Placed, PlacedPlan, first_wires};
use outside::NoMemory;
use plan_model::{NearCapture, Plan};
use soc_model::{Soc, module_at};
use std::alloc::Global;
use std::marker::Model;

/// The tests in the order of their buses, and those of a bus in the order of their starts.
fn in_order(tests: Vec<WiredTest>) -> Vec<WiredTest>
    ensures permutation { IsPermutation tests.items result.items }
    ensures order { AreInOrder result.items }
{
    let mut sorted = tests;
    sorted.sort_unstable_by_key(|test| (test.bus, test.start));
    sorted
}

/// How many of these wires are a wire or come before it.
fn buses_to(firsts: &[u64], wire: u64) -> usize
    requires { IsNonDecreasing firsts.now }
    ensures bound { result ≤ length firsts.now }
    ensures parts { IsPartitionPoint (λ x. x ≤ wire) (λ x. wire < x) firsts.now result }
{
    firsts.partition_point(
        |first: &u64| -> bool
            ensures { result ≡ nat_le first.now wire }
        { *first <= wire },
    )
}

/// The last bus that begins at a wire or before it, and how many wires lie between. Behind the last bus one more begins
/// that has no tests.
fn on_bus(firsts: &[u64], wire: u64) -> Option<(usize, usize)>
    requires { IsNonDecreasing firsts.now }
    ensures some { IfSome result (λ found. IsOnWire firsts.now wire found.0 found.1) }
    ensures none { IfNone result
        ((b : ℕ) → b < length firsts.now → wire < slice_index firsts.now b) }
{
    let count = buses_to(firsts, wire);
    if count == 0 {
        return None;
    }
    let bus = count - 1;
    Some((bus, (wire - firsts[bus]) as usize))
}

/// Whether a test is on an earlier bus, or on this one and has begun by a cycle.
fn has_come(test: &WiredTest, bus: usize, cycle: u64) -> bool
    ensures { result ≡ comes_by bus cycle test.now }
{
    test.bus < bus || (test.bus == bus && test.start <= cycle)
}

/// How many tests are on earlier buses, or on this one and have begun by a cycle.
fn come_by(tests: &[WiredTest], bus: usize, cycle: u64) -> usize
    requires { AreInOrder tests.now }
    ensures bound { result ≤ length tests.now }
    ensures parts { IsPartitionPoint (λ (t : WiredTest). comes_by bus cycle t ≡ true)
        (λ (t : WiredTest). comes_by bus cycle t ≡ false) tests.now result }
{
    tests.partition_point(
        |test: &WiredTest| -> bool
            ensures { result ≡ comes_by bus cycle test.now }
        { has_come(test, bus, cycle) },
    )
}

/// The last test of a bus that has begun by a cycle.
fn last_begun(tests: &[WiredTest], bus: usize, cycle: u64) -> Option<WiredTest>
    requires { AreInOrder tests.now }
    ensures some { IfSome result (IsLast tests.now bus cycle) }
    ensures none { IfNone result ((n : ℕ) (t : WiredTest) → slice_get tests.now n ≡ Some t →
        t.bus ≡ bus → t.start ≤ cycle → ⊥) }
{
    let count = come_by(tests, bus, cycle);
    if count == 0 {
        return None;
    }
    let last = tests[count - 1];
    if last.bus != bus {
        return None;
    }
    Some(last)
}

/// The capture behind a cycle of a test that has begun, where Shifts alone lie after it.
fn capture_behind(test: &WiredTest, cycle: u64) -> Option<NearCapture>
    requires phases { ArePhases test.now.phases }
    requires begun { test.now.start ≤ cycle }
    requires ends { test.now.end ≡ test.now.start + length (phase_ops test.now.phases) }
    ensures { IsNearCapture test.now.phases (cycle - test.now.start) result }
{
    if cycle >= test.end {
        return None;
    }
    test.phases.at(cycle - test.start).behind()
}

/// The cell of a test that is read `shifts` Shifts after a capture on the chain of a wire of its bus.
fn cell_of(soc: &Soc, plan: &Plan, test: &WiredTest, chain: usize, shifts: u64) -> Option<Cell>
    requires sound { IsSoundChip (soc_value soc.now) }
    requires wired { (u : PlannedTest)
        × IsWired (soc_value soc.now) (plan_value plan.now) u test.now }
    ensures { (u : PlannedTest) → IsWired (soc_value soc.now) (plan_value plan.now) u test.now →
        IsFromEnd (cells_at u.chains chain) shifts result }
{
    let module = module_at(soc, test.place);
    let wrapper = &plan.wrappers[test.wrapper];
    cell_shown(module, wrapper, chain, shifts)
}

/// Finds which response bit of a plan a tester reads.
#[derive(Drop)]
pub struct Locator<'a> {
    soc: &'a Soc,
    plan: &'a Plan,
    /// The first wire of each bus, and behind them the number of all wires.
    firsts: Vec<u64>,
    /// The tests over the wires, by bus, and on a bus by start.
    tests: Vec<WiredTest>,
}

impl<'a> Model for Locator<'a> {
    ghost use Rattle.soc_model.specs.Chips.{soc_value};
    ghost use Rattle.plan_model.specs.Views.{plan_value};
    ghost use Rattle.fail_locate.specs.Spots.{LocatorValue};
    ghost use Rattle.fail_locate.specs.Locating.{IsLocator};

    ghost Value = { LocatorValue };

    ghost view = { λ l. record { soc = soc_value l.soc.now; plan = plan_value l.plan.now } };

    ghost invariant = { λ l. IsLocator (soc_value l.soc.now) (plan_value l.plan.now) l.firsts.items
        l.tests.items };
}

impl<'a> Locator<'a> {
    /// A locator for a good plan of a sound chip. `NoMemory` where memory runs out.
    pub fn new(alloc: Global, soc: &'a Soc, plan: &'a Plan) -> Result<Locator<'a>, NoMemory>
        requires sound { IsSoundChip (soc_value soc.now) }
        requires good { IsGoodAlone (soc_value soc.now) (plan_value plan.now) }
        ensures { IfOk result
            (λ locator. locator ≡ record { soc = soc_value soc.now; plan = plan_value plan.now }) }
    {
        let names = LiveTests::new(alloc, soc)?;
        let places = Placed::new(alloc, soc, plan)?;
        let placed = PlacedPlan::new(soc, plan, &names, &places);
        let tests = wired_tests(alloc, &placed)?;
        Locator::with_tests(alloc, soc, plan, tests)
    }

    /// A locator for a good plan of a sound chip, where the plan is placed already. `NoMemory` where memory runs out.
    pub fn of(alloc: Global, placed: &PlacedPlan<'a>) -> Result<Locator<'a>, NoMemory>
        ensures { IfOk result
            (λ locator. locator ≡ record { soc = placed.now.soc; plan = placed.now.plan }) }
    {
        let tests = wired_tests(alloc, placed)?;
        Locator::with_tests(alloc, placed.soc, placed.plan, tests)
    }

    /// A locator for a good plan of a sound chip, with the plan's tests over the wires. `NoMemory` where memory runs out.
    fn with_tests(
        alloc: Global,
        soc: &'a Soc,
        plan: &'a Plan,
        tests: Vec<WiredTest>,
    ) -> Result<Locator<'a>, NoMemory>
        requires sound { IsSoundChip (soc_value soc.now) }
        requires good { IsGoodAlone (soc_value soc.now) (plan_value plan.now) }
        requires wired { AreWired (soc_value soc.now) (plan_value plan.now)
            (planned (soc_value soc.now) (plan_value plan.now)) tests.items }
        ensures { IfOk result
            (λ locator. locator ≡ record { soc = soc_value soc.now; plan = plan_value plan.now }) }
    {
        let firsts = first_wires(alloc, plan)?;
        Ok(Locator {
            soc,
            plan,
            firsts,
            tests: in_order(tests),
        })
    }

    /// The response bit that the plan's run shows at a cycle on a wire, both counted from 0. None comes exactly where it
    /// shows none. It takes no memory and steps no cycle.
    pub fn spot(&self, cycle: u64, wire: u64) -> Option<Spot>
        ensures spot { IfSome result (IsSpot self.now.soc self.now.plan cycle wire) }
        ensures none { IfNone result (IsNoSpot self.now.soc self.now.plan cycle wire) }
        ensures value { result ≡ spot_at self.now.soc self.now.plan cycle wire }
    {
        let (bus, chain) = on_bus(&self.firsts, wire)?;
        let test = last_begun(&self.tests, bus, cycle)?;
        let near = capture_behind(&test, cycle)?;
        let cell = cell_of(self.soc, self.plan, &test, chain, near.shifts)?;
        Some(Spot {
            test: test.id,
            pattern: near.pattern,
            cell,
        })
    }
}
