//! A plan from what a search found. It is checked before it is answered.
ghost use Rattle.std.specs.Prelude.{◌≡◌, ◌<◌, ◌≤◌, true, length, IfOk, IfSome};
ghost use Rattle.soc_model.specs.Chips.{soc_value};
ghost use Rattle.soc_model.specs.SoundChips.{IsSoundChip};
ghost use Rattle.plan_model.specs.Rules.{IsGood};
ghost use Rattle.plan_model.specs.SoundLimits.{IsSoundLimits};
ghost use Rattle.plan_model.specs.Views.{limits_value, plan_value};
ghost use Rattle.plan_text.specs.Grammar.{AreSmallStarts};
ghost use Rattle.arch_search.specs.Searches.{IsLent};

use arch_search::Found;
use live_tests::Problem;
use outside::{NoMemory, push};
use packed_wrappers::PackedWrappers;
use plan_checker::judge_plan;
use plan_model::{Bound, Bus, Limits, Plan, Why, Wrapper};
use planner::width_of;
use soc_model::{Module, Soc, TestId, has_tam_test, module_at, uses_mode};
use std::alloc::Global;

/// The numbers of the modules on the bus of a slot.
fn modules_on(alloc: Global, found: &Found<'_>, slot: usize) -> Result<Vec<u64>, NoMemory>
    requires { IsLent found.now }
{
    let mut modules = Vec::new(alloc);
    for module in 0..found.slots.len() {
        if found.slots[module] == slot {
            push(&mut modules, found.problem.modules[module])?;
        }
    }
    Ok(modules)
}

/// The buses, in the order of their slots.
fn buses_of(alloc: Global, found: &Found<'_>) -> Result<Vec<Bus>, NoMemory>
    requires { IsLent found.now }
{
    let mut buses = Vec::new(alloc);
    for slot in 0..found.widths.len() {
        let width = found.widths[slot];
        if width > 0 {
            let modules = modules_on(alloc, found, slot)?;
            push(&mut buses, Bus { width, modules })?;
        }
    }
    Ok(buses)
}

/// The starts of the tests, in the order of placing.
fn starts_of(alloc: Global, found: &Found<'_>) -> Result<Vec<(TestId, u64)>, NoMemory>
    requires { IsLent found.now }
    ensures { IfOk result (λ starts. AreSmallStarts starts.items) }
{
    let mut starts = Vec::new(alloc);
    for test in found.order {
        let id = found.problem.tests[*test].id;
        push(&mut starts, (id, found.starts[*test]))?;
    }
    Ok(starts)
}

/// Adds the wrapper for a mode of the module at a place, where it is used, on a bus of a width.
fn push_wrapper(
    alloc: Global,
    packed: &PackedWrappers,
    module: &Module,
    place: usize,
    scan: bool,
    width: u64,
    wrappers: &mut Vec<Wrapper>,
) -> Result<(), NoMemory>
    requires place { place < length packed.now.soc.modules }
    requires some { 1 ≤ width }
    requires within { width ≤ packed.now.wires }
{
    if !uses_mode(module, scan) {
        return Ok(());
    }
    let wrapper = packed.wrapper(alloc, place, scan, width)?;
    push(wrappers, wrapper)
}

/// The wrappers for the modes that are used, in the order of the chip and scan before terminals. None where a module with a test over the
/// wires is on no bus of up to `wires` wires.
fn wrappers_of(
    alloc: Global,
    soc: &Soc,
    packed: &PackedWrappers,
    wires: u64,
    buses: &[Bus],
) -> Result<Option<Vec<Wrapper>>, NoMemory>
    requires chip { packed.now.soc ≡ soc_value soc.now }
    requires wires { packed.now.wires ≡ wires }
{
    let mut wrappers = Vec::new(alloc);
    for place in 0..soc.modules.len() {
        let module = module_at(soc, place);
        if has_tam_test(module) {
            let width = width_of(buses, module.number);
            if width < 1 {
                return Ok(None);
            }
            if width > wires {
                return Ok(None);
            }
            push_wrapper(alloc, packed, module, place, true, width, &mut wrappers)?;
            push_wrapper(alloc, packed, module, place, false, width, &mut wrappers)?;
        }
    }
    Ok(Some(wrappers))
}

/// The bound that every plan keeps.
pub(crate) fn no_bound() -> Bound {
    Bound {
        cycles: 0,
        why: Why::Area,
    }
}

/// The plan of what was found: its buses, the packed wrappers at their widths, and the starts. None where a module has no bus.
fn plan_of(
    alloc: Global,
    soc: &Soc,
    packed: &PackedWrappers,
    wires: u64,
    found: &Found<'_>,
) -> Result<Option<Plan>, NoMemory>
    requires chip { packed.now.soc ≡ soc_value soc.now }
    requires wires { packed.now.wires ≡ wires }
    requires lent { IsLent found.now }
    ensures { IfOk result (λ plan. IfSome plan (λ p. AreSmallStarts (plan_value p).starts)) }
{
    let buses = buses_of(alloc, found)?;
    let Some(wrappers) = wrappers_of(alloc, soc, packed, wires, &buses)? else {
        return Ok(None);
    };
    let starts = starts_of(alloc, found)?;
    Ok(Some(Plan {
        buses,
        wrappers,
        starts,
        cycles: found.cycles,
        bound: no_bound(),
    }))
}

/// Whether a plan is accepted.
fn is_accepted(alloc: Global, problem: &Problem<'_>, plan: &Plan) -> Result<bool, NoMemory>
    requires { AreSmallStarts (plan_value plan.now).starts }
    ensures { IfOk result
        (λ good. good ≡ true → IsGood problem.now.soc problem.now.limits (plan_value plan.now)) }
{
    Ok(judge_plan(alloc, problem, plan)?.is_ok())
}

/// The plan of what was found, where it is good and takes fewer than `cycles` cycles. Its starts are small enough for a plan's text.
pub(crate) fn better_plan(
    alloc: Global,
    problem: &Problem<'_>,
    packed: &PackedWrappers,
    found: &Found<'_>,
    cycles: u64,
) -> Result<Option<Plan>, NoMemory>
    requires chip { packed.now.soc ≡ problem.now.soc }
    requires wires { packed.now.wires ≡ problem.now.limits.wires }
    requires lent { IsLent found.now }
    ensures good { IfOk result
        (λ plan. IfSome plan (λ p. IsGood problem.now.soc problem.now.limits (plan_value p))) }
    ensures small_starts { IfOk result
        (λ plan. IfSome plan (λ p. AreSmallStarts (plan_value p).starts)) }
    ensures fewer { IfOk result (λ plan. IfSome plan (λ p. p.cycles < cycles)) }
{
    let Some(plan) = plan_of(alloc, problem.soc, packed, problem.limits.wires, found)? else {
        return Ok(None);
    };
    if plan.cycles >= cycles {
        return Ok(None);
    }
    if !is_accepted(alloc, problem, &plan)? {
        return Ok(None);
    }
    Ok(Some(plan))
}
