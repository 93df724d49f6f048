//! The forced list that is tried where no other certificate reaches the cycles of a plan.
ghost use Rattle.std.specs.Prelude.{◌≡◌, ◌++◌, ◌<◌, IfOk, OnOk, length, map};
ghost use Rattle.soc_model.specs.Chips.{soc_value};
ghost use Rattle.soc_model.specs.SoundChips.{IsSoundChip};
ghost use Rattle.bound_certificate.specs.Best.{places, by_need, up_to, IsForcedPart};
ghost use Rattle.bound_certificate.specs.Needs.{need_or_zero, of_need};

use crate::forced_lists::forced_breach;
use bound_rules::need;
use live_tests::Problem;
use outside::{NoMemory, push};
use soc_model::{MODULES_MOST, Soc, has_tam_test, module_at};
use std::alloc::Global;

/// The need of the module at a place, or 0 where it has no test over the wires.
fn need_or_zero(problem: &Problem<'_>, claimed: u64, place: usize) -> u64
    requires place { place < length problem.now.soc.modules }
    ensures { result ≡ need_or_zero problem.now.soc problem.now.limits.wires claimed place }
{
    if has_tam_test(module_at(problem.soc, place)) {
        need(problem.soc, place, problem.limits.wires, claimed)
    } else {
        0
    }
}

/// The needs of all modules by their places.
fn needs_of(alloc: Global, problem: &Problem<'_>, claimed: u64) -> Result<Vec<u64>, NoMemory>
    ensures { IfOk result (λ v. v.items
        ≡ map (need_or_zero problem.now.soc problem.now.limits.wires claimed)
        (places problem.now.soc)) }
{
    let mut needs = Vec::new(alloc);
    for place in 0..problem.soc.modules.len() {
        push(&mut needs, need_or_zero(problem, claimed, place))?;
    }
    Ok(needs)
}

/// Adds the numbers of the modules of one need.
fn push_with_need(
    soc: &Soc,
    needs: &[u64],
    needed: u64,
    order: &mut Vec<u64>,
) -> Result<(), NoMemory>
    requires sound { IsSoundChip (soc_value soc.now) }
    requires long { length needs.now ≡ length (soc_value soc.now).modules }
    ensures { OnOk result
        (order.new.items ≡ order.old.items ++ of_need (soc_value soc.now) needs.now needed) }
{
    for place in 0..needs.len() {
        if needs[place] != needed {
            continue;
        }
        push(order, module_at(soc, place).number)?;
    }
    Ok(())
}

/// The numbers of the modules with a test over the wires, by need, greatest first, and then by place.
fn forced_order(alloc: Global, problem: &Problem<'_>, claimed: u64) -> Result<Vec<u64>, NoMemory>
    ensures { IfOk result
        (λ v. v.items ≡ by_need problem.now.soc problem.now.limits.wires claimed) }
{
    let needs = needs_of(alloc, problem, claimed)?;
    let mut order = Vec::new(alloc);
    for step in 0..problem.limits.wires + 1 {
        push_with_need(
            problem.soc,
            &needs,
            problem.limits.wires + 1 - step,
            &mut order,
        )?;
    }
    Ok(order)
}

/// The list up to a place, or all of it.
fn cut_order(mut order: Vec<u64>, place: Option<usize>) -> Vec<u64>
    ensures { result.items ≡ up_to place order.items }
{
    if let Some(end) = place {
        order.truncate(end);
    }
    order
}

/// The longest part of that order from its front on that keeps the rule of forced lists.
pub fn forced_part(alloc: Global, problem: &Problem<'_>, claimed: u64) -> Result<Vec<u64>, NoMemory>
    ensures { IfOk result (λ v. IsForcedPart problem.now.soc problem.now.limits claimed v.items) }
{
    let order = forced_order(alloc, problem, claimed)?;
    let mut marks = Vec::from_elem(alloc, false, MODULES_MOST as usize)?;
    let place = forced_breach(problem.soc, problem.limits, claimed, &order, &mut marks);
    Ok(cut_order(order, place))
}
