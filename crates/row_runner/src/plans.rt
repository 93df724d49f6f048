//! Plans, bounds and lower times by the calls that resolve chip and limits themselves: the commands resolve both once, and call
//! others.
ghost use Rattle.soc_model.specs.Chips.{soc_value};
ghost use Rattle.soc_model.specs.SoundChips.{IsSoundChip};
ghost use Rattle.plan_model.specs.Faults.{IsFaultless};
ghost use Rattle.plan_model.specs.SoundLimits.{IsSoundLimits};
ghost use Rattle.plan_model.specs.Views.{limits_value, plan_value};
ghost use Rattle.schedule_search.specs.Estimates.{CanAsk, IsAtLeastReady, IsAtMostNow};

use crate::held::{chip_of, limits_of};
use crate::lines::{count_of, part};
use crate::rig::Rig;
use bound_certificate::best_bound;
use bound_rules::lower_time;
use outside::{NoMemory, copied, extend, push_number};
use plan_model::{Limits, Plan};
use plan_text::print_plan;
use planner::plan;
use resource_table::Table;
use schedule_search::Ahead;
use soc_model::{Soc, live, module_at, place_of};
use std::alloc::Global;

/// The planner's plan, whose search estimates by where a test would end if it were placed now.
fn planned_by_ends_now(alloc: Global, soc: &Soc, limits: &Limits) -> Result<Plan, NoMemory>
    requires sound { IsSoundChip (soc_value soc.now) }
    requires limits { IsSoundLimits (soc_value soc.now) (limits_value limits.now) }
{
    let ahead = Ahead::new(
        |table: &Table<'_>, test: usize| -> u64
            requires { CanAsk table.now test }
            ensures least { IsAtLeastReady table.now test result }
            ensures most { IsAtMostNow table.now test result }
        { table.end_now(test) },
    );
    plan(alloc, soc, limits, ahead)
}

/// The planner's plan, whose search estimates by where a test would end if it began as soon as it is ready.
fn planned_by_ready_ends(alloc: Global, soc: &Soc, limits: &Limits) -> Result<Plan, NoMemory>
    requires sound { IsSoundChip (soc_value soc.now) }
    requires limits { IsSoundLimits (soc_value soc.now) (limits_value limits.now) }
{
    let ahead = Ahead::new(
        |table: &Table<'_>, test: usize| -> u64
            requires { CanAsk table.now test }
            ensures least { IsAtLeastReady table.now test result }
            ensures most { IsAtMostNow table.now test result }
        { table.ready_end(test) },
    );
    plan(alloc, soc, limits, ahead)
}

/// `plan now` and `plan ready`: the planner's plan for SOC and LIMITS, by either estimate.
pub fn text_of_planned(rig: &Rig, estimate: &str) -> Result<Vec<u8>, NoMemory> {
    let alloc = rig.alloc();
    let Some(soc) = chip_of(rig) else {
        return copied(alloc, b"no chip");
    };
    let Some(limits) = limits_of(rig, &soc) else {
        return copied(alloc, b"no limits");
    };
    let plan = if estimate.trim() == "now" {
        planned_by_ends_now(alloc, &soc, &limits)
    } else {
        planned_by_ready_ends(alloc, &soc, &limits)
    };
    print_plan(alloc, &plan?)
}

/// The planner's bound at the cycles of an accepted plan, printed as a plan that has no parts.
pub fn best_bound_of(
    alloc: Global,
    soc: &Soc,
    limits: &Limits,
    plan: &Plan,
) -> Result<Vec<u8>, NoMemory>
    requires sound { IsSoundChip (soc_value soc.now) }
    requires limits { IsSoundLimits (soc_value soc.now) (limits_value limits.now) }
    requires accepted { IsFaultless (soc_value soc.now) (limits_value limits.now)
        (plan_value plan.now) }
{
    let bound = best_bound(alloc, soc, limits, plan.cycles)?;
    let alone = Plan {
        buses: Vec::new(alloc),
        wrappers: Vec::new(alloc),
        starts: Vec::new(alloc),
        cycles: plan.cycles,
        bound,
    };
    print_plan(alloc, &alone)
}

/// The lower time of the test at a place of a module, on `width` wires. None where there is no such test, where it isn't live,
/// and where there is no wire.
fn lower_time_of(soc: &Soc, module: u64, at: usize, width: u64) -> Option<u64>
    requires { IsSoundChip (soc_value soc.now) }
{
    let place = place_of(soc, module)?;
    let module = module_at(soc, place);
    if at >= module.tests.len() {
        return None;
    }
    let test = &module.tests[at];
    if width == 0 {
        return None;
    }
    if !live(test) {
        return None;
    }
    Some(lower_time(module, test, width))
}

/// `lower MODULE PLACE WIDTH`: the cycles that a live test of the chip of SOC takes at least on so many wires.
pub fn text_of_lower_time(rig: &Rig, words: &str) -> Result<Vec<u8>, NoMemory> {
    let Some(soc) = chip_of(rig) else {
        return copied(rig.alloc(), b"no chip");
    };
    let (module, rest) = part(words.trim());
    let (at, width) = part(rest);
    let time = lower_time_of(
        &soc,
        count_of(module),
        count_of(at) as usize,
        count_of(width),
    );
    let mut text = Vec::new(rig.alloc());
    match time {
        Some(time) => push_number(&mut text, u128::from(time))?,
        None => extend(&mut text, b"no test")?,
    }
    Ok(text)
}
