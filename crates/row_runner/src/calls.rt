//! Calls that no command over files in memory makes: limits and plans that are printed, vectors that are written, a search and
//! frames of placed tests, and a chip and one of its modules that are stepped by themselves.
ghost use Rattle.soc_model.specs.Chips.{soc_value};
ghost use Rattle.soc_model.specs.SoundChips.{IsSoundChip};
ghost use Rattle.plan_model.specs.Faults.{IsFaultless};
ghost use Rattle.plan_model.specs.SoundLimits.{IsSoundLimits};
ghost use Rattle.plan_model.specs.Views.{limits_value, plan_value};

use crate::chips::run_of_chip;
use crate::frames::answers_of_frames;
use crate::held::{accepted_plan, chip_of, limits_of};
use crate::lines::count_of;
use crate::plans::best_bound_of;
use crate::rig::Rig;
use crate::searches::{first_order_of, found_by};
use crate::sessions::steps_of_session;
use chart::print_chart;
use limits_text::print_limits;
use outside::{NoMemory, copied, extend};
use plan_model::{Limits, Plan, good_without_limits, is_proper};
use plan_text::{print_plan, read_plan};
use soc_model::{Soc, module_at, place_of};
use std::alloc::Global;
use tester_vectors::{Outcome, write_vectors};

/// `prints LIMITS` and `prints PLAN`: the limits of LIMITS for the chip of SOC, and the plan of PLAN, printed.
pub fn printed_again(rig: &Rig, words: &str) -> Result<Vec<u8>, NoMemory> {
    if words.trim() == "PLAN" {
        return match read_plan(rig.alloc(), rig.bytes_of("PLAN")) {
            Ok(plan) => print_plan(rig.alloc(), &plan),
            Err(_) => copied(rig.alloc(), b"no plan"),
        };
    }
    let Some(soc) = chip_of(rig) else {
        return copied(rig.alloc(), b"no chip");
    };
    match limits_of(rig, &soc) {
        Some(limits) => print_limits(rig.alloc(), &limits),
        None => copied(rig.alloc(), b"no limits"),
    }
}

/// How the vectors of an accepted plan are written, and what is written of them.
fn written_of(
    rig: &Rig,
    soc: &Soc,
    limits: &Limits,
    plan: &Plan,
    seed: u64,
) -> Result<Vec<u8>, NoMemory>
    requires sound { IsSoundChip (soc_value soc.now) }
    requires limits { IsSoundLimits (soc_value soc.now) (limits_value limits.now) }
    requires accepted { IsFaultless (soc_value soc.now) (limits_value limits.now)
        (plan_value plan.now) }
{
    good_without_limits();
    let mut out = rig.output()?;
    let answer: &[u8] = match write_vectors(rig.alloc(), soc, plan, seed, &mut out) {
        Outcome::Written => b"written ",
        Outcome::RunTooLong { .. } => b"too long ",
        Outcome::WriteFault => b"fault ",
        Outcome::NoMemory => b"no memory ",
    };
    let mut text = copied(rig.alloc(), answer)?;
    extend(&mut text, out.bytes())?;
    Ok(text)
}

/// The run of the chip under an accepted plan.
fn run_under(
    rig: &Rig,
    soc: &Soc,
    limits: &Limits,
    plan: &Plan,
    seed: u64,
) -> Result<Vec<u8>, NoMemory>
    requires sound { IsSoundChip (soc_value soc.now) }
    requires limits { IsSoundLimits (soc_value soc.now) (limits_value limits.now) }
    requires accepted { IsFaultless (soc_value soc.now) (limits_value limits.now)
        (plan_value plan.now) }
{
    good_without_limits();
    run_of_chip(rig.alloc(), soc, plan, seed)
}

/// The chart of an accepted plan.
fn chart_of(alloc: Global, soc: &Soc, limits: &Limits, plan: &Plan) -> Result<Vec<u8>, NoMemory>
    requires sound { IsSoundChip (soc_value soc.now) }
    requires limits { IsSoundLimits (soc_value soc.now) (limits_value limits.now) }
    requires accepted { IsFaultless (soc_value soc.now) (limits_value limits.now)
        (plan_value plan.now) }
{
    good_without_limits();
    print_chart(alloc, soc, plan)
}

/// `stream SEED`, `chip SEED`, `chart`, `best`, `order`, `search now`, `search ready` and `frames TEST ..`: how the vectors of the
/// plan of PLAN are written to an output of the rig, the run of the chip under that plan, its chart, the planner's bound at its
/// cycles, the first order of its tests, what a search for an order of them finds, and what a table answers of them in nested
/// frames.
pub fn under_the_plan(rig: &Rig, kind: &str, words: &str) -> Result<Vec<u8>, NoMemory> {
    let Some(soc) = chip_of(rig) else {
        return copied(rig.alloc(), b"no chip");
    };
    let Some(limits) = limits_of(rig, &soc) else {
        return copied(rig.alloc(), b"no limits");
    };
    let Some(plan) = accepted_plan(rig, &soc, &limits) else {
        return copied(rig.alloc(), b"no plan");
    };
    let word = words.trim();
    match kind {
        "frames" => answers_of_frames(rig.alloc(), &soc, &limits, &plan, word),
        "search" => found_by(rig.alloc(), &soc, &limits, &plan, word == "now"),
        "order" => first_order_of(rig.alloc(), &soc, &limits, &plan),
        "best" => best_bound_of(rig.alloc(), &soc, &limits, &plan),
        "chart" => chart_of(rig.alloc(), &soc, &limits, &plan),
        "chip" => run_under(rig, &soc, &limits, &plan, count_of(word)),
        _ => written_of(rig, &soc, &limits, &plan, count_of(word)),
    }
}

/// `session STEP ..`: what is read of a module in the first wrapper of PLAN.
pub fn session_of_plan(rig: &Rig, steps: &str) -> Result<Vec<u8>, NoMemory> {
    let Some(soc) = chip_of(rig) else {
        return copied(rig.alloc(), b"no chip");
    };
    let Ok(plan) = read_plan(rig.alloc(), rig.bytes_of("PLAN")) else {
        return copied(rig.alloc(), b"no plan");
    };
    let [wrapper, ..] = plan.wrappers.as_slice() else {
        return copied(rig.alloc(), b"no wrapper");
    };
    let Some(place) = place_of(&soc, wrapper.module) else {
        return copied(rig.alloc(), b"no module");
    };
    let module = module_at(&soc, place);
    if wrapper.scan && is_proper(module, wrapper) {
        steps_of_session(rig.alloc(), module, wrapper, steps)
    } else {
        copied(rig.alloc(), b"not proper")
    }
}
