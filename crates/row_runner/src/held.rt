//! The chip, the limits and the plan that the files SOC, LIMITS and PLAN of the rig hold.
ghost use Rattle.std.specs.Prelude.{◌≡◌, true, IfOk, IfSome};
ghost use Rattle.soc_model.specs.Chips.{soc_value};
ghost use Rattle.soc_model.specs.SoundChips.{IsSoundChip};
ghost use Rattle.plan_model.specs.Faults.{IsFaultless};
ghost use Rattle.plan_model.specs.SoundLimits.{IsSoundLimits};
ghost use Rattle.plan_model.specs.Views.{limits_value, plan_value};
ghost use Rattle.plan_text.specs.Grammar.{AreSmallStarts};

use crate::rig::Rig;
use limits_text::read_limits;
use live_tests::{Problem, Resolved};
use outside::NoMemory;
use plan_checker::judge_plan;
use plan_model::{Limits, Plan};
use plan_text::read_plan;
use soc_model::Soc;
use soc_reader::read_soc;

/// The chip of SOC. None where it isn't read.
pub fn chip_of(rig: &Rig) -> Option<Soc>
    ensures { IfSome result (λ soc. IsSoundChip (soc_value soc)) }
{
    match read_soc(rig.alloc(), rig.bytes_of("SOC")) {
        Ok(soc) => Some(soc),
        Err(_) => None,
    }
}

/// The limits of LIMITS for a chip. None where they aren't read.
pub fn limits_of(rig: &Rig, soc: &Soc) -> Option<Limits>
    requires { IsSoundChip (soc_value soc.now) }
    ensures { IfSome result (λ limits. IsSoundLimits (soc_value soc.now) (limits_value limits)) }
{
    match read_limits(rig.alloc(), rig.bytes_of("LIMITS"), soc) {
        Ok(limits) => Some(limits),
        Err(_) => None,
    }
}

/// Whether a plan is accepted for a problem.
fn is_faultless(rig: &Rig, problem: &Problem<'_>, plan: &Plan) -> Result<bool, NoMemory>
    requires { AreSmallStarts (plan_value plan.now).starts }
    ensures { IfOk result
        (λ yes. yes ≡ true → IsFaultless problem.now.soc problem.now.limits (plan_value plan.now)) }
{
    Ok(judge_plan(rig.alloc(), problem, plan)?.is_ok())
}

/// Whether a plan is accepted for a chip under limits.
fn is_accepted(rig: &Rig, soc: &Soc, limits: &Limits, plan: &Plan) -> Result<bool, NoMemory>
    requires sound { IsSoundChip (soc_value soc.now) }
    requires limits { IsSoundLimits (soc_value soc.now) (limits_value limits.now) }
    requires starts { AreSmallStarts (plan_value plan.now).starts }
    ensures { IfOk result (λ yes. yes ≡ true →
        IsFaultless (soc_value soc.now) (limits_value limits.now) (plan_value plan.now)) }
{
    let resolved = Resolved::new(rig.alloc(), soc, limits)?;
    let problem = Problem::new(soc, limits, &resolved);
    let accepted = is_faultless(rig, &problem, plan)?;
    Ok(accepted)
}

/// The plan of PLAN for a chip under limits. None where it isn't read or isn't accepted.
pub fn accepted_plan(rig: &Rig, soc: &Soc, limits: &Limits) -> Option<Plan>
    requires sound { IsSoundChip (soc_value soc.now) }
    requires limits { IsSoundLimits (soc_value soc.now) (limits_value limits.now) }
    ensures { IfSome result
        (λ plan. IsFaultless (soc_value soc.now) (limits_value limits.now) (plan_value plan)) }
{
    let Ok(plan) = read_plan(rig.alloc(), rig.bytes_of("PLAN")) else {
        return None;
    };
    match is_accepted(rig, soc, limits, &plan) {
        Ok(true) => Some(plan),
        _ => None,
    }
}
