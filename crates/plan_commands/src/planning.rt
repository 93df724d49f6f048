//! The planner's plan, and the command that prints it.
ghost use Rattle.std.specs.Prelude.{◌≡◌, ◌≤◌, IfOk};
ghost use Rattle.soc_model.specs.Chips.{soc_value};
ghost use Rattle.soc_model.specs.SoundChips.{IsSoundChip};
ghost use Rattle.plan_model.specs.Plans.{PlanValue};
ghost use Rattle.plan_model.specs.SoundLimits.{IsSoundLimits};
ghost use Rattle.plan_model.specs.Views.{limits_value, plan_value};
ghost use Rattle.plan_text.specs.PlanLines.{plan_text};
ghost use Rattle.schedule_search.specs.Estimates.{CanAsk, IsAtLeastReady, IsAtMostNow};
ghost use Rattle.planner.specs.Plans.{IsPlanned};
ghost use Rattle.commands.specs.Decides.{Follows};
ghost use Rattle.commands.specs.Loads.{LoadsGive};
ghost use Rattle.plan_commands.specs.Procedures.{plan_procedure};

use commands::{Both, Status, Verdict, answered_with, load_both};
use live_tests::{Problem, Resolved};
use outside::{NoMemory, Shelf};
use plan_checker::judge_plan;
use plan_model::{Limits, Plan};
use plan_text::print_plan;
use planner::plan_with;
use resource_table::Table;
use schedule_search::Ahead;
use soc_model::Soc;
use std::alloc::Global;

/// The planner's plan, whose search estimates where a test would end if it were placed now. `NoMemory` where memory runs out, and for
/// no other reason.
fn planned(alloc: Global, problem: &Problem<'_>) -> Result<Plan, NoMemory>
    ensures { IfOk result (λ plan. IsPlanned problem.now.soc problem.now.limits (plan_value plan)) }
{
    let ahead = Ahead::new(
        |table: &Table<'_>, test: usize| -> u64
            requires { CanAsk table.now test }
            ensures least { IsAtLeastReady table.now test result }
            ensures most { IsAtMostNow table.now test result }
        { table.end_now(test) },
    );
    plan_with(alloc, problem, ahead)
}

/// The planner's plan, checked once more: it is always accepted.
fn checked_plan(alloc: Global, problem: &Problem<'_>) -> Result<Plan, NoMemory>
    ensures { IfOk result (λ plan. IsPlanned problem.now.soc problem.now.limits (plan_value plan)) }
{
    let plan = planned(alloc, problem)?;
    match judge_plan(alloc, problem, &plan)? {
        Ok(_) => Ok(plan),
        Err(_) => unreachable!(),
    }
}

/// The planner's plan, checked once more, for a chip and limits that the program makes itself.
pub(crate) fn checked_for(alloc: Global, soc: &Soc, limits: &Limits) -> Result<Plan, NoMemory>
    requires chip { IsSoundChip (soc_value soc.now) }
    requires limits { IsSoundLimits (soc_value soc.now) (limits_value limits.now) }
    ensures { IfOk result
        (λ plan. IsPlanned (soc_value soc.now) (limits_value limits.now) (plan_value plan)) }
{
    let resolved = Resolved::new(alloc, soc, limits)?;
    let problem = Problem::new(soc, limits, &resolved);
    let plan = checked_plan(alloc, &problem)?;
    Ok(plan)
}

/// The text of the planner's plan.
fn text_of_plan(alloc: Global, both: &Both) -> Result<Vec<u8>, NoMemory>
    ensures { IfOk result (λ text. (value : PlanValue)
        × IsPlanned both.now.soc both.now.limits value × (text.items ≡ plan_text value)) }
{
    let plan = planned(alloc, &both.problem())?;
    print_plan(alloc, &plan)
}

/// `plan SOC LIMITS`: the planner's plan.
pub fn decide_plan<H: Shelf>(alloc: Global, soc: &str, limits: &str, shelf: &mut H) -> Verdict
    ensures held_stays { H.held shelf.new ≡ H.held shelf.old }
    ensures faults_never_fall { H.faults shelf.old ≤ H.faults shelf.new }
    ensures follows { Follows (plan_procedure soc.now limits.now) (H.held shelf.old)
        (H.faults shelf.old) (H.faults shelf.new) result }
    ensures by_loads { LoadsGive H.is_load (plan_procedure soc.now limits.now) shelf.old result
        shelf.new }
{
    match load_both(alloc, soc, limits, shelf) {
        Ok(both) => {
            let text = text_of_plan(alloc, &both);
            both.free();
            answered_with(Status::Done, text)
        }
        Err(verdict) => verdict,
    }
}
