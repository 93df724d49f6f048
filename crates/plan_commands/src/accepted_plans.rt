//! What is answered of a plan that is accepted: its line, and its schedule.
ghost use Rattle.std.specs.Prelude.{◌≡◌, ◌≤◌, IfOk};
ghost use Rattle.plan_model.specs.Views.{plan_value};
ghost use Rattle.chart.specs.ChartText.{chart_text};
ghost use Rattle.commands.specs.Decides.{Follows};
ghost use Rattle.commands.specs.Loads.{LoadsGive};
ghost use Rattle.plan_commands.specs.Procedures.{check_procedure, chart_procedure};
ghost use Rattle.plan_commands.specs.Texts.{accepted_line as accepted_text};

use chart::print_placed;
use commands::{Accepted, Status, Verdict, answered_with, load_all, push_text, push_two};
use outside::{NoMemory, Shelf};
use plan_model::{Plan, good_without_limits};
use std::alloc::Global;

/// `accepted` with the plan's cycles and those of its lower bound.
fn accepted_line(alloc: Global, plan: &Plan) -> Result<Vec<u8>, NoMemory>
    ensures { IfOk result (λ text. text.items ≡ accepted_text (plan_value plan.now)) }
{
    let mut text = Vec::new(alloc);
    push_text(&mut text, b"accepted ")?;
    push_two(
        &mut text,
        u128::from(plan.cycles),
        u128::from(plan.bound.cycles),
    )?;
    push_text(&mut text, b"\n")?;
    Ok(text)
}

/// The line of a plan that is accepted.
fn accepted_line_of(alloc: Global, all: &Accepted) -> Result<Vec<u8>, NoMemory>
    ensures { IfOk result (λ text. text.items ≡ accepted_text all.now.plan) }
{
    accepted_line(alloc, &all.plan)
}

/// `check SOC LIMITS PLAN`: the cycles and the bound of a plan that is accepted.
pub fn decide_check<H: Shelf>(
    alloc: Global,
    soc: &str,
    limits: &str,
    plan: &str,
    shelf: &mut H,
) -> Verdict
    ensures held_stays { H.held shelf.new ≡ H.held shelf.old }
    ensures faults_never_fall { H.faults shelf.old ≤ H.faults shelf.new }
    ensures follows { Follows (check_procedure soc.now limits.now plan.now) (H.held shelf.old)
        (H.faults shelf.old) (H.faults shelf.new) result }
    ensures by_loads { LoadsGive H.is_load (check_procedure soc.now limits.now plan.now)
        shelf.old result shelf.new }
{
    match load_all(alloc, soc, limits, plan, shelf) {
        Ok(all) => {
            let line = accepted_line_of(alloc, &all);
            all.free();
            answered_with(Status::Done, line)
        }
        Err(verdict) => verdict,
    }
}

/// The chart of a plan that is accepted.
fn chart_of(alloc: Global, all: &Accepted) -> Result<Vec<u8>, NoMemory>
    ensures { IfOk result (λ text. text.items ≡ chart_text all.now.soc all.now.plan) }
{
    good_without_limits();
    print_placed(alloc, &all.placed_plan())
}

/// `chart SOC LIMITS PLAN`: the schedule of a plan that is accepted.
pub fn decide_chart<H: Shelf>(
    alloc: Global,
    soc: &str,
    limits: &str,
    plan: &str,
    shelf: &mut H,
) -> Verdict
    ensures held_stays { H.held shelf.new ≡ H.held shelf.old }
    ensures faults_never_fall { H.faults shelf.old ≤ H.faults shelf.new }
    ensures follows { Follows (chart_procedure soc.now limits.now plan.now) (H.held shelf.old)
        (H.faults shelf.old) (H.faults shelf.new) result }
    ensures by_loads { LoadsGive H.is_load (chart_procedure soc.now limits.now plan.now)
        shelf.old result shelf.new }
{
    match load_all(alloc, soc, limits, plan, shelf) {
        Ok(all) => {
            let text = chart_of(alloc, &all);
            all.free();
            answered_with(Status::Done, text)
        }
        Err(verdict) => verdict,
    }
}
