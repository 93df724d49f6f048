//! Why a plan is as long as it is, as text: what its bound leaves, how the wires and the power are used, each bus and each module, and
//! which tests held the last one back.
//!
//! The text is by its definition, over the tests of a good plan as `live_tests` places them, what they draw by `live_tests`, and the
//! times of modules by `width_table`. The only error is out of memory.
#![tactic(auto)]

ghost use Rattle.std.specs.Prelude.{◌≡◌, ◌++◌, ◌^◌, ◌<◌, sum, IfOk, OnOk};
ghost use Rattle.soc_model.specs.Chips.{soc_value};
ghost use Rattle.soc_model.specs.SoundChips.{IsSoundChip};
ghost use Rattle.plan_model.specs.Plans.{widths};
ghost use Rattle.plan_model.specs.Rules.{IsGood};
ghost use Rattle.plan_model.specs.SoundLimits.{IsSoundLimits};
ghost use Rattle.plan_model.specs.Views.{limits_value, plan_value};
ghost use Rattle.live_tests.specs.Placed.{placed_tests};
ghost use Rattle.report.specs.ModuleLines.{module_lines};
ghost use Rattle.report.specs.Peaks.{no_power, peak_after};
ghost use Rattle.report.specs.PlacedTests.{AreTests};
ghost use Rattle.report.specs.ReportText.{plan_lines, report_text};
ghost use Rattle.report.specs.Totals.{busy_area};

mod buses;
mod chain;
mod entries;
mod holders;
mod laws;
mod modules;
mod peak;
mod totals;

use buses::push_buses;
use chain::push_chain;
pub use laws::good_plans_report_right;
use live_tests::{PlacedPlan, PlacedTest, power_steps};
use modules::push_modules;
use outside::NoMemory;
use peak::push_power;
use plan_model::{Limits, Plan};
use soc_model::Soc;
use std::alloc::Global;
use totals::{push_cycles, push_wires, widths_of};
use width_table::WidthTable;

/// Appends the lines of the plan as a whole, and of its buses. The power of the tests has these steps.
#[tactic(auto, unfolding(crate::specs::ReportText::plan_lines))]
fn push_plan(
    text: &mut Vec<u8>,
    limits: &Limits,
    plan: &Plan,
    ws: &[u64],
    tests: &[PlacedTest],
    steps: &[(u64, u64)],
) -> Result<(), NoMemory>
    requires few { sum ws.now < 2 ^ 64 }
    requires fits { busy_area ws.now tests.now < 2 ^ 128 }
    requires tests { AreTests plan.now.cycles tests.now }
    ensures { OnOk result (text.new.items
        ≡ text.old.items
        ++ plan_lines (limits_value limits.now) (plan_value plan.now) ws.now tests.now
        (peak_after no_power steps.now)) }
{
    push_cycles(text, plan)?;
    push_wires(text, limits.wires, plan.cycles, ws, tests)?;
    push_power(text, steps, limits.power)?;
    push_buses(text, ws, plan.cycles, tests)
}

/// Appends the lines of modules. Their times are taken at all widths, and go when the lines are written.
fn push_timed(
    alloc: Global,
    text: &mut Vec<u8>,
    soc: &Soc,
    limits: &Limits,
    plan: &Plan,
    ws: &[u64],
    tests: &[PlacedTest],
) -> Result<(), NoMemory>
    requires sound { IsSoundChip (soc_value soc.now) }
    requires sound_limits { IsSoundLimits (soc_value soc.now) (limits_value limits.now) }
    requires good { IsGood (soc_value soc.now) (limits_value limits.now) (plan_value plan.now) }
    requires widths { ws.now ≡ widths (plan_value plan.now) }
    requires tests { tests.now ≡ placed_tests (soc_value soc.now) (plan_value plan.now) }
    ensures { OnOk result (text.new.items
        ≡ text.old.items
        ++ module_lines limits.now.wires (plan_value plan.now) tests.now 0
        (soc_value soc.now).modules) }
{
    let table = WidthTable::new(alloc, soc, limits.wires)?;
    let pushed = push_modules(text, soc, &table, plan, ws, tests);
    drop(table);
    pushed
}

/// The report of a good plan whose tests are placed.
fn print_placed(
    alloc: Global,
    soc: &Soc,
    limits: &Limits,
    plan: &Plan,
    tests: &[PlacedTest],
) -> Result<Vec<u8>, NoMemory>
    requires sound { IsSoundChip (soc_value soc.now) }
    requires sound_limits { IsSoundLimits (soc_value soc.now) (limits_value limits.now) }
    requires good { IsGood (soc_value soc.now) (limits_value limits.now) (plan_value plan.now) }
    requires tests { tests.now ≡ placed_tests (soc_value soc.now) (plan_value plan.now) }
    ensures { IfOk result (λ text. text.items
        ≡ report_text (soc_value soc.now) (limits_value limits.now) (plan_value plan.now)) }
{
    let ws = widths_of(alloc, plan)?;
    let steps = power_steps(alloc, limits, tests)?;
    let mut text = Vec::new(alloc);
    push_plan(&mut text, limits, plan, &ws, tests, &steps)?;
    push_timed(alloc, &mut text, soc, limits, plan, &ws, tests)?;
    push_chain(&mut text, soc, limits, tests, &steps, plan.cycles)?;
    Ok(text)
}

/// The report of a plan that is good under sound limits, line by line: the plan's cycles, its bound with the kind, and the
/// cycles between them; all wires, those of the buses, and in wires times cycles what the tests take of all that there is; the greatest
/// power with its first cycle, and the limit; for each bus its wires, tests, and busy and idle cycles; for each module with a test over
/// the wires its bus and its cycles, the least width of a bus on which it takes no more, and the least greater width on which it takes
/// fewer, with these. Then come the test that ends last, the test that ended as it started and kept it from starting before, with the
/// reason, and so on back to one that nothing held. `NoMemory` where memory runs out.
pub fn print_report(
    alloc: Global,
    limits: &Limits,
    placed: &PlacedPlan<'_>,
) -> Result<Vec<u8>, NoMemory>
    requires sound_limits { IsSoundLimits placed.now.soc (limits_value limits.now) }
    requires good { IsGood placed.now.soc (limits_value limits.now) placed.now.plan }
    ensures text { IfOk result (λ text. text.items
        ≡ report_text placed.now.soc (limits_value limits.now) placed.now.plan) }
{
    print_placed(alloc, placed.soc, limits, placed.plan, placed.tests())
}
