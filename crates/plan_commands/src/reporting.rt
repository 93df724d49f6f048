//! The report of a plan that is accepted: why it is as long as it is.
ghost use Rattle.std.specs.Prelude.{◌≡◌, ◌≤◌, IfOk};
ghost use Rattle.report.specs.ReportText.{report_text};
ghost use Rattle.commands.specs.Decides.{Follows};
ghost use Rattle.commands.specs.Loads.{LoadsGive};
ghost use Rattle.plan_commands.specs.Procedures.{report_procedure};

use commands::{Accepted, Status, Verdict, answered_with, load_all};
use outside::{NoMemory, Shelf};
use report::print_report;
use std::alloc::Global;

/// The report of a plan that is accepted.
fn report_of(alloc: Global, all: &Accepted) -> Result<Vec<u8>, NoMemory>
    ensures { IfOk result
        (λ text. text.items ≡ report_text all.now.soc all.now.limits all.now.plan) }
{
    print_report(alloc, &all.limits, &all.placed_plan())
}

/// `report SOC LIMITS PLAN`: the cycles of a plan that is accepted beside their bound, the use of its wires, of its power, of each bus
/// and of each module, and the tests that held up the one that ends last.
pub fn decide_report<H: Shelf>(
    alloc: Global,
    soc: &str,
    limits: &str,
    plan: &str,
    shelf: &mut H,
) -> Verdict
    ensures held_stays { H.held shelf.new ≡ H.held shelf.old }
    ensures faults_never_fall { H.faults shelf.old ≤ H.faults shelf.new }
    ensures follows { Follows (report_procedure soc.now limits.now plan.now) (H.held shelf.old)
        (H.faults shelf.old) (H.faults shelf.new) result }
    ensures by_loads { LoadsGive H.is_load (report_procedure soc.now limits.now plan.now)
        shelf.old result shelf.new }
{
    match load_all(alloc, soc, limits, plan, shelf) {
        Ok(all) => {
            let text = report_of(alloc, &all);
            all.free();
            answered_with(Status::Done, text)
        }
        Err(verdict) => verdict,
    }
}
