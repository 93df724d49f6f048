//! `retarget`, `stil`, `vcd` and `verilog`: a plan that is accepted, with test data of the user's own, in a form for testers.
ghost use Rattle.std.specs.Prelude.{◌≡◌, ◌≤◌, ℕ, Option, None};
ghost use Rattle.outside.specs.Held.{Files};
ghost use Rattle.tester_vectors.specs.VectorText.{more_than};
ghost use Rattle.commands.specs.Endings.{Closes, Continues, LoadsEnding};
ghost use Rattle.tester_commands.specs.declared.TheConstants.{LONG_RUN_MOST};
ghost use Rattle.tester_commands.specs.Endings.{ending_value};
ghost use Rattle.tester_commands.specs.Procedures.{run_procedure, with_data_run, with_run};

use crate::ending::{DataRun, Ending, RunForm};
use crate::loading::{load_suiting, long_run};
use commands::{Accepted, load_all, refused_with, run_line};
use outside::Shelf;
use std::alloc::Global;
use test_data::TestData;

/// The ending that writes an accepted plan with test data, whose run isn't too long.
fn data_run(form: RunForm, all: Accepted, test_data: TestData) -> Ending
    requires { more_than LONG_RUN_MOST all.plan ≡ None }
    ensures { result ≡ Ending.DataRun form (record { all = all; entries = test_data }) }
{
    Ending::DataRun {
        form,
        run: DataRun { all, test_data },
    }
}

/// How a call ends with all files at hand: the run is refused where it is too long.
fn run_or_refusal(alloc: Global, form: RunForm, all: Accepted, test_data: TestData) -> Ending
    ensures { (held : Option Files) (before after : ℕ) →
        Continues (with_run form all.soc all.plan test_data) held before after
        (ending_value result) }
{
    match long_run(&all) {
        Some(cells) => Ending::Decided(refused_with(run_line(alloc, cells))),
        None => data_run(form, all, test_data),
    }
}

/// Loads the test data of this name for a plan that is accepted, and decides how the call ends.
fn decide_with_data<H: Shelf>(
    alloc: Global,
    form: RunForm,
    all: Accepted,
    name: &str,
    shelf: &mut H,
) -> Ending
    ensures held_stays { H.held shelf.new ≡ H.held shelf.old }
    ensures faults_never_fall { H.faults shelf.old ≤ H.faults shelf.new }
    ensures continues { Continues
        (with_data_run form name.now all.soc all.limits all.plan)
        (H.held shelf.old) (H.faults shelf.old) (H.faults shelf.new) (ending_value result) }
    ensures by_loads { LoadsEnding H.is_load
        (with_data_run form name.now all.soc all.limits all.plan)
        shelf.old (ending_value result) shelf.new }
{
    match load_suiting(alloc, &all, name, shelf) {
        Ok(test_data) => run_or_refusal(alloc, form, all, test_data),
        Err(verdict) => {
            all.free();
            Ending::Decided(verdict)
        }
    }
}

/// `retarget`, `stil`, `vcd` or `verilog`, by its form, and then `SOC LIMITS PLAN DATA`: a plan that is accepted, with the contents of
/// test data that suits the chip. It is written as it is made.
///
/// Data is refused at a line of its text, or for what shows first that it doesn't suit the chip. Then a run of more than
/// [`crate::LONG_RUN_MOST`] cycles times wires is refused.
pub fn decide_run<H: Shelf>(
    alloc: Global,
    form: RunForm,
    soc: &str,
    limits: &str,
    plan: &str,
    name: &str,
    shelf: &mut H,
) -> Ending
    ensures held_stays { H.held shelf.new ≡ H.held shelf.old }
    ensures faults_never_fall { H.faults shelf.old ≤ H.faults shelf.new }
    ensures closes { Closes (run_procedure form soc.now limits.now plan.now name.now)
        (H.held shelf.old) (H.faults shelf.old) (H.faults shelf.new) (ending_value result) }
    ensures by_loads { LoadsEnding H.is_load
        (run_procedure form soc.now limits.now plan.now name.now) shelf.old
        (ending_value result) shelf.new }
{
    match load_all(alloc, soc, limits, plan, shelf) {
        Ok(all) => decide_with_data(alloc, form, all, name, shelf),
        Err(verdict) => Ending::Decided(verdict),
    }
}
