//! `simulate`: a chip is stepped through a plan that is accepted, and what it counts is reported in one line.
ghost use Rattle.std.specs.Prelude.{◌≡◌, ◌≤◌, IfOk};
ghost use Rattle.commands.specs.Decides.{Follows, GivesAny};
ghost use Rattle.commands.specs.Loads.{LoadsGive};
ghost use Rattle.commands.specs.Texts.{run_refusal};
ghost use Rattle.tester_commands.specs.RunCounts.{simulated_text};
ghost use Rattle.tester_commands.specs.Procedures.{simulate_procedure};
ghost use Rattle.tester_vectors.specs.VectorText.{too_many};

use crate::counts::counts_line;
use crate::running::run_plan;
use commands::{Accepted, Status, Verdict, answered_with, load_all, refused_with, run_line};
use outside::{NoMemory, Shelf};
use plan_model::good_without_limits;
use std::alloc::Global;
use tester_vectors::too_many_cells;

/// The line of a run.
fn counts_of(alloc: Global, all: &Accepted, seed: u64) -> Result<Vec<u8>, NoMemory>
    ensures { IfOk result (λ text. text.items ≡ simulated_text all.now.soc all.now.plan seed) }
{
    good_without_limits();
    let chip = run_plan(alloc, &all.placed_plan(), seed)?;
    counts_line(alloc, chip.report())
}

/// The cells of a run that is too long to be stepped through. None comes exactly where the run is short enough.
fn long_simulation(all: &Accepted) -> Option<u128>
    ensures { result ≡ too_many all.now.plan }
{
    good_without_limits();
    too_many_cells(&all.plan)
}

/// The answer of a run, or the refusal of one that is too long.
fn simulated(alloc: Global, all: &Accepted, seed: u64) -> Verdict
    ensures { GivesAny (run_refusal (too_many all.now.plan)) (λ text. text
        ≡ simulated_text all.now.soc all.now.plan seed) result }
{
    match long_simulation(all) {
        Some(cells) => refused_with(run_line(alloc, cells)),
        None => answered_with(Status::Done, counts_of(alloc, all, seed)),
    }
}

/// `simulate SOC LIMITS PLAN SEED`: steps the chip, bit by bit, through a plan that is accepted, with contents that are made from a seed,
/// and answers what the run counts: the cycles of the plan, the captures of all tests in them, and how many of these found their stimulus
/// in the cells. A run of more than 20,000,000 cycles times wires is refused.
pub fn decide_simulate<H: Shelf>(
    alloc: Global,
    soc: &str,
    limits: &str,
    plan: &str,
    seed: u64,
    shelf: &mut H,
) -> Verdict
    ensures held_stays { H.held shelf.new ≡ H.held shelf.old }
    ensures faults_never_fall { H.faults shelf.old ≤ H.faults shelf.new }
    ensures follows { Follows (simulate_procedure soc.now limits.now plan.now seed)
        (H.held shelf.old) (H.faults shelf.old) (H.faults shelf.new) result }
    ensures by_loads { LoadsGive H.is_load
        (simulate_procedure soc.now limits.now plan.now seed) shelf.old result shelf.new }
{
    match load_all(alloc, soc, limits, plan, shelf) {
        Ok(all) => {
            let verdict = simulated(alloc, &all, seed);
            all.free();
            verdict
        }
        Err(verdict) => verdict,
    }
}
