//! Decides how `improve` ends before anything is written.
ghost use Rattle.std.specs.Prelude.{◌≡◌, ◌<◌, ◌≤◌, IfOk};
ghost use Rattle.plan_model.specs.Plans.{PlanValue};
ghost use Rattle.plan_text.specs.PlanLines.{plan_text};
ghost use Rattle.commands.specs.Decides.{Follows};
ghost use Rattle.commands.specs.Loads.{LoadsGive};
ghost use Rattle.plan_improver.specs.declared.progress.TheConstants.{REPORTED_FROM};
ghost use Rattle.plan_improver.specs.Improved.{IsImproved};
ghost use Rattle.plan_improver.specs.Procedures.{improve_procedure};
ghost use Rattle.plan_improver.specs.Reports.{IsQuiet, MayReport};

use crate::improving::improved;
use commands::{Accepted, Status, Verdict, answered_with, load_all};
use live_tests::Problem;
use outside::{NoMemory, Shelf, Sink};
use plan_text::print_plan;
use std::alloc::Global;

/// The text of a plan that is improved from one that is accepted.
fn improved_text<T: Sink>(
    alloc: Global,
    all: Accepted,
    tries: u64,
    seed: u64,
    progress: &mut T,
) -> Result<Vec<u8>, NoMemory>
    ensures text { IfOk result (λ text. (value : PlanValue)
        × IsImproved all.soc all.limits tries all.plan value × (text.items ≡ plan_text value)) }
    ensures faults_never_fall { T.faults progress.old ≤ T.faults progress.new }
    ensures quiet { tries < REPORTED_FROM → progress.new ≡ progress.old }
    ensures reported { MayReport tries (T.written progress.old) (T.written progress.new) }
{
    let Accepted {
        soc,
        limits,
        resolved,
        plan,
        placed,
    } = all;
    drop(placed);
    let problem = Problem::new(&soc, &limits, &resolved);
    let better = improved(alloc, &problem, plan, tries, seed, progress)?;
    print_plan(alloc, &better)
}

/// How many tries a search makes, and the seed of what it draws.
#[derive(Clone, Copy)]
pub struct Drawing {
    pub tries: u64,
    pub seed: u64,
}

/// `improve SOC LIMITS PLAN TRIES SEED`: a plan of no more cycles than one that is accepted. From 100,000 tries on, `progress` gets a
/// line at each tenth of them with the best cycles so far, and for fewer nothing; what becomes of that changes nothing else.
pub fn decide_improve<H: Shelf, T: Sink>(
    alloc: Global,
    soc: &str,
    limits: &str,
    plan: &str,
    by: Drawing,
    shelf: &mut H,
    progress: &mut T,
) -> Verdict
    ensures held_stays { H.held shelf.new ≡ H.held shelf.old }
    ensures faults_never_fall { H.faults shelf.old ≤ H.faults shelf.new }
    ensures progress_faults_never_fall { T.faults progress.old ≤ T.faults progress.new }
    ensures follows { Follows (improve_procedure soc.now limits.now plan.now by.tries by.seed)
        (H.held shelf.old) (H.faults shelf.old) (H.faults shelf.new) result }
    ensures by_loads { LoadsGive H.is_load
        (improve_procedure soc.now limits.now plan.now by.tries by.seed) shelf.old result
        shelf.new }
    ensures quiet { IsQuiet by.tries → progress.new ≡ progress.old }
    ensures reported { MayReport by.tries (T.written progress.old) (T.written progress.new) }
{
    match load_all(alloc, soc, limits, plan, shelf) {
        Ok(all) => answered_with(
            Status::Done,
            improved_text(alloc, all, by.tries, by.seed, progress),
        ),
        Err(verdict) => verdict,
    }
}
