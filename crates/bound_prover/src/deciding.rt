//! Decides how `prove` ends before anything is written.
ghost use Rattle.std.specs.Prelude.{◌≡◌, ◌<◌, ◌≤◌, IfOk};
ghost use Rattle.commands.specs.Decides.{Follows};
ghost use Rattle.commands.specs.Loads.{LoadsGive};
ghost use Rattle.bound_prover.specs.declared.progress.TheConstants.{REPORTED_FROM};
ghost use Rattle.bound_prover.specs.Proved.{IsProofText};
ghost use Rattle.bound_prover.specs.Procedures.{prove_procedure};
ghost use Rattle.bound_prover.specs.Reports.{IsQuiet, MayReport};

use crate::proving::proved_text;
use commands::{Accepted, Status, Verdict, answered_with, load_all};
use outside::{NoMemory, Shelf, Sink};
use std::alloc::Global;

/// The text of a proof of a bound, which claims at most the cycles of a plan that is accepted.
fn proof_text_for<T: Sink>(
    alloc: Global,
    all: &Accepted,
    nodes: u64,
    progress: &mut T,
) -> Result<Vec<u8>, NoMemory>
    requires some { 1 ≤ nodes }
    ensures text { IfOk result
        (λ text. IsProofText all.now.soc all.now.limits all.now.plan.cycles nodes text.items) }
    ensures faults_never_fall { T.faults progress.old ≤ T.faults progress.new }
    ensures quiet { nodes < REPORTED_FROM → progress.new ≡ progress.old }
    ensures reported { MayReport nodes (T.written progress.old) (T.written progress.new) }
{
    let cycles = all.plan.cycles;
    proved_text(alloc, &all.problem(), cycles, nodes, progress)
}

/// `prove SOC LIMITS PLAN NODES`: a proof of a bound of at most the cycles of a plan that is accepted. From 10,000 nodes on each tenth
/// of them that was made is reported to `progress`, with the claim so far, and for fewer nothing; what becomes of that changes nothing
/// else.
pub fn decide_prove<H: Shelf, T: Sink>(
    alloc: Global,
    soc: &str,
    limits: &str,
    plan: &str,
    nodes: u64,
    shelf: &mut H,
    progress: &mut T,
) -> Verdict
    requires some { 1 ≤ nodes }
    ensures held_stays { H.held shelf.new ≡ H.held shelf.old }
    ensures faults_never_fall { H.faults shelf.old ≤ H.faults shelf.new }
    ensures progress_faults_never_fall { T.faults progress.old ≤ T.faults progress.new }
    ensures follows { Follows (prove_procedure soc.now limits.now plan.now nodes)
        (H.held shelf.old) (H.faults shelf.old) (H.faults shelf.new) result }
    ensures by_loads { LoadsGive H.is_load (prove_procedure soc.now limits.now plan.now nodes)
        shelf.old result shelf.new }
    ensures quiet { IsQuiet nodes → progress.new ≡ progress.old }
    ensures reported { MayReport nodes (T.written progress.old) (T.written progress.new) }
{
    match load_all(alloc, soc, limits, plan, shelf) {
        Ok(all) => {
            let text = proof_text_for(alloc, &all, nodes, progress);
            all.free();
            answered_with(Status::Done, text)
        }
        Err(verdict) => verdict,
    }
}
