//! Decides how a command over a file that shows a bound ends, before anything is written.
ghost use Rattle.std.specs.Prelude.{◌≡◌, ◌≤◌};
ghost use Rattle.commands.specs.Decides.{Follows};
ghost use Rattle.commands.specs.Loads.{LoadsGive};
ghost use Rattle.bound_commands.specs.Procedures.{bound_procedure, picture_with_proof_procedure, tree_procedure};

use crate::bound_files::{BoundFile, answer_bound_file};
use commands::{Verdict, load_all, load_both};
use outside::Shelf;
use std::alloc::Global;

/// `tree SOC LIMITS TREE`: the bound of a width tree that is accepted.
pub fn decide_tree<H: Shelf>(
    alloc: Global,
    soc: &str,
    limits: &str,
    tree: &str,
    shelf: &mut H,
) -> Verdict
    ensures held_stays { H.held shelf.new ≡ H.held shelf.old }
    ensures faults_never_fall { H.faults shelf.old ≤ H.faults shelf.new }
    ensures follows { Follows (tree_procedure soc.now limits.now tree.now) (H.held shelf.old)
        (H.faults shelf.old) (H.faults shelf.new) result }
    ensures by_loads { LoadsGive H.is_load (tree_procedure soc.now limits.now tree.now)
        shelf.old result shelf.new }
{
    match load_both(alloc, soc, limits, shelf) {
        Ok(both) => {
            let verdict = answer_bound_file(alloc, BoundFile::Tree(&both), tree, shelf);
            both.free();
            verdict
        }
        Err(verdict) => verdict,
    }
}

/// `bound SOC LIMITS PROOF`: the bound of a proof that is accepted.
pub fn decide_bound<H: Shelf>(
    alloc: Global,
    soc: &str,
    limits: &str,
    proof: &str,
    shelf: &mut H,
) -> Verdict
    ensures held_stays { H.held shelf.new ≡ H.held shelf.old }
    ensures faults_never_fall { H.faults shelf.old ≤ H.faults shelf.new }
    ensures follows { Follows (bound_procedure soc.now limits.now proof.now) (H.held shelf.old)
        (H.faults shelf.old) (H.faults shelf.new) result }
    ensures by_loads { LoadsGive H.is_load (bound_procedure soc.now limits.now proof.now)
        shelf.old result shelf.new }
{
    match load_both(alloc, soc, limits, shelf) {
        Ok(both) => {
            let verdict = answer_bound_file(alloc, BoundFile::Proof(&both), proof, shelf);
            both.free();
            verdict
        }
        Err(verdict) => verdict,
    }
}

/// `picture SOC LIMITS PLAN PROOF`: the picture of a plan that is accepted, with the claim of a proof that is accepted.
pub fn decide_picture_with_proof<H: Shelf>(
    alloc: Global,
    soc: &str,
    limits: &str,
    plan: &str,
    proof: &str,
    shelf: &mut H,
) -> Verdict
    ensures held_stays { H.held shelf.new ≡ H.held shelf.old }
    ensures faults_never_fall { H.faults shelf.old ≤ H.faults shelf.new }
    ensures follows { Follows
        (picture_with_proof_procedure soc.now limits.now plan.now proof.now) (H.held shelf.old)
        (H.faults shelf.old) (H.faults shelf.new) result }
    ensures by_loads { LoadsGive H.is_load
        (picture_with_proof_procedure soc.now limits.now plan.now proof.now)
        shelf.old result shelf.new }
{
    match load_all(alloc, soc, limits, plan, shelf) {
        Ok(all) => {
            let verdict = answer_bound_file(alloc, BoundFile::Claim(&all), proof, shelf);
            all.free();
            verdict
        }
        Err(verdict) => verdict,
    }
}
