//! `picture`: the picture of a plan that is accepted, and what is answered of the bytes of a proof whose claim is drawn in it.
ghost use Rattle.std.specs.Prelude.{◌≡◌, ◌≤◌, IfOk};
ghost use Rattle.commands.specs.Decides.{AnswersBytes, Follows};
ghost use Rattle.commands.specs.Loads.{LoadsGive};
ghost use Rattle.picture.specs.PictureText.{picture_of_claim, picture_text};
ghost use Rattle.bound_commands.specs.Pictures.{claim_picture};
ghost use Rattle.bound_commands.specs.Procedures.{picture_procedure};
ghost use Rattle.bound_commands.specs.ProofReadings.{RefusesProof, SaysAcceptedProof};

use crate::checking::accepted_proof;
use commands::{Accepted, Status, Verdict, answered_with, load_all};
use outside::{NoMemory, Shelf};
use picture::{print_picture, print_picture_of_claim};
use std::alloc::Global;

/// The picture of a plan that is accepted.
fn picture_for(alloc: Global, all: &Accepted) -> Result<Vec<u8>, NoMemory>
    ensures { IfOk result
        (λ text. text.items ≡ picture_text all.now.soc all.now.limits all.now.plan) }
{
    print_picture(alloc, &all.limits, &all.placed_plan())
}

/// The picture of a plan that is accepted, with the claim of a proof, in cycles, in the place of the plan's own bound.
fn claim_picture_for(alloc: Global, all: &Accepted, claimed: u64) -> Result<Vec<u8>, NoMemory>
    ensures { IfOk result
        (λ text. text.items ≡ picture_of_claim all.now.soc all.now.limits all.now.plan claimed) }
{
    print_picture_of_claim(alloc, &all.limits, &all.placed_plan(), claimed)
}

/// What is answered of a proof's bytes, for a plan that is accepted: the picture with the claim, or as `bound` refuses them.
pub(crate) fn answer_claim(alloc: Global, all: &Accepted, bytes: &[u8]) -> Verdict
    ensures { AnswersBytes (SaysAcceptedProof all.now.soc all.now.limits)
        (RefusesProof all.now.soc all.now.limits)
        (claim_picture all.now.soc all.now.limits all.now.plan) bytes.now result }
{
    match accepted_proof(alloc, &all.problem(), bytes) {
        Ok(proof) => answered_with(Status::Done, claim_picture_for(alloc, all, proof.claimed)),
        Err(verdict) => verdict,
    }
}

/// `picture SOC LIMITS PLAN`: the picture of a plan that is accepted.
pub fn decide_picture<H: Shelf>(
    alloc: Global,
    soc: &str,
    limits: &str,
    plan: &str,
    shelf: &mut H,
) -> Verdict
    ensures held_stays { H.held shelf.new ≡ H.held shelf.old }
    ensures faults_never_fall { H.faults shelf.old ≤ H.faults shelf.new }
    ensures follows { Follows (picture_procedure soc.now limits.now plan.now)
        (H.held shelf.old) (H.faults shelf.old) (H.faults shelf.new) result }
    ensures by_loads { LoadsGive H.is_load (picture_procedure soc.now limits.now plan.now)
        shelf.old result shelf.new }
{
    match load_all(alloc, soc, limits, plan, shelf) {
        Ok(all) => {
            let text = picture_for(alloc, &all);
            all.free();
            answered_with(Status::Done, text)
        }
        Err(verdict) => verdict,
    }
}
