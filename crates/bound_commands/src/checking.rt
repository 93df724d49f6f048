//! What is answered of the bytes of a proof by cases on buses, for a chip under limits: its bound.
ghost use Rattle.std.specs.Prelude.{ℕ, List, IfErr, IfOk, OnOk};
ghost use Rattle.commands.specs.Decides.{AnswersBytes};
ghost use Rattle.plan_model.specs.Proofs.{ProofValue, proof_value};
ghost use Rattle.plan_model.specs.Sayable.{MayBeSaid};
ghost use Rattle.bus_proofs.specs.Bounds.{IsAccepted, IsProofFault};
ghost use Rattle.bound_commands.specs.ProofReadings.{RefusesProof, SaysAcceptedProof};
ghost use Rattle.bound_commands.specs.ProofTexts.{bound_line as bound_text};

use crate::proof_lines::{bound_line, proof_fault_line, proof_line};
use bus_proofs::{ProofFault, ProofRoom, check_proof};
use commands::{Both, Status, Verdict, answered_with, refused_with};
use live_tests::Problem;
use outside::NoMemory;
use plan_model::Proof;
use proof_text::{ProofTextFault, read_proof};
use std::alloc::Global;

/// Checks a proof that was read for a chip under its limits. `NoMemory` where memory runs out.
fn checked_proof(
    alloc: Global,
    problem: &Problem<'_>,
    proof: &Proof,
) -> Result<Result<(), ProofFault>, NoMemory>
    requires { MayBeSaid (proof_value proof.now) }
    ensures accepted { IfOk result (λ checked. OnOk checked
        (IsAccepted problem.now.soc problem.now.limits (proof_value proof.now))) }
    ensures fault { IfOk result (λ checked. IfErr checked
        (IsProofFault problem.now.soc problem.now.limits (proof_value proof.now))) }
{
    let mut room = ProofRoom::over(alloc, problem, proof)?;
    let checked = check_proof(&mut room);
    drop(room);
    Ok(checked)
}

/// The proof that bytes say, where it is accepted for a chip under its limits, else how a command ends that asks for one, whatever it
/// answers to a proof.
pub(crate) fn accepted_proof(
    alloc: Global,
    problem: &Problem<'_>,
    bytes: &[u8],
) -> Result<Proof, Verdict>
    ensures accepted { IfOk result (λ proof.
        SaysAcceptedProof problem.now.soc problem.now.limits bytes.now (proof_value proof)) }
    ensures refused { IfErr result (λ verdict. (answer : ProofValue → List ℕ) →
        AnswersBytes (SaysAcceptedProof problem.now.soc problem.now.limits)
        (RefusesProof problem.now.soc problem.now.limits) answer bytes.now verdict) }
{
    let proof = match read_proof(alloc, bytes) {
        Ok(proof) => proof,
        Err(ProofTextFault::Text { line }) => return Err(refused_with(proof_line(alloc, line))),
        Err(ProofTextFault::NoMemory) => return Err(Verdict::NoMemory),
    };
    let Ok(checked) = checked_proof(alloc, problem, &proof) else {
        return Err(Verdict::NoMemory);
    };
    match checked {
        Ok(()) => Ok(proof),
        Err(fault) => Err(refused_with(proof_fault_line(alloc, fault))),
    }
}

/// What is answered of a proof's bytes, for a chip and its limits.
pub(crate) fn answer_proof(alloc: Global, both: &Both, bytes: &[u8]) -> Verdict
    ensures { AnswersBytes (SaysAcceptedProof both.now.soc both.now.limits)
        (RefusesProof both.now.soc both.now.limits) bound_text bytes.now result }
{
    match accepted_proof(alloc, &both.problem(), bytes) {
        Ok(proof) => answered_with(Status::Done, bound_line(alloc, &proof)),
        Err(verdict) => verdict,
    }
}
