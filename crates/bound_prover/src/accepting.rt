//! The text of a proof that was found, where it is accepted.
ghost use Rattle.std.specs.Prelude.{◌≡◌, ◌≤◌, true, IfOk, IfSome};
ghost use Rattle.plan_model.specs.Proofs.{proof_value};
ghost use Rattle.plan_model.specs.Sayable.{MayBeSaid};
ghost use Rattle.bus_proofs.specs.Bounds.{IsAccepted};
ghost use Rattle.proof_text.specs.ProofLines.{proof_text};
ghost use Rattle.bound_prover.specs.Proved.{IsPrinted, IsProofText, IsReadable, no_claim};

use crate::choosing::FoundProof;
use crate::comparing::equal_proof;
use bus_proofs::{ProofRoom, check_proof};
use commands::FILE_MOST;
use live_tests::Problem;
use outside::{NoMemory, push};
use plan_model::{Node, Proof, Weights};
use proof_text::{ProofTextFault, print_proof, read_proof};
use std::alloc::Global;

/// Whether the text of a proof that was found says that proof, with its numbers in the grammar's range.
fn reads_back(alloc: Global, found: &FoundProof) -> Result<bool, NoMemory>
    ensures { IfOk result (λ yes. yes ≡ true → IsReadable found.now) }
{
    match read_proof(alloc, &found.text) {
        Ok(proof) => {
            let equal = equal_proof(&proof, &found.proof);
            // dropped by a call: the end of the scope would drop each of its parts, and be proved for each
            drop(proof);
            Ok(equal)
        }
        Err(ProofTextFault::Text { .. }) => Ok(false),
        Err(ProofTextFault::NoMemory) => Err(NoMemory),
    }
}

/// Whether a proof is accepted.
fn is_accepted(alloc: Global, problem: &Problem<'_>, proof: &Proof) -> Result<bool, NoMemory>
    requires proof { MayBeSaid (proof_value proof.now) }
    ensures { IfOk result (λ yes. yes ≡ true →
        IsAccepted problem.now.soc problem.now.limits (proof_value proof.now)) }
{
    let mut room = ProofRoom::over(alloc, problem, proof)?;
    let accepted = check_proof(&mut room).is_ok();
    drop(room);
    Ok(accepted)
}

/// Whether a proof that was found is accepted for a chip under limits, claims at most `cycles` cycles, has at most `nodes` nodes, and is
/// said by its text, which is no longer than a file may be.
fn is_kept(
    alloc: Global,
    problem: &Problem<'_>,
    found: &FoundProof,
    cycles: u64,
    nodes: u64,
) -> Result<bool, NoMemory>
    requires some { 1 ≤ cycles }
    ensures { IfOk result (λ yes. yes ≡ true →
        IsProofText problem.now.soc problem.now.limits cycles nodes (proof_text found.now)) }
{
    let proof = &found.proof;
    if proof.claimed > cycles {
        return Ok(false);
    }
    if proof.nodes.len() as u64 > nodes {
        return Ok(false);
    }
    if found.text.len() as u64 > FILE_MOST {
        return Ok(false);
    }
    if !reads_back(alloc, found)? {
        return Ok(false);
    }
    is_accepted(alloc, problem, proof)
}

/// The text of a proof that was found, where it is accepted for a chip under limits, claims at most `cycles` cycles and has at
/// most `nodes` nodes, and what is read again from its text is equal to it.
pub(crate) fn accepted_text(
    alloc: Global,
    problem: &Problem<'_>,
    found: FoundProof,
    cycles: u64,
    nodes: u64,
) -> Result<Option<Vec<u8>>, NoMemory>
    requires some { 1 ≤ cycles }
    ensures { IfOk result (λ text. IfSome text
        (λ t. IsProofText problem.now.soc problem.now.limits cycles nodes t.items)) }
{
    let kept = is_kept(alloc, problem, &found, cycles, nodes);
    let text = found.into_text();
    if kept? { Ok(Some(text)) } else { Ok(None) }
}

/// The text of the proof that claims nothing, and is accepted for every chip.
pub(crate) fn nothing_text(alloc: Global) -> Result<Vec<u8>, NoMemory>
    ensures { IfOk result (λ text. IsPrinted no_claim text.items) }
{
    let weights = Weights {
        wire: 1,
        ranks: Vec::new(alloc),
        lists: Vec::new(alloc),
    };
    let mut nodes = Vec::new(alloc);
    push(&mut nodes, Node::Sum { weights })?;
    let proof = Proof {
        claimed: 0,
        lists: Vec::new(alloc),
        nodes,
    };
    print_proof(alloc, &proof)
}
