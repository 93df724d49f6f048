//! The lines that are written of proofs.
ghost use Rattle.std.specs.Prelude.{◌≡◌, IfOk, IsTrue};
ghost use Rattle.plan_model.specs.Proofs.{proof_value};
ghost use Rattle.commands.specs.Texts.{is_line};
ghost use Rattle.bound_commands.specs.ProofTexts.{bound_line as bound_text, proof_line as proof_line_text, proof_fault_line as proof_fault_text};

use bus_proofs::ProofFault;
use commands::{less_line, number_line};
use outside::NoMemory;
use plan_model::Proof;
use std::alloc::Global;

/// `bound` and the cycles that a proof claims.
pub(crate) fn bound_line(alloc: Global, proof: &Proof) -> Result<Vec<u8>, NoMemory>
    ensures text { IfOk result (λ text. text.items ≡ bound_text (proof_value proof.now)) }
{
    number_line(alloc, b"bound ", u128::from(proof.claimed))
}

/// `refused proof line` and the line.
pub fn proof_line(alloc: Global, line: u64) -> Result<Vec<u8>, NoMemory>
    ensures text { IfOk result (λ text. text.items ≡ proof_line_text line) }
    ensures line { IfOk result (λ text. IsTrue (is_line text.items)) }
{
    number_line(alloc, b"refused proof line ", u128::from(line))
}

/// `refused proof` and the fault.
pub fn proof_fault_line(alloc: Global, fault: ProofFault) -> Result<Vec<u8>, NoMemory>
    ensures text { IfOk result (λ text. text.items ≡ proof_fault_text fault) }
    ensures line { IfOk result (λ text. IsTrue (is_line text.items)) }
{
    match fault {
        ProofFault::BadList { place } => number_line(alloc, b"refused proof list ", place as u128),
        ProofFault::BadNode { place } => number_line(alloc, b"refused proof node ", place as u128),
        ProofFault::Less {
            place,
            claimed,
            shown,
        } => less_line(alloc, b"refused proof less ", place, claimed, shown),
    }
}
