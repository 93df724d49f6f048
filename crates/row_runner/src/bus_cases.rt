//! A proof by cases on buses, checked in a room that is made for it alone.
use crate::held::{chip_of, limits_of};
use crate::rig::Rig;
use bus_proofs::{ProofFault, ProofRoom, check_proof};
use outside::{NoMemory, copied, extend, push_number};
use proof_text::read_proof;
use std::alloc::Global;

/// Appends a space and a number.
fn push_after_space(text: &mut Vec<u8>, number: u128) -> Result<(), NoMemory> {
    extend(text, b" ")?;
    push_number(text, number)
}

/// The name of a fault with its numbers.
fn text_of_fault(alloc: Global, fault: ProofFault) -> Result<Vec<u8>, NoMemory> {
    let (name, place): (&[u8], usize) = match fault {
        ProofFault::BadList { place } => (b"list", place),
        ProofFault::BadNode { place } => (b"node", place),
        ProofFault::Less { place, .. } => (b"less", place),
    };
    let mut text = copied(alloc, name)?;
    push_after_space(&mut text, place as u128)?;
    if let ProofFault::Less { claimed, shown, .. } = fault {
        push_after_space(&mut text, u128::from(claimed))?;
        push_after_space(&mut text, shown)?;
    }
    Ok(text)
}

/// `proof`: what the check says of the proof of PROOF for SOC and LIMITS.
pub fn answer_to_proof(rig: &Rig) -> Result<Vec<u8>, NoMemory> {
    let alloc = rig.alloc();
    let Some(soc) = chip_of(rig) else {
        return copied(alloc, b"no chip");
    };
    let Some(limits) = limits_of(rig, &soc) else {
        return copied(alloc, b"no limits");
    };
    let Ok(proof) = read_proof(alloc, rig.bytes_of("PROOF")) else {
        return copied(alloc, b"no proof");
    };
    let mut room = ProofRoom::new(alloc, &soc, &limits, &proof)?;
    let checked = check_proof(&mut room);
    drop(room);
    match checked {
        Ok(()) => copied(alloc, b"accepted"),
        Err(fault) => text_of_fault(alloc, fault),
    }
}
