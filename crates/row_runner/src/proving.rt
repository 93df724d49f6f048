//! A proof that is found for chip and limits that the call resolves itself; `prove` resolves them once, and calls another.
use crate::held::{chip_of, limits_of};
use crate::lines::{count_of, part};
use crate::rig::Rig;
use bound_prover::proved;
use outside::{NoMemory, copied};

/// `proved CYCLES NODES`: the text of a proof for SOC under LIMITS that claims at most so many cycles and has at most so many nodes.
pub fn text_of_proved(rig: &Rig, words: &str) -> Result<Vec<u8>, NoMemory> {
    let alloc = rig.alloc();
    let Some(soc) = chip_of(rig) else {
        return copied(alloc, b"no chip");
    };
    let Some(limits) = limits_of(rig, &soc) else {
        return copied(alloc, b"no limits");
    };
    let (cycles, nodes) = part(words.trim());
    let nodes = count_of(nodes);
    if nodes == 0 {
        return copied(alloc, b"no nodes");
    }
    let mut progress = rig.second_output()?;
    proved(alloc, &soc, &limits, count_of(cycles), nodes, &mut progress)
}
