//! Made chips, printed: `sample` shows only how many modules and tests they have.
use crate::lines::{count_of, part};
use crate::rig::Rig;
use outside::{NoMemory, copied};
use sample_maker::{SampleFault, sample};
use soc_printer::print_soc;

/// The least number that is no seed.
const NO_SEED: u64 = 1_000_000_000_000;

/// `made N SEED`: the text of the chip of N modules that is made from a seed.
pub fn text_of_made_chip(rig: &Rig, words: &str) -> Result<Vec<u8>, NoMemory> {
    let alloc = rig.alloc();
    let (n, seed) = part(words.trim());
    let seed = count_of(seed);
    if seed >= NO_SEED {
        return copied(alloc, b"no seed");
    }
    match sample(alloc, count_of(n), seed) {
        Ok(soc) => print_soc(alloc, &soc),
        Err(SampleFault::SampleSize { .. }) => copied(alloc, b"no size"),
        Err(SampleFault::NoMemory) => Err(NoMemory),
    }
}
