//! Files of the rig, and plans in them, beside each other.
use crate::lines::part;
use crate::rig::Rig;
use outside::{NoMemory, copied};
use plan_text::read_plan;

/// The word of a test.
fn yes_or_no(holds: bool) -> &'static [u8] {
    if holds { b"yes" } else { b"no" }
}

/// `same A B`: whether two files hold equal bytes.
pub fn are_same(rig: &Rig, words: &str) -> Result<Vec<u8>, NoMemory> {
    let (first, second) = part(words.trim());
    let same = rig.bytes_of(first) == rig.bytes_of(second);
    copied(rig.alloc(), yes_or_no(same))
}

/// The cycles of the plan in a file. None where it isn't read.
fn cycles_of(rig: &Rig, name: &str) -> Option<u64> {
    match read_plan(rig.alloc(), rig.bytes_of(name)) {
        Ok(plan) => Some(plan.cycles),
        Err(_) => None,
    }
}

/// `fewer A B`: whether the plan in the first file takes fewer cycles than that in the second.
pub fn takes_fewer(rig: &Rig, words: &str) -> Result<Vec<u8>, NoMemory> {
    let (first, second) = part(words.trim());
    let answer: &[u8] = match (cycles_of(rig, first), cycles_of(rig, second)) {
        (Some(first), Some(second)) => yes_or_no(first < second),
        _ => b"no plan",
    };
    copied(rig.alloc(), answer)
}
