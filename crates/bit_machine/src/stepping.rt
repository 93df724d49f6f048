//! One chain of a test over the wires with the bits of its cells: what it holds, and one cycle of it.
ghost use Rattle.std.specs.Prelude.{◌≡◌, ℕ, ◌-◌, ◌%◌, ◌<◌, ◌≤◌, Some, List, length};
ghost use Rattle.plan_model.specs.Cells.{Cell};
ghost use Rattle.plan_model.specs.Runs.{captured, next_bits};
ghost use Rattle.plan_model.specs.Moments.{moment_operation};
ghost use Rattle.vector_lines.specs.Paths.{IsPath};
ghost use Rattle.bit_machine.specs.Chips.{chain_holds};
ghost use Rattle.bit_machine.specs.Lanes.{path_stimulus, path_response};
ghost use Rattle.bit_machine.specs.Packed.{IsLineWord};

use crate::bits::{WORD_BITS, is_set};
use crate::ring::Ring;
use crate::words::word_from;
use plan_model::Moment;
use vector_lines::{Line, Numbers, Path};

/// The word with the bit of a place, given the word of the place before. A new word begins at each multiple of 64.
fn word_at(numbers: &Numbers, line: &Line, place: usize, word: u64) -> u64
    requires first { line.now.first < 997 }
    requires step { line.now.step < 997 }
    requires before { 0 < place % 64 → IsLineWord line.now numbers.now (place - place % 64) word }
    ensures { IsLineWord line.now numbers.now (place - place % 64) result }
{
    if place % WORD_BITS == 0 {
        word_from(numbers, line, place)
    } else {
        word
    }
}

/// Whether the cells that are loaded hold a pattern.
pub fn holds_stimulus(path: &Path, ring: &Ring, base: u64, pattern: u64) -> bool
    requires base { base < 997 }
    requires fits { length path.now.loads ≤ length ring.now }
    ensures { (inputs : ℕ) (lengths : List ℕ) (cells : List Cell) →
        IsPath inputs lengths cells path.now → length ring.now ≡ path.now.cells →
        result ≡ chain_holds (path_stimulus base inputs lengths pattern) cells ring.now }
{
    let line = Line::of(base, pattern, 0);
    let mut word = 0;
    for cell in 0..path.loads.len() {
        word = word_at(&path.loads, &line, cell, word);
        if ring.bit(cell) != is_set(word, cell % WORD_BITS) {
            return false;
        }
    }
    true
}

/// The cells that are read take the response of a pattern.
fn capture_ring(path: &Path, ring: &mut Ring, base: u64, pattern: u64)
    requires base { base < 997 }
    requires fits { length path.now.answers ≤ length ring.old }
    ensures long { length ring.new ≡ length ring.old }
    ensures bits { (inputs : ℕ) (lengths : List ℕ) (cells : List Cell) →
        IsPath inputs lengths cells path.now → length ring.old ≡ path.now.cells →
        ring.new ≡ captured (path_response base lengths pattern) cells ring.old }
{
    let line = Line::of(base, pattern, 1);
    let count = path.answers.len();
    let from = ring.len() - count;
    let mut word = 0;
    for place in 0..count {
        word = word_at(&path.answers, &line, place, word);
        let bit = is_set(word, place % WORD_BITS);
        ring.put(from + place, bit);
    }
}

/// One cycle of the chain, with the bit on its wire.
pub fn step_ring(path: &Path, ring: &mut Ring, base: u64, moment: Moment, drive: bool)
    requires base { base < 997 }
    requires fits { length path.now.answers ≤ length ring.old }
    ensures long { length ring.new ≡ length ring.old }
    ensures bits { (inputs : ℕ) (lengths : List ℕ) (cells : List Cell) →
        IsPath inputs lengths cells path.now → length ring.old ≡ path.now.cells →
        ring.new
        ≡ next_bits (path_response base lengths) cells (Some (moment_operation moment))
        drive ring.old }
{
    match moment {
        Moment::Setup => {}
        Moment::Shift { .. } => ring.enter(drive),
        Moment::Capture { pattern } => capture_ring(path, ring, base, pattern),
    }
}
