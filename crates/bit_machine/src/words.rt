//! The made bits of a chain's numbers, 64 in a word.
ghost use Rattle.std.specs.Prelude.{◌≡◌, ℕ, ◌+◌, ◌<◌, ◌≤◌, false, length, slice_index};
ghost use Rattle.std.specs.List.{All};
ghost use Rattle.vector_lines.specs.Numbers.{all_numbers, line_bit, IsFull};
ghost use Rattle.bit_machine.specs.Packed.{is_set, IsLineWord};

use crate::bits::{WORD_BITS, with_bit};
use vector_lines::{Line, NumberRun, Numbers, bit_of, next_value, walk_from};

/// The made bits of `count` numbers from a place on.
fn word_of(runs: &[NumberRun], line: &Line, first: usize, count: usize) -> u64
    requires first { line.now.first < 997 }
    requires step { line.now.step < 997 }
    requires full { All IsFull runs.now }
    requires some { 1 ≤ count }
    requires few { count ≤ 64 }
    requires within { first + count ≤ length (all_numbers runs.now) }
    ensures bits { (i : ℕ) → i < count →
        is_set result i ≡ line_bit line.now (slice_index (all_numbers runs.now) (first + i)) }
    ensures rest { (i : ℕ) → count ≤ i → i < 64 → is_set result i ≡ false }
{
    let mut walk = walk_from(runs, line, first as u64);
    let mut word = 0;
    for place in 0..count {
        let value = next_value(runs, line, &mut walk);
        word = with_bit(word, place, bit_of(value));
    }
    word
}

/// The made bits of the numbers from a place on, 64 in a word: 0 past the last number.
pub fn word_from(numbers: &Numbers, line: &Line, first: usize) -> u64
    requires first { line.now.first < 997 }
    requires step { line.now.step < 997 }
    ensures { IsLineWord line.now numbers.now first result }
{
    let count = numbers.len();
    if first >= count {
        return 0;
    }
    word_of(numbers.runs(), line, first, (count - first).min(WORD_BITS))
}
