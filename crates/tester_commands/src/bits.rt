//! The made bits of a pattern, as the bytes of a bit word.
ghost use Rattle.std.specs.Prelude.{◌≡◌, ◌+◌, ◌++◌, ◌<◌, ◌≤◌, ℕ, length, map, take};
ghost use Rattle.std.specs.List.{range_with_len};
ghost use Rattle.vector_lines.specs.Made.{has_odd_square};
ghost use Rattle.vector_lines.specs.Numbers.{line_value};
ghost use Rattle.tester_commands.specs.DataText.{bit_byte};
ghost use Rattle.tester_commands.specs.ContentEntries.{data_bit};
ghost use Rattle.tester_commands.specs.DataParts.{made_byte};

use vector_lines::{Line, bit_of};

/// The byte of the bit that is made from a value.
fn byte_of(value: u64) -> u8
    requires { value < 997 }
    ensures { result ≡ bit_byte (data_bit (has_odd_square value)) }
{
    if bit_of(value) { b'1' } else { b'0' }
}

/// Puts the bytes of `count` bits from a place on; the first bit is made from a value. It answers what the bit behind them is made
/// from.
pub fn put_bits(bytes: &mut [u8], from: usize, count: usize, line: Line, first: u64) -> u64
    requires within { from + count ≤ length bytes.old }
    requires step { line.step < 997 }
    requires first { first < 997 }
    ensures small { result < 997 }
    ensures long { length bytes.new ≡ length bytes.old }
    ensures put { (n : ℕ) → first ≡ line_value line n → take (from + count) bytes.new
        ≡ take from bytes.old ++ map (made_byte line) (range_with_len n count) }
    ensures next { (n : ℕ) → first ≡ line_value line n → result ≡ line_value line (n + count) }
{
    let mut value = first;
    for done in 0..count {
        bytes[from + done] = byte_of(value);
        value = line.after(value);
    }
    value
}
