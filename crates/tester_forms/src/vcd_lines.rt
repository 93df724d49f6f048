//! The lines of values: for each variable its code in bytes, and what is put into a text.
ghost use Rattle.std.specs.Prelude.{◌≡◌, ℕ, ◌+◌, ◌^◌, ◌<◌, ◌≤◌, ◌∷◌, [], length, nat_eq, not, if◌then◌else◌};
ghost use Rattle.std.specs.List.{flat_map};
ghost use Rattle.cycle_texts.specs.Rows.{IsPutAt};
ghost use Rattle.tester_forms.specs.Dumps.{change_line, shown_mark, time_line};
ghost use Rattle.tester_forms.specs.Forms.{IsCode};

use crate::vcd_code::Code;
use cycle_texts::CYCLE_MOST;
use itoa::Buffer;

/// The bytes of a line of a value, at most: the value, `s`, a number of four digits, and a line feed are seven.
pub const LINE_MOST: usize = 8;

/// The bytes of the line of a time, at most: `#`, a number of eleven digits, and a line feed are thirteen.
pub const TIME_MOST: usize = 16;

/// The line of a value of the variable of a number.
pub fn code_of(number: usize) -> Code
    requires { number < 10 ^ 4 }
    ensures { IsCode number result }
{
    let mut buffer = Buffer::new();
    let mut bytes = [b'0'; LINE_MOST];
    let sign_end = put_bytes(&mut bytes, 1, b"s");
    let number_end = put_bytes(&mut bytes, sign_end, buffer.format(number).as_bytes());
    let length = put_bytes(&mut bytes, number_end, b"\n");
    Code { bytes, length }
}

/// Writes bytes into a text, from the byte `at` on, and answers where they end.
fn put_bytes(text: &mut [u8], at: usize, bytes: &[u8]) -> usize
    requires { at + length bytes.now ≤ length text.old }
    ensures { IsPutAt at bytes.now result text.old text.new }
{
    let end = at + bytes.len();
    text[at..end].copy_from_slice(bytes);
    end
}

/// Writes the line of the time at which a cycle begins, from the byte `at` on, and answers where it ends. A cycle takes ten units.
pub fn put_time(text: &mut [u8], at: usize, cycle: u64) -> usize
    requires cycle { cycle ≤ CYCLE_MOST }
    requires room { at + 16 ≤ length text.old }
    ensures within { result ≤ at + 16 }
    ensures put { IsPutAt at (time_line cycle) result text.old text.new }
{
    let mut buffer = Buffer::new();
    let sign_end = put_bytes(text, at, b"#");
    let number_end = put_bytes(text, sign_end, buffer.format(10 * cycle).as_bytes());
    put_bytes(text, number_end, b"\n")
}

/// Writes the line of a value, from the byte `at` on, and answers where it ends. Eight bytes are written at once, so that those
/// behind the line say nothing.
pub fn put_value(text: &mut [u8], at: usize, value: u8, code: &Code) -> usize
    requires { at + 8 ≤ length text.old }
    ensures within { result ≤ at + 8 }
    ensures put { (number : ℕ) → IsCode number code.now →
        IsPutAt at (change_line (record { number = number; value = value })) result text.old
        text.new }
{
    text[at..at + LINE_MOST].copy_from_slice(&code.bytes);
    text[at] = value;
    at + code.length
}

/// Writes the line of a value, where it isn't the one before, from the byte `at` on, and answers where it ends.
pub fn put_change(text: &mut [u8], at: usize, before: u8, value: u8, code: &Code) -> usize
    requires { at + 8 ≤ length text.old }
    ensures within { result ≤ at + 8 }
    ensures put { (number : ℕ) → IsCode number code.now →
        IsPutAt at
        (if not (nat_eq before value) then change_line
        (record { number = number; value = value }) else []) result text.old text.new }
{
    if before == value {
        return at;
    }
    put_value(text, at, value, code)
}

/// What is shown for the bit that is compared: `x` where none is.
pub fn shown(mark: u8) -> u8
    ensures { result ≡ shown_mark mark }
{
    if mark == b'-' { b'x' } else { mark }
}
