//! The texts of rows. A text stands in one line: `/` ends a line of it, and a backslash begins what can't be written so.
ghost use Rattle.std.specs.Prelude.{◌<◌, ◌≤◌, length, IfSome};

use outside::{NoMemory, push};
use std::alloc::Global;

/// A piece of a text.
#[derive(Clone, Copy)]
enum Piece {
    /// This byte. `\xHH` is the byte of two hexadecimal digits; any other byte behind a backslash stands for itself.
    Byte(u8),
    /// `\d`: one or more digits, whatever they are.
    Number,
    /// `\*`: any bytes, up to the end.
    Rest,
}

/// The value of a hexadecimal digit.
fn hexadecimal(digit: u8) -> Option<u8>
    ensures { IfSome result (λ value. value < 16) }
{
    match digit {
        b'0'..=b'9' => Some(digit - b'0'),
        b'a'..=b'f' => Some(digit - b'a' + 10),
        _ => None,
    }
}

/// The byte of two hexadecimal digits. None where they are none.
fn byte_of(high: u8, low: u8) -> Option<u8> {
    match (hexadecimal(high), hexadecimal(low)) {
        (Some(high), Some(low)) => Some(high * 16 + low),
        _ => None,
    }
}

/// What stands behind a backslash, and the bytes behind that.
fn escaped(text: &[u8]) -> (Piece, &[u8])
    ensures { length result.1.now ≤ length text.now }
{
    match text {
        [b'd', rest @ ..] => (Piece::Number, rest),
        [b'*', rest @ ..] => (Piece::Rest, rest),
        [b'x', high, low, rest @ ..] => match byte_of(*high, *low) {
            Some(byte) => (Piece::Byte(byte), rest),
            None => (Piece::Byte(b'x'), &text[1..]),
        },
        [byte, rest @ ..] => (Piece::Byte(*byte), rest),
        [] => (Piece::Byte(b'\\'), text),
    }
}

/// The first piece of a text, and the bytes behind it. None where the text ends.
fn first_piece(text: &[u8]) -> Option<(Piece, &[u8])>
    ensures { IfSome result (λ r. length r.1.now < length text.now) }
{
    match text {
        [] => None,
        [b'/', rest @ ..] => Some((Piece::Byte(b'\n'), rest)),
        [b'\\', rest @ ..] => Some(escaped(rest)),
        [byte, rest @ ..] => Some((Piece::Byte(*byte), rest)),
    }
}

/// The bytes of a text, none for what is left open.
pub fn bytes_of_text(alloc: Global, text: &str) -> Result<Vec<u8>, NoMemory> {
    let mut bytes = Vec::new(alloc);
    let mut left = text.as_bytes();
    while let Some((piece, rest)) = first_piece(left) {
        if let Piece::Byte(byte) = piece {
            push(&mut bytes, byte)?;
        }
        left = rest;
    }
    Ok(bytes)
}

/// The bytes behind a byte.
fn behind_byte(byte: u8, answer: &[u8]) -> Option<&[u8]> {
    match answer {
        [first, rest @ ..] if *first == byte => Some(rest),
        _ => None,
    }
}

/// The bytes behind the digits with which an answer begins.
fn behind_number(answer: &[u8]) -> Option<&[u8]> {
    let digits = answer
        .iter()
        .take_while(|byte| byte.is_ascii_digit())
        .count();
    if digits == 0 {
        return None;
    }
    answer.get(digits..)
}

/// Whether an answer is what a text wants.
pub fn is_text(wanted: &str, answer: &[u8]) -> bool {
    let mut left = wanted.as_bytes();
    let mut answer = answer;
    while let Some((piece, rest)) = first_piece(left) {
        let behind = match piece {
            Piece::Byte(byte) => behind_byte(byte, answer),
            Piece::Number => behind_number(answer),
            Piece::Rest => return true,
        };
        let Some(behind) = behind else {
            return false;
        };
        left = rest;
        answer = behind;
    }
    answer.is_empty()
}
