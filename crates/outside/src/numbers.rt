//! Decimal numbers, read and written.
ghost use Rattle.std.specs.Prelude.{◌≡◌, ◌+◌, ◌++◌, ◌∷◌, [], ◌<◌, ◌≤◌, length, take, OnOk, OnErr, decimal};
ghost use Rattle.outside.specs.Decimal.{number_of, spaced_number, dotted_numbers};

use crate::NoMemory;
use crate::growing::{extend, push};
use itoa::Buffer;

/// The most digits of which no number passes 64 bits.
const SHORT: usize = 19;

/// The number that a word of decimal digits stands for, leading zeros allowed.
///
/// `None` comes exactly where the word is empty, a byte of it is no digit, or the number is more than `most`.
pub fn number(word: &[u8], most: u64) -> Option<u64>
    ensures { result ≡ number_of word.now most }
{
    if word.is_empty() {
        return None;
    }
    if word.len() > SHORT {
        return long_number(word, most);
    }
    short_number(word, most)
}

/// The value of a word of so few bytes that the number can't pass 64 bits, whatever digits they are.
fn short_number(word: &[u8], most: u64) -> Option<u64>
    requires { (1 ≤ length word.now) × (length word.now ≤ 19) }
    ensures { result ≡ number_of word.now most }
{
    let mut n = 0u64;
    for b in word {
        if !b.is_ascii_digit() {
            return None;
        }
        n = 10 * n + u64::from(*b - b'0');
    }
    if n > most {
        return None;
    }
    Some(n)
}

/// The value of a word of any length but 0: it stops at the first digit with which the number passes `most`.
fn long_number(word: &[u8], most: u64) -> Option<u64>
    requires { 1 ≤ length word.now }
    ensures { result ≡ number_of word.now most }
{
    let mut n = 0u128;
    for b in word {
        if !b.is_ascii_digit() {
            return None;
        }
        n = 10 * n + u128::from(*b - b'0');
        if n > u128::from(most) {
            return None;
        }
    }
    Some(n as u64)
}

/// Appends the decimal text of a number, without leading zeros. After `NoMemory` the text is as it was.
pub fn push_number(to: &mut Vec<u8>, n: u128) -> Result<(), NoMemory>
    ensures ok { OnOk result (to.new.items ≡ to.old.items ++ decimal n) }
    ensures err { OnErr result (to.new.items ≡ to.old.items) }
{
    let mut buffer = Buffer::new();
    extend(to, buffer.format(n).as_bytes())
}

/// Appends a space and the decimal text of a number. After `NoMemory` the space may stand behind the text.
fn push_spaced_parts(to: &mut Vec<u8>, n: u64) -> Result<(), NoMemory>
    ensures ok { OnOk result (to.new.items ≡ to.old.items ++ spaced_number n) }
    ensures err { OnErr result (take (length to.old.items) to.new.items ≡ to.old.items) }
{
    push(to, b' ')?;
    let mut buffer = Buffer::new();
    extend(to, buffer.format(n).as_bytes())
}

/// Appends a space and the decimal text of a number. After `NoMemory` the text is as it was.
pub fn push_spaced(to: &mut Vec<u8>, n: u64) -> Result<(), NoMemory>
    ensures ok { OnOk result (to.new.items ≡ to.old.items ++ spaced_number n) }
    ensures err { OnErr result (to.new.items ≡ to.old.items) }
{
    let before = to.len();
    match push_spaced_parts(to, n) {
        Ok(()) => Ok(()),
        Err(NoMemory) => {
            to.truncate(before);
            Err(NoMemory)
        }
    }
}

/// Appends two numbers with a dot between them, as those of a module and of its test. After `NoMemory` the text is as it
/// was.
pub fn push_dotted(to: &mut Vec<u8>, first: u64, second: u64) -> Result<(), NoMemory>
    ensures ok { OnOk result (to.new.items ≡ to.old.items ++ dotted_numbers first second) }
    ensures err { OnErr result (to.new.items ≡ to.old.items) }
{
    let length = to.len();
    match push_dotted_parts(to, first, second) {
        Ok(()) => Ok(()),
        Err(NoMemory) => {
            to.truncate(length);
            Err(NoMemory)
        }
    }
}

/// Appends the two numbers part by part: after `NoMemory` those that found room may stand behind the text.
fn push_dotted_parts(to: &mut Vec<u8>, first: u64, second: u64) -> Result<(), NoMemory>
    ensures ok { OnOk result (to.new.items ≡ to.old.items ++ dotted_numbers first second) }
    ensures err { OnErr result (take (length to.old.items) to.new.items ≡ to.old.items) }
{
    push_number(to, u128::from(first))?;
    extend(to, b".")?;
    push_number(to, u128::from(second))
}
