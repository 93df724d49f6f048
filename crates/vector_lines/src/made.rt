//! The made contents: bits that a seed and the places of a test fix.
ghost use Rattle.std.specs.Prelude.{◌≡◌, ℕ, ◌+◌, ◌*◌, ◌%◌, ◌<◌, ◌≤◌};
ghost use Rattle.vector_lines.specs.Made.{has_odd_square, made_from};
ghost use Rattle.vector_lines.specs.Marks.{digit as bit_digit};
ghost use Rattle.vector_lines.specs.Numbers.{line_bit, line_value};

use crate::contents::{Contents, PatternBits};
use soc_model::TestId;

/// What made contents are counted by.
const MODULUS: u64 = 997;

/// What the seed, the place of a module in its chip and the place of a test in its module give to each made bit.
fn base_of(seed: u64, module: usize, test: usize) -> u64
    ensures { result ≡ (seed + 31 * «module» + 17 * test) % 997 }
{
    let (module, test) = (module as u64 % MODULUS, test as u64 % MODULUS);
    (seed % MODULUS + 31 * module + 17 * test) % MODULUS
}

/// The bits of one pattern by their numbers: bit n is whether the square of `first + step * n` is odd, modulo 997.
#[derive(Clone, Copy)]
pub struct Line {
    pub first: u64,
    pub step: u64,
}

impl Line {
    /// The bits of a pattern: of its stimulus where `side` is 0, of its response where it is 1.
    pub fn of(base: u64, pattern: u64, side: u64) -> Line
        requires base { base < 997 }
        requires side { side ≤ 1 }
        ensures first { result.first < 997 }
        ensures step { result.step < 997 }
        ensures bits { (n : ℕ) → line_bit result n ≡ made_from base pattern n side }
    {
        let k = pattern % MODULUS;
        Line {
            first: (base + 101 * k + side) % MODULUS,
            step: (7 + 3 * k) % MODULUS,
        }
    }

    /// What the bit of the next number is made from, by what that of a number is.
    pub fn after(&self, value: u64) -> u64
        requires step { self.now.step < 997 }
        requires value { value < 997 }
        ensures { result ≡ (value + self.now.step) % 997 }
    {
        let sum = value + self.step;
        if sum < MODULUS { sum } else { sum - MODULUS }
    }
}

/// The digits of the bits that are made from the values below [`MODULUS`], in their order: one is found quicker than it is made.
const DIGITS: &[u8] = b"\
    0101010101010101010101010101010110101010101011010101010010101010010101001010100101011010100101001010\
    0101001010010110101101001011010010010110100100101101101101101001001001001101101101101100100100110110\
    0100110110011011001101100110011011001100110011001100110011001100110001100110011100110001100111001110\
    0111001110001100011100111000111000111000111100011100011110001111000011110000111100001111000001111100\
    0001111100000011111100000001111111000000001111111111000000000000111111111111111111100000000000000000\
    0000000000000001111111111111111111000000000000111111111100000000111111100000001111110000001111100000\
    1111100000111100001111000011110000111100011110001110001111000111000111000111001110001100011100111001\
    1100111001100011001110011001100011001100110011001100110011001100110110011001101100110110011011001001\
    1011001001001101101101101100100100100101101101101101001001011010010010110100101101011010010100101001\
    0100101001010110101001010100101010010101010010101010110101010101011010101010101010101010101010101";

/// The digit of the bit that is made from a value.
fn digit_of(value: u64) -> u8
    requires { value < 997 }
    ensures { result ≡ bit_digit (has_odd_square value) }
{
    DIGITS[value as usize]
}

/// The bit that is made from a value.
pub fn bit_of(value: u64) -> bool
    requires { value < 997 }
    ensures { result ≡ has_odd_square value }
{
    value * value % MODULUS % 2 == 1
}

impl PatternBits for Line {
    ghost use Rattle.std.specs.Prelude.{ℕ, ◌<◌};
    ghost use Rattle.vector_lines.specs.Marks.{digit};
    ghost use Rattle.vector_lines.specs.Numbers.{line_bit, line_value};

    ghost is_sound = { λ l. (l.first < 997) × (l.step < 997) };

    ghost value_of = { λ l n. line_value l n };

    ghost byte_of = { λ l n. digit (line_bit l n) };

    fn value(&self, number: u64) -> u64 {
        (self.first + self.step * (number % MODULUS)) % MODULUS
    }

    fn next(&self, value: u64) -> u64 {
        self.after(value)
    }

    fn byte(&self, value: u64) -> u8 {
        digit_of(value)
    }
}

/// The made contents of a seed: each bit is fixed by the seed, the place of its module in the chip, the place of its test in the module,
/// its pattern and its number. A test is known by what the seed and its places give to its bits.
#[derive(Clone, Copy)]
pub struct MadeContents {
    /// The seed.
    pub seed: u64,
}

impl Contents for MadeContents {
    type Bits = Line;

    ghost use Rattle.vector_lines.specs.Made.{made_drive, made_keys, made_mark};

    ghost keys = { λ made. made_keys made.seed };

    ghost drive = { λ made. made_drive };

    ghost mark = { λ made. made_mark };

    fn key(&self, place: usize, at: usize, _id: TestId) -> u64 {
        base_of(self.seed, place, at)
    }

    fn stimulus(&self, key: u64, pattern: u64) -> Line {
        Line::of(key, pattern, 0)
    }

    fn response(&self, key: u64, pattern: u64) -> Line {
        Line::of(key, pattern, 1)
    }
}
