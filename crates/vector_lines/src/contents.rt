//! What the live tests of a chip load and answer, bit by bit, in the order in which a text of vectors wants them.
ghost use Rattle.std.specs.Prelude.{◌≡◌, ℕ, ◌+◌, ◌^◌, ◌<◌, Bool};
ghost use Rattle.vector_lines.specs.Marks.{digit, IsKey, IsValue, Keys};

use soc_model::TestId;

/// The bytes that stand for the bits of one pattern, by the numbers of the bits. Each byte is made from a value, and the value of a
/// number from that of the number before it: so a run of numbers is gone over one by one.
pub trait PatternBits: Copy {
    ghost is_sound: { Self → Type 0 };

    ghost value_of: { Self → ℕ → ℕ };

    ghost byte_of: { Self → ℕ → ℕ };

    /// The value of a number.
    fn value(&self, number: u64) -> u64
        requires { is_sound self.now }
        ensures { result ≡ value_of self.now number };

    /// The value of the next number, from that of a number.
    fn next(&self, value: u64) -> u64
        requires sound { is_sound self.now }
        requires value { IsValue (value_of self.now) value }
        ensures { (n : ℕ) → value ≡ value_of self.now n → n + 1 < 2 ^ 64 →
            result ≡ value_of self.now (n + 1) };

    /// The byte of a number, from its value.
    fn byte(&self, value: u64) -> u8
        requires sound { is_sound self.now }
        requires value { IsValue (value_of self.now) value }
        ensures { (n : ℕ) → value ≡ value_of self.now n → result ≡ byte_of self.now n };
}

/// What the live tests of a chip load and answer. A test is known by a key, and its bits by their numbers: the cells that are loaded
/// have the numbers of their places in a stimulus, those that are read the numbers of their places in a response.
pub trait Contents {
    /// The bytes of one pattern.
    type Bits: PatternBits + Drop;

    ghost keys: { Self → Keys };

    ghost drive: { Self → ℕ → ℕ → ℕ → Bool };

    ghost mark: { Self → ℕ → ℕ → ℕ → ℕ };

    /// The key of the live test of a name: the one at the place `at` of the module at the place `place` of the chip.
    fn key(&self, place: usize, at: usize, id: TestId) -> u64
        ensures { result ≡ keys self.now place at id };

    /// The digits that a test loads in a pattern, which counts from 1.
    fn stimulus(&self, key: u64, pattern: u64) -> Self::Bits
        requires { IsKey (keys self.now) key }
        ensures sound { Self.Bits.is_sound result }
        ensures bits { (n : ℕ) →
            Self.Bits.byte_of result n ≡ digit (drive self.now key pattern n) };

    /// The bytes that stand where the response of a pattern is read.
    fn response(&self, key: u64, pattern: u64) -> Self::Bits
        requires { IsKey (keys self.now) key }
        ensures sound { Self.Bits.is_sound result }
        ensures bits { (n : ℕ) → Self.Bits.byte_of result n ≡ mark self.now key pattern n };
}
