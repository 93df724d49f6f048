//! A list of bits, 64 in a word.
ghost use Rattle.std.specs.Prelude.{◌≡◌, ◌≢◌, ℕ, ◌<◌, false, length, get_or, replicate, set, IfOk};
ghost use Rattle.bit_machine.specs.Packed.{is_set};

use outside::NoMemory;
use std::alloc::Global;
use std::marker::Model;

/// The bits of a word.
pub const WORD_BITS: usize = 64;

/// A list of bits. They lie in words of 64, the first one lowest.
#[derive(Drop)]
pub struct Bits {
    words: Vec<u64>,
    count: usize,
}

impl Model for Bits {
    ghost use Rattle.std.specs.Prelude.{◌*◌, ◌≤◌, Bool, List, length};
    ghost use Rattle.bit_machine.specs.Packed.{packed};

    ghost Value = { List Bool };

    ghost view = { λ b. packed b.words.items b.count };

    ghost invariant = { λ b. b.count ≤ 64 * length b.words.items };
}

/// Whether a bit of a word is set.
pub fn is_set(word: u64, place: usize) -> bool
    requires { place < 64 }
    ensures { result ≡ is_set word place }
{
    (word >> place) & 1 == 1
}

/// The word with one bit written.
pub fn with_bit(word: u64, place: usize, bit: bool) -> u64
    requires { place < 64 }
    ensures here { is_set result place ≡ bit }
    ensures others { (i : ℕ) → i < 64 → i ≢ place → is_set result i ≡ is_set word i }
{
    let mask = 1u64 << place;
    if bit { word | mask } else { word & !mask }
}

/// `count` words without a bit.
fn zero_words(alloc: Global, count: usize) -> Result<Vec<u64>, NoMemory>
    ensures { IfOk result (λ words. words.items ≡ replicate count 0) }
{
    Ok(vec![in alloc; 0u64; count]?)
}

impl Bits {
    /// `count` bits 0.
    pub fn zeros(alloc: Global, count: usize) -> Result<Bits, NoMemory>
        ensures { IfOk result (λ bits. bits ≡ replicate count false) }
    {
        let words = zero_words(alloc, count.div_ceil(WORD_BITS))?;
        Ok(Bits { words, count })
    }

    /// The number of bits.
    pub fn len(&self) -> usize
        ensures { result ≡ length self.now }
    {
        self.count
    }

    /// The bit at a place.
    pub fn bit(&self, place: usize) -> bool
        requires { place < length self.now }
        ensures { result ≡ get_or self.now place false }
    {
        is_set(self.words[place / WORD_BITS], place % WORD_BITS)
    }

    /// Writes the bit at a place.
    pub fn put(&mut self, place: usize, bit: bool)
        requires { place < length self.old }
        ensures { self.new ≡ set self.old place bit }
    {
        let word = self.words[place / WORD_BITS];
        self.words[place / WORD_BITS] = with_bit(word, place % WORD_BITS, bit);
    }
}
