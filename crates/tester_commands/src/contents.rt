//! The contents that test data says, as the vectors' lines take them.
ghost use Rattle.std.specs.Prelude.{◌≡◌, get_or, map, option_map, slice_get};
ghost use Rattle.test_data.specs.declared.DataBit.TheVariants.{Any};
ghost use Rattle.test_data.specs.DataPlaces.{bits_value};
ghost use Rattle.test_data.specs.DataWords.{bit_of as the_bit};
ghost use Rattle.tester_commands.specs.DataContents.{byte_for as the_byte, entry_place, numbered, word_byte};

use soc_model::TestId;
use test_data::{DataBit, PatternWords, TestData, bit_of};
use vector_lines::{Contents, PatternBits};

/// What is driven for a bit that may be any.
const DRIVEN: u8 = b'0';

/// What stands where a bit that may be any is read: it isn't compared.
const MASKED: u8 = b'-';

/// The byte for a bit, with `any` for one that may be any.
fn byte_for(bit: DataBit, any: u8) -> u8
    ensures { result ≡ the_byte any bit }
{
    match bit {
        DataBit::Zero => b'0',
        DataBit::One => b'1',
        DataBit::Any => any,
    }
}

/// The byte for the bit of a number in a word. A bit that the word doesn't have may be any.
fn byte_at(bits: &[u8], any: u8, number: u64) -> u8
    ensures { result ≡ word_byte any (map the_bit bits.now) number }
{
    let place = number as usize;
    if place >= bits.len() {
        return any;
    }
    byte_for(bit_of(bits[place]), any)
}

/// The bytes for the bits of a word of test data, by the numbers of the bits: `0`, `1`, and `any` for a bit that may be any.
#[derive(Clone, Copy, Drop)]
pub struct WordBytes<'a> {
    bits: &'a [u8],
    any: u8,
}

impl<'a> PatternBits for WordBytes<'a> {
    ghost use Rattle.std.specs.Prelude.{map};
    ghost use Rattle.test_data.specs.DataWords.{bit_of as the_bit};
    ghost use Rattle.tester_commands.specs.DataContents.{word_byte};

    ghost is_sound = { λ w. Unit {0} };

    ghost value_of = { λ w n. n };

    ghost byte_of = { λ w n. word_byte w.any (map the_bit w.bits.now) n };

    fn value(&self, number: u64) -> u64 {
        number
    }

    fn next(&self, value: u64) -> u64 {
        value + 1
    }

    fn byte(&self, value: u64) -> u8 {
        byte_at(self.bits, self.any, value)
    }
}

/// The words of a pattern, which counts from 1, of the entry at a place. None comes exactly where there is no such pattern.
fn pattern_words<'a>(test_data: &'a TestData, place: u64, pattern: u64) -> Option<PatternWords<'a>>
    ensures { option_map bits_value result ≡ numbered (slice_get test_data.now place) pattern }
{
    if pattern == 0 {
        return None;
    }
    test_data.pattern(place as usize, (pattern - 1) as usize)
}

/// The contents that test data says: a test is known by the place of its entry. Where the data has `x` or nothing, a driven bit is 0
/// and nothing is compared.
#[derive(Clone, Copy, Drop)]
pub struct DataContents<'a> {
    /// The data.
    pub test_data: &'a TestData,
}

impl<'a> Contents for DataContents<'a> {
    type Bits = WordBytes<'a>;

    ghost use Rattle.tester_commands.specs.DataContents.{data_drive, data_keys, data_mark};

    ghost keys = { λ c. data_keys c.test_data.now };

    ghost drive = { λ c. data_drive c.test_data.now };

    ghost mark = { λ c. data_mark c.test_data.now };

    fn key(&self, _place: usize, _at: usize, id: TestId) -> u64 {
        match self.test_data.place(id) {
            Some(place) => place as u64,
            None => self.test_data.len() as u64,
        }
    }

    fn stimulus(&self, key: u64, pattern: u64) -> WordBytes<'a> {
        match pattern_words(self.test_data, key, pattern) {
            Some(words) => WordBytes {
                bits: words.load,
                any: DRIVEN,
            },
            None => WordBytes {
                bits: &[],
                any: DRIVEN,
            },
        }
    }

    fn response(&self, key: u64, pattern: u64) -> WordBytes<'a> {
        match pattern_words(self.test_data, key, pattern) {
            Some(words) => WordBytes {
                bits: words.unload,
                any: MASKED,
            },
            None => WordBytes {
                bits: &[],
                any: MASKED,
            },
        }
    }
}
