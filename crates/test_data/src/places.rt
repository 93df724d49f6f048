//! Where the bit words of test data stand in its text.
ghost use Rattle.std.specs.Prelude.{◌≡◌};
ghost use Rattle.test_data.specs.DataPlaces.{bytes_in};
ghost use Rattle.test_data.specs.DataWords.{bit_of as the_bit};

use crate::DataBit;
use soc_model::TestId;

/// Where the bits of a word stand: so many bytes from a place on. The word `-` has none.
#[derive(Clone, Copy, Drop)]
pub struct BitPlace {
    pub at: u32,
    pub count: u32,
}

/// Where the two words of a pattern stand.
#[derive(Clone, Copy, Drop)]
pub struct PatternPlaces {
    pub load: BitPlace,
    pub unload: BitPlace,
}

/// What was read of a test.
#[derive(Drop)]
pub struct TestEntry {
    pub test: TestId,
    pub patterns: Vec<PatternPlaces>,
}

/// The bits of a pattern, a byte for each; [`bit_of`] says which bit a byte stands for.
#[derive(Clone, Copy, Drop)]
pub struct PatternWords<'a> {
    /// Those of the stimulus: of the input cells, and then of the scan chains by chain and place.
    pub load: &'a [u8],
    /// Those of the response: of the scan chains by chain and place, and then of the output cells.
    pub unload: &'a [u8],
}

/// The bit that a byte of a bit word stands for.
#[inline]
pub fn bit_of(byte: u8) -> DataBit
    ensures { result ≡ the_bit byte }
{
    if byte == b'0' {
        return DataBit::Zero;
    }
    if byte == b'1' {
        return DataBit::One;
    }
    DataBit::Any
}

/// The bytes of a word, those of them that the text has.
pub fn bytes_of(bytes: &[u8], place: BitPlace) -> &[u8]
    ensures { result.now ≡ bytes_in bytes.now place }
{
    let from = (place.at as usize).min(bytes.len());
    let (_, rest) = bytes.split_at(from);
    let count = (place.count as usize).min(rest.len());
    let (word, _) = rest.split_at(count);
    word
}
