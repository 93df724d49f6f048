//! Where the next word of a text stands, and whether it is all bits.
ghost use Rattle.std.specs.Prelude.{◌≡◌, ◌+◌, ◌<◌, ◌≤◌, ◌^◌, ℕ, List, ◌∷◌, [], false, true, drop, take, length, MatchOption};
ghost use Rattle.std.specs.List.{list_all};
ghost use Rattle.outside.specs.Words.{words_left};
ghost use Rattle.test_data.specs.DataWords.{is_bit as is_one};
ghost use Rattle.test_data.specs.DataPlaces.{IsNextWord};

use outside::{gap_before_word, word_len};

/// A word of a text.
#[derive(Clone, Copy)]
pub struct WordSpot {
    /// The place of its first byte.
    pub from: usize,
    /// Its bytes, at least one.
    pub len: usize,
    /// Whether each of them is a bit.
    pub all_bits: bool,
    /// Its line: 1 more than the line feeds before it in the text.
    pub line: u64,
}

/// Whether a byte of a word is a bit.
fn is_bit(byte: u8) -> bool
    ensures { result ≡ is_one byte }
{
    byte == b'0' || byte == b'1' || byte == b'X' || byte == b'x'
}

/// How many bits stand at the front.
fn bits_ahead(bytes: &[u8]) -> usize
    ensures within { result ≤ length bytes.now }
    ensures bits { list_all is_one (take result bytes.now) ≡ true }
    ensures next { (b : ℕ) (rest : List ℕ) → drop result bytes.now ≡ b ∷ rest → is_one b ≡ false }
{
    let mut at = 0usize;
    while at < bytes.len() && is_bit(bytes[at]) {
        at += 1;
    }
    at
}

/// The next word of a text of which the bytes before a place were read, where there is one; `line` is the line of that place.
pub fn next_spot(bytes: &[u8], place: usize, line: u64) -> Option<WordSpot>
    requires within { place ≤ length bytes.now }
    requires small { line + length (drop place bytes.now) < 2 ^ 64 }
    ensures { MatchOption result (words_left line (drop place bytes.now) ≡ [])
        (IsNextWord bytes.now place line) }
{
    let (_, left) = bytes.split_at(place);
    let (gap, line) = gap_before_word(left, line);
    let (_, word) = left.split_at(gap);
    let bits = bits_ahead(word);
    let (_, behind) = word.split_at(bits);
    let others = word_len(behind);
    if bits + others == 0 {
        return None;
    }
    Some(WordSpot {
        from: place + gap,
        len: bits + others,
        all_bits: others == 0,
        line,
    })
}
