//! Pieces that are put into a text of a fixed length.
ghost use Rattle.std.specs.Prelude.{◌≡◌, ◌+◌, ◌≤◌, length, map};
ghost use Rattle.cycle_texts.specs.Rows.{IsPutAt};
ghost use Rattle.tester_forms.specs.Pieces.{letter_of as the_letter};

/// A byte for each thing that may be compared on a wire.
#[derive(Clone, Copy)]
pub struct Letters {
    /// For a wire on which a 0 is compared, `0`.
    pub zero: u8,
    /// For one on which a 1 is compared, `1`.
    pub one: u8,
    /// For one on which nothing is compared, `-`.
    pub none: u8,
}

/// The letter for what is compared on a wire.
fn letter_of(letters: Letters, mark: u8) -> u8
    ensures { result ≡ the_letter letters mark }
{
    if mark == b'0' {
        return letters.zero;
    }
    if mark == b'1' {
        letters.one
    } else {
        letters.none
    }
}

/// Puts bytes into a text, from the byte `at` on, and answers where they end.
pub fn put_piece(text: &mut [u8], at: usize, piece: &[u8]) -> usize
    requires { at + length piece.now ≤ length text.old }
    ensures { IsPutAt at piece.now result text.old text.new }
{
    let end = at + piece.len();
    text[at..end].copy_from_slice(piece);
    end
}

/// Puts the letters for what is compared on wires into a text, from the byte `at` on, and answers where they end.
pub fn put_letters(letters: Letters, compared: &[u8], text: &mut [u8], at: usize) -> usize
    requires { at + length compared.now ≤ length text.old }
    ensures { IsPutAt at (map (the_letter letters) compared.now) result text.old text.new }
{
    for (done, mark) in compared.iter().enumerate() {
        text[at + done] = letter_of(letters, *mark);
    }
    at + compared.len()
}
