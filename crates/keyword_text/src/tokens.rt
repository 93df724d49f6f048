//! The words of a text, as what they stand for.
ghost use Rattle.std.specs.Prelude.{◌≡◌};
ghost use Rattle.outside.specs.Words.{same_letters};
ghost use Rattle.keyword_text.specs.Tokens.{named, table_value, lexicon_of, token_of as token_that_is};

use outside::{number, same_word};

/// What a word stands for.
#[derive(Clone, Copy, PartialEq, Eq, Debug)]
pub enum Token<K> {
    /// A keyword.
    Key(K),
    /// A number.
    Number(u64),
}

/// A keyword and how it is spelled.
pub struct Spelled<K> {
    /// The keyword.
    pub key: K,
    /// Its spelling, which is read in any case of its letters.
    pub word: &'static [u8],
}

/// Whether a word is spelled so, in any case of its letters. Most words of a text that are spelled otherwise have another length.
#[inline(always)]
fn is_spelled(word: &[u8], spelling: &[u8]) -> bool
    ensures { result ≡ same_letters word.now spelling.now }
{
    word.len() == spelling.len() && same_word(word, spelling)
}

/// The keyword that a word is, in any case of its letters: the first of the table that is spelled so.
fn keyword_of<K: Copy>(table: &[Spelled<K>], word: &[u8]) -> Option<K>
    ensures { result ≡ named (table_value table.now) word.now }
{
    for entry in table {
        if is_spelled(word, entry.word) {
            return Some(entry.key);
        }
    }
    None
}

/// What a word stands for: a number of at most `most`, or a keyword of the table.
#[tactic(auto, unfolding(crate::specs::Tokens::token_of))]
pub fn token_of<K: Copy>(table: &[Spelled<K>], most: u64, word: &[u8]) -> Option<Token<K>>
    ensures { result ≡ token_that_is (lexicon_of (table_value table.now) most) word.now }
{
    if let Some(n) = number(word, most) {
        return Some(Token::Number(n));
    }
    match keyword_of(table, word) {
        Some(key) => Some(Token::Key(key)),
        None => None,
    }
}
