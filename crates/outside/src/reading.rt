//! Reads whole texts, word by word.
ghost use Rattle.std.specs.Prelude.{◌≡◌, ◌≤◌, ℕ, List, [], length};
ghost use Rattle.outside.specs.Words.{Word as ReadWord};
ghost use Rattle.outside.specs.Grammars.{Steps, Ends, IsRead};

use crate::NoMemory;
use crate::words::{Word, Words, end_line};
use std::alloc::AllocFailed;

/// Why a reader stopped.
#[derive(Clone, Copy, PartialEq, Eq, Debug)]
pub enum Stop {
    /// No text goes on with this word, or none ends here.
    Refused,
    /// There was no memory.
    NoMemory,
}

impl From<NoMemory> for Stop {
    ghost use Rattle.outside.specs.declared.reading.Stop.TheVariants.{NoMemory};

    ghost from_gives = { λ _ stop. stop ≡ NoMemory };

    fn from(_want: NoMemory) -> Stop {
        Stop::NoMemory
    }
}

impl<T: Drop> From<AllocFailed<T>> for Stop {
    ghost use Rattle.outside.specs.declared.reading.Stop.TheVariants.{NoMemory};

    ghost from_gives = { λ _ stop. stop ≡ NoMemory };

    fn from(_failed: AllocFailed<T>) -> Stop {
        Stop::NoMemory
    }
}

/// Why a text was not read.
#[derive(Clone, Copy, PartialEq, Eq, Debug)]
pub enum Unread {
    /// The grammar refuses it at this line: that of the first word with which no text goes on, or the last line where
    /// the text ends too early.
    Refused { line: u64 },
    /// There was no memory.
    NoMemory,
}

/// Reads the words of a text one by one, and makes at its end the value that they say.
///
/// It has a grammar, the set of whole lists of words, and the most words of a text for which it answers. Its meaning is
/// what it has read so far.
pub trait Reader<'a>: Sized {
    /// What a whole text says.
    type Value;

    /// The words are a whole list.
    ghost whole: { List ReadWord → Type 0 };

    /// The most words of a text.
    ghost most: { ℕ };

    /// The reader has read these words.
    ghost has_read: { Self → List ReadWord → Type 0 };

    /// The words say the value.
    ghost says: { List ReadWord → Self.Value → Type 0 };

    /// Reads the next word. `Refused` comes only where no whole list begins with the words up to it.
    fn step(self, word: Word<'a>) -> Result<Self, Stop>
        requires { (front : List ReadWord) × has_read self front }
        ensures { (front : List ReadWord) → length front ≤ most → has_read self front →
            Steps whole has_read front (word.entry.bytes.now, word.entry.line) result };

    /// Ends the text. `Refused` comes only where its words are no whole list.
    fn end(self) -> Result<Self::Value, Stop>
        requires { (words : List ReadWord) × has_read self words }
        ensures { (words : List ReadWord) → length words ≤ most → has_read self words →
            Ends whole says words result };
}

/// Reads a text by a reader that has read nothing yet.
///
/// `Refused` comes exactly where the grammar refuses the text, at the refused line.
pub fn read_text<'a, R: Reader<'a> + Drop>(start: R, bytes: &'a [u8]) -> Result<R::Value, Unread>
    requires fresh { R.has_read start [] }
    requires few { length bytes.now ≤ R.most }
    ensures { IsRead R.whole R.says bytes.now result }
{
    let mut reader = start;
    let mut words = Words::new(bytes);
    while let Some(word) = words.next() {
        let line = word.line;
        reader = match reader.step(word) {
            Ok(next) => next,
            Err(Stop::Refused) => return Err(Unread::Refused { line }),
            Err(Stop::NoMemory) => return Err(Unread::NoMemory),
        };
    }
    match reader.end() {
        Ok(value) => Ok(value),
        Err(Stop::Refused) => Err(Unread::Refused {
            line: end_line(bytes),
        }),
        Err(Stop::NoMemory) => Err(Unread::NoMemory),
    }
}
