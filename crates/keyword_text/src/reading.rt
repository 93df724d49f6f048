//! Reads whole texts.
ghost use Rattle.std.specs.Prelude.{◌≡◌};
ghost use Rattle.keyword_text.specs.Machines.{ReadsGrammar};
ghost use Rattle.keyword_text.specs.Reads.{IsReadText};

use crate::format::Format;
use crate::tokens::token_of;
use outside::{Reader, Stop, Word, read_text};

/// What was read of a text of a format so far.
#[derive(Drop)]
struct Reading<F> {
    read: F,
}

impl<'a, F: Format + Drop> Reader<'a> for Reading<F> {
    type Value = F::Value;

    ghost use Rattle.std.specs.Prelude.{◌^◌};
    ghost use Rattle.keyword_text.specs.Texts.{InGrammar, IsText};
    ghost use Rattle.keyword_text.specs.Reads.{IsReadBy};

    ghost whole = { InGrammar F.grammar };

    ghost most = { 2 ^ 64 };

    ghost has_read = { λ reading words. IsReadBy F.grammar F.machine (F.state_of reading.read)
        words };

    ghost says = { λ words value. IsText F.grammar words (F.meaning_of value) };

    fn step(self, word: Word<'a>) -> Result<Reading<F>, Stop> {
        let Some(token) = token_of(F::keywords(), F::most(), word.bytes) else {
            return Err(Stop::Refused);
        };
        match self.read.step(token) {
            Ok(read) => Ok(Reading { read }),
            Err(Stop::Refused) => Err(Stop::Refused),
            Err(Stop::NoMemory) => Err(Stop::NoMemory),
        }
    }

    fn end(self) -> Result<F::Value, Stop> {
        self.read.end()
    }
}

/// The value that a text says, read from a beginning on of which nothing was read.
///
/// The fault is `Refused` exactly where the text says none, at the line of the first word with which no text begins so, or at its last line
/// where it ends too early.
pub fn read_by<F: Format + Drop>(start: F, bytes: &[u8]) -> Result<F::Value, F::Fault>
    requires fresh { F.state_of start ≡ F.machine.start }
    requires reads { ReadsGrammar F.grammar F.machine }
    ensures { IsReadText F.grammar F.meaning_of F.unread_of bytes.now result }
{
    match read_text(Reading { read: start }, bytes) {
        Ok(value) => Ok(value),
        Err(unread) => Err(F::fault(unread)),
    }
}
