//! A format of texts: its keywords, its numbers, and what reads its words one by one.
ghost use Rattle.std.specs.Prelude.{◌≡◌};
ghost use Rattle.outside.specs.declared.reading.Unread.{Unread as WhyUnread};
ghost use Rattle.keyword_text.specs.Tokens.{table_value};
ghost use Rattle.keyword_text.specs.Texts.{Grammar};
ghost use Rattle.keyword_text.specs.Machines.{Machine};
ghost use Rattle.keyword_text.specs.Reads.{Makes};

use crate::tokens::{Spelled, Token};
use outside::{Stop, Unread};

/// What was read of a text of a format, up to some word of it.
///
/// A format is a set of values with the words of each, and a machine that reads these words.
pub trait Format: Sized {
    /// The keywords.
    type Keyword: Copy + 'static;

    /// What a whole text says.
    type Value;

    /// Why a text isn't read.
    type Fault;

    /// What stands for what was read.
    ghost State: { Type 0 };

    /// What stands for the value of a text.
    ghost Meaning: { Type 0 };

    /// What the words of a text stand for, and what texts say.
    ghost grammar: { Grammar Self.Keyword Meaning };

    /// What reads the words.
    ghost machine: { Machine Self.Keyword State Meaning };

    /// What stands for a reader.
    ghost state_of: { Self → State };

    /// What stands for a value.
    ghost meaning_of: { Self.Value → Meaning };

    /// What stands for a fault.
    ghost unread_of: { Self.Fault → WhyUnread };

    /// The keywords with their spellings.
    fn keywords() -> &'static [Spelled<Self::Keyword>]
        ensures { table_value result.now ≡ grammar.lexicon.table };

    /// The greatest number.
    fn most() -> u64
        ensures { result ≡ grammar.lexicon.most };

    /// Reads the next word. `Refused` comes exactly where no text goes on so.
    fn step(self, token: Token<Self::Keyword>) -> Result<Self, Stop>
        ensures { Makes state_of (machine.step (state_of self) token) result };

    /// Ends the text. `Refused` comes exactly where no text ends here.
    fn end(self) -> Result<Self::Value, Stop>
        ensures { Makes meaning_of (machine.end (state_of self)) result };

    /// The fault of a text that isn't read.
    fn fault(unread: Unread) -> Self::Fault
        ensures { unread_of result ≡ unread };
}
