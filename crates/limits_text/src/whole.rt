//! Reads the items of a whole text.
ghost use Rattle.limits_text.specs.Grammar.{InGrammar};
ghost use Rattle.limits_text.specs.Reads.{AreItems};
ghost use Rattle.outside.specs.Grammars.{IsRead};

use crate::collect::no_items;
use crate::items::{Items, Part, ReadSoFar};
use crate::reader::{end_text, step_word};
use outside::{Reader, Stop, Unread, Word, read_text};
use soc_model::NUMBER_WORD_MOST;
use std::alloc::Global;

/// What was read of a text of limits so far. It stands in a box, so that no more than a pointer moves from word to word.
#[derive(Drop)]
struct LimitsText {
    alloc: Global,
    read: Box<ReadSoFar>,
}

// In a text of more words the profiles could name every test that there may be, and leave none for the next.
impl<'a> Reader<'a> for LimitsText {
    type Value = Items;

    ghost use Rattle.soc_model.specs.declared.TheConstants.{NUMBER_WORD_MOST};
    ghost use Rattle.limits_text.specs.Grammar.{InGrammar};
    ghost use Rattle.limits_text.specs.Reads.{HasRead, AreItems};

    ghost whole = { InGrammar };

    ghost most = { NUMBER_WORD_MOST };

    ghost has_read = { HasRead };

    ghost says = { AreItems };

    fn step(self, word: Word<'a>) -> Result<LimitsText, Stop> {
        let LimitsText { alloc, mut read } = self;
        let so_far = &mut *read;
        match step_word(alloc, &mut so_far.items, &mut so_far.part, word) {
            Ok(()) => Ok(LimitsText { alloc, read }),
            Err(stop) => Err(stop),
        }
    }

    fn end(self) -> Result<Items, Stop> {
        let ReadSoFar { items, part } = Box::into_inner(self.read);
        end_text(items, part)
    }
}

/// The items of a text. `NoMemory` may come at any call, and comes where the text has 10^12 bytes or more.
pub fn read_items(alloc: Global, bytes: &[u8]) -> Result<Items, Unread>
    ensures { IsRead InGrammar AreItems bytes.now result }
{
    if bytes.len() as u64 > NUMBER_WORD_MOST {
        return Err(Unread::NoMemory);
    }
    let items = match no_items(alloc, bytes.len()) {
        Ok(items) => items,
        Err(_) => return Err(Unread::NoMemory),
    };
    let nothing = ReadSoFar {
        items,
        part: Part::Title,
    };
    let read = match Box::new(alloc, nothing) {
        Ok(read) => read,
        Err(failed) => {
            // dropped by a call: the end of the scope would drop each of its parts, and be proved for each
            drop(failed);
            return Err(Unread::NoMemory);
        }
    };
    read_text(LimitsText { alloc, read }, bytes)
}
