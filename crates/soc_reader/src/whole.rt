//! Reads whole texts.
ghost use Rattle.std.specs.Prelude.{◌≡◌};
ghost use Rattle.soc_reader.specs.Grammar.{InGrammar};
ghost use Rattle.soc_reader.specs.Reads.{SayChip, ChipRead};
ghost use Rattle.outside.specs.Grammars.{IsRead};

use crate::collect::nothing_kept;
use crate::kept::{ItemsSoFar, ReadPart, ReadSoFar, Total};
use crate::reader::{close_text, step_word};
use crate::totals::first_wrong;
use outside::{Reader, Stop, Unread, Word, read_text};
use soc_model::Soc;
use std::alloc::Global;

/// What was read of a chip's text so far. It stands in a box, so that no more than a pointer moves from word to word.
#[derive(Drop)]
struct ChipText<'a> {
    alloc: Global,
    read: Box<ReadSoFar<'a>>,
}

/// The chip that a text says, with its totals.
#[derive(Drop)]
struct ReadChip {
    soc: Soc,
    totals: Vec<Total>,
}

impl<'a> Reader<'a> for ChipText<'a> {
    type Value = ReadChip;

    ghost use Rattle.std.specs.Prelude.{◌^◌};
    ghost use Rattle.soc_reader.specs.Grammar.{InGrammar};
    ghost use Rattle.soc_reader.specs.Reads.{HasRead, SayChip};

    ghost whole = { InGrammar };

    ghost most = { 2 ^ 64 };

    ghost has_read = { HasRead };

    ghost says = { SayChip };

    fn step(self, word: Word<'a>) -> Result<ChipText<'a>, Stop> {
        let ChipText { alloc, mut read } = self;
        let so_far = &mut *read;
        match step_word(alloc, &mut so_far.kept, &mut so_far.part, word) {
            Ok(()) => Ok(ChipText { alloc, read }),
            Err(stop) => Err(stop),
        }
    }

    fn end(self) -> Result<ReadChip, Stop> {
        let ChipText { alloc, read } = self;
        let ReadSoFar { mut kept, part } = Box::into_inner(read);
        match close_text(alloc, &mut kept, part) {
            Ok(()) => Ok(chip_kept(kept)),
            Err(stop) => {
                // dropped by a call, as what failed to be boxed is
                drop(kept);
                Err(stop)
            }
        }
    }
}

/// The chip that is kept, with its totals.
fn chip_kept(kept: ItemsSoFar<'_>) -> ReadChip
    ensures soc { result.soc ≡ kept.entry.draft.soc }
    ensures totals { result.totals ≡ kept.entry.totals }
{
    let ItemsSoFar { draft, totals, .. } = kept;
    ReadChip {
        soc: draft.soc,
        totals,
    }
}

/// The chip of a text, whatever its totals are.
fn read_all(alloc: Global, bytes: &[u8]) -> Result<ReadChip, Unread>
    ensures { IsRead InGrammar SayChip bytes.now result }
{
    let kept = match nothing_kept(alloc, bytes.len()) {
        Ok(kept) => kept,
        Err(_) => return Err(Unread::NoMemory),
    };
    let nothing = ReadSoFar {
        kept,
        part: ReadPart::Between,
    };
    let read = match Box::new(alloc, nothing) {
        Ok(read) => read,
        Err(failed) => {
            // dropped by a call: the end of the scope would drop each of its parts, and be proved for each
            drop(failed);
            return Err(Unread::NoMemory);
        }
    };
    let start = ChipText { alloc, read };
    read_text(start, bytes)
}

/// The chip that a text says, of whatever size.
pub fn read_chip(alloc: Global, bytes: &[u8]) -> Result<Soc, Unread>
    ensures { ChipRead bytes.now result }
{
    let ReadChip { soc, totals } = match read_all(alloc, bytes) {
        Ok(read) => read,
        Err(unread) => return Err(unread),
    };
    match first_wrong(&soc, &totals) {
        Some(line) => Err(Unread::Refused { line }),
        None => Ok(soc),
    }
}
