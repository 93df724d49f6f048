//! Reads the text of a chip, after the files of the ITC'02 SOC Test Benchmarks.
#![tactic(auto)]

ghost use Rattle.std.specs.Prelude.{◌≡◌, ℕ, List, IfOk, IfErr};
ghost use Rattle.soc_model.specs.declared.SocLimit.{SocLimit};
ghost use Rattle.soc_model.specs.Chips.{SocValue, soc_value};
ghost use Rattle.soc_model.specs.SoundChips.{IsSoundChip};
ghost use Rattle.soc_reader.specs.ChipForm.{SaysChip};
ghost use Rattle.soc_reader.specs.Refusals.{IsRefusedLine, IsTooLarge, Refuses, HasAnswer};

mod build;
mod collect;
mod kept;
mod keys;
mod lexicon;
mod marks;
mod reader;
mod totals;
mod whole;

use outside::Unread;
use soc_model::{Soc, Which, check_size};
use std::alloc::Global;
use thiserror::Error;
use whole::read_chip;

/// Why a text was not read.
#[derive(Debug, Drop, Error)]
pub enum SocFault {
    /// No chip is written so: the line of the first word with which no text of a chip begins, or else the line on which
    /// the text ends too early, or else the line of the first total that does not agree.
    #[error("line {line} of the chip's text: no chip is written so")]
    Text { line: u64 },
    /// The text says a chip that is too large: the first limit that it passes, and the number that passes it.
    #[error("the chip passes the limit on {which:?} with {value}")]
    Limit { which: Which, value: u128 },
    /// There was no memory for the chip.
    #[error("out of memory while the chip's text was read")]
    NoMemory,
}

/// The chip that a text says.
///
/// A text is a list of items, each behind the module or test that it speaks of. Modules and tests stand in the order of
/// their first mention, and what the text leaves out has its default. `Text` comes exactly where the words are no such
/// list or a total does not agree, and `Limit` exactly where the text says a chip that `check_size` refuses: a text has
/// only one of these answers.
pub fn read_soc(alloc: Global, bytes: &[u8]) -> Result<Soc, SocFault>
    ensures read { IfOk result (λ soc. SaysChip bytes.now (soc_value soc)) }
    ensures sound { IfOk result (λ soc. IsSoundChip (soc_value soc)) }
    ensures refused { IfErr result (Refuses bytes.now) }
{
    let soc = match read_chip(alloc, bytes) {
        Ok(soc) => soc,
        Err(Unread::Refused { line }) => return Err(SocFault::Text { line }),
        Err(Unread::NoMemory) => return Err(SocFault::NoMemory),
    };
    match check_size(&soc) {
        Ok(()) => Ok(soc),
        Err(limit) => Err(SocFault::Limit {
            which: limit.which,
            value: limit.value,
        }),
    }
}

/// A text has one answer: it says at most one chip, is refused at most at one line, passes at most one limit first, and
/// only one of these.
pub fn texts_have_one_answer()
    ensures chip { (bytes : List ℕ) (a b : SocValue) → SaysChip bytes a → SaysChip bytes b → a ≡ b }
    ensures line { (bytes : List ℕ) (m n : ℕ) → IsRefusedLine bytes m → IsRefusedLine bytes n →
        m ≡ n }
    ensures limit { (bytes : List ℕ) (a b : SocLimit) → IsTooLarge bytes a → IsTooLarge bytes b →
        a ≡ b }
    ensures chip_or_line { (bytes : List ℕ) (soc : SocValue) (line : ℕ) → SaysChip bytes soc →
        IsRefusedLine bytes line → ⊥ }
    ensures chip_or_limit { (bytes : List ℕ) (soc : SocValue) (limit : SocLimit) →
        SaysChip bytes soc → IsTooLarge bytes limit → ⊥ }
    ensures limit_or_line { (bytes : List ℕ) (limit : SocLimit) (line : ℕ) →
        IsTooLarge bytes limit → IsRefusedLine bytes line → ⊥ }
{}

/// Each text has an answer: it says a chip, or is refused at a line, or passes a limit.
pub fn each_text_has_an_answer()
    ensures { (bytes : List ℕ) → HasAnswer bytes }
{}
