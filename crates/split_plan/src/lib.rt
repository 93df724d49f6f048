//! Cuts the tests of a chip between their patterns into parts, so that long tests fit into the gaps of a plan. The parts
//! are tests of a chip of their own, under limits of their own.
//!
//! Each pattern of each live test is in exactly one part. Errors are the size limit that the chip of parts passes first, and out
//! of memory.
#![tactic(auto)]

ghost use Rattle.std.specs.Prelude.{◌≡◌, ◌≤◌, IfOk, IfErr};
ghost use Rattle.soc_model.specs.Chips.{soc_value};
ghost use Rattle.soc_model.specs.SoundChips.{IsSoundChip};
ghost use Rattle.plan_model.specs.SoundLimits.{IsSoundLimits};
ghost use Rattle.plan_model.specs.Views.{limits_value};
ghost use Rattle.split_plan.specs.Laws.{AreParts, EachContentInParts, EachPatternOnce, IsRefusal};
ghost use Rattle.split_plan.specs.Parts.{split_chip, split_of, split_value};

mod bounds;
mod chips;
mod cuts;
mod names;
mod numbers;
mod parts;

use chips::cut_chip;
use numbers::check_numbers;
use outside::NoMemory;
use parts::list_parts;
use plan_model::Limits;
use soc_model::{Soc, TestId, Which};
use std::alloc::Global;

/// A part of a live test: a run of its patterns.
#[derive(Clone, Copy, PartialEq, Eq, Debug)]
pub struct Part {
    /// The test, in the chip that is cut.
    pub whole: TestId,
    /// The first pattern of the part, counted from 1 in the test.
    pub first: u64,
    /// The last pattern of the part.
    pub last: u64,
    /// The test that the part is, in the chip of parts.
    pub part: TestId,
}

/// A chip of parts.
#[derive(Drop)]
pub struct Split {
    /// The chip: its modules are those of the chip that is cut, with the parts of their tests, numbered from 1 in each module.
    pub soc: Soc,
    /// The limits of the parts: the parts of a test stand one after another.
    pub limits: Limits,
    /// The parts of live tests, in the order of the chip.
    pub parts: Vec<Part>,
}

/// Why a chip isn't cut.
#[derive(Clone, Copy, PartialEq, Eq, Debug)]
pub enum SplitFault {
    /// The chip of parts passes a limit on the size of a chip, of tests or of work.
    Limit {
        /// The limit.
        which: Which,
        /// The number that passes it.
        value: u128,
    },
    /// A growth of memory was refused.
    NoMemory,
}

/// The chip of parts with its limits, and the list of the parts.
fn made(alloc: Global, soc: &Soc, limits: &Limits, most: u64) -> Result<Split, NoMemory>
    requires chip { IsSoundChip (soc_value soc.now) }
    requires limits { IsSoundLimits (soc_value soc.now) (limits_value limits.now) }
    requires most { 1 ≤ most }
    ensures { IfOk result
        (λ split. split_value split ≡ split_of (soc_value soc.now) (limits_value limits.now) most) }
{
    let cut = cut_chip(alloc, soc, limits, most)?;
    let limits = bounds::limits_of(alloc, limits, cut.cuts.as_slice())?;
    let parts = list_parts(alloc, cut.cuts.as_slice())?;
    Ok(Split {
        soc: cut.soc,
        limits,
        parts,
    })
}

/// Cuts each live test over the wires into parts of `most` patterns, the last of those that are left; any other test is one
/// part. The parts of a test that is cut draw the most that it draws at any cycle, have no profile, and keep their order.
/// Whatever patterns the tests have, the parts can have them: there is a content of the parts for each of the chip.
///
/// `Limit` comes exactly where the chip of parts passes a limit on its size: the first, with its number, which is found before
/// a part is made. Only tests and work can be too many.
pub fn split_soc(alloc: Global, soc: &Soc, limits: &Limits, most: u64) -> Result<Split, SplitFault>
    requires chip { IsSoundChip (soc_value soc.now) }
    requires limits { IsSoundLimits (soc_value soc.now) (limits_value limits.now) }
    requires most { 1 ≤ most }
    ensures parts { IfOk result
        (λ split. split_value split ≡ split_of (soc_value soc.now) (limits_value limits.now) most) }
    ensures sound_chip { IfOk result (λ split. IsSoundChip (soc_value split.soc)) }
    ensures sound_limits { IfOk result
        (λ split. IsSoundLimits (soc_value split.soc) (limits_value split.limits)) }
    ensures once { IfOk result (λ split. EachPatternOnce (soc_value soc.now) split.parts.items) }
    ensures tests { IfOk result
        (λ split. AreParts (soc_value soc.now) (soc_value split.soc) split.parts.items) }
    ensures refused { IfErr result
        (IsRefusal (split_chip (limits_value limits.now) most (soc_value soc.now))) }
    ensures contents { IfOk result (λ split. EachContentInParts split.parts.items) }
{
    check_numbers(soc, most)?;
    match made(alloc, soc, limits, most) {
        Ok(split) => Ok(split),
        Err(NoMemory) => Err(SplitFault::NoMemory),
    }
}
