//! The wrappers that are taken for all modules of a chip.
ghost use Rattle.std.specs.Prelude.{◌^◌, ◌≤◌};
ghost use Rattle.soc_model.specs.Chips.{module_value, soc_value};
ghost use Rattle.soc_model.specs.SoundChips.{IsSoundChip};
ghost use Rattle.plan_model.specs.Listing.{module_size};

use crate::choices::{NO_CHOICE, PackedChoice, PackedChoices, choices_of};
use outside::{NoMemory, push};
use soc_model::{Module, Soc, module_at};
use std::alloc::Global;

/// The work of a chip's dealings together, in scan chains that are looked at for a wrapper chain. Each module has an even share of
/// what the ones before it leave.
const WORK_MOST: u64 = 1 << 25;

/// The wrappers that are taken for a module.
#[derive(Drop)]
pub(crate) struct PackedRow {
    scan: PackedChoices,
    terminals: PackedChoices,
}

impl PackedRow {
    /// The wrapper that is taken for a mode at a width.
    fn at(&self, scan: bool, width: u64) -> PackedChoice {
        if scan {
            self.scan.at(width)
        } else {
            self.terminals.at(width)
        }
    }
}

/// The wrapper that is taken for a mode of the module at a place at a width; `NO_CHOICE` where there is none.
pub(crate) fn choice_in(rows: &[PackedRow], place: usize, scan: bool, width: u64) -> PackedChoice {
    if place < rows.len() {
        rows[place].at(scan, width)
    } else {
        NO_CHOICE
    }
}

/// The wrappers for a module, by some work, and the work that is left.
fn row_of(
    alloc: Global,
    module: &Module,
    wires: u64,
    work: u64,
) -> Result<(PackedRow, u64), NoMemory>
    requires small { module_size (module_value «module».now) ≤ 10 ^ 18 }
    requires few { wires ≤ 256 }
{
    let (scan, work) = choices_of(alloc, module, true, wires, work)?;
    let (terminals, work) = choices_of(alloc, module, false, wires, work)?;
    Ok((PackedRow { scan, terminals }, work))
}

/// The wrappers for all modules of a chip on 1 to `wires` wires. `NoMemory` where memory runs out.
pub(crate) fn rows_of(alloc: Global, soc: &Soc, wires: u64) -> Result<Vec<PackedRow>, NoMemory>
    requires sound { IsSoundChip (soc_value soc.now) }
    requires few { wires ≤ 256 }
{
    let modules = soc.modules.len();
    let mut rows = Vec::new(alloc);
    let mut left = WORK_MOST;
    for place in 0..modules {
        let share = left / ((modules - place) as u64).max(1);
        let (row, work) = row_of(alloc, module_at(soc, place), wires, share)?;
        push(&mut rows, row)?;
        left = left.saturating_sub(share).saturating_add(work);
    }
    Ok(rows)
}
