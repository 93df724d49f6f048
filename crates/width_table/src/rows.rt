//! The rows of a table: the times of each module, and what is taken for its modes.
ghost use Rattle.std.specs.Prelude.{◌≡◌, ◌^◌, ◌≤◌, length, IfOk, true, false, sum_by};
ghost use Rattle.std.specs.List.{filter};
ghost use Rattle.soc_model.specs.Chips.{ModuleValue, module_value, soc_value, is_live};
ghost use Rattle.soc_model.specs.Sizes.{test_work};
ghost use Rattle.soc_model.specs.SoundChips.{IsSoundChip};
ghost use Rattle.plan_model.specs.Listing.{module_size};
ghost use Rattle.width_table.specs.Choices.{AreTimes, AreChoices, AreRows, choices_in};

use crate::choosing::{Choices, choices_of};
use soc_model::{Module, Soc, module_at};
use std::alloc::{AllocError, Global};

/// What is taken of a module at each width. A table has many modules, so a row has no more than is read of it, and a
/// time in one look-up.
#[derive(Drop)]
pub struct ModuleRow {
    /// The cycles of both modes together.
    pub times: Vec<u64>,
    /// The choices for the scan mode.
    pub scan: Choices,
    /// Those for the mode over the terminals alone.
    pub terminals: Choices,
}

impl ModuleRow {
    /// The choices for a mode.
    pub fn choices(&self, scan: bool) -> &Choices
        ensures { result.now ≡ choices_in scan self.now }
    {
        if scan { &self.scan } else { &self.terminals }
    }
}

/// The cycles of two modes together, at each width.
fn cycles_together(
    alloc: Global,
    scan: &Choices,
    terminals: &Choices,
    wires: u64,
) -> Result<Vec<u64>, AllocError>
    requires few { wires ≤ 256 }
    requires choices { (m : ModuleValue)
        × AreChoices m true wires scan.now.taken.items scan.now.places.items
        × AreChoices m false wires terminals.now.taken.items terminals.now.places.items }
    ensures { (m : ModuleValue) →
        AreChoices m true wires scan.now.taken.items scan.now.places.items →
        AreChoices m false wires terminals.now.taken.items terminals.now.places.items →
        IfOk result (λ v. AreTimes m wires v.items) }
{
    let mut times = Vec::with_capacity(alloc, wires as usize)?;
    for width in 1..wires + 1 {
        let time = scan.at(width).cycles + terminals.at(width).cycles;
        times.push(time)?;
    }
    Ok(times)
}

/// The row of a module.
fn row_of(alloc: Global, module: &Module, wires: u64) -> Result<ModuleRow, AllocError>
    requires small { module_size (module_value «module».now) ≤ 10 ^ 18 }
    requires work { sum_by (test_work (module_value «module».now))
        (filter is_live «module».now.tests.items) ≤ 10 ^ 18 }
    requires few { wires ≤ 256 }
    ensures times { IfOk result (λ r. AreTimes (module_value «module».now) wires r.times.items) }
    ensures scan { IfOk result (λ r. AreChoices (module_value «module».now) true wires
        r.scan.taken.items r.scan.places.items) }
    ensures terminals { IfOk result (λ r. AreChoices (module_value «module».now) false wires
        r.terminals.taken.items r.terminals.places.items) }
{
    let scan = choices_of(alloc, module, true, wires)?;
    let terminals = choices_of(alloc, module, false, wires)?;
    let times = cycles_together(alloc, &scan, &terminals, wires)?;
    Ok(ModuleRow {
        times,
        scan,
        terminals,
    })
}

/// The rows of all modules, in their order.
pub fn rows_of(alloc: Global, soc: &Soc, wires: u64) -> Result<Vec<ModuleRow>, AllocError>
    requires sound { IsSoundChip (soc_value soc.now) }
    requires few { wires ≤ 256 }
    ensures as_many { IfOk result (λ v. length v.items ≡ length (soc_value soc.now).modules) }
    ensures rows { IfOk result (λ v. AreRows (soc_value soc.now).modules wires v.items) }
{
    let modules = soc.modules.len();
    let mut rows = Vec::with_capacity(alloc, modules)?;
    for place in 0..modules {
        let row = row_of(alloc, module_at(soc, place), wires)?;
        rows.push(row)?;
    }
    Ok(rows)
}
