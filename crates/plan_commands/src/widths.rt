//! The text of `widths`.
ghost use Rattle.std.specs.Prelude.{◌≡◌, ◌++◌, ◌≤◌, ◌<◌, Some, OnOk, IfOk, slice_get};
ghost use Rattle.soc_model.specs.Chips.{soc_value, module_value};
ghost use Rattle.soc_model.specs.SoundChips.{IsSoundChip};
ghost use Rattle.width_table.specs.Tables.{places_of};
ghost use Rattle.plan_commands.specs.WidthsText.{width_line, module_widths, widths_text as whole_text};

use commands::{push_decimal, push_text};
use outside::NoMemory;
use soc_model::{Module, Soc, module_at};
use std::alloc::Global;
use width_table::WidthTable;

/// Appends the line of a module at a width.
fn push_line(text: &mut Vec<u8>, number: u64, width: u64, cycles: u64) -> Result<(), NoMemory>
    ensures { OnOk result (text.new.items ≡ text.old.items ++ width_line number width cycles) }
{
    push_text(text, b"module ")?;
    push_decimal(text, u128::from(number))?;
    push_text(text, b" width ")?;
    push_decimal(text, u128::from(width))?;
    push_text(text, b" time ")?;
    push_decimal(text, u128::from(cycles))?;
    push_text(text, b"\n")
}

/// Appends the lines of the module at a place, one for each width of the table. There is none where the module has no
/// live test over the wires.
fn push_module(
    text: &mut Vec<u8>,
    table: &WidthTable<'_>,
    module: &Module,
    place: usize,
) -> Result<(), NoMemory>
    requires place { place < places_of table.now }
    requires module { slice_get table.now.soc.modules place ≡ Some (module_value «module».now) }
    ensures { OnOk result (text.new.items
        ≡ text.old.items ++ module_widths table.now.wires (module_value «module».now)) }
{
    if !table.has_tam_test(place) {
        return Ok(());
    }
    for width in 1..table.wires() + 1 {
        push_line(text, module.number, width, table.time(place, width))?;
    }
    Ok(())
}

/// The text of `widths`: for each module with a live test over the wires, in the order of the chip, and each width from
/// 1 to `wires`, the cycles that its tests over the wires take on that width.
pub fn widths_text(alloc: Global, soc: &Soc, wires: u64) -> Result<Vec<u8>, NoMemory>
    requires sound { IsSoundChip (soc_value soc.now) }
    requires some { 1 ≤ wires }
    requires few { wires ≤ 256 }
    ensures { IfOk result (λ text. text.items ≡ whole_text (soc_value soc.now) wires) }
{
    let table = WidthTable::new(alloc, soc, wires)?;
    let mut text = Vec::new(alloc);
    for place in 0..table.places() {
        push_module(&mut text, &table, module_at(soc, place), place)?;
    }
    Ok(text)
}
