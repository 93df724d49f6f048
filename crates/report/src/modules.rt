//! The lines of modules.
ghost use Rattle.std.specs.Prelude.{◌≡◌, ◌+◌, ◌-◌, ◌<◌, ◌≤◌, ◌++◌, ◌^◌, Some, slice_get, sum, IfSome, OnOk};
ghost use Rattle.std.specs.List.{sum_by};
ghost use Rattle.soc_model.specs.Chips.{module_value, soc_value};
ghost use Rattle.plan_model.specs.Plans.{widths};
ghost use Rattle.plan_model.specs.Views.{plan_value};
ghost use Rattle.width_table.specs.Tables.{places_of, time_of};
ghost use Rattle.report.specs.ModuleLines.{first_faster as the_first_faster, is_wired_of as the_is_wired_of, line_if_wired, module_lines, module_text, narrow as the_narrow, place_text, wide as the_wide, wide_text, wired_cycles as the_wired_cycles};
ghost use Rattle.report.specs.Totals.{cycles_of as the_cycles};

use crate::entries::push_entry;
use crate::totals::{cycles_of, width_at};
use live_tests::PlacedTest;
use outside::{NoMemory, extend};
use plan_model::{Plan, bus_of};
use soc_model::{Module, Soc, has_tam_test, module_at};
use width_table::WidthTable;

/// Whether a test is one over the wires of the module at a place.
fn is_wired_of(place: usize, test: &PlacedTest) -> bool
    ensures { result ≡ the_is_wired_of place test.now }
{
    test.place == place && test.bus.is_some()
}

/// The cycles of all tests over the wires of the module at a place.
fn wired_cycles(tests: &[PlacedTest], place: usize) -> u64
    requires { the_wired_cycles tests.now place < 2 ^ 64 }
    ensures { result ≡ the_wired_cycles tests.now place }
{
    let mut taken = 0u64;
    for test in tests {
        if is_wired_of(place, test) {
            taken += cycles_of(test);
        }
    }
    taken
}

/// The first of the widths from `from` up to the one before `end` at which the module at a place takes less than `bound` cycles.
fn first_faster(
    table: &WidthTable<'_>,
    place: usize,
    bound: u64,
    from: u64,
    end: u64,
) -> Option<u64>
    requires place { place < places_of table.now }
    requires some { 1 ≤ from }
    requires order { from ≤ end }
    requires within { end ≤ table.now.wires + 1 }
    ensures first { result ≡ the_first_faster (time_of table.now place) bound from (end - from) }
    ensures within { IfSome result (λ width. (from ≤ width) × (width < end)) }
{
    for width in from..end {
        if table.time(place, width) < bound {
            return Some(width);
        }
    }
    None
}

/// The least width up to the bus's at which the module at a place takes no more cycles; that of the bus where there is none.
fn narrow_width(table: &WidthTable<'_>, place: usize, taken: u64, width: u64) -> u64
    requires place { place < places_of table.now }
    requires within { width ≤ table.now.wires }
    requires few { taken ≤ 10 ^ 18 }
    ensures { result ≡ the_narrow (time_of table.now place) taken width }
{
    let _wires = table.wires();
    match first_faster(table, place, taken + 1, 1, width + 1) {
        Some(found) => found,
        None => width,
    }
}

/// The least greater width up to all wires at which the module at a place takes fewer cycles.
fn wider_width(table: &WidthTable<'_>, place: usize, taken: u64, width: u64) -> Option<u64>
    requires place { place < places_of table.now }
    requires within { width ≤ table.now.wires }
    ensures wide { result ≡ the_wide (time_of table.now place) taken width table.now.wires }
    ensures within { IfSome result (λ found. (1 ≤ found) × (found ≤ table.now.wires)) }
{
    let wires = table.wires();
    first_faster(table, place, taken, width + 1, wires + 1)
}

/// Appends a width with the time of the module at a place there, or `- -` where there is none.
fn push_wide(
    text: &mut Vec<u8>,
    table: &WidthTable<'_>,
    place: usize,
    width: Option<u64>,
) -> Result<(), NoMemory>
    requires place { place < places_of table.now }
    requires within { IfSome width (λ found. (1 ≤ found) × (found ≤ table.now.wires)) }
    ensures { OnOk result
        (text.new.items ≡ text.old.items ++ wide_text (time_of table.now place) width) }
{
    match width {
        Some(found) => {
            push_entry(text, b" wide ", found)?;
            push_entry(text, b" ", table.time(place, found))
        }
        None => extend(text, b" wide - -"),
    }
}

/// Appends where a module is tested.
fn push_place(text: &mut Vec<u8>, number: u64, bus: usize, width: u64) -> Result<(), NoMemory>
    ensures { OnOk result (text.new.items ≡ text.old.items ++ place_text number bus width) }
{
    push_entry(text, b"module ", number)?;
    push_entry(text, b" bus ", bus as u64)?;
    push_entry(text, b" width ", width)
}

/// Appends the line of the module at a place, which takes so many cycles on a bus of a width.
#[tactic(auto, unfolding(crate::specs::ModuleLines::module_text))]
fn push_module(
    text: &mut Vec<u8>,
    table: &WidthTable<'_>,
    place: usize,
    number: u64,
    bus: usize,
    width: u64,
    taken: u64,
) -> Result<(), NoMemory>
    requires place { place < places_of table.now }
    requires within { width ≤ table.now.wires }
    requires few { taken ≤ 10 ^ 18 }
    ensures { OnOk result (text.new.items ≡ text.old.items
        ++ module_text number bus width table.now.wires taken (time_of table.now place)) }
{
    push_place(text, number, bus, width)?;
    push_entry(text, b" time ", taken)?;
    push_entry(text, b" narrow ", narrow_width(table, place, taken, width))?;
    push_wide(text, table, place, wider_width(table, place, taken, width))?;
    extend(text, b"\n")
}

/// Appends the line of the module at a place, where it has a test over the wires.
fn push_wired(
    text: &mut Vec<u8>,
    table: &WidthTable<'_>,
    plan: &Plan,
    ws: &[u64],
    tests: &[PlacedTest],
    place: usize,
    module: &Module,
) -> Result<(), NoMemory>
    requires there { slice_get table.now.soc.modules place ≡ Some (module_value «module».now) }
    requires widths { ws.now ≡ widths (plan_value plan.now) }
    requires few { sum ws.now ≤ table.now.wires }
    requires short { sum_by the_cycles tests.now ≤ 10 ^ 18 }
    ensures { OnOk result (text.new.items
        ≡ text.old.items
        ++ line_if_wired table.now.wires (plan_value plan.now) tests.now place
        (module_value «module».now)) }
{
    if !has_tam_test(module) {
        return Ok(());
    }
    let bus = bus_of(&plan.buses, module.number);
    let taken = wired_cycles(tests, place);
    let width = width_at(ws, bus);
    push_module(text, table, place, module.number, bus, width, taken)
}

/// Appends the lines of all modules of a chip that have tests over the wires, in the chip's order. The buses have these widths.
pub fn push_modules(
    text: &mut Vec<u8>,
    soc: &Soc,
    table: &WidthTable<'_>,
    plan: &Plan,
    ws: &[u64],
    tests: &[PlacedTest],
) -> Result<(), NoMemory>
    requires chip { table.now.soc ≡ soc_value soc.now }
    requires widths { ws.now ≡ widths (plan_value plan.now) }
    requires few { sum ws.now ≤ table.now.wires }
    requires short { sum_by the_cycles tests.now ≤ 10 ^ 18 }
    ensures { OnOk result (text.new.items
        ≡ text.old.items
        ++ module_lines table.now.wires (plan_value plan.now) tests.now 0
        (soc_value soc.now).modules) }
{
    for place in 0..table.places() {
        push_wired(text, table, plan, ws, tests, place, module_at(soc, place))?;
    }
    Ok(())
}
