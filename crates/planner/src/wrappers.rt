//! The wrappers of a plan: those of the width table at the widths of its buses.
ghost use Rattle.std.specs.Prelude.{◌≡◌, ◌++◌, ◌<◌, ℕ, Bool, List, length, Some, slice_get, true, IfOk, OnOk, map};
ghost use Rattle.soc_model.specs.Chips.{ModuleValue, soc_value};
ghost use Rattle.plan_model.specs.Plans.{bus_place as the_bus_place};
ghost use Rattle.plan_model.specs.Rules.{used_pairs, mode_pair};
ghost use Rattle.soc_model.specs.Modes.{uses_mode};
ghost use Rattle.plan_model.specs.Views.{bus_value, wrapper_value};
ghost use Rattle.live_tests.specs.Index.{AreBusPlaces};
ghost use Rattle.planner.specs.Wrapping.{bus_width, HaveWidths, AreUsedModes, AreTableWrappers};

use indexmap::IndexMap;
use live_tests::{bus_place, buses_by_module};
use outside::{NoMemory, push};
use plan_model::{Bus, Wrapper, bus_of};
use soc_model::{Soc, module_at, uses_mode};
use std::alloc::Global;
use width_table::WidthTable;

/// A mode of a module that a live test over the wires is in.
#[derive(Clone, Copy, Drop)]
struct UsedMode {
    /// The place of the module in the chip.
    place: usize,
    /// Mode `scan`, or else mode `terminals`.
    scan: bool,
    /// The wires of the module's bus.
    width: u64,
}

/// The wires of the first bus that lists a module, 0 where none does.
pub fn width_of(buses: &[Bus], number: u64) -> u64
    ensures { result ≡ bus_width (map bus_value buses.now) number }
{
    width_at(buses, bus_of(buses, number))
}

/// The wires of the bus at a place, 0 where none stands there.
fn width_at(buses: &[Bus], place: usize) -> u64
    ensures { (number : ℕ) → place ≡ the_bus_place number 0 (map bus_value buses.now) →
        result ≡ bus_width (map bus_value buses.now) number }
{
    if place < buses.len() {
        buses[place].width
    } else {
        0
    }
}

/// Adds a mode of a module, where it is used. The places of buses are those of the modules on them.
fn push_mode(
    soc: &Soc,
    buses: &[Bus],
    places: &IndexMap<u64, usize>,
    place: usize,
    scan: bool,
    to: &mut Vec<UsedMode>,
) -> Result<(), NoMemory>
    requires place { place < length (soc_value soc.now).modules }
    requires places { AreBusPlaces places.now.entries (map bus_value buses.now) }
    ensures { OnOk result ((core : ModuleValue) (pairs : List (ℕ × Bool)) →
        slice_get (soc_value soc.now).modules place ≡ Some core →
        AreUsedModes (soc_value soc.now) (map bus_value buses.now) pairs to.old.items →
        AreUsedModes (soc_value soc.now) (map bus_value buses.now) (pairs ++ mode_pair scan core)
        to.new.items) }
{
    let module = module_at(soc, place);
    if !uses_mode(module, scan) {
        return Ok(());
    }
    let width = width_at(buses, bus_place(buses, places, module.number));
    push(to, UsedMode { place, scan, width })?;
    Ok(())
}

/// The modes that are used, of all modules in their order, scan before terminals. The places of buses are those of the
/// modules on them.
fn modes_at(
    alloc: Global,
    soc: &Soc,
    buses: &[Bus],
    places: &IndexMap<u64, usize>,
) -> Result<Vec<UsedMode>, NoMemory>
    requires { AreBusPlaces places.now.entries (map bus_value buses.now) }
    ensures { IfOk result (λ modes. AreUsedModes (soc_value soc.now) (map bus_value buses.now)
        (used_pairs (soc_value soc.now)) modes.items) }
{
    let mut modes = Vec::new(alloc);
    for place in 0..soc.modules.len() {
        push_mode(soc, buses, places, place, true, &mut modes)?;
        push_mode(soc, buses, places, place, false, &mut modes)?;
    }
    Ok(modes)
}

/// The modes that are used, of all modules in their order, scan before terminals.
fn used_modes(alloc: Global, soc: &Soc, buses: &[Bus]) -> Result<Vec<UsedMode>, NoMemory>
    ensures { IfOk result (λ modes. AreUsedModes (soc_value soc.now) (map bus_value buses.now)
        (used_pairs (soc_value soc.now)) modes.items) }
{
    let places = buses_by_module(alloc, buses)?;
    let modes = modes_at(alloc, soc, buses, &places);
    drop(places);
    modes
}

/// The wrappers of a plan: for each module and mode that is used, in the order of the chip and scan before terminals, that
/// of the width table at the width of the module's bus.
pub fn table_wrappers(
    alloc: Global,
    soc: &Soc,
    table: &WidthTable,
    buses: &[Bus],
) -> Result<Vec<Wrapper>, NoMemory>
    requires chip { table.now.soc ≡ soc_value soc.now }
    requires widths { HaveWidths table.now (map bus_value buses.now) }
    ensures { IfOk result (λ wrappers. AreTableWrappers (soc_value soc.now)
        (map bus_value buses.now) (map wrapper_value wrappers.items)) }
{
    let modes = used_modes(alloc, soc, buses)?;
    let mut wrappers = Vec::new(alloc);
    for mode in &modes {
        let wrapper = table.wrapper(alloc, mode.place, mode.scan, mode.width)?;
        push(&mut wrappers, wrapper)?;
    }
    Ok(wrappers)
}
