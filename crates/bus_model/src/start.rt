//! The start solution.
ghost use Rattle.std.specs.Prelude.{◌≡◌, ℕ, ◌<◌, ◌≤◌, List, length, All, IfOk, OnOk, map};
ghost use Rattle.width_table.specs.Tables.{time_of};
ghost use Rattle.bus_model.specs.Buses.{BusValue, arch_value, quickest_of};
ghost use Rattle.bus_model.specs.Sound.{IsSoundBus, IsSoundArch, times_listed, due};
ghost use Rattle.bus_model.specs.Start.{IsStartOrder, IsStart, one_wire, placed_on_quickest, start_of};

use crate::costs::quickest;
use crate::spreading::spread;
use crate::{Arch, ArchBus};
use outside::{NoMemory, push};
use std::alloc::Global;
use std::cmp::Reverse;
use width_table::WidthTable;

/// The place of each module with a live test over the wires, behind its time on one wire in cycles.
fn start_keys(alloc: Global, table: &WidthTable) -> Result<Vec<(Reverse<u64>, usize)>, NoMemory>
    ensures times { IfOk result
        (λ keys. All (λ key. key.0.0 ≡ time_of table.now key.1 1) keys.items) }
    ensures once { IfOk result
        (λ keys. (p : ℕ) → times_listed p (map (λ key. key.1) keys.items) ≡ due table.now p) }
{
    let mut keys = Vec::new(alloc);
    // the call tells what every table keeps
    let _wires = table.wires();
    for place in 0..table.places() {
        if table.has_tam_test(place) {
            push(&mut keys, (Reverse(table.time(place, 1)), place))?;
        }
    }
    Ok(keys)
}

/// The places of the modules with a live test over the wires, those that take longest on one wire first, ties by place.
fn start_order(alloc: Global, table: &WidthTable) -> Result<Vec<usize>, NoMemory>
    ensures { IfOk result (λ order. IsStartOrder table.now order.items) }
{
    let mut keys = start_keys(alloc, table)?;
    keys.sort_unstable();
    let mut order = Vec::new(alloc);
    for key in &keys {
        push(&mut order, key.1)?;
    }
    Ok(order)
}

/// A bus of one wire for each module, by its place.
fn one_wire_buses(alloc: Global, places: &[usize]) -> Result<Arch, NoMemory>
    ensures { IfOk result (λ arch. arch_value arch ≡ map one_wire places.now) }
{
    let mut buses = Vec::new(alloc);
    for place in places {
        let mut listed = Vec::new(alloc);
        push(&mut listed, *place)?;
        let bus = ArchBus {
            width: 1,
            places: listed,
        };
        push(&mut buses, bus)?;
    }
    Ok(Arch { buses })
}

/// Puts a module at the end of the first bus of least time.
fn put_on_quickest(table: &WidthTable, arch: &mut Arch, place: usize) -> Result<(), NoMemory>
    requires buses { All (IsSoundBus table.now) (arch_value arch.old) }
    requires some { 0 < length (arch_value arch.old) }
    ensures value { OnOk result
        (arch_value arch.new ≡ placed_on_quickest table.now (arch_value arch.old) place) }
    ensures within { quickest_of table.now (arch_value arch.old) < length (arch_value arch.old) }
{
    let at = quickest(table, arch);
    push(&mut arch.buses[at].places, place)?;
    Ok(())
}

/// The start solution of modules for which there are enough wires.
fn roomy_start(alloc: Global, table: &WidthTable, order: &[usize]) -> Result<Arch, NoMemory>
    requires order { IsStartOrder table.now order.now }
    requires room { length order.now ≤ table.now.wires }
    ensures value { IfOk result (λ arch. arch_value arch ≡ start_of table.now order.now) }
    ensures sound { IfOk result (λ arch. IsSoundArch table.now (arch_value arch)) }
{
    let mut arch = one_wire_buses(alloc, order)?;
    if !order.is_empty() {
        spread(table, &mut arch, table.wires() - order.len() as u64);
    }
    Ok(arch)
}

/// The start solution of more modules than wires.
fn crowded_start(alloc: Global, table: &WidthTable, order: &[usize]) -> Result<Arch, NoMemory>
    requires order { IsStartOrder table.now order.now }
    requires room { table.now.wires < length order.now }
    ensures value { IfOk result (λ arch. arch_value arch ≡ start_of table.now order.now) }
    ensures sound { IfOk result (λ arch. IsSoundArch table.now (arch_value arch)) }
{
    let (first, rest) = order.split_at(table.wires() as usize);
    let mut arch = one_wire_buses(alloc, first)?;
    for place in rest {
        put_on_quickest(table, &mut arch, *place)?;
    }
    Ok(arch)
}

/// The start solution (after TR-ARCHITECT, Goel and Marinissen 2002). The modules with a live test over the wires are
/// taken by their times on one wire, longest first, ties by place. Where there are at most as many as wires, each gets a
/// bus of one wire and the wires left are spread. Otherwise the first ones get a bus of one wire each, and each further
/// one goes to the end of the first bus of least time. Without such modules there is no bus. Errs where memory runs out
/// alone.
pub fn start_solution(alloc: Global, table: &WidthTable) -> Result<Arch, NoMemory>
    ensures start { IfOk result (λ arch. IsStart table.now (arch_value arch)) }
    ensures only { IfOk result
        (λ arch. (other : List BusValue) → IsStart table.now other → other ≡ arch_value arch) }
    ensures sound { IfOk result (λ arch. IsSoundArch table.now (arch_value arch)) }
{
    let order = start_order(alloc, table)?;
    if order.len() as u64 <= table.wires() {
        roomy_start(alloc, table, order.as_slice())
    } else {
        crowded_start(alloc, table, order.as_slice())
    }
}
