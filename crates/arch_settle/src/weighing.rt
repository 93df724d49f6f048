//! What a merge would cost, from the widths and times of the buses alone: no candidate is made.
ghost use Rattle.std.specs.Prelude.{◌≡◌, ◌≢◌, ℕ, ◌+◌, ◌-◌, ◌^◌, ◌<◌, ◌≤◌, length, min, max, IfOk, vec_len};
ghost use Rattle.std.specs.List.{IsFirstMaxByKey};
ghost use Rattle.bus_model.specs.Buses.{arch_value, bus_at, places_time, cost_of, spread_of};
ghost use Rattle.bus_model.specs.Sound.{IsSoundArch, wires_used};
ghost use Rattle.arch_settle.specs.Neighbours.{merged};
ghost use Rattle.arch_settle.specs.Loads.{AreLoads, IsHeldIn, held_places, loads_value};

use bus_model::{Arch, bus_time, time_at};
use outside::{NoMemory, extend, push};
use std::alloc::Global;
use width_table::WidthTable;

/// Whose modules a bus of a candidate has: those of one bus, by its place, or of the two that are merged.
#[derive(Clone, Copy)]
pub(crate) enum BusModules {
    One(usize),
    Both,
}

/// A bus of a candidate: whose modules it has, its width in wires and its time in cycles.
#[derive(Clone, Copy)]
pub(crate) struct WeighedBus {
    pub held: BusModules,
    pub width: u64,
    pub time: u64,
}

/// The first load of greatest time.
fn slowest(loads: &[WeighedBus]) -> usize
    requires { 0 < length loads.now }
    ensures { IsFirstMaxByKey (λ load. load.time) loads.now (length loads.now) result }
{
    let mut at = 0;
    let mut most = loads[0].time;
    for i in 1..loads.len() {
        let time = loads[i].time;
        if most < time {
            at = i;
            most = time;
        }
    }
    at
}

/// The time of a bus's modules at a width, in cycles.
fn time_on(table: &WidthTable, arch: &Arch, bus: usize, width: u64) -> u64
    requires sound { IsSoundArch table.now (arch_value arch.now) }
    requires bus { bus < length (arch_value arch.now) }
    requires some { 1 ≤ width }
    requires width { width ≤ table.now.wires }
    ensures value { result ≡ places_time table.now width (bus_at (arch_value arch.now) bus).places }
    ensures bound { result ≤ 10 ^ 18 }
{
    // the call tells what every table keeps
    let _wires = table.wires();
    time_at(table, arch.buses[bus].places.as_slice(), width)
}

/// The time of the modules of a candidate's bus at a width, in cycles.
fn held_time(
    table: &WidthTable,
    arch: &Arch,
    from: usize,
    into: usize,
    held: BusModules,
    width: u64,
) -> u64
    requires sound { IsSoundArch table.now (arch_value arch.now) }
    requires from { from < length (arch_value arch.now) }
    requires into { into < length (arch_value arch.now) }
    requires held { IsHeldIn (arch_value arch.now) held }
    requires some { 1 ≤ width }
    requires width { width ≤ table.now.wires }
    ensures { result
        ≡ places_time table.now width (held_places (arch_value arch.now) from into held) }
{
    match held {
        BusModules::One(bus) => time_on(table, arch, bus, width),
        BusModules::Both => time_on(table, arch, into, width) + time_on(table, arch, from, width),
    }
}

/// Gives the slowest load one wire more.
fn widen_slowest(
    table: &WidthTable,
    arch: &Arch,
    from: usize,
    into: usize,
    loads: &mut Vec<WeighedBus>,
)
    requires sound { IsSoundArch table.now (arch_value arch.now) }
    requires from { from < length (arch_value arch.now) }
    requires into { into < length (arch_value arch.now) }
    requires loads { AreLoads table.now (arch_value arch.now) from into loads.old.items }
    requires some { 0 < vec_len loads.old }
    requires fits { IsSoundArch table.now
        (loads_value (arch_value arch.now) from into loads.old.items) }
    requires free { wires_used (loads_value (arch_value arch.now) from into loads.old.items) + 1
        ≤ table.now.wires }
    ensures value { loads_value (arch_value arch.now) from into loads.new.items
        ≡ spread_of table.now 1 (loads_value (arch_value arch.now) from into loads.old.items) }
    ensures loads { AreLoads table.now (arch_value arch.now) from into loads.new.items }
    ensures count { vec_len loads.new ≡ vec_len loads.old }
    ensures sound { IsSoundArch table.now
        (loads_value (arch_value arch.now) from into loads.new.items) }
    ensures used { wires_used (loads_value (arch_value arch.now) from into loads.new.items)
        ≡ wires_used (loads_value (arch_value arch.now) from into loads.old.items) + 1 }
{
    // the call tells what every table keeps
    let _wires = table.wires();
    let at = slowest(loads.as_slice());
    let load = loads[at];
    let width = load.width + 1;
    let time = held_time(table, arch, from, into, load.held, width);
    loads[at] = WeighedBus {
        held: load.held,
        width,
        time,
    };
}

/// The cost in cycles once `wires` wires are spread over the loads.
fn spread_cost(
    table: &WidthTable,
    arch: &Arch,
    from: usize,
    into: usize,
    loads: &mut Vec<WeighedBus>,
    wires: u64,
) -> u64
    requires sound { IsSoundArch table.now (arch_value arch.now) }
    requires from { from < length (arch_value arch.now) }
    requires into { into < length (arch_value arch.now) }
    requires loads { AreLoads table.now (arch_value arch.now) from into loads.old.items }
    requires some { 0 < vec_len loads.old }
    requires fits { IsSoundArch table.now
        (loads_value (arch_value arch.now) from into loads.old.items) }
    requires free { wires_used (loads_value (arch_value arch.now) from into loads.old.items) + wires
        ≤ table.now.wires }
    ensures { result
        ≡ cost_of table.now (spread_of table.now wires
        (loads_value (arch_value arch.now) from into loads.old.items)) }
{
    for _given in 0..wires {
        widen_slowest(table, arch, from, into, loads);
    }
    let at = slowest(loads.as_slice());
    loads[at].time
}

/// The loads of the buses as they are.
pub(crate) fn loads_of(
    alloc: Global,
    table: &WidthTable,
    arch: &Arch,
) -> Result<Vec<WeighedBus>, NoMemory>
    requires sound { IsSoundArch table.now (arch_value arch.now) }
    ensures value { IfOk result (λ loads. (from into : ℕ) →
        loads_value (arch_value arch.now) from into loads.items ≡ arch_value arch.now) }
    ensures loads { IfOk result (λ loads. (from into : ℕ) →
        AreLoads table.now (arch_value arch.now) from into loads.items) }
{
    let mut loads = Vec::new(alloc);
    for (at, bus) in arch.buses.iter().enumerate() {
        let load = WeighedBus {
            held: BusModules::One(at),
            width: bus.width,
            time: bus_time(table, bus),
        };
        push(&mut loads, load)?;
    }
    Ok(loads)
}

/// The cost in cycles once a bus is merged into another, by the loads of the buses as they are. `room` may hold
/// anything; with room for the loads no memory is taken.
pub(crate) fn merged_cost(
    table: &WidthTable,
    arch: &Arch,
    from: usize,
    into: usize,
    loads: &[WeighedBus],
    room: &mut Vec<WeighedBus>,
) -> Result<u64, NoMemory>
    requires sound { IsSoundArch table.now (arch_value arch.now) }
    requires from { from < length (arch_value arch.now) }
    requires into { into < length (arch_value arch.now) }
    requires differ { from ≢ into }
    requires value { loads_value (arch_value arch.now) from into loads.now ≡ arch_value arch.now }
    requires loads { AreLoads table.now (arch_value arch.now) from into loads.now }
    ensures { IfOk result
        (λ n. n ≡ cost_of table.now (merged table.now (arch_value arch.now) from into)) }
{
    let own = arch.buses[into].width;
    let further = arch.buses[from].width;
    let width = own.max(further);
    let time = held_time(table, arch, from, into, BusModules::Both, width);
    room.clear();
    extend(room, loads)?;
    room[into] = WeighedBus {
        held: BusModules::Both,
        width,
        time,
    };
    let _gone = room.remove(from);
    Ok(spread_cost(table, arch, from, into, room, further.min(own)))
}
