//! Bottom-up and top-down: steps by the best merge of two buses.
ghost use Rattle.std.specs.Prelude.{◌≡◌, ◌≢◌, ◌-◌, ◌<◌, List, length, MatchOption, IfOk, OnOk};
ghost use Rattle.bus_model.specs.Buses.{BusValue, arch_value};
ghost use Rattle.bus_model.specs.Sound.{IsSoundArch};
ghost use Rattle.arch_settle.specs.Neighbours.{merged, merges, bottom_up_of, top_down_of};
ghost use Rattle.arch_settle.specs.Settling.{IsStep, IsAtRest, IsTaken, Rests};

use crate::merging::merge_buses;
use crate::weighing::{loads_of, merged_cost};
use bus_model::{Arch, bottleneck, cost, quickest};
use outside::NoMemory;
use std::alloc::Global;
use width_table::WidthTable;

/// The bus that a bus is best merged into, where a merge costs less than now: the first with which the whole costs least.
pub(crate) fn best_merge(
    alloc: Global,
    table: &WidthTable,
    arch: &Arch,
    from: usize,
) -> Result<Option<usize>, NoMemory>
    requires sound { IsSoundArch table.now (arch_value arch.now) }
    requires from { from < length (arch_value arch.now) }
    ensures { IfOk result (λ choice. MatchOption choice
        (IsAtRest table.now (merges table.now from (arch_value arch.now)) (arch_value arch.now))
        (λ into. ((into < length (arch_value arch.now)) × (from ≢ into))
        × IsStep table.now (merges table.now from (arch_value arch.now)) (arch_value arch.now)
        (merged table.now (arch_value arch.now) from into))) }
{
    let loads = loads_of(alloc, table, arch)?;
    let mut room = Vec::with_capacity(alloc, loads.len())?;
    let mut least = cost(table, arch);
    let mut choice = None;
    for into in 0..arch.buses.len() {
        if into == from {
            continue;
        }
        let cost = merged_cost(table, arch, from, into, loads.as_slice(), &mut room)?;
        if cost < least {
            least = cost;
            choice = Some(into);
        }
    }
    Ok(choice)
}

/// Merges a bus into the one with which the whole costs least, if that is less than now. Tells whether it did.
fn merge_best(
    alloc: Global,
    table: &WidthTable,
    arch: &mut Arch,
    from: usize,
) -> Result<bool, NoMemory>
    requires sound { IsSoundArch table.now (arch_value arch.old) }
    requires from { from < length (arch_value arch.old) }
    ensures taken { IfOk result
        (λ taken. IsTaken table.now (merges table.now from (arch_value arch.old))
        (arch_value arch.old) (arch_value arch.new) taken) }
    ensures sound { OnOk result (IsSoundArch table.now (arch_value arch.new)) }
{
    match best_merge(alloc, table, arch, from)? {
        None => Ok(false),
        Some(into) => {
            merge_buses(table, arch, from, into)?;
            Ok(true)
        }
    }
}

/// The bottom-up step, where it costs less. Tells whether it was taken.
fn step_up(alloc: Global, table: &WidthTable, arch: &mut Arch) -> Result<bool, NoMemory>
    requires sound { IsSoundArch table.now (arch_value arch.old) }
    ensures taken { IfOk result
        (λ taken. IsTaken table.now (bottom_up_of table.now (arch_value arch.old))
        (arch_value arch.old) (arch_value arch.new) taken) }
    ensures sound { OnOk result (IsSoundArch table.now (arch_value arch.new)) }
{
    if arch.buses.is_empty() {
        return Ok(false);
    }
    let from = quickest(table, arch);
    merge_best(alloc, table, arch, from)
}

/// The top-down step, where it costs less. Tells whether it was taken.
fn step_down(alloc: Global, table: &WidthTable, arch: &mut Arch) -> Result<bool, NoMemory>
    requires sound { IsSoundArch table.now (arch_value arch.old) }
    ensures taken { IfOk result
        (λ taken. IsTaken table.now (top_down_of table.now (arch_value arch.old))
        (arch_value arch.old) (arch_value arch.new) taken) }
    ensures sound { OnOk result (IsSoundArch table.now (arch_value arch.new)) }
{
    match bottleneck(table, arch) {
        None => Ok(false),
        Some(from) => merge_best(alloc, table, arch, from),
    }
}

/// Merges the first bus of least time into another one, each time into the first with which the whole costs least, and
/// again until that would cost no less (bottom-up optimisation).
pub fn bottom_up(alloc: Global, table: &WidthTable, arch: Arch) -> Result<Arch, NoMemory>
    requires { IsSoundArch table.now (arch_value arch) }
    ensures rests { IfOk result
        (λ rested. Rests table.now (bottom_up_of table.now) (arch_value arch) (arch_value rested)) }
    ensures only { IfOk result (λ rested. (other : List BusValue) →
        Rests table.now (bottom_up_of table.now) (arch_value arch) other →
        other ≡ arch_value rested) }
    ensures sound { IfOk result (λ rested. IsSoundArch table.now (arch_value rested)) }
{
    let mut arch = arch;
    while step_up(alloc, table, &mut arch)? {}
    Ok(arch)
}

/// Merges the bottleneck into another bus, each time into the first with which the whole costs least, and again until
/// that would cost no less (top-down optimisation).
pub fn top_down(alloc: Global, table: &WidthTable, arch: Arch) -> Result<Arch, NoMemory>
    requires { IsSoundArch table.now (arch_value arch) }
    ensures rests { IfOk result
        (λ rested. Rests table.now (top_down_of table.now) (arch_value arch) (arch_value rested)) }
    ensures only { IfOk result (λ rested. (other : List BusValue) →
        Rests table.now (top_down_of table.now) (arch_value arch) other →
        other ≡ arch_value rested) }
    ensures sound { IfOk result (λ rested. IsSoundArch table.now (arch_value rested)) }
{
    let mut arch = arch;
    while step_down(alloc, table, &mut arch)? {}
    Ok(arch)
}
