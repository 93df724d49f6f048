//! Reshuffle, and all three kinds of step in rounds.
ghost use Rattle.std.specs.Prelude.{◌≡◌, ◌<◌, ◌≤◌, List, IfOk, OnOk};
ghost use Rattle.bus_model.specs.Buses.{BusValue, arch_value, cost_of};
ghost use Rattle.bus_model.specs.Sound.{IsSoundArch};
ghost use Rattle.arch_settle.specs.Neighbours.{reshuffle_of};
ghost use Rattle.arch_settle.specs.Settling.{IsTaken, Rests, IsRound, Settles, IsSettled};

use crate::moving::{best_move, make_move};
use crate::steps::{bottom_up, top_down};
use bus_model::{Arch, bottleneck, cost};
use outside::NoMemory;
use std::alloc::Global;
use width_table::WidthTable;

/// The reshuffle step, where it costs less. Tells whether it was taken.
fn step_shuffle(alloc: Global, table: &WidthTable, arch: &mut Arch) -> Result<bool, NoMemory>
    requires sound { IsSoundArch table.now (arch_value arch.old) }
    ensures taken { IfOk result
        (λ taken. IsTaken table.now (reshuffle_of table.now (arch_value arch.old))
        (arch_value arch.old) (arch_value arch.new) taken) }
    ensures sound { OnOk result (IsSoundArch table.now (arch_value arch.new)) }
{
    let Some(bus) = bottleneck(table, arch) else {
        return Ok(false);
    };
    if arch.buses[bus].places.len() < 2 {
        return Ok(false);
    }
    match best_move(alloc, table, arch, bus)? {
        None => Ok(false),
        Some(choice) => {
            make_move(alloc, table, arch, bus, choice)?;
            Ok(true)
        }
    }
}

/// Moves a module of a bottleneck of at least two modules to the end of another bus, or to a new last bus that takes
/// some of the wires. Each time it is the first move with which the whole costs least, and again until that would cost
/// no less.
pub fn reshuffle(alloc: Global, table: &WidthTable, arch: Arch) -> Result<Arch, NoMemory>
    requires { IsSoundArch table.now (arch_value arch) }
    ensures rests { IfOk result
        (λ rested. Rests table.now (reshuffle_of table.now) (arch_value arch) (arch_value rested)) }
    ensures only { IfOk result (λ rested. (other : List BusValue) →
        Rests table.now (reshuffle_of table.now) (arch_value arch) other →
        other ≡ arch_value rested) }
    ensures sound { IfOk result (λ rested. IsSoundArch table.now (arch_value rested)) }
{
    let mut arch = arch;
    while step_shuffle(alloc, table, &mut arch)? {}
    Ok(arch)
}

/// A round: bottom-up, top-down and reshuffle in turn.
fn settle_round(alloc: Global, table: &WidthTable, arch: Arch) -> Result<Arch, NoMemory>
    requires { IsSoundArch table.now (arch_value arch) }
    ensures round { IfOk result (λ next. IsRound table.now (arch_value arch) (arch_value next)) }
    ensures sound { IfOk result (λ next. IsSoundArch table.now (arch_value next)) }
{
    let one = bottom_up(alloc, table, arch)?;
    let two = top_down(alloc, table, one)?;
    reshuffle(alloc, table, two)
}

/// Runs bottom-up, top-down and reshuffle in rounds until a round changes nothing. The answer is settled: no neighbour
/// of the three kinds costs less. It costs at most what was given.
pub fn settle(alloc: Global, table: &WidthTable, arch: Arch) -> Result<Arch, NoMemory>
    requires { IsSoundArch table.now (arch_value arch) }
    ensures settles { IfOk result
        (λ settled. Settles table.now (arch_value arch) (arch_value settled)) }
    ensures only { IfOk result (λ settled. (other : List BusValue) →
        Settles table.now (arch_value arch) other → other ≡ arch_value settled) }
    ensures settled { IfOk result (λ settled. IsSettled table.now (arch_value settled)) }
    ensures cost { IfOk result
        (λ settled. cost_of table.now (arch_value settled) ≤ cost_of table.now (arch_value arch)) }
    ensures sound { IfOk result (λ settled. IsSoundArch table.now (arch_value settled)) }
{
    // a round that leaves the cost takes no step, and so changes nothing
    let mut before = cost(table, &arch);
    let mut arch = settle_round(alloc, table, arch)?;
    let mut after = cost(table, &arch);
    while after < before {
        before = after;
        arch = settle_round(alloc, table, arch)?;
        after = cost(table, &arch);
    }
    Ok(arch)
}
