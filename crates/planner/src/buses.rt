//! The buses of a plan: those of the settled start, by the numbers of their modules.
ghost use Rattle.std.specs.Prelude.{◌≡◌, ◌<◌, List, length, All, IfOk, map};
ghost use Rattle.soc_model.specs.Chips.{soc_value};
ghost use Rattle.plan_model.specs.Plans.{BusValue};
ghost use Rattle.plan_model.specs.Views.{bus_value};
ghost use Rattle.bus_model.specs.Buses.{BusValue as ArchBusValue, arch_value, bus_value as arch_bus_value};
ghost use Rattle.planner.specs.Wrapping.{HaveWidths};
ghost use Rattle.planner.specs.Buses.{number_at, plan_bus, plan_buses, AreSettledBuses};

use arch_settle::settle;
use bus_model::{Arch, ArchBus, start_solution};
use outside::{NoMemory, push};
use plan_model::Bus;
use soc_model::{Soc, module_at};
use std::alloc::Global;
use width_table::WidthTable;

/// The number of the module at a place.
fn number_of(soc: &Soc, place: usize) -> u64
    requires { place < length (soc_value soc.now).modules }
    ensures { result ≡ number_at (soc_value soc.now) place }
{
    module_at(soc, place).number
}

/// A bus of an architecture, by the numbers of its modules.
fn bus_of(alloc: Global, soc: &Soc, bus: &ArchBus) -> Result<Bus, NoMemory>
    requires { All (λ p. p < length (soc_value soc.now).modules) bus.now.places.items }
    ensures { IfOk result
        (λ named. bus_value named ≡ plan_bus (soc_value soc.now) (arch_bus_value bus.now)) }
{
    let mut modules = Vec::new(alloc);
    for place in &bus.places {
        push(&mut modules, number_of(soc, *place))?;
    }
    Ok(Bus {
        width: bus.width,
        modules,
    })
}

/// The buses of an architecture in its order, by the numbers of their modules.
fn buses_of(alloc: Global, soc: &Soc, arch: &Arch) -> Result<Vec<Bus>, NoMemory>
    requires { All
        (λ (bus : ArchBusValue). All (λ p. p < length (soc_value soc.now).modules) bus.places)
        (arch_value arch.now) }
    ensures { IfOk result (λ buses. map bus_value buses.items
        ≡ plan_buses (soc_value soc.now) (arch_value arch.now)) }
{
    let mut buses = Vec::new(alloc);
    for bus in &arch.buses {
        push(&mut buses, bus_of(alloc, soc, bus)?)?;
    }
    Ok(buses)
}

/// The buses of a plan: those of the architecture to which the start solution settles, by the numbers of their modules.
pub fn settled_buses(alloc: Global, soc: &Soc, table: &WidthTable) -> Result<Vec<Bus>, NoMemory>
    requires { table.now.soc ≡ soc_value soc.now }
    ensures settled { IfOk result (λ buses. AreSettledBuses table.now (map bus_value buses.items)) }
    ensures widths { IfOk result (λ buses. HaveWidths table.now (map bus_value buses.items)) }
    ensures only { IfOk result (λ buses. (other : List BusValue) → AreSettledBuses table.now other →
        other ≡ map bus_value buses.items) }
{
    // the call tells what every table keeps
    let _wires = table.wires();
    let start = start_solution(alloc, table)?;
    let settled = settle(alloc, table, start)?;
    let buses = buses_of(alloc, soc, &settled)?;
    Ok(buses)
}
