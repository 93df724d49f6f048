//! The wiring of a plan: its buses, and the wrappers of the modules on them.
ghost use Rattle.std.specs.Prelude.{IfOk};
ghost use Rattle.planner.specs.Wirings.{IsWiring};

use crate::buses::settled_buses;
use crate::wrappers::table_wrappers;
use live_tests::Problem;
use outside::NoMemory;
use plan_model::{Bus, Wrapper};
use std::alloc::Global;
use width_table::WidthTable;

/// The buses of a plan, and the wrappers of the modules on them.
#[derive(Drop)]
pub(crate) struct Wiring {
    pub(crate) buses: Vec<Bus>,
    pub(crate) wrappers: Vec<Wrapper>,
}

/// The buses of the settled start, with the wrappers of the width table at their widths.
pub(crate) fn wiring_of(alloc: Global, problem: &Problem<'_>) -> Result<Wiring, NoMemory>
    ensures { IfOk result (λ wiring. IsWiring problem.now.soc problem.now.limits wiring) }
{
    let table = WidthTable::new(alloc, problem.soc, problem.limits.wires)?;
    let buses = settled_buses(alloc, problem.soc, &table)?;
    let wrappers = table_wrappers(alloc, problem.soc, &table, &buses)?;
    Ok(Wiring { buses, wrappers })
}
