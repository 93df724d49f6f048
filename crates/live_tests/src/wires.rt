//! The wires of the buses of a plan: the first bus has the first ones, and each other bus those that come next.
ghost use Rattle.std.specs.Prelude.{◌≡◌, ◌+◌, ◌^◌, ◌<◌, sum, IfOk};
ghost use Rattle.plan_model.specs.Plans.{widths};
ghost use Rattle.plan_model.specs.Views.{plan_value};
ghost use Rattle.live_tests.specs.Wires.{AreFirstWires};

use outside::{NoMemory, push};
use plan_model::Plan;
use std::alloc::Global;

/// The wire that comes `width` wires after another.
fn wire_after(wire: u64, width: u64) -> Result<u64, NoMemory>
    ensures { IfOk result (λ after. after ≡ wire + width) }
{
    match wire.checked_add(width) {
        Some(after) => Ok(after),
        None => Err(NoMemory),
    }
}

/// The first wire of each bus of a plan, counted from 0, and behind them the number of all wires: a bus has the wires from its own
/// first one on up to the next entry. `NoMemory` where memory runs out, or where all wires are more than a machine's number
/// counts.
pub fn first_wires(alloc: Global, plan: &Plan) -> Result<Vec<u64>, NoMemory>
    ensures { IfOk result (λ wires. AreFirstWires (widths (plan_value plan.now)) wires.items) }
{
    let mut wires = Vec::new(alloc);
    let mut wire = 0;
    push(&mut wires, wire)?;
    for bus in &plan.buses {
        wire = wire_after(wire, bus.width)?;
        push(&mut wires, wire)?;
    }
    Ok(wires)
}

/// The number of the wires of all buses of a plan.
pub fn all_wires(plan: &Plan) -> u64
    requires { sum (widths (plan_value plan.now)) < 2 ^ 64 }
    ensures { result ≡ sum (widths (plan_value plan.now)) }
{
    let mut wires = 0;
    for bus in &plan.buses {
        wires += bus.width;
    }
    wires
}
