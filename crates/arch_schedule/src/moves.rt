//! Changes of buses: a module moves, two buses merge.
ghost use Rattle.std.specs.Prelude.{◌<◌, length};
ghost use Rattle.arch_schedule.specs.Buses.{AreBuses, AreAlike, AreTimesOn};

use crate::{Buses, Times};

/// Moves a module to the bus of a slot. Where its own bus is empty then, the wires go with it. Whether anything changed.
pub(crate) fn move_module(times: &Times, buses: &mut Buses, module: usize, to: usize) -> bool
    requires buses { AreBuses buses.old }
    requires times { AreTimesOn buses.old times.now }
    requires there { «module» < length buses.old.slots.items }
    requires to { to < length buses.old.widths.items }
    ensures buses { AreBuses buses.new }
    ensures alike { AreAlike buses.old buses.new }
{
    let from = buses.slot_of(module);
    if from == to {
        return false;
    }
    buses.put(module, to);
    buses.release(times, from, to);
    buses.reload(times, from);
    buses.reload(times, to);
    true
}

/// Puts all modules of one slot on the bus of another.
pub(crate) fn put_all(buses: &mut Buses, from: usize, to: usize)
    requires buses { AreBuses buses.old }
    requires to { to < length buses.old.widths.items }
    ensures buses { AreBuses buses.new }
    ensures alike { AreAlike buses.old buses.new }
{
    for module in 0..buses.slots.len() {
        if buses.slots[module] == from {
            buses.put(module, to);
        }
    }
}

/// Merges the bus of one slot into that of another, with its wires. Whether anything changed.
pub(crate) fn merge_buses(times: &Times, buses: &mut Buses, from: usize, to: usize) -> bool
    requires buses { AreBuses buses.old }
    requires times { AreTimesOn buses.old times.now }
    requires from { from < length buses.old.widths.items }
    requires to { to < length buses.old.widths.items }
    ensures buses { AreBuses buses.new }
    ensures alike { AreAlike buses.old buses.new }
{
    if from == to {
        return false;
    }
    put_all(buses, from, to);
    buses.hand_on(from, to);
    buses.reload(times, from);
    buses.reload(times, to);
    true
}
