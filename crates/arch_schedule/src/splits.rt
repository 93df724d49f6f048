//! A change of buses: a bus is split.
ghost use Rattle.std.specs.Prelude.{◌<◌, length};
ghost use Rattle.arch_schedule.specs.Buses.{AreBuses, AreAlike, AreTimesOn};

use crate::draws::Draws;
use crate::moves::put_all;
use crate::{Buses, Times};

/// Moves a module from the bus of one slot to that of another, and each other module of that bus by even chance. Whether one stays.
fn part(buses: &mut Buses, module: usize, from: usize, to: usize, draws: &mut Draws) -> bool
    requires buses { AreBuses buses.old }
    requires to { to < length buses.old.widths.items }
    ensures buses { AreBuses buses.new }
    ensures alike { AreAlike buses.old buses.new }
{
    let mut stays = false;
    for other in 0..buses.slots.len() {
        if buses.slots[other] == from {
            if other == module || draws.coin() {
                buses.put(other, to);
            } else {
                stays = true;
            }
        }
    }
    stays
}

/// Splits the bus of a module that has two wires at least: some of them go to an unused slot, with the module and each other one
/// by even chance, where one stays. Whether anything changed.
pub(crate) fn split_bus(times: &Times, buses: &mut Buses, module: usize, draws: &mut Draws) -> bool
    requires buses { AreBuses buses.old }
    requires times { AreTimesOn buses.old times.now }
    requires there { «module» < length buses.old.slots.items }
    ensures buses { AreBuses buses.new }
    ensures alike { AreAlike buses.old buses.new }
{
    let from = buses.slot_of(module);
    let width = buses.widths[from];
    if width < 2 {
        return false;
    }
    let wires = 1 + draws.below(width as usize - 1) as u64;
    let Some(to) = buses.unused() else {
        return false;
    };
    buses.move_wires(from, to, wires);
    if !part(buses, module, from, to, draws) {
        put_all(buses, to, from);
        buses.hand_on(to, from);
        return false;
    }
    buses.reload(times, from);
    buses.reload(times, to);
    true
}
