//! A change of buses: the wires and the modules of two buses are dealt again.
ghost use Rattle.std.specs.Prelude.{◌<◌, length};
ghost use Rattle.arch_schedule.specs.Buses.{AreBuses, AreAlike, AreTimesOn};

use crate::draws::Draws;
use crate::{Buses, Times};

/// How many modules are on two buses.
fn count_on(buses: &Buses, one: usize, other: usize) -> usize {
    buses
        .slots
        .iter()
        .filter(|slot| **slot == one || **slot == other)
        .count()
}

/// The wires that the first of two buses gets: by even chance those that it has, else any number that leaves one to each.
fn drawn_width(buses: &Buses, one: usize, other: usize, draws: &mut Draws) -> u64
    requires buses { AreBuses buses.now }
    requires one { one < length buses.now.widths.items }
    requires other { other < length buses.now.widths.items }
{
    let width = buses.width_of(one);
    let both = width.saturating_add(buses.width_of(other));
    if draws.coin() || both < 2 {
        return width;
    }
    1 + draws.below(both as usize - 1) as u64
}

/// Gives the first of two buses so many of their wires, and the other one the rest.
fn share_wires(buses: &mut Buses, one: usize, other: usize, width: u64)
    requires buses { AreBuses buses.old }
    requires one { one < length buses.old.widths.items }
    requires other { other < length buses.old.widths.items }
    ensures buses { AreBuses buses.new }
    ensures alike { AreAlike buses.old buses.new }
{
    buses.hand_on(other, one);
    let both = buses.widths[one];
    if width < both {
        buses.move_wires(one, other, both - width);
    }
}

/// Deals a module of two buses: it goes to the one that would end earlier with it, three times in four, else to the other.
fn deal_module(
    times: &Times,
    buses: &mut Buses,
    module: usize,
    one: usize,
    other: usize,
    draws: &mut Draws,
)
    requires buses { AreBuses buses.old }
    requires times { AreTimesOn buses.old times.now }
    requires there { «module» < length buses.old.slots.items }
    requires one { one < length buses.old.widths.items }
    requires other { other < length buses.old.widths.items }
    ensures buses { AreBuses buses.new }
    ensures alike { AreAlike buses.old buses.new }
{
    let end = buses.end_with(times, module, one);
    let other_end = buses.end_with(times, module, other);
    if (end <= other_end) == draws.often() {
        buses.put(module, one);
        buses.set_load(one, end);
    } else {
        buses.put(module, other);
        buses.set_load(other, other_end);
    }
}

/// Deals the modules of two buses again, those of the most cycles first.
fn deal_modules_of(times: &Times, buses: &mut Buses, one: usize, other: usize, draws: &mut Draws)
    requires buses { AreBuses buses.old }
    requires times { AreTimesOn buses.old times.now }
    requires one { one < length buses.old.widths.items }
    requires other { other < length buses.old.widths.items }
    ensures buses { AreBuses buses.new }
    ensures alike { AreAlike buses.old buses.new }
{
    let half = buses.half_of(one, other);
    buses.set_load(one, 0);
    buses.set_load(other, 0);
    for module in times.ranked(half) {
        let slot = buses.slot_of(*module);
        if slot == one || slot == other {
            deal_module(times, buses, *module, one, other, draws);
        }
    }
}

/// Deals the modules of two buses again, which have three at least, and by even chance the wires too. A bus that is left without
/// modules gives its wires to the other. Whether anything changed.
pub(crate) fn deal_buses(
    times: &Times,
    buses: &mut Buses,
    one: usize,
    other: usize,
    draws: &mut Draws,
) -> bool
    requires buses { AreBuses buses.old }
    requires times { AreTimesOn buses.old times.now }
    requires one { one < length buses.old.widths.items }
    requires other { other < length buses.old.widths.items }
    ensures buses { AreBuses buses.new }
    ensures alike { AreAlike buses.old buses.new }
{
    if one == other {
        return false;
    }
    let width = drawn_width(buses, one, other, draws);
    if count_on(buses, one, other) < 3 {
        return false;
    }
    share_wires(buses, one, other, width);
    deal_modules_of(times, buses, one, other, draws);
    buses.release(times, one, other);
    buses.release(times, other, one);
    true
}
