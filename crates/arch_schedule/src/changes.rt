//! One change of buses, drawn at random.
ghost use Rattle.std.specs.Prelude.{◌<◌, length};
ghost use Rattle.std.specs.List.{All};
ghost use Rattle.arch_schedule.specs.Buses.{AreBuses, AreAlike, AreTimesOn};
ghost use Rattle.arch_schedule.specs.Dealing.{IsTaken};

use crate::dealing::{DealtModule, deal_modules};
use crate::draws::Draws;
use crate::kinds::{ChangeKind, drawn_kind};
use crate::moves::{merge_buses, move_module};
use crate::pairs::deal_buses;
use crate::splits::split_bus;
use crate::{Buses, Times};

/// The first module of a change: a given one, or by even chance the next one on the late bus, where there is one.
fn first_module(buses: &Buses, any: usize, late: Option<usize>, draws: &mut Draws) -> usize
    requires { any < length buses.now.slots.items }
    ensures { result < length buses.now.slots.items }
{
    let Some(slot) = late else {
        return any;
    };
    if draws.coin() {
        return buses.next_on(any, slot);
    }
    any
}

/// Draws a change of the buses and makes it, where it can be made. By even chance it begins at the late bus, where one is given.
/// Whether anything changed.
pub fn change_buses(
    times: &Times,
    buses: &mut Buses,
    taken: &mut Vec<DealtModule>,
    late: Option<usize>,
    draws: &mut Draws,
) -> bool
    requires buses { AreBuses buses.old }
    requires times { AreTimesOn buses.old times.now }
    requires taken { All (IsTaken (length buses.old.widths.items) (length buses.old.slots.items))
        taken.old.items }
    ensures buses { AreBuses buses.new }
    ensures alike { AreAlike buses.old buses.new }
    ensures taken { All (IsTaken (length buses.old.widths.items) (length buses.old.slots.items))
        taken.new.items }
{
    let modules = buses.slots.len();
    if modules == 0 {
        return false;
    }
    let kind = drawn_kind(draws);
    let any = draws.below(modules);
    let other = draws.below(modules);
    let one = first_module(buses, any, late, draws);
    let from = buses.slot_of(one);
    let to = buses.slot_of(other);
    match kind {
        ChangeKind::Move => move_module(times, buses, one, to),
        ChangeKind::Merge => merge_buses(times, buses, from, to),
        ChangeKind::Split => split_bus(times, buses, one, draws),
        ChangeKind::DealModules => deal_modules(times, buses, taken, one, draws),
        ChangeKind::DealBuses => deal_buses(times, buses, from, to, draws),
    }
}
