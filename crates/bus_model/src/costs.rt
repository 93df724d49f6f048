//! The times of buses, the cost of an architecture, and the first buses of greatest and of least time.
ghost use Rattle.std.specs.Prelude.{◌≡◌, ℕ, ◌+◌, ◌<◌, ◌≤◌, [], length, All, MatchOption};
ghost use Rattle.bus_model.specs.Buses.{bus_value, arch_value, places_time, bus_time_of, cost_of, bottleneck_of, quickest_of};
ghost use Rattle.bus_model.specs.Sound.{IsSoundBus, IsSoundArch, times_listed, due};

use crate::{Arch, ArchBus};
use width_table::WidthTable;

/// The cycles that modules, by their places, take one after another on a bus of `width` wires.
///
/// No place is listed twice, and each has a live test over the wires, so that the sum is at most 10^18.
pub fn time_at(table: &WidthTable, places: &[usize], width: u64) -> u64
    requires listed { (p : ℕ) → times_listed p places.now ≤ due table.now p }
    requires some { 1 ≤ width }
    requires width { width ≤ table.now.wires }
    ensures { result ≡ places_time table.now width places.now }
{
    // the call tells what every table keeps
    let _wires = table.wires();
    let mut sum = 0;
    for place in places {
        sum += table.time(*place, width);
    }
    sum
}

/// The time of a bus of a sound architecture in cycles: that of its modules one after another, each at the bus's width.
pub fn bus_time(table: &WidthTable, bus: &ArchBus) -> u64
    requires { IsSoundBus table.now (bus_value bus.now) }
    ensures { result ≡ bus_time_of table.now (bus_value bus.now) }
{
    time_at(table, bus.places.as_slice(), bus.width)
}

/// The cost of an architecture in cycles: the time of its slowest bus, 0 without buses.
pub fn cost(table: &WidthTable, arch: &Arch) -> u64
    requires { IsSoundArch table.now (arch_value arch.now) }
    ensures { result ≡ cost_of table.now (arch_value arch.now) }
{
    let mut most: u64 = 0;
    for bus in &arch.buses {
        most = most.max(bus_time(table, bus));
    }
    most
}

/// The bottleneck: the place of the first bus of greatest time. There is none exactly where there is no bus.
pub fn bottleneck(table: &WidthTable, arch: &Arch) -> Option<usize>
    requires { IsSoundArch table.now (arch_value arch.now) }
    ensures { MatchOption result (arch_value arch.now ≡ [])
        (λ at. (at < length (arch_value arch.now))
        × (at ≡ bottleneck_of table.now (arch_value arch.now))) }
{
    let count = arch.buses.len();
    if count == 0 {
        return None;
    }
    let mut at = 0;
    let mut most = bus_time(table, &arch.buses[0]);
    for i in 1..count {
        let time = bus_time(table, &arch.buses[i]);
        if most < time {
            at = i;
            most = time;
        }
    }
    Some(at)
}

/// The place of the first bus of least time, where there is a bus.
pub fn quickest(table: &WidthTable, arch: &Arch) -> usize
    requires buses { All (IsSoundBus table.now) (arch_value arch.now) }
    requires some { 0 < length (arch_value arch.now) }
    ensures value { result ≡ quickest_of table.now (arch_value arch.now) }
    ensures within { result < length (arch_value arch.now) }
{
    let mut at = 0;
    let mut least = bus_time(table, &arch.buses[0]);
    for i in 1..arch.buses.len() {
        let time = bus_time(table, &arch.buses[i]);
        if time < least {
            at = i;
            least = time;
        }
    }
    at
}
