//! Free wires, given out one after another.
ghost use Rattle.std.specs.Prelude.{◌≡◌, ◌+◌, ◌<◌, ◌≤◌, length};
ghost use Rattle.bus_model.specs.Buses.{arch_value, spread_of};
ghost use Rattle.bus_model.specs.Sound.{IsSoundArch, wires_used};

use crate::Arch;
use crate::costs::bottleneck;
use width_table::WidthTable;

/// Gives the bottleneck one wire more.
fn widen_bottleneck(table: &WidthTable, arch: &mut Arch)
    requires sound { IsSoundArch table.now (arch_value arch.old) }
    requires bus { 0 < length (arch_value arch.old) }
    requires free { wires_used (arch_value arch.old) + 1 ≤ table.now.wires }
    ensures value { arch_value arch.new ≡ spread_of table.now 1 (arch_value arch.old) }
    ensures sound { IsSoundArch table.now (arch_value arch.new) }
    ensures used { wires_used (arch_value arch.new) ≡ wires_used (arch_value arch.old) + 1 }
    ensures count { length (arch_value arch.new) ≡ length (arch_value arch.old) }
{
    // the call tells what every table keeps
    let _wires = table.wires();
    if let Some(at) = bottleneck(table, arch) {
        arch.buses[at].width += 1;
    }
}

/// Gives `wires` free wires to the buses, one after another, each to the bottleneck as it is by then. Takes no memory.
pub fn spread(table: &WidthTable, arch: &mut Arch, wires: u64)
    requires sound { IsSoundArch table.now (arch_value arch.old) }
    requires bus { 0 < wires → 0 < length (arch_value arch.old) }
    requires free { wires_used (arch_value arch.old) + wires ≤ table.now.wires }
    ensures value { arch_value arch.new ≡ spread_of table.now wires (arch_value arch.old) }
    ensures sound { IsSoundArch table.now (arch_value arch.new) }
{
    for _given in 0..wires {
        widen_bottleneck(table, arch);
    }
}
