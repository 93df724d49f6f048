//! Merging one bus into another.
ghost use Rattle.std.specs.Prelude.{◌≡◌, ◌≢◌, ◌-◌, ◌<◌, length, min, IfOk, OnOk};
ghost use Rattle.bus_model.specs.Buses.{arch_value, bus_at};
ghost use Rattle.bus_model.specs.Sound.{IsSoundArch};
ghost use Rattle.arch_settle.specs.Neighbours.{joined_at, merged};

use bus_model::{Arch, spread};
use outside::{NoMemory, extend};
use width_table::WidthTable;

/// Merges a bus into another and spreads the smaller of their widths.
pub fn merge_buses(
    table: &WidthTable,
    arch: &mut Arch,
    from: usize,
    into: usize,
) -> Result<(), NoMemory>
    requires sound { IsSoundArch table.now (arch_value arch.old) }
    requires from { from < length (arch_value arch.old) }
    requires into { into < length (arch_value arch.old) }
    requires differ { from ≢ into }
    ensures value { OnOk result
        (arch_value arch.new ≡ merged table.now (arch_value arch.old) from into) }
    ensures sound { OnOk result (IsSoundArch table.now (arch_value arch.new)) }
{
    let smaller = join_buses(arch, from, into)?;
    spread(table, arch, smaller);
    Ok(())
}

/// Puts the modules of a bus after those of another, which takes the greater width, and removes the bus. Answers the
/// smaller width, the wires that are free by then.
fn join_buses(arch: &mut Arch, from: usize, into: usize) -> Result<u64, NoMemory>
    requires from { from < length (arch_value arch.old) }
    requires into { into < length (arch_value arch.old) }
    requires differ { from ≢ into }
    ensures value { OnOk result (arch_value arch.new ≡ joined_at (arch_value arch.old) from into) }
    ensures smaller { IfOk result (λ n. n
        ≡ min (bus_at (arch_value arch.old) from).width (bus_at (arch_value arch.old) into).width) }
{
    let gone = arch.buses.remove(from);
    let at = if into < from { into } else { into - 1 };
    let bus = &mut arch.buses[at];
    extend(&mut bus.places, gone.places.as_slice())?;
    let smaller = bus.width.min(gone.width);
    bus.width = bus.width.max(gone.width);
    Ok(smaller)
}
