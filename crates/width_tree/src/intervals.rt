//! The widths that the buses of modules may have.
ghost use Rattle.std.specs.Prelude.{◌≡◌, length, replicate};

/// The least and the greatest width of the bus of a module, in wires.
#[derive(Clone, Copy)]
pub struct Interval {
    pub low: u64,
    pub high: u64,
}

/// The case of the root: the bus of each module has from 1 to all wires.
pub fn fill_root(widths: &mut [Interval], wires: u64)
    ensures { widths.new ≡ replicate (length widths.old) (record { low = 1; high = wires }) }
{
    widths.fill(Interval {
        low: 1,
        high: wires,
    });
}
