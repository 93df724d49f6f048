//! The room for checking leaves of prices.
ghost use Rattle.std.specs.Prelude.{◌≡◌, ◌+◌, ◌≤◌, length, IfOk};
ghost use Rattle.leaf_bounds.specs.PackLeaves.{CELLS_MOST};

use outside::NoMemory;
use std::alloc::Global;

/// The most cells of a bus.
pub(crate) const PACK_CELLS_MOST: u64 = 4096;
/// The most work of all leaves of prices of a text.
pub(crate) const PACK_WORK_MOST: u64 = 17_179_869_184;

/// Room for what modules are worth on one bus.
#[derive(Drop)]
pub struct BusRoom {
    /// For each number of cells the most that modules are worth there.
    pub cells: Vec<u64>,
    /// The places in the chip of the modules that a leaf prices.
    pub places: Vec<usize>,
}

/// What the buses of one rank are worth, on the widths on which that was worked out.
#[derive(Drop)]
pub struct KeptWorths {
    /// The rank. One that isn't known is of the rest.
    pub rank: usize,
    /// For each number of wires the worth, where it is known.
    pub worths: Vec<Option<u64>>,
}

/// Room for checking leaves of prices.
#[derive(Drop)]
pub struct PackRoom {
    pub bus: BusRoom,
    /// What was worked out for the rank before, which may serve for the next.
    pub kept: KeptWorths,
    /// For each number of wires the most that all buses are worth on so many.
    pub wires: Vec<u128>,
    /// What one bus is worth, by its wires beyond the least.
    pub worth: Vec<u64>,
    /// The work of the leaves so far.
    pub work: u64,
}

impl PackRoom {
    /// Room for leaves over so many wires, each of which prices at most `most` modules. `NoMemory` where memory runs out.
    pub(crate) fn new(alloc: Global, wires: usize, most: usize) -> Result<PackRoom, NoMemory>
        requires { wires ≤ 256 }
        ensures cells { IfOk result (λ room. length room.bus.cells.items ≡ CELLS_MOST + 1) }
        ensures wires { IfOk result (λ room. length room.wires.items ≡ wires + 1) }
        ensures worth { IfOk result (λ room. length room.worth.items ≡ wires + 1) }
        ensures kept { IfOk result (λ room. length room.kept.worths.items ≡ wires + 1) }
        ensures places { IfOk result (λ room. length room.bus.places.items ≡ most) }
        ensures work { IfOk result (λ room. room.work ≡ 0) }
    {
        let cells = Vec::from_elem(alloc, 0, PACK_CELLS_MOST as usize + 1)?;
        let places = Vec::from_elem(alloc, 0, most)?;
        let worth = Vec::from_elem(alloc, 0, wires + 1)?;
        let row = Vec::from_elem(alloc, 0, wires + 1)?;
        let worths = Vec::from_elem(alloc, None, wires + 1)?;
        Ok(PackRoom {
            bus: BusRoom { cells, places },
            kept: KeptWorths { rank: 0, worths },
            wires: row,
            worth,
            work: 0,
        })
    }
}
