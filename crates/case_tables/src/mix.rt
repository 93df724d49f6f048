//! A mix of slots: how long tests are tested where each module is shared out among slots.

use crate::chip::ChipTables;
use outside::NoMemory;
use std::alloc::Global;
use tables::{ONE, filled};

/// A mix, in parts of the cycles that a better plan has at most.
#[derive(Drop)]
pub struct Mix {
    /// For each live test how long it is tested.
    pub on_all: Vec<i64>,
    /// How long a live test is tested on the bus of a known rank, at [rank * tests + test].
    pub on_rank: Vec<i64>,
    /// How many ranks are known.
    pub known: usize,
    /// How much of what there is the mix takes at least, by the weights that go with it.
    pub value: i64,
}

impl Mix {
    /// Room for the mixes of a chip. `NoMemory` where memory runs out.
    pub fn new(alloc: Global, chip: &ChipTables) -> Result<Mix, NoMemory> {
        let room = chip.tests.saturating_mul(chip.wires);
        let on_all = filled(alloc, 0i64, chip.tests)?;
        let on_rank = filled(alloc, 0i64, room)?;
        Ok(Mix {
            on_all,
            on_rank,
            known: 0,
            value: ONE,
        })
    }
}
