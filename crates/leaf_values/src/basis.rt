//! What all leaves of a proof ask.

use crate::power_lists::add_first_lists;
use crate::power_uses::PowerUses;
use crate::slots::Slots;
use case_tables::{ChipTables, Lists};
use outside::{NoMemory, both};
use std::alloc::Global;

/// What all leaves of a proof ask: the chip with its slots, and the lists of tests.
#[derive(Drop)]
pub struct LeafBasis {
    /// The tables of the chip.
    pub chip: ChipTables,
    /// The widths at which times fall.
    pub slots: Slots,
    /// What tests use of the lists of power.
    pub powers: PowerUses,
    /// The lists so far.
    pub lists: Lists,
}

/// The first lists, and what their tests use of them.
fn power_tables(alloc: Global, chip: &ChipTables) -> Result<(Lists, PowerUses), NoMemory> {
    let lists = power_lists(alloc, chip)?;
    let powers = PowerUses::new(alloc, chip, &lists);
    both(Ok(lists), powers)
}

/// The first lists, which are those of power.
fn power_lists(alloc: Global, chip: &ChipTables) -> Result<Lists, NoMemory> {
    let mut lists = Lists::new(alloc, chip)?;
    add_first_lists(alloc, chip, &mut lists)?;
    Ok(lists)
}

impl LeafBasis {
    /// What leaves ask of a chip: its lists are those of power. `NoMemory` where memory runs out.
    pub fn new(alloc: Global, chip: ChipTables) -> Result<LeafBasis, NoMemory> {
        let made = both(Slots::new(alloc, &chip), power_tables(alloc, &chip));
        let (chip, (slots, (lists, powers))) = both(Ok(chip), made)?;
        Ok(LeafBasis {
            chip,
            slots,
            powers,
            lists,
        })
    }
}
