//! The lists of power that a search begins with.

use case_tables::{ChipTables, ListForm, Lists};
use outside::{NoMemory, push};
use std::alloc::Global;
use tables::{filled, item_or};

/// The most thresholds that are lists.
const NEARS_MOST: usize = 14;
/// A threshold is at least one part in `PARTS` of the limit.
const PARTS: u64 = 20;

/// From what power on tests count, so that one of a power leaves no room for another.
fn near_of(limit: u64, power: u64) -> u64 {
    if power.saturating_mul(2) <= limit {
        return power;
    }
    let rest = limit.saturating_sub(power).saturating_add(1);
    rest.min(limit >> 1)
}

/// Adds the threshold of a power, where there is any.
fn note_power(nears: &mut Vec<u64>, limit: u64, power: u64) -> Result<(), NoMemory> {
    let least = limit.checked_div(PARTS).unwrap_or(0).max(1);
    let near = near_of(limit, power);
    if power == 0 || near < least {
        return Ok(());
    }
    push(nears, near)
}

/// Adds the thresholds of some powers.
fn note_powers(nears: &mut Vec<u64>, limit: u64, powers: &[u64]) -> Result<(), NoMemory> {
    for power in powers {
        note_power(nears, limit, *power)?;
    }
    Ok(())
}

/// A sorted list without what is the same as the item before it.
fn without_repeats(alloc: Global, sorted: &[u64]) -> Result<Vec<u64>, NoMemory> {
    let mut once = Vec::new(alloc);
    let mut last = 0;
    for item in sorted {
        if *item != last {
            push(&mut once, *item)?;
        }
        last = *item;
    }
    Ok(once)
}

/// The thresholds of all powers, the least first.
fn all_nears(alloc: Global, chip: &ChipTables) -> Result<Vec<u64>, NoMemory> {
    let mut nears = Vec::new(alloc);
    note_powers(&mut nears, chip.limit, &chip.own)?;
    note_powers(&mut nears, chip.limit, &chip.step_power)?;
    nears.sort_unstable();
    without_repeats(alloc, &nears)
}

/// Adds the lists of some thresholds.
fn add_nears(chip: &ChipTables, nears: &[u64], none: &[u64], lists: &mut Lists) {
    let count = nears.len().min(NEARS_MOST);
    for index in 0..count {
        let scaled = index.saturating_mul(nears.len());
        let place = scaled.checked_div(count).unwrap_or(0);
        let near = item_or(nears, place, 0);
        lists.add(chip, ListForm::Power, near, none);
    }
}

/// Adds lists of power: of all power, and of some thresholds. `NoMemory` where memory runs out.
pub(crate) fn add_first_lists(
    alloc: Global,
    chip: &ChipTables,
    lists: &mut Lists,
) -> Result<(), NoMemory> {
    if chip.limit == 0 {
        return Ok(());
    }
    let none = filled(alloc, 0u64, chip.words)?;
    lists.add(chip, ListForm::Power, 0, &none);
    let nears = all_nears(alloc, chip)?;
    add_nears(chip, &nears, &none, lists);
    Ok(())
}
