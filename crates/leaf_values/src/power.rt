//! How much of a Power list a test uses.

use case_tables::ChipTables;
use tables::item_or;

/// A power as it counts where one that is `near` to all of the limit counts for all, and one below `near` for nothing.
pub(crate) fn counted(limit: u64, near: u64, power: u64) -> u64 {
    if limit.saturating_sub(near) < power {
        return limit;
    }
    if power < near {
        return 0;
    }
    power
}

/// What a power draws in `cycles` cycles.
fn energy(power: u64, cycles: u64) -> u128 {
    u128::from(power).wrapping_mul(u128::from(cycles))
}

/// The cycle before which a step of a profile ends, where the steps up to `end` are of that profile.
fn end_of(chip: &ChipTables, step: usize, end: usize) -> u64 {
    let next = step.saturating_add(1);
    if next < end {
        item_or(&chip.step_from, next, u64::MAX)
    } else {
        u64::MAX
    }
}

/// What the steps of a profile from `first` up to `end` draw in `time` cycles, as it counts.
fn energy_of_steps(chip: &ChipTables, near: u64, first: usize, end: usize, time: u64) -> u128 {
    let mut sum: u128 = 0;
    for step in first..end {
        let from = item_or(&chip.step_from, step, u64::MAX);
        if from >= time {
            break;
        }
        let cycles = end_of(chip, step, end).min(time).saturating_sub(from);
        let power = counted(chip.limit, near, item_or(&chip.step_power, step, 0));
        sum = sum.saturating_add(energy(power, cycles));
    }
    sum
}

/// The use of the list `Power near` by a test that takes `time` cycles.
pub(crate) fn power_use(chip: &ChipTables, near: u64, test: usize, time: u64) -> u64 {
    let first = item_or(&chip.steps_first, test, 0);
    let end = item_or(&chip.steps_first, test.saturating_add(1), 0);
    let energy = if first < end {
        energy_of_steps(chip, near, first, end, time)
    } else {
        energy(counted(chip.limit, near, item_or(&chip.own, test, 0)), time)
    };
    let whole = energy.checked_div(u128::from(chip.limit)).unwrap_or(0);
    u64::try_from(whole).unwrap_or(u64::MAX)
}
