//! A case as plain tables.

use case_tables::{Case, ChipTables, REST};
use pack_values::PackCase;
use tables::item_or;

/// Sets the times of a module of the chip on each width.
fn set_module(chip: &ChipTables, module: usize, packing: &mut PackCase) {
    for place in 0..chip.wires {
        let width = place.saturating_add(1);
        packing.set_time(module, width, chip.total_at(module, width));
    }
    packing.set_own(module, item_or(&chip.selfs, module, 0));
}

/// Sets the times of the modules of a chip, once.
pub fn set_times(chip: &ChipTables, packing: &mut PackCase) {
    for module in 0..chip.modules {
        set_module(chip, module, packing);
    }
}

/// Takes the widths of the buses of a case. No module may be anywhere then.
pub fn take_ranks(case: &Case, packing: &mut PackCase) {
    packing.begin(case.known, case.spare(), case.rest_high());
    for rank in 0..case.known {
        packing.set_rank(rank, case.low_of(rank), case.high_of(rank));
    }
}

/// Takes where a module may be.
fn take_module(case: &Case, module: usize, packing: &mut PackCase) {
    for rank in 0..case.known {
        if case.may_be(module, rank) {
            packing.allow(module, rank);
        }
    }
    if case.may_rest(module) {
        packing.allow(module, REST);
    }
}

/// Takes where the modules of a case may be, the widths of which were taken.
pub fn take_modules(case: &Case, packing: &mut PackCase) {
    for module in 0..case.modules {
        take_module(case, module, packing);
    }
}
