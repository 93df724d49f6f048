//! A set of modules on a bus.

use outside::NoMemory;
use pack_values::{PackCase, PackRoom, REST, Uses};
use std::alloc::Global;
use tables::{filled, item_or, put_item};

/// The words of a row of marks of modules.
pub(crate) fn words_of(modules: usize) -> usize {
    modules.div_ceil(64)
}

/// Whether a module is marked in a row of marks.
pub(crate) fn is_marked(row: &[u64], module: usize) -> bool {
    (item_or(row, module >> 6, 0) >> (module & 63)) & 1 == 1
}

/// Copies as much of a row as both have.
pub(crate) fn copy_row(to: &mut [u64], from: &[u64]) {
    for word in 0..to.len().min(from.len()) {
        to[word] = from[word];
    }
}

/// A set of modules on the bus of a rank, or on one of the rest, with a width in wires.
#[derive(Drop)]
pub(crate) struct ModuleSet {
    /// The rank, `REST` for the rest.
    pub rank: usize,
    /// The width.
    pub width: usize,
    modules: usize,
    /// A row of marks: its modules.
    pub row: Vec<u64>,
}

impl ModuleSet {
    /// A set of no modules. `NoMemory` where memory runs out.
    pub fn new(alloc: Global, modules: usize) -> Result<ModuleSet, NoMemory> {
        let row = filled(alloc, 0u64, words_of(modules))?;
        Ok(ModuleSet {
            rank: REST,
            width: 0,
            modules,
            row,
        })
    }

    /// Has no modules.
    pub fn clear_set(&mut self) {
        for word in 0..self.row.len() {
            put_item(&mut self.row, word, 0);
        }
    }

    /// Whether a module is in it.
    pub fn has(&self, module: usize) -> bool {
        is_marked(&self.row, module)
    }

    /// Adds a module.
    pub fn add(&mut self, module: usize) {
        let word = item_or(&self.row, module >> 6, 0) | (1u64 << (module & 63));
        put_item(&mut self.row, module >> 6, word);
    }

    /// Takes a set that was found.
    pub fn take_found(&mut self, values: &PackRoom, at: usize) {
        self.rank = values.set_rank(at);
        self.width = values.set_width(at);
        self.clear_set();
        for module in 0..self.modules {
            if values.has(at, module) {
                self.add(module);
            }
        }
    }

    /// The wires of its width beyond the least ones of its rank.
    pub fn more_wires(&self, case: &PackCase) -> usize {
        self.width.saturating_sub(low_of(case, self.rank))
    }

    /// What the tests of its modules use of a list together, in cycles.
    pub fn use_of<U: Uses>(&self, uses: &U, list: usize) -> u64 {
        let mut used: u64 = 0;
        for module in 0..self.modules {
            if self.has(module) {
                used = used.saturating_add(uses.of_module(list, module, self.rank, self.width));
            }
        }
        used
    }

    /// Whether its modules fit its bus: each has a slot there below a claim, and all are within the cells.
    pub fn fits(&self, case: &PackCase, claim: u64, grain: u64) -> bool {
        let cells = cells_at(claim, grain);
        let mut taken: u64 = 0;
        for module in 0..self.modules {
            if self.has(module) {
                if !case.has_slot(module, self.rank, self.width, claim) {
                    return false;
                }
                taken = taken.saturating_add(cells_in(case.time(module, self.width), grain));
            }
        }
        taken <= cells
    }
}

/// The least width of a rank; the buses of the rest count each wire.
fn low_of(case: &PackCase, rank: usize) -> usize {
    if rank == REST { 0 } else { case.low(rank) }
}

/// How many whole cells of `grain` cycles some cycles are.
fn cells_in(cycles: u64, grain: u64) -> u64 {
    cycles.checked_div(grain).unwrap_or(0)
}

/// The cells of a bus below a claim.
pub(crate) fn cells_at(claim: u64, grain: u64) -> u64 {
    cells_in(claim.saturating_sub(1), grain)
}
