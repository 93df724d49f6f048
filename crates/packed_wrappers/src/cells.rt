//! What is dealt over the chains of a wrapper: the scan chains of a mode of a module, and its cells.

use outside::{NoMemory, push};
use soc_model::{Module, mode_chains};
use std::alloc::Global;
use std::cmp::Reverse;
use tables::{filled, item_or, put_item};

/// The scan chains of a mode of a module and its cells. Lengths are in cells.
#[derive(Drop)]
pub(crate) struct ModeCells {
    /// The lengths of the scan chains, longest first, ties by place.
    pub lengths: Vec<u64>,
    /// For each of these lengths the place of its scan chain in the module.
    pub places: Vec<u64>,
    /// The sum of each front of the lengths, that of the empty one first.
    fronts: Vec<u64>,
    /// The input cells.
    pub ins: u64,
    /// The output cells.
    pub outs: u64,
}

/// The scan chains by length and place, longest first, ties by place.
fn longest_first(alloc: Global, lengths: &[u64]) -> Result<Vec<(Reverse<u64>, u64)>, NoMemory> {
    let mut order = Vec::new(alloc);
    for (place, length) in lengths.iter().enumerate() {
        push(&mut order, (Reverse(*length), place as u64))?;
    }
    order.sort_unstable();
    Ok(order)
}

/// The sum of each front of some lengths, that of the empty one first.
fn front_sums(alloc: Global, lengths: &[u64]) -> Result<Vec<u64>, NoMemory> {
    let mut fronts = Vec::new(alloc);
    push(&mut fronts, 0u64)?;
    let mut sum: u64 = 0;
    for length in lengths {
        sum = sum.saturating_add(*length);
        push(&mut fronts, sum)?;
    }
    Ok(fronts)
}

/// Cells over as many chains, rounded up.
fn even_share(cells: u64, width: usize) -> u64 {
    cells.div_ceil((width as u64).max(1))
}

impl ModeCells {
    /// The scan chains and the cells of a mode of the module (the scan mode, or else the one over the terminals alone).
    /// `NoMemory` where memory runs out.
    pub fn new(alloc: Global, module: &Module, scan: bool) -> Result<ModeCells, NoMemory> {
        let order = longest_first(alloc, mode_chains(module, scan))?;
        let mut lengths = filled(alloc, 0u64, order.len())?;
        let mut places = filled(alloc, 0u64, order.len())?;
        for (rank, (length, place)) in order.iter().enumerate() {
            put_item(&mut lengths, rank, length.0);
            put_item(&mut places, rank, *place);
        }
        let fronts = front_sums(alloc, &lengths)?;
        Ok(ModeCells {
            lengths,
            places,
            fronts,
            ins: module.inputs.saturating_add(module.bidirs),
            outs: module.outputs.saturating_add(module.bidirs),
        })
    }

    /// The number of scan chains.
    pub fn count(&self) -> usize {
        self.lengths.len()
    }

    /// The length of a scan chain by its rank, the longest first.
    pub fn length(&self, rank: usize) -> u64 {
        item_or(&self.lengths, rank, 0)
    }

    /// The lengths of the first scan chains together.
    fn front(&self, count: usize) -> u64 {
        item_or(&self.fronts, count, 0)
    }

    /// An even share of all input and scan cells.
    pub fn in_share(&self, width: usize) -> u64 {
        even_share(self.ins.saturating_add(self.front(self.count())), width)
    }

    /// An even share of all scan and output cells.
    pub fn out_share(&self, width: usize) -> u64 {
        even_share(self.outs.saturating_add(self.front(self.count())), width)
    }

    /// Of the `k * width + 1` longest scan chains the `k + 1` shortest, together.
    fn crowd(&self, width: usize, k: usize) -> u64 {
        let last = k.saturating_mul(width);
        let before = self.front(last.saturating_sub(k));
        self.front(last.saturating_add(1)).saturating_sub(before)
    }

    /// The scan cells that the longest of `width` chains has at least: one of them has `k + 1` of the `k * width + 1` longest scan
    /// chains.
    fn packed(&self, width: usize) -> u64 {
        let mut most: u64 = 0;
        for k in 0..self.count().div_ceil(width.max(1)) {
            most = most.max(self.crowd(width, k));
        }
        most
    }

    /// The length of the longest part below which no test gets shorter: what the scan chains are packed to at least, or
    /// the lesser even share.
    pub fn low(&self, width: usize) -> u64 {
        let share = self.in_share(width).min(self.out_share(width));
        share.max(self.packed(width))
    }
}
