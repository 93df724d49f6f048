//! The weights of the case that is divided, as weights of its branches.

use case_tables::{Case, LeafWeights, RANKS_MOST, WEIGHT_MOST};
use outside::NoMemory;
use std::alloc::Global;
use tables::{filled, item_or, put_item};

/// The weights and the least widths of the case that is divided, from which those of its branches begin.
#[derive(Drop)]
pub(crate) struct DividedCase {
    /// The weights.
    pub weights: LeafWeights,
    /// For each rank the least width.
    low: Vec<usize>,
}

impl DividedCase {
    /// No weights of a case of no ranks. `NoMemory` where memory runs out.
    pub fn new(alloc: Global) -> Result<DividedCase, NoMemory> {
        let weights = LeafWeights::new(alloc)?;
        let low = filled(alloc, 0usize, RANKS_MOST)?;
        Ok(DividedCase { weights, low })
    }

    /// Takes the least widths of the case that is divided.
    pub fn take_low(&mut self, case: &Case) {
        for rank in 0..RANKS_MOST {
            let low = if rank < case.known {
                case.low_of(rank)
            } else {
                0
            };
            put_item(&mut self.low, rank, low);
        }
    }

    /// The weight of a rank in a branch: the wires that are more than the least width there count with it.
    fn rank_weight(&self, case: &Case, rank: usize) -> u64 {
        let more = case
            .low_of(rank)
            .saturating_sub(item_or(&self.low, rank, 0));
        let wires = self.weights.wire.saturating_mul(more as u64);
        self.weights.rank(rank).saturating_add(wires)
    }

    /// Writes the weights as those of a branch, in which they are worth as much.
    pub fn hint(&self, case: &Case, hint: &mut LeafWeights) {
        hint.copy_weights(&self.weights);
        for rank in 0..case.known {
            put_item(&mut hint.ranks, rank, self.rank_weight(case, rank));
        }
        let most = hint.greatest();
        if most > WEIGHT_MOST {
            hint.scale(most, WEIGHT_MOST);
        }
    }
}
