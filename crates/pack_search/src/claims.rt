//! The greatest claim at which the prices of an attempt hold.

use crate::attempts::Attempts;
use crate::module_set::cells_at;
use outside::NoMemory;
use pack_values::{PackCase, Prices, Uses};
use std::alloc::Global;

/// A claim is found but for one part in `FINE` of the claims that are looked at.
const FINE: u64 = 200;
/// The most cells of a leaf.
const CELLS_MOST: u64 = 4_096;

/// A leaf Pack that was found.
#[derive(Drop)]
pub struct PackLeaf {
    /// The claim at which it holds, in cycles.
    pub claim: u64,
    /// The cycles of a cell; 0 where there is no leaf.
    pub grain: u64,
    /// Its prices with the weights of lists.
    pub prices: Prices,
}

impl PackLeaf {
    /// No leaf. `NoMemory` where memory runs out.
    pub(crate) fn new(alloc: Global, modules: usize) -> Result<PackLeaf, NoMemory> {
        let prices = Prices::new(alloc, modules)?;
        Ok(PackLeaf {
            claim: 0,
            grain: 0,
            prices,
        })
    }

    /// Becomes a leaf of a claim.
    pub(crate) fn take(&mut self, claim: u64, grain: u64, prices: &Prices) {
        self.claim = claim;
        self.grain = grain;
        self.prices.copy_prices(prices);
    }
}

impl Attempts {
    /// Whether the prices of the center hold at a claim.
    fn center_holds<U: Uses>(&mut self, case: &PackCase, uses: &U, claim: u64) -> bool {
        let grain = self.scheme.grain;
        if cells_at(claim, grain) > CELLS_MOST {
            return false;
        }
        self.values
            .holds(case, uses, &self.drafts.center, claim, grain)
    }

    /// A claim at which the prices of the center hold: as they do at `low`, and not at `end`, or are not to.
    fn claim_between<U: Uses>(&mut self, case: &PackCase, uses: &U, low: u64, end: u64) -> u64 {
        let close = (end.saturating_sub(low) / FINE).max(1);
        let mut low = low;
        let mut end = end;
        for _ in 0..64 {
            if end.saturating_sub(low) <= close {
                break;
            }
            let middle = low.saturating_add(end.saturating_sub(low) / 2);
            if self.center_holds(case, uses, middle) {
                low = middle;
            } else {
                end = middle;
            }
        }
        low
    }

    /// The greatest claim from `low` on and below `end` at which the prices of the center hold, nearly; 0 where they don't at `low`.
    pub fn claim_from<U: Uses>(&mut self, case: &PackCase, uses: &U, low: u64, end: u64) -> u64 {
        if low >= end || !self.center_holds(case, uses, low) {
            return 0;
        }
        self.claim_between(case, uses, low, end)
    }
}
