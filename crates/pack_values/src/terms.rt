//! What knapsacks are asked for.

use crate::prices::Prices;

/// The most cells of a bus.
pub(crate) const CELLS_MOST: usize = 4096;
/// The cells of a bus that a guess has at least, where there are as many.
const GUESS_CELLS: usize = 250;

/// What the knapsacks of one call have in common.
#[derive(Clone, Copy)]
pub(crate) struct Terms {
    /// The claim: tests on a bus take fewer cycles.
    pub claim: u64,
    /// The cycles of a cell.
    pub grain: u64,
    /// The cells of a bus, at most `CELLS_MOST`.
    pub cells: usize,
    /// How many cells are one in a knapsack.
    pub coarse: usize,
    /// The binary places of worths beside densities.
    pub places: u32,
    /// Whether the sets are wanted.
    pub keep: bool,
}

/// How many binary places prices are scaled by, so that the greatest has 50 of them.
fn places_for(greatest: u64) -> u32 {
    greatest.leading_zeros().saturating_sub(14).min(50)
}

impl Terms {
    /// The terms of exact knapsacks. None where the grain is 0 or the cells are more than 4,096.
    pub fn exact(prices: &Prices, claim: u64, grain: u64, keep: bool) -> Option<Terms> {
        let cells = claim.saturating_sub(1).checked_div(grain)?;
        let cells = usize::try_from(cells).unwrap_or(usize::MAX);
        if cells > CELLS_MOST {
            return None;
        }
        Some(Terms {
            claim,
            grain,
            cells,
            coarse: 1,
            places: places_for(prices.greatest()),
            keep,
        })
    }

    /// Terms by greater cells, with the sets.
    pub fn guessed(self) -> Terms {
        Terms {
            coarse: (self.cells / GUESS_CELLS).max(1),
            keep: true,
            ..self
        }
    }

    /// The cells of a knapsack.
    pub fn room(self) -> usize {
        self.cells.checked_div(self.coarse).unwrap_or(0)
    }

    /// What so many cells are in a knapsack, to the nearest.
    pub fn size_of(self, cells: usize) -> usize {
        cells
            .saturating_add(self.coarse / 2)
            .checked_div(self.coarse)
            .unwrap_or(0)
    }

    /// The cells that so many cycles take, rounded down.
    pub fn cells_of(self, cycles: u64) -> usize {
        let cells = cycles.checked_div(self.grain).unwrap_or(u64::MAX);
        usize::try_from(cells).unwrap_or(usize::MAX)
    }
}
