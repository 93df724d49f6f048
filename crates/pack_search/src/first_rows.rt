//! The rows that a programme begins with: each module alone, and the sets that an attempt left.

use crate::module_set::copy_row;
use crate::scheme::Scheme;
use crate::warm::Warm;
use pack_values::{PackCase, REST, Uses};

/// Halvings that come to the least of 256 widths.
const HALVINGS: usize = 9;

/// The least width of a slot on a rank or the rest.
fn first_width(case: &PackCase, rank: usize) -> usize {
    case.low(rank).max(1)
}

impl Scheme {
    /// Whether the set at hand fits on a rank, or the rest, at a width.
    fn fits_at(&mut self, case: &PackCase, rank: usize, width: usize) -> bool {
        self.set.rank = rank;
        self.set.width = width;
        self.set.fits(case, self.claim, self.grain)
    }

    /// Gives the set at hand the least width at which it fits on a rank, or the rest: whether there is one. What fits at a width
    /// fits at each greater one.
    fn narrow_on(&mut self, case: &PackCase, rank: usize) -> bool {
        let mut low = first_width(case, rank);
        let mut high = case.high(rank);
        if low > high || !self.fits_at(case, rank, high) {
            return false;
        }
        for _ in 0..HALVINGS {
            if low >= high {
                break;
            }
            let middle = low.saturating_add(high.saturating_sub(low) / 2);
            if self.fits_at(case, rank, middle) {
                high = middle;
            } else {
                low = middle.saturating_add(1);
            }
        }
        self.set.width = high;
        true
    }

    /// Puts the set at hand where it fits: on the rest, else on the first rank. Whether there is such a place.
    fn place_first(&mut self, case: &PackCase) -> bool {
        if self.narrow_on(case, REST) {
            return true;
        }
        for rank in 0..case.known {
            if self.narrow_on(case, rank) {
                return true;
            }
        }
        false
    }

    /// Adds a row for each module alone. Whether each module has a slot.
    pub fn add_singles<U: Uses>(&mut self, case: &PackCase, uses: &U) -> bool {
        for module in 0..case.modules {
            self.set.clear_set();
            self.set.add(module);
            if !self.place_first(case) {
                return false;
            }
            self.add_single(case, uses);
        }
        true
    }

    /// Adds the row of the set at hand on a rank, or the rest, where it fits there and the programme keeps one more row.
    fn add_on<U: Uses>(&mut self, case: &PackCase, uses: &U, rank: usize) {
        if self.programme.rows() < self.rows_most() && self.narrow_on(case, rank) {
            self.add_known(case, uses);
        }
    }

    /// Adds the row of the set at hand on each rank but one, and the rest.
    fn add_on_others<U: Uses>(&mut self, case: &PackCase, uses: &U, but: usize) {
        if but != REST {
            self.add_on(case, uses, REST);
        }
        for rank in 0..case.known {
            if rank != but {
                self.add_on(case, uses, rank);
            }
        }
    }

    /// Adds rows for the sets that an attempt left, as far as the programme keeps them: first where they were, then wherever else
    /// they fit.
    pub fn add_warm<U: Uses>(&mut self, case: &PackCase, uses: &U, warm: &Warm) {
        for at in 0..warm.sets() {
            copy_row(&mut self.set.row, warm.row(at));
            self.add_on(case, uses, warm.rank(at));
        }
        for at in 0..warm.sets() {
            copy_row(&mut self.set.row, warm.row(at));
            self.add_on_others(case, uses, warm.rank(at));
        }
    }
}
