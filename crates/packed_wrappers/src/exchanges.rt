//! Exchanges: a scan chain of the longest part goes to the shortest one, or changes places with a shorter scan chain.

use crate::cells::ModeCells;
use crate::dealing::Dealing;
use tables::NONE;

/// The change that makes the two parts that it changes shortest.
#[derive(Clone, Copy)]
pub(crate) struct Exchange {
    /// The longer of the two parts after it.
    height: u64,
    /// The scan chain of the longest part, by its rank; NONE where no change was found.
    scan: usize,
    /// The scan chain that it changes places with, by its rank; NONE where it goes to the shortest part.
    other: usize,
}

/// A search for an exchange: the longest and the shortest part, and what was found so far.
#[derive(Drop)]
pub(crate) struct ExchangeSearch {
    longest: usize,
    shortest: usize,
    /// The longest part, in cells.
    most: u64,
    /// The shortest part.
    least: u64,
    best: Exchange,
    /// How many pairs of scan chains were looked at.
    pub looks: u64,
}

impl ExchangeSearch {
    /// A search where the parts of `width` chains are these.
    pub fn new(dealing: &Dealing, width: usize) -> ExchangeSearch {
        let longest = dealing.first_longest(width);
        let shortest = dealing.first_shortest(width);
        let most = dealing.load(longest);
        ExchangeSearch {
            longest,
            shortest,
            most,
            least: dealing.load(shortest),
            best: Exchange {
                height: most,
                scan: NONE,
                other: NONE,
            },
            looks: 0,
        }
    }

    /// How much longer the longest part is than the shortest one.
    fn gap(&self) -> u64 {
        self.most.saturating_sub(self.least)
    }

    /// Whether there is nothing to gain: the longest part is at most `low`, or a cell longer than the shortest one.
    pub fn is_over(&self, low: u64) -> bool {
        self.most <= low || self.gap() < 2
    }

    /// Whether a change was found.
    pub fn has_found(&self) -> bool {
        self.best.scan != NONE
    }

    /// Notes a change that takes cells from the longest part to another one, where no change so far is as good.
    fn note(&mut self, cells: u64, load: u64, scan: usize, other: usize) {
        let height = self
            .most
            .saturating_sub(cells)
            .max(load.saturating_add(cells));
        if height < self.best.height {
            self.best = Exchange {
                height,
                scan,
                other,
            };
        }
    }

    /// Looks at the scan chains that are shorter than one of the longest part, as long as the difference is less than the gap.
    fn look_from(&mut self, cells: &ModeCells, dealing: &Dealing, scan: usize) {
        let gap = self.gap();
        let length = cells.length(scan);
        for other in scan.saturating_add(1)..cells.count() {
            let less = length.saturating_sub(cells.length(other));
            if less >= gap {
                break;
            }
            self.looks = self.looks.saturating_add(1);
            let chain = dealing.chain_of(other);
            if less > 0 && chain != self.longest {
                self.note(less, dealing.load(chain), scan, other);
            }
        }
    }

    /// Looks for the best change, by no more looks than `most` and those of a scan chain.
    pub fn look(&mut self, cells: &ModeCells, dealing: &Dealing, most: u64) {
        for scan in 0..cells.count() {
            if self.looks > most {
                break;
            }
            if dealing.chain_of(scan) == self.longest {
                let length = cells.length(scan);
                if length > 0 && length < self.gap() {
                    self.note(length, self.least, scan, NONE);
                }
                self.look_from(cells, dealing, scan);
            }
        }
    }

    /// Makes the change that was found.
    pub fn make(&self, cells: &ModeCells, dealing: &mut Dealing) {
        let scan = self.best.scan;
        let other = self.best.other;
        if other == NONE {
            dealing.move_scan(scan, cells.length(scan), self.shortest);
            return;
        }
        let chain = dealing.chain_of(other);
        dealing.move_scan(scan, cells.length(scan), chain);
        dealing.move_scan(other, cells.length(other), self.longest);
    }
}
