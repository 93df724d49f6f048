//! What a knapsack is worth at least, by items that are taken in turn, and at most, where its last item may be cut.

use crate::offers::{PackItem, scaled};
use tables::NONE;

/// How many items beside the first that doesn't fit are tried.
const NEAR: usize = 8;

/// Where items, the densest first, no longer fit: those before it are taken.
#[derive(Clone, Copy)]
pub(crate) struct GreedyCut {
    /// The place of the first item that doesn't fit; the end where there is none.
    pub at: usize,
    /// The cells that are left.
    pub left: usize,
    /// What the items before it are worth.
    pub worth: u64,
}

/// Where the items no longer fit so many cells.
pub(crate) fn cut_of(items: &[PackItem], room: usize) -> GreedyCut {
    let mut cut = GreedyCut {
        at: 0,
        left: room,
        worth: 0,
    };
    for at in 0..items.len() {
        let item = items[at];
        if item.size > cut.left {
            return cut;
        }
        cut = GreedyCut {
            at: at.saturating_add(1),
            left: cut.left.saturating_sub(item.size),
            worth: cut.worth.saturating_add(item.net),
        };
    }
    cut
}

/// What is reached with those of some more items that still fit in turn, but for the module `but`.
fn with_more(items: &[PackItem], but: usize, left: usize, worth: u64) -> u64 {
    let mut left = left;
    let mut worth = worth;
    for at in 0..items.len() {
        let item = items[at];
        if item.size <= left && item.module != but {
            left = left.saturating_sub(item.size);
            worth = worth.saturating_add(item.net);
        }
    }
    worth
}

/// The part of items that begins at a place, at most `most` of them.
fn part(items: &[PackItem], from: usize, most: usize) -> &[PackItem] {
    let from = from.min(items.len());
    let end = from.saturating_add(most).min(items.len());
    &items[from..end]
}

/// What is reached without one of the items before the cut, and with more that fit then.
fn without(items: &[PackItem], cut: GreedyCut, out: PackItem) -> u64 {
    let left = cut.left.saturating_add(out.size);
    let worth = cut.worth.saturating_sub(out.net);
    with_more(part(items, cut.at, NEAR), NONE, left, worth)
}

/// What is reached with one of the items from the cut on, and without as many of the last ones before the cut as it takes; 0 where these
/// aren't enough.
fn with(items: &[PackItem], cut: GreedyCut, more: PackItem) -> u64 {
    let mut left = cut.left;
    let mut worth = cut.worth.saturating_add(more.net);
    let before = part(items, 0, cut.at);
    for back in 0..before.len() {
        if left >= more.size {
            break;
        }
        let item = before[before.len() - 1 - back];
        left = left.saturating_add(item.size);
        worth = worth.saturating_sub(item.net);
    }
    if left < more.size {
        return 0;
    }
    let left = left.saturating_sub(more.size);
    with_more(part(items, cut.at, NEAR), more.module, left, worth)
}

/// What a knapsack is worth at least.
pub(crate) fn reached(items: &[PackItem], cut: GreedyCut) -> u64 {
    let rest = part(items, cut.at, items.len());
    let mut best = with_more(rest, NONE, cut.left, cut.worth);
    let first = cut.at.saturating_sub(NEAR);
    for out in part(items, first, cut.at.saturating_sub(first)) {
        best = best.max(without(items, cut, *out));
    }
    for more in part(items, cut.at, NEAR) {
        best = best.max(with(items, cut, *more));
    }
    best
}

/// What cells are charged, and how far a knapsack can be above what is reached: an item that gains or loses more by itself is taken,
/// or isn't, in each best set.
#[derive(Clone, Copy)]
pub(crate) struct Charge {
    /// What a cell costs, scaled.
    pub cell: u64,
    /// The binary places of scaled worths.
    pub places: u32,
    /// The most that is left open, scaled.
    pub slack: u64,
}

/// What becomes of an item.
#[derive(Clone, Copy, PartialEq, Eq)]
pub(crate) enum Fate {
    /// It is in each best set.
    Taken,
    /// It is in none.
    Left,
    /// That isn't known yet.
    Open,
}

impl Charge {
    /// What an item is worth, and what its cells cost, both scaled.
    fn sides(self, item: PackItem) -> (u64, u64) {
        let cost = self.cell.saturating_mul(item.size as u64);
        (scaled(item.net, self.places), cost)
    }

    /// What becomes of an item.
    pub fn fate(self, item: PackItem) -> Fate {
        let (worth, cost) = self.sides(item);
        if item.size == 0 || worth > cost.saturating_add(self.slack) {
            return Fate::Taken;
        }
        if cost > worth.saturating_add(self.slack) {
            return Fate::Left;
        }
        Fate::Open
    }
}

/// The charge of a knapsack of so many cells, where `best` is reached: by the density of the item at the cut. No set is worth more than
/// what all cells cost, and what those items gain that are worth more than their cells.
pub(crate) fn charge_of(
    items: &[PackItem],
    cut: GreedyCut,
    room: usize,
    best: u64,
    places: u32,
) -> Charge {
    let mut cell = 0;
    for item in part(items, cut.at, 1) {
        cell = item.density;
    }
    let charge = Charge {
        cell,
        places,
        slack: 0,
    };
    let mut most = cell.saturating_mul(room as u64);
    for at in 0..items.len() {
        let (worth, cost) = charge.sides(items[at]);
        most = most.saturating_add(worth.saturating_sub(cost));
    }
    Charge {
        slack: most.saturating_sub(scaled(best, places)),
        ..charge
    }
}
