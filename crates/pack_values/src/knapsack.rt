//! Knapsacks: the most that some items are worth in so many cells, and the items of a best set.
ghost use Rattle.std.specs.Prelude.{◌≡◌, ◌<◌, ◌≤◌, length};

use crate::greedy::{Charge, Fate, charge_of, cut_of, reached};
use crate::offers::{NO_ITEM, PackItem};
use crate::terms::{CELLS_MOST, Terms};
use outside::{NoMemory, both};
use std::alloc::Global;
use tables::{filled, item_or, marked, put_item};

/// The words of a row of marks of cells.
const CELL_WORDS: usize = 65;
/// The work of an item beside its cells.
const ITEM_WORK: u64 = 25;

/// Room for knapsacks.
#[derive(Drop)]
pub(crate) struct Knapsack {
    /// The items that are left open, the densest first.
    open: Vec<PackItem>,
    /// How many there are.
    count: usize,
    /// The most for each number of cells.
    row: Vec<u64>,
    /// For each item that is left open a row of marks: the numbers of cells at which it is taken.
    marks: Vec<u64>,
    /// The items of the best set.
    picks: Vec<PackItem>,
    /// How many there are.
    picked: usize,
    /// The cells so far.
    pub work: u64,
}

/// Writes the same number at the places from one up to another.
fn fill_cells(row: &mut [u64], from: usize, end: usize, number: u64) {
    for x in from..end.min(row.len()) {
        row[x] = number;
    }
}

/// Puts an item into `x` cells, where it is worth more. Whether it is.
#[inline(always)]
fn better(row: &mut [u64], x: usize, size: usize, net: u64) -> bool
    requires within { x < length row.old }
    requires size { size ≤ x }
    ensures { length row.new ≡ length row.old }
{
    let with = row[x - size].wrapping_add(net);
    let was = row[x];
    row[x] = was.max(with);
    with > was
}

/// One item more: the most for each number of cells from `low` on, below `end`. From the greatest number down, so that none takes the
/// item twice.
fn take_item(row: &mut [u64], low: usize, end: usize, size: usize, net: u64) {
    let low = low.max(size);
    let end = end.min(row.len());
    for x in (low..end).rev() {
        better(row, x, size, net);
    }
}

/// Takes an item for a word of marks: the bit of each number of cells from `low` on at which the item is taken.
fn take_word(row: &mut [u64], low: usize, end: usize, size: usize, net: u64) -> u64
    requires within { end ≤ length row.old }
    requires size { size ≤ low }
    ensures { length row.new ≡ length row.old }
{
    let mut bits = 0u64;
    for x in (low..end).rev() {
        let taken = better(row, x, size, net);
        bits = (bits << 1) | u64::from(taken);
    }
    bits
}

/// Takes an item with a row of marks, which begins at the word `first`.
fn take_marked(
    row: &mut [u64],
    marks: &mut [u64],
    first: usize,
    low: usize,
    end: usize,
    item: PackItem,
) {
    let low = low.max(item.size);
    let end = end.min(row.len());
    for word in (low / 64..end.div_ceil(64)).rev() {
        let from = low.max(word.saturating_mul(64));
        let until = end.min(word.saturating_add(1).saturating_mul(64));
        let bits = take_word(row, from, until, item.size, item.net);
        put_item(marks, first.saturating_add(word), bits << (from % 64));
    }
}

impl Knapsack {
    /// Room for `modules` modules. `NoMemory` where memory runs out.
    pub fn new(alloc: Global, modules: usize) -> Result<Knapsack, NoMemory> {
        let (open, picks) = both(
            filled(alloc, NO_ITEM, modules),
            filled(alloc, NO_ITEM, modules),
        )?;
        let (row, marks) = both(
            filled(alloc, 0u64, CELLS_MOST.saturating_add(1)),
            filled(alloc, 0u64, modules.saturating_mul(CELL_WORDS)),
        )?;
        Ok(Knapsack {
            open,
            count: 0,
            row,
            marks,
            picks,
            picked: 0,
            work: 0,
        })
    }

    /// The items of the best set.
    pub fn picks(&self) -> &[PackItem] {
        let end = self.picked.min(self.picks.len());
        &self.picks[..end]
    }

    /// What the items of the best set are worth.
    fn picks_worth(&self) -> u64 {
        let mut sum: u64 = 0;
        for item in self.picks() {
            sum = sum.saturating_add(item.net);
        }
        sum
    }

    fn pick(&mut self, item: PackItem) {
        put_item(&mut self.picks, self.picked, item);
        self.picked = self.picked.saturating_add(1);
    }

    fn pick_all(&mut self, items: &[PackItem]) {
        for item in items {
            self.pick(*item);
        }
    }

    /// The most that offered items, the densest first, are worth on a bus. Where sets are wanted, the items of a best one are the picks.
    pub fn solve(&mut self, items: &[PackItem], terms: Terms) -> u64 {
        self.picked = 0;
        let looks = ITEM_WORK.saturating_mul(items.len() as u64);
        self.work = self.work.saturating_add(looks);
        let cut = cut_of(items, terms.room());
        if cut.at >= items.len() {
            if terms.keep {
                self.pick_all(items);
            }
            return cut.worth;
        }
        let best = reached(items, cut);
        let charged = charge_of(items, cut, terms.room(), best, terms.places);
        self.solve_open(items, charged, terms)
    }

    /// What the items are worth, where some fit and some don't.
    fn solve_open(&mut self, items: &[PackItem], charged: Charge, terms: Terms) -> u64 {
        let mut room = terms.room();
        let mut worth: u64 = 0;
        self.count = 0;
        for item in items {
            match charged.fate(*item) {
                Fate::Taken => {
                    room = room.saturating_sub(item.size);
                    worth = worth.saturating_add(item.net);
                    if terms.keep {
                        self.pick(*item);
                    }
                }
                Fate::Left => {}
                Fate::Open => self.leave_open(*item),
            }
        }
        worth.saturating_add(self.fill_row(room, terms.keep))
    }

    fn leave_open(&mut self, item: PackItem) {
        put_item(&mut self.open, self.count, item);
        self.count = self.count.saturating_add(1);
    }

    /// The cells that the open items take together.
    fn open_size(&self) -> usize {
        let mut sum: usize = 0;
        for at in 0..self.count {
            sum = sum.saturating_add(item_or(&self.open, at, NO_ITEM).size);
        }
        sum
    }

    /// The most that the open items are worth in so many cells. Where sets are wanted, those of a best one are picked. Each item is put
    /// into the numbers of cells that it can reach with those before it, and from which those behind it can still fill all cells.
    fn fill_row(&mut self, room: usize, keep: bool) -> u64 {
        let all = self.open_size();
        let room = room.min(all);
        let mut reach: usize = 0;
        let mut rest = all;
        fill_cells(&mut self.row, 0, 1, 0);
        for at in 0..self.count {
            let item = item_or(&self.open, at, NO_ITEM);
            rest = rest.saturating_sub(item.size);
            let next = reach.saturating_add(item.size).min(room);
            let whole = item_or(&self.row, reach, 0);
            let end = next.saturating_add(1);
            fill_cells(&mut self.row, reach.saturating_add(1), end, whole);
            self.add_item(at, item, room.saturating_sub(rest), end, keep);
            reach = next;
        }
        if keep {
            self.read_back(room, all);
        }
        item_or(&self.row, room, 0)
    }

    /// One open item more, for the numbers of cells from `low` up to `end`.
    fn add_item(&mut self, at: usize, item: PackItem, low: usize, end: usize, keep: bool) {
        let cells = end.saturating_sub(low.max(item.size)) as u64;
        if keep {
            let first = at.saturating_mul(CELL_WORDS);
            take_marked(&mut self.row, &mut self.marks, first, low, end, item);
            self.work = self.work.saturating_add(cells.saturating_mul(2));
        } else {
            take_item(&mut self.row, low, end, item.size, item.net);
            self.work = self.work.saturating_add(cells);
        }
    }

    /// Picks the open items of a best set in so many cells, where all of them take `all`.
    fn read_back(&mut self, room: usize, all: usize) {
        let mut x = room;
        let mut sum = all;
        for back in 0..self.count {
            let at = self.count.saturating_sub(back.saturating_add(1));
            let item = item_or(&self.open, at, NO_ITEM);
            x = x.min(sum);
            let first = at.saturating_mul(CELL_WORDS);
            if x >= item.size && marked(&self.marks, first, x) {
                self.pick(item);
                x = x.saturating_sub(item.size);
            }
            sum = sum.saturating_sub(item.size);
        }
    }

    /// Which pick is left out next, where the picks are `excess` cells too many: of those that are enough alone the one that is worth
    /// least, else the one that is worth least for its cells.
    fn pick_to_drop(&self, excess: usize) -> usize {
        let mut best = 0;
        for at in 1..self.picked {
            let one = item_or(&self.picks, at, NO_ITEM);
            let other = item_or(&self.picks, best, NO_ITEM);
            if goes_before(one, other, excess) {
                best = at;
            }
        }
        best
    }

    /// Leaves out picks until they fit so many cells. What they are worth then.
    pub fn mend(&mut self, cells: usize) -> u64 {
        let mut sum: usize = 0;
        for item in self.picks() {
            sum = sum.saturating_add(item.cells);
        }
        for _ in 0..self.picks.len() {
            if sum <= cells {
                break;
            }
            let at = self.pick_to_drop(sum.saturating_sub(cells));
            let out = item_or(&self.picks, at, NO_ITEM);
            self.picked = self.picked.saturating_sub(1);
            let last = item_or(&self.picks, self.picked, NO_ITEM);
            put_item(&mut self.picks, at, last);
            sum = sum.saturating_sub(out.cells);
        }
        self.picks_worth()
    }
}

/// Whether an item is left out rather than another one, where there are `excess` cells too many.
fn goes_before(one: PackItem, other: PackItem, excess: usize) -> bool {
    let enough = one.cells >= excess;
    if enough != (other.cells >= excess) {
        return enough;
    }
    if enough {
        return one.net < other.net;
    }
    let left = u128::from(one.net).wrapping_mul(other.cells as u128);
    left < u128::from(other.net).wrapping_mul(one.cells as u128)
}
