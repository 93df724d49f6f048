//! A game: cuts of resources, and the best answer to all of them.

use crate::fractions::{
    divide_row, dot, fill_up, is_less, most_of, over, part_of_sum, take_away, times,
};
use crate::scale::{Scale, scale_of};
use outside::NoMemory;
use std::alloc::Global;
use tables::{NONE, ONE, UNIT, copy_items, fill_items, filled, item_or, part, part_mut, put_item};

/// How much less than a whole a price must be for a cut to enter.
const SLACK: i64 = 1 << 14;
/// A pivot is at least this.
const PIVOT: i64 = 1 << 17;
/// By how much a row may pass its end, so that the pivot can be greater.
const GIVE: i64 = 1 << 11;
/// How far the price of a basic cut may be from a whole before the inverse is made anew.
const DRIFT: i64 = 1 << 19;
/// Pivots without progress after which the first column that serves is taken.
const STALLED: usize = 40;

/// The basic columns of a game: as many as resources. A column is a cut, or `cuts_most` and a resource that is left over.
#[derive(Drop)]
struct BasicColumns {
    /// The inverse at [row * count + resource].
    inverse: Vec<i64>,
    /// The value of the basic column of each row.
    level: Vec<i64>,
    /// The price of each resource.
    price: Vec<i64>,
    /// The basic column of each row.
    basic: Vec<usize>,
    /// The row of each column, NONE where it isn't basic.
    row_of: Vec<usize>,
}

/// A game of resources against cuts, with room for the greatest. Resources and cuts go by their places.
#[derive(Drop)]
pub struct MatrixGame {
    /// Resources of this game, and the most of any.
    count: usize,
    count_most: usize,
    /// Cuts so far, and the most of any game.
    cuts: usize,
    cuts_most: usize,
    /// By how much uses are multiplied and divided.
    scale: Scale,
    /// The use of resource i by cut c at [c * count + i].
    uses: Vec<i64>,
    /// The basic columns.
    basis: BasicColumns,
    /// The entering column over the rows.
    column: Vec<i64>,
    /// The pivot's row.
    pivot_row: Vec<i64>,
    /// The basic cuts while the inverse is made anew.
    kept: Vec<usize>,
    /// The sum of the values of the cuts.
    sum: i64,
    /// Whether the inverse was made anew in this solve.
    anew: bool,
    /// A cut that uses nothing, so that the value is 0; NONE where there is none.
    idle: usize,
}

/// A column that would enter, and by how much it improves the sum.
#[derive(Clone, Copy)]
struct EnteringColumn {
    column: usize,
    gain: i64,
    drift: i64,
}

impl BasicColumns {
    /// Room for a basis of at most `count_most` resources, beside `cuts_most` cuts.
    fn new(alloc: Global, count_most: usize, cuts_most: usize) -> Result<BasicColumns, NoMemory> {
        let inverse = filled(alloc, 0i64, count_most.saturating_mul(count_most))?;
        let level = filled(alloc, 0i64, count_most)?;
        let price = filled(alloc, 0i64, count_most)?;
        let basic = filled(alloc, NONE, count_most)?;
        let row_of = filled(alloc, NONE, count_most.saturating_add(cuts_most))?;
        Ok(BasicColumns {
            inverse,
            level,
            price,
            basic,
            row_of,
        })
    }
}

impl MatrixGame {
    /// Room for a game of at most `count_most` resources and `cuts_most` cuts. `NoMemory` where memory runs out.
    pub fn new(alloc: Global, count_most: usize, cuts_most: usize) -> Result<MatrixGame, NoMemory> {
        let uses = filled(alloc, 0i64, count_most.saturating_mul(cuts_most))?;
        let column = filled(alloc, 0i64, count_most)?;
        let pivot_row = filled(alloc, 0i64, count_most)?;
        let kept = filled(alloc, NONE, count_most)?;
        let basis = BasicColumns::new(alloc, count_most, cuts_most)?;
        Ok(MatrixGame {
            count: 0,
            count_most,
            cuts: 0,
            cuts_most,
            scale: Scale::SAME,
            uses,
            basis,
            column,
            pivot_row,
            kept,
            sum: 0,
            anew: false,
            idle: NONE,
        })
    }

    /// Becomes a game of `resources` resources, or of as many as there is room for, with no cuts.
    pub fn begin(&mut self, resources: usize) {
        self.count = resources.min(self.count_most);
        self.cuts = 0;
        self.scale = Scale::SAME;
        self.idle = NONE;
        self.start_over();
    }

    /// The basis of no cut.
    fn start_over(&mut self) {
        let room = self.count.saturating_mul(self.count);
        fill_items(part_mut(&mut self.basis.inverse, 0, room), 0);
        fill_items(part_mut(&mut self.basis.price, 0, self.count), 0);
        self.sum = 0;
        for column in 0..self.cuts_most.saturating_add(self.count) {
            put_item(&mut self.basis.row_of, column, NONE);
        }
        for i in 0..self.count {
            let column = self.cuts_most.saturating_add(i);
            put_item(
                &mut self.basis.inverse,
                i.saturating_mul(self.count).saturating_add(i),
                UNIT,
            );
            put_item(&mut self.basis.level, i, UNIT);
            put_item(&mut self.basis.basic, i, column);
            put_item(&mut self.basis.row_of, column, i);
        }
    }

    /// What a cut uses of each resource.
    fn use_row(&self, cut: usize) -> &[i64] {
        part(&self.uses, cut.saturating_mul(self.count), self.count)
    }

    /// Adds a cut: how much of each resource's room it uses, in parts of [`ONE`]. Nothing is added where there is no room.
    pub fn add_cut(&mut self, cut: &[i64]) {
        if self.cuts >= self.cuts_most {
            return;
        }
        if self.cuts == 0 {
            self.scale = scale_of(most_of(cut));
        }
        let start = self.cuts.saturating_mul(self.count);
        for i in 0..self.count {
            let scaled = self.scale.scaled(item_or(cut, i, 0));
            put_item(&mut self.uses, start.saturating_add(i), scaled);
        }
        self.cuts = self.cuts.saturating_add(1);
    }

    /// The cut that would improve the sum most, and how far the prices of basic cuts are from a whole.
    fn best_cut(&self, first: bool) -> EnteringColumn {
        let mut best = EnteringColumn {
            column: NONE,
            gain: SLACK,
            drift: 0,
        };
        let price = part(&self.basis.price, 0, self.count);
        for back in 0..self.cuts {
            let cut = self.cuts - 1 - back;
            let gain = UNIT.saturating_sub(dot(price, self.use_row(cut)));
            if item_or(&self.basis.row_of, cut, NONE) != NONE {
                best.drift = best.drift.max(gain.max(0i64.saturating_sub(gain)));
            } else if gain > best.gain {
                best.gain = gain;
                best.column = cut;
                if first {
                    break;
                }
            }
        }
        best
    }

    /// The column that would improve the sum most: a cut, or a resource that would rather be left over.
    fn best_column(&self, first: bool) -> EnteringColumn {
        let mut best = self.best_cut(first);
        if first && best.column != NONE {
            return best;
        }
        for i in 0..self.count {
            let column = self.cuts_most.saturating_add(i);
            let gain = 0i64.saturating_sub(item_or(&self.basis.price, i, 0));
            if gain > best.gain && item_or(&self.basis.row_of, column, NONE) == NONE {
                best.gain = gain;
                best.column = column;
                if first {
                    break;
                }
            }
        }
        best
    }

    /// Writes a column over the rows of the basis.
    fn set_column(&mut self, column: usize) {
        if column >= self.cuts_most {
            let i = column - self.cuts_most;
            for row in 0..self.count {
                let at = row.saturating_mul(self.count).saturating_add(i);
                let value = item_or(&self.basis.inverse, at, 0);
                put_item(&mut self.column, row, value);
            }
            return;
        }
        for row in 0..self.count {
            let at = row.saturating_mul(self.count);
            let value = dot(
                part(&self.basis.inverse, at, self.count),
                self.use_row(column),
            );
            put_item(&mut self.column, row, value);
        }
    }

    /// The least (level, use) by their quotient, where each level may give a little.
    fn least_ratio(&self) -> (i64, i64) {
        let mut least = (0, 0);
        for row in 0..self.count {
            let by = item_or(&self.column, row, 0);
            if by < PIVOT {
                continue;
            }
            let level = item_or(&self.basis.level, row, 0)
                .max(0)
                .saturating_add(GIVE);
            if least.1 == 0 || is_less((level, by), least) {
                least = (level, by);
            }
        }
        least
    }

    /// The row that leaves: of those that end no later than the least ratio that of the greatest pivot.
    fn leaving_row(&self) -> usize {
        let least = self.least_ratio();
        let mut best = NONE;
        let mut pivot = 0;
        for row in 0..self.count {
            let by = item_or(&self.column, row, 0);
            let level = item_or(&self.basis.level, row, 0).max(0);
            if by >= PIVOT && by > pivot && !is_less(least, (level, by)) {
                pivot = by;
                best = row;
            }
        }
        best
    }

    /// Takes the pivot row, of this level, away from another row as often as that has the column that enters.
    fn clear_row(&mut self, row: usize, level: i64) {
        let by = item_or(&self.column, row, 0);
        if by == 0 {
            return;
        }
        let start = row.saturating_mul(self.count);
        let own = part_mut(&mut self.basis.inverse, start, self.count);
        take_away(own, by, &self.pivot_row);
        let left = item_or(&self.basis.level, row, 0).saturating_sub(times(by, level));
        put_item(&mut self.basis.level, row, left);
    }

    /// Exchanges the basic column of a row for another one, whose column is set.
    fn exchange(&mut self, row: usize, column: usize, gain: i64) {
        let pivot = item_or(&self.column, row, 0);
        let start = row.saturating_mul(self.count);
        let count = self.count;
        divide_row(part_mut(&mut self.basis.inverse, start, count), pivot);
        copy_items(&mut self.pivot_row, part(&self.basis.inverse, start, count));
        let level = over(item_or(&self.basis.level, row, 0).max(0), pivot);
        for other in 0..count {
            if other != row {
                self.clear_row(other, level);
            }
        }
        put_item(&mut self.basis.level, row, level);
        let back = 0i64.saturating_sub(gain);
        take_away(
            part_mut(&mut self.basis.price, 0, count),
            back,
            &self.pivot_row,
        );
        self.sum = self.sum.saturating_add(times(gain, level));
        self.enter(row, column);
    }

    /// Makes a column the basic one of a row.
    fn enter(&mut self, row: usize, column: usize) {
        let old = item_or(&self.basis.basic, row, NONE);
        put_item(&mut self.basis.row_of, old, NONE);
        put_item(&mut self.basis.basic, row, column);
        put_item(&mut self.basis.row_of, column, row);
    }

    /// One pivot; whether more may follow.
    fn step(&mut self, first: bool) -> bool {
        let best = self.best_column(first);
        if best.drift > DRIFT && !self.anew {
            self.anew = true;
            self.make_anew();
            return true;
        }
        if best.column == NONE {
            return false;
        }
        self.set_column(best.column);
        let row = self.leaving_row();
        if row == NONE {
            if best.column < self.cuts_most {
                self.idle = best.column;
            }
            return false;
        }
        self.exchange(row, best.column, best.gain);
        true
    }

    /// Makes the inverse anew: the basic cuts enter the basis of none, one after another.
    fn make_anew(&mut self) {
        let mut kept: usize = 0;
        for row in 0..self.count {
            let column = item_or(&self.basis.basic, row, NONE);
            if column < self.cuts_most {
                put_item(&mut self.kept, kept, column);
                kept = kept.saturating_add(1);
            }
        }
        self.start_over();
        for place in 0..kept {
            let cut = item_or(&self.kept, place, NONE);
            self.enter_where_it_can(cut);
        }
    }

    /// Makes a cut basic, where there is a row that it can have.
    fn enter_where_it_can(&mut self, cut: usize) {
        self.set_column(cut);
        let row = self.leaving_row();
        if row == NONE {
            return;
        }
        let price = part(&self.basis.price, 0, self.count);
        let gain = UNIT.saturating_sub(dot(price, self.use_row(cut)));
        self.exchange(row, cut, gain);
    }

    /// Goes on from the last basis to the best answer to all cuts, in a number of steps that is fixed by the number of resources.
    pub fn solve(&mut self) {
        self.anew = false;
        let mut last = self.sum;
        let mut stalled: usize = 0;
        for _ in 0..self.count.saturating_mul(3).saturating_add(60) {
            if !self.step(stalled > STALLED) {
                return;
            }
            stalled = if self.sum > last {
                0
            } else {
                stalled.saturating_add(1)
            };
            last = self.sum;
        }
    }

    /// The value of the game, in parts of [`ONE`]: 0 where there is no cut, or one that uses nothing.
    pub fn value(&self) -> i64 {
        if self.idle != NONE || self.cuts == 0 {
            return 0;
        }
        self.scale.unscaled(over(UNIT, self.sum.max(1)))
    }

    /// Writes the best weights of the resources, which are parts of [`ONE`] together.
    pub fn weights(&self, weights: &mut [i64]) {
        let mut sum: i64 = 0;
        for i in 0..self.count {
            sum = sum.saturating_add(item_or(&self.basis.price, i, 0).max(0));
        }
        for i in 0..self.count {
            let share = part_of_sum(item_or(&self.basis.price, i, 0), sum);
            put_item(weights, i, share);
        }
        fill_up(weights, self.count);
    }

    /// Writes the best mix of the cuts on the other side, which are parts of [`ONE`] together.
    pub fn shares(&self, mix: &mut [i64]) {
        for cut in 0..self.cuts {
            put_item(mix, cut, 0);
        }
        if self.idle != NONE {
            put_item(mix, self.idle, ONE);
            return;
        }
        let mut sum: i64 = 0;
        for row in 0..self.count {
            if item_or(&self.basis.basic, row, NONE) < self.cuts_most {
                sum = sum.saturating_add(item_or(&self.basis.level, row, 0).max(0));
            }
        }
        for row in 0..self.count {
            let cut = item_or(&self.basis.basic, row, NONE);
            if cut < self.cuts_most {
                put_item(
                    mix,
                    cut,
                    part_of_sum(item_or(&self.basis.level, row, 0), sum),
                );
            }
        }
        fill_up(mix, self.cuts);
    }
}
