//! The numbers of a programme in a basis.
//!
//! An unknown is a variable, or the slack of a row: how much its sum is below its right side. In a basis each row of the tableau has
//! an unknown of its own, which is its right side less its numbers times the unknowns of the columns. These are 0.

use crate::fractions::{less_product, quotient};
use crate::lines::{Line, move_part};
use crate::ratios::{Ratio, lesser, place_of};
use outside::{NoMemory, both};
use std::alloc::Global;
use tables::{UNIT, copy_items, fill_items, filled, item_or, part, part_mut, put_item};

/// A right side below 0 by more than this calls for a dual step.
const BELOW: i64 = 16;
/// A cost below 0 by more than this calls for a primal step.
const GAIN: i64 = 4096;
/// A cost below 0 by more than this is no work of rounding alone.
const ASTRAY: i64 = 1 << 14;
/// A pivot is greater than this.
const PIVOT: i64 = 1 << 16;
/// What each number of the tableau counts in a pivot.
const WORK: u64 = 3;

/// A tableau.
#[derive(Drop)]
pub(crate) struct Tableau {
    columns: usize,
    rows: usize,
    /// The number of a row at a column at [row * columns + column].
    numbers: Vec<i64>,
    /// The right side of each row.
    right: Vec<i64>,
    /// What the sum loses by each unit of the unknown of a column.
    cost: Vec<i64>,
    /// The pivot's row.
    line: Line,
    /// The steps of work so far.
    work: u64,
}

impl Tableau {
    /// Room for tableaus of up to so many columns and rows. `NoMemory` where memory runs out.
    pub fn new(alloc: Global, columns_most: usize, rows_most: usize) -> Result<Tableau, NoMemory> {
        let room = columns_most.saturating_mul(rows_most);
        let table = both(filled(alloc, 0i64, room), filled(alloc, 0i64, rows_most));
        let lines = both(
            filled(alloc, 0i64, columns_most),
            Line::new(alloc, columns_most),
        );
        let ((numbers, right), (cost, line)) = both(table, lines)?;
        Ok(Tableau {
            columns: 0,
            rows: 0,
            numbers,
            right,
            cost,
            line,
            work: 0,
        })
    }

    /// Begins a tableau of no rows, whose first `priced` columns have a variable that counts in the sum.
    pub fn begin(&mut self, columns: usize, priced: usize) {
        self.columns = columns;
        self.rows = 0;
        for column in 0..columns {
            let cost = if column < priced { -UNIT } else { 0 };
            put_item(&mut self.cost, column, cost);
        }
    }

    pub fn rows(&self) -> usize {
        self.rows
    }

    pub fn work(&self) -> u64 {
        self.work
    }

    pub fn begin_work(&mut self) {
        self.work = 0;
    }

    /// The right side of a row.
    pub fn right(&self, row: usize) -> i64 {
        item_or(&self.right, row, 0)
    }

    /// Where a row begins.
    fn start(&self, row: usize) -> usize {
        row.saturating_mul(self.columns)
    }

    fn row(&self, row: usize) -> &[i64] {
        part(&self.numbers, self.start(row), self.columns)
    }

    /// Adds a row.
    pub fn push(&mut self, numbers: &[i64], right: i64) {
        let start = self.start(self.rows);
        let own = part_mut(&mut self.numbers, start, self.columns);
        copy_items(own, numbers);
        put_item(&mut self.right, self.rows, right);
        self.rows = self.rows.saturating_add(1);
    }

    /// Adds a row of no numbers.
    pub fn push_empty(&mut self, right: i64) {
        let start = self.start(self.rows);
        fill_items(part_mut(&mut self.numbers, start, self.columns), 0);
        put_item(&mut self.right, self.rows, right);
        self.rows = self.rows.saturating_add(1);
    }

    /// Adds to the number of the last row at a column.
    pub fn add_to_last(&mut self, column: usize, number: i64) {
        let at = self
            .start(self.rows.saturating_sub(1))
            .saturating_add(column);
        let sum = item_or(&self.numbers, at, 0).saturating_add(number);
        put_item(&mut self.numbers, at, sum);
    }

    /// Takes a row from the last one as often as a factor says.
    pub fn take_from_last(&mut self, row: usize, factor: i64) {
        self.line.take(part(
            &self.numbers,
            row.saturating_mul(self.columns),
            self.columns,
        ));
        let last = self.rows.saturating_sub(1);
        let right = item_or(&self.right, row, 0);
        self.take_line(last, factor, right);
    }

    /// Takes the line, with a right side, from a row as often as a factor says.
    fn take_line(&mut self, row: usize, factor: i64, right: i64) {
        let start = self.start(row);
        let own = part_mut(&mut self.numbers, start, self.columns);
        self.line.take_from(own, factor);
        let left = less_product(item_or(&self.right, row, 0), factor, right);
        put_item(&mut self.right, row, left);
    }

    /// Drops a row: the last one takes its place.
    pub fn drop_row(&mut self, row: usize) {
        let last = self.rows.saturating_sub(1);
        let from = self.start(last);
        let to = self.start(row);
        move_part(&mut self.numbers, from, to, self.columns);
        let right = item_or(&self.right, last, 0);
        put_item(&mut self.right, row, right);
        self.rows = last;
    }

    /// Writes 0 at a column of a row, and answers what stood there.
    fn take_number(&mut self, row: usize, column: usize) -> i64 {
        let at = self.start(row).saturating_add(column);
        let number = item_or(&self.numbers, at, 0);
        put_item(&mut self.numbers, at, 0);
        number
    }

    /// Exchanges the unknowns of a row and a column, where a number other than 0 stands there.
    pub fn pivot(&mut self, row: usize, column: usize) {
        let start = self.start(row);
        let own = part(&self.numbers, start, self.columns);
        let right = quotient(item_or(&self.right, row, 0), item_or(own, column, 0));
        self.line.take_over(own, column, UNIT);
        for other in 0..self.rows {
            if other != row {
                self.clear_column(other, column, right);
            }
        }
        self.clear_cost(column);
        copy_items(
            part_mut(&mut self.numbers, start, self.columns),
            self.line.numbers(),
        );
        put_item(&mut self.right, row, right);
        self.count_work();
    }

    /// Takes the pivot's row from another one, so that the old unknown of the column is no longer in that.
    fn clear_column(&mut self, row: usize, column: usize, right: i64) {
        let factor = self.take_number(row, column);
        if factor != 0 {
            self.take_line(row, factor, right);
        }
    }

    /// Clears a column of the costs.
    fn clear_cost(&mut self, column: usize) {
        let factor = item_or(&self.cost, column, 0);
        put_item(&mut self.cost, column, 0);
        if factor != 0 {
            let costs = part_mut(&mut self.cost, 0, self.columns);
            self.line.take_from(costs, factor);
        }
    }

    /// Counts the work of a pivot.
    fn count_work(&mut self) {
        let numbers = self.rows.saturating_mul(self.columns) as u64;
        self.work = self.work.saturating_add(numbers.saturating_mul(WORK));
    }

    /// Whether some cost is below 0 by more than rounding makes it.
    pub fn is_astray(&self) -> bool {
        for column in 0..self.columns {
            if item_or(&self.cost, column, 0) < -ASTRAY {
                return true;
            }
        }
        false
    }

    /// The row of the least right side, where that calls for a dual step.
    pub fn lowest_row(&self) -> Option<usize> {
        let mut least = -BELOW;
        let mut found = None;
        for row in 0..self.rows {
            let right = item_or(&self.right, row, 0);
            if right < least {
                least = right;
                found = Some(row);
            }
        }
        found
    }

    /// The column with which a row is exchanged in a dual step: that of the least cost for what it brings.
    pub fn dual_column(&self, row: usize) -> Option<usize> {
        let own = self.row(row);
        let mut least = None;
        for at in 0..own.len() {
            if own[at] < -PIVOT {
                let over = item_or(&self.cost, at, 0).max(0);
                let under = 0i64.saturating_sub(own[at]);
                least = lesser(least, Ratio { at, over, under });
            }
        }
        place_of(least)
    }

    /// The column of the least cost, where that calls for a primal step.
    pub fn cheapest_column(&self) -> Option<usize> {
        let mut least = -GAIN;
        let mut found = None;
        for column in 0..self.columns {
            let cost = item_or(&self.cost, column, 0);
            if cost < least {
                least = cost;
                found = Some(column);
            }
        }
        found
    }

    /// The row with which a column is exchanged in a primal step: the one whose unknown is the first to be 0.
    pub fn primal_row(&self, column: usize) -> Option<usize> {
        let mut least = None;
        for at in 0..self.rows {
            let under = item_or(self.row(at), column, 0);
            if under > PIVOT {
                let over = item_or(&self.right, at, 0).max(0);
                least = lesser(least, Ratio { at, over, under });
            }
        }
        place_of(least)
    }
}
