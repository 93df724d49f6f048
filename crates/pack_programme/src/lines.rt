//! Rows of a table, and a row that is taken from many others.

use crate::fractions::{has_small_products, less_product, less_small_product, quotient};
use outside::NoMemory;
use std::alloc::Global;
use tables::{copy_items, filled, item_or, part, put_item};

/// Copies `count` items of a list from one place on to another place on.
pub(crate) fn move_part(list: &mut [i64], from: usize, to: usize, count: usize) {
    for place in 0..count {
        let item = item_or(list, from.saturating_add(place), 0);
        put_item(list, to.saturating_add(place), item);
    }
}

/// Takes a line from a row as often as a factor says.
fn take_any(row: &mut [i64], factor: i64, line: &[i64]) {
    let count = row.len().min(line.len());
    for column in 0..count {
        row[column] = less_product(row[column], factor, line[column]);
    }
}

/// Takes a multiple of a line from a row where each product fits into 64 bits. Most of the time of a programme goes by here.
fn take_small(row: &mut [i64], factor: i64, line: &[i64]) {
    let count = row.len().min(line.len());
    for column in 0..count {
        row[column] = less_small_product(row[column], factor, line[column]);
    }
}

/// The number of a list that is farthest from 0, without its sign.
fn most_of(list: &[i64]) -> i64 {
    let mut most = 0;
    for place in 0..list.len() {
        most = most.max(list[place].saturating_abs());
    }
    most
}

/// A row that is taken from others.
#[derive(Drop)]
pub(crate) struct Line {
    numbers: Vec<i64>,
    count: usize,
    /// The number farthest from 0, without its sign.
    most: i64,
}

impl Line {
    /// Room for a row of up to so many columns. `NoMemory` where memory runs out.
    pub fn new(alloc: Global, columns_most: usize) -> Result<Line, NoMemory> {
        let numbers = filled(alloc, 0i64, columns_most)?;
        Ok(Line {
            numbers,
            count: 0,
            most: 0,
        })
    }

    /// The line as a row.
    pub fn numbers(&self) -> &[i64] {
        part(&self.numbers, 0, self.count)
    }

    /// Takes a row.
    pub fn take(&mut self, row: &[i64]) {
        self.count = row.len();
        copy_items(&mut self.numbers, row);
        self.most = most_of(row);
    }

    /// Takes a row in which `one` stands at a column, and all is divided by what stood there.
    pub fn take_over(&mut self, row: &[i64], by: usize, one: i64) {
        let divisor = item_or(row, by, 0);
        self.count = row.len();
        for column in 0..row.len() {
            let number = if column == by { one } else { row[column] };
            put_item(&mut self.numbers, column, quotient(number, divisor));
        }
        self.most = most_of(self.numbers());
    }

    /// Takes the line from a row as often as a factor says.
    pub fn take_from(&self, row: &mut [i64], factor: i64) {
        if has_small_products(factor, self.most) {
            take_small(row, factor, self.numbers());
        } else {
            take_any(row, factor, self.numbers());
        }
    }
}
