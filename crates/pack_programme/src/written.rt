//! The rows of a programme as they were given.

use crate::lines::move_part;
use outside::{NoMemory, both};
use std::alloc::Global;
use tables::{NONE, copy_items, filled, item_or, part, part_mut, put_item};

/// Rows of coefficients, each with its right side and its tag.
#[derive(Drop)]
pub(crate) struct WrittenRows {
    columns: usize,
    count: usize,
    rows_most: usize,
    /// The coefficient of a row at a column at [row * columns + column].
    coefficients: Vec<i64>,
    right: Vec<i64>,
    tags: Vec<usize>,
}

impl WrittenRows {
    /// Room for up to so many columns and rows. `NoMemory` where memory runs out.
    pub fn new(
        alloc: Global,
        columns_most: usize,
        rows_most: usize,
    ) -> Result<WrittenRows, NoMemory> {
        let room = columns_most.saturating_mul(rows_most);
        let sides = both(
            filled(alloc, 0i64, rows_most),
            filled(alloc, NONE, rows_most),
        );
        let (coefficients, (right, tags)) = both(filled(alloc, 0i64, room), sides)?;
        Ok(WrittenRows {
            columns: 0,
            count: 0,
            rows_most,
            coefficients,
            right,
            tags,
        })
    }

    /// Begins with no rows.
    pub fn begin(&mut self, columns: usize) {
        self.columns = columns;
        self.count = 0;
    }

    pub fn count(&self) -> usize {
        self.count
    }

    /// Whether one more row has room.
    pub fn has_room(&self) -> bool {
        self.count < self.rows_most
    }

    /// Adds a row.
    pub fn push(&mut self, coefficients: &[i64], right: i64, tag: usize) {
        let start = self.count.saturating_mul(self.columns);
        let own = part_mut(&mut self.coefficients, start, self.columns);
        copy_items(own, coefficients);
        put_item(&mut self.right, self.count, right);
        put_item(&mut self.tags, self.count, tag);
        self.count = self.count.saturating_add(1);
    }

    /// The coefficients of a row.
    pub fn coefficients(&self, row: usize) -> &[i64] {
        part(
            &self.coefficients,
            row.saturating_mul(self.columns),
            self.columns,
        )
    }

    /// The right side of a row.
    pub fn right(&self, row: usize) -> i64 {
        item_or(&self.right, row, 0)
    }

    /// The tag of a row.
    pub fn tag(&self, row: usize) -> usize {
        item_or(&self.tags, row, NONE)
    }

    /// Drops a row: the last one takes its place.
    pub fn drop_row(&mut self, row: usize) {
        let last = self.count.saturating_sub(1);
        let from = last.saturating_mul(self.columns);
        let to = row.saturating_mul(self.columns);
        move_part(&mut self.coefficients, from, to, self.columns);
        let right = self.right(last);
        let tag = self.tag(last);
        put_item(&mut self.right, row, right);
        put_item(&mut self.tags, row, tag);
        self.count = last;
    }
}
