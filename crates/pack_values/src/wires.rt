//! What buses are worth together, for each number of wires.

use tables::{item_or, put_item};

/// The most over the widths of one bus, from the first to the last that there is: its own worth, at its place behind `base`, and what the
/// row has for the wires that are left of `x`. 0 where there is no such width.
fn with_bus(row: &[u128], worth: &[u64], base: usize, first: usize, last: usize, x: usize) -> u128 {
    let mut most: u128 = 0;
    for width in first..last.min(x).saturating_add(1) {
        let own = u128::from(item_or(worth, base.saturating_add(width), 0));
        let left = item_or(row, x.saturating_sub(width), 0);
        most = most.max(own.wrapping_add(left));
    }
    most
}

/// Fills a row with the most that any number of buses are worth, each of 1 to `high` wires: for each number of wires up to `spare`.
pub(crate) fn fill_rest(row: &mut [u128], spare: usize, worth: &[u64], base: usize, high: usize) {
    for x in 0..spare.saturating_add(1) {
        let most = with_bus(row, worth, base, 1, high, x);
        put_item(row, x, most);
    }
}

/// One bus more, which has up to `span` wires beyond its least. From the greatest number of wires down, so that none takes it twice.
pub(crate) fn add_bus(row: &mut [u128], spare: usize, worth: &[u64], base: usize, span: usize) {
    for back in 0..spare.saturating_add(1) {
        let x = spare.saturating_sub(back);
        let most = with_bus(row, worth, base, 0, span, x);
        put_item(row, x, most);
    }
}
