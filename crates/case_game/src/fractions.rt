//! Rows of fractions.

use tables::{FRACTION_PLACES, HALF, ONE, cut_off, item_or, put_item, wide_product};

/// The product of two fractions, rounded to the nearest.
pub(crate) fn times(a: i64, b: i64) -> i64 {
    cut_off(wide_product(a, b))
}

/// The quotient of two fractions, rounded towards 0; 0 where the second one is 0.
pub(crate) fn over(a: i64, b: i64) -> i64 {
    cut_off(
        (i128::from(a) << FRACTION_PLACES)
            .checked_div(i128::from(b))
            .unwrap_or(0),
    )
}

/// The sum of products of two lists of fractions.
pub(crate) fn dot(a: &[i64], b: &[i64]) -> i64 {
    let count = a.len().min(b.len());
    let mut sum: i128 = HALF;
    for i in 0..count {
        sum = sum.wrapping_add(i128::from(a[i]).wrapping_mul(i128::from(b[i])));
    }
    cut_off(sum >> FRACTION_PLACES)
}

/// Takes `factor` times another row from a row.
pub(crate) fn take_away(row: &mut [i64], factor: i64, other: &[i64]) {
    let count = row.len().min(other.len());
    for i in 0..count {
        let by = other[i];
        if by != 0 {
            row[i] = row[i].saturating_sub(times(factor, by));
        }
    }
}

/// Divides a row.
pub(crate) fn divide_row(row: &mut [i64], by: i64) {
    for i in 0..row.len() {
        if row[i] != 0 {
            row[i] = over(row[i], by);
        }
    }
}

/// The greatest of some numbers, at least 0.
pub(crate) fn most_of(list: &[i64]) -> i64 {
    let mut most = 0;
    for i in 0..list.len() {
        most = most.max(list[i]);
    }
    most
}

/// Whether the quotient of a pair is less than that of another one.
pub(crate) fn is_less(a: (i64, i64), b: (i64, i64)) -> bool {
    i128::from(a.0).wrapping_mul(i128::from(b.1)) < i128::from(b.0).wrapping_mul(i128::from(a.1))
}

/// A part of a sum, in parts of ONE.
pub(crate) fn part_of_sum(part: i64, sum: i64) -> i64 {
    let whole = i128::from(part.max(0)).wrapping_mul(i128::from(ONE));
    cut_off(whole.checked_div(i128::from(sum)).unwrap_or(0)).min(ONE)
}

/// Gives what lacks of ONE to the greatest of the first `count` shares.
pub(crate) fn fill_up(shares: &mut [i64], count: usize) {
    let mut left = ONE;
    let mut best = 0;
    let mut most = -1;
    for i in 0..count {
        let share = item_or(shares, i, 0);
        left = left.saturating_sub(share);
        if share > most {
            most = share;
            best = i;
        }
    }
    let whole = item_or(shares, best, 0).saturating_add(left);
    put_item(shares, best, whole);
}
