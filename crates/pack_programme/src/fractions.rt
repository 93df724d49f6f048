//! What a programme makes of fractions. What is too great is cut off.

use tables::{FRACTION_PLACES, cut_off, wide_product};

/// The lower half of a wide number.
const LOWER: u128 = (1 << 64) - 1;
/// Where a product of two fractions is less than this, it fits into 64 bits.
const FITS: i128 = 1 << 98;

/// The lower 64 bits of a wide number.
fn lower(wide: i128) -> i64 {
    ((wide.cast_unsigned() & LOWER) as u64).cast_signed()
}

/// A fraction less the product of two others.
pub(crate) fn less_product(from: i64, a: i64, b: i64) -> i64 {
    cut_off(i128::from(from).wrapping_sub(wide_product(a, b)))
}

/// A fraction less the product of two others, where the product fits into 64 bits.
pub(crate) fn less_small_product(from: i64, a: i64, b: i64) -> i64 {
    from.saturating_sub(lower(wide_product(a, b)))
}

/// Whether the product of a fraction and one of at most `most`, which is at least 0, fits into 64 bits.
pub(crate) fn has_small_products(a: i64, most: i64) -> bool {
    i128::from(a.saturating_abs()).wrapping_mul(i128::from(most)) < FITS
}

/// The quotient of two fractions, to the nearest one; 0 where the second is 0.
pub(crate) fn quotient(a: i64, b: i64) -> i64 {
    if a == 0 {
        return 0;
    }
    let twice = (i128::from(a) << (FRACTION_PLACES + 1))
        .checked_div(i128::from(b))
        .unwrap_or(0);
    let nearer = if (a < 0) == (b < 0) { 1 } else { -1 };
    cut_off(twice.wrapping_add(nearer) / 2)
}
