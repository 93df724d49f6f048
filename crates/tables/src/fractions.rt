//! Fractions of 36 binary places, for programmes and games. What is too great for 64 bits is cut off.

/// The binary places of a fraction.
pub const FRACTION_PLACES: u32 = 36;
/// A whole.
pub const UNIT: i64 = 1 << FRACTION_PLACES;
/// The half of the last place that a product drops.
pub const HALF: i128 = 1 << (FRACTION_PLACES - 1);

/// A wide number as one of 64 bits; the nearest one where it is none.
pub fn cut_off(wide: i128) -> i64 {
    i64::try_from(wide).unwrap_or(if wide < 0 { -i64::MAX } else { i64::MAX })
}

/// The product of two fractions, rounded to the nearest, in 128 bits.
pub fn wide_product(a: i64, b: i64) -> i128 {
    i128::from(a).wrapping_mul(i128::from(b)).wrapping_add(HALF) >> FRACTION_PLACES
}
