//! Shares: parts of a whole, which is `ONE`.

/// The binary places of a share.
pub const SHARE_PLACES: u32 = 30;
/// A whole weight, share or use.
pub const ONE: i64 = 1 << SHARE_PLACES;

/// `cycles` cycles as a share of `cap`, rounded down: 0 where that is 0, and the greatest number where it is greater.
pub fn share_of(cycles: u64, cap: u64) -> u64 {
    let product = u128::from(cycles).wrapping_mul(ONE as u128);
    let parts = product.checked_div(u128::from(cap)).unwrap_or(0);
    u64::try_from(parts).unwrap_or(u64::MAX)
}

/// `cycles` cycles as a share of `cap` in 32 bits: the greatest such number where it is greater.
pub fn short_share(cycles: u64, cap: u64) -> u32 {
    u32::try_from(share_of(cycles, cap)).unwrap_or(u32::MAX)
}

/// A number as a signed part; the greatest one where it is greater.
pub fn as_part(number: u64) -> i64 {
    i64::try_from(number).unwrap_or(i64::MAX)
}

/// A signed part as a number; 0 where it is less.
pub fn as_number(part: i64) -> u64 {
    u64::try_from(part).unwrap_or(0)
}
