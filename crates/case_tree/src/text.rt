//! Lengths of a proof's text, and weights of fewer digits.

/// The most bytes of a proof's text.
pub const TEXT_MOST: u64 = 1_048_576;
/// The digits that a weight has at most.
pub const DIGITS_MOST: u32 = 9;

/// How many digits a number has.
pub(crate) fn digits_of(number: u64) -> u64 {
    let mut digits: u64 = 1;
    let mut left = number / 10;
    for _ in 0..20 {
        if left == 0 {
            break;
        }
        left /= 10;
        digits = digits.saturating_add(1);
    }
    digits
}

/// The bytes of a number with a space before it.
pub(crate) fn spaced(number: u64) -> u64 {
    digits_of(number).saturating_add(1)
}

/// The bytes of the first two lines, whatever the claim is.
pub(crate) fn head_length() -> u64 {
    34
}

/// The bytes of the line of Wide.
pub(crate) fn wide_length(rank: u64, width: u64) -> u64 {
    spaced(rank).saturating_add(spaced(width)).saturating_add(5)
}

/// The bytes of the line of Place, with `twins` twins, each of which has at most three digits.
pub(crate) fn place_length(module: u64, rank: u64, twins: u64) -> u64 {
    spaced(module)
        .saturating_add(spaced(rank))
        .saturating_add(twins.saturating_mul(4))
        .saturating_add(6)
}

/// The bytes of a list with its weight.
pub(crate) fn list_use_length(list: usize, weight: u64) -> u64 {
    spaced(list as u64)
        .saturating_add(spaced(weight))
        .saturating_add(3)
}

/// The greatest number of `digits` digits, of which there are at most `DIGITS_MOST`; 0 of none.
pub fn nines(digits: u32) -> u64 {
    let mut nines: u64 = 0;
    for _ in 0..digits.min(DIGITS_MOST) {
        nines = nines.saturating_mul(10).saturating_add(9);
    }
    nines
}
