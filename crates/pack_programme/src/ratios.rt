//! The least of some ratios.

/// A ratio of a number of at least 0 to one above 0, and where it was found.
#[derive(Clone, Copy)]
pub(crate) struct Ratio {
    pub at: usize,
    pub over: i64,
    pub under: i64,
}

impl Ratio {
    /// Whether this ratio is less than another one, or as great with a greater number below.
    fn is_before(self, other: Ratio) -> bool {
        let one = i128::from(self.over).wrapping_mul(i128::from(other.under));
        let two = i128::from(other.over).wrapping_mul(i128::from(self.under));
        one < two || (one == two && self.under > other.under)
    }
}

/// The lesser of the least ratio so far and another one.
pub(crate) fn lesser(least: Option<Ratio>, next: Ratio) -> Option<Ratio> {
    match least {
        Some(ratio) => {
            if next.is_before(ratio) {
                Some(next)
            } else {
                least
            }
        }
        None => Some(next),
    }
}

/// Where a ratio was found.
pub(crate) fn place_of(least: Option<Ratio>) -> Option<usize> {
    match least {
        Some(ratio) => Some(ratio.at),
        None => None,
    }
}
