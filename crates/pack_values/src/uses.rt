//! What tests use of lists.

use crate::prices::Prices;

/// What tests use of lists, in cycles. Lists and modules go by their places.
pub trait Uses {
    /// What the live tests of a module over the wires use of a list, on a rank (or `REST`) at a width of at least 1.
    fn of_module(&self, list: usize, module: usize, rank: usize, width: usize) -> u64;

    /// What the live self tests use of a list together.
    fn of_selfs(&self, list: usize) -> u64;

    /// How many tests of a list may be active at once.
    fn most(&self, list: usize) -> u64;

    /// The rank whose bus a list turns on, `NONE` for every other list.
    fn rank(&self, list: usize) -> usize;
}

/// A weight times a number.
pub(crate) fn weighed(weight: u64, number: u64) -> u128 {
    u128::from(weight).wrapping_mul(u128::from(number))
}

/// What the self tests pay for the lists together.
pub(crate) fn self_pay<U: Uses>(uses: &U, prices: &Prices) -> u128 {
    let mut sum: u128 = 0;
    for at in 0..prices.count {
        let used = uses.of_selfs(prices.list(at));
        sum = sum.saturating_add(weighed(prices.weight(at), used));
    }
    sum
}

/// The weights of the lists together, each times how many of its tests may be active at once.
pub(crate) fn list_room<U: Uses>(uses: &U, prices: &Prices) -> u128 {
    let mut sum: u128 = 0;
    for at in 0..prices.count {
        let most = uses.most(prices.list(at));
        sum = sum.saturating_add(weighed(prices.weight(at), most));
    }
    sum
}
