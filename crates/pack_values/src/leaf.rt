//! The work of checking a leaf.

use crate::cases::{PackCase, REST};

/// How many widths the known ranks and the rest have together, the width 0 of a rank among them.
fn pairs(case: &PackCase) -> u64 {
    let mut sum = case.high(REST) as u64;
    for rank in 0..case.known {
        let widths = case.high(rank).saturating_sub(case.low(rank)) as u64;
        sum = sum.saturating_add(widths.saturating_add(1));
    }
    sum
}

/// The work that the check of a leaf counts in a case, where the leaf names `prices` prices and `ofs` lists: for each width of a rank
/// or the rest, each price counts the cells, 1 and the lists, and the wires count once. The greatest number at a grain of 0.
pub fn leaf_work(case: &PackCase, claim: u64, grain: u64, prices: u64, ofs: u64) -> u64 {
    let Some(cells) = claim.saturating_sub(1).checked_div(grain) else {
        return u64::MAX;
    };
    let each = cells.saturating_add(1).saturating_add(ofs);
    let steps = prices
        .saturating_mul(each)
        .saturating_add(case.wires as u64);
    pairs(case).saturating_mul(steps)
}
