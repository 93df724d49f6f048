//! The most that buses are worth together, for each number of wires that they may have.
ghost use Rattle.std.specs.Prelude.{◌≡◌, ◌+◌, ◌*◌, ◌^◌, ◌<◌, ◌≤◌, ℕ, length, slice_index};
ghost use Rattle.pack_leaves.specs.Sharings.{IsWidth, IsWithRank, IsWithRest, with_bus};

/// The most over the widths of one bus, from the first to the last that there is: its own worth, and what `row` has for the wires
/// that are left of `x`. 0 where there is no such width.
fn most_with_bus(row: &[u128], worth: &[u64], first: usize, high: usize, x: usize) -> u128
    requires row { x ≤ length row.now }
    requires some { x < length row.now + first }
    requires worth { high < length worth.now }
    requires small { (y : ℕ) → y + first ≤ x → slice_index row.now y ≤ 2 ^ 100 }
    ensures most { (width : ℕ) → IsWidth first high x width →
        with_bus (slice_index worth.now) (slice_index row.now) x width ≤ result }
    ensures reached { (result ≡ 0 → ⊥) → (width : ℕ) × IsWidth first high x width ×
        (with_bus (slice_index worth.now) (slice_index row.now) x width ≡ result) }
{
    let mut most = 0u128;
    for width in first..high.min(x) + 1 {
        most = most.max(u128::from(worth[width]) + row[x - width]);
    }
    most
}

/// Fills a row with the most that buses of the rest are worth, by the worth of a bus on each width up to `high`: the row says it for
/// each number of wires below `end`.
pub fn fill_rest(row: &mut [u128], end: usize, worth: &[u64], high: usize)
    requires within { end ≤ length row.old }
    requires few { end ≤ 300 }
    requires worth { high < length worth.now }
    requires small { (width : ℕ) → width ≤ high → slice_index worth.now width ≤ 10 ^ 18 }
    ensures long { length row.new ≡ length row.old }
    ensures row { (x : ℕ) → x < end →
        IsWithRest (slice_index worth.now) (slice_index row.new) high x (slice_index row.new x) }
    ensures small { (x : ℕ) → x < end → slice_index row.new x ≤ x * 10 ^ 18 }
{
    for x in 0..end {
        row[x] = most_with_bus(row, worth, 1, high, x);
    }
}

/// One rank more, whose bus has up to `span` wires beyond its least, by its worth for each number of these. From the greatest number
/// of wires down, so that none takes the rank twice.
pub fn add_rank(row: &mut [u128], end: usize, worth: &[u64], span: usize)
    requires within { end ≤ length row.old }
    requires worth { span < length worth.now }
    requires small { (x : ℕ) → x < end → slice_index row.old x ≤ 2 ^ 99 }
    ensures long { length row.new ≡ length row.old }
    ensures row { (x : ℕ) → x < end →
        IsWithRank (slice_index worth.now) (slice_index row.old) span x (slice_index row.new x) }
{
    let mut x = end;
    while x > 0 {
        x -= 1;
        row[x] = most_with_bus(row, worth, 0, span, x);
    }
}
