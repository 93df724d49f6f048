//! The most that some items are worth on a bus, for each number of cells that it may have.
ghost use Rattle.std.specs.Prelude.{◌≡◌, ◌+◌, ◌^◌, ◌<◌, ◌≤◌, ℕ, true, length, slice_index};
ghost use Rattle.pack_leaves.specs.Knapsacks.{with_item};

/// Makes a row, up to a place, that of no items: they are worth nothing in any number of cells.
pub fn clear_row(row: &mut [u64], end: usize)
    requires within { end ≤ length row.old }
    ensures long { length row.new ≡ length row.old }
    ensures row { (x : ℕ) → x < end → slice_index row.new x ≡ 0 }
{
    for x in 0..end {
        row[x] = 0;
    }
}

/// The most with an item, in `x` cells: what is known of these without it, or its own worth and the most in the cells that it
/// leaves.
fn most_in(row: &[u64], cells: usize, net: u64, x: usize) -> u64
    requires within { x < length row.now }
    requires cells { cells ≤ x }
    requires small { (y : ℕ) → y ≤ x → slice_index row.now y + net ≤ 10 ^ 18 }
    ensures { result ≡ with_item true cells net (slice_index row.now) x }
{
    row[x].max(net + row[x - cells])
}

/// One item more, which takes `cells` cells and is worth `net`: the row says for each number of cells below `end` the most that the
/// items are worth there. From the greatest number down, so that none takes the item twice.
pub fn add_item(row: &mut [u64], end: usize, cells: usize, net: u64)
    requires within { end ≤ length row.old }
    requires small { (x : ℕ) → x < end → slice_index row.old x + net ≤ 10 ^ 18 }
    ensures long { length row.new ≡ length row.old }
    ensures row { (x : ℕ) → x < end →
        slice_index row.new x ≡ with_item true cells net (slice_index row.old) x }
{
    let mut x = end;
    while cells < x {
        x -= 1;
        row[x] = most_in(row, cells, net, x);
    }
}
