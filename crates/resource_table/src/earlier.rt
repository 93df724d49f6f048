//! The tests that precede each test. Tests go by their places in the job.
ghost use Rattle.std.specs.Prelude.{◌≡◌, ℕ, ◌<◌, [], length, map, slice_index_or, IfOk};
ghost use Rattle.std.specs.List.{All};
ghost use Rattle.resource_table.specs.Befores.{tests_before, listed};

use live_tests::{Neighbours, all_before as all_listed};
use outside::NoMemory;
use std::alloc::Global;

/// For each of `count` tests those that precede it, by pairs of an earlier and a later test. `NoMemory` where there is
/// none.
pub fn all_before(
    alloc: Global,
    count: usize,
    pairs: &[(usize, usize)],
) -> Result<Vec<Neighbours>, NoMemory>
    requires { All (λ (p : ℕ × ℕ). (p.0 < count) × (p.1 < count)) pairs.now }
    ensures long { IfOk result (λ lists. length lists.items ≡ count) }
    ensures lists { IfOk result (λ lists. (i : ℕ) → i < count →
        slice_index_or (map listed lists.items) i [] ≡ tests_before i pairs.now) }
{
    let lists = all_listed(alloc, count, pairs)?;
    Ok(lists)
}

/// The tests before a test.
pub fn earlier_than(before: &[Neighbours], test: usize) -> &[usize]
    requires { test < length before.now }
    ensures { result.now ≡ slice_index_or (map listed before.now) test [] }
{
    before[test].tests.as_slice()
}
