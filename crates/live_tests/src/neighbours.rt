//! The tests that come after each test by precedences, and those before it. Tests go by their places.
ghost use Rattle.std.specs.Prelude.{◌≡◌, ℕ, ◌<◌, [], length, map, slice_index_or, IfOk};
ghost use Rattle.std.specs.List.{All};
ghost use Rattle.live_tests.specs.Neighbours.{after, before, tests_of};

use outside::{NoMemory, push};
use std::alloc::Global;

/// The tests that come after a test, or those before it, in the order of the precedences.
#[derive(Drop)]
pub struct Neighbours {
    /// Their places.
    pub tests: Vec<usize>,
}

/// How often each of `count` tests stands first in some pairs: the room that those after it take.
fn count_after(
    alloc: Global,
    count: usize,
    pairs: &[(usize, usize)],
) -> Result<Vec<usize>, NoMemory>
    requires { All (λ (e : ℕ × ℕ). (e.0 < count) × (e.1 < count)) pairs.now }
    ensures { IfOk result (λ rooms. length rooms.items ≡ count) }
{
    let mut rooms: Vec<usize> = vec![in alloc; 0; count]?;
    for (first, _) in pairs {
        rooms[*first] = rooms[*first].saturating_add(1);
    }
    Ok(rooms)
}

/// For each of `count` tests how many come before it, by pairs of an earlier and a later test. `NoMemory` where memory runs out.
pub fn count_before(
    alloc: Global,
    count: usize,
    pairs: &[(usize, usize)],
) -> Result<Vec<usize>, NoMemory>
    requires { All (λ (e : ℕ × ℕ). (e.0 < count) × (e.1 < count)) pairs.now }
    ensures long { IfOk result (λ counts. length counts.items ≡ count) }
    ensures counts { IfOk result (λ counts. (i : ℕ) → i < count →
        slice_index_or counts.items i 0 ≡ length (before i pairs.now)) }
{
    let mut counts: Vec<usize> = vec![in alloc; 0; count]?;
    for (_, second) in pairs {
        counts[*second] += 1;
    }
    Ok(counts)
}

/// No neighbours for any test, with room for as many of each as `rooms` says.
fn no_neighbours(alloc: Global, rooms: &[usize]) -> Result<Vec<Neighbours>, NoMemory>
    ensures long { IfOk result (λ lists. length lists.items ≡ length rooms.now) }
    ensures none { IfOk result (λ lists. (i : ℕ) → i < length rooms.now →
        slice_index_or (map tests_of lists.items) i [] ≡ []) }
{
    let mut lists = Vec::with_capacity(alloc, rooms.len())?;
    for room in rooms {
        let tests = Vec::with_capacity(alloc, *room)?;
        push(&mut lists, Neighbours { tests })?;
    }
    Ok(lists)
}

/// For each of `count` tests those that come after it, by pairs of an earlier and a later test. `NoMemory` where there is
/// none.
pub fn all_after(
    alloc: Global,
    count: usize,
    pairs: &[(usize, usize)],
) -> Result<Vec<Neighbours>, NoMemory>
    requires { All (λ (e : ℕ × ℕ). (e.0 < count) × (e.1 < count)) pairs.now }
    ensures long { IfOk result (λ lists. length lists.items ≡ count) }
    ensures lists { IfOk result (λ lists. (i : ℕ) → i < count →
        slice_index_or (map tests_of lists.items) i [] ≡ after i pairs.now) }
{
    let rooms = count_after(alloc, count, pairs)?;
    let mut lists = no_neighbours(alloc, &rooms)?;
    for (first, second) in pairs {
        push(&mut lists[*first].tests, *second)?;
    }
    Ok(lists)
}

/// For each of `count` tests those that come before it, by pairs of an earlier and a later test. `NoMemory` where there is
/// none.
pub fn all_before(
    alloc: Global,
    count: usize,
    pairs: &[(usize, usize)],
) -> Result<Vec<Neighbours>, NoMemory>
    requires { All (λ (e : ℕ × ℕ). (e.0 < count) × (e.1 < count)) pairs.now }
    ensures long { IfOk result (λ lists. length lists.items ≡ count) }
    ensures lists { IfOk result (λ lists. (i : ℕ) → i < count →
        slice_index_or (map tests_of lists.items) i [] ≡ before i pairs.now) }
{
    let rooms = count_before(alloc, count, pairs)?;
    let mut lists = no_neighbours(alloc, &rooms)?;
    for (first, second) in pairs {
        push(&mut lists[*second].tests, *first)?;
    }
    Ok(lists)
}
