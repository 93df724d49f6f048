//! The first loop of the precedences of a number of tests, which go by their places.
ghost use Rattle.std.specs.Prelude.{◌≡◌, ℕ, ◌+◌, ◌-◌, ◌<◌, ◌≤◌, ◌++◌, ◌∷◌, [], false, not, min, length, nat_eq, position, slice_index, slice_set, replicate, IfOk, OnOk, MatchOption, if◌then◌else◌};
ghost use Rattle.std.specs.List.{All};
ghost use Rattle.limits_text.specs.Loops.{IsFirstLoop, HasRank};
ghost use Rattle.limits_text.specs.Orders.{held, copies, Counts, IsKept, GoesOn, IsTaking, AreMarked, least_before as least_of, ComesAgain, IsBack};

use live_tests::{all_after, count_before};
use outside::{NoMemory, push};
use std::alloc::Global;

/// A number, repeated `count` times.
fn repeated(alloc: Global, count: usize, number: usize) -> Result<Vec<usize>, NoMemory>
    ensures { IfOk result (λ counts. counts.items ≡ replicate count number) }
{
    let mut counts = Vec::new(alloc);
    for _ in 0..count {
        push(&mut counts, number)?;
    }
    Ok(counts)
}

/// Adds a test to the order where it is held back no more.
fn take_free(order: &mut Vec<usize>, test: usize, left: usize) -> Result<(), NoMemory>
    ensures taken { OnOk result (left ≡ 0 → order.new.items ≡ order.old.items ++ test ∷ []) }
    ensures kept { OnOk result ((left ≡ 0 → ⊥) → order.new.items ≡ order.old.items) }
{
    if left > 0 {
        return Ok(());
    }
    push(order, test)
}

/// The tests that nothing holds back, in their order.
fn free_tests(alloc: Global, counts: &[usize]) -> Result<Vec<usize>, NoMemory>
    ensures { IfOk result (λ order. IsKept counts.now (length counts.now) order.items) }
{
    let mut order = Vec::new(alloc);
    for test in 0..counts.len() {
        take_free(&mut order, test, counts[test])?;
    }
    Ok(order)
}

/// Holds a test back once less, and takes it where nothing holds it back any more.
fn release_test(
    counts: &mut Vec<usize>,
    order: &mut Vec<usize>,
    test: usize,
) -> Result<(), NoMemory>
    requires within { test < length counts.old.items }
    requires held { 1 ≤ slice_index counts.old.items test }
    requires kept { IsKept counts.old.items (length counts.old.items) order.old.items }
    ensures counts { OnOk result (counts.new.items
        ≡ slice_set counts.old.items test (slice_index counts.old.items test - 1)) }
    ensures kept { OnOk result (IsKept counts.new.items (length counts.old.items) order.new.items) }
    ensures goes_on { OnOk result (GoesOn order.old.items order.new.items) }
{
    let left = counts[test] - 1;
    counts[test] = left;
    take_free(order, test, left)?;
    Ok(())
}

/// Holds each of these tests back once less, and takes those that nothing holds back any more.
fn release_tests(
    counts: &mut Vec<usize>,
    order: &mut Vec<usize>,
    tests: &[usize],
) -> Result<(), NoMemory>
    requires within { All (λ j. j < length counts.old.items) tests.now }
    requires held { (j : ℕ) → j < length counts.old.items →
        copies tests.now j ≤ slice_index counts.old.items j }
    requires kept { IsKept counts.old.items (length counts.old.items) order.old.items }
    ensures long { OnOk result (length counts.new.items ≡ length counts.old.items) }
    ensures counts { OnOk result ((j : ℕ) → j < length counts.old.items →
        slice_index counts.new.items j + copies tests.now j ≡ slice_index counts.old.items j) }
    ensures kept { OnOk result (IsKept counts.new.items (length counts.old.items) order.new.items) }
    ensures goes_on { OnOk result (GoesOn order.old.items order.new.items) }
{
    for test in tests {
        release_test(counts, order, *test)?;
    }
    Ok(())
}

/// All tests that can be taken away, in an order in which they can be: each after all that precede it.
fn taking(alloc: Global, count: usize, pairs: &[(usize, usize)]) -> Result<Vec<usize>, NoMemory>
    requires { All (λ (e : ℕ × ℕ). (e.0 < count) × (e.1 < count)) pairs.now }
    ensures { IfOk result (λ order. IsTaking pairs.now count order.items) }
{
    let mut counts = count_before(alloc, count, pairs)?;
    let lists = all_after(alloc, count, pairs)?;
    let mut order = free_tests(alloc, counts.as_slice())?;
    let mut done = 0usize;
    while done < order.len() {
        let test = order[done];
        done += 1;
        release_tests(&mut counts, &mut order, lists[test].tests.as_slice())?;
    }
    Ok(order)
}

/// Which of `count` tests are in the order.
fn marks(alloc: Global, count: usize, order: &[usize]) -> Result<Vec<bool>, NoMemory>
    requires { All (λ j. j < count) order.now }
    ensures long { IfOk result (λ gone. length gone.items ≡ count) }
    ensures marks { IfOk result (λ gone. AreMarked gone.items order.now) }
{
    let mut gone = unmarked(alloc, count)?;
    for test in order {
        gone[*test] = true;
    }
    Ok(gone)
}

/// No mark for any of `count` tests.
fn unmarked(alloc: Global, count: usize) -> Result<Vec<bool>, NoMemory>
    ensures { IfOk result (λ gone. gone.items ≡ replicate count false) }
{
    let mut gone = Vec::new(alloc);
    for _ in 0..count {
        push(&mut gone, false)?;
    }
    Ok(gone)
}

/// Makes the number of a test no greater than one that is not gone.
fn lower_least(least: &mut Vec<usize>, test: usize, to: usize, is_gone: bool)
    requires { test < length least.old.items }
    ensures { least.new.items ≡ (if is_gone then least.old.items
        else slice_set least.old.items test (min (slice_index least.old.items test) to)) }
{
    if is_gone {
        return;
    }
    let now = least[test];
    least[test] = now.min(to);
}

/// For each test the least test before it that is not gone. A test without one has any number.
fn least_before(
    alloc: Global,
    gone: &[bool],
    pairs: &[(usize, usize)],
) -> Result<Vec<usize>, NoMemory>
    requires some { 1 ≤ length gone.now }
    requires within { All (λ (e : ℕ × ℕ). (e.0 < length gone.now) × (e.1 < length gone.now))
        pairs.now }
    ensures long { IfOk result (λ least. length least.items ≡ length gone.now) }
    ensures small { IfOk result (λ least. All (λ j. j < length gone.now) least.items) }
    ensures least { IfOk result
        (λ least. Counts least.items (least_of gone.now (length gone.now - 1) pairs.now)) }
{
    let mut least = repeated(alloc, gone.len(), gone.len() - 1)?;
    for (first, second) in pairs {
        lower_least(&mut least, *second, *first, gone[*first]);
    }
    Ok(least)
}

/// The place of a test in a list.
fn place_of(tests: &[usize], test: usize) -> Option<usize>
    ensures { result ≡ position (nat_eq test) tests.now }
{
    tests.iter().position(|other| test == *other)
}

/// The tests from `start` on, after each the one that `next` has for it, up to the first that stands there before; and
/// its earlier place.
fn walk_on(alloc: Global, next: &[usize], start: usize) -> Result<(Vec<usize>, usize), NoMemory>
    requires start { start < length next.now }
    requires next { All (λ j. j < length next.now) next.now }
    ensures { IfOk result (λ found. ComesAgain next.now start found.0.items found.1) }
{
    let mut walk = Vec::new(alloc);
    let mut test = start;
    loop {
        if let Some(meets) = place_of(walk.as_slice(), test) {
            push(&mut walk, test)?;
            return Ok((walk, meets));
        }
        push(&mut walk, test)?;
        test = next[test];
    }
}

/// The walk from its last test back to the place after `meets`.
fn back_to(alloc: Global, walk: &[usize], meets: usize) -> Result<Vec<usize>, NoMemory>
    requires { meets + 1 < length walk.now }
    ensures long { IfOk result (λ circle. length circle.items + meets + 1 ≡ length walk.now) }
    ensures back { IfOk result (λ circle. IsBack walk.now circle.items) }
{
    let last = walk.len() - 1;
    let mut circle = Vec::new(alloc);
    for back in 0..last - meets {
        push(&mut circle, walk[last - back])?;
    }
    Ok(circle)
}

/// The first test that is not gone.
fn first_left(gone: &[bool]) -> Option<usize>
    ensures { result ≡ position not gone.now }
{
    gone.iter().position(|is_gone| !*is_gone)
}

/// The first loop of the pairs of `count` tests. None comes exactly where the pairs have no loop.
pub fn first_loop(
    alloc: Global,
    count: usize,
    pairs: &[(usize, usize)],
) -> Result<Option<Vec<usize>>, NoMemory>
    requires { All (λ (e : ℕ × ℕ). (e.0 < count) × (e.1 < count)) pairs.now }
    ensures { IfOk result (λ found. MatchOption found (HasRank pairs.now)
        (λ circle. IsFirstLoop pairs.now count circle.items)) }
{
    let order = taking(alloc, count, pairs)?;
    let gone = marks(alloc, count, order.as_slice())?;
    let Some(start) = first_left(gone.as_slice()) else {
        return Ok(None);
    };
    let least = least_before(alloc, gone.as_slice(), pairs)?;
    let (walk, meets) = walk_on(alloc, least.as_slice(), start)?;
    let circle = back_to(alloc, walk.as_slice(), meets)?;
    Ok(Some(circle))
}
