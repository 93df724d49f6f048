//! The tests that paths of precedences lead to. Tests go by their places.
ghost use Rattle.std.specs.Prelude.{◌≡◌, ◌↔◌, ℕ, ◌<◌, true, List, length, map, IfOk, OnOk};
ghost use Rattle.proof_facts.specs.Exclusions.{Leads};
ghost use Rattle.proof_facts.specs.Marks.{AreAfter, AreAmong, AreBefore, AreMarked, LedTo, is_in, is_marked};
ghost use Rattle.live_tests.specs.Neighbours.{tests_of};

use live_tests::Neighbours;
use outside::{NoMemory, push};
use std::alloc::Global;

/// Marks the tests of a list, and puts those that weren't marked on a stack.
fn mark_all(tests: &[usize], marks: &mut Vec<bool>, stack: &mut Vec<usize>) -> Result<(), NoMemory>
    requires { (j : ℕ) → is_in j tests.now ≡ true → j < length marks.old.items }
    ensures { OnOk result
        (AreMarked tests.now marks.old.items marks.new.items stack.old.items stack.new.items) }
{
    for test in tests {
        if marks[*test] {
            continue;
        }
        marks[*test] = true;
        push(stack, *test)?;
    }
    Ok(())
}

/// Marks each test that a path from neighbour to neighbour leads to, of one step or more.
fn led_to(alloc: Global, lists: &[Neighbours], from: usize) -> Result<Vec<bool>, NoMemory>
    requires among { AreAmong lists.now }
    requires from { from < length lists.now }
    ensures long { IfOk result (λ marks. length marks.items ≡ length lists.now) }
    ensures marks { IfOk result (λ marks. (j : ℕ) →
        (is_marked marks.items j ≡ true) ↔ LedTo (map tests_of lists.now) from j) }
{
    let mut marks: Vec<bool> = vec![in alloc; false; lists.len()]?;
    let mut stack = Vec::new(alloc);
    push(&mut stack, from)?;
    while let Some(test) = stack.pop() {
        mark_all(&lists[test].tests, &mut marks, &mut stack)?;
    }
    Ok(marks)
}

/// Marks each test that a path of precedences leads to from a test, where the lists have for each test those that come
/// after it. `NoMemory` where memory runs out.
pub fn tests_after(alloc: Global, lists: &[Neighbours], test: usize) -> Result<Vec<bool>, NoMemory>
    requires lists { (pairs : List (ℕ × ℕ)) × AreAfter pairs lists.now }
    requires test { test < length lists.now }
    ensures long { IfOk result (λ marks. length marks.items ≡ length lists.now) }
    ensures marks { IfOk result (λ marks. (pairs : List (ℕ × ℕ)) → AreAfter pairs lists.now →
        (j : ℕ) → (is_marked marks.items j ≡ true) ↔ Leads pairs test j) }
{
    led_to(alloc, lists, test)
}

/// Marks each test from which a path of precedences leads to a test, where the lists have for each test those that come
/// before it. `NoMemory` where memory runs out.
pub fn tests_before(alloc: Global, lists: &[Neighbours], test: usize) -> Result<Vec<bool>, NoMemory>
    requires lists { (pairs : List (ℕ × ℕ)) × AreBefore pairs lists.now }
    requires test { test < length lists.now }
    ensures long { IfOk result (λ marks. length marks.items ≡ length lists.now) }
    ensures marks { IfOk result (λ marks. (pairs : List (ℕ × ℕ)) → AreBefore pairs lists.now →
        (j : ℕ) → (is_marked marks.items j ≡ true) ↔ Leads pairs j test) }
{
    led_to(alloc, lists, test)
}
