//! The list of a Chain certificate: live tests, each but the first behind its forerunner in a precedence. The pairs of
//! neighbours at the front of the list go into a map, in which one pass over the precedences notes those that it finds.
ghost use Rattle.std.specs.Prelude.{◌≡◌, ℕ, ◌+◌, ◌-◌, ◌<◌, ◌≤◌, ◌||◌, ◌↔◌, Bool, false, Some, None, IsTrue, MatchBool, is_some, length, option_map, slice_get, take};
ghost use Rattle.std.specs.List.{Contains};
ghost use Rattle.indexmap.specs.IndexMap.{index_map_len, spare};
ghost use Rattle.soc_model.specs.declared.TestId.{TestId};
ghost use Rattle.soc_model.specs.declared.TheConstants.{TESTS_MOST};
ghost use Rattle.soc_model.specs.Chips.{soc_value};
ghost use Rattle.soc_model.specs.SoundChips.{IsSoundChip};
ghost use Rattle.plan_model.specs.Views.{limits_value};
ghost use Rattle.plan_model.specs.Plans.{OfChain};
ghost use Rattle.plan_model.specs.SoundLimits.{IsSoundLimits};
ghost use Rattle.plan_model.specs.Certificates.{IsChainItem};
ghost use Rattle.bound_certificate.specs.Breaches.{IsBreachPlace};
ghost use Rattle.bound_certificate.specs.Checks.{IsCheck};
ghost use Rattle.bound_certificate.specs.Pairs.{is_among, noted, replaced, with_note, AreNeighbours, AreStated};

use crate::{BoundFault, enough};
use bound_rules::{chain_bound, live_time};
use indexmap::IndexMap;
use plan_model::Limits;
use soc_model::{Soc, TESTS_MOST, TestId};

/// Whether a precedence sets the second test behind the first.
fn is_before(before: &[(TestId, TestId)], first: TestId, second: TestId) -> bool
    ensures { IsTrue result ↔ Contains before.now (first, second) }
{
    for (a, b) in before {
        if a.module == first.module
            && a.test == first.test
            && b.module == second.module
            && b.test == second.test
        {
            return true;
        }
    }
    false
}

/// Neighbours in a list of tests, each with whether a precedence sets the second behind the first.
pub type Pairs = IndexMap<(TestId, TestId), bool>;

/// What is noted of a pair, false where nothing is.
fn is_stated(pairs: &Pairs, first: TestId, second: TestId) -> bool
    ensures { (b : Bool) → noted pairs.now (first, second) ≡ Some b → result ≡ b }
{
    pairs.get(&(first, second)).copied().unwrap_or(false)
}

/// Replaces what is noted of a pair, where something is.
fn replace_note(pairs: &mut Pairs, first: TestId, second: TestId, stated: bool)
    ensures replaced { (q : TestId × TestId) →
        noted pairs.new q ≡ replaced (first, second) stated q (noted pairs.old q) }
    ensures count { index_map_len pairs.new ≡ index_map_len pairs.old }
    ensures room { spare pairs.new ≡ spare pairs.old }
{
    if let Some(found) = pairs.get_mut(&(first, second)) {
        *found = stated;
    }
}

/// Notes false of a pair of which nothing is noted.
fn add_note(pairs: &mut Pairs, first: TestId, second: TestId)
    requires room { 0 < spare pairs.old }
    requires new { noted pairs.old (first, second) ≡ None }
    ensures noted { (q : TestId × TestId) →
        noted pairs.new q ≡ with_note (first, second) false q (noted pairs.old q) }
    ensures count { index_map_len pairs.new ≡ index_map_len pairs.old + 1 }
    ensures room { spare pairs.old ≤ spare pairs.new + 1 }
{
    let _ = pairs.insert((first, second), false);
}

/// Whether something is noted of a pair.
fn is_noted(pairs: &Pairs, first: TestId, second: TestId) -> bool
    ensures { result ≡ is_some (noted pairs.now (first, second)) }
{
    pairs.contains_key(&(first, second))
}

/// Notes false of a pair.
fn put_pair(pairs: &mut Pairs, first: TestId, second: TestId)
    requires { 0 < spare pairs.old }
    ensures noted { (q : TestId × TestId) →
        noted pairs.new q ≡ with_note (first, second) false q (noted pairs.old q) }
    ensures few { index_map_len pairs.new ≤ index_map_len pairs.old + 1 }
    ensures room { index_map_len pairs.old + spare pairs.old
        ≤ index_map_len pairs.new + spare pairs.new }
{
    if is_noted(pairs, first, second) {
        replace_note(pairs, first, second, false);
    } else {
        add_note(pairs, first, second);
    }
}

/// How many pairs of neighbours go into the map: each of the first tests with the one behind it, as many as a chip may
/// have tests.
fn pair_count(tests: &[TestId]) -> usize
    ensures all { (place : ℕ) → place < TESTS_MOST → place + 1 < length tests.now → place < result }
    ensures few { result ≤ TESTS_MOST }
    ensures within { result ≤ length tests.now - 1 }
{
    tests.len().saturating_sub(1).min(TESTS_MOST as usize)
}

/// Writes the pairs of neighbours at the front of a list, with false for each.
fn list_pairs(tests: &[TestId], pairs: &mut Pairs)
    requires { TESTS_MOST ≤ index_map_len pairs.old + spare pairs.old }
    ensures listed { (a b : TestId) → AreNeighbours tests.now a b →
        noted pairs.new (a, b) ≡ Some false }
    ensures room { TESTS_MOST ≤ index_map_len pairs.new + spare pairs.new }
{
    pairs.clear();
    for place in 0..pair_count(tests) {
        put_pair(pairs, tests[place], tests[place + 1]);
    }
}

/// Notes the pairs that are precedences.
fn note_stated(before: &[(TestId, TestId)], pairs: &mut Pairs)
    ensures stated { (q : TestId × TestId) →
        noted pairs.new q ≡ option_map (λ b. b || is_among before.now q) (noted pairs.old q) }
    ensures count { index_map_len pairs.new ≡ index_map_len pairs.old }
    ensures room { spare pairs.new ≡ spare pairs.old }
{
    for (first, second) in before {
        replace_note(pairs, *first, *second, true);
    }
}

/// Writes the pairs of neighbours at the front of a list, each with whether a precedence sets the second behind the first.
fn fill_pairs(before: &[(TestId, TestId)], tests: &[TestId], pairs: &mut Pairs)
    requires { TESTS_MOST ≤ index_map_len pairs.old + spare pairs.old }
    ensures stated { AreStated before.now tests.now pairs.new }
    ensures room { TESTS_MOST ≤ index_map_len pairs.new + spare pairs.new }
{
    list_pairs(tests, pairs);
    note_stated(before, pairs);
}

/// Whether a precedence sets a test of a list behind the one before it. Where precedences have no cycle and the tests
/// before it keep the rule, at most one place lies behind the pairs.
fn stands_behind(before: &[(TestId, TestId)], tests: &[TestId], place: usize, pairs: &Pairs) -> bool
    requires later { 1 ≤ place }
    requires within { place < length tests.now }
    requires stated { AreStated before.now tests.now pairs.now }
    ensures { (a b : TestId) → slice_get tests.now (place - 1) ≡ Some a →
        slice_get tests.now place ≡ Some b → IsTrue result ↔ Contains before.now (a, b) }
{
    let first = tests[place - 1];
    let second = tests[place];
    if place <= TESTS_MOST as usize {
        is_stated(pairs, first, second)
    } else {
        is_before(before, first, second)
    }
}

/// Whether a test of a list is live and is set behind the one before it by a precedence.
fn keeps_chain(soc: &Soc, limits: &Limits, tests: &[TestId], place: usize, pairs: &Pairs) -> bool
    requires sound { IsSoundChip (soc_value soc.now) }
    requires limits { IsSoundLimits (soc_value soc.now) (limits_value limits.now) }
    requires place { place < length tests.now }
    requires stated { AreStated limits.now.before.items tests.now pairs.now }
    ensures { (id : TestId) → slice_get tests.now place ≡ Some id →
        MatchBool result
        (IsChainItem (soc_value soc.now) (limits_value limits.now) (take place tests.now) id)
        (IsChainItem (soc_value soc.now) (limits_value limits.now) (take place tests.now) id →
        ⊥) }
{
    if live_time(soc, tests[place], limits.wires).is_none() {
        return false;
    }
    place == 0 || stands_behind(&limits.before, tests, place, pairs)
}

/// The first place of a list of tests that breaks the rule of precedence chains.
fn chain_breach(soc: &Soc, limits: &Limits, tests: &[TestId], pairs: &Pairs) -> Option<usize>
    requires sound { IsSoundChip (soc_value soc.now) }
    requires limits { IsSoundLimits (soc_value soc.now) (limits_value limits.now) }
    requires stated { AreStated limits.now.before.items tests.now pairs.now }
    ensures { IsBreachPlace (IsChainItem (soc_value soc.now) (limits_value limits.now)) tests.now
        result }
{
    for place in 0..tests.len() {
        if !keeps_chain(soc, limits, tests, place, pairs) {
            return Some(place);
        }
    }
    None
}

/// The check of kind Chain.
pub fn check_chain(
    soc: &Soc,
    limits: &Limits,
    tests: &[TestId],
    claimed: u64,
    pairs: &mut Pairs,
) -> Result<(), BoundFault>
    requires sound { IsSoundChip (soc_value soc.now) }
    requires limits { IsSoundLimits (soc_value soc.now) (limits_value limits.now) }
    requires room { TESTS_MOST ≤ index_map_len pairs.old + spare pairs.old }
    ensures check { IsCheck (soc_value soc.now) (limits_value limits.now) claimed
        (OfChain tests.now) result }
    ensures room { TESTS_MOST ≤ index_map_len pairs.new + spare pairs.new }
{
    fill_pairs(&limits.before, tests, pairs);
    match chain_breach(soc, limits, tests, pairs) {
        Some(place) => Err(BoundFault::BadList { place }),
        None => enough(claimed, chain_bound(soc, tests, limits.wires)),
    }
}
