//! The live tests by their names, so that a name is found without a walk: in a set of the names, which a check fills that takes no
//! memory, or by a chip that is resolved.

ghost use Rattle.std.specs.Prelude.{◌≡◌, ℕ, ◌+◌, ◌<◌, ◌≤◌, ◌∷◌, ◌++◌, [], length, false, Some, slice_get, IfSome, IfNone};
ghost use Rattle.std.specs.List.{list_any};
ghost use Rattle.indexmap.specs.IndexSet.{keys, spare};
ghost use Rattle.soc_model.specs.Chips.{module_value, same_test, soc_value};
ghost use Rattle.soc_model.specs.SoundChips.{IsSoundChip};
ghost use Rattle.plan_model.specs.Rules.{live_ids};
ghost use Rattle.live_tests.specs.declared.placed.PlacedTest.{PlacedTest};
ghost use Rattle.live_tests.specs.Names.{AllDiffer, names_in};
ghost use Rattle.plan_checker.specs.Named.{ids_of, names_of};

use crate::lookups::module_count;
use indexmap::IndexSet;
use live_tests::{LiveTests, PlacedTest, Resolved};
use soc_model::{Module, Soc, TestId, module_at};

/// Where the live tests are found by their names, in the order of the chip.
#[derive(Clone, Copy, Drop)]
pub(crate) enum TestNames<'a> {
    /// A set of the names. What the tests of a precedence are it finds one by one.
    Listed(&'a IndexSet<TestId>),
    /// A chip and its limits, resolved: the precedences stand there by the places of their tests.
    Resolved(&'a Resolved),
}

/// Puts a name last.
fn put_name(names: &mut IndexSet<TestId>, id: TestId)
    requires new { list_any (same_test id) (keys names.old) ≡ false }
    requires space { 0 < spare names.old }
    ensures filled { keys names.new ≡ keys names.old ++ id ∷ [] }
    ensures space_left { spare names.old ≤ spare names.new + 1 }
{
    let _ = names.insert(id);
}

/// Puts the names of the live tests of a module last.
fn put_names(module: &Module, names: &mut IndexSet<TestId>)
    requires apart { AllDiffer (keys names.old ++ names_in (module_value «module».now)) }
    requires space { length (names_in (module_value «module».now)) ≤ spare names.old }
    ensures filled { keys names.new ≡ keys names.old ++ names_in (module_value «module».now) }
    ensures space_left { length (keys names.old) + spare names.old
        ≤ length (keys names.new) + spare names.new }
{
    for test in &module.tests {
        if test.patterns == 0 {
            continue;
        }
        let id = TestId {
            module: module.number,
            test: test.number,
        };
        put_name(names, id);
    }
}

/// Writes the names of the live tests, in the order of the chip.
pub(crate) fn fill_names(soc: &Soc, names: &mut IndexSet<TestId>)
    requires sound { IsSoundChip (soc_value soc.now) }
    requires space { length (live_ids (soc_value soc.now))
        ≤ length (keys names.old) + spare names.old }
    ensures filled { keys names.new ≡ live_ids (soc_value soc.now) }
    ensures space_left { length (keys names.old) + spare names.old
        ≤ length (keys names.new) + spare names.new }
{
    names.clear();
    for place in 0..module_count(soc) {
        put_names(module_at(soc, place), names);
    }
}

/// The place of a name in a set.
fn listed_place(names: &IndexSet<TestId>, id: TestId) -> Option<usize>
    ensures found { IfSome result (λ p. slice_get (keys names.now) p ≡ Some id) }
    ensures none { IfNone result ((p : ℕ) → slice_get (keys names.now) p ≡ Some id → ⊥) }
{
    names.get_index_of(&id)
}

/// The place of a name among live tests.
fn live_place(tests: &LiveTests, id: TestId) -> Option<usize>
    ensures found { IfSome result (λ p. slice_get tests.now p ≡ Some id) }
    ensures none { IfNone result ((p : ℕ) → slice_get tests.now p ≡ Some id → ⊥) }
{
    tests.place(id)
}

/// The place of a name.
pub(crate) fn place_named(names: &TestNames<'_>, id: TestId) -> Option<usize>
    ensures found { IfSome result (λ p. slice_get (ids_of names.now) p ≡ Some id) }
    ensures none { IfNone result ((p : ℕ) → slice_get (ids_of names.now) p ≡ Some id → ⊥) }
{
    match names {
        TestNames::Listed(set) => listed_place(set, id),
        TestNames::Resolved(resolved) => live_place(&resolved.tests, id),
    }
}

/// The name at a place in a set.
fn listed_name(names: &IndexSet<TestId>, place: usize) -> TestId
    requires { place < length (keys names.now) }
    ensures { slice_get (keys names.now) place ≡ Some result }
{
    match names.get_index(place) {
        Some(id) => *id,
        None => unreachable!(),
    }
}

/// The name at a place among live tests.
fn live_name(tests: &LiveTests, place: usize) -> TestId
    requires { place < length tests.now }
    ensures { slice_get tests.now place ≡ Some result }
{
    tests.names()[place]
}

/// The name at a place.
pub(crate) fn name_at(names: &TestNames<'_>, place: usize) -> TestId
    requires { place < length (ids_of names.now) }
    ensures { slice_get (ids_of names.now) place ≡ Some result }
{
    match names {
        TestNames::Listed(set) => listed_name(set, place),
        TestNames::Resolved(resolved) => live_name(&resolved.tests, place),
    }
}

/// The test at a place.
pub(crate) fn test_at(placed: &[PlacedTest], place: usize) -> PlacedTest
    requires { place < length placed.now }
    ensures { slice_get placed.now place ≡ Some result }
{
    placed[place]
}

/// The test of a name in a set.
pub(crate) fn test_named(
    placed: &[PlacedTest],
    names: &IndexSet<TestId>,
    id: TestId,
) -> Option<PlacedTest>
    requires { keys names.now ≡ names_of placed.now }
    ensures found { IfSome result (λ t. (p : ℕ) × (slice_get placed.now p ≡ Some t) × (t.id ≡ id)) }
    ensures none { IfNone result
        ((p : ℕ) (t : PlacedTest) → slice_get placed.now p ≡ Some t → t.id ≡ id → ⊥) }
{
    match listed_place(names, id) {
        Some(place) => Some(test_at(placed, place)),
        None => None,
    }
}
