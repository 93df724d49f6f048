//! Where modules and tests stand in a chip.
ghost use Rattle.std.specs.Prelude.{◌≡◌, ℕ, ◌<◌, ◌≤◌, true, Some, length, position, slice_get, nat_eq, IfSome, IfNone};
ghost use Rattle.soc_model.specs.Chips.{soc_value, module_value, is_live, level_at, parent_place, IsParent};
ghost use Rattle.soc_model.specs.Lookups.{module_place, test_places};
ghost use Rattle.soc_model.specs.declared.Test.{Test};

use crate::{Module, Soc, Test, TestId};

/// Whether the module of a number stands at a place.
fn stands_at(soc: &Soc, place: usize, number: u64) -> bool
    ensures { result ≡ true → module_place (soc_value soc.now) number ≡ Some place }
{
    if place >= soc.modules.len() {
        return false;
    }
    match soc.modules.get_index(place) {
        Some((found, _)) if *found == number => true,
        _ => false,
    }
}

/// The place of the module that is found by a number, counted from 0 by first mention. None comes exactly where the
/// number isn't there. Most chips number their modules in their order, from 1 or from 0, so that these places are looked at
/// first.
pub fn place_of(soc: &Soc, number: u64) -> Option<usize>
    ensures { result ≡ module_place (soc_value soc.now) number }
{
    let place = number as usize;
    let before = place.saturating_sub(1);
    if stands_at(soc, before, number) {
        return Some(before);
    }
    if stands_at(soc, place, number) {
        return Some(place);
    }
    soc.modules.get_index_of(&number)
}

/// The module at a place, counted from 0 by first mention.
pub fn module_at(soc: &Soc, place: usize) -> &Module
    requires { place < length (soc_value soc.now).modules }
    ensures { slice_get (soc_value soc.now).modules place ≡ Some (module_value result.now) }
{
    match soc.modules.get_index(place) {
        Some((_, module)) => module,
        None => unreachable!(),
    }
}

/// The place of the first test of that number.
fn test_at(tests: &[Test], number: u64) -> Option<usize>
    ensures { result ≡ position (λ (t : Test). nat_eq number t.number) tests.now }
{
    tests.iter().position(|test| number == test.number)
}

/// The place of a test's module and its own place in that module. None comes exactly where the chip has no such module
/// or that module no such test.
pub fn find_test(soc: &Soc, id: TestId) -> Option<(usize, usize)>
    ensures { result ≡ test_places (soc_value soc.now) id }
{
    let place = place_of(soc, id.module)?;
    let (_, module) = soc.modules.get_index(place)?;
    let test = test_at(&module.tests, id.test)?;
    Some((place, test))
}

/// Whether a test is live: it has at least one pattern.
pub fn live(test: &Test) -> bool
    ensures { result ≡ is_live test.now }
{
    test.patterns >= 1
}

/// The level of the module at a place.
fn level_of(soc: &Soc, place: usize) -> u64
    requires { place < length (soc_value soc.now).modules }
    ensures { result ≡ level_at (soc_value soc.now).modules place }
{
    module_at(soc, place).level
}

/// The place of a module's parent: the nearest module before it, by first mention, whose level is smaller. None comes
/// exactly where no earlier level is smaller.
pub fn parent(soc: &Soc, place: usize) -> Option<usize>
    requires { place < length (soc_value soc.now).modules }
    ensures parent { IfSome result (λ found. IsParent (soc_value soc.now).modules found place) }
    ensures none { IfNone result ((q : ℕ) → q < place → level_at (soc_value soc.now).modules place
        ≤ level_at (soc_value soc.now).modules q) }
    ensures place { result ≡ parent_place (soc_value soc.now).modules place }
{
    let level = level_of(soc, place);
    for at in (0..place).rev() {
        if level_of(soc, at) < level {
            return Some(at);
        }
    }
    None
}
