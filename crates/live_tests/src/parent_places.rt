//! The parent of each module: the nearest one before it of a smaller level. Each is found through the parents before it.

ghost use Rattle.std.specs.Prelude.{◌≡◌, ℕ, ◌<◌, ◌≤◌, length, IfOk};
ghost use Rattle.soc_model.specs.Chips.{IsParent, level_at, soc_value};
ghost use Rattle.live_tests.specs.Parents.{AreParentPlaces, AreParents, HasParentAt, below as below_count};

use crate::placed::module_count;
use outside::{NoMemory, push};
use soc_model::{Soc, module_at};
use std::alloc::Global;

/// The level of the module at a place.
fn level_of(soc: &Soc, place: usize) -> u64
    requires { place < length (soc_value soc.now).modules }
    ensures { result ≡ level_at (soc_value soc.now).modules place }
{
    module_at(soc, place).level
}

/// The place before one; where it is the first, `count`.
fn before(place: usize, count: usize) -> usize
    requires { place < count }
    ensures within { result ≤ count }
    ensures earlier { result < count → result < place }
    ensures last { (k : ℕ) → k < place → (k ≤ result) × (result < count) }
{
    if place == 0 { count } else { place - 1 }
}

/// The place of the parent of the module at a place; the number of modules where it has none. Behind the parent of an earlier
/// module all are of no smaller level than that one, so the look goes on there. Over all modules it takes as many steps as
/// there are modules, at most twice.
fn parent_of(soc: &Soc, parents: &[usize], place: usize) -> usize
    requires there { place < length (soc_value soc.now).modules }
    requires long { length parents.now ≡ length (soc_value soc.now).modules }
    requires earlier { (p : ℕ) → p < place → HasParentAt (soc_value soc.now) parents.now p }
    ensures is { result < length (soc_value soc.now).modules →
        IsParent (soc_value soc.now).modules result place }
    ensures only { (r : ℕ) → IsParent (soc_value soc.now).modules r place → r ≡ result }
    ensures within { result ≤ length (soc_value soc.now).modules }
{
    let count = module_count(soc);
    let level = level_of(soc, place);
    let mut at = before(place, count);
    while at < count {
        if level_of(soc, at) < level {
            return at;
        }
        at = parents[at];
    }
    count
}

/// Writes for each module the place of its parent; the number of modules where it has none.
pub fn fill_parents(soc: &Soc, parents: &mut [usize])
    requires { length parents.old ≡ length (soc_value soc.now).modules }
    ensures { AreParents (soc_value soc.now) parents.new }
{
    for place in 0..module_count(soc) {
        let found = parent_of(soc, parents, place);
        parents[place] = found;
    }
}

/// A place, where it is less than the count.
fn below(count: usize, place: usize) -> Option<usize>
    ensures { result ≡ below_count count place }
{
    if place < count { Some(place) } else { None }
}

/// For each module of a chip the place of its parent, in one pass. None stands exactly where a module has no parent.
/// `NoMemory` where memory runs out.
pub fn parents(alloc: Global, soc: &Soc) -> Result<Vec<Option<usize>>, NoMemory>
    ensures { IfOk result (λ parents. AreParentPlaces (soc_value soc.now) parents.items) }
{
    let count = module_count(soc);
    let mut places: Vec<usize> = vec![in alloc; 0; count]?;
    fill_parents(soc, &mut places);
    let mut parents = Vec::new(alloc);
    for place in &places {
        push(&mut parents, below(count, *place))?;
    }
    Ok(parents)
}
