//! The live tests of a chip by name, and precedences by the places of their tests.
//!
//! A place is counted from 0 in the order of the chip: modules by first mention, and the live tests of each by first
//! mention.
#![tactic(auto)]

ghost use Rattle.std.specs.Prelude.{◌≡◌, ◌++◌, IfOk, OnOk, position};
ghost use Rattle.std.specs.List.{flat_map};
ghost use Rattle.std.specs.Map.{lookup};
ghost use Rattle.soc_model.specs.declared.TestId.{TestId};
ghost use Rattle.soc_model.specs.Chips.{module_value, same_test, soc_value};
ghost use Rattle.plan_model.specs.Rules.{live_ids};
ghost use Rattle.live_tests.specs.Names.{both_places, names_in, places_of};

mod index;
mod neighbours;
mod parent_places;
mod placed;
mod placed_plan;
mod power_events;
mod problem;
mod profiles;
mod resolved;
mod wires;
mod wrapped;

pub use index::{bus_place, buses_by_module, wrappers_by_mode};
use indexmap::IndexMap;
pub use neighbours::{Neighbours, all_after, all_before, count_before};
use outside::{NoMemory, push};
pub use parent_places::{fill_parents, parents};
pub use placed::{Placed, PlacedTest, bus_over, placed_test};
pub use placed_plan::PlacedPlan;
pub use power_events::{Event, is_last_of_cycle, power_steps, put_steps, sort_events};
pub use problem::Problem;
pub use profiles::{profile_place, profile_places};
pub use resolved::Resolved;
use soc_model::{Module, Soc, TestId, live};
use std::alloc::Global;
use std::marker::Model;
pub use wires::{all_wires, first_wires};
pub use wrapped::{ModeWrapper, ModeWrappers, walked};

/// The names of the live tests of a chip, in its order.
#[derive(Drop)]
pub struct LiveTests {
    names: Vec<TestId>,
    places: IndexMap<TestId, usize>,
}

impl Model for LiveTests {
    ghost use Rattle.std.specs.Prelude.{◌≡◌, List, position};
    ghost use Rattle.std.specs.Map.{lookup};
    ghost use Rattle.soc_model.specs.declared.TestId.{TestId};
    ghost use Rattle.soc_model.specs.Chips.{same_test};

    ghost Value = { List TestId };

    ghost view = { λ t. t.names.items };

    ghost invariant = { λ t. (id : TestId) →
        lookup (same_test id) t.places.entries ≡ position (same_test id) t.names.items };
}

impl LiveTests {
    /// The live tests of a chip. `NoMemory` where memory runs out.
    pub fn new(alloc: Global, soc: &Soc) -> Result<LiveTests, NoMemory>
        ensures { IfOk result (λ tests. tests ≡ live_ids (soc_value soc.now)) }
    {
        let names = live_names(alloc, soc)?;
        let places = places_by_name(alloc, &names)?;
        Ok(LiveTests { names, places })
    }

    /// The names, in the order of the chip.
    pub fn names(&self) -> &[TestId]
        ensures { result.now ≡ self.now }
    {
        &self.names
    }

    /// The place of a test: the first of its name. None comes exactly where the chip has no live test of that name.
    pub fn place(&self, id: TestId) -> Option<usize>
        ensures { result ≡ position (same_test id) self.now }
    {
        self.places.get(&id).copied()
    }

    /// The precedences by the places of their tests, in their order; those that name a test that isn't live are left
    /// out. `NoMemory` where memory runs out.
    pub fn precedences(
        &self,
        alloc: Global,
        before: &[(TestId, TestId)],
    ) -> Result<Vec<(usize, usize)>, NoMemory>
        ensures { IfOk result (λ pairs. pairs.items ≡ flat_map (places_of self.now) before.now) }
    {
        pairs_of(alloc, self, before)
    }
}

/// Adds the names of the live tests of a module.
fn push_names(names: &mut Vec<TestId>, module: &Module) -> Result<(), NoMemory>
    ensures { OnOk result
        (names.new.items ≡ names.old.items ++ names_in (module_value «module».now)) }
{
    for test in &module.tests {
        if live(test) {
            let id = TestId {
                module: module.number,
                test: test.number,
            };
            push(names, id)?;
        }
    }
    Ok(())
}

/// The names of the live tests, in the order of the chip.
fn live_names(alloc: Global, soc: &Soc) -> Result<Vec<TestId>, NoMemory>
    ensures { IfOk result (λ names. names.items ≡ live_ids (soc_value soc.now)) }
{
    let mut names = Vec::new(alloc);
    for module in soc.modules.values() {
        push_names(&mut names, module)?;
    }
    Ok(names)
}

/// The place of each name; of more than one the first.
fn places_by_name(alloc: Global, names: &[TestId]) -> Result<IndexMap<TestId, usize>, NoMemory>
    ensures { IfOk result (λ places. (id : TestId) →
        lookup (same_test id) places.entries ≡ position (same_test id) names.now) }
{
    let mut places = IndexMap::with_capacity(alloc, names.len())?;
    for place in (0..names.len()).rev() {
        places.insert(names[place], place)?;
    }
    Ok(places)
}

/// Adds a pair of places, where there are both.
fn push_both(
    pairs: &mut Vec<(usize, usize)>,
    first: Option<usize>,
    second: Option<usize>,
) -> Result<(), NoMemory>
    ensures { OnOk result (pairs.new.items ≡ pairs.old.items ++ both_places first second) }
{
    let Some(earlier) = first else {
        return Ok(());
    };
    let Some(later) = second else {
        return Ok(());
    };
    push(pairs, (earlier, later))
}

/// The precedences whose tests both have places.
fn pairs_of(
    alloc: Global,
    tests: &LiveTests,
    before: &[(TestId, TestId)],
) -> Result<Vec<(usize, usize)>, NoMemory>
    ensures { IfOk result (λ pairs. pairs.items ≡ flat_map (places_of tests.now) before.now) }
{
    let mut pairs = Vec::new(alloc);
    for (first, second) in before {
        push_both(&mut pairs, tests.place(*first), tests.place(*second))?;
    }
    Ok(pairs)
}
