//! The room that a check fills, as large as a chip wants it.

ghost use Rattle.std.specs.Prelude.{◌≡◌, ◌≤◌, length, IfOk, IfSome};
ghost use Rattle.std.specs.List.{filter};
ghost use Rattle.soc_model.specs.Chips.{is_live, live_tests, soc_value};
ghost use Rattle.plan_checker.specs.Room.{AreSizes, HasPlacedRoom, HasRuleRoom};

use crate::events::EVENTS_EACH;
use crate::lookups::module_count;
use crate::meetings::{Begin, NO_BEGIN};
use crate::placed::{NO_TEST, NO_WRAPPERS};
use crate::starts::NO_START;
use bound_certificate::BoundScratch;
use indexmap::IndexSet;
use live_tests::{Event, ModeWrappers, PlacedTest};
use outside::{NoMemory, both};
use plan_model::{Plan, WIRES_MOST};
use soc_model::{Soc, Test, live, module_at};
use std::alloc::{AllocError, Global};

/// How many modules, pairs of a module and a mode, and live tests there is room for.
#[derive(Clone, Copy, Drop)]
pub(crate) struct CheckSizes {
    pub(crate) modules: usize,
    pub(crate) pairs: usize,
    pub(crate) tests: usize,
}

/// What a check of a plan fills.
#[derive(Drop)]
pub(crate) struct PlanRooms {
    /// Room for the rules.
    pub(crate) rules: Rooms,
    /// Room for the list of the certificate.
    pub(crate) bound: BoundScratch,
}

/// What a check of the rules fills: lists that are as long as the chip has modules or live tests, and a set with room for
/// what it takes.
#[derive(Drop)]
pub(crate) struct Rooms {
    /// For each module the place of its bus.
    pub(crate) marks: Vec<usize>,
    /// The pairs of a module and a mode that have a wrapper, in the order of the plan.
    pub(crate) wrappers: IndexSet<(u64, bool)>,
    /// The start of each live test, in the order of the chip.
    pub(crate) starts: Vec<u64>,
    /// What the placed tests fill.
    pub(crate) placed: PlacedRooms,
}

/// What the tests fill once their buses, wrappers and starts have passed.
#[derive(Drop)]
pub(crate) struct PlacedRooms {
    /// For each module the place of its parent.
    pub(crate) parents: Vec<usize>,
    /// For each module its wrappers, walked.
    pub(crate) wrappers: Vec<ModeWrappers>,
    /// The live tests as the plan places them, in the order of the chip.
    pub(crate) tests: Vec<PlacedTest>,
    /// Where they begin, by their starts.
    pub(crate) begins: Vec<Begin>,
    /// The latest ends of the tests that a pass over the begins has seen, for each bus or each module.
    pub(crate) ends: Vec<u64>,
    /// For each test the place of its profile in the limits.
    pub(crate) profiles: Vec<usize>,
    /// What the tests begin and end to draw, by cycles.
    pub(crate) events: Vec<Event>,
}

/// The number of live tests of a list.
fn live_in(tests: &[Test]) -> usize
    ensures { result ≡ length (filter is_live tests.now) }
{
    tests.iter().filter(|test| live(test)).count()
}

/// The number of live tests of the chip. None comes only where it passes its type.
fn live_count(soc: &Soc) -> Option<usize>
    ensures { IfSome result (λ count. count ≡ length (live_tests (soc_value soc.now))) }
{
    let mut count: usize = 0;
    for place in 0..module_count(soc) {
        count = count.checked_add(live_in(&module_at(soc, place).tests))?;
    }
    Some(count)
}

/// What a check of a plan of the chip wants room for. None comes only where a number passes its type.
pub(crate) fn chip_sizes(soc: &Soc) -> Option<CheckSizes>
    ensures { IfSome result (AreSizes (soc_value soc.now)) }
{
    let modules = module_count(soc);
    let pairs = modules.checked_mul(2)?;
    let tests = live_count(soc)?;
    Some(CheckSizes {
        modules,
        pairs,
        tests,
    })
}

/// Room for the placed tests of a chip of `modules` modules and `tests` live tests.
fn placed_rooms(alloc: Global, modules: usize, tests: usize) -> Result<PlacedRooms, AllocError>
    ensures { IfOk result (HasPlacedRoom modules tests) }
{
    let Some(slots) = modules.checked_add(WIRES_MOST as usize + 1) else {
        return Err(AllocError);
    };
    let Some(all_events) = tests.checked_mul(EVENTS_EACH) else {
        return Err(AllocError);
    };
    let places = both(
        both(
            Vec::from_elem(alloc, 0, modules),
            Vec::from_elem(alloc, NO_WRAPPERS, modules),
        ),
        Vec::from_elem(alloc, 0, slots),
    );
    let lists = both(
        Vec::from_elem(alloc, NO_TEST, tests),
        Vec::from_elem(alloc, NO_BEGIN, tests),
    );
    let power = both(
        Vec::from_elem(alloc, 0, tests),
        Vec::with_capacity(alloc, all_events),
    );
    let (((parents, wrappers), ends), ((tests, begins), (profiles, events))) = both(
        places,
        both(lists, power),
    )?;
    Ok(PlacedRooms {
        parents,
        wrappers,
        tests,
        begins,
        ends,
        profiles,
        events,
    })
}

/// Room for the rules.
fn rule_rooms(alloc: Global, sizes: &CheckSizes) -> Result<Rooms, AllocError>
    ensures { IfOk result (HasRuleRoom sizes.now.modules sizes.now.pairs sizes.now.tests) }
{
    let lists = both(
        Vec::from_elem(alloc, 0, sizes.modules),
        Vec::from_elem(alloc, NO_START, sizes.tests),
    );
    let wrappers = IndexSet::with_capacity(alloc, sizes.pairs);
    let (placed, ((marks, starts), wrappers)) = both(
        placed_rooms(alloc, sizes.modules, sizes.tests),
        both(lists, wrappers),
    )?;
    Ok(Rooms {
        marks,
        wrappers,
        starts,
        placed,
    })
}

/// Room for a check of this plan, by the sizes of its chip.
pub(crate) fn plan_rooms(
    alloc: Global,
    sizes: &CheckSizes,
    plan: &Plan,
) -> Result<PlanRooms, NoMemory>
    ensures { IfOk result
        (λ room. HasRuleRoom sizes.now.modules sizes.now.pairs sizes.now.tests room.rules) }
{
    let bound = BoundScratch::new(alloc, &plan.bound)?;
    let Ok(rules) = rule_rooms(alloc, sizes) else {
        // dropped by a call: the end of the scope would drop each of its parts, and be proved for each
        drop(bound);
        return Err(NoMemory);
    };
    Ok(PlanRooms { rules, bound })
}
