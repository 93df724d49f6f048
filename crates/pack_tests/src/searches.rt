//! Small cases whose best plans were worked out by hand.

use outside::NoMemory;
use pack_search::{Asked, Found, PackSearch, Warm};
use pack_values::{PackCase, PackRoom, Prices, REST, Uses};
use std::alloc::Global;
use std::test::Fail;
use tables::NONE;

/// No lists, or one of which only one test may be active at once: each module uses it for its time.
#[derive(Clone, Copy)]
struct OneList {
    cycles: u64,
}

impl Uses for OneList {
    fn of_module(&self, _list: usize, _module: usize, _rank: usize, _width: usize) -> u64 {
        self.cycles
    }

    fn of_selfs(&self, _list: usize) -> u64 {
        0
    }

    fn most(&self, _list: usize) -> u64 {
        1
    }

    fn rank(&self, _list: usize) -> usize {
        NONE
    }
}

/// A case of no known ranks, in which three modules take `cycles` cycles on each width.
fn three_modules(alloc: Global, wires: usize, cycles: u64) -> Result<PackCase, NoMemory> {
    let mut case = PackCase::new(alloc, wires, 3)?;
    case.begin(0, wires, wires);
    for module in 0..3 {
        for width in 1..wires.saturating_add(1) {
            case.set_time(module, width, cycles);
        }
        case.allow(module, REST);
    }
    Ok(case)
}

/// Searches a case from equal prices.
fn found_from_equal(
    alloc: Global,
    search: &mut PackSearch,
    case: &PackCase,
    uses: &OneList,
    span: (u64, u64),
    lists: &[usize],
) -> Result<Found, NoMemory> {
    let mut start = Prices::new(alloc, 3)?;
    for module in 0..3 {
        start.set(module, 1);
    }
    let mut warm = Warm::new(alloc, 3)?;
    let asked = Asked {
        value: span.0,
        goal: span.1,
        far: span.1,
        root: true,
        lists,
        start: &start,
        work_most: 1_000_000_000,
    };
    Ok(search.packed(case, uses, asked, &mut warm))
}

#[test]
fn whole_modules_are_packed(rt: HostRuntime) -> Result<(), Fail> {
    let alloc = rt.alloc();
    let uses = OneList { cycles: 0 };
    // two of three modules share one of two buses, where sums say that 15 cycles are enough
    let case = three_modules(alloc, 2, 10)?;
    let mut search_room = PackSearch::new(alloc, 3, 2)?;
    let found = found_from_equal(alloc, &mut search_room, &case, &uses, (15, 25), &[])?;
    assert_eq!(rt; found.claim, 20);
    assert_eq!(rt; found.far, 21);
    let mut room = PackRoom::new(alloc, 3, 2)?;
    let leaf = search_room.leaf();
    assert_eq!(rt; leaf.claim, 20);
    assert!(rt; room.holds(&case, &uses, &leaf.prices, 20, leaf.grain));
    assert!(rt; !room.holds(&case, &uses, &leaf.prices, 21, leaf.grain));
    // a greater claim isn't to be had
    let found = found_from_equal(alloc, &mut search_room, &case, &uses, (20, 25), &[])?;
    assert_eq!(rt; found.claim, 20);
    assert_eq!(rt; search_room.leaf().grain, 0);
    Ok(())
}

#[test]
fn lists_are_weighed(rt: HostRuntime) -> Result<(), Fail> {
    let alloc = rt.alloc();
    let uses = OneList { cycles: 10 };
    // each module has a bus of its own, but no two are tested at once
    let case = three_modules(alloc, 3, 10)?;
    let mut search_room = PackSearch::new(alloc, 3, 3)?;
    let found = found_from_equal(alloc, &mut search_room, &case, &uses, (10, 40), &[0])?;
    assert_eq!(rt; found.claim, 30);
    assert_eq!(rt; search_room.leaf().prices.count, 1);
    Ok(())
}
