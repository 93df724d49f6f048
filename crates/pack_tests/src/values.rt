//! Values beside those of plain knapsacks, of all sets and all widths, and rows of leaves with known answers.

use outside::{NoMemory, both};
use pack_values::{PackCase, PackRoom, Prices, REST, Uses, leaf_work};
use std::alloc::Global;
use std::test::Fail;
use tables::{NONE, filled, item_or, put_item};

/// Lists of the tests of every other module: list 1 counts them on rank 0 alone, all others everywhere.
#[derive(Drop)]
struct MadeUses {
    wires: usize,
    /// A part of the time of each module at [module * wires + width - 1].
    parts: Vec<u64>,
}

impl MadeUses {
    fn new(alloc: Global, case: &PackCase, share: u64) -> Result<MadeUses, NoMemory> {
        let mut parts = filled(alloc, 0u64, case.modules.saturating_mul(case.wires))?;
        for module in 0..case.modules {
            for place in 0..case.wires {
                let time = case.time(module, place.saturating_add(1));
                let at = module.saturating_mul(case.wires).saturating_add(place);
                put_item(&mut parts, at, time.checked_div(share).unwrap_or(0));
            }
        }
        Ok(MadeUses {
            wires: case.wires,
            parts,
        })
    }
}

impl Uses for MadeUses {
    fn of_module(&self, list: usize, module: usize, rank: usize, width: usize) -> u64 {
        if module % 2 == 0 || (list == 1 && rank != 0) {
            return 0;
        }
        let place = module.saturating_mul(self.wires).saturating_add(width);
        item_or(&self.parts, place.saturating_sub(1), 0)
    }

    fn of_selfs(&self, _list: usize) -> u64 {
        2
    }

    fn most(&self, _list: usize) -> u64 {
        1
    }

    fn rank(&self, list: usize) -> usize {
        if list == 1 { 0 } else { NONE }
    }
}

/// A list that each module uses for its time, as given for 1 and 2 wires.
#[derive(Clone, Copy)]
struct Turns {
    times: [u64; 2],
    own: u64,
}

impl Uses for Turns {
    fn of_module(&self, _list: usize, _module: usize, _rank: usize, width: usize) -> u64 {
        item_or(&self.times, width.saturating_sub(1), 0)
    }

    fn of_selfs(&self, _list: usize) -> u64 {
        self.own
    }

    fn most(&self, _list: usize) -> u64 {
        1
    }

    fn rank(&self, _list: usize) -> usize {
        NONE
    }
}

/// The next number of a row of made numbers.
fn next(state: u64) -> u64 {
    state
        .wrapping_mul(6_364_136_223_846_793_005)
        .wrapping_add(1_442_695_040_888_963_407)
}

/// A number below `end` of such a state.
fn below(state: u64, end: u64) -> u64 {
    (state >> 33).checked_rem(end).unwrap_or(0)
}

/// A chip of made times up to about `most`.
fn made_chip(
    alloc: Global,
    wires: usize,
    modules: usize,
    most: u64,
    seed: u64,
) -> Result<PackCase, NoMemory> {
    let mut case = PackCase::new(alloc, wires, modules)?;
    let mut state = seed;
    for module in 0..modules {
        state = next(state);
        let mut time = below(state, most).saturating_add(1);
        for width in 1..wires.saturating_add(1) {
            case.set_time(module, width, time);
            state = next(state);
            time = time.saturating_sub(below(state, time / 2 + 1));
        }
        state = next(state);
        case.set_own(module, below(state, 3));
    }
    Ok(case)
}

/// Prices about as high as times.
fn made_prices(alloc: Global, case: &PackCase, seed: u64) -> Result<Prices, NoMemory> {
    let mut prices = Prices::new(alloc, case.modules)?;
    let mut state = seed;
    for module in 0..case.modules {
        state = next(state);
        let price = case
            .time(module, 1)
            .saturating_mul(7)
            .saturating_add(below(state, 40));
        prices.set(module, price);
    }
    Ok(prices)
}

/// A made case without ranks, with lists and prices.
#[derive(Drop)]
struct MadeProblem {
    case: PackCase,
    uses: MadeUses,
    prices: Prices,
}

/// A problem of times up to about `most`, of which the lists count the part `share`.
fn made_problem(
    alloc: Global,
    size: [usize; 2],
    most: u64,
    share: u64,
    seed: u64,
) -> Result<MadeProblem, NoMemory> {
    let [wires, modules] = size;
    let case = made_chip(alloc, wires, modules, most, seed)?;
    let (uses, prices) = both(
        MadeUses::new(alloc, &case, share),
        made_prices(alloc, &case, seed),
    )?;
    Ok(MadeProblem { case, uses, prices })
}

/// A bus of a case at a claim, with cells of `grain` cycles.
#[derive(Clone, Copy)]
struct TriedBus {
    rank: usize,
    width: usize,
    claim: u64,
    grain: u64,
}

/// What a module is worth on a bus, 0 without a slot.
fn net_of(problem: &MadeProblem, module: usize, bus: TriedBus) -> u64 {
    if !problem
        .case
        .has_slot(module, bus.rank, bus.width, bus.claim)
    {
        return 0;
    }
    let mut left = problem.prices.price(module);
    for at in 0..problem.prices.count {
        let used = problem
            .uses
            .of_module(problem.prices.list(at), module, bus.rank, bus.width);
        left = left.saturating_sub(problem.prices.weight(at).saturating_mul(used));
    }
    left
}

/// The cells of a module on a bus.
fn cells_of(case: &PackCase, module: usize, width: usize, grain: u64) -> u64 {
    case.time(module, width).checked_div(grain).unwrap_or(0)
}

/// What some modules are worth on a bus; nothing where they don't fit.
fn worth_of(problem: &MadeProblem, bus: TriedBus, modules: &[bool]) -> Option<u64> {
    let mut cells: u64 = 0;
    let mut worth: u64 = 0;
    for module in 0..problem.case.modules {
        if item_or(modules, module, false) {
            let net = net_of(problem, module, bus);
            if net == 0 {
                return None;
            }
            cells = cells.saturating_add(cells_of(&problem.case, module, bus.width, bus.grain));
            worth = worth.saturating_add(net);
        }
    }
    if cells
        > bus
            .claim
            .saturating_sub(1)
            .checked_div(bus.grain)
            .unwrap_or(0)
    {
        return None;
    }
    Some(worth)
}

/// The most on a bus, over all sets of at most 12 modules.
fn by_sets(problem: &MadeProblem, bus: TriedBus) -> u64 {
    let mut most: u64 = 0;
    for set in 0..1u64 << (problem.case.modules.min(12)) {
        let mut modules = [false; 12];
        for module in 0..12 {
            modules[module] = (set >> module) & 1 == 1;
        }
        let worth = worth_of(problem, bus, &modules).unwrap_or(0);
        most = most.max(worth);
    }
    most
}

/// The most on a bus, by a plain knapsack over a row of cells.
fn by_row(problem: &MadeProblem, bus: TriedBus, row: &mut [u64]) -> u64 {
    for worth in row.iter_mut() {
        *worth = 0;
    }
    let cells = bus
        .claim
        .saturating_sub(1)
        .checked_div(bus.grain)
        .unwrap_or(0) as usize;
    for module in 0..problem.case.modules {
        let net = net_of(problem, module, bus);
        let size = cells_of(&problem.case, module, bus.width, bus.grain) as usize;
        for back in 0..cells.saturating_add(1) {
            let x = cells.saturating_sub(back);
            if net > 0 && size <= x {
                let with = item_or(row, x.saturating_sub(size), 0).saturating_add(net);
                let most = item_or(row, x, 0).max(with);
                put_item(row, x, most);
            }
        }
    }
    item_or(row, cells, 0)
}

/// The most on all buses of a case of two known ranks, over all widths: of each rank, and of at most three buses of the rest.
fn by_widths(problem: &MadeProblem, claim: u64, grain: u64) -> u64 {
    let mut worth = [[0u64; 8]; 3];
    for range in 0..3 {
        let rank = if range < 2 { range } else { REST };
        for width in 1..8 {
            let bus = TriedBus {
                rank,
                width,
                claim,
                grain,
            };
            worth[range][width] = by_sets(problem, bus);
        }
    }
    let mut most: u64 = 0;
    let case = &problem.case;
    for one in case.low(0)..case.high(0).saturating_add(1) {
        for two in case.low(1)..case.high(1).saturating_add(1) {
            let both = item_or(&worth[0], one, 0).saturating_add(item_or(&worth[1], two, 0));
            let wires = one.saturating_add(two);
            most = most.max(with_rest(case, &worth[2], wires, both));
        }
    }
    most
}

/// The most with at most three buses of the rest, beside some wires.
fn with_rest(case: &PackCase, rest: &[u64], wires: usize, worth: u64) -> u64 {
    let mut most: u64 = 0;
    let end = case.rest_high.saturating_add(1);
    for three in 0..end {
        for four in 0..end {
            for five in 0..end {
                let all = wires
                    .saturating_add(three)
                    .saturating_add(four)
                    .saturating_add(five);
                if all <= case.wires {
                    let more = item_or(rest, three, 0)
                        .saturating_add(item_or(rest, four, 0))
                        .saturating_add(item_or(rest, five, 0));
                    most = most.max(worth.saturating_add(more));
                }
            }
        }
    }
    most
}

/// The modules of a set.
fn modules_of(room: &PackRoom, at: usize) -> [bool; 12] {
    let mut modules = [false; 12];
    for module in 0..12 {
        modules[module] = room.has(at, module);
    }
    modules
}

/// Begins a case of two known ranks on seven wires, where not all modules may be everywhere.
fn begin_ranks(case: &mut PackCase) {
    case.begin(2, 3, 2);
    case.set_rank(0, 2, 5);
    case.set_rank(1, 2, 3);
    for module in 0..case.modules {
        if module != 1 {
            case.allow(module, 0);
        }
        case.allow(module, 1);
        if module != 2 {
            case.allow(module, REST);
        }
    }
}

/// Begins a case of one rank of one width, where all modules are.
fn begin_one(case: &mut PackCase, width: usize) {
    case.begin(1, 0, 0);
    case.set_rank(0, width, width);
    for module in 0..case.modules {
        case.allow(module, 0);
    }
}

/// Works out what a problem is worth.
fn value_of(room: &mut PackRoom, problem: &MadeProblem, claim: u64, grain: u64, keep: bool) {
    room.value(
        &problem.case,
        &problem.uses,
        &problem.prices,
        claim,
        grain,
        keep,
    );
}

#[test]
fn small_cases(rt: HostRuntime) -> Result<(), Fail> {
    let mut room = PackRoom::new(rt.alloc(), 9, 7)?;
    for seed in 0..6 {
        let mut problem = made_problem(rt.alloc(), [7, 9], 60, 2, seed)?;
        begin_ranks(&mut problem.case);
        for lists in 0..3 {
            let claim = 70 + seed;
            let want = by_widths(&problem, claim, 3);
            value_of(&mut room, &problem, claim, 3, false);
            assert_eq!(rt;
                room.most(),
                u128::from(want),
                "most of {seed} with {lists}"
            );
            value_of(&mut room, &problem, claim, 3, true);
            assert_eq!(rt;
                room.most(),
                u128::from(want),
                "kept most of {seed} with {lists}"
            );
            assert!(rt; room.sets() > 2);
            for at in 0..room.sets() {
                let bus = TriedBus {
                    rank: room.set_rank(at),
                    width: room.set_width(at),
                    claim,
                    grain: 3,
                };
                let worth = worth_of(&problem, bus, &modules_of(&room, at));
                let most = by_sets(&problem, bus);
                assert_eq!(rt; worth, Some(most), "set {at} of {seed} with {lists}");
            }
            problem.prices.add_list(lists, 2);
        }
    }
    Ok(())
}

#[test]
fn many_modules(rt: HostRuntime) -> Result<(), Fail> {
    let (mut room, mut row) = both(
        PackRoom::new(rt.alloc(), 60, 4),
        filled(rt.alloc(), 0u64, 4097),
    )?;
    for seed in 0..12 {
        let mut problem = made_problem(rt.alloc(), [4, 60], 500, 3, seed)?;
        problem.prices.add_list(0, seed % 3);
        for width in 1..5 {
            begin_one(&mut problem.case, width);
            let grain = 1 + seed % 4;
            let bus = TriedBus {
                rank: 0,
                width,
                claim: 2000,
                grain,
            };
            let want = by_row(&problem, bus, &mut row);
            value_of(&mut room, &problem, 2000, grain, false);
            assert_eq!(rt; room.most(), u128::from(want), "{seed} at {width}");
            value_of(&mut room, &problem, 2000, grain, true);
            assert_eq!(rt; room.most(), u128::from(want), "kept {seed} at {width}");
            room.guess(&problem.case, &problem.uses, &problem.prices, 2000, grain);
            assert_eq!(rt; room.sets(), 1);
            let mut modules = [false; 60];
            for module in 0..60 {
                modules[module] = room.has(0, module);
            }
            let worth = worth_of(&problem, bus, &modules).unwrap_or(0);
            assert!(rt;
                worth <= want && worth > want / 2,
                "guess {worth} of {want}"
            );
        }
    }
    Ok(())
}

/// A chip of modules that take 28 cycles on one wire and 16 on two, with room and prices.
fn leaf_parts(alloc: Global, modules: usize) -> Result<(PackCase, PackRoom, Prices), NoMemory> {
    let mut case = PackCase::new(alloc, 2, modules)?;
    for module in 0..modules {
        case.set_time(module, 1, 28);
        case.set_time(module, 2, 16);
        case.allow(module, REST);
    }
    let (room, prices) = both(
        PackRoom::new(alloc, modules, 2),
        Prices::new(alloc, modules),
    )?;
    Ok((case, room, prices))
}

#[test]
fn leaves_with_known_answers(rt: HostRuntime) -> Result<(), Fail> {
    let uses = Turns {
        times: [28, 16],
        own: 0,
    };
    let (mut case, mut room, mut prices) = leaf_parts(rt.alloc(), 2)?;
    for (claim, grain, price, want) in [
        (28, 1, 1, true),
        (29, 1, 1, false),
        (28, 5, 3, true),
        (28, 6, 3, false),
        (4097, 1, 1, false),
        (4098, 1, 1, false),
        (28, 0, 1, false),
        (0, 1, 0, true),
    ] {
        prices.set(0, price);
        prices.set(1, price);
        assert_eq!(rt;
            room.holds(&case, &uses, &prices, claim, grain),
            want,
            "at {claim} by {grain}"
        );
    }
    prices.set(0, 16);
    prices.set(1, 16);
    prices.add_list(0, 1);
    assert!(rt; room.holds(&case, &uses, &prices, 32, 1));
    assert!(rt; !room.holds(&case, &uses, &prices, 33, 1));
    prices.clear_prices();
    prices.set(0, 2);
    prices.set(1, 1);
    begin_one(&mut case, 2);
    assert!(rt; room.holds(&case, &uses, &prices, 28, 1));
    assert_eq!(rt; leaf_work(&case, 28, 1, 2, 0), 58);
    Ok(())
}

#[test]
fn leaves_without_modules(rt: HostRuntime) -> Result<(), Fail> {
    let uses = Turns {
        times: [0, 0],
        own: 7,
    };
    let (case, mut room, mut prices) = leaf_parts(rt.alloc(), 0)?;
    assert!(rt; !room.holds(&case, &uses, &prices, 0, 1));
    prices.add_list(0, 1);
    assert!(rt; room.holds(&case, &uses, &prices, 7, 1));
    assert!(rt; !room.holds(&case, &uses, &prices, 8, 1));
    Ok(())
}
