//! The lists of turns that a search begins with: those of the elementary bounds, which are of the tests of one module, of a
//! module and its parent, and of a chain of precedences; and the one that takes longest, as far as a search finds it.

use crate::finding::ListSearch;
use case_tables::{ChipTables, ChosenLists, ListForm, Lists};
use outside::{NoMemory, copied};
use std::alloc::Global;
use tables::{NONE, filled, item_or, mark_place, marked, put_item};

/// The numbers of two modules.
#[derive(Clone, Copy)]
struct Family {
    /// That of a module.
    own: u64,
    /// That of its parent; the same number where the module stands alone.
    parent: u64,
}

/// The chains of precedences that take longest.
#[derive(Drop)]
struct Chains {
    /// For each test the cycles of the one that ends with it.
    long: Vec<u64>,
    /// For each test the one before it there, NONE where it is the first.
    last: Vec<usize>,
}

/// The cycles that a live test takes at least.
fn least_time(chip: &ChipTables, test: usize) -> u64 {
    if chip.goes_over_wires(test) {
        return chip.time_at(test, chip.wires);
    }
    item_or(&chip.patterns, test, 0)
}

/// The cycles that each live test takes at least.
fn least_times(alloc: Global, chip: &ChipTables) -> Result<Vec<u64>, NoMemory> {
    let mut times = filled(alloc, 0u64, chip.tests)?;
    for test in 0..chip.tests {
        let time = least_time(chip, test);
        put_item(&mut times, test, time);
    }
    Ok(times)
}

/// Whether a test is of one of two modules.
fn is_of(chip: &ChipTables, family: Family, test: usize) -> bool {
    let number = item_or(&chip.test_module, test, u64::MAX);
    number == family.own || number == family.parent
}

/// The cycles that the tests of two modules take at least, together.
fn time_of(chip: &ChipTables, times: &[u64], family: Family) -> u64 {
    let mut sum: u64 = 0;
    for test in 0..chip.tests {
        if is_of(chip, family, test) {
            sum = sum.saturating_add(item_or(times, test, 0));
        }
    }
    sum
}

/// The module of a test, alone or with its parent.
fn family_of(chip: &ChipTables, test: usize, with_parent: bool) -> Family {
    let own = item_or(&chip.test_module, test, u64::MAX);
    let mut parent = own;
    if with_parent {
        parent = item_or(&chip.parent, test, u64::MAX);
    }
    Family { own, parent }
}

/// Whether a test is the first of its module.
fn is_first(chip: &ChipTables, test: usize) -> bool {
    let own = item_or(&chip.test_module, test, u64::MAX);
    let before = item_or(&chip.test_module, test.saturating_sub(1), u64::MAX);
    test == 0 || before != own
}

/// The module, alone or with its parent, whose tests take longest together.
fn longest_family(chip: &ChipTables, times: &[u64], with_parent: bool) -> Family {
    let mut best = family_of(chip, 0, with_parent);
    let mut longest = 0;
    for test in 0..chip.tests {
        if is_first(chip, test) {
            let family = family_of(chip, test, with_parent);
            let time = time_of(chip, times, family);
            if time > longest {
                longest = time;
                best = family;
            }
        }
    }
    best
}

/// Marks the tests of two modules.
fn mark_family(chip: &ChipTables, family: Family, members: &mut [u64]) {
    for test in 0..chip.tests {
        if is_of(chip, family, test) {
            mark_place(members, 0, test);
        }
    }
}

/// Adds the list of the tests of the module, alone or with its parent, whose tests take longest together.
fn add_family(
    alloc: Global,
    chip: &ChipTables,
    times: &[u64],
    with_parent: bool,
    lists: &mut Lists,
    chosen: &mut ChosenLists,
) -> Result<(), NoMemory> {
    let family = longest_family(chip, times, with_parent);
    let mut members = filled(alloc, 0u64, chip.words)?;
    mark_family(chip, family, &mut members);
    let list = lists.add(chip, ListForm::Turns, 1, &members);
    chosen.add(list);
    Ok(())
}

/// Lengthens the chain of the later test of a precedence, where that of the earlier one makes it longer. Whether it does.
fn lengthen_chain(chip: &ChipTables, times: &[u64], chains: &mut Chains, place: usize) -> bool {
    let before = item_or(&chip.before, place, NONE);
    let after = item_or(&chip.after, place, NONE);
    let time = item_or(times, after, 0);
    let long = item_or(&chains.long, before, 0).saturating_add(time);
    if long <= item_or(&chains.long, after, u64::MAX) {
        return false;
    }
    put_item(&mut chains.long, after, long);
    put_item(&mut chains.last, after, before);
    true
}

/// Lengthens chains by one precedence. Whether any grew.
fn lengthen_all(chip: &ChipTables, times: &[u64], chains: &mut Chains) -> bool {
    let mut any = false;
    for place in 0..chip.before.len() {
        if lengthen_chain(chip, times, chains, place) {
            any = true;
        }
    }
    any
}

/// The chains that take longest.
fn longest_chains(alloc: Global, chip: &ChipTables, times: &[u64]) -> Result<Chains, NoMemory> {
    let long = copied(alloc, times)?;
    let last = filled(alloc, NONE, chip.tests)?;
    let mut chains = Chains { long, last };
    for _ in 0..chip.tests {
        if !lengthen_all(chip, times, &mut chains) {
            break;
        }
    }
    Ok(chains)
}

/// The test with which the longest of the chains ends.
fn longest_end(chip: &ChipTables, chains: &Chains) -> usize {
    let mut best = 0;
    for test in 0..chip.tests {
        if item_or(&chains.long, test, 0) > item_or(&chains.long, best, 0) {
            best = test;
        }
    }
    best
}

/// Marks the tests of the chain that ends with a test.
fn mark_chain(chip: &ChipTables, chains: &Chains, end: usize, members: &mut [u64]) {
    let mut test = end;
    for _ in 0..chip.tests {
        if test >= chip.tests || marked(members, 0, test) {
            break;
        }
        mark_place(members, 0, test);
        test = item_or(&chains.last, test, NONE);
    }
}

/// Adds the list of the chain of precedences that takes longest.
fn add_chain(
    alloc: Global,
    chip: &ChipTables,
    times: &[u64],
    lists: &mut Lists,
    chosen: &mut ChosenLists,
) -> Result<(), NoMemory> {
    let chains = longest_chains(alloc, chip, times)?;
    let mut members = filled(alloc, 0u64, chip.words)?;
    mark_chain(chip, &chains, longest_end(chip, &chains), &mut members);
    let list = lists.add(chip, ListForm::Turns, 1, &members);
    chosen.add(list);
    Ok(())
}

/// Cycles as weights.
fn weights_of(alloc: Global, times: &[u64]) -> Result<Vec<i64>, NoMemory> {
    let mut weights = filled(alloc, 0i64, times.len())?;
    for test in 0..times.len() {
        let weight = i64::try_from(times[test]).unwrap_or(i64::MAX >> 1);
        put_item(&mut weights, test, weight);
    }
    Ok(weights)
}

/// Adds the list of turns that takes longest, as far as a search finds it.
fn add_longest(
    alloc: Global,
    search: &mut ListSearch,
    chip: &ChipTables,
    times: &[u64],
    lists: &mut Lists,
    chosen: &mut ChosenLists,
) -> Result<(), NoMemory> {
    let weights = weights_of(alloc, times)?;
    search.add_heaviest(chip, &weights, lists, chosen);
    Ok(())
}

/// Adds the lists of the elementary bounds, and the one that takes longest. `NoMemory` where memory runs out.
pub fn add_elementary_lists(
    alloc: Global,
    search: &mut ListSearch,
    chip: &ChipTables,
    lists: &mut Lists,
    chosen: &mut ChosenLists,
) -> Result<(), NoMemory> {
    if chip.tests == 0 {
        return Ok(());
    }
    let times = least_times(alloc, chip)?;
    add_family(alloc, chip, &times, false, lists, chosen)?;
    add_family(alloc, chip, &times, true, lists, chosen)?;
    add_chain(alloc, chip, &times, lists, chosen)?;
    add_longest(alloc, search, chip, &times, lists, chosen)
}
