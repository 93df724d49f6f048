//! One made module: its level, its terminals, its scan chains and its tests are drawn by its number.
ghost use Rattle.std.specs.Prelude.{◌≡◌, ◌^◌, ◌<◌, ◌≤◌, IfOk};
ghost use Rattle.soc_model.specs.Chips.{module_value};
ghost use Rattle.sample_maker.specs.Samples.{chain_lengths, has_self_test, is_below, made_module, scan_test, self_test, tests_of};

use crate::drawing::drawn_number;
use outside::{NoMemory, push};
use soc_model::{Module, Test};
use std::alloc::Global;

/// Whether a module lies below another one: it is of level 2.
fn lies_below(seed: u64, number: u64) -> bool
    requires seed { seed < 10 ^ 12 }
    requires number { number ≤ 200 }
    ensures { result ≡ is_below seed number }
{
    number > 1 && drawn_number(seed, number, 0) % 4 == 0
}

/// The lengths of a module's scan chains, in cells.
fn make_chains(alloc: Global, seed: u64, number: u64) -> Result<Vec<u64>, NoMemory>
    requires seed { seed < 10 ^ 12 }
    requires number { number ≤ 200 }
    ensures { IfOk result (λ chains. chains.items ≡ chain_lengths seed number) }
{
    let mut chains = Vec::new(alloc);
    let count = drawn_number(seed, number, 4) % 10;
    for chain in 0..count {
        push(&mut chains, 10 + drawn_number(seed, number, 5 + chain) % 90)?;
    }
    Ok(chains)
}

/// The test over the wires that uses the scan chains.
fn make_scan_test(seed: u64, number: u64) -> Test
    requires seed { seed < 10 ^ 12 }
    requires number { number ≤ 200 }
    ensures { result ≡ scan_test seed number }
{
    Test {
        number: 1,
        scan: true,
        tam: true,
        patterns: 1 + drawn_number(seed, number, 20) % 200,
        power: 10 + drawn_number(seed, number, 21) % 90,
    }
}

/// Whether a module has a self test too.
fn tests_itself(seed: u64, number: u64) -> bool
    requires seed { seed < 10 ^ 12 }
    requires number { number ≤ 200 }
    ensures { result ≡ has_self_test seed number }
{
    drawn_number(seed, number, 22) % 5 == 0
}

/// The self test.
fn make_self_test(seed: u64, number: u64) -> Test
    requires seed { seed < 10 ^ 12 }
    requires number { number ≤ 200 }
    ensures { result ≡ self_test seed number }
{
    Test {
        number: 2,
        scan: false,
        tam: false,
        patterns: 1 + 20 * drawn_number(seed, number, 23),
        power: 5,
    }
}

/// The tests of a module.
fn make_tests(alloc: Global, seed: u64, number: u64) -> Result<Vec<Test>, NoMemory>
    requires seed { seed < 10 ^ 12 }
    requires number { number ≤ 200 }
    ensures { IfOk result (λ tests. tests.items ≡ tests_of seed number) }
{
    let mut tests = Vec::new(alloc);
    push(&mut tests, make_scan_test(seed, number))?;
    if tests_itself(seed, number) {
        push(&mut tests, make_self_test(seed, number))?;
    }
    Ok(tests)
}

/// The made module of a number.
pub fn make_module(alloc: Global, seed: u64, number: u64) -> Result<Module, NoMemory>
    requires seed { seed < 10 ^ 12 }
    requires number { number ≤ 200 }
    ensures { IfOk result (λ «module». module_value «module» ≡ made_module seed number) }
{
    let chains = make_chains(alloc, seed, number)?;
    let tests = make_tests(alloc, seed, number)?;
    let level = if lies_below(seed, number) { 2 } else { 1 };
    Ok(Module {
        number,
        name: Vec::new(alloc),
        level,
        inputs: drawn_number(seed, number, 1) % 100,
        outputs: drawn_number(seed, number, 2) % 100,
        bidirs: drawn_number(seed, number, 3) % 10,
        setup: 0,
        chains,
        tests,
    })
}
