//! The limits on the size of a chip.
ghost use Rattle.std.specs.Prelude.{◌≡◌, ◌<◌, ◌≤◌, ◌+◌, ◌*◌, ◌^◌, None, length, find, map, nat_lt, sum, sum_by, OnOk, IfErr, if◌then◌else◌};
ghost use Rattle.std.specs.List.{All, filter};
ghost use Rattle.soc_model.specs.declared.Test.{Test};
ghost use Rattle.soc_model.specs.declared.TheConstants.{NUMBER_WORD_MOST};
ghost use Rattle.soc_model.specs.Chips.{soc_value, module_value, is_live};
ghost use Rattle.soc_model.specs.Sizes.{HasSmallNumbers, IsWithinSize, IsFirstPassed, HasSmall, all_tests, test_work, work, over, passed, rank_of};

use crate::{
    CHAINS_MOST, MODULES_MOST, Module, POWER_MOST, Soc, SocLimit, TESTS_MOST, Test, WORK_MOST,
    Which, live,
};

/// The number, where it is more than this.
fn above(most: u64, number: u128) -> Option<u128>
    ensures { result ≡ over most number }
{
    if number > u128::from(most) {
        Some(number)
    } else {
        None
    }
}

/// How many modules the chip has.
fn count_modules(soc: &Soc) -> u128
    ensures { result ≡ length (soc_value soc.now).modules }
{
    soc.modules.len() as u128
}

/// How many tests the chip has.
fn count_tests(soc: &Soc) -> u128
    requires { length (soc_value soc.now).modules ≤ 1000 }
    ensures { result ≡ length (all_tests (soc_value soc.now)) }
{
    let mut total = 0u128;
    for module in soc.modules.values() {
        total += module.tests.len() as u128;
    }
    total
}

/// The first number of scan chains that passes the limit.
fn long_chains(soc: &Soc) -> Option<u128>
    ensures { result ≡ passed (soc_value soc.now) Which.Chains }
{
    for module in soc.modules.values() {
        let chains = module.chains.len() as u64;
        if chains > CHAINS_MOST {
            return Some(u128::from(chains));
        }
    }
    None
}

/// The first power of the tests that passes the limit.
fn great_power(tests: &[Test]) -> Option<u64>
    ensures { result ≡ find (nat_lt POWER_MOST) (map (λ (t : Test). t.power) tests.now) }
{
    tests
        .iter()
        .map(|test| test.power)
        .find(|power| *power > POWER_MOST)
}

/// The first power of the chip's tests that passes the limit.
fn first_great_power(soc: &Soc) -> Option<u128>
    ensures { result ≡ passed (soc_value soc.now) Which.Power }
{
    for module in soc.modules.values() {
        if let Some(power) = great_power(&module.tests) {
            return Some(u128::from(power));
        }
    }
    None
}

/// The cells of a module's scan chains.
fn scan_cells(chains: &[u64]) -> u128
    requires small { All (λ n. n < NUMBER_WORD_MOST + 1) chains.now }
    requires few { length chains.now ≤ 1000 }
    ensures cells { result ≡ sum chains.now }
    ensures bounded { result ≤ 10 ^ 15 }
{
    let mut sum = 0u128;
    for length in chains {
        sum += u128::from(*length);
    }
    sum
}

/// One, and the module's input cells, its output cells and twice its scan cells: what a pattern of a test weighs in the work of a
/// chip.
pub fn cells_and_one(module: &Module) -> u128
    requires terminals { «module».now.inputs + «module».now.outputs + «module».now.bidirs
        < 10 ^ 13 }
    requires small { All (λ n. n < NUMBER_WORD_MOST + 1) «module».now.chains.items }
    requires few { length «module».now.chains.items ≤ 1000 }
    ensures cells { let m = «module».now in result ≡ 1 + (m.inputs + m.bidirs) +
        (m.outputs + m.bidirs) + 2 * sum m.chains.items }
    ensures bounded { result < 10 ^ 16 }
{
    let inputs = u128::from(module.inputs) + u128::from(module.bidirs);
    let outputs = u128::from(module.outputs) + u128::from(module.bidirs);
    1 + inputs + outputs + 2 * scan_cells(&module.chains)
}

/// The work of a test: patterns times cells, and the setup where the test goes over the wires.
fn work_of(test: &Test, cells: u128, setup: u64) -> u128
    requires patterns { test.now.patterns < 10 ^ 12 }
    requires cells { cells < 10 ^ 16 }
    requires setup { setup < 10 ^ 12 }
    ensures work { result ≡ test.now.patterns * cells + (if test.now.tam then setup else 0) }
    ensures bounded { result ≤ 2 * 10 ^ 28 }
{
    let setup = if test.tam { u128::from(setup) } else { 0 };
    u128::from(test.patterns) * cells + setup
}

/// The work of a module's live tests.
fn module_work(module: &Module) -> u128
    requires small { HasSmall (module_value «module».now) }
    requires chains { length «module».now.chains.items ≤ 1000 }
    requires tests { length «module».now.tests.items ≤ 4096 }
    ensures work { let m = module_value «module».now in result ≡ sum_by (test_work m)
        (filter is_live m.tests) }
    ensures bounded { result ≤ 10 ^ 32 }
{
    let cells = cells_and_one(module);
    let mut sum = 0u128;
    for test in &module.tests {
        if live(test) {
            sum += work_of(test, cells, module.setup);
        }
    }
    sum
}

/// The work of the chip.
fn total_work(soc: &Soc) -> u128
    requires small { HasSmallNumbers (soc_value soc.now) }
    requires modules { passed (soc_value soc.now) Which.Modules ≡ None }
    requires tests { passed (soc_value soc.now) Which.Tests ≡ None }
    requires chains { passed (soc_value soc.now) Which.Chains ≡ None }
    ensures { result ≡ work (soc_value soc.now) }
{
    let mut sum = 0u128;
    for module in soc.modules.values() {
        sum += module_work(module);
    }
    sum
}

/// The number that passes a limit, where one does; the earlier limits are kept.
fn passed_number(soc: &Soc, which: Which) -> Option<u128>
    requires small { HasSmallNumbers (soc_value soc.now) }
    requires earlier { (w : Which) → rank_of w < rank_of which →
        passed (soc_value soc.now) w ≡ None }
    ensures { result ≡ passed (soc_value soc.now) which }
{
    match which {
        Which::Modules => above(MODULES_MOST, count_modules(soc)),
        Which::Tests => above(TESTS_MOST, count_tests(soc)),
        Which::Chains => long_chains(soc),
        Which::Power => first_great_power(soc),
        Which::Work => above(WORK_MOST, total_work(soc)),
    }
}

/// Whether the chip keeps to the limits, tried in the order of [`Which`]: modules (number of modules), tests (of all
/// modules together), chains (of the first module with too many), power (of the first test with too much) and work.
/// The error comes exactly where a counted number passes its limit: the first such limit, with that number.
pub fn check_size(soc: &Soc) -> Result<(), SocLimit>
    requires { HasSmallNumbers (soc_value soc.now) }
    ensures ok { OnOk result (IsWithinSize (soc_value soc.now)) }
    ensures passed { IfErr result (IsFirstPassed (soc_value soc.now)) }
{
    for which in [
        Which::Modules,
        Which::Tests,
        Which::Chains,
        Which::Power,
        Which::Work,
    ] {
        if let Some(value) = passed_number(soc, which) {
            return Err(SocLimit { which, value });
        }
    }
    Ok(())
}
