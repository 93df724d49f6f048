//! What no schedule of given tests can be shorter than: the longest chain of precedences, and the energy over the limit.
ghost use Rattle.std.specs.Prelude.{◌≡◌, ◌*◌, ◌<◌, length};
ghost use Rattle.std.specs.List.{All};
ghost use Rattle.arch_schedule.specs.Rooms.{AreBeforeSo};

use live_tests::Neighbours;
use resource_table::{Job, earlier_than};

/// Raises the chains of tests that precede one, whose own chain takes `chain` cycles.
fn raise_chains(earlier: &[usize], chain: u64, cycles: &[u64], chains: &mut [u64])
    requires earlier { All (λ test. test < length cycles.now) earlier.now }
    requires long { length cycles.now ≡ length chains.old }
    ensures { length chains.new ≡ length chains.old }
{
    for test in earlier {
        let with = cycles[*test].saturating_add(chain);
        chains[*test] = chains[*test].max(with);
    }
}

/// Raises the chains of the tests that precede one, and answers its own.
fn raise_before(before: &[Neighbours], test: usize, cycles: &[u64], chains: &mut [u64]) -> u64
    requires before { AreBeforeSo (length cycles.now) before.now }
    requires test { test < length cycles.now }
    requires long { length cycles.now ≡ length chains.old }
    ensures { length chains.new ≡ length chains.old }
{
    let chain = chains[test];
    let earlier = earlier_than(before, test);
    raise_chains(earlier, chain, cycles, chains);
    chain
}

/// Sets for each test the cycles of the longest chain of precedences that it begins, and answers the greatest of them. The order
/// keeps the precedences.
pub fn set_chains(before: &[Neighbours], order: &[usize], cycles: &[u64], chains: &mut [u64]) -> u64
    requires before { AreBeforeSo (length cycles.now) before.now }
    requires order { All (λ test. test < length cycles.now) order.now }
    requires long { length cycles.now ≡ length chains.old }
    ensures { length chains.new ≡ length chains.old }
{
    chains.copy_from_slice(cycles);
    let mut longest: u64 = 0;
    for place in (0..order.len()).rev() {
        let chain = raise_before(before, order[place], cycles, chains);
        longest = longest.max(chain);
    }
    longest
}

/// The cycle, counted from the start of a test of `cycles` cycles, at which the step at a place ends.
fn step_end(steps: &[(u64, u64)], place: usize, cycles: u64) -> u64
    requires { place < length steps.now }
{
    if place + 1 < steps.len() {
        return steps[place + 1].0.min(cycles);
    }
    cycles
}

/// What a power draws in `cycles` cycles. It is always exact, and so takes less time than a product with a limit.
fn drawn(power: u64, cycles: u64) -> u128
    ensures { result ≡ power * cycles }
{
    u128::from(power) * u128::from(cycles)
}

/// The power of a test of `cycles` cycles, added up over its cycles.
fn energy_of(steps: &[(u64, u64)], cycles: u64) -> u128 {
    let mut sum: u128 = 0;
    for place in 0..steps.len() {
        let step = steps[place];
        let lasts = step_end(steps, place, cycles).saturating_sub(step.0);
        sum = sum.saturating_add(drawn(step.1, lasts));
    }
    sum
}

/// Whether tests that take these cycles draw more together than a limit on power lets them draw in `cap` cycles.
pub fn draw_too_much(job: &Job, cycles: &[u64], limit: u64, cap: u64) -> bool
    requires { length cycles.now ≡ length job.now.tests.items }
{
    let mut sum: u128 = 0;
    for test in 0..cycles.len() {
        sum = sum.saturating_add(energy_of(&job.tests[test].power, cycles[test]));
    }
    sum > drawn(limit, cap)
}
