//! Which test held another one until it started, and by what.
ghost use Rattle.std.specs.Prelude.{◌≡◌, ◌+◌, ◌<◌, ◌^◌, Some, length, slice_get, true};
ghost use Rattle.soc_model.specs.Chips.{soc_value};
ghost use Rattle.plan_model.specs.Plans.{power_of_id, step_power as the_step_power};
ghost use Rattle.plan_model.specs.Views.{limits_value};
ghost use Rattle.report.specs.Holders.{are_parent_and_child as the_are, first_power as the_first_power, held as the_held, holder as the_holder, is_before as the_is_before, is_holder as the_is_holder, is_place as the_is_place, is_too_much as the_is_too_much, keeps_out as the_keeps_out, share_bus as the_share_bus, passes_limit as the_passes};
ghost use Rattle.report.specs.PlacedTests.{StandIn};

use live_tests::PlacedTest;
use plan_model::{Limits, profile_of};
use soc_model::{Soc, TestId, parent};

/// By what a test was held.
#[derive(Clone, Copy, Drop)]
pub enum Hold {
    /// The other test is over the wires of its bus.
    Bus,
    /// It is of its module.
    Module,
    /// It is of the parent or of a child of its module.
    Parent,
    /// A precedence sets it directly before.
    Before,
    /// All tests that were active until then leave too little power.
    Power,
}

/// Whether both are over the wires, of one bus.
fn share_bus(first: Option<usize>, second: Option<usize>) -> bool
    ensures { result ≡ the_share_bus first second }
{
    let Some(one) = first else {
        return false;
    };
    let Some(other) = second else {
        return false;
    };
    one == other
}

/// Whether a place, where there is one, is this one.
fn is_place(place: usize, found: Option<usize>) -> bool
    ensures { result ≡ the_is_place place found }
{
    match found {
        Some(other) => other == place,
        None => false,
    }
}

/// Whether one of the modules at two places is the parent of the other.
fn are_parent_and_child(soc: &Soc, first: usize, second: usize) -> bool
    requires first { first < length (soc_value soc.now).modules }
    requires second { second < length (soc_value soc.now).modules }
    ensures { result ≡ the_are (soc_value soc.now).modules first second }
{
    if is_place(first, parent(soc, second)) {
        return true;
    }
    is_place(second, parent(soc, first))
}

/// Whether a precedence sets a test directly before another.
fn is_before(before: &[(TestId, TestId)], first: TestId, second: TestId) -> bool
    ensures { result ≡ the_is_before before.now first second }
{
    before
        .iter()
        .any(|pair| pair.0 == first && pair.1 == second)
}

/// The power of the last step that is from a cycle or before, 0 where there is none.
fn step_power(cycle: u64, steps: &[(u64, u64)]) -> u64
    ensures { result ≡ the_step_power cycle 0 steps.now }
{
    let mut now = 0;
    for (from, power) in steps {
        if *from <= cycle {
            now = *power;
        }
    }
    now
}

/// What a test draws at its first cycle.
fn first_power(limits: &Limits, test: &PlacedTest) -> u64
    ensures { result ≡ the_first_power (limits_value limits.now) test.now }
{
    match profile_of(&limits.profiles, test.id) {
        Some(place) => step_power(0, &limits.profiles[place].steps),
        None => test.power,
    }
}

/// Whether two powers together pass the limit.
fn pass_limit(limit: Option<u64>, one: u64, other: u64) -> bool
    ensures { result ≡ the_passes limit (one + other) }
{
    match limit {
        Some(most) => u128::from(one) + u128::from(other) > u128::from(most),
        None => false,
    }
}

/// Whether the power at the cycle before a test and its first power together are more than the limit, where tests draw the load with
/// these steps.
fn is_too_much(limits: &Limits, steps: &[(u64, u64)], test: &PlacedTest) -> bool
    ensures { result
        ≡ the_is_too_much (limits_value limits.now) (λ c. the_step_power c 0 steps.now) test.now }
{
    let drawn = step_power(test.start.saturating_sub(1), steps);
    pass_limit(limits.power, drawn, first_power(limits, test))
}

/// Whether a test can't start while another one is active, for this reason.
fn keeps_out(
    soc: &Soc,
    limits: &Limits,
    steps: &[(u64, u64)],
    kind: Hold,
    test: &PlacedTest,
    other: &PlacedTest,
) -> bool
    requires place { test.now.place < length (soc_value soc.now).modules }
    requires other { other.now.place < length (soc_value soc.now).modules }
    ensures { result
        ≡ the_keeps_out (soc_value soc.now) (limits_value limits.now)
        (λ c. the_step_power c 0 steps.now) kind test.now other.now }
{
    match kind {
        Hold::Bus => share_bus(test.bus, other.bus),
        Hold::Module => test.place == other.place,
        Hold::Parent => are_parent_and_child(soc, test.place, other.place),
        Hold::Before => is_before(&limits.before, other.id, test.id),
        Hold::Power => is_too_much(limits, steps, test),
    }
}

/// Whether a test ended as another one started, and kept it out.
fn is_holder(
    soc: &Soc,
    limits: &Limits,
    steps: &[(u64, u64)],
    kind: Hold,
    test: &PlacedTest,
    other: &PlacedTest,
) -> bool
    requires place { test.now.place < length (soc_value soc.now).modules }
    requires other { other.now.place < length (soc_value soc.now).modules }
    ensures { result
        ≡ the_is_holder (soc_value soc.now) (limits_value limits.now)
        (λ c. the_step_power c 0 steps.now) kind test.now other.now }
{
    if other.end != test.start {
        return false;
    }
    keeps_out(soc, limits, steps, kind, test, other)
}

/// The first test that ended as another one started and kept it out for this reason.
#[tactic(auto, unfolding(crate::specs::Holders::holder))]
fn holder(
    soc: &Soc,
    limits: &Limits,
    tests: &[PlacedTest],
    steps: &[(u64, u64)],
    kind: Hold,
    test: &PlacedTest,
) -> Option<PlacedTest>
    requires place { test.now.place < length (soc_value soc.now).modules }
    requires places { StandIn (soc_value soc.now).modules tests.now }
    ensures { result
        ≡ the_holder (soc_value soc.now) (limits_value limits.now)
        (λ c. the_step_power c 0 steps.now) tests.now kind test.now }
{
    for other in tests {
        if is_holder(soc, limits, steps, kind, test, other) {
            return Some(*other);
        }
    }
    None
}

/// What held a test until it started: the test that ended then, and the reason. None comes exactly where there is none.
#[tactic(auto, unfolding(crate::specs::Holders::held))]
pub fn held(
    soc: &Soc,
    limits: &Limits,
    tests: &[PlacedTest],
    steps: &[(u64, u64)],
    test: &PlacedTest,
) -> Option<(PlacedTest, Hold)>
    requires place { test.now.place < length (soc_value soc.now).modules }
    requires places { StandIn (soc_value soc.now).modules tests.now }
    ensures { result
        ≡ the_held (soc_value soc.now) (limits_value limits.now) (λ c. the_step_power c 0 steps.now)
        tests.now test.now }
{
    for kind in [
        Hold::Bus,
        Hold::Module,
        Hold::Parent,
        Hold::Before,
        Hold::Power,
    ] {
        if let Some(other) = holder(soc, limits, tests, steps, kind, test) {
            return Some((other, kind));
        }
    }
    None
}
