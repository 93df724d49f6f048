//! Precedences, and the cycles that a plan says it takes.

ghost use Rattle.std.specs.Prelude.{◌≡◌, ℕ, ◌<◌, [], IsTrue, false, length};
ghost use Rattle.std.specs.List.{All, flat_map};
ghost use Rattle.soc_model.specs.declared.TestId.{TestId};
ghost use Rattle.soc_model.specs.Chips.{SocValue};
ghost use Rattle.plan_model.specs.Plans.{PlanValue, LimitsValue};
ghost use Rattle.plan_model.specs.Rules.{Precedences, Cycles};
ghost use Rattle.live_tests.specs.declared.placed.PlacedTest.{PlacedTest};
ghost use Rattle.live_tests.specs.Placed.{placed_tests};
ghost use Rattle.indexmap.specs.IndexSet.{keys};
ghost use Rattle.live_tests.specs.Names.{AllDiffer, places_of};
ghost use Rattle.plan_model.specs.Views.{limits_value};
ghost use Rattle.plan_checker.specs.Named.{FindsTests, names_of};
ghost use Rattle.plan_checker.specs.Stages.{IsStage};
ghost use Rattle.plan_checker.specs.Order.{AreInOrder, IsInOrderAt, last_end};

use crate::PlanFault;
use crate::named::{TestNames, test_at, test_named};
use indexmap::IndexSet;
use live_tests::PlacedTest;
use plan_model::Limits;
use soc_model::TestId;

/// Whether the first test has ended as the second starts, where both are live.
fn in_order(placed: &[PlacedTest], names: &IndexSet<TestId>, first: TestId, second: TestId) -> bool
    requires named { keys names.now ≡ names_of placed.now }
    requires apart { AllDiffer (names_of placed.now) }
    ensures kept { IsTrue result → AreInOrder placed.now [] (first, second) }
    ensures broken { result ≡ false → AreInOrder placed.now [] (first, second) → ⊥ }
{
    match test_named(placed, names, first) {
        None => true,
        Some(before) => match test_named(placed, names, second) {
            None => true,
            Some(after) => before.end <= after.start,
        },
    }
}

/// The precedences, by the names of their tests, against the placed tests of a plan.
fn check_named(
    before: &[(TestId, TestId)],
    placed: &[PlacedTest],
    names: &IndexSet<TestId>,
) -> Option<PlanFault>
    requires named { keys names.now ≡ names_of placed.now }
    requires apart { AllDiffer (names_of placed.now) }
    ensures { (soc : SocValue) (limits : LimitsValue) (plan : PlanValue) →
        placed.now ≡ placed_tests soc plan → before.now ≡ limits.before →
        IsStage soc limits plan Precedences result }
{
    for (a, b) in before {
        if !in_order(placed, names, *a, *b) {
            return Some(PlanFault::Before { a: *a, b: *b });
        }
    }
    None
}

/// Whether the test at the first place has ended as the one at the second starts.
fn in_order_at(placed: &[PlacedTest], first: usize, second: usize) -> bool
    requires first { first < length placed.now }
    requires second { second < length placed.now }
    ensures kept { IsTrue result → IsInOrderAt placed.now (first, second) }
    ensures broken { result ≡ false → IsInOrderAt placed.now (first, second) → ⊥ }
{
    let before = test_at(placed, first);
    let after = test_at(placed, second);
    before.end <= after.start
}

/// The precedences of live tests, by the places of these, against the placed tests of a plan.
fn check_pairs(pairs: &[(usize, usize)], placed: &[PlacedTest]) -> Option<PlanFault>
    requires within { All (λ (e : ℕ × ℕ). (e.0 < length placed.now) × (e.1 < length placed.now))
        pairs.now }
    requires apart { AllDiffer (names_of placed.now) }
    ensures { (soc : SocValue) (limits : LimitsValue) (plan : PlanValue) →
        placed.now ≡ placed_tests soc plan →
        pairs.now ≡ flat_map (places_of (names_of placed.now)) limits.before →
        IsStage soc limits plan Precedences result }
{
    for (first, second) in pairs {
        if !in_order_at(placed, *first, *second) {
            return Some(PlanFault::Before {
                a: placed[*first].id,
                b: placed[*second].id,
            });
        }
    }
    None
}

/// The precedences of the limits against the placed tests of a plan.
pub(crate) fn check_before(
    limits: &Limits,
    placed: &[PlacedTest],
    names: &TestNames<'_>,
) -> Option<PlanFault>
    requires named { FindsTests limits.now.before.items (names_of placed.now) names.now }
    requires apart { AllDiffer (names_of placed.now) }
    ensures { (soc : SocValue) (plan : PlanValue) → placed.now ≡ placed_tests soc plan →
        IsStage soc (limits_value limits.now) plan Precedences result }
{
    match names {
        TestNames::Listed(set) => check_named(&limits.before, placed, set),
        TestNames::Resolved(resolved) => check_pairs(&resolved.precedences, placed),
    }
}

/// The greatest end, 0 without tests.
fn latest(placed: &[PlacedTest]) -> u64
    ensures { result ≡ last_end placed.now }
{
    let mut end: u64 = 0;
    for test in placed {
        end = end.max(test.end);
    }
    end
}

/// The cycles that a plan says it takes against its tests.
pub(crate) fn check_cycles(cycles: u64, placed: &[PlacedTest]) -> Option<PlanFault>
    ensures { (soc : SocValue) (limits : LimitsValue) (plan : PlanValue) →
        placed.now ≡ placed_tests soc plan → cycles ≡ plan.cycles →
        IsStage soc limits plan Cycles result }
{
    let right = latest(placed);
    if cycles == right {
        None
    } else {
        Some(PlanFault::Cycles { right })
    }
}
