//! The first pair of tests that may not meet and do: the least cycle first, then the least pair there.

ghost use Rattle.std.specs.Prelude.{◌≡◌, ℕ, ◌<◌, length, slice_index, false, IsTrue, IfSome, IfNone};
ghost use Rattle.live_tests.specs.Parents.{AreParents};
ghost use Rattle.plan_checker.specs.Clashes.{keeps_apart, same_slot, BothAt, IsBest, HasNoPartner, IsFirstPartner, IsFirstPair, IsFirstCycle, PlacesWithin, rule_for, clash_fault};
ghost use Rattle.plan_checker.specs.Layout.{IsLayout};
ghost use Rattle.live_tests.specs.Loads.{is_active};
ghost use Rattle.soc_model.specs.Chips.{SocValue};
ghost use Rattle.plan_model.specs.Plans.{PlanValue, LimitsValue};
ghost use Rattle.live_tests.specs.Placed.{placed_tests};
ghost use Rattle.plan_checker.specs.Stages.{IsStage};

use crate::PlanFault;
use crate::meetings::{Begin, EndKey, earlier, first_meeting};
use live_tests::PlacedTest;
use soc_model::TestId;

/// What keeps two tests apart: a bus that both use, a module that both test, or that one tests the parent of the other.
#[derive(Clone, Copy, Drop)]
pub enum Apart {
    OneBus,
    OneModule,
    ParentAndChild,
}

/// Two places in the list of placed tests and a cycle.
#[derive(Clone, Copy, Drop)]
pub struct ClashPlace {
    pub first: usize,
    pub second: usize,
    pub cycle: u64,
}

/// The place of the parent of the module at a place.
fn parent_at(parents: &[usize], place: usize) -> usize
    requires { place < length parents.now }
    ensures { result ≡ slice_index parents.now place }
{
    parents[place]
}

/// Whether both are the same bus; a self test has none.
fn is_one_bus(a: Option<usize>, b: Option<usize>) -> bool
    ensures { result ≡ same_slot a b }
{
    match a {
        None => false,
        Some(first) => match b {
            None => false,
            Some(second) => first == second,
        },
    }
}

/// Whether the rule keeps the two tests apart.
fn are_apart(parents: &[usize], apart: Apart, a: &PlacedTest, b: &PlacedTest) -> bool
    requires { b.now.place < length parents.now }
    ensures { result ≡ keeps_apart parents.now apart a.now b.now }
{
    match apart {
        Apart::OneBus => is_one_bus(a.bus, b.bus),
        Apart::OneModule => a.place == b.place,
        Apart::ParentAndChild => a.place == parent_at(parents, b.place),
    }
}

/// Whether the test is active at the cycle.
fn is_active(test: &PlacedTest, cycle: u64) -> bool
    ensures { result ≡ is_active cycle test.now }
{
    test.start <= cycle && cycle < test.end
}

/// Whether the rule keeps the two tests apart and both are active at the cycle.
fn meet_at(parents: &[usize], apart: Apart, a: &PlacedTest, b: &PlacedTest, cycle: u64) -> bool
    requires { b.now.place < length parents.now }
    ensures meet { IsTrue result → BothAt (keeps_apart parents.now apart) a.now b.now cycle }
    ensures differ { result ≡ false → BothAt (keeps_apart parents.now apart) a.now b.now cycle → ⊥ }
{
    is_active(a, cycle) && is_active(b, cycle) && are_apart(parents, apart, a, b)
}

/// The first test behind the one at a place that meets it at the cycle, though the rule keeps them apart.
fn first_partner(
    parents: &[usize],
    apart: Apart,
    placed: &[PlacedTest],
    first: usize,
    cycle: u64,
) -> Option<usize>
    requires slots { PlacesWithin (length parents.now) placed.now }
    requires within { first < length placed.now }
    ensures found { IfSome result
        (λ second. IsFirstPartner (keeps_apart parents.now apart) placed.now first cycle second) }
    ensures none { IfNone result
        (HasNoPartner (keeps_apart parents.now apart) placed.now first cycle) }
{
    if !is_active(&placed[first], cycle) {
        return None;
    }
    for second in first + 1..placed.len() {
        if meet_at(parents, apart, &placed[first], &placed[second], cycle) {
            return Some(second);
        }
    }
    None
}

/// The least pair of tests that meet at the cycle, though the rule keeps them apart.
fn first_pair(
    parents: &[usize],
    apart: Apart,
    placed: &[PlacedTest],
    cycle: u64,
) -> Option<ClashPlace>
    requires { PlacesWithin (length parents.now) placed.now }
    ensures found { IfSome result
        (λ f. IsFirstPair (keeps_apart parents.now apart) placed.now cycle f) }
    ensures none { IfNone result
        ((i : ℕ) → HasNoPartner (keeps_apart parents.now apart) placed.now i cycle) }
{
    for first in 0..placed.len() {
        if let Some(second) = first_partner(parents, apart, placed, first, cycle) {
            return Some(ClashPlace {
                first,
                second,
                cycle,
            });
        }
    }
    None
}

/// The least cycle at which two tests meet that the rule keeps apart.
fn least_cycle(
    parents: &[usize],
    apart: Apart,
    placed: &[PlacedTest],
    begins: &[Begin],
    ends: &mut [u64],
) -> Option<u64>
    requires { IsLayout parents.now placed.now begins.now (length ends.old) }
    ensures { IsFirstCycle (keeps_apart parents.now apart) placed.now result }
{
    match apart {
        Apart::OneBus => first_meeting(parents, placed, begins, EndKey::Bus, EndKey::Bus, ends),
        Apart::OneModule => first_meeting(
            parents,
            placed,
            begins,
            EndKey::Place,
            EndKey::Place,
            ends,
        ),
        Apart::ParentAndChild => {
            let parent_first = first_meeting(
                parents,
                placed,
                begins,
                EndKey::Place,
                EndKey::Parent,
                ends,
            );
            let child_first = first_meeting(
                parents,
                placed,
                begins,
                EndKey::Parent,
                EndKey::Place,
                ends,
            );
            earlier(parent_first, child_first)
        }
    }
}

/// The least cycle at which two tests meet that the rule keeps apart, and the least pair there.
pub(crate) fn first_clash(
    parents: &[usize],
    apart: Apart,
    placed: &[PlacedTest],
    begins: &[Begin],
    ends: &mut [u64],
) -> Option<ClashPlace>
    requires { IsLayout parents.now placed.now begins.now (length ends.old) }
    ensures { IsBest (keeps_apart parents.now apart) placed.now (length placed.now) 0 result }
{
    match least_cycle(parents, apart, placed, begins, ends) {
        Some(cycle) => first_pair(parents, apart, placed, cycle),
        None => None,
    }
}

/// The fault of two tests that meet.
fn fault_of(apart: Apart, a: TestId, b: TestId, cycle: u64) -> PlanFault
    ensures { result ≡ clash_fault apart a b cycle }
{
    match apart {
        Apart::OneBus => PlanFault::Wire { a, b, cycle },
        Apart::OneModule => PlanFault::Busy { a, b, cycle },
        Apart::ParentAndChild => PlanFault::Parent { a, b, cycle },
    }
}

/// Tests that may not meet, against the placed tests of a plan and the parents of its chip.
pub(crate) fn check_apart(
    parents: &[usize],
    apart: Apart,
    placed: &[PlacedTest],
    begins: &[Begin],
    ends: &mut [u64],
) -> Option<PlanFault>
    requires { IsLayout parents.now placed.now begins.now (length ends.old) }
    ensures { (soc : SocValue) (limits : LimitsValue) (plan : PlanValue) →
        placed.now ≡ placed_tests soc plan → AreParents soc parents.now →
        IsStage soc limits plan (rule_for apart) result }
{
    match first_clash(parents, apart, placed, begins, ends) {
        Some(found) => Some(fault_of(
            apart,
            placed[found.first].id,
            placed[found.second].id,
            found.cycle,
        )),
        None => None,
    }
}
