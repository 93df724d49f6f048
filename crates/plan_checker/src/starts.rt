//! Each live test has one start, and no other test has any.

ghost use Rattle.std.specs.Prelude.{◌≡◌, ℕ, ◌<◌, length, [], nat_eq, IfSome, IfNone, Some};
ghost use Rattle.std.specs.List.{position};
ghost use Rattle.soc_model.specs.declared.TestId.{TestId};
ghost use Rattle.soc_model.specs.Chips.{soc_value};
ghost use Rattle.soc_model.specs.SoundChips.{IsSoundChip};
ghost use Rattle.plan_model.specs.Plans.{LimitsValue};
ghost use Rattle.plan_model.specs.Rules.{Each, IsFirstBreach, live_ids, Starts};
ghost use Rattle.plan_model.specs.Views.{plan_value};
ghost use Rattle.live_tests.specs.Names.{AllDiffer};
ghost use Rattle.plan_checker.specs.Listed.{StartEarly};
ghost use Rattle.plan_checker.specs.Named.{ids_of};
ghost use Rattle.plan_checker.specs.Stages.{IsStage};
ghost use Rattle.plan_checker.specs.Starting.{AreStarts, IsOnce};

use crate::PlanFault;
use crate::named::{TestNames, name_at, place_named};
use plan_model::Plan;
use soc_model::{Soc, TestId};

/// What stands in the room for a test without a start: no start is as late.
pub(crate) const NO_START: u64 = u64::MAX;

/// The first start of no live test, or of a test that has one already. Where there is none, the room holds the starts at
/// the places of their tests.
fn take_starts(names: &TestNames<'_>, starts: &[(TestId, u64)], room: &mut [u64]) -> Option<TestId>
    requires apart { AllDiffer (ids_of names.now) }
    requires early { StartEarly starts.now }
    requires none { AreStarts (ids_of names.now) [] room.old }
    ensures kept { IfNone result (Each (IsOnce (ids_of names.now)) starts.now) }
    ensures filled { IfNone result (AreStarts (ids_of names.now) starts.now room.new) }
    ensures first { IfSome result (λ id. (n : ℕ) × (s : TestId × ℕ)
        × IsFirstBreach (IsOnce (ids_of names.now)) starts.now n s × (id ≡ s.0)) }
{
    for (id, start) in starts {
        let Some(place) = place_named(names, *id) else {
            return Some(*id);
        };
        if room[place] < NO_START {
            return Some(*id);
        }
        room[place] = *start;
    }
    None
}

/// The first place without a start.
fn unstarted(room: &[u64]) -> Option<usize>
    ensures { result ≡ position (λ s. nat_eq s NO_START) room.now }
{
    room.iter().position(|start| *start == NO_START)
}

/// The starts of the plan against its chip. Where nothing is wrong, the room holds them at the places of their tests.
pub(crate) fn check_starts(
    soc: &Soc,
    plan: &Plan,
    names: &TestNames<'_>,
    room: &mut [u64],
) -> Option<PlanFault>
    requires sound { IsSoundChip (soc_value soc.now) }
    requires early { StartEarly plan.now.starts.items }
    requires named { ids_of names.now ≡ live_ids (soc_value soc.now) }
    requires room { length room.old ≡ length (live_ids (soc_value soc.now)) }
    ensures stage { (limits : LimitsValue) →
        IsStage (soc_value soc.now) limits (plan_value plan.now) Starts result }
    ensures filled { IfNone result
        (AreStarts (live_ids (soc_value soc.now)) plan.now.starts.items room.new) }
{
    room.fill(NO_START);
    match take_starts(names, &plan.starts, room) {
        Some(test) => Some(PlanFault::Tests { test }),
        None => match unstarted(room) {
            Some(place) => Some(PlanFault::Tests {
                test: name_at(names, place),
            }),
            None => None,
        },
    }
}
