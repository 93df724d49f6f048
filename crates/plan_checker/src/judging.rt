//! The check of a plan for a problem: what its chip and its limits say by place is at hand, and what is found of a good plan goes on.

ghost use Rattle.std.specs.Prelude.{◌≡◌, ℕ, ◌≤◌, OnOk, IfOk, IfErr, IsOk};
ghost use Rattle.std.specs.List.{All};
ghost use Rattle.soc_model.specs.declared.TestId.{TestId};
ghost use Rattle.plan_model.specs.declared.TheConstants.{START_MOST};
ghost use Rattle.plan_model.specs.Views.{plan_value};
ghost use Rattle.plan_model.specs.Faults.{IsFault, IsFaultless};
ghost use Rattle.live_tests.specs.Placed.{IsPlaced};
ghost use Rattle.plan_checker.specs.FaultValues.{fault_value};
ghost use Rattle.plan_checker.specs.Room.{HasRoomFor, HoldsPlaced};

use crate::PlanFault;
use crate::check::check_all;
use crate::named::TestNames;
use crate::space::{PlanRooms, chip_sizes, plan_rooms};
use live_tests::{Placed, Problem};
use outside::NoMemory;
use plan_model::Plan;
use soc_model::TestId;
use std::alloc::Global;

/// Room for a check of this plan for the problem.
fn problem_rooms(alloc: Global, problem: &Problem<'_>, plan: &Plan) -> Result<PlanRooms, NoMemory>
    ensures { IfOk result (λ room. HasRoomFor problem.now.soc room.rules) }
{
    let Some(sizes) = chip_sizes(problem.soc) else {
        return Err(NoMemory);
    };
    plan_rooms(alloc, &sizes, plan)
}

/// Whether the plan is good for the problem and its certificate accepted; then the room holds what it says by place. Else the fault
/// that shows first.
fn check_problem(problem: &Problem<'_>, plan: &Plan, room: &mut PlanRooms) -> Result<(), PlanFault>
    requires early { All (λ (s : TestId × ℕ). s.1 ≤ START_MOST) plan.now.starts.items }
    requires room { HasRoomFor problem.now.soc room.old.rules }
    ensures ok { OnOk result
        (IsFaultless problem.now.soc problem.now.limits (plan_value plan.now)) }
    ensures fault { IfErr result
        (λ f. IsFault problem.now.soc problem.now.limits (plan_value plan.now) (fault_value f)) }
    ensures exact { IsFaultless problem.now.soc problem.now.limits (plan_value plan.now) →
        IsOk result }
    ensures placed { OnOk result
        (HoldsPlaced problem.now.soc (plan_value plan.now) room.new.rules.placed) }
{
    let names = TestNames::Resolved(problem.resolved);
    check_all(problem.soc, problem.limits, plan, &names, room)
}

/// What a check has found of a plan by place.
fn placed_of(room: PlanRooms) -> Placed
    ensures tests { result.tests.items ≡ room.rules.placed.tests.items }
    ensures wrappers { result.wrappers.items ≡ room.rules.placed.wrappers.items }
{
    let rules = room.rules;
    let placed = rules.placed;
    Placed {
        tests: placed.tests,
        wrappers: placed.wrappers,
    }
}

/// What a check of a plan for a problem finds: what the plan says by place, where it is good and its certificate accepted; else
/// the fault that shows first, as [`check_plan`] answers it. `NoMemory` where memory runs out, and for no other reason.
pub fn judge_plan(
    alloc: Global,
    problem: &Problem<'_>,
    plan: &Plan,
) -> Result<Result<Placed, PlanFault>, NoMemory>
    requires early { All (λ (s : TestId × ℕ). s.1 ≤ START_MOST) plan.now.starts.items }
    ensures accepted { IfOk result (λ found. IfOk found
        (λ placed. IsFaultless problem.now.soc problem.now.limits (plan_value plan.now))) }
    ensures placed { IfOk result
        (λ found. IfOk found (IsPlaced problem.now.soc (plan_value plan.now))) }
    ensures fault { IfOk result (λ found. IfErr found (λ f.
        IsFault problem.now.soc problem.now.limits (plan_value plan.now) (fault_value f))) }
    ensures exact { IfOk result (λ found. IsFaultless problem.now.soc problem.now.limits
        (plan_value plan.now) → IsOk found) }
{
    let mut room = problem_rooms(alloc, problem, plan)?;
    match check_problem(problem, plan, &mut room) {
        Ok(()) => Ok(Ok(placed_of(room))),
        Err(fault) => {
            // dropped by a call: the end of the scope would drop each of its parts, and be proved for each
            drop(room);
            Ok(Err(fault))
        }
    }
}
