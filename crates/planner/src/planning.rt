//! A plan of a chip's tests, from the width table to the bound.
ghost use Rattle.std.specs.Prelude.{◌≡◌, ℕ, ◌≤◌, List, IfOk};
ghost use Rattle.soc_model.specs.Chips.{soc_value};
ghost use Rattle.soc_model.specs.SoundChips.{IsSoundChip};
ghost use Rattle.plan_model.specs.Plans.{BusValue, PlanValue};
ghost use Rattle.plan_model.specs.Rules.{IsBound};
ghost use Rattle.plan_model.specs.Right.{IsRight};
ghost use Rattle.plan_model.specs.Runs.{Content};
ghost use Rattle.plan_model.specs.Certificates.{IsElementary};
ghost use Rattle.plan_model.specs.SoundLimits.{IsSoundLimits};
ghost use Rattle.plan_model.specs.Views.{plan_value, limits_value};
ghost use Rattle.planner.specs.Buses.{table_of, AreSettledBuses};
ghost use Rattle.planner.specs.Jobs.{job_of};
ghost use Rattle.planner.specs.Plans.{IsPlanned, IsAnswer};
ghost use Rattle.schedule_search.specs.Estimates.{IsEstimate};
ghost use Rattle.schedule_search.specs.Walks.{HasMoreOpen};

use crate::schedule::schedule_of;
use crate::wiring::wiring_of;
use bound_certificate::best_bound_with;
use live_tests::{Problem, Resolved};
use outside::NoMemory;
use plan_model::{Limits, Plan, good_plans_run_right};
use resource_table::Table;
use schedule_search::Ahead;
use soc_model::Soc;
use std::alloc::Global;

/// Plans the tests of a sound chip under sound limits. `NoMemory` where memory runs out, and for no other reason.
///
/// The buses are those of the start solution, settled by bottom-up, top-down and reshuffle steps (after TR-ARCHITECT, Goel
/// and Marinissen 2002). Each module has for each mode that is used the wrapper that takes the fewest cycles on its bus.
/// The tests are placed in an order that is searched for within the budget of the limits, each at the least cycle where it
/// fits; `ahead` estimates where tests end that aren't placed yet. The bound is the best of the certificates that are
/// tried. The plan is good, so that it runs right, bit by bit, for every content. Where the budget is enough for all open
/// entries of the walk over the orders, no other plan keeps the planner's rules.
pub fn plan<F: Fn(&Table<'_>, usize) -> u64>(
    alloc: Global,
    soc: &Soc,
    limits: &Limits,
    ahead: Ahead<F>,
) -> Result<Plan, NoMemory>
where
    F: Drop,
    requires sound { IsSoundChip (soc_value soc.now) }
    requires limits { IsSoundLimits (soc_value soc.now) (limits_value limits.now) }
    requires estimate { IsEstimate (λ t test. F.pre ahead t test)
        (λ t test estimate. F.post ahead t test estimate) }
    ensures planned { IfOk result
        (λ plan. IsPlanned (soc_value soc.now) (limits_value limits.now) (plan_value plan)) }
    ensures right { IfOk result (λ plan. (content : Content) →
        IsRight (soc_value soc.now) (limits_value limits.now) (plan_value plan) content) }
    ensures bound { IfOk result
        (λ plan. IsBound (soc_value soc.now) (limits_value limits.now) plan.bound.cycles) }
    ensures elementary { IfOk result (λ plan. (n : ℕ) →
        IsElementary (soc_value soc.now) (limits_value limits.now) n → n ≤ plan.bound.cycles) }
    ensures only_plan { IfOk result (λ plan. (HasMoreOpen
        (job_of (soc_value soc.now) (limits_value limits.now) (plan_value plan))
        (limits_value limits.now).budget → ⊥) → (other : PlanValue) →
        IsPlanned (soc_value soc.now) (limits_value limits.now) other → other ≡ plan_value plan) }
    ensures only_buses { IfOk result (λ plan. (buses : List BusValue) →
        AreSettledBuses (table_of (soc_value soc.now) (limits_value limits.now)) buses →
        buses ≡ (plan_value plan).buses) }
{
    let resolved = Resolved::new(alloc, soc, limits)?;
    let problem = Problem::new(soc, limits, &resolved);
    plan_with(alloc, &problem, ahead)
}

/// The plan of a problem, as [`plan`] makes it.
pub fn plan_with<F: Fn(&Table<'_>, usize) -> u64>(
    alloc: Global,
    problem: &Problem<'_>,
    ahead: Ahead<F>,
) -> Result<Plan, NoMemory>
where
    F: Drop,
    requires estimate { IsEstimate (λ t test. F.pre ahead t test)
        (λ t test estimate. F.post ahead t test estimate) }
    ensures planned { IfOk result
        (λ plan. IsPlanned problem.now.soc problem.now.limits (plan_value plan)) }
    ensures right { IfOk result (λ plan. (content : Content) →
        IsRight problem.now.soc problem.now.limits (plan_value plan) content) }
    ensures bound { IfOk result
        (λ plan. IsBound problem.now.soc problem.now.limits plan.bound.cycles) }
    ensures elementary { IfOk result (λ plan. (n : ℕ) →
        IsElementary problem.now.soc problem.now.limits n → n ≤ plan.bound.cycles) }
    ensures only_plan { IfOk result
        (λ plan. (HasMoreOpen (job_of problem.now.soc problem.now.limits (plan_value plan))
        problem.now.limits.budget → ⊥) → (other : PlanValue) →
        IsPlanned problem.now.soc problem.now.limits other → other ≡ plan_value plan) }
    ensures only_buses { IfOk result (λ plan. (buses : List BusValue) →
        AreSettledBuses (table_of problem.now.soc problem.now.limits) buses →
        buses ≡ (plan_value plan).buses) }
{
    let plan = planned(alloc, problem, ahead)?;
    Ok(plan)
}

/// A plan of a problem, with all that is known of it.
fn planned<F: Fn(&Table<'_>, usize) -> u64>(
    alloc: Global,
    problem: &Problem<'_>,
    ahead: Ahead<F>,
) -> Result<Plan, NoMemory>
where
    F: Drop,
    requires estimate { IsEstimate (λ t test. F.pre ahead t test)
        (λ t test estimate. F.post ahead t test estimate) }
    ensures { IfOk result (λ plan. IsAnswer problem.now.soc problem.now.limits (plan_value plan)) }
{
    // opened for what it keeps
    let _ = &problem.soc;
    good_plans_run_right();
    let wiring = wiring_of(alloc, problem)?;
    let schedule = schedule_of(alloc, problem, &wiring, ahead)?;
    let bound = best_bound_with(alloc, problem, schedule.cycles)?;
    Ok(Plan {
        buses: wiring.buses,
        wrappers: wiring.wrappers,
        starts: schedule.starts,
        cycles: schedule.cycles,
        bound,
    })
}
