//! The planner's bound for a plan of a given number of cycles.
ghost use Rattle.std.specs.Prelude.{ℕ, ◌≤◌, IfOk, IfSome};
ghost use Rattle.soc_model.specs.Chips.{soc_value};
ghost use Rattle.soc_model.specs.SoundChips.{IsSoundChip};
ghost use Rattle.plan_model.specs.Views.{limits_value, bound_value, why_value};
ghost use Rattle.plan_model.specs.Rules.{Each, IsBound};
ghost use Rattle.plan_model.specs.SoundLimits.{IsSoundLimits};
ghost use Rattle.plan_model.specs.Certificates.{IsAccepted, IsElementary, IsChainItem};
ghost use Rattle.bound_certificate.specs.Best.{IsBestWith, IsBestBound, NamesInChip, HasPlanNumbers};
ghost use Rattle.bound_certificate.specs.Winners.{names_of, IsClaimed};

use crate::candidates::winner_of;
use crate::chains::printed_chain;
use crate::forced_lists::forced_sum;
use crate::forced_part::forced_part;
use live_tests::{Problem, Resolved};
use outside::NoMemory;
use plan_model::{Bound, Limits, Why};
use soc_model::{Soc, TestId};
use std::alloc::Global;

/// The winner, or Area with 0 where there is none.
fn claimed(best: Option<(u128, Why)>) -> (u128, Why)
    ensures seen { IsClaimed best result }
{
    match best {
        None => (0, Why::Area),
        Some(found) => found,
    }
}

/// The planner's bound at the cycles of a good plan, with this precedence chain among the candidates.
fn best_with(
    alloc: Global,
    problem: &Problem<'_>,
    cycles: u64,
    chain: Option<Vec<TestId>>,
) -> Result<Bound, NoMemory>
    requires chain { IfSome chain
        (λ v. Each (IsChainItem problem.now.soc problem.now.limits) v.items) }
    requires good { (n : ℕ) → IsBound problem.now.soc problem.now.limits n → n ≤ cycles }
    ensures best { IfOk result (λ bound. IsBestWith problem.now.soc problem.now.limits cycles
        (names_of chain) (bound_value bound)) }
    ensures accepted { IfOk result
        (λ bound. IsAccepted problem.now.soc problem.now.limits (bound_value bound)) }
    ensures few { IfOk result (λ bound. bound.cycles ≤ cycles) }
{
    let soc = problem.soc;
    let (shown, why) = claimed(winner_of(problem, chain));
    let wanted = u128::from(cycles);
    if shown < wanted {
        let modules = forced_part(alloc, problem, cycles)?;
        if wanted <= forced_sum(soc, &modules, problem.limits.wires) {
            return Ok(Bound {
                cycles,
                why: Why::Forced { modules },
            });
        }
    }
    Ok(Bound {
        cycles: shown as u64,
        why,
    })
}

/// The planner's bound for a good plan of `cycles` cycles, of a sound chip under sound limits: the first of greatest value
/// among the certificates of every kind but Forced, or, where that is less than the cycles, the forced list that reaches
/// them, if the one that is tried does. It is accepted, and so a lower bound; it is at least every elementary value and at
/// most the cycles, and it names modules and live tests of the chip.
pub fn best_bound(alloc: Global, soc: &Soc, limits: &Limits, cycles: u64) -> Result<Bound, NoMemory>
    requires sound { IsSoundChip (soc_value soc.now) }
    requires limits { IsSoundLimits (soc_value soc.now) (limits_value limits.now) }
    requires good { (n : ℕ) → IsBound (soc_value soc.now) (limits_value limits.now) n → n ≤ cycles }
    ensures best { IfOk result (λ bound. IsBestBound (soc_value soc.now) (limits_value limits.now)
        cycles (bound_value bound)) }
    ensures accepted { IfOk result
        (λ bound. IsAccepted (soc_value soc.now) (limits_value limits.now) (bound_value bound)) }
    ensures bound { IfOk result
        (λ bound. IsBound (soc_value soc.now) (limits_value limits.now) bound.cycles) }
    ensures elementary { IfOk result (λ bound. (n : ℕ) →
        IsElementary (soc_value soc.now) (limits_value limits.now) n → n ≤ bound.cycles) }
    ensures few { IfOk result (λ bound. bound.cycles ≤ cycles) }
    ensures names { IfOk result (λ bound. NamesInChip (soc_value soc.now) (why_value bound.why)) }
    ensures numbers { IfOk result (λ bound. HasPlanNumbers (why_value bound.why)) }
{
    let resolved = Resolved::new(alloc, soc, limits)?;
    let problem = Problem::new(soc, limits, &resolved);
    best_bound_with(alloc, &problem, cycles)
}

/// The planner's bound for a problem, as [`best_bound`] answers it.
pub fn best_bound_with(alloc: Global, problem: &Problem<'_>, cycles: u64) -> Result<Bound, NoMemory>
    requires good { (n : ℕ) → IsBound problem.now.soc problem.now.limits n → n ≤ cycles }
    ensures best { IfOk result
        (λ bound. IsBestBound problem.now.soc problem.now.limits cycles (bound_value bound)) }
    ensures accepted { IfOk result
        (λ bound. IsAccepted problem.now.soc problem.now.limits (bound_value bound)) }
    ensures bound { IfOk result (λ bound. IsBound problem.now.soc problem.now.limits bound.cycles) }
    ensures elementary { IfOk result
        (λ bound. (n : ℕ) → IsElementary problem.now.soc problem.now.limits n → n ≤ bound.cycles) }
    ensures few { IfOk result (λ bound. bound.cycles ≤ cycles) }
    ensures names { IfOk result (λ bound. NamesInChip problem.now.soc (why_value bound.why)) }
    ensures numbers { IfOk result (λ bound. HasPlanNumbers (why_value bound.why)) }
{
    // opened for what it keeps
    let _ = &problem.soc;
    let chain = printed_chain(alloc, problem)?;
    let bound = best_with(alloc, problem, cycles, chain)?;
    Ok(bound)
}
