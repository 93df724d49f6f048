//! A better plan, with the greater of two bounds.
ghost use Rattle.std.specs.Prelude.{◌≡◌, ℕ, ◌<◌, ◌≤◌, None, length, IfOk, IfSome};
ghost use Rattle.soc_model.specs.Chips.{live_tests};
ghost use Rattle.resource_table.specs.Jobs.{job_value, IsSoundJob};
ghost use Rattle.plan_model.specs.Rules.{IsGood, IsBound};
ghost use Rattle.plan_model.specs.Certificates.{IsAccepted};
ghost use Rattle.plan_model.specs.Faults.{IsFaultless};
ghost use Rattle.plan_model.specs.Runs.{Content};
ghost use Rattle.plan_model.specs.Right.{IsRight};
ghost use Rattle.plan_model.specs.Views.{plan_value, bound_value};
ghost use Rattle.plan_text.specs.Grammar.{AreSmallStarts};
ghost use Rattle.plan_improver.specs.declared.progress.TheConstants.{REPORTED_FROM};
ghost use Rattle.plan_improver.specs.SearchBasis.{IsSearchBasis};
ghost use Rattle.plan_improver.specs.Improved.{IsGreaterBound, IsRaised, IsImproved};
ghost use Rattle.plan_improver.specs.Reports.{MayReport};

use crate::candidate::{better_plan, no_bound};
use crate::laws::faultless_plans_are_in_range;
use crate::progress::run_reported;
use arch_search::Search;
use bound_certificate::best_bound_with;
use commands::line_room;
use live_tests::Problem;
use outside::{NoMemory, Sink};
use packed_wrappers::PackedWrappers;
use plan_model::{Bound, Plan, good_plans_run_right};
use planner::job_with;
use resource_table::Job;
use std::alloc::Global;
use std::mem;
use width_table::WidthTable;

/// The greater of a given bound and of the best one at the cycles of a good plan; of equal ones the given one.
fn greater_bound(
    alloc: Global,
    problem: &Problem<'_>,
    cycles: u64,
    given: Bound,
) -> Result<Bound, NoMemory>
    requires good { (n : ℕ) → IsBound problem.now.soc problem.now.limits n → n ≤ cycles }
    requires accepted { IsAccepted problem.now.soc problem.now.limits (bound_value given) }
    ensures greater { IfOk result (λ bound. IsGreaterBound problem.now.soc problem.now.limits cycles
        (bound_value given) (bound_value bound)) }
    ensures accepted { IfOk result (λ bound. IsAccepted problem.now.soc problem.now.limits
        (bound_value bound)) }
    ensures at_least { IfOk result (λ bound. given.cycles ≤ bound.cycles) }
{
    let best = best_bound_with(alloc, problem, cycles)?;
    if given.cycles < best.cycles {
        return Ok(best);
    }
    Ok(given)
}

/// A good plan, with the greater of a given bound and of the best one at its cycles.
fn with_greater_bound(
    alloc: Global,
    problem: &Problem<'_>,
    plan: Plan,
    given: Bound,
) -> Result<Plan, NoMemory>
    requires good { IsGood problem.now.soc problem.now.limits (plan_value plan) }
    requires accepted { IsAccepted problem.now.soc problem.now.limits (bound_value given) }
    ensures { IfOk result (λ new. IsRaised problem.now.soc problem.now.limits (plan_value plan)
        (bound_value given) (plan_value new)) }
{
    let Plan {
        buses,
        wrappers,
        starts,
        cycles,
        bound: _,
    } = plan;
    let bound = greater_bound(alloc, problem, cycles, given)?;
    Ok(Plan {
        buses,
        wrappers,
        starts,
        cycles,
        bound,
    })
}

/// The job of a plan's tests.
fn job_of_plan(alloc: Global, problem: &Problem<'_>, given: &Plan) -> Result<Job, NoMemory>
    requires given { IsGood problem.now.soc problem.now.limits (plan_value given.now) }
    ensures sound { IfOk result (λ job. IsSoundJob (job_value job)) }
    ensures tests { IfOk result
        (λ job. length (job_value job).tests ≡ length (live_tests problem.now.soc)) }
{
    let job = job_with(alloc, problem, &given.buses, &given.wrappers)?;
    Ok(job)
}

/// What a search for a better plan goes by.
#[derive(Drop)]
struct SearchBasis<'a> {
    /// The wrappers of the modules on each width.
    packed: PackedWrappers<'a>,
    /// The job of the given plan's tests.
    job: Job,
    /// Those tests, with their cycles on each width.
    problem: arch_search::TimedTests,
}

/// What a search that begins at a plan goes by.
fn basis_of<'a>(
    alloc: Global,
    problem: &Problem<'a>,
    table: &'a WidthTable<'a>,
    given: &Plan,
) -> Result<SearchBasis<'a>, NoMemory>
    requires chip { table.now.soc ≡ problem.now.soc }
    requires wires { table.now.wires ≡ problem.now.limits.wires }
    requires given { IsGood problem.now.soc problem.now.limits (plan_value given.now) }
    ensures { IfOk result (IsSearchBasis problem.now.soc problem.now.limits.wires) }
{
    let wires = problem.limits.wires;
    let packed = PackedWrappers::new(alloc, problem.soc, table, wires)?;
    let job = job_of_plan(alloc, problem, given)?;
    let tests = arch_search::TimedTests::new(alloc, problem.soc, &packed, wires, &job)?;
    Ok(SearchBasis {
        packed,
        job,
        problem: tests,
    })
}

/// A good plan of fewer cycles than the given one, where `tries` tries of a search on its basis find one.
fn searched_on<T: Sink>(
    alloc: Global,
    problem: &Problem<'_>,
    basis: &SearchBasis<'_>,
    given: &Plan,
    tries: u64,
    seed: u64,
    progress: &mut T,
) -> Result<Option<Plan>, NoMemory>
    requires basis { IsSearchBasis problem.now.soc problem.now.limits.wires basis.now }
    ensures good { IfOk result (λ plan. IfSome plan (λ p. IsGood problem.now.soc problem.now.limits
        (plan_value p))) }
    ensures small_starts { IfOk result
        (λ plan. IfSome plan (λ p. AreSmallStarts (plan_value p).starts)) }
    ensures fewer { IfOk result (λ plan. IfSome plan (λ p. p.cycles < given.now.cycles)) }
    ensures faults_never_fall { T.faults progress.old ≤ T.faults progress.new }
    ensures quiet { tries < REPORTED_FROM → progress.new ≡ progress.old }
    ensures reported { MayReport tries (T.written progress.old) (T.written progress.new) }
{
    let mut line = line_room(alloc)?;
    let names = &problem.resolved.tests;
    let mut search = Search::new(alloc, names, &basis.problem, &basis.job, given, seed)?;
    run_reported(&mut search, tries, &mut line, progress);
    search.schedule_best();
    let plan = better_plan(alloc, problem, &basis.packed, &search.found(), given.cycles);
    search.free();
    plan
}

/// A good plan of fewer cycles than the given one, where `tries` tries of a search over a width table of the chip find one.
fn searched_over<T: Sink>(
    alloc: Global,
    problem: &Problem<'_>,
    table: &WidthTable<'_>,
    given: &Plan,
    tries: u64,
    seed: u64,
    progress: &mut T,
) -> Result<Option<Plan>, NoMemory>
    requires chip { table.now.soc ≡ problem.now.soc }
    requires wires { table.now.wires ≡ problem.now.limits.wires }
    requires given { IsGood problem.now.soc problem.now.limits (plan_value given.now) }
    ensures good { IfOk result (λ plan. IfSome plan (λ p. IsGood problem.now.soc problem.now.limits
        (plan_value p))) }
    ensures small_starts { IfOk result
        (λ plan. IfSome plan (λ p. AreSmallStarts (plan_value p).starts)) }
    ensures fewer { IfOk result (λ plan. IfSome plan (λ p. p.cycles < given.now.cycles)) }
    ensures faults_never_fall { T.faults progress.old ≤ T.faults progress.new }
    ensures quiet { tries < REPORTED_FROM → progress.new ≡ progress.old }
    ensures reported { MayReport tries (T.written progress.old) (T.written progress.new) }
{
    let basis = basis_of(alloc, problem, table, given)?;
    let plan = searched_on(alloc, problem, &basis, given, tries, seed, progress);
    // dropped by a call: the end of the scope would drop each of its parts, and be proved for each
    drop(basis);
    plan
}

/// A good plan of fewer cycles than the given one, where `tries` tries find one.
fn searched<T: Sink>(
    alloc: Global,
    problem: &Problem<'_>,
    given: &Plan,
    tries: u64,
    seed: u64,
    progress: &mut T,
) -> Result<Option<Plan>, NoMemory>
    requires given { IsFaultless problem.now.soc problem.now.limits (plan_value given.now) }
    ensures good { IfOk result (λ plan. IfSome plan (λ p. IsGood problem.now.soc problem.now.limits
        (plan_value p))) }
    ensures small_starts { IfOk result
        (λ plan. IfSome plan (λ p. AreSmallStarts (plan_value p).starts)) }
    ensures fewer { IfOk result (λ plan. IfSome plan (λ p. p.cycles < given.now.cycles)) }
    ensures faults_never_fall { T.faults progress.old ≤ T.faults progress.new }
    ensures quiet { tries < REPORTED_FROM → progress.new ≡ progress.old }
    ensures reported { MayReport tries (T.written progress.old) (T.written progress.new) }
    ensures untried { tries ≡ 0 → IfOk result (λ plan. plan ≡ None) }
{
    if tries == 0 {
        return Ok(None);
    }
    let table = WidthTable::new(alloc, problem.soc, problem.limits.wires)?;
    let plan = searched_over(alloc, problem, &table, given, tries, seed, progress);
    drop(table);
    plan
}

/// A plan of no more cycles than the given one has, for the same chip and limits, after `tries` tries of a search that draws
/// from a seed; the given plan where none is better. It is good, so that it runs right for every content, and its bound is
/// the greater of the given one and of the best one at its cycles. Every number of it is in the range of a plan's text, where
/// the given plan's starts are. From 100,000 tries on `progress` gets a line at each tenth of them, with the best cycles so far; where that
/// fails nothing else changes. `NoMemory` where memory runs out.
pub fn improved<T: Sink>(
    alloc: Global,
    problem: &Problem<'_>,
    mut given: Plan,
    tries: u64,
    seed: u64,
    progress: &mut T,
) -> Result<Plan, NoMemory>
    requires given { IsFaultless problem.now.soc problem.now.limits (plan_value given) }
    ensures improved { IfOk result (λ plan. IsImproved problem.now.soc problem.now.limits tries
        (plan_value given) (plan_value plan)) }
    ensures right { IfOk result (λ plan. (content : Content) →
        IsRight problem.now.soc problem.now.limits (plan_value plan) content) }
    ensures faults_never_fall { T.faults progress.old ≤ T.faults progress.new }
    ensures quiet { tries < REPORTED_FROM → progress.new ≡ progress.old }
    ensures reported { MayReport tries (T.written progress.old) (T.written progress.new) }
{
    // opened for what it keeps
    let _ = &problem.soc;
    good_plans_run_right();
    faultless_plans_are_in_range();
    let found = searched(alloc, problem, &given, tries, seed, progress)?;
    let bound = mem::replace(&mut given.bound, no_bound());
    match found {
        Some(plan) => {
            let better = with_greater_bound(alloc, problem, plan, bound)?;
            Ok(better)
        }
        None => {
            let kept = with_greater_bound(alloc, problem, given, bound)?;
            Ok(kept)
        }
    }
}
