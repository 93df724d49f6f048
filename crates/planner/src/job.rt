//! The job of a plan: the live tests of a chip, with the cycles that they take in the plan's wrappers. Tests, modules and
//! buses go by their places.
ghost use Rattle.std.specs.Prelude.{◌≡◌, ℕ, ◌<◌, ◌++◌, ◌∷◌, [], true, length, map, slice_get, Some, IfOk, OnOk};
ghost use Rattle.std.specs.List.{filter};
ghost use Rattle.soc_model.specs.declared.TestId.{TestId};
ghost use Rattle.soc_model.specs.Chips.{soc_value, module_value, is_live};
ghost use Rattle.soc_model.specs.SoundChips.{IsSoundChip};
ghost use Rattle.plan_model.specs.SoundLimits.{IsSoundLimits};
ghost use Rattle.plan_model.specs.Rules.{Keeps, Wrappers, Proper};
ghost use Rattle.plan_model.specs.Views.{wrapper_value, bus_value, limits_value};
ghost use Rattle.live_tests.specs.Profiles.{AreProfilePlaces};
ghost use Rattle.live_tests.specs.Resolved.{IsResolved};
ghost use Rattle.resource_table.specs.declared.JobTest.{JobTest};
ghost use Rattle.resource_table.specs.Jobs.{test_value, job_value, IsSoundJob};
ghost use Rattle.planner.specs.Jobs.{settled_parts, steps_of as the_steps, test_in, job_of as the_job};
ghost use Rattle.planner.specs.Sharing.{IsShared};
ghost use Rattle.planner.specs.Sources.{chip_of, limits_of, plan_of, AreParts};

use indexmap::IndexMap;
use live_tests::{
    ModeWrappers, Problem, Resolved, bus_over, bus_place, buses_by_module, profile_place,
    wrappers_by_mode,
};
use outside::{NoMemory, copied, push};
use plan_model::{Bus, Limits, Wrapper};
use resource_table::{Job, JobTest};
use soc_model::{Module, Soc, Test, TestId, live, module_at};
use std::alloc::Global;

/// What the job of a plan is made from: a chip, limits, and the buses and wrappers of the plan.
#[derive(Clone, Copy, Drop)]
pub struct JobSource<'a> {
    pub soc: &'a Soc,
    pub limits: &'a Limits,
    pub buses: &'a [Bus],
    pub wrappers: &'a [Wrapper],
}

/// The modules of a chip.
fn module_count(soc: &Soc) -> usize
    ensures { result ≡ length (soc_value soc.now).modules }
{
    soc.modules.len()
}

/// The one step of a test without a profile.
fn one_step(alloc: Global, power: u64) -> Result<Vec<(u64, u64)>, NoMemory>
    ensures { IfOk result (λ steps. steps.items ≡ (0, power) ∷ []) }
{
    Ok(vec![in alloc; (0, power)]?)
}

/// The power of a test in steps: those of its profile, found by those of all tests, or its own power at every cycle.
fn steps_of(
    alloc: Global,
    limits: &Limits,
    profiles: &IndexMap<TestId, usize>,
    id: TestId,
    own: u64,
) -> Result<Vec<(u64, u64)>, NoMemory>
    requires { AreProfilePlaces profiles.now limits.now.profiles.items }
    ensures { IfOk result (λ steps. steps.items ≡ the_steps (limits_value limits.now) id own) }
{
    match profile_place(&limits.profiles, profiles, id) {
        Some(place) => copied(alloc, &limits.profiles[place].steps),
        None => one_step(alloc, own),
    }
}

/// The parts that a job is made from, resolved, with where the bus and the wrappers of each module stand.
#[derive(Drop)]
struct Parts<'a> {
    source: &'a JobSource<'a>,
    resolved: &'a Resolved,
    buses: IndexMap<u64, usize>,
    wrappers: IndexMap<(u64, bool), usize>,
}

/// What the tests of a module share.
#[derive(Clone, Copy, Drop)]
struct ModulePlace {
    /// The place of the module in the chip.
    place: usize,
    /// The place of its parent.
    parent: Option<usize>,
    /// The place of its bus; how many buses there are where it has none.
    bus: usize,
    /// Its wrappers.
    wrappers: ModeWrappers,
}

/// What the tests of the module at a place share.
fn shared_of(parts: &Parts<'_>, place: usize, module: &Module) -> ModulePlace
    requires parts { AreParts parts.now }
    requires module_there { slice_get (chip_of parts.now.source.now).modules place
        ≡ Some (module_value «module».now) }
    ensures place { result.place ≡ place }
    ensures shared { IsShared (chip_of parts.now.source.now) (plan_of parts.now.source.now)
        (module_value «module».now) result }
{
    let source = parts.source;
    let scan = parts.wrappers.get(&(module.number, true)).copied();
    let terminals = parts.wrappers.get(&(module.number, false)).copied();
    let wrappers = ModeWrappers::found(source.soc, source.wrappers, place, module, scan, terminals);
    ModulePlace {
        place,
        parent: parts.resolved.parents[place],
        bus: bus_place(source.buses, &parts.buses, module.number),
        wrappers,
    }
}

/// A live test of a module.
fn test_of(
    alloc: Global,
    parts: &Parts<'_>,
    shared: &ModulePlace,
    module: &Module,
    test: &Test,
) -> Result<JobTest, NoMemory>
    requires parts { AreParts parts.now }
    requires shared { IsShared (chip_of parts.now.source.now) (plan_of parts.now.source.now)
        (module_value «module».now) shared.now }
    requires test_there { (k : ℕ) × (slice_get «module».now.tests.items k ≡ Some test.now) }
    requires is_live { is_live test.now ≡ true }
    ensures { IfOk result (λ t. test_value t
        ≡ test_in (chip_of parts.now.source.now) (limits_of parts.now.source.now)
        (plan_of parts.now.source.now) shared.now.place (module_value «module».now) test.now) }
{
    let id = TestId {
        module: module.number,
        test: test.number,
    };
    let profiles = &parts.resolved.profiles;
    let power = steps_of(alloc, parts.source.limits, profiles, id, test.power)?;
    Ok(JobTest {
        id,
        place: shared.place,
        parent: shared.parent,
        bus: bus_over(test.tam, shared.bus),
        length: shared.wrappers.cycles(module, test),
        power,
    })
}

/// Adds the live tests of the module at a place.
fn push_live(
    alloc: Global,
    tests: &mut Vec<JobTest>,
    parts: &Parts<'_>,
    place: usize,
    module: &Module,
) -> Result<(), NoMemory>
    requires parts { AreParts parts.now }
    requires module_there { slice_get (chip_of parts.now.source.now).modules place
        ≡ Some (module_value «module».now) }
    ensures { OnOk result (map test_value tests.new.items
        ≡ map test_value tests.old.items
        ++ map
        (test_in (chip_of parts.now.source.now) (limits_of parts.now.source.now)
        (plan_of parts.now.source.now) place (module_value «module».now))
        (filter is_live «module».now.tests.items)) }
{
    let shared = shared_of(parts, place, module);
    for test in &module.tests {
        if live(test) {
            let entry = test_of(alloc, parts, &shared, module, test)?;
            push(tests, entry)?;
        }
    }
    Ok(())
}

/// The live tests, in the order of the chip.
fn tests_of(alloc: Global, parts: &Parts<'_>) -> Result<Vec<JobTest>, NoMemory>
    requires { AreParts parts.now }
    ensures { IfOk result (λ tests. map test_value tests.items
        ≡ (the_job (chip_of parts.now.source.now) (limits_of parts.now.source.now)
        (plan_of parts.now.source.now)).tests) }
{
    let soc = parts.source.soc;
    let mut tests = Vec::new(alloc);
    for place in 0..module_count(soc) {
        push_live(alloc, &mut tests, parts, place, module_at(soc, place))?;
    }
    Ok(tests)
}

/// The job of the live tests, by the places of the parts.
fn job_at(alloc: Global, parts: &Parts<'_>) -> Result<Job, NoMemory>
    requires { AreParts parts.now }
    ensures job { IfOk result (λ job. job_value job
        ≡ the_job (chip_of parts.now.source.now) (limits_of parts.now.source.now)
        (plan_of parts.now.source.now)) }
    ensures sound { IsSoundLimits (chip_of parts.now.source.now) (limits_of parts.now.source.now) →
        IfOk result (λ job. IsSoundJob (job_value job)) }
{
    let tests = tests_of(alloc, parts)?;
    let before = copied(alloc, &parts.resolved.precedences)?;
    Ok(Job {
        tests,
        before,
        power: parts.source.limits.power,
    })
}

/// The job of the live tests, in the order of the chip, each with the cycles that it takes in the wrappers and the bus that
/// it goes over. Under sound limits it is a sound job, which a schedule can be searched for. `NoMemory` where there is
/// none.
pub fn job_of(alloc: Global, parts: &JobSource<'_>) -> Result<Job, NoMemory>
    requires sound { IsSoundChip (soc_value parts.now.soc.now) }
    requires wrapped { Keeps (soc_value parts.now.soc.now) (limits_value parts.now.limits.now)
        (settled_parts (map bus_value parts.now.buses.now)
        (map wrapper_value parts.now.wrappers.now)) Wrappers }
    requires proper { Keeps (soc_value parts.now.soc.now) (limits_value parts.now.limits.now)
        (settled_parts (map bus_value parts.now.buses.now)
        (map wrapper_value parts.now.wrappers.now)) Proper }
    ensures job { IfOk result (λ job. job_value job
        ≡ the_job (soc_value parts.now.soc.now) (limits_value parts.now.limits.now) (settled_parts
        (map bus_value parts.now.buses.now) (map wrapper_value parts.now.wrappers.now))) }
    ensures sound { IsSoundLimits (soc_value parts.now.soc.now)
        (limits_value parts.now.limits.now) → IfOk result (λ job. IsSoundJob (job_value job)) }
{
    let resolved = Resolved::new(alloc, parts.soc, parts.limits)?;
    job_resolved(alloc, parts, &resolved)
}

/// The job, by what the chip and its limits say by places.
fn job_resolved(alloc: Global, parts: &JobSource<'_>, resolved: &Resolved) -> Result<Job, NoMemory>
    requires sound { IsSoundChip (soc_value parts.now.soc.now) }
    requires wrapped { Keeps (soc_value parts.now.soc.now) (limits_value parts.now.limits.now)
        (settled_parts (map bus_value parts.now.buses.now)
        (map wrapper_value parts.now.wrappers.now)) Wrappers }
    requires proper { Keeps (soc_value parts.now.soc.now) (limits_value parts.now.limits.now)
        (settled_parts (map bus_value parts.now.buses.now)
        (map wrapper_value parts.now.wrappers.now)) Proper }
    requires resolved { IsResolved (soc_value parts.now.soc.now) parts.now.limits.now resolved.now }
    ensures job { IfOk result (λ job. job_value job
        ≡ the_job (soc_value parts.now.soc.now) (limits_value parts.now.limits.now) (settled_parts
        (map bus_value parts.now.buses.now) (map wrapper_value parts.now.wrappers.now))) }
    ensures sound { IsSoundLimits (soc_value parts.now.soc.now)
        (limits_value parts.now.limits.now) → IfOk result (λ job. IsSoundJob (job_value job)) }
{
    let parts = Parts {
        source: parts,
        resolved,
        buses: buses_by_module(alloc, parts.buses)?,
        wrappers: wrappers_by_mode(alloc, parts.wrappers)?,
    };
    let job = job_at(alloc, &parts);
    drop(parts);
    job
}

/// The job of a problem's live tests, each with the cycles that it takes in the wrappers and the bus that it goes over. It is
/// a sound job. `NoMemory` where memory runs out.
pub fn job_with(
    alloc: Global,
    problem: &Problem<'_>,
    buses: &[Bus],
    wrappers: &[Wrapper],
) -> Result<Job, NoMemory>
    requires wrapped { Keeps problem.now.soc problem.now.limits
        (settled_parts (map bus_value buses.now) (map wrapper_value wrappers.now)) Wrappers }
    requires proper { Keeps problem.now.soc problem.now.limits
        (settled_parts (map bus_value buses.now) (map wrapper_value wrappers.now)) Proper }
    ensures job { IfOk result (λ job. job_value job ≡ the_job problem.now.soc problem.now.limits
        (settled_parts (map bus_value buses.now) (map wrapper_value wrappers.now))) }
    ensures sound { IfOk result (λ job. IsSoundJob (job_value job)) }
{
    let parts = JobSource {
        soc: problem.soc,
        limits: problem.limits,
        buses,
        wrappers,
    };
    let job = job_resolved(alloc, &parts, problem.resolved)?;
    Ok(job)
}
