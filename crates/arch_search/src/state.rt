//! A state of the search: buses, an order of the tests, and the cycles that their schedule takes.
ghost use Rattle.std.specs.Prelude.{◌≡◌, ℕ, ◌+◌, ◌<◌, length, replicate, IfOk, IfSome};
ghost use Rattle.std.specs.List.{All, sum_by};
ghost use Rattle.resource_table.specs.Jobs.{job_value, IsSoundJob};
ghost use Rattle.arch_schedule.specs.Buses.{AreBuses, AreAlike};
ghost use Rattle.arch_schedule.specs.Problems.{IsProblem};
ghost use Rattle.arch_search.specs.States.{IsStateOf, AreFirstBuses};

use arch_schedule::{Buses, TimedTests, sorted_by, zeros};
use live_tests::LiveTests;
use outside::{NoMemory, copied};
use plan_model::Plan;
use resource_table::Job;
use std::alloc::Global;

/// Buses and an order of the tests, and what is known of the schedule of the tests in that order.
#[derive(Drop)]
pub struct State {
    /// The buses.
    pub buses: Buses,
    /// The live tests, in the order in which they are placed.
    pub order: Vec<usize>,
    /// The end of the test that ends last.
    pub cycles: u64,
    /// The slot of the late bus: that of the first test over the wires that ends last.
    pub late: Option<usize>,
}

/// Copies a list over one of the same length.
fn write_over<T: Copy>(to: &mut Vec<T>, from: &[T])
    requires { length from.now ≡ length to.old.items }
    ensures { to.new.items ≡ from.now }
{
    to.copy_from_slice(from);
}

impl State {
    /// A copy in memory of its own.
    pub(crate) fn copy(&self, alloc: Global) -> Result<State, NoMemory>
        ensures { (p : TimedTests) → IsStateOf p self.now → IfOk result (IsStateOf p) }
    {
        let widths = copied(alloc, &self.buses.widths)?;
        let slots = copied(alloc, &self.buses.slots)?;
        let loads = copied(alloc, &self.buses.loads)?;
        let order = copied(alloc, &self.order)?;
        Ok(State {
            buses: Buses {
                widths,
                slots,
                loads,
            },
            order,
            cycles: self.cycles,
            late: self.late,
        })
    }

    /// Takes the buses of another state of the same problem. It takes no memory.
    pub(crate) fn take_buses(&mut self, problem: &TimedTests, other: &State)
        requires own { IsStateOf problem.now self.old }
        requires other { IsStateOf problem.now other.now }
        ensures state { IsStateOf problem.now self.new }
    {
        let _wires = problem.wires;
        write_over(&mut self.buses.widths, &other.buses.widths);
        write_over(&mut self.buses.slots, &other.buses.slots);
        write_over(&mut self.buses.loads, &other.buses.loads);
    }

    /// Takes the order of another state of the same problem. It takes no memory.
    pub(crate) fn take_order(&mut self, problem: &TimedTests, other: &State)
        requires own { IsStateOf problem.now self.old }
        requires other { IsStateOf problem.now other.now }
        ensures state { IsStateOf problem.now self.new }
    {
        let _wires = problem.wires;
        write_over(&mut self.order, &other.order);
    }

    /// Becomes as another state of the same problem.
    pub(crate) fn become_as(&mut self, problem: &TimedTests, other: &State)
        requires own { IsStateOf problem.now self.old }
        requires other { IsStateOf problem.now other.now }
        ensures state { IsStateOf problem.now self.new }
        ensures cycles { self.new.cycles ≡ other.now.cycles }
    {
        self.take_buses(problem, other);
        self.take_order(problem, other);
        self.cycles = other.cycles;
        self.late = other.late;
    }
}

/// Whether each precedence goes from a lesser to a greater key.
fn keeps(before: &[(usize, usize)], keys: &[u64]) -> bool
    requires { All (λ (p : ℕ × ℕ). (p.0 < length keys.now) × (p.1 < length keys.now)) before.now }
{
    for (earlier, later) in before {
        if keys[*earlier] >= keys[*later] {
            return false;
        }
    }
    true
}

/// For each test its place in the list of a plan's starts.
fn listed_places(alloc: Global, names: &LiveTests, plan: &Plan) -> Result<Vec<u64>, NoMemory>
    ensures { IfOk result (λ places. length places.items ≡ length names.now) }
{
    let mut places = zeros(alloc, names.names().len())?;
    for place in 0..plan.starts.len() {
        if let Some(test) = names.place(plan.starts[place].0) {
            places[test] = place as u64;
        }
    }
    Ok(places)
}

/// For each test its start in a plan.
fn planned_starts(alloc: Global, names: &LiveTests, plan: &Plan) -> Result<Vec<u64>, NoMemory>
    ensures { IfOk result (λ starts. length starts.items ≡ length names.now) }
{
    let mut starts = zeros(alloc, names.names().len())?;
    for (id, start) in &plan.starts {
        if let Some(test) = names.place(*id) {
            starts[test] = *start;
        }
    }
    Ok(starts)
}

/// The order of the tests at first: that in which the plan lists their starts, where it keeps the precedences, else that of
/// the starts.
fn first_order(
    alloc: Global,
    names: &LiveTests,
    job: &Job,
    plan: &Plan,
) -> Result<Vec<usize>, NoMemory>
    requires sound { IsSoundJob (job_value job.now) }
    requires names { length names.now ≡ length (job_value job.now).tests }
    ensures long { IfOk result (λ order. length order.items ≡ length (job_value job.now).tests) }
    ensures tests { IfOk result
        (λ order. All (λ test. test < length (job_value job.now).tests) order.items) }
{
    let listed = listed_places(alloc, names, plan)?;
    if keeps(&job.before, &listed) {
        return sorted_by(alloc, &listed);
    }
    let starts = planned_starts(alloc, names, plan)?;
    sorted_by(alloc, &starts)
}

/// The first slot for each of `modules` modules.
fn first_slots(alloc: Global, modules: usize) -> Result<Vec<usize>, NoMemory>
    ensures { IfOk result (λ v. v.items ≡ replicate modules 0) }
{
    Ok(vec![in alloc; 0; modules]?)
}

/// Puts a module on the bus of a slot. Where the slot has no wires yet, it takes `width` of those that are left, or all of them
/// where they are fewer. Answers how many are left then.
fn put_on_bus(buses: &mut Buses, module: usize, slot: usize, width: u64, left: u64) -> u64
    requires there { «module» < length buses.old.slots.items }
    requires slot { slot < length buses.old.widths.items }
    requires within { All (λ k. k < length buses.old.widths.items) buses.old.slots.items }
    requires wires { sum_by (λ (w : ℕ). w) buses.old.widths.items + left
        ≡ length buses.old.widths.items }
    ensures within { All (λ k. k < length buses.new.widths.items) buses.new.slots.items }
    ensures wires { sum_by (λ (w : ℕ). w) buses.new.widths.items + result
        ≡ length buses.new.widths.items }
    ensures alike { AreAlike buses.old buses.new }
    ensures loads { buses.new.loads ≡ buses.old.loads }
{
    buses.slots[module] = slot;
    let own = buses.widths[slot];
    if own > 0 {
        return left;
    }
    let taken = width.min(left);
    buses.widths[slot] = taken;
    left - taken
}

/// Gives the wires that are left to the first module's bus.
fn give_rest(buses: &mut Buses, left: u64)
    requires within { All (λ k. k < length buses.old.widths.items) buses.old.slots.items }
    requires wires { sum_by (λ (w : ℕ). w) buses.old.widths.items + left
        ≡ length buses.old.widths.items }
    requires loads { length buses.old.loads.items ≡ length buses.old.widths.items }
    ensures buses { AreBuses buses.new }
    ensures alike { AreAlike buses.old buses.new }
{
    if buses.slots.is_empty() {
        return;
    }
    let first = buses.slots[0];
    buses.widths[first] += left;
}

/// The bus of a test in a plan, by the slot that it takes, with its wires.
fn bus_of(job: &Job, plan: &Plan, test: usize, slots: usize) -> Option<(usize, u64)>
    requires { test < length (job_value job.now).tests }
    ensures { IfSome result (λ r. r.0 < slots) }
{
    let bus = job.tests[test].bus?;
    if bus >= slots || bus >= plan.buses.len() {
        return None;
    }
    Some((bus, plan.buses[bus].width))
}

/// Settles the module of a test, where it has one and the plan a bus for it. Answers how many wires are left then.
fn settle_test(
    buses: &mut Buses,
    problem: &TimedTests,
    job: &Job,
    plan: &Plan,
    test: usize,
    left: u64,
) -> u64
    requires problem { IsProblem (job_value job.now) problem.now }
    requires test { test < length problem.now.tests.items }
    requires first { AreFirstBuses problem.now buses.old left }
    ensures { AreFirstBuses problem.now buses.new result }
{
    let Some(module) = problem.tests[test].module else {
        return left;
    };
    let Some((slot, width)) = bus_of(job, plan, test, problem.wires) else {
        return left;
    };
    put_on_bus(buses, module, slot, width, left)
}

/// The buses at first: those of the plan with modules that have tests over the wires. Wires of no such bus go to the bus of
/// the first module.
fn first_buses(
    alloc: Global,
    problem: &TimedTests,
    job: &Job,
    plan: &Plan,
) -> Result<Buses, NoMemory>
    requires { IsProblem (job_value job.now) problem.now }
    ensures buses { IfOk result AreBuses }
    ensures wires { IfOk result (λ b. length b.widths.items ≡ problem.now.wires) }
    ensures modules { IfOk result (λ b. length b.slots.items ≡ length problem.now.modules.items) }
{
    let widths = zeros(alloc, problem.wires)?;
    let slots = first_slots(alloc, problem.modules.len())?;
    let loads = zeros(alloc, problem.wires)?;
    let mut buses = Buses {
        widths,
        slots,
        loads,
    };
    let mut left = problem.wires as u64;
    for test in 0..problem.tests.len() {
        left = settle_test(&mut buses, problem, job, plan, test, left);
    }
    give_rest(&mut buses, left);
    Ok(buses)
}

/// The first state: the buses of a plan and the order of its tests, each found by its name. `NoMemory` where memory runs out.
pub(crate) fn first_state(
    alloc: Global,
    names: &LiveTests,
    problem: &TimedTests,
    job: &Job,
    plan: &Plan,
) -> Result<State, NoMemory>
    requires sound { IsSoundJob (job_value job.now) }
    requires problem { IsProblem (job_value job.now) problem.now }
    requires names { length names.now ≡ length (job_value job.now).tests }
    ensures { IfOk result (IsStateOf problem.now) }
{
    let buses = first_buses(alloc, problem, job, plan)?;
    let order = first_order(alloc, names, job, plan)?;
    Ok(State {
        buses,
        order,
        cycles: u64::MAX,
        late: None,
    })
}
