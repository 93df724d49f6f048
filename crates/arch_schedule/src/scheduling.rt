//! The schedule of buses and an order: the tests are placed in that order, each at the least start at which it fits.
ghost use Rattle.std.specs.Prelude.{◌≡◌, ℕ, ◌+◌, ◌^◌, ◌<◌, ◌≤◌, ◌++◌, ◌∷◌, [], true, false, length, map, slice_set, IfSome};
ghost use Rattle.std.specs.List.{All};
ghost use Rattle.plan_model.specs.declared.TheConstants.{START_MOST};
ghost use Rattle.resource_table.specs.Jobs.{Precedes, cycles_of};
ghost use Rattle.resource_table.specs.Befores.{listed, AreListed};
ghost use Rattle.resource_table.specs.Schedules.{at_start, is_placed as is_placed_in, MayPlace, IsListSchedule, IsSoundTable};
ghost use Rattle.arch_schedule.specs.Buses.{AreBuses};
ghost use Rattle.arch_schedule.specs.Problems.{IsTimed, IsProblem};
ghost use Rattle.arch_schedule.specs.Rooms.{HasRoom, HasRoomFor, AreShort, AreCyclesOf};

use crate::buses::Buses;
use crate::problem::{TestTimes, TimedTests};
use crate::room::ScheduleRoom;
use live_tests::Neighbours;
use plan_model::START_MOST;
use resource_table::{OwnTable, TableOf, earlier_than, list_schedules_are_short};

/// The slot of a test's bus; None for a self test.
fn slot_for(test: &TestTimes, buses: &Buses) -> Option<usize>
    requires buses { AreBuses buses.now }
    requires timed { IsTimed (length buses.now.widths.items) (length buses.now.slots.items)
        test.now }
    ensures { IfSome result (λ slot. slot < length buses.now.widths.items) }
{
    let module = test.module?;
    Some(buses.slot_of(module))
}

/// The cycles of a test over the bus of a slot; of a self test those that it always takes.
fn cycles_over(test: &TestTimes, buses: &Buses, slot: Option<usize>) -> u64
    requires buses { AreBuses buses.now }
    requires timed { IsTimed (length buses.now.widths.items) (length buses.now.slots.items)
        test.now }
    requires slot { IfSome slot (λ k. k < length buses.now.widths.items) }
{
    let Some(slot) = slot else {
        return test.cycles[0];
    };
    test.cycles[buses.width_of(slot) as usize]
}

/// Notes that a test goes over the bus of a slot and takes `cycles` cycles.
fn assign_bus(room: &mut ScheduleRoom, test: usize, slot: Option<usize>, cycles: u64)
    requires test { test < length room.old.slots.items }
    requires cycles { test < length room.old.cycles.items }
    requires slot { IfSome slot (λ k. k < 256) }
    ensures room { (tests : ℕ) → HasRoom tests room.old → HasRoom tests room.new }
    ensures cycles { room.new.cycles.items ≡ slice_set room.old.cycles.items test cycles }
{
    room.slots[test] = slot;
    room.cycles[test] = cycles;
}

/// Sends each test over its bus. False where a test can't be tested so, or where the tests take more cycles together than a plan
/// may have.
pub fn assign_buses(problem: &TimedTests, buses: &Buses, room: &mut ScheduleRoom) -> bool
    requires buses { AreBuses buses.now }
    requires wires { length buses.now.widths.items ≡ problem.now.wires }
    requires few_wires { problem.now.wires ≤ 256 }
    requires timed { All (IsTimed (length buses.now.widths.items) (length buses.now.slots.items))
        problem.now.tests.items }
    requires room { HasRoomFor problem.now room.old }
    ensures room { HasRoomFor problem.now room.new }
    ensures short { result ≡ true → AreShort room.new.cycles.items }
{
    let mut left = START_MOST;
    for test in 0..problem.tests.len() {
        let slot = slot_for(&problem.tests[test], buses);
        let cycles = cycles_over(&problem.tests[test], buses, slot);
        if cycles == 0 {
            return false;
        }
        if cycles > left {
            return false;
        }
        assign_bus(room, test, slot, cycles);
        left -= cycles;
    }
    true
}

/// Empties the table for the tests as they were sent.
fn restart_table<J>(problem: &TimedTests, table: &mut OwnTable<J>, room: &ScheduleRoom)
    requires problem { IsProblem table.old.job problem.now }
    requires sound { IsSoundTable table.old }
    requires room { HasRoomFor problem.now room.now }
    requires short { AreShort room.now.cycles.items }
    ensures problem { IsProblem table.new.job problem.now }
    ensures cycles { AreCyclesOf table.new.job room.now.cycles.items }
    ensures sound { IsSoundTable table.new }
    ensures empty { table.new.placed ≡ [] }
{
    let _wires = problem.wires;
    table.restart(&room.slots, &room.cycles);
}

/// Whether all tests of a list are placed.
fn all_placed<J>(table: &TableOf<J>, tests: &[usize]) -> bool
    requires { All (λ test. test < length table.now.job.tests) tests.now }
    ensures { result ≡ true → All (λ test. is_placed_in table.now.placed test ≡ true) tests.now }
{
    for test in tests {
        if !table.is_placed(*test) {
            return false;
        }
    }
    true
}

/// Whether a test may be placed: it isn't yet, and all that precede it are.
fn is_next<J>(table: &TableOf<J>, before: &[Neighbours], test: usize) -> bool
    requires in_job { test < length table.now.job.tests }
    requires before { AreListed table.now.job (map listed before.now) }
    ensures new { result ≡ true → is_placed_in table.now.placed test ≡ false }
    ensures ready { result ≡ true → (earlier : ℕ) → Precedes table.now.job earlier test →
        is_placed_in table.now.placed earlier ≡ true }
{
    if table.is_placed(test) {
        return false;
    }
    all_placed(table, earlier_than(before, test))
}

/// Places a test at a start, where it fits.
fn place_at<J>(table: &mut TableOf<J>, test: usize, start: u64)
    requires { MayPlace table.old.job table.old.placed test start }
    ensures table { table.new
        ≡ record table.old { placed = table.old.placed ++ at_start test start ∷ [] } }
    ensures sound { IsSoundTable table.new }
{
    table.place(test, start).keep();
}

/// Places a test at the least start at which it fits, and answers that start; None where it comes before a test that
/// precedes it, or if the chain of precedences that it begins would end after `most` cycles.
fn place_next<J>(
    table: &mut TableOf<J>,
    before: &[Neighbours],
    test: usize,
    cycles: u64,
    chain: u64,
    most: u64,
) -> Option<u64>
    requires in_job { test < length table.old.job.tests }
    requires before { AreListed table.old.job (map listed before.now) }
    requires list { IsListSchedule table.old.job table.old.placed }
    requires sound { IsSoundTable table.old }
    requires cycles { cycles ≡ cycles_of table.old.job test }
    ensures job { table.new.job ≡ table.old.job }
    ensures list { IsListSchedule table.new.job table.new.placed }
    ensures sound { IsSoundTable table.new }
    ensures ends { IfSome result (λ start. start + cycles ≤ 10 ^ 18) }
{
    if !is_next(table, before, test) {
        return None;
    }
    list_schedules_are_short();
    let start = table.earliest(test);
    if start.saturating_add(chain) > most {
        return None;
    }
    place_at(table, test, start);
    Some(start)
}

/// Places the tests of an order, each at the least start at which it fits, and answers where the last one ends. Else the place in
/// the order of the first one that comes before a test that precedes it, or with which a chain of precedences begins that ends after
/// `most` cycles.
fn place_all<J>(
    table: &mut TableOf<J>,
    before: &[Neighbours],
    order: &[usize],
    room: &mut ScheduleRoom,
    most: u64,
) -> Result<u64, usize>
    requires order { All (λ test. test < length table.old.job.tests) order.now }
    requires before { AreListed table.old.job (map listed before.now) }
    requires list { IsListSchedule table.old.job table.old.placed }
    requires sound { IsSoundTable table.old }
    requires cycles { AreCyclesOf table.old.job room.old.cycles.items }
    requires room { HasRoom (length table.old.job.tests) room.old }
    ensures job { table.new.job ≡ table.old.job }
    ensures sound { IsSoundTable table.new }
    ensures room { HasRoom (length table.old.job.tests) room.new }
    ensures cycles { room.new.cycles ≡ room.old.cycles }
{
    let mut end: u64 = 0;
    for place in 0..order.len() {
        let test = order[place];
        let cycles = room.cycles[test];
        let chain = room.chains[test];
        let Some(start) = place_next(table, before, test, cycles, chain, most) else {
            return Err(place);
        };
        room.starts[test] = start;
        end = end.max(start + cycles);
    }
    Ok(end)
}

/// The slot of the late bus: that of the first test over the wires that ends at a cycle. None where there is no such test.
pub fn late_bus(problem: &TimedTests, room: &ScheduleRoom, end: u64) -> Option<usize>
    requires { HasRoomFor problem.now room.now }
{
    for test in 0..problem.tests.len() {
        if room.slots[test].is_some()
            && room.starts[test].saturating_add(room.cycles[test]) == end
        {
            return room.slots[test];
        }
    }
    None
}

/// Places the tests of an order in the emptied table.
pub fn place_order<J>(
    problem: &TimedTests,
    table: &mut OwnTable<J>,
    order: &[usize],
    room: &mut ScheduleRoom,
    most: u64,
) -> Result<u64, usize>
    requires problem { IsProblem table.old.job problem.now }
    requires sound { IsSoundTable table.old }
    requires order { All (λ test. test < length problem.now.tests.items) order.now }
    requires room { HasRoomFor problem.now room.old }
    requires short { AreShort room.old.cycles.items }
    ensures problem { IsProblem table.new.job problem.now }
    ensures sound { IsSoundTable table.new }
    ensures room { HasRoomFor problem.now room.new }
    ensures cycles { room.new.cycles ≡ room.old.cycles }
{
    restart_table(problem, table, room);
    list_schedules_are_short();
    place_all(table.lend(), &problem.before, order, room, most)
}
