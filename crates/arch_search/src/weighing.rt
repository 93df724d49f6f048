//! What a state of the search costs: the cycles that its tests take.
ghost use Rattle.std.specs.Prelude.{◌≡◌, ◌<◌, length};
ghost use Rattle.std.specs.List.{All};
ghost use Rattle.resource_table.specs.Schedules.{IsSoundTable};
ghost use Rattle.arch_schedule.specs.Buses.{AreBuses};
ghost use Rattle.arch_schedule.specs.Problems.{IsProblem};
ghost use Rattle.arch_search.specs.States.{IsStateOf};
ghost use Rattle.arch_schedule.specs.Rooms.{HasRoomFor, AreShort};
ghost use Rattle.arch_search.specs.Settings.{IsSetting};

use crate::order::advance_drawn;
use crate::setting::SearchSetting;
use crate::state::State;
use arch_schedule::{
    Buses, Draws, ScheduleRoom, TimedTests, assign_buses, draw_too_much, late_bus, place_order,
    set_chains,
};
use plan_model::START_MOST;
use resource_table::OwnTable;
use std::mem;

/// How often a test that is refused is tried at an earlier place.
const EARLIER: usize = 2;

/// When a schedule ends.
#[derive(Clone, Copy, Drop)]
pub(crate) struct Ends {
    /// The end of the test that ends last.
    pub(crate) cycles: u64,
    /// The slot of the late bus.
    pub(crate) late: Option<usize>,
}

/// The cycles that all tests take together, where nothing but the wires binds.
fn all_cycles(setting: &SearchSetting<'_>, buses: &Buses) -> u64 {
    let mut sum = setting.longest_self_test;
    for load in &buses.loads {
        sum = sum.saturating_add(*load);
    }
    sum
}

/// When the tests end, where nothing but the wires binds: with the fullest bus, or the longest self test. None where that is after
/// `most` cycles.
fn load_ends(setting: &SearchSetting<'_>, buses: &Buses, most: u64) -> Option<Ends>
    requires { AreBuses buses.now }
{
    let late = buses.fullest();
    let load = match late {
        Some(slot) => buses.loads[slot],
        None => 0,
    };
    let cycles = load.max(setting.longest_self_test);
    if cycles > most || all_cycles(setting, buses) > START_MOST {
        return None;
    }
    Some(Ends { cycles, late })
}

/// Whether the tests, as they were sent, could end within `most` cycles, by their chains of precedences and by their power.
fn could_end(
    setting: &SearchSetting<'_>,
    order: &[usize],
    room: &mut ScheduleRoom,
    most: u64,
) -> bool
    requires setting { IsSetting setting.now }
    requires order { All (λ test. test < length setting.now.problem.now.tests.items) order.now }
    requires room { HasRoomFor setting.now.problem.now room.old }
    ensures room { HasRoomFor setting.now.problem.now room.new }
    ensures cycles { room.new.cycles ≡ room.old.cycles }
{
    let longest = set_chains(
        &setting.problem.before,
        order,
        &room.cycles,
        &mut room.chains,
    );
    if longest > most {
        return false;
    }
    match setting.job.power {
        Some(limit) => !draw_too_much(setting.job, &room.cycles, limit, most),
        None => true,
    }
}

/// Places the tests by their chains of precedences, the longest first. Where they end within `most` cycles, that is the order of
/// the state from then on.
fn place_by_chains<J>(
    problem: &TimedTests,
    table: &mut OwnTable<J>,
    state: &mut State,
    room: &mut ScheduleRoom,
    most: u64,
) -> Option<u64>
    requires problem { IsProblem table.old.job problem.now }
    requires sound { IsSoundTable table.old }
    requires state { IsStateOf problem.now state.old }
    requires room { HasRoomFor problem.now room.old }
    requires short { AreShort room.old.cycles.items }
    ensures problem { IsProblem table.new.job problem.now }
    ensures sound { IsSoundTable table.new }
    ensures state { IsStateOf problem.now state.new }
    ensures room { HasRoomFor problem.now room.new }
    ensures cycles { room.new.cycles ≡ room.old.cycles }
{
    room.order_by_chains();
    mem::swap(&mut state.order, &mut room.second);
    if let Ok(end) = place_order(problem, table, &state.order, room, most) {
        return Some(end);
    }
    mem::swap(&mut state.order, &mut room.second);
    None
}

/// Places the tests with the one at a place, which was refused, at an earlier one that is drawn; and once more so with the one that is
/// refused then.
fn place_earlier<J>(
    problem: &TimedTests,
    table: &mut OwnTable<J>,
    state: &mut State,
    room: &mut ScheduleRoom,
    most: u64,
    refused: usize,
    draws: &mut Draws,
) -> Option<u64>
    requires problem { IsProblem table.old.job problem.now }
    requires sound { IsSoundTable table.old }
    requires state { IsStateOf problem.now state.old }
    requires room { HasRoomFor problem.now room.old }
    requires short { AreShort room.old.cycles.items }
    ensures problem { IsProblem table.new.job problem.now }
    ensures sound { IsSoundTable table.new }
    ensures state { IsStateOf problem.now state.new }
    ensures room { HasRoomFor problem.now room.new }
{
    let mut place = refused;
    for _time in 0..EARLIER {
        if !advance_drawn(&problem.before, &mut state.order, place, draws) {
            return None;
        }
        match place_order(problem, table, &state.order, room, most) {
            Ok(end) => return Some(end),
            Err(again) => place = again,
        }
    }
    None
}

/// Places the tests in the order of a state. Where they don't end within `most` cycles, and `again` says so, places them by their
/// chains, and where they still don't, with the first one that was refused at an earlier place. The order that serves is that of the state
/// from then on.
fn place_somehow<J>(
    problem: &TimedTests,
    table: &mut OwnTable<J>,
    state: &mut State,
    room: &mut ScheduleRoom,
    most: u64,
    again: bool,
    draws: &mut Draws,
) -> Option<u64>
    requires problem { IsProblem table.old.job problem.now }
    requires sound { IsSoundTable table.old }
    requires state { IsStateOf problem.now state.old }
    requires room { HasRoomFor problem.now room.old }
    requires short { AreShort room.old.cycles.items }
    ensures problem { IsProblem table.new.job problem.now }
    ensures sound { IsSoundTable table.new }
    ensures state { IsStateOf problem.now state.new }
    ensures room { HasRoomFor problem.now room.new }
{
    let refused = match place_order(problem, table, &state.order, room, most) {
        Ok(end) => return Some(end),
        Err(place) => place,
    };
    if !again {
        return None;
    }
    if let Some(end) = place_by_chains(problem, table, state, room, most) {
        return Some(end);
    }
    place_earlier(problem, table, state, room, most, refused, draws)
}

/// When the tests of a state end; None where that is after `most` cycles. Where its order is refused, others are tried if `again` says so.
pub(crate) fn weigh_state<J>(
    setting: &SearchSetting<'_>,
    table: &mut OwnTable<J>,
    state: &mut State,
    room: &mut ScheduleRoom,
    most: u64,
    again: bool,
    draws: &mut Draws,
) -> Option<Ends>
    requires setting { IsSetting setting.now }
    requires problem { IsProblem table.old.job setting.now.problem.now }
    requires sound { IsSoundTable table.old }
    requires state { IsStateOf setting.now.problem.now state.old }
    requires room { HasRoomFor setting.now.problem.now room.old }
    ensures problem { IsProblem table.new.job setting.now.problem.now }
    ensures sound { IsSoundTable table.new }
    ensures state { IsStateOf setting.now.problem.now state.new }
    ensures room { HasRoomFor setting.now.problem.now room.new }
{
    if setting.wires_alone {
        return load_ends(setting, &state.buses, most);
    }
    if !assign_buses(setting.problem, &state.buses, room) {
        return None;
    }
    if !could_end(setting, &state.order, room, most) {
        return None;
    }
    let cycles = place_somehow(setting.problem, table, state, room, most, again, draws)?;
    let late = late_bus(setting.problem, room, cycles);
    Some(Ends { cycles, late })
}

/// Makes the schedule of a state.
pub(crate) fn schedule_state<J>(
    problem: &TimedTests,
    table: &mut OwnTable<J>,
    state: &State,
    room: &mut ScheduleRoom,
)
    requires problem { IsProblem table.old.job problem.now }
    requires sound { IsSoundTable table.old }
    requires state { IsStateOf problem.now state.now }
    requires room { HasRoomFor problem.now room.old }
    ensures problem { IsProblem table.new.job problem.now }
    ensures sound { IsSoundTable table.new }
    ensures room { HasRoomFor problem.now room.new }
{
    if !assign_buses(problem, &state.buses, room) {
        return;
    }
    let _ends = place_order(problem, table, &state.order, room, u64::MAX);
}
