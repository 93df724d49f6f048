//! The list schedule of an order: its tests are placed one by one, each at the least start at which it fits.
ghost use Rattle.std.specs.Prelude.{◌≡◌, ℕ, ◌+◌, ◌^◌, ◌<◌, ◌≤◌, ◌++◌, ◌∷◌, [], List, true, false, length, take, IfSome, IfNone};
ghost use Rattle.resource_table.specs.declared.Placement.{Placement};
ghost use Rattle.resource_table.specs.Jobs.{job_value, cycles_of, Precedes};
ghost use Rattle.resource_table.specs.Schedules.{at_start, is_placed, IsEarliest, IsListSchedule};
ghost use Rattle.schedule_search.specs.Orders.{IsTopological};
ghost use Rattle.schedule_search.specs.OrderCycles.{Takes, HasPlaced};

use crate::order::cycles_at;
use resource_table::{Job, TableOf, list_schedules_are_short};

/// Places one more test at the least start at which it fits, and answers that start.
pub(crate) fn place_next<J>(table: &mut TableOf<J>, test: usize) -> u64
    requires in_job { test < length table.old.job.tests }
    requires new { is_placed table.old.placed test ≡ false }
    requires ready { (earlier : ℕ) → Precedes table.old.job earlier test →
        is_placed table.old.placed earlier ≡ true }
    requires list { IsListSchedule table.old.job table.old.placed }
    ensures earliest { IsEarliest table.old.job table.old.placed test result }
    ensures ends { result + cycles_of table.old.job test ≤ 10 ^ 18 }
    ensures table { table.new
        ≡ record table.old { placed = table.old.placed ++ at_start test result ∷ [] } }
{
    list_schedules_are_short();
    let start = table.earliest(test);
    table.place(test, start).keep();
    start
}

/// Places the tests of an order from a place on, as long as the test that ends last ends before `most`, and answers
/// where that ends. The tests before that place are placed.
fn place_rest<J>(
    job: &Job,
    table: &mut TableOf<J>,
    order: &[usize],
    placed: usize,
    first_end: u64,
    most: u64,
) -> u64
    requires job { table.old.job ≡ job_value job.now }
    requires topological { IsTopological (job_value job.now) order.now }
    requires some { placed ≤ length order.now }
    requires first { HasPlaced table.old (take placed order.now) first_end }
    requires small { first_end ≤ 10 ^ 18 }
    ensures all { result < most → HasPlaced table.new order.now result }
    ensures late { most ≤ result → (cycles : ℕ) → Takes (job_value job.now) order.now cycles →
        most ≤ cycles }
    ensures small { result ≤ 10 ^ 18 }
    ensures front { (rest : List Placement) × (table.new.placed ≡ table.old.placed ++ rest) }
    ensures job { table.new.job ≡ table.old.job }
{
    let mut last_end: u64 = first_end;
    for place in placed..order.len() {
        if last_end >= most {
            return last_end;
        }
        let test = order[place];
        let start = place_next(table, test);
        last_end = last_end.max(start + cycles_at(job, test));
    }
    last_end
}

/// The cycles that the list schedule of an order takes, where these are fewer than `most`. The tests before a place are
/// placed, and end last at `end`; the others are placed as long as the last end is less, and taken back.
pub(crate) fn fewer_cycles<J>(
    job: &Job,
    table: &mut TableOf<J>,
    order: &[usize],
    place: usize,
    end: u64,
    most: u64,
) -> Option<u64>
    requires job { table.old.job ≡ job_value job.now }
    requires topological { IsTopological (job_value job.now) order.now }
    requires within { place < length order.now }
    requires front { HasPlaced table.old (take place order.now) end }
    requires small { end ≤ 10 ^ 18 }
    ensures takes { IfSome result (λ cycles. Takes (job_value job.now) order.now cycles) }
    ensures fewer { IfSome result (λ cycles. cycles < most) }
    ensures none { IfNone result
        ((cycles : ℕ) → Takes (job_value job.now) order.now cycles → most ≤ cycles) }
    ensures table { table.new ≡ table.old }
{
    list_schedules_are_short();
    let test = order[place];
    let start = table.earliest(test);
    let mut frame = table.place(test, start);
    let next_end = end.max(start + cycles_at(job, test));
    let cycles = place_rest(job, frame.table(), order, place + 1, next_end, most);
    frame.undo();
    if cycles < most { Some(cycles) } else { None }
}
