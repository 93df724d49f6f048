//! The starts of the list schedule of an order, and the cycles that it takes.
ghost use Rattle.std.specs.Prelude.{◌≡◌, ◌^◌, ◌≤◌, [], length, take, vec_capacity};
ghost use Rattle.resource_table.specs.Jobs.{job_value};
ghost use Rattle.schedule_search.specs.Orders.{IsTopological};
ghost use Rattle.schedule_search.specs.OrderCycles.{Takes, HasPlaced};
ghost use Rattle.schedule_search.specs.Noted.{HasNoted, AreStarts};

use crate::order::cycles_at;
use crate::placing::place_next;
use resource_table::{Job, TableOf, list_schedules_are_short};

/// Places the tests of an order after the first, which ends at `first_end`, and notes their starts. Answers where the test ends that
/// ends last.
fn note_rest<J>(
    job: &Job,
    table: &mut TableOf<J>,
    order: &[usize],
    starts: &mut Vec<u64>,
    first_end: u64,
) -> u64
    requires job { table.old.job ≡ job_value job.now }
    requires topological { IsTopological (job_value job.now) order.now }
    requires some { 1 ≤ length order.now }
    requires first { HasNoted table.old (take 1 order.now) starts.old.items }
    requires placed { HasPlaced table.old (take 1 order.now) first_end }
    requires small { first_end ≤ 10 ^ 18 }
    requires room { length order.now ≤ vec_capacity starts.old }
    ensures all { HasNoted table.new order.now starts.new.items }
    ensures ends { HasPlaced table.new order.now result }
    ensures job { table.new.job ≡ table.old.job }
    ensures room { vec_capacity starts.new ≡ vec_capacity starts.old }
{
    let mut last_end: u64 = first_end;
    for place in 1..order.len() {
        let test = order[place];
        let start = place_next(table, test);
        starts.push_reserved(start);
        last_end = last_end.max(start + cycles_at(job, test));
    }
    last_end
}

/// Lists the starts of the list schedule of an order, and answers the cycles that it takes. It is made in the empty table, and taken
/// back.
pub(crate) fn list_starts<J>(
    job: &Job,
    table: &mut TableOf<J>,
    order: &[usize],
    starts: &mut Vec<u64>,
) -> u64
    requires job { table.old.job ≡ job_value job.now }
    requires empty { table.old.placed ≡ [] }
    requires topological { IsTopological (job_value job.now) order.now }
    requires room { length order.now ≤ vec_capacity starts.old }
    ensures starts { AreStarts (job_value job.now) order.now starts.new.items }
    ensures takes { Takes (job_value job.now) order.now result }
    ensures table { table.new ≡ table.old }
    ensures room { vec_capacity starts.new ≡ vec_capacity starts.old }
{
    starts.clear();
    if order.is_empty() {
        return 0;
    }
    list_schedules_are_short();
    let test = order[0];
    let start = table.earliest(test);
    starts.push_reserved(start);
    let first_end = start + cycles_at(job, test);
    let mut frame = table.place(test, start);
    let cycles = note_rest(job, frame.table(), order, starts, first_end);
    frame.undo();
    cycles
}
