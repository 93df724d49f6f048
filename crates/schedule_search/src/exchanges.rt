//! Exchanges of neighbours in an order, as long as one gives fewer cycles. No memory is taken.
ghost use Rattle.std.specs.Prelude.{◌≡◌, ℕ, ◌+◌, ◌^◌, ◌<◌, ◌≤◌, [], true, false, length, take, IfSome, IfNone};
ghost use Rattle.std.specs.List.{Contains};
ghost use Rattle.resource_table.specs.Jobs.{job_value};
ghost use Rattle.schedule_search.specs.Orders.{IsTopological};
ghost use Rattle.schedule_search.specs.OrderCycles.{Takes, HasPlaced};
ghost use Rattle.schedule_search.specs.Exchanges.{exchanged, NoGainAt, NoExchangeHelps, TakesFewer};

use crate::order::cycles_at;
use crate::placing::fewer_cycles;
use resource_table::{Job, TableOf, list_schedules_are_short};

/// Whether one of these precedences goes from a test to another.
fn is_listed(before: &[(usize, usize)], earlier: usize, later: usize) -> bool
    ensures listed { result ≡ true → Contains before.now (earlier, later) }
    ensures not_listed { result ≡ false → Contains before.now (earlier, later) → ⊥ }
{
    for (first, second) in before {
        if *first == earlier && *second == later {
            return true;
        }
    }
    false
}

/// Whether the order stays topological as the tests at a place and at the next one are exchanged: it does exactly where
/// the first of the two doesn't precede the second.
fn may_exchange(job: &Job, order: &[usize], place: usize) -> bool
    requires within { place + 1 < length order.now }
    requires topological { IsTopological (job_value job.now) order.now }
    ensures may { result ≡ true → IsTopological (job_value job.now) (exchanged order.now place) }
    ensures may_not { result ≡ false →
        IsTopological (job_value job.now) (exchanged order.now place) → ⊥ }
{
    !is_listed(&job.before, order[place], order[place + 1])
}

/// Exchanges the tests at a place and at the next one where that gives fewer cycles, and answers these. Else the order
/// stays as it is. The tests before that place are placed, and end last at `end`.
fn exchange_at<J>(
    job: &Job,
    table: &mut TableOf<J>,
    order: &mut [usize],
    place: usize,
    end: u64,
    cycles: u64,
) -> Option<u64>
    requires within { place + 1 < length order.old }
    requires job { table.old.job ≡ job_value job.now }
    requires front { HasPlaced table.old (take place order.old) end }
    requires small { end ≤ 10 ^ 18 }
    requires topological { IsTopological (job_value job.now) order.old }
    ensures fewer { IfSome result
        (TakesFewer (job_value job.now) (length order.old) cycles order.new) }
    ensures stays { IfNone result (order.new ≡ order.old) }
    ensures no_gain { IfNone result (NoGainAt (job_value job.now) order.old place cycles) }
    ensures table { table.new ≡ table.old }
{
    if !may_exchange(job, order, place) {
        return None;
    }
    order.swap(place, place + 1);
    if let Some(fewer) = fewer_cycles(job, table, order, place, end, cycles) {
        return Some(fewer);
    }
    order.swap(place, place + 1);
    None
}

/// Makes the first exchange of neighbours from a place on that gives fewer cycles, and answers these; where there is none,
/// the order stays as it is. The tests before that place are placed, and end last at `end`.
fn exchange_from<J>(
    job: &Job,
    table: &mut TableOf<J>,
    order: &mut [usize],
    place: usize,
    end: u64,
    cycles: u64,
) -> Option<u64>
    requires within { place < length order.old }
    requires job { table.old.job ≡ job_value job.now }
    requires front { HasPlaced table.old (take place order.old) end }
    requires small { end ≤ 10 ^ 18 }
    requires topological { IsTopological (job_value job.now) order.old }
    ensures fewer { IfSome result
        (TakesFewer (job_value job.now) (length order.old) cycles order.new) }
    ensures stays { IfNone result (order.new ≡ order.old) }
    ensures none_helps { IfNone result ((later : ℕ) → place ≤ later → later + 1 < length order.old →
        NoGainAt (job_value job.now) order.old later cycles) }
    ensures table { table.new ≡ table.old }
{
    if place + 1 == order.len() {
        return None;
    }
    if let Some(fewer) = exchange_at(job, table, order, place, end, cycles) {
        return Some(fewer);
    }
    list_schedules_are_short();
    let test = order[place];
    let start = table.earliest(test);
    let mut frame = table.place(test, start);
    let next_end = end.max(start + cycles_at(job, test));
    let fewer = exchange_from(job, frame.table(), order, place + 1, next_end, cycles);
    frame.undo();
    fewer
}

/// Makes the first exchange of neighbours that gives fewer cycles, and answers these; where there is none, the order stays
/// as it is.
fn exchange_first<J>(
    job: &Job,
    table: &mut TableOf<J>,
    order: &mut [usize],
    cycles: u64,
) -> Option<u64>
    requires job { table.old.job ≡ job_value job.now }
    requires empty { table.old.placed ≡ [] }
    requires topological { IsTopological (job_value job.now) order.old }
    ensures fewer { IfSome result
        (TakesFewer (job_value job.now) (length order.old) cycles order.new) }
    ensures stays { IfNone result (order.new ≡ order.old) }
    ensures none_helps { IfNone result (NoExchangeHelps (job_value job.now) order.old cycles) }
    ensures table { table.new ≡ table.old }
{
    if order.is_empty() {
        return None;
    }
    exchange_from(job, table, order, 0, 0, cycles)
}

/// Exchanges neighbours in a topological order that takes `cycles` cycles: the first exchange that gives fewer is made,
/// again and again, until none does. Answers the cycles that the order takes then.
pub(crate) fn improve_order<J>(
    job: &Job,
    table: &mut TableOf<J>,
    order: &mut [usize],
    cycles: u64,
) -> u64
    requires job { table.old.job ≡ job_value job.now }
    requires empty { table.old.placed ≡ [] }
    requires topological { IsTopological (job_value job.now) order.old }
    requires takes { Takes (job_value job.now) order.old cycles }
    ensures topological { IsTopological (job_value job.now) order.new }
    ensures takes { Takes (job_value job.now) order.new result }
    ensures most { result ≤ cycles }
    ensures none_helps { NoExchangeHelps (job_value job.now) order.new result }
    ensures unchanged { result ≡ cycles → order.new ≡ order.old }
    ensures long { length order.new ≡ length order.old }
    ensures table { table.new ≡ table.old }
{
    let mut best = cycles;
    'exchanges: loop {
        match exchange_first(job, table, order, best) {
            Some(fewer) => best = fewer,
            None => return best,
        }
    }
}
