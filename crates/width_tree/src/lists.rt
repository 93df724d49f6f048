//! Modules of which no two have buses beside each other, so that all are on one bus.
ghost use Rattle.std.specs.Prelude.{◌≡◌, ℕ, ◌+◌, ◌^◌, ◌<◌, ◌≤◌, Some, IfSome, IfNone, is_some, length, nat_lt, slice_get, take, MatchOption};
ghost use Rattle.std.specs.List.{sum_by};
ghost use Rattle.soc_model.specs.Lookups.{module_place};
ghost use Rattle.plan_model.specs.Certificates.{passes, has_tam_at};
ghost use Rattle.plan_model.specs.Rules.{Each};
ghost use Rattle.width_tree.specs.Cases.{IsBusItem, tam_time_of, least_high};
ghost use Rattle.width_tree.specs.Tables.{chip_of, IsTable};
ghost use Rattle.width_tree.specs.Findings.{AreIntervals, IsBusSoFar, AreOlder};

use crate::intervals::Interval;
use crate::tables::{ChipTimes, tam_time};
use soc_model::{has_tam_test, module_at, place_of};

/// The least of the low widths and the least of the high widths of modules.
#[derive(Clone, Copy)]
pub struct Least {
    pub low: u64,
    pub high: u64,
}

/// The place of a module that has a live test over the wires. None comes exactly where the chip has no such module of
/// this number.
pub fn tam_place(table: &ChipTimes<'_>, number: u64) -> Option<usize>
    requires { IsTable table.now }
    ensures some { IfSome result (λ place. (module_place (chip_of table.now) number ≡ Some place)
        × (place < length (chip_of table.now).modules)) }
    ensures exact { is_some result
        ≡ passes (has_tam_at (chip_of table.now)) (module_place (chip_of table.now) number) }
{
    match place_of(table.soc, number) {
        None => None,
        Some(place) => {
            if has_tam_test(module_at(table.soc, place)) {
                Some(place)
            } else {
                None
            }
        }
    }
}

/// Whether two buses of at least these widths need more than all wires.
pub fn are_too_wide(wires: u64, a: u64, b: u64) -> bool
    requires { a + b < 2 ^ 64 }
    ensures { result ≡ nat_lt wires (a + b) }
{
    a + b > wires
}

/// The least widths after one more module of a list. The modules before it are stamped, and `least` is of them, so that one
/// comparison does for all. None comes exactly where the module breaks the rule of the list.
fn take_module(
    table: &ChipTimes<'_>,
    intervals: &[Interval],
    modules: &[u64],
    place: usize,
    stamp: usize,
    marks: &mut [usize],
    least: Least,
) -> Option<Least>
    requires table { IsTable table.now }
    requires intervals { AreIntervals table.now.wires (length (chip_of table.now).modules)
        intervals.now }
    requires place { place < length modules.now }
    requires room { length marks.old ≡ length (chip_of table.now).modules }
    requires low { least.low ≤ table.now.wires + 1 }
    requires so_far { IsBusSoFar (chip_of table.now) table.now.wires intervals.now
        (take place modules.now) marks.old stamp least }
    ensures kept { IfSome result (λ next. (m : ℕ) → slice_get modules.now place ≡ Some m →
        IsBusItem (chip_of table.now) table.now.wires intervals.now (take place modules.now) m
        × IsBusSoFar (chip_of table.now) table.now.wires intervals.now
        (take (place + 1) modules.now) marks.new stamp next) }
    ensures low { IfSome result (λ next. next.low ≤ table.now.wires + 1) }
    ensures some { IfSome result (λ next. 1 ≤ least.high → 1 ≤ next.high) }
    ensures few { IfSome result (λ next. next.high ≤ least.high) }
    ensures breach { IfNone result ((m : ℕ) → slice_get modules.now place ≡ Some m →
        IsBusItem (chip_of table.now) table.now.wires intervals.now (take place modules.now) m →
        ⊥) }
    ensures older { AreOlder (stamp + 1) marks.old → AreOlder (stamp + 1) marks.new }
{
    match tam_place(table, modules[place]) {
        None => None,
        Some(at) => {
            let interval = intervals[at];
            if marks[at] == stamp {
                return None;
            }
            if !are_too_wide(table.wires, least.low, interval.low) {
                return None;
            }
            marks[at] = stamp;
            Some(Least {
                low: least.low.min(interval.low),
                high: least.high.min(interval.high),
            })
        }
    }
}

/// The least widths of the modules of a list that all need one bus; of no module the low one is one more than all wires, and
/// the high one all wires. None comes exactly where a module breaks the rule of the list.
pub fn least_widths(
    table: &ChipTimes<'_>,
    intervals: &[Interval],
    modules: &[u64],
    stamp: usize,
    marks: &mut [usize],
) -> Option<Least>
    requires table { IsTable table.now }
    requires intervals { AreIntervals table.now.wires (length (chip_of table.now).modules)
        intervals.now }
    requires room { length marks.old ≡ length (chip_of table.now).modules }
    requires older { AreOlder stamp marks.old }
    ensures exact { MatchOption result
        (Each (IsBusItem (chip_of table.now) table.now.wires intervals.now) modules.now → ⊥)
        (λ least. Each (IsBusItem (chip_of table.now) table.now.wires intervals.now) modules.now
        × (least.high ≡ least_high (chip_of table.now) table.now.wires intervals.now modules.now)) }
    ensures some { IfSome result (λ least. 1 ≤ least.high) }
    ensures few { IfSome result (λ least. least.high ≤ table.now.wires) }
    ensures older { AreOlder (stamp + 1) marks.new }
{
    let mut least = Least {
        low: table.wires + 1,
        high: table.wires,
    };
    for place in 0..modules.len() {
        match take_module(table, intervals, modules, place, stamp, marks, least) {
            None => return None,
            Some(next) => least = next,
        }
    }
    Some(least)
}

/// The lower times of a module's tests over the wires on a width, together, by its number; 0 where the chip has no such
/// module.
fn time_of(table: &ChipTimes<'_>, number: u64, width: u64) -> u64
    requires table { IsTable table.now }
    requires some { 1 ≤ width }
    requires few { width ≤ table.now.wires }
    ensures time { result ≡ tam_time_of (chip_of table.now) width number }
    ensures small { result ≤ 10 ^ 18 }
{
    match place_of(table.soc, number) {
        None => 0,
        Some(place) => tam_time(table.times, place, width),
    }
}

/// The lower times of the tests over the wires of some modules on a width, together.
pub fn times_of(table: &ChipTimes<'_>, modules: &[u64], width: u64) -> u128
    requires table { IsTable table.now }
    requires some { 1 ≤ width }
    requires few { width ≤ table.now.wires }
    ensures { result ≡ sum_by (tam_time_of (chip_of table.now) width) modules.now }
{
    let mut sum = 0u128;
    for number in modules {
        sum += u128::from(time_of(table, *number, width));
    }
    sum
}
