//! What the check of a tree finds at a node: whether it keeps its rule, and the cycles that it shows.
ghost use Rattle.std.specs.Prelude.{◌≡◌, ◌+◌, ◌<◌, ◌≤◌, length};
ghost use Rattle.plan_model.specs.Bounds.{quotient_up};
ghost use Rattle.width_tree.specs.Trees.{OfTime, OfArea, OfBus, OfApart, OfSplit, OfLeaf, node_value};
ghost use Rattle.width_tree.specs.Tables.{chip_of, IsTable};
ghost use Rattle.width_tree.specs.Findings.{AreWidths, AreIntervals, AreOlder, IsFinding};

use crate::Node;
use crate::areas::Widths;
use crate::intervals::Interval;
use crate::lists::{are_too_wide, least_widths, tam_place, times_of};
use crate::tables::{ChipTimes, tam_time};
use soc_model::place_of;

/// What is found at a node.
#[derive(Clone, Copy)]
pub enum Finding {
    /// It breaks its rule.
    Broken,
    /// It keeps its rule, and shows no cycles by itself.
    Unsaid,
    /// It keeps its rule, and no good plan of its case has fewer cycles than these.
    Shows(u128),
}

/// What is found at a split of the widths of a module.
fn find_split(table: &ChipTimes<'_>, intervals: &[Interval], module: u64, at: u64) -> Finding
    requires table { IsTable table.now }
    requires intervals { AreIntervals table.now.wires (length (chip_of table.now).modules)
        intervals.now }
    ensures { IsFinding (chip_of table.now) table.now.wires intervals.now (OfSplit «module» at)
        result }
{
    match tam_place(table, module) {
        None => Finding::Broken,
        Some(place) => {
            let interval = intervals[place];
            if at < interval.low {
                return Finding::Broken;
            }
            if interval.high <= at {
                return Finding::Broken;
            }
            Finding::Unsaid
        }
    }
}

/// What is found at a leaf by the times of a module: the lower times of its live tests on its greatest width.
fn find_time(table: &ChipTimes<'_>, intervals: &[Interval], module: u64) -> Finding
    requires table { IsTable table.now }
    requires intervals { AreIntervals table.now.wires (length (chip_of table.now).modules)
        intervals.now }
    ensures { IsFinding (chip_of table.now) table.now.wires intervals.now (OfLeaf (OfTime «module»))
        result }
{
    match place_of(table.soc, module) {
        None => Finding::Broken,
        Some(place) => {
            let time = tam_time(table.times, place, intervals[place].high);
            Finding::Shows(u128::from(time) + u128::from(table.own[place]))
        }
    }
}

/// A total over `parts` parts, rounded up.
fn divided_up(total: u128, parts: u64) -> u128
    requires { 1 ≤ parts }
    ensures { result ≡ quotient_up total parts }
{
    let parts = u128::from(parts);
    total.div_ceil(parts)
}

/// What is found at a leaf by the areas of all modules: the cycles that they take on all wires.
fn find_area(table: &ChipTimes<'_>, widths: &Widths) -> Finding
    requires table { IsTable table.now }
    requires widths { AreWidths table.now.wires (length (chip_of table.now).modules)
        table.now.times.now widths.now }
    ensures { IsFinding (chip_of table.now) table.now.wires widths.now.intervals.items
        (OfLeaf OfArea) result }
{
    Finding::Shows(divided_up(widths.total, table.wires))
}

/// What is found at a leaf by modules on one bus: the lower times of their tests over the wires, on the least of their
/// greatest widths.
fn find_bus(
    table: &ChipTimes<'_>,
    intervals: &[Interval],
    modules: &[u64],
    stamp: usize,
    marks: &mut [usize],
) -> Finding
    requires table { IsTable table.now }
    requires intervals { AreIntervals table.now.wires (length (chip_of table.now).modules)
        intervals.now }
    requires room { length marks.old ≡ length (chip_of table.now).modules }
    requires older { AreOlder stamp marks.old }
    ensures finding { IsFinding (chip_of table.now) table.now.wires intervals.now
        (OfLeaf (OfBus modules.now)) result }
    ensures older { AreOlder (stamp + 1) marks.new }
{
    match least_widths(table, intervals, modules, stamp, marks) {
        None => Finding::Broken,
        Some(least) => Finding::Shows(times_of(table, modules, least.high)),
    }
}

/// What is found at a leaf by two modules that need one bus, of which no width is in the intervals of both.
fn find_apart(table: &ChipTimes<'_>, intervals: &[Interval], a: u64, b: u64) -> Finding
    requires table { IsTable table.now }
    requires intervals { AreIntervals table.now.wires (length (chip_of table.now).modules)
        intervals.now }
    ensures { IsFinding (chip_of table.now) table.now.wires intervals.now (OfLeaf (OfApart a b))
        result }
{
    let Some(first) = tam_place(table, a) else {
        return Finding::Broken;
    };
    let Some(second) = tam_place(table, b) else {
        return Finding::Broken;
    };
    let one = intervals[first];
    let other = intervals[second];
    if a == b {
        return Finding::Broken;
    }
    if !are_too_wide(table.wires, one.low, other.low) {
        return Finding::Broken;
    }
    if one.high < other.low {
        return Finding::Unsaid;
    }
    if other.high < one.low {
        return Finding::Unsaid;
    }
    Finding::Broken
}

/// What is found at a node in its case. `stamp` is greater than all marks, and serves once.
pub fn find_shown(
    table: &ChipTimes<'_>,
    widths: &Widths,
    node: &Node,
    stamp: usize,
    marks: &mut [usize],
) -> Finding
    requires table { IsTable table.now }
    requires widths { AreWidths table.now.wires (length (chip_of table.now).modules)
        table.now.times.now widths.now }
    requires room { length marks.old ≡ length (chip_of table.now).modules }
    requires older { AreOlder stamp marks.old }
    ensures finding { IsFinding (chip_of table.now) table.now.wires widths.now.intervals.items
        (node_value node.now) result }
    ensures older { AreOlder (stamp + 1) marks.new }
{
    match node {
        Node::Split { module, at } => find_split(table, &widths.intervals, *module, *at),
        Node::Time { module } => find_time(table, &widths.intervals, *module),
        Node::Area => find_area(table, widths),
        Node::Bus { modules } => find_bus(table, &widths.intervals, modules, stamp, marks),
        Node::Apart { a, b } => find_apart(table, &widths.intervals, *a, *b),
    }
}
