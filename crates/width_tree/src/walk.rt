//! Goes over the nodes of a tree in the order of the text, with the case of each. Splits are kept in a list, so that nothing
//! recurses over the tree.
ghost use Rattle.std.specs.Prelude.{◌≡◌, true, ℕ, ◌+◌, ◌^◌, ◌<◌, ◌≤◌, ◌++◌, ◌∷◌, List, IfOk, length, map, slice_set};
ghost use Rattle.soc_model.specs.Chips.{SocValue};
ghost use Rattle.width_tree.specs.Trees.{WidthTree, NodeValue, nodes_of, node_value, IsOneTree};
ghost use Rattle.width_tree.specs.Cases.{Case, interval_at, narrow_at, wide_at, NodeCase, in_case, cases_of, KeepsNode};
ghost use Rattle.width_tree.specs.Bounds.{IsChecked};
ghost use Rattle.width_tree.specs.Tables.{chip_of, IsTable};
ghost use Rattle.width_tree.specs.Findings.{AreWidths, AreOlder, IsFinding};
ghost use Rattle.width_tree.specs.Walks.{split_at, case_later, IsOpenSplit, Awaits, Begins, GoesOn, IsJudged};

use crate::areas::{Widths, least_area, put_interval};
use crate::intervals::Interval;
use crate::leaves::{Finding, find_shown};
use crate::tables::ChipTimes;
use crate::{Node, Tree, TreeFault};
use soc_model::place_of;

/// A split of which a branch is under way.
#[derive(Clone, Copy, Drop)]
pub struct OpenSplit {
    /// The place of its module.
    pub place: usize,
    /// Its width.
    pub at: u64,
    /// The interval of the module before it, and the least area there.
    pub old: Interval,
    pub area: u128,
    /// The second branch is under way.
    pub second: bool,
}

/// The answer to what was found at the node at a place.
fn judge_node(claimed: u64, place: usize, finding: Finding) -> Result<(), TreeFault>
    ensures { (soc : SocValue) (w : ℕ) (c : Case) (n : NodeValue) → IsFinding soc w c n finding →
        IsJudged soc w claimed place (in_case c n) result }
{
    match finding {
        Finding::Broken => Err(TreeFault::BadNode { place }),
        Finding::Unsaid => Ok(()),
        Finding::Shows(shown) => {
            if shown < u128::from(claimed) {
                return Err(TreeFault::Less {
                    place,
                    claimed,
                    shown,
                });
            }
            Ok(())
        }
    }
}

/// Begins the first branch of a split at a width, with the narrow case of its module. The answer is how many splits are
/// under way then.
fn begin_split(
    table: &ChipTimes<'_>,
    widths: &mut Widths,
    stack: &mut [OpenSplit],
    depth: usize,
    place: usize,
    at: u64,
) -> usize
    requires table { IsTable table.now }
    requires widths { AreWidths table.now.wires (length (chip_of table.now).modules)
        table.now.times.now widths.old }
    requires place { place < length (chip_of table.now).modules }
    requires some { (interval_at widths.old.intervals.items place).low ≤ at }
    requires below { at < (interval_at widths.old.intervals.items place).high }
    requires room { depth < length stack.old }
    ensures widths { AreWidths table.now.wires (length (chip_of table.now).modules)
        table.now.times.now widths.new }
    ensures narrow { widths.new.intervals.items ≡ narrow_at widths.old.intervals.items at place }
    ensures depth { result ≡ depth + 1 }
    ensures awaits { (wide : WidthTree) (rest : List NodeCase) →
        Awaits (chip_of table.now) table.now.wires table.now.times.now stack.old depth
        widths.old.intervals.items rest →
        Awaits (chip_of table.now) table.now.wires table.now.times.now stack.new (depth + 1)
        widths.new.intervals.items (cases_of (chip_of table.now)
        (wide_at widths.old.intervals.items at place) wide ++ rest) }
{
    let old = widths.intervals[place];
    let area = widths.areas[place];
    let narrow = Interval {
        low: old.low,
        high: at,
    };
    stack[depth] = OpenSplit {
        place,
        at,
        old,
        area,
        second: false,
    };
    put_interval(
        widths,
        place,
        narrow,
        least_area(table.times, place, narrow),
    );
    depth + 1
}

/// Begins the second branch of the last split that is under way, with the wide case of its module.
fn begin_second(table: &ChipTimes<'_>, widths: &mut Widths, stack: &mut [OpenSplit], last: usize)
    requires table { IsTable table.now }
    requires widths { AreWidths table.now.wires (length (chip_of table.now).modules)
        table.now.times.now widths.old }
    requires room { last < length stack.old }
    requires opened { IsOpenSplit table.now.wires table.now.times.now widths.old.intervals.items
        (split_at stack.old last) }
    ensures widths { AreWidths table.now.wires (length (chip_of table.now).modules)
        table.now.times.now widths.new }
    ensures wide { widths.new.intervals.items
        ≡ case_later widths.old.intervals.items (split_at stack.old last) }
    ensures stack { stack.new
        ≡ slice_set stack.old last (record (split_at stack.old last) { second = true }) }
{
    let opened = stack[last];
    let wide = Interval {
        low: opened.at + 1,
        high: opened.old.high,
    };
    stack[last].second = true;
    put_interval(
        widths,
        opened.place,
        wide,
        least_area(table.times, opened.place, wide),
    );
}

/// After a leaf: takes back the cases of splits of which both branches are over, and begins the second branch of the split
/// before them. The answer is how many splits are under way then.
fn next_branch(
    table: &ChipTimes<'_>,
    widths: &mut Widths,
    stack: &mut [OpenSplit],
    under_way: usize,
) -> usize
    requires table { IsTable table.now }
    requires widths { AreWidths table.now.wires (length (chip_of table.now).modules)
        table.now.times.now widths.old }
    requires room { under_way ≤ length stack.old }
    requires awaits { (rest : List NodeCase)
        × Awaits (chip_of table.now) table.now.wires table.now.times.now stack.old under_way
        widths.old.intervals.items rest }
    ensures widths { AreWidths table.now.wires (length (chip_of table.now).modules)
        table.now.times.now widths.new }
    ensures few { result ≤ under_way }
    ensures goes_on { (rest : List NodeCase) →
        Awaits (chip_of table.now) table.now.wires table.now.times.now stack.old under_way
        widths.old.intervals.items rest →
        GoesOn (chip_of table.now) table.now.wires table.now.times.now stack.new result
        widths.new.intervals.items rest }
{
    let mut depth = under_way;
    while depth > 0 {
        let opened = stack[depth - 1];
        if !opened.second {
            begin_second(table, widths, stack, depth - 1);
            return depth;
        }
        put_interval(widths, opened.place, opened.old, opened.area);
        depth -= 1;
    }
    depth
}

/// Goes on behind a node that keeps its rule. The answer is how many splits are under way then.
fn go_on(
    table: &ChipTimes<'_>,
    node: &Node,
    widths: &mut Widths,
    stack: &mut [OpenSplit],
    depth: usize,
) -> usize
    requires table { IsTable table.now }
    requires widths { AreWidths table.now.wires (length (chip_of table.now).modules)
        table.now.times.now widths.old }
    requires room { depth < length stack.old }
    requires rule { KeepsNode (chip_of table.now) table.now.wires widths.old.intervals.items
        (node_value node.now) }
    requires begins { (left : List NodeCase)
        × Begins (chip_of table.now) table.now.wires table.now.times.now stack.old depth
        widths.old.intervals.items
        (in_case widths.old.intervals.items (node_value node.now) ∷ left) }
    ensures widths { AreWidths table.now.wires (length (chip_of table.now).modules)
        table.now.times.now widths.new }
    ensures few { result ≤ depth + 1 }
    ensures goes_on { (left : List NodeCase) →
        Begins (chip_of table.now) table.now.wires table.now.times.now stack.old depth
        widths.old.intervals.items
        (in_case widths.old.intervals.items (node_value node.now) ∷ left) →
        GoesOn (chip_of table.now) table.now.wires table.now.times.now stack.new result
        widths.new.intervals.items left }
{
    if let Node::Split { module, at } = node {
        return match place_of(table.soc, *module) {
            Some(place) => begin_split(table, widths, stack, depth, place, *at),
            None => depth,
        };
    }
    next_branch(table, widths, stack, depth)
}

/// What a node is judged by: the claim of its tree, in cycles, and its place in it.
#[derive(Clone, Copy, Drop)]
struct NodePlace {
    claimed: u64,
    place: usize,
}

/// Checks a node and goes on behind it. The answer is how many splits are under way then.
fn check_node(
    table: &ChipTimes<'_>,
    by: NodePlace,
    node: &Node,
    widths: &mut Widths,
    marks: &mut [usize],
    stack: &mut [OpenSplit],
    depth: usize,
) -> Result<usize, TreeFault>
    requires table { IsTable table.now }
    requires small { by.place + 2 < 2 ^ 64 }
    requires widths { AreWidths table.now.wires (length (chip_of table.now).modules)
        table.now.times.now widths.old }
    requires marks { length marks.old ≡ length (chip_of table.now).modules }
    requires older { AreOlder (by.place + 1) marks.old }
    requires room { depth < length stack.old }
    requires begins { (left : List NodeCase)
        × Begins (chip_of table.now) table.now.wires table.now.times.now stack.old depth
        widths.old.intervals.items
        (in_case widths.old.intervals.items (node_value node.now) ∷ left) }
    ensures judged { IsJudged (chip_of table.now) table.now.wires by.claimed by.place
        (in_case widths.old.intervals.items (node_value node.now)) result }
    ensures older { AreOlder (by.place + 2) marks.new }
    ensures widths { AreWidths table.now.wires (length (chip_of table.now).modules)
        table.now.times.now widths.new }
    ensures few { IfOk result (λ next. next ≤ depth + 1) }
    ensures goes_on { (left : List NodeCase) →
        Begins (chip_of table.now) table.now.wires table.now.times.now stack.old depth
        widths.old.intervals.items
        (in_case widths.old.intervals.items (node_value node.now) ∷ left) →
        IfOk result (λ next. GoesOn (chip_of table.now) table.now.wires table.now.times.now
        stack.new next widths.new.intervals.items left) }
{
    let finding = find_shown(table, widths, node, by.place + 1, marks);
    match judge_node(by.claimed, by.place, finding) {
        Ok(()) => Ok(go_on(table, node, widths, stack, depth)),
        Err(fault) => Err(fault),
    }
}

/// Checks the nodes of a tree one after another, the widths being those of its root. An error is the fault of the first
/// node that has one.
pub fn check_nodes(
    table: &ChipTimes<'_>,
    tree: &Tree,
    widths: &mut Widths,
    marks: &mut [usize],
    stack: &mut [OpenSplit],
) -> Result<(), TreeFault>
    requires table { IsTable table.now }
    requires widths { AreWidths table.now.wires (length (chip_of table.now).modules)
        table.now.times.now widths.old }
    requires marks { length marks.old ≡ length (chip_of table.now).modules }
    requires older { AreOlder 1 marks.old }
    requires room { length tree.now.nodes.items ≤ length stack.old }
    requires tree { IsOneTree (map node_value tree.now.nodes.items) }
    ensures widths { AreWidths table.now.wires (length (chip_of table.now).modules)
        table.now.times.now widths.new }
    ensures checked { (t : WidthTree) → nodes_of t ≡ map node_value tree.now.nodes.items →
        IsChecked (chip_of table.now) table.now.wires tree.now.claimed
        (cases_of (chip_of table.now) widths.old.intervals.items t) result }
{
    let mut depth = 0;
    for place in 0..tree.nodes.len() {
        let node = &tree.nodes[place];
        let by = NodePlace {
            claimed: tree.claimed,
            place,
        };
        match check_node(table, by, node, widths, marks, stack, depth) {
            Ok(next) => depth = next,
            Err(fault) => return Err(fault),
        }
    }
    Ok(())
}
