//! The room of the check, and its public call.
ghost use Rattle.std.specs.Prelude.{◌≡◌, ◌*◌, ◌^◌, ◌<◌, ◌≤◌, Ok, IfOk, IfErr, OnOk, length, map, sum};
ghost use Rattle.soc_model.specs.Chips.{soc_value};
ghost use Rattle.soc_model.specs.SoundChips.{IsSoundChip};
ghost use Rattle.plan_model.specs.Views.{limits_value};
ghost use Rattle.plan_model.specs.Rules.{IsBound};
ghost use Rattle.plan_model.specs.SoundLimits.{IsSoundLimits};
ghost use Rattle.width_tree.specs.Trees.{WidthTree, nodes_of, node_value, IsOneTree, tree_value};
ghost use Rattle.width_tree.specs.Cases.{root_case, cases_of};
ghost use Rattle.width_tree.specs.Bounds.{IsChecked, IsAcceptedTree, IsTreeFault};
ghost use Rattle.width_tree.specs.Tables.{chip_of, IsTable};
ghost use Rattle.width_tree.specs.Findings.{AreWidths, AreIntervals, AreAreas};
ghost use Rattle.width_tree.specs.Walks.{HasRoom};

use crate::areas::{Widths, least_area};
use crate::intervals::{Interval, fill_root};
use crate::laws::{accepted_trees_are_bounds, accepted_trees_have_no_fault};
use crate::tables::{ChipTimes, ROW_WIDTHS, fill_own_times, fill_times};
use crate::walk::{OpenSplit, check_nodes};
use crate::{Tree, TreeFault};
use outside::NoMemory;
use plan_model::Limits;
use soc_model::Soc;
use std::alloc::Global;
use std::marker::Model;

/// Room for checking trees over a chip. Its model is the number of modules and of nodes that there is room for.
#[derive(Drop)]
pub struct TreeRoom {
    /// For each module its times over the wires on each width.
    times: Vec<u64>,
    /// For each module the cycles of its self tests.
    own: Vec<u64>,
    /// For each module its interval of widths and its least area.
    widths: Widths,
    /// For each module the last list that it stood in.
    marks: Vec<usize>,
    /// The splits that are under way.
    stack: Vec<OpenSplit>,
}

impl Model for TreeRoom {
    ghost use Rattle.std.specs.Prelude.{◌≡◌, ◌*◌, length};
    ghost use Rattle.width_tree.specs.Walks.{RoomValue};

    ghost Value = { RoomValue };

    ghost view = { λ r. record { modules = length r.own.items; nodes = length r.stack.items } };

    ghost invariant = { λ r. (length r.times.items ≡ length r.own.items * 256)
        × (length r.widths.intervals.items ≡ length r.own.items)
        × (length r.widths.areas.items ≡ length r.own.items)
        × (length r.marks.items ≡ length r.own.items) };
}

const NO_INTERVAL: Interval = Interval { low: 0, high: 0 };

const NO_SPLIT: OpenSplit = OpenSplit {
    place: 0,
    at: 0,
    old: Interval { low: 0, high: 0 },
    area: 0,
    second: false,
};

impl TreeRoom {
    /// Room for `modules` modules and `nodes` nodes.
    fn sized(alloc: Global, modules: usize, nodes: usize) -> Result<TreeRoom, NoMemory>
        ensures { IfOk result (λ room. (room.modules ≡ modules) × (room.nodes ≡ nodes)) }
    {
        let Some(count) = modules.checked_mul(ROW_WIDTHS) else {
            return Err(NoMemory);
        };
        let widths = Widths {
            intervals: Vec::from_elem(alloc, NO_INTERVAL, modules)?,
            areas: Vec::from_elem(alloc, 0, modules)?,
            total: 0,
        };
        Ok(TreeRoom {
            times: Vec::from_elem(alloc, 0, count)?,
            own: Vec::from_elem(alloc, 0, modules)?,
            widths,
            marks: Vec::from_elem(alloc, 0, modules)?,
            stack: Vec::from_elem(alloc, NO_SPLIT, nodes)?,
        })
    }

    /// Room for this chip and this tree, and for every tree with no more nodes.
    pub fn new(alloc: Global, soc: &Soc, tree: &Tree) -> Result<TreeRoom, NoMemory>
        ensures { IfOk result (HasRoom (soc_value soc.now) (tree_value tree.now)) }
    {
        TreeRoom::sized(alloc, soc.modules.len(), tree.nodes.len())
    }
}

/// Writes the least area of each module within its interval.
fn fill_areas(table: &ChipTimes<'_>, intervals: &[Interval], areas: &mut [u128])
    requires table { IsTable table.now }
    requires intervals { AreIntervals table.now.wires (length (chip_of table.now).modules)
        intervals.now }
    requires room { length areas.old ≡ length (chip_of table.now).modules }
    ensures { AreAreas (length (chip_of table.now).modules) table.now.times.now intervals.now
        areas.new }
{
    for place in 0..areas.len() {
        areas[place] = least_area(table.times, place, intervals[place]);
    }
}

/// The sum of areas.
fn sum_of(areas: &[u128]) -> u128
    requires { sum areas.now < 2 ^ 128 }
    ensures { result ≡ sum areas.now }
{
    areas.iter().sum()
}

/// Writes the intervals of the root and the least areas within them. The answer is the sum of the areas.
fn fill_slices(table: &ChipTimes<'_>, intervals: &mut [Interval], areas: &mut [u128]) -> u128
    requires table { IsTable table.now }
    requires intervals { length intervals.old ≡ length (chip_of table.now).modules }
    requires areas { length areas.old ≡ length (chip_of table.now).modules }
    ensures root { intervals.new ≡ root_case (chip_of table.now) table.now.wires }
    ensures areas { AreAreas (length (chip_of table.now).modules) table.now.times.now intervals.new
        areas.new }
    ensures total { result ≡ sum areas.new }
{
    fill_root(intervals, table.wires);
    fill_areas(table, intervals, areas);
    sum_of(areas)
}

/// The widths of the root, with their areas.
fn fill_widths(table: &ChipTimes<'_>, widths: &mut Widths)
    requires table { IsTable table.now }
    requires intervals { length widths.old.intervals.items ≡ length (chip_of table.now).modules }
    requires areas { length widths.old.areas.items ≡ length (chip_of table.now).modules }
    ensures widths { AreWidths table.now.wires (length (chip_of table.now).modules)
        table.now.times.now widths.new }
    ensures root { widths.new.intervals.items ≡ root_case (chip_of table.now) table.now.wires }
{
    widths.total = fill_slices(table, &mut widths.intervals, &mut widths.areas);
}

/// A chip and the wires of its limits.
#[derive(Clone, Copy, Drop)]
struct WiredChip<'a> {
    soc: &'a Soc,
    wires: u64,
}

/// The check over rooms that are long enough.
fn check_in(
    chip: &WiredChip<'_>,
    tree: &Tree,
    times: &mut [u64],
    own: &mut [u64],
    widths: &mut Widths,
    marks: &mut [usize],
    stack: &mut [OpenSplit],
) -> Result<(), TreeFault>
    requires sound { IsSoundChip (soc_value chip.now.soc.now) }
    requires some_wire { 1 ≤ chip.now.wires }
    requires few_wires { chip.now.wires ≤ 256 }
    requires tree { IsOneTree (map node_value tree.now.nodes.items) }
    requires times { length times.old ≡ length (soc_value chip.now.soc.now).modules * 256 }
    requires own { length own.old ≡ length (soc_value chip.now.soc.now).modules }
    requires intervals { length widths.old.intervals.items
        ≡ length (soc_value chip.now.soc.now).modules }
    requires areas { length widths.old.areas.items ≡ length (soc_value chip.now.soc.now).modules }
    requires marks { length marks.old ≡ length (soc_value chip.now.soc.now).modules }
    requires stack { length tree.now.nodes.items ≤ length stack.old }
    ensures checked { (t : WidthTree) → nodes_of t ≡ map node_value tree.now.nodes.items →
        IsChecked (soc_value chip.now.soc.now) chip.now.wires tree.now.claimed
        (cases_of (soc_value chip.now.soc.now)
        (root_case (soc_value chip.now.soc.now) chip.now.wires) t) result }
    ensures intervals { length widths.new.intervals.items ≡ length widths.old.intervals.items }
    ensures areas { length widths.new.areas.items ≡ length widths.old.areas.items }
{
    fill_times(chip.soc, chip.wires, times);
    fill_own_times(chip.soc, chip.wires, own);
    let table = ChipTimes {
        soc: chip.soc,
        wires: chip.wires,
        times,
        own,
    };
    fill_widths(&table, widths);
    marks.fill(0);
    check_nodes(&table, tree, widths, marks, stack)
}

/// Whether a tree is accepted, for a sound chip and sound limits. Ok comes exactly where every node keeps its rule and every
/// leaf that shows a number of cycles shows at least the claim; then no good plan has fewer cycles than the claim.
/// `BadNode` and `Less` come for the first node that isn't as it should be: `BadNode` exactly where it breaks its rule,
/// `Less` exactly where it keeps it and what it shows is less than the claim. No memory is taken, and the room serves again:
/// it stays as large as it was, so that it does for every tree over a chip of as many modules with no more nodes.
pub fn check_tree(
    soc: &Soc,
    limits: &Limits,
    tree: &Tree,
    room: &mut TreeRoom,
) -> Result<(), TreeFault>
    requires sound { IsSoundChip (soc_value soc.now) }
    requires limits { IsSoundLimits (soc_value soc.now) (limits_value limits.now) }
    requires tree { IsOneTree (tree_value tree.now).nodes }
    requires room { HasRoom (soc_value soc.now) (tree_value tree.now) room.old }
    ensures accepted { OnOk result
        (IsAcceptedTree (soc_value soc.now) (limits_value limits.now) (tree_value tree.now)) }
    ensures fault { IfErr result
        (IsTreeFault (soc_value soc.now) (limits_value limits.now) (tree_value tree.now)) }
    ensures exact { IsAcceptedTree (soc_value soc.now) (limits_value limits.now)
        (tree_value tree.now) → result ≡ Ok tt }
    ensures bound { OnOk result
        (IsBound (soc_value soc.now) (limits_value limits.now) tree.now.claimed) }
    ensures room { room.new ≡ room.old }
{
    accepted_trees_are_bounds();
    accepted_trees_have_no_fault();
    let chip = WiredChip {
        soc,
        wires: limits.wires,
    };
    check_in(
        &chip,
        tree,
        &mut room.times,
        &mut room.own,
        &mut room.widths,
        &mut room.marks,
        &mut room.stack,
    )
}
