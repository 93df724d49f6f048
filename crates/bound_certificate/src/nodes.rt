//! The live tests of a chip as the nodes of a graph, with their precedences as its edges.
ghost use Rattle.std.specs.Prelude.{◌≡◌, ℕ, ◌<◌, ◌≤◌, ◌++◌, length, IfOk, OnOk};
ghost use Rattle.soc_model.specs.Chips.{soc_value, module_value};
ghost use Rattle.soc_model.specs.SoundChips.{IsSoundChip};
ghost use Rattle.bound_rules.specs.Sizes.{IsMeasurable};
ghost use Rattle.bound_certificate.specs.Nodes.{node_values, fixed_parts, before_at, tests_at, nodes_in, live_nodes as nodes_of_tests, AreNodes};

use bound_rules::LowerTimes;
use live_tests::{Neighbours, Problem, all_before};
use outside::{NoMemory, push};
use soc_model::{Module, Soc, TestId, live};
use std::alloc::Global;
use std::mem;

/// A live test among its precedences.
#[derive(Drop)]
pub struct PrecedenceNode {
    /// The test.
    pub id: TestId,
    /// The cycles that it takes at least on all wires.
    pub time: u64,
    /// The live tests that precede it, by their places among all live tests in the order of the chip.
    pub before: Vec<usize>,
}

/// Adds the live tests of a module, without precedences.
fn push_live(
    alloc: Global,
    nodes: &mut Vec<PrecedenceNode>,
    module: &Module,
    wires: u64,
) -> Result<(), NoMemory>
    requires wires { 1 ≤ wires }
    requires works { IsMeasurable (module_value «module».now) }
    ensures { OnOk result (node_values nodes.new.items
        ≡ node_values nodes.old.items ++ nodes_in wires (module_value «module».now)) }
{
    let lower = LowerTimes::new(module);
    for test in &module.tests {
        if live(test) {
            let node = PrecedenceNode {
                id: TestId {
                    module: module.number,
                    test: test.number,
                },
                time: lower.of_test(test, wires),
                before: Vec::new(alloc),
            };
            push(nodes, node)?;
        }
    }
    Ok(())
}

/// The live tests in the order of the chip, without precedences.
fn live_nodes(alloc: Global, soc: &Soc, wires: u64) -> Result<Vec<PrecedenceNode>, NoMemory>
    requires wires { 1 ≤ wires }
    requires sound { IsSoundChip (soc_value soc.now) }
    ensures { IfOk result
        (λ nodes. node_values nodes.items ≡ nodes_of_tests (soc_value soc.now) wires) }
{
    let mut nodes = Vec::new(alloc);
    for module in soc.modules.values() {
        push_live(alloc, &mut nodes, module, wires)?;
    }
    Ok(nodes)
}

/// Gives each node the tests before it, which stand in these lists.
fn link_nodes(nodes: &mut Vec<PrecedenceNode>, lists: &mut Vec<Neighbours>)
    requires { length lists.old.items ≡ length nodes.old.items }
    ensures fixed { fixed_parts (node_values nodes.new.items)
        ≡ fixed_parts (node_values nodes.old.items) }
    ensures before { (i : ℕ) → i < length nodes.old.items →
        before_at nodes.new.items i ≡ tests_at lists.old.items i }
{
    for place in 0..nodes.len() {
        mem::swap(&mut nodes[place].before, &mut lists[place].tests);
    }
}

/// The live tests in the order of the chip, with their precedences.
pub fn nodes_of(alloc: Global, problem: &Problem<'_>) -> Result<Vec<PrecedenceNode>, NoMemory>
    ensures { IfOk result
        (λ nodes. AreNodes problem.now.soc problem.now.limits (node_values nodes.items)) }
{
    let mut nodes = live_nodes(alloc, problem.soc, problem.limits.wires)?;
    let mut before = all_before(alloc, nodes.len(), &problem.resolved.precedences)?;
    link_nodes(&mut nodes, &mut before);
    Ok(nodes)
}
