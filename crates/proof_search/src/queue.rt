//! The open cases of a search, the weakest first.

use crate::divisions::Division;
use outside::NoMemory;
use std::alloc::Global;
use tables::{NONE, filled, item_or, put_item};

/// What is kept of each node of a tree.
#[derive(Clone, Copy)]
pub(crate) struct NodeEntry {
    /// The claim that its case is worth, in cycles.
    pub value: u64,
    /// How its case can be divided.
    pub division: Division,
    /// The node that it is a branch of.
    pub parent: usize,
    /// Whether it is the second branch.
    pub second: bool,
}

/// A node of which nothing is known.
pub(crate) const NO_ENTRY: NodeEntry = NodeEntry {
    value: 0,
    division: Division::Nothing,
    parent: 0,
    second: false,
};

/// A heap of open nodes: the one of the least value is the first, of equal ones the one that was made first.
#[derive(Drop)]
pub(crate) struct NodeQueue {
    heap: Vec<usize>,
    /// How many nodes are open.
    pub count: usize,
}

/// Whether a node comes before another one.
fn is_before(entries: &[NodeEntry], a: usize, b: usize) -> bool {
    let x = item_or(entries, a, NO_ENTRY).value;
    let y = item_or(entries, b, NO_ENTRY).value;
    x < y || (x == y && a < b)
}

impl NodeQueue {
    /// Room for `nodes` open nodes. `NoMemory` where memory runs out.
    pub fn new(alloc: Global, nodes: usize) -> Result<NodeQueue, NoMemory> {
        let heap = filled(alloc, 0usize, nodes)?;
        Ok(NodeQueue { heap, count: 0 })
    }

    /// The node at a place of the heap.
    fn at(&self, place: usize) -> usize {
        item_or(&self.heap, place, NONE)
    }

    /// The first open node, NONE where there is none.
    pub fn first(&self) -> usize {
        if self.count == 0 {
            return NONE;
        }
        self.at(0)
    }

    /// Adds an open node.
    pub fn push(&mut self, entries: &[NodeEntry], node: usize) {
        let mut at = self.count;
        self.count = at.saturating_add(1);
        for _ in 0..64 {
            let up = at.saturating_sub(1) >> 1;
            let other = self.at(up);
            if at == 0 || !is_before(entries, node, other) {
                break;
            }
            put_item(&mut self.heap, at, other);
            at = up;
        }
        put_item(&mut self.heap, at, node);
    }

    /// The place below another one that comes first; where there is none, a place that is no less than `count`.
    fn below(&self, entries: &[NodeEntry], at: usize) -> usize {
        let left = at.saturating_mul(2).saturating_add(1);
        let right = left.saturating_add(1);
        if right < self.count && is_before(entries, self.at(right), self.at(left)) {
            return right;
        }
        left
    }

    /// Takes the first open node away.
    pub fn drop_first(&mut self, entries: &[NodeEntry]) {
        self.count = self.count.saturating_sub(1);
        let node = self.at(self.count);
        let mut at: usize = 0;
        for _ in 0..64 {
            let below = self.below(entries, at);
            let other = self.at(below);
            if below >= self.count || !is_before(entries, other, node) {
                break;
            }
            put_item(&mut self.heap, at, other);
            at = below;
        }
        put_item(&mut self.heap, at, node);
    }
}
