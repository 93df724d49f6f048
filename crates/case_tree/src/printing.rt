//! Makes the proof that a tree of cases is.

use crate::tree::{CaseTree, NodeRule, ProofNames, whole_count};
use case_tables::{LISTS_MOST, LeafWeights, ListForm};
use outside::{NoMemory, both, push};
use plan_model::{Node, Pricing, Proof, TestList, Weights};
use soc_model::TestId;
use std::alloc::Global;
use tables::{NONE, filled, item_or, put_item};

/// Nodes that are still to be walked, the next one last.
#[derive(Drop)]
struct NodeStack {
    stack: Vec<usize>,
    height: usize,
}

impl NodeStack {
    /// Adds a node, which is the next one.
    fn push(&mut self, node: usize) {
        put_item(&mut self.stack, self.height, node);
        self.height = self.height.saturating_add(1);
    }

    /// Takes the next node, NONE where there is none.
    fn pop(&mut self) -> usize {
        if self.height == 0 {
            return NONE;
        }
        self.height = self.height.saturating_sub(1);
        item_or(&self.stack, self.height, NONE)
    }
}

/// The tests of a list.
fn members(alloc: Global, names: ProofNames<'_>, list: usize) -> Result<Vec<TestId>, NoMemory> {
    let mut tests = Vec::new(alloc);
    for test in 0..names.chip.tests {
        if names.lists.has(list, test) {
            let id = TestId {
                module: item_or(&names.chip.test_module, test, 0),
                test: item_or(&names.chip.test_number, test, 0),
            };
            push(&mut tests, id)?;
        }
    }
    Ok(tests)
}

/// A list as a proof has it.
fn list_of(alloc: Global, names: ProofNames<'_>, list: usize) -> Result<TestList, NoMemory> {
    let number = names.lists.number_of(list);
    let form = names.lists.form_of(list);
    if form == ListForm::Power {
        return Ok(TestList::Power { near: number });
    }
    let tests = members(alloc, names, list)?;
    if form == ListForm::Turns {
        return Ok(TestList::Turns { tests });
    }
    if form == ListForm::TurnsOn {
        return Ok(TestList::TurnsOn {
            rank: number,
            tests,
        });
    }
    Ok(TestList::Crowd {
        most: number,
        tests,
    })
}

/// The weights of ranks of a leaf, as the text has them.
fn rank_weights(
    alloc: Global,
    tree: &CaseTree,
    node: usize,
    weights: &LeafWeights,
) -> Result<Vec<u64>, NoMemory> {
    let digits = tree.digits_at(node);
    let mut scaled = filled(alloc, 0u64, weights.ranks.len())?;
    for rank in 0..scaled.len() {
        scaled[rank] = digits.scaled(item_or(&weights.ranks, rank, 0));
    }
    let mut ranks = Vec::new(alloc);
    for rank in 0..whole_count(&scaled) {
        push(&mut ranks, item_or(&scaled, rank, 0))?;
    }
    Ok(ranks)
}

/// The weights of lists of a leaf, as the text has them.
fn list_weights(
    alloc: Global,
    tree: &CaseTree,
    node: usize,
    weights: &LeafWeights,
    places: &[usize],
) -> Result<Vec<(u64, u64)>, NoMemory> {
    let digits = tree.digits_at(node);
    let mut lists = Vec::new(alloc);
    for at in 0..weights.count {
        let weight = digits.scaled(weights.use_at(at));
        if weight > 0 {
            let place = item_or(places, weights.list_at(at), 0);
            push(&mut lists, (place as u64, weight))?;
        }
    }
    Ok(lists)
}

/// The weights of a leaf, as the text has them.
fn leaf_of(
    alloc: Global,
    tree: &CaseTree,
    node: usize,
    weights: &LeafWeights,
    places: &[usize],
) -> Result<Node, NoMemory> {
    let wire = tree.digits_at(node).scaled(weights.wire);
    let ranks = rank_weights(alloc, tree, node, weights)?;
    let lists = list_weights(alloc, tree, node, weights, places)?;
    let weights = Weights { wire, ranks, lists };
    Ok(Node::Sum { weights })
}

/// The prices of a leaf Pack that are above 0, by the numbers of the modules.
fn pack_prices(
    alloc: Global,
    tree: &CaseTree,
    names: ProofNames<'_>,
    pack: usize,
) -> Result<Vec<(u64, u64)>, NoMemory> {
    let mut prices = Vec::new(alloc);
    for module in 0..names.chip.modules {
        let price = tree.packs.price(pack, module);
        if price > 0 {
            push(&mut prices, (item_or(&names.chip.number, module, 0), price))?;
        }
    }
    Ok(prices)
}

/// The weights of lists of a leaf Pack.
fn pack_lists(
    alloc: Global,
    tree: &CaseTree,
    pack: usize,
    places: &[usize],
) -> Result<Vec<(u64, u64)>, NoMemory> {
    let mut lists = Vec::new(alloc);
    for at in 0..tree.packs.lists(pack) {
        let place = item_or(places, tree.packs.list(pack, at), 0);
        push(&mut lists, (place as u64, tree.packs.weight(pack, at)))?;
    }
    Ok(lists)
}

/// A leaf Pack, as the text has it.
fn pack_of(
    alloc: Global,
    tree: &CaseTree,
    names: ProofNames<'_>,
    pack: usize,
    places: &[usize],
) -> Result<Node, NoMemory> {
    let (prices, lists) = both(
        pack_prices(alloc, tree, names, pack),
        pack_lists(alloc, tree, pack, places),
    )?;
    let grain = tree.packs.grain(pack);
    Ok(Node::Pack {
        pricing: Pricing {
            grain,
            prices,
            lists,
        },
    })
}

/// `count` twins, from a place of the pool on.
fn twins_of(
    alloc: Global,
    tree: &CaseTree,
    start: usize,
    count: usize,
) -> Result<Vec<u64>, NoMemory> {
    let mut twins = Vec::new(alloc);
    for at in 0..count {
        push(&mut twins, tree.pool_at(start.saturating_add(at)))?;
    }
    Ok(twins)
}

/// What making a proof takes beside the tree.
#[derive(Drop)]
struct Printing {
    /// The claim, in cycles.
    claimed: u64,
    /// How many nodes the proof has.
    nodes: usize,
    /// For each list its place in the proof, NONE where no leaf names it.
    places: Vec<usize>,
    /// The weights of the leaf at hand.
    weights: LeafWeights,
    /// The nodes that are still to come.
    walk: NodeStack,
}

impl Printing {
    /// Room for a proof of so many nodes, of a claim.
    fn new(alloc: Global, claimed: u64, nodes: usize) -> Result<Printing, NoMemory> {
        let places = filled(alloc, NONE, LISTS_MOST)?;
        let weights = LeafWeights::new(alloc)?;
        let stack = filled(alloc, NONE, nodes.saturating_add(1))?;
        let walk = NodeStack { stack, height: 0 };
        Ok(Printing {
            claimed,
            nodes,
            places,
            weights,
            walk,
        })
    }

    /// Goes on to the next node; its branches come behind it.
    fn next(&mut self, tree: &CaseTree) -> usize {
        let node = self.walk.pop();
        if node != NONE && tree.rule_among(node, self.nodes) != NodeRule::Leaf {
            let (first, second) = tree.branches(node);
            self.walk.push(second);
            self.walk.push(first);
        }
        node
    }

    /// Marks the lists of a leaf Pack.
    fn mark_pack(&mut self, tree: &CaseTree, pack: usize) {
        for at in 0..tree.packs.lists(pack) {
            put_item(&mut self.places, tree.packs.list(pack, at), 0);
        }
    }

    /// Marks the lists of a leaf.
    fn mark_leaf(&mut self, tree: &CaseTree, node: usize) {
        if tree.rule_among(node, self.nodes) != NodeRule::Leaf {
            return;
        }
        let pack = tree.packs.of_node(node, self.claimed);
        if pack != NONE {
            self.mark_pack(tree, pack);
            return;
        }
        tree.load(node, &mut self.weights);
        let digits = tree.digits_at(node);
        for at in 0..self.weights.count {
            if digits.scaled(self.weights.use_at(at)) > 0 {
                let list = self.weights.list_at(at);
                put_item(&mut self.places, list, 0);
            }
        }
    }

    /// Marks the lists of all leaves.
    fn mark_all(&mut self, tree: &CaseTree) {
        self.walk.push(0);
        for _ in 0..self.nodes {
            let node = self.next(tree);
            if node != NONE {
                self.mark_leaf(tree, node);
            }
        }
    }

    /// Counts the marked lists: the proof has them in their order.
    fn count_lists(&mut self) {
        let mut count: usize = 0;
        for list in 0..self.places.len() {
            if self.places[list] != NONE {
                self.places[list] = count;
                count = count.saturating_add(1);
            }
        }
    }

    /// A leaf as a proof has it.
    fn leaf(
        &mut self,
        alloc: Global,
        tree: &CaseTree,
        names: ProofNames<'_>,
        node: usize,
    ) -> Result<Node, NoMemory> {
        let pack = tree.packs.of_node(node, self.claimed);
        if pack != NONE {
            return pack_of(alloc, tree, names, pack, &self.places);
        }
        tree.load(node, &mut self.weights);
        leaf_of(alloc, tree, node, &self.weights, &self.places)
    }

    /// A node as a proof has it.
    fn node_of(
        &mut self,
        alloc: Global,
        tree: &CaseTree,
        names: ProofNames<'_>,
        node: usize,
    ) -> Result<Node, NoMemory> {
        match tree.rule_among(node, self.nodes) {
            NodeRule::Wide { rank, width } => Ok(Node::Wide {
                rank: rank as u64,
                width: width as u64,
            }),
            NodeRule::Place {
                module,
                rank,
                start,
                count,
            } => {
                let twins = twins_of(alloc, tree, start, count)?;
                Ok(Node::Place {
                    module: item_or(&names.chip.number, module, 0),
                    rank: rank as u64,
                    twins,
                })
            }
            NodeRule::Leaf => self.leaf(alloc, tree, names, node),
        }
    }

    /// The lists that the leaves name.
    fn lists(&self, alloc: Global, names: ProofNames<'_>) -> Result<Vec<TestList>, NoMemory> {
        let mut lists = Vec::new(alloc);
        for list in 0..self.places.len() {
            if self.places[list] != NONE {
                let own = list_of(alloc, names, list)?;
                push(&mut lists, own)?;
            }
        }
        Ok(lists)
    }

    /// The nodes in the order of a text.
    fn all_nodes(
        &mut self,
        alloc: Global,
        tree: &CaseTree,
        names: ProofNames<'_>,
    ) -> Result<Vec<Node>, NoMemory> {
        let mut nodes = Vec::new(alloc);
        self.walk.push(0);
        for _ in 0..self.nodes {
            let node = self.next(tree);
            if node != NONE {
                let own = self.node_of(alloc, tree, names, node)?;
                push(&mut nodes, own)?;
            }
        }
        Ok(nodes)
    }
}

/// The proof of a claim by the first `nodes` nodes of a tree; a node whose branches come later is a leaf. Lists that no leaf
/// names are left out. `NoMemory` where memory runs out.
pub fn proof_of(
    alloc: Global,
    tree: &CaseTree,
    names: ProofNames<'_>,
    claimed: u64,
    nodes: usize,
) -> Result<Proof, NoMemory> {
    let mut printing = Printing::new(alloc, claimed, nodes.min(tree.made))?;
    printing.mark_all(tree);
    printing.count_lists();
    let lists = printing.lists(alloc, names);
    let nodes = printing.all_nodes(alloc, tree, names);
    drop(printing);
    let (lists, nodes) = both(lists, nodes)?;
    Ok(Proof {
        claimed,
        lists,
        nodes,
    })
}
