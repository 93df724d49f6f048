//! The tree of cases as a text has it: which node is divided how, and the weights of each leaf.

use crate::packs::{FoundPack, LeafChoice, LeafPacks};
use crate::text::{head_length, list_use_length, nines, place_length, spaced, wide_length};
use case_tables::{ChipTables, LISTS_MOST, LeafWeights, ListForm, Lists, scaled_weight};
use outside::{NoMemory, both};
use std::alloc::Global;
use tables::{NONE, filled, item_or, put_item};

/// How a node is divided.
#[derive(Clone, Copy, PartialEq, Eq)]
pub enum NodeRule {
    /// Not at all, so far.
    Leaf,
    /// By the width of a rank's bus: at most `width` wires, or more.
    Wide {
        rank: usize,
        width: usize,
    },
    /// By whether a module is on a rank; `count` twins of the rank stand in the pool, from the place `start` on.
    Place {
        module: usize,
        rank: usize,
        start: usize,
        count: usize,
    },
}

/// What a text names tests and modules by, and its lists.
#[derive(Clone, Copy)]
pub struct ProofNames<'a> {
    /// The chip.
    pub chip: &'a ChipTables,
    /// The lists of the proof.
    pub lists: &'a Lists,
}

/// What the greatest weight of a leaf becomes in a text.
#[derive(Clone, Copy)]
pub(crate) struct WeightDigits {
    /// The greatest weight.
    most: u64,
    /// What it becomes.
    whole: u64,
}

/// A node of a tree.
#[derive(Clone, Copy)]
struct TreeNode {
    /// How it is divided.
    rule: NodeRule,
    /// Its first branch, by its place among the nodes.
    first: usize,
    /// Its second branch.
    second: usize,
    /// Where its weights stand in the pool: that of a wire, how many of ranks, how many of lists, those of ranks, and those of
    /// lists, each behind the list's place.
    weights: usize,
    /// How its weights are scaled in its line.
    digits: WeightDigits,
    /// The bytes of its line while it is a leaf.
    length: u64,
}

/// No node.
const NO_NODE: TreeNode = TreeNode {
    rule: NodeRule::Leaf,
    first: NONE,
    second: NONE,
    weights: NONE,
    digits: WeightDigits { most: 1, whole: 0 },
    length: 0,
};

/// A tree of cases. Nodes go by the order in which they were made.
#[derive(Drop)]
pub struct CaseTree {
    /// How many nodes there are.
    pub made: usize,
    /// The bytes of the text of the tree as it is.
    pub length: u64,
    /// The nodes, and room for more.
    nodes: Vec<TreeNode>,
    /// The weights of nodes, and twins.
    pool: Vec<u32>,
    /// How much of the pool is taken.
    pooled: usize,
    /// For each list whether some leaf had it.
    used: Vec<bool>,
    /// Leaves Pack.
    pub(crate) packs: LeafPacks,
}

/// How many weights there are without the zeros at the end.
pub(crate) fn whole_count(ranks: &[u64]) -> usize {
    let mut count: usize = 0;
    for rank in 0..ranks.len() {
        if ranks[rank] > 0 {
            count = rank.saturating_add(1);
        }
    }
    count
}

impl WeightDigits {
    /// `digits` digits for the greatest weight; as it is, where it has no more.
    fn of(weights: &LeafWeights, digits: u32) -> WeightDigits {
        let most = weights.greatest().max(1);
        WeightDigits {
            most,
            whole: nines(digits).min(most),
        }
    }

    /// A weight as the text has it.
    pub fn scaled(self, weight: u64) -> u64 {
        scaled_weight(weight, self.most, self.whole)
    }
}

/// The bytes of the weights of ranks, without the zeros at the end.
fn ranks_length(ranks: &[u64], digits: WeightDigits) -> u64 {
    let mut length: u64 = 0;
    let mut whole: u64 = 0;
    for rank in 0..ranks.len() {
        let weight = digits.scaled(ranks[rank]);
        length = length.saturating_add(spaced(weight));
        if weight > 0 {
            whole = length;
        }
    }
    whole
}

/// The bytes of the weights of lists without those of 0.
fn uses_length(weights: &LeafWeights, digits: WeightDigits) -> u64 {
    let mut length: u64 = 0;
    for at in 0..weights.count {
        let weight = digits.scaled(weights.use_at(at));
        if weight > 0 {
            length = length.saturating_add(list_use_length(weights.list_at(at), weight));
        }
    }
    length
}

/// The bytes of the line of Sum.
fn sum_length(weights: &LeafWeights, digits: WeightDigits) -> u64 {
    let wire = spaced(digits.scaled(weights.wire));
    let ranks = ranks_length(&weights.ranks, digits);
    let lists = uses_length(weights, digits);
    wire.saturating_add(ranks)
        .saturating_add(lists)
        .saturating_add(4)
}

/// How many prices are above 0.
fn priced_of(found: FoundPack<'_>) -> u64 {
    let mut priced: u64 = 0;
    for module in 0..found.prices.len() {
        if found.prices[module] > 0 {
            priced = priced.saturating_add(1);
        }
    }
    priced
}

/// The bytes of the prices above 0.
fn prices_length(names: ProofNames<'_>, found: FoundPack<'_>) -> u64 {
    let mut length: u64 = 0;
    for module in 0..found.prices.len() {
        if found.prices[module] > 0 {
            let number = spaced(item_or(&names.chip.number, module, 0));
            length = length
                .saturating_add(number)
                .saturating_add(spaced(found.prices[module]));
        }
    }
    length
}

/// The bytes of the line of Pack.
fn pack_length(names: ProofNames<'_>, found: FoundPack<'_>) -> u64 {
    let mut length = prices_length(names, found);
    for at in 0..found.count {
        let list = item_or(found.lists, at, NONE);
        length = length.saturating_add(list_use_length(list, item_or(found.weights, at, 0)));
    }
    length.saturating_add(spaced(found.grain)).saturating_add(4)
}

/// The bytes of the names of a list's tests.
fn members_length(names: ProofNames<'_>, list: usize) -> u64 {
    let mut length: u64 = 0;
    for test in 0..names.chip.tests {
        if names.lists.has(list, test) {
            let module = spaced(item_or(&names.chip.test_module, test, 0));
            let number = spaced(item_or(&names.chip.test_number, test, 0));
            length = length.saturating_add(module).saturating_add(number);
        }
    }
    length
}

/// The bytes of the line of a list.
fn list_length(names: ProofNames<'_>, list: usize) -> u64 {
    let number = spaced(names.lists.number_of(list));
    let members = members_length(names, list);
    match names.lists.form_of(list) {
        ListForm::Turns => members.saturating_add(6),
        ListForm::TurnsOn => members.saturating_add(number).saturating_add(8),
        ListForm::Crowd => members.saturating_add(number).saturating_add(6),
        ListForm::Power => number.saturating_add(6),
    }
}

impl CaseTree {
    /// Room for a tree of `nodes_most` nodes, with `pool_most` weights and twins, and leaves Pack of `modules` wired modules that take
    /// `packs_most` numbers in all. `NoMemory` where memory runs out.
    pub fn new(
        alloc: Global,
        nodes_most: usize,
        pool_most: usize,
        modules: usize,
        packs_most: usize,
    ) -> Result<CaseTree, NoMemory> {
        let packed_most = if packs_most > 0 { nodes_most } else { 0 };
        let packs = LeafPacks::new(alloc, modules, packed_most, packs_most);
        let lists = both(filled(alloc, false, LISTS_MOST), packs);
        let numbers = both(
            filled(alloc, NO_NODE, nodes_most),
            filled(alloc, 0u32, pool_most),
        );
        let ((nodes, pool), (used, packs)) = both(numbers, lists)?;
        Ok(CaseTree {
            made: 0,
            length: head_length(),
            nodes,
            pool,
            pooled: 0,
            used,
            packs,
        })
    }

    /// Whether there is room for `nodes` more nodes with weights of `resources` resources each.
    pub fn has_room(&self, nodes: usize, resources: usize) -> bool {
        let each = resources.saturating_mul(2).saturating_add(4);
        let pooled = self.pooled.saturating_add(each.saturating_mul(nodes));
        self.made.saturating_add(nodes) <= self.nodes.len() && pooled <= self.pool.len()
    }

    /// Adds a number to the pool.
    fn push(&mut self, number: u64) {
        let narrow = u32::try_from(number).unwrap_or(0);
        put_item(&mut self.pool, self.pooled, narrow);
        self.pooled = self.pooled.saturating_add(1);
    }

    /// The node at a place.
    fn node_at(&self, node: usize) -> TreeNode {
        item_or(&self.nodes, node, NO_NODE)
    }

    /// What stands at a place of the pool.
    pub fn pool_at(&self, place: usize) -> u64 {
        u64::from(item_or(&self.pool, place, 0))
    }

    /// Adds a leaf with these weights, of which the text has `digits` digits. Answers its place, NONE where there is no room.
    pub fn add(&mut self, names: ProofNames<'_>, weights: &LeafWeights, digits: u32) -> usize {
        let resources = whole_count(&weights.ranks).saturating_add(weights.count);
        if !self.has_room(1, resources) {
            return NONE;
        }
        let node = self.made;
        let in_text = WeightDigits::of(weights, digits);
        let length = sum_length(weights, in_text);
        let mut own = NO_NODE;
        own.weights = self.pooled;
        own.digits = in_text;
        own.length = length;
        put_item(&mut self.nodes, node, own);
        self.push_weights(weights);
        self.mark_used(names, weights);
        self.length = self.length.saturating_add(length);
        self.made = self.made.saturating_add(1);
        node
    }

    /// Gives the weights of a leaf `digits` digits in the text. The length of the text stays as it was counted.
    pub fn set_digits(&mut self, node: usize, weights: &LeafWeights, digits: u32) {
        let mut own = self.node_at(node);
        own.digits = WeightDigits::of(weights, digits);
        put_item(&mut self.nodes, node, own);
    }

    /// Adds weights to the pool.
    fn push_weights(&mut self, weights: &LeafWeights) {
        let count = whole_count(&weights.ranks);
        self.push(weights.wire);
        self.push(count as u64);
        self.push(weights.count as u64);
        for rank in 0..count {
            self.push(item_or(&weights.ranks, rank, 0));
        }
        self.push_uses(weights);
    }

    /// Adds the weights of lists to the pool.
    fn push_uses(&mut self, weights: &LeafWeights) {
        for at in 0..weights.count {
            self.push(weights.list_at(at) as u64);
            self.push(weights.use_at(at));
        }
    }

    /// Counts the line of a list, where no leaf had it so far.
    fn mark_list(&mut self, names: ProofNames<'_>, list: usize) {
        if !item_or(&self.used, list, true) {
            put_item(&mut self.used, list, true);
            self.length = self.length.saturating_add(list_length(names, list));
        }
    }

    /// Counts the lines of lists that no leaf had so far.
    fn mark_used(&mut self, names: ProofNames<'_>, weights: &LeafWeights) {
        for at in 0..weights.count {
            self.mark_list(names, weights.list_at(at));
        }
    }

    /// Whether there is room for one more leaf Pack.
    pub fn has_pack_room(&self) -> bool {
        self.packs.has_room(LISTS_MOST)
    }

    /// Adds a leaf Pack, which no node has yet. Answers where it stands, NONE where there is no room.
    pub fn add_pack(&mut self, names: ProofNames<'_>, found: FoundPack<'_>) -> usize {
        let length = pack_length(names, found);
        let pack = self.packs.add(found, length, priced_of(found));
        if pack != NONE {
            for at in 0..found.count {
                self.mark_list(names, item_or(found.lists, at, NONE));
            }
        }
        pack
    }

    /// Makes the length of a leaf at least that of the line of a leaf Pack.
    fn lengthen(&mut self, node: usize, pack: usize) {
        let mut own = self.node_at(node);
        let length = self.packs.length(pack);
        let more = length.saturating_sub(own.length);
        own.length = own.length.saturating_add(more);
        put_item(&mut self.nodes, node, own);
        self.length = self.length.saturating_add(more);
    }

    /// Says of a new leaf up to which claim its weights hold, in cycles, and which leaf Pack it takes over from the case that it is a part
    /// of, NONE where there is none.
    pub fn take_over_pack(&mut self, node: usize, sum: u64, pack: usize) {
        let own = NONE;
        let taken = pack;
        self.packs.set_choice(node, LeafChoice { sum, taken, own });
        self.lengthen(node, pack);
    }

    /// Gives a leaf a leaf Pack of its own.
    pub fn give_pack(&mut self, node: usize, pack: usize) {
        let mut choice = self.packs.choice(node);
        choice.own = pack;
        self.packs.set_choice(node, choice);
        self.lengthen(node, pack);
    }

    /// The claim of a leaf Pack, in cycles; 0 where there is none.
    pub fn claim_of(&self, pack: usize) -> u64 {
        self.packs.claim(pack)
    }

    /// The cycles of a cell of a leaf Pack.
    pub fn grain_of(&self, pack: usize) -> u64 {
        self.packs.grain(pack)
    }

    /// How many prices and how many lists a leaf Pack has.
    pub fn sizes_of(&self, pack: usize) -> (u64, u64) {
        (self.packs.priced(pack), self.packs.lists(pack) as u64)
    }

    /// Whether a leaf is a leaf Pack in a text of this claim.
    pub fn is_packed(&self, node: usize, claim: u64) -> bool {
        self.packs.of_node(node, claim) != NONE
    }

    /// Writes the weights of a node, as precise as they were.
    pub fn load(&self, node: usize, weights: &mut LeafWeights) {
        weights.clear_weights();
        let at = self.node_at(node).weights;
        let ranks = self.pool_at(at.saturating_add(1)) as usize;
        weights.wire = self.pool_at(at);
        let first = at.saturating_add(3);
        for rank in 0..ranks {
            let weight = self.pool_at(first.saturating_add(rank));
            put_item(&mut weights.ranks, rank, weight);
        }
        self.load_uses(at, first.saturating_add(ranks), weights);
    }

    /// Writes the weights of lists of a node, the weights of which stand from a place of the pool on.
    fn load_uses(&self, at: usize, first: usize, weights: &mut LeafWeights) {
        for place in 0..self.pool_at(at.saturating_add(2)) as usize {
            let pair = first.saturating_add(place.saturating_mul(2));
            let list = self.pool_at(pair) as usize;
            weights.add_list(list, self.pool_at(pair.saturating_add(1)));
        }
    }

    /// Divides a leaf; `length` are the bytes of its line then.
    fn divide_node(
        &mut self,
        node: usize,
        rule: NodeRule,
        length: u64,
        first: usize,
        second: usize,
    ) {
        let mut own = self.node_at(node);
        own.rule = rule;
        own.first = first;
        own.second = second;
        put_item(&mut self.nodes, node, own);
        let longer = self.length.saturating_add(length);
        self.length = longer.saturating_sub(own.length);
    }

    /// Divides a leaf by the width of a rank.
    pub fn divide_wide(
        &mut self,
        node: usize,
        rank: usize,
        width: usize,
        first: usize,
        second: usize,
    ) {
        let length = wide_length(rank as u64, width as u64);
        self.divide_node(node, NodeRule::Wide { rank, width }, length, first, second);
    }

    /// Adds the twins of a rank, which is the first of some ranks, to the pool.
    fn push_twins(&mut self, ranks: &[usize]) {
        for at in 1..ranks.len() {
            self.push(item_or(ranks, at, 0) as u64);
        }
    }

    /// Divides a leaf by whether a wired module is on the first of some ranks, the twins of which are the others.
    pub fn divide_place(
        &mut self,
        names: ProofNames<'_>,
        node: usize,
        module: usize,
        ranks: &[usize],
        first: usize,
        second: usize,
    ) {
        let start = self.pooled;
        let rank = item_or(ranks, 0, 0);
        let count = ranks.len().saturating_sub(1);
        self.push_twins(ranks);
        let number = item_or(&names.chip.number, module, 0);
        let length = place_length(number, rank as u64, count as u64);
        let rule = NodeRule::Place {
            module,
            rank,
            start,
            count,
        };
        self.divide_node(node, rule, length, first, second);
    }

    /// How a node is divided.
    pub fn rule_at(&self, node: usize) -> NodeRule {
        self.node_at(node).rule
    }

    /// The branches of a node, NONE where it has none.
    pub(crate) fn branches(&self, node: usize) -> (usize, usize) {
        let own = self.node_at(node);
        (own.first, own.second)
    }

    /// How the weights of a node are scaled in its line.
    pub(crate) fn digits_at(&self, node: usize) -> WeightDigits {
        self.node_at(node).digits
    }

    /// How a node is divided among the first `nodes` nodes.
    pub fn rule_among(&self, node: usize, nodes: usize) -> NodeRule {
        let own = self.node_at(node);
        if own.first >= nodes || own.second >= nodes {
            return NodeRule::Leaf;
        }
        own.rule
    }
}
