//! The search: the weakest case is divided next.
use crate::divisions::Division;
use crate::packs::NodePacks;
use crate::queue::{NO_ENTRY, NodeEntry, NodeQueue};
use crate::weighing::{CaseWeighing, CaseWorth};
use case_tables::{ChipTables, LISTS_MOST, RANKS_MOST, tables_of};
use case_tree::{CaseTree, NodeRule, ProofNames, TEXT_MOST, proof_of};
use leaf_values::LeafBasis;
use live_tests::Problem;
use outside::{NoMemory, both};
use plan_model::Proof;
use std::alloc::Global;
use tables::{NONE, filled, item_or, put_item};

/// How often lists are looked for in the first case.
const FIRST_ROUNDS: usize = 40;
/// How often in a later one.
const ROUNDS: usize = 6;
/// A text has fewer nodes than this: each takes 6 bytes at least.
const NODES_MOST: u64 = 180_000;
/// Room for the weights of all nodes.
const POOL_MOST: usize = 1 << 20;
/// Room for the numbers of all leaves Pack.
const PACKS_MOST: usize = 1 << 20;
/// With fewer digits the weights of an open case hardly hold at all that they are worth, and are not tried.
const OPEN_DIGITS: u32 = 4;
/// The nodes that a division adds, at most.
const MORE_MOST: usize = 4;

/// A search for a proof that no plan of a chip ends before a claim. It owes nothing of what it finds: whoever says so has the
/// proof checked.
#[derive(Drop)]
pub struct Search {
    /// What all leaves ask.
    basis: LeafBasis,
    /// The case at hand, and what it is weighed with.
    weighing: CaseWeighing,
    /// The cases so far.
    tree: CaseTree,
    /// The open ones.
    queue: NodeQueue,
    /// What is kept of each node.
    entries: Vec<NodeEntry>,
    /// Their leaves Pack, where these are looked for.
    packs: Option<NodePacks>,
    /// Nodes on the way to one.
    path: Vec<usize>,
    /// A rank and its twins.
    ranks: Vec<usize>,
    /// The nodes that a tree may have.
    nodes: u64,
    /// The claim so far, in cycles, and the nodes of the tree that first had it.
    claim: u64,
    front: usize,
    done: bool,
}

/// How many nodes there is room for.
fn room_for(nodes: u64) -> usize {
    (nodes.min(NODES_MOST) as usize).saturating_add(MORE_MOST)
}

/// What is kept of the leaves Pack of a search, where these are looked for.
fn packs_of(
    alloc: Global,
    basis: &LeafBasis,
    nodes: u64,
    packs: bool,
) -> Result<Option<NodePacks>, NoMemory> {
    if !packs {
        return Ok(None);
    }
    let packs = NodePacks::new(alloc, basis, room_for(nodes))?;
    Ok(Some(packs))
}

/// The first `count` items.
fn front(list: &[usize], count: usize) -> &[usize] {
    if count > list.len() {
        return list;
    }
    &list[0..count]
}

/// How many nodes a division adds.
fn more_nodes(division: Division) -> usize {
    match division {
        Division::Rank { rank: _, width } => { if width > 0 { 4 } else { 2 } }
        _ => 2,
    }
}

impl Search {
    /// A search for a proof of at most `nodes` nodes for a claim up to the goal, the cycles of a plan, where the chip and its limits
    /// are resolved. `packs` says whether leaves Pack are looked for. All memory that it takes but for the proof is taken here; `NoMemory`
    /// where there is none.
    pub fn new(
        alloc: Global,
        problem: &Problem<'_>,
        goal: u64,
        nodes: u64,
        packs: bool,
    ) -> Result<Search, NoMemory> {
        let chip = tables_of(alloc, problem, goal)?;
        Search::over(alloc, chip, nodes, packs)
    }

    /// A search over the tables of a chip. `NoMemory` where memory runs out.
    fn over(alloc: Global, chip: ChipTables, nodes: u64, packs: bool) -> Result<Search, NoMemory> {
        let basis = LeafBasis::new(alloc, chip)?;
        let weighing = CaseWeighing::new(alloc, &basis.chip);
        let packs = packs_of(alloc, &basis, nodes, packs);
        let mut search = Search::with(alloc, basis, both(weighing, packs), nodes)?;
        let begun = search.begin(alloc);
        let (search, ()) = both(Ok(search), begun)?;
        Ok(search)
    }

    /// A search of no nodes yet. `NoMemory` where memory runs out.
    fn with(
        alloc: Global,
        basis: LeafBasis,
        finders: Result<(CaseWeighing, Option<NodePacks>), NoMemory>,
        nodes: u64,
    ) -> Result<Search, NoMemory> {
        let (weighing, packs) = finders?;
        let most = room_for(nodes);
        let packs_most = if packs.is_some() { PACKS_MOST } else { 0 };
        let cases = both(
            CaseTree::new(alloc, most, POOL_MOST, basis.chip.modules, packs_most),
            NodeQueue::new(alloc, most),
        );
        let notes = both(filled(alloc, NO_ENTRY, most), filled(alloc, 0usize, most));
        let grown = both(both(cases, notes), filled(alloc, 0usize, RANKS_MOST));
        let made = both(Ok((basis, weighing, packs)), grown)?;
        let ((basis, weighing, packs), (((tree, queue), (entries, path)), ranks)) = made;
        Ok(Search {
            basis,
            weighing,
            tree,
            queue,
            entries,
            packs,
            path,
            ranks,
            nodes,
            claim: 0,
            front: 1,
            done: false,
        })
    }

    /// Makes the first node.
    fn begin(&mut self, alloc: Global) -> Result<(), NoMemory> {
        let worth = self
            .weighing
            .weigh_first(alloc, &mut self.basis, FIRST_ROUNDS)?;
        self.add(0, false, worth);
        self.note_claim();
        Ok(())
    }

    /// Adds the case at hand to the tree.
    fn add(&mut self, parent: usize, second: bool, worth: CaseWorth) {
        let open = worth.value < self.basis.chip.goal;
        let from = if open { OPEN_DIGITS } else { 1 };
        let digits = self.weighing.digits_at(&self.basis, worth.value, from);
        let node = self.add_leaf(digits);
        let entry = NodeEntry {
            value: self.take_over(parent, node, worth.value),
            division: worth.division,
            parent,
            second,
        };
        put_item(&mut self.entries, node, entry);
        if open {
            self.queue.push(&self.entries, node);
        }
    }

    /// What a new leaf for the case at hand is worth whose weights show a claim: more, where the node that is divided has a leaf Pack of
    /// a greater one.
    fn take_over(&mut self, parent: usize, node: usize, sum: u64) -> u64 {
        match &mut self.packs {
            Some(packs) => {
                packs.take_over(&mut self.tree, &self.weighing.case, parent, node, sum)
            }
            None => sum,
        }
    }

    /// Adds a leaf with the weights at hand.
    fn add_leaf(&mut self, digits: u32) -> usize {
        let names = ProofNames {
            chip: &self.basis.chip,
            lists: &self.basis.lists,
        };
        self.tree.add(names, self.weighing.weights(), digits)
    }

    /// Weighs the case at hand and adds it to the tree.
    fn weigh(&mut self, parent: usize, second: bool) {
        let worth = self.weighing.weigh(&mut self.basis, ROUNDS);
        self.add(parent, second, worth);
    }

    /// The least value of an open case; the goal where none is open.
    fn least_value(&self) -> u64 {
        let first = self.queue.first();
        if first == NONE {
            return self.basis.chip.goal;
        }
        item_or(&self.entries, first, NO_ENTRY).value
    }

    /// Whether a text of the tree keeps within the work of a check.
    fn is_checkable(&self) -> bool {
        match &self.packs {
            Some(packs) => packs.is_checkable(),
            None => true,
        }
    }

    /// Notes the claim of the tree where it is greater than before.
    fn note_claim(&mut self) {
        let value = self.least_value();
        if value > self.claim && self.tree.length <= TEXT_MOST && self.is_checkable() {
            self.claim = value;
            self.front = self.tree.made;
        }
    }

    /// Writes the nodes on the way from the first one to a node, that node first: how many there are.
    fn take_path(&mut self, node: usize) -> usize {
        let mut at = node;
        let mut count: usize = 0;
        for _ in 0..self.tree.made {
            if at == 0 {
                break;
            }
            put_item(&mut self.path, count, at);
            count = count.saturating_add(1);
            at = item_or(&self.entries, at, NO_ENTRY).parent;
        }
        count
    }

    /// Writes a rank and the twins at a place of the tree's pool.
    fn take_twins(&mut self, rank: usize, start: usize, count: usize) {
        put_item(&mut self.ranks, 0, rank);
        for at in 0..count {
            let twin = self.tree.pool_at(start.saturating_add(at)) as usize;
            put_item(&mut self.ranks, at.saturating_add(1), twin);
        }
    }

    /// Places a module in the case at hand.
    fn place(&mut self, module: usize, count: usize, second: bool) {
        let ranks = front(&self.ranks, count.saturating_add(1));
        self.weighing.case.place(module, ranks, second);
    }

    /// Makes the case at hand, which is that of a node, the one of a branch.
    fn enter(&mut self, node: usize, second: bool) {
        match self.tree.rule_at(node) {
            NodeRule::Leaf => {}
            NodeRule::Wide { rank, width } => self.weighing.case.wide(rank, width, second),
            NodeRule::Place {
                module,
                rank,
                start,
                count,
            } => {
                self.take_twins(rank, start, count);
                self.place(module, count, second);
            }
        }
    }

    /// Makes the case of a node, tightened.
    fn make_case(&mut self, node: usize) {
        self.weighing.case.clear_ranks();
        let count = self.take_path(node);
        for step in 0..count {
            let place = count.saturating_sub(step).saturating_sub(1);
            let entry = item_or(&self.entries, item_or(&self.path, place, 0), NO_ENTRY);
            self.enter(entry.parent, entry.second);
        }
        self.weighing.case.tighten();
    }

    /// Makes the case of a branch of a node, and weighs it.
    fn make_branch(&mut self, node: usize, second: bool) {
        self.make_case(node);
        self.enter(node, second);
        self.weigh(node, second);
    }

    /// Divides a node by the width of a rank.
    fn divide_width(&mut self, node: usize, rank: usize, width: usize) {
        let next = self.tree.made;
        self.tree
            .divide_wide(node, rank, width, next, next.saturating_add(1));
        self.make_branch(node, false);
        self.make_branch(node, true);
    }

    /// Adds a node without weights that will be divided.
    fn add_inner(&mut self, parent: usize) -> usize {
        self.weighing.clear_weights();
        let node = self.add_leaf(1);
        let entry = NodeEntry {
            value: 0,
            division: Division::Nothing,
            parent,
            second: false,
        };
        put_item(&mut self.entries, node, entry);
        if let Some(packs) = &mut self.packs {
            packs.pass_on(parent, node);
        }
        node
    }

    /// Divides a node by one more rank: of no wires, of at most `width`, of more.
    fn divide_rank(&mut self, node: usize, rank: usize, width: usize) {
        if width == 0 {
            self.divide_width(node, rank, 0);
            return;
        }
        let next = self.tree.made;
        self.tree
            .divide_wide(node, rank, width, next, next.saturating_add(1));
        let inner = self.add_inner(node);
        self.make_branch(node, true);
        self.divide_width(inner, rank, 0);
    }

    /// Writes a rank and its twins in the case at hand: how many twins there are.
    fn find_twins(&mut self, rank: usize) -> usize {
        put_item(&mut self.ranks, 0, rank);
        let mut count: usize = 0;
        for other in 0..self.weighing.case.known {
            if self.weighing.case.is_twin(rank, other) {
                count = count.saturating_add(1);
                put_item(&mut self.ranks, count, other);
            }
        }
        count
    }

    /// Divides a node, whose case is at hand, by whether a module is on a rank.
    fn divide_place(&mut self, node: usize, module: usize, rank: usize) {
        let count = self.find_twins(rank);
        let next = self.tree.made;
        let names = ProofNames {
            chip: &self.basis.chip,
            lists: &self.basis.lists,
        };
        let ranks = front(&self.ranks, count.saturating_add(1));
        self.tree
            .divide_place(names, node, module, ranks, next, next.saturating_add(1));
        self.make_branch(node, false);
        self.make_branch(node, true);
    }

    /// Divides a node.
    fn divide_node(&mut self, node: usize, division: Division) {
        if let Some(packs) = &mut self.packs {
            packs.divide(node);
        }
        self.make_case(node);
        self.weighing.divided.take_low(&self.weighing.case);
        self.tree.load(node, &mut self.weighing.divided.weights);
        match division {
            Division::Nothing => {}
            Division::Width { rank, width } => self.divide_width(node, rank, width),
            Division::Rank { rank, width } => self.divide_rank(node, rank, width),
            Division::Place { module, rank } => self.divide_place(node, module, rank),
        }
    }

    /// Whether there is room for the nodes of a division.
    fn has_room(&self, division: Division) -> bool {
        let more = more_nodes(division);
        let made = self.tree.made.saturating_add(more) as u64;
        if made > self.nodes || self.tree.length > TEXT_MOST {
            return false;
        }
        let resources = RANKS_MOST.saturating_add(LISTS_MOST);
        self.tree.has_room(more, resources)
    }

    /// Whether a leaf Pack is looked for at a node.
    fn may_try(&self, node: usize) -> bool {
        match &self.packs {
            Some(packs) => packs.may_try(&self.tree, node),
            None => false,
        }
    }

    /// Looks for a leaf Pack of a node, whose case is at hand with its slots and weights. What the node is worth then.
    fn worth_with_pack(&mut self, node: usize, value: u64) -> u64 {
        match &mut self.packs {
            Some(packs) => {
                packs.try_node(&self.basis, &mut self.weighing, &mut self.tree, node, value)
            }
            None => value,
        }
    }

    /// Looks for a leaf Pack of the weakest open case, where it is time to. Whether one was found: the case is open no more then, or has
    /// another place among the open ones.
    fn try_pack(&mut self) -> bool {
        let node = self.queue.first();
        if !self.may_try(node) {
            return false;
        }
        self.make_case(node);
        self.weighing.take_case(&self.basis);
        self.tree.load(node, self.weighing.set_weights());
        let mut entry = item_or(&self.entries, node, NO_ENTRY);
        let worth = self.worth_with_pack(node, entry.value);
        if worth <= entry.value {
            return false;
        }
        self.queue.drop_first(&self.entries);
        entry.value = worth;
        put_item(&mut self.entries, node, entry);
        if worth < self.basis.chip.goal {
            self.queue.push(&self.entries, node);
        }
        self.note_claim();
        true
    }

    /// Looks for a leaf Pack of the weakest open case; where none is found, divides it. The search is done where there is no such case, or
    /// it can't be divided.
    fn step(&mut self) {
        if self.try_pack() {
            return;
        }
        let node = self.queue.first();
        let division = item_or(&self.entries, node, NO_ENTRY).division;
        if division == Division::Nothing || !self.has_room(division) {
            self.done = true;
            return;
        }
        self.queue.drop_first(&self.entries);
        self.divide_node(node, division);
        self.note_claim();
    }

    /// Goes on until `made` nodes are made, or nothing is left to do.
    pub fn go_on(&mut self, made: u64) {
        if self.done {
            return;
        }
        for _ in 0..made.saturating_mul(2) {
            if self.done || self.tree.made as u64 >= made {
                break;
            }
            self.step();
        }
        if self.tree.made as u64 >= self.nodes {
            self.try_packs();
            self.done = true;
        }
        if self.done {
            self.shorten_all();
        }
    }

    /// Looks for leaves Pack of the weakest open case until none is found.
    fn try_packs(&mut self) {
        for _ in 0..self.tree.made {
            if !self.try_pack() {
                break;
            }
        }
    }

    /// Gives an open leaf the fewest digits with which it holds at the claim.
    fn shorten(&mut self, node: usize) {
        self.make_case(node);
        self.tree.load(node, self.weighing.set_weights());
        if self.weighing.take_case(&self.basis) {
            let digits = self.weighing.digits_at(&self.basis, self.claim, 1);
            self.tree.set_digits(node, self.weighing.weights(), digits);
        }
    }

    /// Whether a node is an open leaf whose weights hold at the claim.
    fn is_shortened(&self, node: usize) -> bool {
        item_or(&self.entries, node, NO_ENTRY).value < self.basis.chip.goal
            && self.tree.rule_among(node, self.front) == NodeRule::Leaf
            && !self.tree.is_packed(node, self.claim)
    }

    /// Gives each open leaf the fewest digits with which it holds at the claim.
    fn shorten_all(&mut self) {
        for node in 0..self.front {
            if self.is_shortened(node) {
                self.shorten(node);
            }
        }
    }

    /// How many nodes were made.
    pub fn made(&self) -> u64 {
        self.tree.made as u64
    }

    /// The claim so far, in cycles: at most the goal.
    pub fn claim(&self) -> u64 {
        self.claim
    }

    /// Whether a leaf Pack was found. Where none was, the search went as one that looks for none.
    pub fn found_pack(&self) -> bool {
        match &self.packs {
            Some(packs) => packs.found(),
            None => false,
        }
    }

    /// The proof of the claim so far. `NoMemory` where memory runs out.
    pub fn proof(&self, alloc: Global) -> Result<Proof, NoMemory> {
        let names = ProofNames {
            chip: &self.basis.chip,
            lists: &self.basis.lists,
        };
        proof_of(alloc, &self.tree, names, self.claim, self.front)
    }

    /// The tables of the chip; all else is freed.
    fn into_chip(self) -> ChipTables {
        let Search { basis, .. } = self;
        let LeafBasis { chip, .. } = basis;
        chip
    }

    /// Ends the search and begins one for the claim of its goal, of as many nodes, that looks for no leaves Pack. Only the tables of the
    /// chip are kept. `NoMemory` where memory runs out.
    pub fn plain_again(self, alloc: Global) -> Result<Search, NoMemory> {
        let nodes = self.nodes;
        Search::over(alloc, self.into_chip(), nodes, false)
    }

    /// Ends the search. (A caller that frees it otherwise is proved for each of its parts anew.)
    pub fn free(self) {
        drop(self);
    }
}
