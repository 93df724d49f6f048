//! The leaves Pack of a search: when one is looked for, and what nodes take over from the divided ones.

use crate::warms::WarmRing;
use crate::weighing::CaseWeighing;
use crate::{ListUses, set_times, take_modules, take_ranks, write_start};
use case_tables::{Case, LISTS_MOST, LeafWeights};
use case_tree::{CaseTree, FoundPack, ProofNames, TEXT_MOST};
use leaf_values::LeafBasis;
use outside::{NoMemory, both};
use pack_search::{Asked, Found, PackSearch, Warm};
use pack_values::{PackCase, Prices, leaf_work};
use std::alloc::Global;
use tables::{NONE, filled, item_or, put_item};

/// After so many attempts in vain on the way to a node there are no more.
const FAILS_MOST: u32 = 64;
/// The work of all attempts: at first, for each node, and at most.
const WORK_FIRST: u64 = 600_000_000;

const WORK_EACH: u64 = 2_000_000;

const WORK_MOST: u64 = 6_000_000_000;
/// The most work that the check of a text does for leaves Pack.
const CHECK_MOST: u64 = 1 << 34;
/// No attempt left anything.
const NO_WARM: u64 = u64::MAX;

/// What is kept of a node.
#[derive(Clone, Copy)]
struct PackNote {
    /// Where its leaf Pack stands in the tree, NONE where it has none.
    pack: usize,
    /// The least claim that failed on the way to it, in cycles.
    far: u64,
    /// Attempts in vain on the way to it since one that wasn't.
    fails: u32,
    /// Whether a leaf Pack was looked for.
    tried: bool,
    /// What the last attempt on the way to it left.
    warm: u64,
    /// The work of checking its leaf Pack.
    check: u64,
}

/// A node of which nothing is known: it isn't tried.
const NO_NOTE: PackNote = PackNote {
    pack: NONE,
    far: 0,
    fails: 0,
    tried: true,
    warm: NO_WARM,
    check: 0,
};

/// The case at hand as a search for its leaf Pack has it.
#[derive(Drop)]
struct PackedCase {
    case: PackCase,
    /// What each module costs at least at the weights of the leaf Sum.
    costs: Vec<u128>,
    start: Prices,
    /// How many lists the leaf Sum has.
    listed: usize,
    /// Their places.
    lists: Vec<usize>,
    /// What attempts before left.
    warm: Warm,
}

/// The leaves Pack of a search.
#[derive(Drop)]
pub(crate) struct NodePacks {
    packed: PackedCase,
    search: PackSearch,
    warms: WarmRing,
    notes: Vec<PackNote>,
    /// The work of all attempts so far.
    work: u64,
    /// The work of checking the leaves Pack of the tree.
    check: u64,
    /// The claim that is wanted, in cycles.
    goal: u64,
    /// Whether a leaf Pack was found.
    found: bool,
}

/// The work that all attempts may come to, where a tree has so many nodes.
fn work_for(made: usize) -> u64 {
    WORK_EACH
        .saturating_mul(made as u64)
        .saturating_add(WORK_FIRST)
        .min(WORK_MOST)
}

/// The first `count` items.
fn front<T>(list: &[T], count: usize) -> &[T] {
    if count > list.len() {
        return list;
    }
    &list[0..count]
}

impl PackedCase {
    /// Room for the cases of a chip. `NoMemory` where memory runs out.
    fn new(alloc: Global, basis: &LeafBasis) -> Result<PackedCase, NoMemory> {
        let modules = basis.chip.modules;
        let mut case = PackCase::new(alloc, basis.chip.wires, modules)?;
        set_times(&basis.chip, &mut case);
        PackedCase::with_case(alloc, modules, case)
    }

    /// Room for the cases of a chip, with its first case.
    fn with_case(alloc: Global, modules: usize, case: PackCase) -> Result<PackedCase, NoMemory> {
        let prices = both(Prices::new(alloc, modules), filled(alloc, 0u128, modules));
        let others = both(Warm::new(alloc, modules), filled(alloc, NONE, LISTS_MOST));
        let ((start, costs), (warm, lists)) = both(prices, others)?;
        Ok(PackedCase {
            case,
            costs,
            start,
            listed: 0,
            lists,
            warm,
        })
    }

    /// Takes a case.
    fn take_case(&mut self, case: &Case) {
        take_ranks(case, &mut self.case);
        take_modules(case, &mut self.case);
    }

    /// Takes the lists of the leaf Sum.
    fn take_lists(&mut self, weights: &LeafWeights) {
        self.listed = weights.count;
        for at in 0..weights.count {
            put_item(&mut self.lists, at, weights.list_at(at));
        }
    }

    /// Takes what the leaf Sum of the case at hand says.
    fn take_sum(&mut self, basis: &LeafBasis, weighing: &mut CaseWeighing) {
        weighing.write_costs(basis, &mut self.costs);
        write_start(&self.costs, weighing.weights(), &mut self.start);
        self.take_lists(weighing.weights());
    }
}

impl NodePacks {
    /// Room for the leaves Pack of `nodes_most` nodes. `NoMemory` where memory runs out.
    pub fn new(alloc: Global, basis: &LeafBasis, nodes_most: usize) -> Result<NodePacks, NoMemory> {
        let (modules, goal) = (basis.chip.modules, basis.chip.goal);
        let mut first = NO_NOTE;
        first.far = goal;
        first.tried = modules == 0;
        let finder = both(
            PackedCase::new(alloc, basis),
            PackSearch::new(alloc, modules, basis.chip.wires),
        );
        let nodes = both(
            WarmRing::new(alloc, modules, nodes_most),
            filled(alloc, first, nodes_most),
        );
        let ((packed, search), (warms, notes)) = both(finder, nodes)?;
        Ok(NodePacks {
            packed,
            search,
            warms,
            notes,
            work: 0,
            check: 0,
            goal,
            found: false,
        })
    }

    /// Whether a leaf Pack was found.
    pub fn found(&self) -> bool {
        self.found
    }

    /// Whether a text of the tree keeps within the work of a check.
    pub fn is_checkable(&self) -> bool {
        self.check <= CHECK_MOST
    }

    /// What is kept of a node.
    fn note_of(&self, node: usize) -> PackNote {
        item_or(&self.notes, node, NO_NOTE)
    }

    /// Whether a leaf Pack is looked for at a node of a tree.
    pub fn may_try(&self, tree: &CaseTree, node: usize) -> bool {
        let note = self.note_of(node);
        !note.tried
            && note.fails < FAILS_MOST
            && self.work < work_for(tree.made)
            && self.check < CHECK_MOST / 2
            && tree.length < TEXT_MOST / 2
            && tree.has_pack_room()
    }

    /// The work of checking a leaf Pack of the tree in a case, the widths of which are taken.
    fn check_of(&self, tree: &CaseTree, pack: usize) -> u64 {
        let (prices, lists) = tree.sizes_of(pack);
        let (claim, grain) = (tree.claim_of(pack), tree.grain_of(pack));
        leaf_work(&self.packed.case, claim, grain, prices, lists)
    }

    /// Notes the work of checking the leaf Pack of a node.
    fn count_check(&mut self, note: &mut PackNote, check: u64) {
        let more = check.saturating_sub(note.check);
        note.check = note.check.saturating_add(more);
        self.check = self.check.saturating_add(more);
    }

    /// Takes over what is known of a divided node for a new leaf of its, with a case and weights that show a claim. What the leaf is worth
    /// then, in cycles.
    pub fn take_over(
        &mut self,
        tree: &mut CaseTree,
        case: &Case,
        parent: usize,
        node: usize,
        sum: u64,
    ) -> u64 {
        let mut note = self.note_of(parent);
        note.tried = self.packed.case.modules == 0;
        note.check = 0;
        let claim = tree.claim_of(note.pack);
        if claim > sum {
            tree.take_over_pack(node, sum, note.pack);
            take_ranks(case, &mut self.packed.case);
            let check = self.check_of(tree, note.pack);
            self.count_check(&mut note, check);
        } else {
            tree.take_over_pack(node, sum, NONE);
        }
        put_item(&mut self.notes, node, note);
        sum.max(claim)
    }

    /// Takes over what is known of a divided node for one that is divided too.
    pub fn pass_on(&mut self, parent: usize, node: usize) {
        let mut note = self.note_of(parent);
        note.check = 0;
        put_item(&mut self.notes, node, note);
    }

    /// Says that a node is divided: its leaf Pack isn't checked any more.
    pub fn divide(&mut self, node: usize) {
        let mut note = self.note_of(node);
        self.check = self.check.saturating_sub(note.check);
        note.check = 0;
        put_item(&mut self.notes, node, note);
    }

    /// Looks for a leaf Pack of the case at hand, of a claim above a value.
    fn look(&mut self, basis: &LeafBasis, node: usize, value: u64) -> Found {
        let note = self.note_of(node);
        self.warms.load(note.warm, &mut self.packed.warm);
        let uses = ListUses { basis };
        let asked = Asked {
            value,
            goal: self.goal,
            far: note.far,
            root: node == 0,
            lists: front(&self.packed.lists, self.packed.listed),
            start: &self.packed.start,
            work_most: WORK_MOST.saturating_sub(self.work),
        };
        let found = self
            .search
            .packed(&self.packed.case, &uses, asked, &mut self.packed.warm);
        self.work = self.work.saturating_add(found.work);
        found
    }

    /// Adds the leaf Pack that was found to the tree. Where it stands, NONE where there is no room.
    fn add_found(&self, basis: &LeafBasis, tree: &mut CaseTree) -> usize {
        let leaf = self.search.leaf();
        let names = ProofNames {
            chip: &basis.chip,
            lists: &basis.lists,
        };
        let found = FoundPack {
            claim: leaf.claim,
            grain: leaf.grain,
            prices: &leaf.prices.modules,
            count: leaf.prices.count,
            lists: &leaf.prices.lists,
            weights: &leaf.prices.weights,
        };
        tree.add_pack(names, found)
    }

    /// Looks for a leaf Pack of a node, whose case is at hand with its slots and the weights of its leaf Sum. What the node is worth
    /// then, in cycles: more than its value where a leaf Pack was found.
    pub fn try_node(
        &mut self,
        basis: &LeafBasis,
        weighing: &mut CaseWeighing,
        tree: &mut CaseTree,
        node: usize,
        value: u64,
    ) -> u64 {
        self.packed.take_case(&weighing.case);
        self.packed.take_sum(basis, weighing);
        let found = self.look(basis, node, value);
        let mut note = self.note_of(node);
        note.tried = true;
        note.far = found.far;
        note.warm = self.warms.keep(&self.packed.warm);
        note.fails = note.fails.saturating_add(1);
        let mut worth = value;
        if found.claim > value {
            let pack = self.add_found(basis, tree);
            if pack != NONE {
                tree.give_pack(node, pack);
                let check = self.check_of(tree, pack);
                self.count_check(&mut note, check);
                note.pack = pack;
                note.fails = 0;
                self.found = true;
                worth = found.claim;
            }
        }
        put_item(&mut self.notes, node, note);
        worth
    }
}
