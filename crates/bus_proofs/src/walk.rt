//! Goes over the nodes of a proof in the order of its text, with the case of each. Splits are kept in a list, so that nothing
//! recurses over the nodes.
ghost use Rattle.std.specs.Prelude.{◌≡◌, ◌+◌, ◌<◌, ◌≤◌, ℕ, true, false, Some, List, IfOk, OnOk, length, slice_get, slice_set};
ghost use Rattle.leaf_bounds.specs.declared.case.CaseRoom.{CaseRoom};
ghost use Rattle.leaf_bounds.specs.declared.basis.Basis.{Basis};
ghost use Rattle.plan_model.specs.Proofs.{LeafValue, SplitValue, OfWide, OfPlace, OfSplit, OfSum, OfPack, OfLeaf, CaseTree, node_value, nodes_of, proof_value, pricing_value, weights_value};
ghost use Rattle.leaf_bounds.specs.Cases.{Case, root_case};
ghost use Rattle.bus_proofs.specs.Cases.{IsPlace, IsWide, NodeCase, in_case};
ghost use Rattle.plan_model.specs.Sayable.{MayBeSaid};
ghost use Rattle.bus_proofs.specs.Bounds.{all_cases};
ghost use Rattle.leaf_bounds.specs.CaseRooms.{IsCaseOf, IsFurther};
ghost use Rattle.leaf_bounds.specs.Bases.{IsBasis, AllKept, chip_of, limits_of, claim_of, proof_of};
ghost use Rattle.leaf_bounds.specs.LeafAnswers.{IsLeafAnswer};
ghost use Rattle.bus_proofs.specs.Walks.{Awaits, FitsLeaves, GoesOn, IsAt, IsBegun, IsChecked, IsForked, IsHere, IsJudged, IsNodeAt, IsRoomFor, IsSecond, IsOpenSplit, branch_later, node_work, split_at};

use crate::ProofFault;
use crate::nodes::{is_wide, placed};
use leaf_bounds::{Basis, CaseRoom, LeafAnswer, LeafRoom, Mark, check_leaf, check_pack};
use plan_model::{Node, Pricing, Proof, Weights};
use soc_model::place_of;

/// A split of which a branch is under way.
#[derive(Clone, Copy, Drop)]
pub(crate) struct OpenSplit {
    /// How much was noted before its branches.
    pub mark: Mark,
    /// The place of its node.
    pub node: usize,
    /// The second branch is under way.
    pub second: bool,
}

/// Where the walk is.
#[derive(Clone, Copy)]
pub(crate) struct WalkSpot {
    /// The place of the node.
    pub node: usize,
    /// How many splits are under way.
    pub depth: usize,
}

/// The node at a place.
fn node_at(proof: &Proof, place: usize) -> &Node
    requires { place < length (proof_value proof.now).nodes }
    ensures { slice_get (proof_value proof.now).nodes place ≡ Some (node_value result.now) }
{
    &proof.nodes[place]
}

/// Notes a split whose first branch begins.
fn note_split(stack: &mut [OpenSplit], at: WalkSpot, mark: Mark)
    requires { at.depth < length stack.old }
    ensures { stack.new
        ≡ slice_set stack.old at.depth (record { mark = mark; node = at.node; second = false }) }
{
    stack[at.depth] = OpenSplit {
        mark,
        node: at.node,
        second: false,
    };
}

/// Begins the first of two cases by the width of a rank, where they keep their rule. The answer is whether they do.
fn begin_wide(
    basis: &Basis<'_>,
    at: WalkSpot,
    case: &mut CaseRoom,
    stack: &mut [OpenSplit],
    rank: u64,
    width: u64,
) -> bool
    requires room { IsRoomFor basis.now case.old }
    requires known { (c : Case) × IsCaseOf case.old c }
    requires node { IsNodeAt basis.now at.node (OfSplit (OfWide rank width)) }
    requires depth { at.depth < length stack.old }
    ensures further { IsFurther case.old case.new }
    ensures room { result ≡ true → IsRoomFor basis.now case.new }
    ensures begun { result ≡ true → (root : CaseRoom) (c : Case) → IsFurther root case.old →
        IsCaseOf case.old c →
        IsBegun basis.now root stack.old stack.new at.depth case.old case.new c
        (OfWide rank width) }
    ensures broken { result ≡ false → (c : Case) → IsCaseOf case.old c →
        IsWide (limits_of basis.now).wires c rank width → ⊥ }
{
    if !is_wide(case, rank, width) {
        return false;
    }
    let mark = case.mark();
    note_split(stack, at, mark);
    case.narrow(rank as usize, width);
    true
}

/// Begins the first of two cases by the place of a module, where they keep their rule. The answer is whether they do.
fn begin_place(
    basis: &Basis<'_>,
    at: WalkSpot,
    case: &mut CaseRoom,
    stack: &mut [OpenSplit],
    number: u64,
    rank: u64,
    twins: &[u64],
) -> bool
    requires basis { IsBasis basis.now }
    requires room { IsRoomFor basis.now case.old }
    requires known { (c : Case) × IsCaseOf case.old c }
    requires node { IsNodeAt basis.now at.node (OfSplit (OfPlace number rank twins.now)) }
    requires depth { at.depth < length stack.old }
    ensures further { IsFurther case.old case.new }
    ensures room { result ≡ true → IsRoomFor basis.now case.new }
    ensures begun { result ≡ true → (root : CaseRoom) (c : Case) → IsFurther root case.old →
        IsCaseOf case.old c →
        IsBegun basis.now root stack.old stack.new at.depth case.old case.new c
        (OfPlace number rank twins.now) }
    ensures broken { result ≡ false → (c : Case) → IsCaseOf case.old c →
        IsPlace (chip_of basis.now) c number rank twins.now → ⊥ }
{
    match placed(basis, case, number, rank, twins) {
        Some(place) => {
            let mark = case.mark();
            note_split(stack, at, mark);
            case.place_on(place, rank as usize);
            true
        }
        None => false,
    }
}

/// The second of two cases by the place of a module.
fn off_ranks(basis: &Basis<'_>, case: &mut CaseRoom, number: u64, rank: u64, twins: &[u64])
    requires basis { IsBasis basis.now }
    requires room { IsRoomFor basis.now case.old }
    requires forked { (c : Case) × IsCaseOf case.old c
        × IsForked (chip_of basis.now) c (OfPlace number rank twins.now) }
    ensures room { IsRoomFor basis.now case.new }
    ensures further { IsFurther case.old case.new }
    ensures case { (c : Case) → IsCaseOf case.old c →
        IsCaseOf case.new (branch_later (chip_of basis.now) c (OfPlace number rank twins.now)) }
{
    let Some(place) = place_of(basis.soc, number) else {
        return;
    };
    case.place_off(place, rank as usize, twins);
}

/// The second branch of the split of a node, from the case before its branches.
fn take_second(basis: &Basis<'_>, case: &mut CaseRoom, node: &Node)
    requires basis { IsBasis basis.now }
    requires room { IsRoomFor basis.now case.old }
    requires forked { (c : Case) × (split : SplitValue) × IsCaseOf case.old c
        × IsForked (chip_of basis.now) c split × (node_value node.now ≡ OfSplit split) }
    ensures room { IsRoomFor basis.now case.new }
    ensures further { IsFurther case.old case.new }
    ensures case { (c : Case) (split : SplitValue) → IsCaseOf case.old c →
        node_value node.now ≡ OfSplit split →
        IsCaseOf case.new (branch_later (chip_of basis.now) c split) }
{
    match node {
        Node::Wide { rank, width } => case.widen(*rank as usize, *width),
        Node::Place {
            module,
            rank,
            twins,
        } => off_ranks(basis, case, *module, *rank, twins),
        Node::Sum { .. } | Node::Pack { .. } => {}
    }
}

/// Begins the second branch of the last split that is under way.
fn begin_second(basis: &Basis<'_>, case: &mut CaseRoom, stack: &mut [OpenSplit], last: usize)
    requires basis { IsBasis basis.now }
    requires room { last < length stack.old }
    requires opened { (root : CaseRoom) × (before : CaseRoom) × (c : Case) × (split : SplitValue) ×
        IsOpenSplit basis.now root case.old (split_at stack.old last) before c split }
    ensures stack { stack.new
        ≡ slice_set stack.old last (record (split_at stack.old last) { second = true }) }
    ensures room { IsRoomFor basis.now case.new }
    ensures second { (root before : CaseRoom) (c : Case) (split : SplitValue) →
        IsOpenSplit basis.now root case.old (split_at stack.old last) before c split →
        IsSecond basis.now before case.new c split }
{
    let opened = stack[last];
    stack[last].second = true;
    case.undo(opened.mark);
    take_second(basis, case, node_at(basis.proof, opened.node));
}

/// After a leaf: leaves the splits of which both branches are over, and begins the second branch of the one before them. The
/// answer is how many splits are under way then.
fn next_branch(
    basis: &Basis<'_>,
    case: &mut CaseRoom,
    stack: &mut [OpenSplit],
    under_way: usize,
) -> usize
    requires basis { IsBasis basis.now }
    requires room { IsRoomFor basis.now case.old }
    requires stack { under_way ≤ length stack.old }
    requires awaits { (root : CaseRoom) × (left : List NodeCase) × IsFurther root case.old ×
        Awaits basis.now root stack.old under_way case.old left }
    ensures room { IsRoomFor basis.now case.new }
    ensures few { result ≤ under_way }
    ensures further { (root : CaseRoom) (left : List NodeCase) → IsFurther root case.old →
        Awaits basis.now root stack.old under_way case.old left →
        IsFurther root case.new }
    ensures goes_on { (root : CaseRoom) (left : List NodeCase) → IsFurther root case.old →
        Awaits basis.now root stack.old under_way case.old left →
        GoesOn basis.now root stack.new result case.new left }
{
    let mut depth = under_way;
    while depth > 0 {
        if !stack[depth - 1].second {
            begin_second(basis, case, stack, depth - 1);
            return depth;
        }
        depth -= 1;
    }
    depth
}

/// The answer to what was found at the leaf at a place.
fn judge_answer(claimed: u64, place: usize, answer: LeafAnswer) -> Result<(), ProofFault>
    ensures judged { (g : Basis) (done : ℕ) (c : Case) (leaf : LeafValue) → claimed ≡ claim_of g →
        IsLeafAnswer g done c leaf answer → IsJudged g done place (in_case c (OfLeaf leaf)) result }
    ensures broken { answer ≡ LeafAnswer.Broken → OnOk result ⊥ }
{
    match answer {
        LeafAnswer::Broken => Err(ProofFault::BadNode { place }),
        LeafAnswer::Holds => Ok(()),
        LeafAnswer::Shows(shown) => Err(ProofFault::Less {
            place,
            claimed,
            shown,
        }),
    }
}

/// Checks the leaf at a place.
fn judge_leaf(
    basis: &Basis<'_>,
    place: usize,
    case: &CaseRoom,
    weights: &Weights,
    leaf: &mut LeafRoom,
) -> Result<(), ProofFault>
    requires basis { IsBasis basis.now }
    requires kept { AllKept basis.now }
    requires said { MayBeSaid (proof_of basis.now) }
    requires room { IsRoomFor basis.now case.now }
    requires known { (c : Case) × IsCaseOf case.now c }
    requires node { IsNodeAt basis.now place (OfLeaf (OfSum (weights_value weights.now))) }
    requires leaves { FitsLeaves basis.now leaf.old }
    ensures judged { (c : Case) → IsCaseOf case.now c →
        IsJudged basis.now leaf.old.pack.work place
        (in_case c (OfLeaf (OfSum (weights_value weights.now)))) result }
    ensures leaves { FitsLeaves basis.now leaf.new }
    ensures work { leaf.new.pack.work ≡ leaf.old.pack.work }
{
    let answer = check_leaf(basis, case, weights, leaf);
    judge_answer(basis.proof.claimed, place, answer)
}

/// Checks the leaf of prices at a place.
fn judge_pack(
    basis: &Basis<'_>,
    place: usize,
    case: &CaseRoom,
    pricing: &Pricing,
    leaf: &mut LeafRoom,
) -> Result<(), ProofFault>
    requires basis { IsBasis basis.now }
    requires kept { AllKept basis.now }
    requires said { MayBeSaid (proof_of basis.now) }
    requires room { IsRoomFor basis.now case.now }
    requires known { (c : Case) × IsCaseOf case.now c }
    requires node { IsNodeAt basis.now place (OfLeaf (OfPack (pricing_value pricing.now))) }
    requires leaves { FitsLeaves basis.now leaf.old }
    ensures judged { (c : Case) → IsCaseOf case.now c →
        IsJudged basis.now leaf.old.pack.work place
        (in_case c (OfLeaf (OfPack (pricing_value pricing.now)))) result }
    ensures leaves { FitsLeaves basis.now leaf.new }
    ensures work { (c : Case) → IsCaseOf case.now c →
        OnOk result (leaf.new.pack.work
        ≡ leaf.old.pack.work
        + node_work basis.now (in_case c (OfLeaf (OfPack (pricing_value pricing.now))))) }
{
    let answer = check_pack(basis, case, pricing, leaf);
    judge_answer(basis.proof.claimed, place, answer)
}

/// Checks a node whose case is tightened, and goes on behind it. The answer is how many splits are under way then.
fn go_on(
    basis: &Basis<'_>,
    at: WalkSpot,
    case: &mut CaseRoom,
    leaf: &mut LeafRoom,
    stack: &mut [OpenSplit],
) -> Result<usize, ProofFault>
    requires basis { IsBasis basis.now }
    requires kept { AllKept basis.now }
    requires said { MayBeSaid (proof_of basis.now) }
    requires room { IsRoomFor basis.now case.old }
    requires leaves { FitsLeaves basis.now leaf.old }
    requires depth { at.depth < length stack.old }
    requires at { (root : CaseRoom) × (x : NodeCase) × (left : List NodeCase) ×
        IsAt basis.now root stack.old at.depth case.old at.node x left }
    ensures leaves { FitsLeaves basis.now leaf.new }
    ensures room { IfOk result (λ next. IsRoomFor basis.now case.new) }
    ensures few { IfOk result (λ next. next ≤ at.depth + 1) }
    ensures further { (root : CaseRoom) (x : NodeCase) (left : List NodeCase) →
        IsAt basis.now root stack.old at.depth case.old at.node x left →
        IsFurther root case.new }
    ensures judged { (root : CaseRoom) (x : NodeCase) (left : List NodeCase) →
        IsAt basis.now root stack.old at.depth case.old at.node x left →
        IsJudged basis.now leaf.old.pack.work at.node x result }
    ensures work { (root : CaseRoom) (x : NodeCase) (left : List NodeCase) →
        IsAt basis.now root stack.old at.depth case.old at.node x left →
        OnOk result (leaf.new.pack.work ≡ leaf.old.pack.work + node_work basis.now x) }
    ensures goes_on { (root : CaseRoom) (x : NodeCase) (left : List NodeCase) →
        IsAt basis.now root stack.old at.depth case.old at.node x left →
        IfOk result (λ next. GoesOn basis.now root stack.new next case.new left) }
{
    match node_at(basis.proof, at.node) {
        Node::Wide { rank, width } => {
            if !begin_wide(basis, at, case, stack, *rank, *width) {
                return Err(ProofFault::BadNode { place: at.node });
            }
            Ok(at.depth + 1)
        }
        Node::Place {
            module,
            rank,
            twins,
        } => {
            if !begin_place(basis, at, case, stack, *module, *rank, twins) {
                return Err(ProofFault::BadNode { place: at.node });
            }
            Ok(at.depth + 1)
        }
        Node::Sum { weights } => match judge_leaf(basis, at.node, case, weights, leaf) {
            Ok(()) => Ok(next_branch(basis, case, stack, at.depth)),
            Err(fault) => Err(fault),
        },
        Node::Pack { pricing } => match judge_pack(basis, at.node, case, pricing, leaf) {
            Ok(()) => Ok(next_branch(basis, case, stack, at.depth)),
            Err(fault) => Err(fault),
        },
    }
}

/// Checks a node and goes on behind it. The answer is how many splits are under way then.
fn check_node(
    basis: &Basis<'_>,
    at: WalkSpot,
    case: &mut CaseRoom,
    leaf: &mut LeafRoom,
    stack: &mut [OpenSplit],
) -> Result<usize, ProofFault>
    requires basis { IsBasis basis.now }
    requires kept { AllKept basis.now }
    requires said { MayBeSaid (proof_of basis.now) }
    requires room { IsRoomFor basis.now case.old }
    requires leaves { FitsLeaves basis.now leaf.old }
    requires depth { at.depth < length stack.old }
    requires here { (root : CaseRoom) × (x : NodeCase) × (left : List NodeCase) ×
        IsHere basis.now root stack.old at.depth case.old at.node x left }
    ensures leaves { FitsLeaves basis.now leaf.new }
    ensures room { IfOk result (λ next. IsRoomFor basis.now case.new) }
    ensures few { IfOk result (λ next. next ≤ at.depth + 1) }
    ensures further { (root : CaseRoom) (x : NodeCase) (left : List NodeCase) →
        IsHere basis.now root stack.old at.depth case.old at.node x left →
        IsFurther root case.new }
    ensures judged { (root : CaseRoom) (x : NodeCase) (left : List NodeCase) →
        IsHere basis.now root stack.old at.depth case.old at.node x left →
        IsJudged basis.now leaf.old.pack.work at.node x result }
    ensures work { (root : CaseRoom) (x : NodeCase) (left : List NodeCase) →
        IsHere basis.now root stack.old at.depth case.old at.node x left →
        OnOk result (leaf.new.pack.work ≡ leaf.old.pack.work + node_work basis.now x) }
    ensures goes_on { (root : CaseRoom) (x : NodeCase) (left : List NodeCase) →
        IsHere basis.now root stack.old at.depth case.old at.node x left →
        IfOk result (λ next. GoesOn basis.now root stack.new next case.new left) }
{
    case.tighten();
    go_on(basis, at, case, leaf, stack)
}

/// Checks the nodes of a proof one after another, the case being that of the root. An error is the fault of the first node
/// that has one.
pub(crate) fn check_nodes(
    basis: &Basis<'_>,
    case: &mut CaseRoom,
    leaf: &mut LeafRoom,
    stack: &mut [OpenSplit],
) -> Result<(), ProofFault>
    requires basis { IsBasis basis.now }
    requires kept { AllKept basis.now }
    requires said { MayBeSaid (proof_of basis.now) }
    requires room { IsRoomFor basis.now case.old }
    requires root { IsCaseOf case.old root_case }
    requires leaves { FitsLeaves basis.now leaf.old }
    requires work { leaf.old.pack.work ≡ 0 }
    requires stack { length (proof_of basis.now).nodes ≤ length stack.old }
    ensures leaves { FitsLeaves basis.now leaf.new }
    ensures further { IsFurther case.old case.new }
    ensures checked { (t : CaseTree) → nodes_of t ≡ (proof_of basis.now).nodes →
        IsChecked basis.now (all_cases (chip_of basis.now) (limits_of basis.now) t) result }
{
    let mut depth = 0;
    for node in 0..basis.proof.nodes.len() {
        let at = WalkSpot { node, depth };
        match check_node(basis, at, case, leaf, stack) {
            Ok(next) => depth = next,
            Err(fault) => return Err(fault),
        }
    }
    Ok(())
}
