//! The room of the check, and its public call.
ghost use Rattle.std.specs.Prelude.{◌≡◌, ◌≤◌, ℕ, Some, Ok, IfErr, IfOk, OnOk, length, map, slice_get};
ghost use Rattle.soc_model.specs.Chips.{soc_value};
ghost use Rattle.soc_model.specs.SoundChips.{IsSoundChip};
ghost use Rattle.plan_model.specs.Views.{limits_value};
ghost use Rattle.plan_model.specs.Rules.{IsBound};
ghost use Rattle.plan_model.specs.SoundLimits.{IsSoundLimits};
ghost use Rattle.live_tests.specs.Resolved.{IsResolved};
ghost use Rattle.leaf_bounds.specs.declared.basis.Basis.{Basis};
ghost use Rattle.plan_model.specs.Proofs.{LeafValue, OfLeaf, node_value, proof_value};
ghost use Rattle.plan_model.specs.Sayable.{MayBeSaid};
ghost use Rattle.bus_proofs.specs.Bounds.{IsAccepted, IsProofFault};
ghost use Rattle.leaf_bounds.specs.Bases.{chip_of, limits_of, proof_of};
ghost use Rattle.bus_proofs.specs.Walks.{FitsLeaves, named_in};
ghost use Rattle.bus_proofs.specs.ProofRooms.{IsProofRoom};

use crate::ProofFault;
use crate::laws::{accepted_proofs_are_bounds, accepted_proofs_have_no_fault};
use crate::nodes::RANKS_MOST;
use crate::walk::{OpenSplit, check_nodes};
use leaf_bounds::{Basis, CaseRoom, LeafRoom, Mark, USES_MOST};
use live_tests::{Problem, Resolved};
use outside::NoMemory;
use plan_model::{Limits, Node, Proof};
use soc_model::Soc;
use std::alloc::Global;
use std::marker::Model;

/// Room for checking a proof over a chip under limits.
#[derive(Drop)]
pub struct ProofRoom<'a> {
    basis: Basis<'a>,
    case: CaseRoom,
    leaf: LeafRoom,
    /// The splits that are under way.
    stack: Vec<OpenSplit>,
}

impl<'a> Model for ProofRoom<'a> {
    ghost use Rattle.leaf_bounds.specs.Bases.{chip_of, limits_of, proof_of};
    ghost use Rattle.bus_proofs.specs.ProofRooms.{RoomValue, IsProofRoom};

    ghost Value = { RoomValue };

    ghost view = { λ r. record
        { chip = chip_of r.basis; limits = limits_of r.basis; proof = proof_of r.basis } };

    ghost invariant = { λ r. IsProofRoom r.basis r.case r.leaf r.stack.items };
}

const NO_SPLIT: OpenSplit = OpenSplit {
    mark: Mark {
        changes: 0,
        takings: 0,
        places: 0,
    },
    node: 0,
    second: false,
};

/// How many lists a node names, or modules, where these are more.
fn uses_of(node: &Node) -> usize
    ensures { (leaf : LeafValue) → node_value node.now ≡ OfLeaf leaf → result ≡ named_in leaf }
{
    match node {
        Node::Sum { weights } => weights.lists.len(),
        Node::Pack { pricing } => pricing.lists.len().max(pricing.prices.len()),
        _ => 0,
    }
}

/// The most lists or modules that a leaf names.
fn most_uses(nodes: &[Node]) -> usize
    ensures { (place : ℕ) (leaf : LeafValue) →
        slice_get (map node_value nodes.now) place ≡ Some (OfLeaf leaf) → named_in leaf ≤ result }
{
    let mut most = 0;
    for place in 0..nodes.len() {
        most = uses_of(&nodes[place]).max(most);
    }
    most
}

impl<'a> ProofRoom<'a> {
    /// Room for checking this proof over this chip under these limits. `NoMemory` where memory runs out, or where a leaf names
    /// more than 16,777,216 lists or modules, as no text of the greatest length does.
    pub fn new(
        alloc: Global,
        soc: &'a Soc,
        limits: &'a Limits,
        proof: &'a Proof,
    ) -> Result<ProofRoom<'a>, NoMemory>
        requires sound { IsSoundChip (soc_value soc.now) }
        requires limits { IsSoundLimits (soc_value soc.now) (limits_value limits.now) }
        requires proof { MayBeSaid (proof_value proof.now) }
        ensures { IfOk result (λ room. room ≡ record {
          chip = soc_value soc.now;
          limits = limits_value limits.now;
          proof = proof_value proof.now;
        }) }
    {
        let resolved = Resolved::new(alloc, soc, limits)?;
        let room = ProofRoom::with_resolved(alloc, soc, limits, &resolved, proof);
        drop(resolved);
        room
    }

    /// Room for a proof over a problem.
    pub fn over(
        alloc: Global,
        problem: &Problem<'a>,
        proof: &'a Proof,
    ) -> Result<ProofRoom<'a>, NoMemory>
        requires { MayBeSaid (proof_value proof.now) }
        ensures { IfOk result (λ room. room ≡ record {
          chip = problem.now.soc;
          limits = problem.now.limits;
          proof = proof_value proof.now;
        }) }
    {
        ProofRoom::with_resolved(alloc, problem.soc, problem.limits, problem.resolved, proof)
    }

    /// Room for a proof over a chip and its limits, resolved.
    fn with_resolved(
        alloc: Global,
        soc: &'a Soc,
        limits: &'a Limits,
        resolved: &Resolved,
        proof: &'a Proof,
    ) -> Result<ProofRoom<'a>, NoMemory>
        requires sound { IsSoundChip (soc_value soc.now) }
        requires limits { IsSoundLimits (soc_value soc.now) (limits_value limits.now) }
        requires resolved { IsResolved (soc_value soc.now) limits.now resolved.now }
        requires proof { MayBeSaid (proof_value proof.now) }
        ensures { IfOk result (λ room. room ≡ record {
          chip = soc_value soc.now;
          limits = limits_value limits.now;
          proof = proof_value proof.now;
        }) }
    {
        let uses = most_uses(&proof.nodes);
        if uses > USES_MOST {
            return Err(NoMemory);
        }
        let basis = Basis::new(alloc, soc, limits, resolved, proof)?;
        let case = CaseRoom::new(alloc, soc.modules.len(), limits.wires, RANKS_MOST)?;
        let leaf = LeafRoom::new(alloc, &basis, uses)?;
        let stack = Vec::from_elem(alloc, NO_SPLIT, proof.nodes.len())?;
        Ok(ProofRoom {
            basis,
            case,
            leaf,
            stack,
        })
    }
}

/// No work is noted yet.
fn begin_work(leaf: &mut LeafRoom)
    ensures leaves { (g : Basis) → FitsLeaves g leaf.old → FitsLeaves g leaf.new }
    ensures work { leaf.new.pack.work ≡ 0 }
{
    leaf.pack.work = 0;
}

/// The check over a room in the case of the root, which it has again at the end.
fn check_in(
    basis: &Basis<'_>,
    case: &mut CaseRoom,
    leaf: &mut LeafRoom,
    stack: &mut [OpenSplit],
) -> Result<(), ProofFault>
    requires room { IsProofRoom basis.now case.old leaf.old stack.old }
    ensures accepted { OnOk result
        (IsAccepted (chip_of basis.now) (limits_of basis.now) (proof_of basis.now)) }
    ensures fault { IfErr result
        (IsProofFault (chip_of basis.now) (limits_of basis.now) (proof_of basis.now)) }
    ensures room { IsProofRoom basis.now case.new leaf.new stack.new }
{
    if basis.lists.kept < basis.proof.lists.len() {
        return Err(ProofFault::BadList {
            place: basis.lists.kept,
        });
    }
    let root = case.mark();
    begin_work(leaf);
    let checked = check_nodes(basis, case, leaf, stack);
    case.undo(root);
    checked
}

/// Whether the proof of a room is accepted. Ok comes exactly where every list and every node keeps its rule and every leaf
/// holds; then no good plan has fewer cycles than the proof claims. `BadList` comes for the first list that breaks its rule;
/// where none does, `BadNode` and `Less` come for the first node that isn't as it should be: `BadNode` exactly where it breaks
/// its rule, `Less` exactly where it is a leaf that keeps it and doesn't hold. No memory is taken, nothing recurses over the
/// nodes, and the room serves again.
pub fn check_proof(room: &mut ProofRoom<'_>) -> Result<(), ProofFault>
    ensures accepted { OnOk result (IsAccepted room.old.chip room.old.limits room.old.proof) }
    ensures fault { IfErr result (IsProofFault room.old.chip room.old.limits room.old.proof) }
    ensures exact { IsAccepted room.old.chip room.old.limits room.old.proof → result ≡ Ok tt }
    ensures bound { OnOk result (IsBound room.old.chip room.old.limits room.old.proof.claimed) }
    ensures room { room.new ≡ room.old }
{
    accepted_proofs_are_bounds();
    accepted_proofs_have_no_fault();
    check_in(&room.basis, &mut room.case, &mut room.leaf, &mut room.stack)
}
