//! Whether a leaf keeps its rule and holds, and what it shows.
ghost use Rattle.std.specs.Prelude.{◌≡◌, ◌^◌, ◌≤◌, ℕ, IfOk, true, false, length, map};
ghost use Rattle.std.specs.List.{All};
ghost use Rattle.plan_model.specs.Proofs.{OfSum, list_value, weights_value};
ghost use Rattle.leaf_bounds.specs.Leaves.{IsKnownList};
ghost use Rattle.leaf_bounds.specs.LeafCosts.{IsWeighed};
ghost use Rattle.leaf_bounds.specs.LeafSlots.{IsNamed, IsWeighedAnswer};
ghost use Rattle.leaf_bounds.specs.Cases.{Case};
ghost use Rattle.leaf_bounds.specs.CaseRooms.{HasCase, IsCaseOf};
ghost use Rattle.plan_model.specs.Sayable.{AreWeights};
ghost use Rattle.leaf_bounds.specs.Bases.{IsBasis, AllKept};
ghost use Rattle.leaf_bounds.specs.LeafAnswers.{HasLeafSpace, IsCaseFor, IsLeafAnswer};

use crate::basis::Basis;
use crate::case::CaseRoom;
use crate::leaf_costs::{Weighed, self_cost, weigh_leaf};
use crate::leaf_sums::{conclusion, sum_of_least, worth_of_cycle};
use crate::pack_room::PackRoom;
use crate::widths::{is_empty, known_ranks};
use outside::NoMemory;
use plan_model::{TestList, Weights};
use std::alloc::Global;

/// What is found at a leaf.
#[derive(Clone, Copy, PartialEq, Eq)]
pub enum LeafAnswer {
    /// It breaks its rule.
    Broken,
    /// It keeps its rule and holds.
    Holds,
    /// It keeps its rule and doesn't hold; it shows this number of cycles.
    Shows(u128),
}

/// Room for checking leaves.
#[derive(Drop)]
pub struct LeafRoom {
    /// What the leaf at hand weighs.
    pub weighed: Weighed,
    /// No weights.
    pub nothing: Weights,
    /// Room for leaves of prices.
    pub pack: PackRoom,
}

impl LeafRoom {
    /// Room for the leaves of a proof, each of which names at most `most` modules. `NoMemory` where memory runs out.
    pub fn new(alloc: Global, basis: &Basis<'_>, most: usize) -> Result<LeafRoom, NoMemory>
        requires basis { IsBasis basis.now }
        ensures space { IfOk result (HasLeafSpace basis.now) }
        ensures places { IfOk result (λ room. length room.pack.bus.places.items ≡ most) }
    {
        let weighed = Weighed::new(alloc, basis)?;
        let pack = PackRoom::new(alloc, basis.limits.wires as usize, most)?;
        let nothing = Weights {
            wire: 0,
            ranks: Vec::new(alloc),
            lists: Vec::new(alloc),
        };
        Ok(LeafRoom {
            weighed,
            nothing,
            pack,
        })
    }
}

/// Whether a list may be weighed where `known` ranks are known: a rank that it speaks of is one of them.
fn is_known_list(list: &TestList, known: usize) -> bool
    ensures yes { result ≡ true → IsKnownList known (list_value list.now) }
    ensures no { result ≡ false → IsKnownList known (list_value list.now) → ⊥ }
{
    match list {
        TestList::TurnsOn { rank, tests: _ } => *rank < known as u64,
        TestList::Turns { tests: _ } => true,
        TestList::Crowd { most: _, tests: _ } => true,
        TestList::Power { near: _ } => true,
    }
}

/// Whether there is a list at a place, which may be weighed.
fn is_named(lists: &[TestList], known: usize, place: u64) -> bool
    ensures yes { result ≡ true → (weight : ℕ) →
        IsNamed (map list_value lists.now) known (place, weight) }
    ensures no { result ≡ false → (weight : ℕ) →
        IsNamed (map list_value lists.now) known (place, weight) → ⊥ }
{
    if lists.len() as u64 <= place {
        return false;
    }
    is_known_list(&lists[place as usize], known)
}

/// Whether all lists that a leaf weighs are there and may be weighed.
pub(crate) fn are_named(lists: &[TestList], known: usize, uses: &[(u64, u64)]) -> bool
    ensures yes { result ≡ true → All (IsNamed (map list_value lists.now) known) uses.now }
    ensures no { result ≡ false → All (IsNamed (map list_value lists.now) known) uses.now → ⊥ }
{
    for item in uses {
        if !is_named(lists, known, item.0) {
            return false;
        }
    }
    true
}

/// What is found at a leaf that keeps its rule, in a case that isn't empty.
fn weighed_leaf(
    basis: &Basis<'_>,
    case: &CaseRoom,
    weights: &Weights,
    weighed: &Weighed,
) -> LeafAnswer
    requires basis { IsBasis basis.now }
    requires kept { AllKept basis.now }
    requires case { HasCase case.now }
    requires of { IsCaseFor basis.now case.now }
    requires known { (c : Case) × IsCaseOf case.now c }
    requires weights { AreWeights (weights_value weights.now) }
    requires few { length weights.now.ranks.items ≤ 256 }
    requires weighed { IsWeighed basis.now (weights_value weights.now) weighed.now }
    ensures answer { (c : Case) → IsCaseOf case.now c →
        IsWeighedAnswer basis.now c (weights_value weights.now) result }
{
    match sum_of_least(basis, weighed, case, weights) {
        None => LeafAnswer::Holds,
        Some(modules) => {
            let cost = modules + self_cost(basis, weighed);
            let worth = worth_of_cycle(basis, weighed, case, weights);
            conclusion(cost, worth, basis.proof.claimed)
        }
    }
}

/// What is found at a leaf with these weights in the case of a room.
pub fn check_leaf(
    basis: &Basis<'_>,
    case: &CaseRoom,
    weights: &Weights,
    room: &mut LeafRoom,
) -> LeafAnswer
    requires basis { IsBasis basis.now }
    requires kept { AllKept basis.now }
    requires case { HasCase case.now }
    requires of { IsCaseFor basis.now case.now }
    requires known { (c : Case) × IsCaseOf case.now c }
    requires weights { AreWeights (weights_value weights.now) }
    requires few { length weights.now.lists.items ≤ 2 ^ 24 }
    requires space { HasLeafSpace basis.now room.old }
    ensures answer { (c : Case) → IsCaseOf case.now c →
        IsLeafAnswer basis.now room.old.pack.work c (OfSum (weights_value weights.now)) result }
    ensures space { HasLeafSpace basis.now room.new }
    ensures pack { room.new.pack ≡ room.old.pack }
{
    let known = known_ranks(&case.widths);
    if known < weights.ranks.len() {
        return LeafAnswer::Broken;
    }
    if !are_named(&basis.proof.lists, known, &weights.lists) {
        return LeafAnswer::Broken;
    }
    if is_empty(&case.widths) {
        return LeafAnswer::Holds;
    }
    weigh_leaf(basis, &weights.lists, &mut room.weighed);
    weighed_leaf(basis, case, weights, &room.weighed)
}
