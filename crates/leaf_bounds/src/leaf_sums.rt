//! The least costs of all modules together, the worth of a cycle, and what both make of a claim.
ghost use Rattle.std.specs.Prelude.{◌≡◌, ◌*◌, ◌^◌, ◌<◌, ◌≤◌, length, sum, IfSome};
ghost use Rattle.std.specs.List.{All};
ghost use Rattle.plan_model.specs.Certificates.{has_tam_at};
ghost use Rattle.plan_model.specs.Proofs.{weights_value};
ghost use Rattle.plan_model.specs.Sayable.{AreWeights, IsWeight};
ghost use Rattle.leaf_bounds.specs.Cases.{Case};
ghost use Rattle.leaf_bounds.specs.CaseRooms.{HasCase, IsCaseOf};
ghost use Rattle.leaf_bounds.specs.Leaves.{worth_of_cycle};
ghost use Rattle.leaf_bounds.specs.Bases.{IsBasis, AllKept, chip_of, limits_of, lists_of};
ghost use Rattle.leaf_bounds.specs.LeafCosts.{IsWeighed, LEAF_COST_MOST};
ghost use Rattle.leaf_bounds.specs.LeafAnswers.{IsCaseFor};
ghost use Rattle.leaf_bounds.specs.LeafSlots.{IsConclusion, IsModuleCost, IsSumOfLeast};

use crate::basis::Basis;
use crate::case::CaseRoom;
use crate::leaf::LeafAnswer;
use crate::leaf_costs::Weighed;
use crate::leaf_slots::least_cost;
use crate::widths::spare_wires;
use plan_model::Weights;

/// Whether the module at a place has a test over the wires.
fn is_wired(basis: &Basis<'_>, place: usize) -> bool
    requires basis { IsBasis basis.now }
    requires place { place < length (chip_of basis.now).modules }
    ensures { result ≡ has_tam_at (chip_of basis.now) place }
{
    basis.wired[place]
}

/// The least cost of the module at a place: 0 where it has no test over the wires, `None` where it has one and no bus.
fn module_least(
    basis: &Basis<'_>,
    weighed: &Weighed,
    case: &CaseRoom,
    weights: &Weights,
    place: usize,
) -> Option<u128>
    requires basis { IsBasis basis.now }
    requires kept { AllKept basis.now }
    requires case { HasCase case.now }
    requires of { IsCaseFor basis.now case.now }
    requires known { (c : Case) × IsCaseOf case.now c }
    requires weights { AreWeights (weights_value weights.now) }
    requires weighed { IsWeighed basis.now (weights_value weights.now) weighed.now }
    requires place { place < length (chip_of basis.now).modules }
    ensures cost { (c : Case) → IsCaseOf case.now c →
        IsModuleCost basis.now c (weights_value weights.now) place result }
    ensures small { IfSome result (λ n. n ≤ LEAF_COST_MOST) }
{
    if !is_wired(basis, place) {
        return Some(0);
    }
    least_cost(basis, weighed, case, weights, place)
}

/// The least costs of all modules together. `None` where a module has a test over the wires and no bus.
pub(crate) fn sum_of_least(
    basis: &Basis<'_>,
    weighed: &Weighed,
    case: &CaseRoom,
    weights: &Weights,
) -> Option<u128>
    requires basis { IsBasis basis.now }
    requires kept { AllKept basis.now }
    requires case { HasCase case.now }
    requires of { IsCaseFor basis.now case.now }
    requires known { (c : Case) × IsCaseOf case.now c }
    requires weights { AreWeights (weights_value weights.now) }
    requires weighed { IsWeighed basis.now (weights_value weights.now) weighed.now }
    ensures cost { (c : Case) → IsCaseOf case.now c →
        IsSumOfLeast basis.now c (weights_value weights.now) (length (chip_of basis.now).modules)
        result }
    ensures small { IfSome result (λ n. n ≤ 1000 * LEAF_COST_MOST) }
{
    let mut sum = 0;
    for place in 0..case.modules {
        match module_least(basis, weighed, case, weights, place) {
            None => return None,
            Some(cost) => sum += cost,
        }
    }
    Some(sum)
}

/// The weights of some ranks together.
fn rank_sum(ranks: &[u64]) -> u64
    requires few { length ranks.now ≤ 256 }
    requires small { All IsWeight ranks.now }
    ensures sum { result ≡ sum ranks.now }
    ensures small { result ≤ 256 * 10 ^ 9 }
{
    let mut sum = 0;
    for weight in ranks {
        sum += *weight;
    }
    sum
}

/// The weight of all that there is in one cycle.
pub(crate) fn worth_of_cycle(
    basis: &Basis<'_>,
    weighed: &Weighed,
    case: &CaseRoom,
    weights: &Weights,
) -> u128
    requires case { HasCase case.now }
    requires of { IsCaseFor basis.now case.now }
    requires weights { AreWeights (weights_value weights.now) }
    requires few { length weights.now.ranks.items ≤ 256 }
    requires weighed { IsWeighed basis.now (weights_value weights.now) weighed.now }
    ensures worth { (c : Case) → IsCaseOf case.now c →
        result
        ≡ worth_of_cycle (limits_of basis.now).wires (lists_of basis.now) c
        (weights_value weights.now) }
    ensures small { result ≤ 2 ^ 121 }
{
    let ranks = rank_sum(&weights.ranks);
    let spare = weights.wire * spare_wires(&case.widths);
    ranks as u128 + spare as u128 + weighed.rooms
}

/// What a cost and the worth of a cycle make of a claim: it holds where the cost is more than one cycle less is worth.
pub(crate) fn conclusion(cost: u128, worth: u128, claim: u64) -> LeafAnswer
    requires cost { cost ≤ 1001 * LEAF_COST_MOST }
    requires worth { worth ≤ 2 ^ 121 }
    ensures { IsConclusion cost worth claim result }
{
    if worth == 0 {
        if 0 < cost {
            return LeafAnswer::Holds;
        }
        return LeafAnswer::Shows(0);
    }
    let shown = (cost + (worth - 1)) / worth;
    if u128::from(claim) <= shown {
        return LeafAnswer::Holds;
    }
    LeafAnswer::Shows(shown)
}
