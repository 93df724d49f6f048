//! The least cost of a module over the buses that it may be on in a case.
ghost use Rattle.std.specs.Prelude.{◌≡◌, ◌≢◌, ◌⊎◌, ℕ, ◌+◌, ◌-◌, ◌*◌, ◌^◌, ◌<◌, ◌≤◌, true, Some, length, nat_lt, IfSome};
ghost use Rattle.std.specs.List.{All};
ghost use Rattle.proof_facts.specs.Packed.{packed_tam_time, self_test_time};
ghost use Rattle.plan_model.specs.declared.proof.TheConstants.{WEIGHT_MOST};
ghost use Rattle.plan_model.specs.Proofs.{WeightsValue, weights_value};
ghost use Rattle.plan_model.specs.Sayable.{AreWeights};
ghost use Rattle.leaf_bounds.specs.Cases.{Case, known_ranks};
ghost use Rattle.leaf_bounds.specs.Bits.{HasPlace};
ghost use Rattle.leaf_bounds.specs.CaseRooms.{HasCase, IsCaseOf};
ghost use Rattle.leaf_bounds.specs.Leaves.{rank_weight, rest_high};
ghost use Rattle.leaf_bounds.specs.Bases.{IsBasis, AllKept, chip_of, limits_of, claim_of};
ghost use Rattle.leaf_bounds.specs.LeafCosts.{IsWeighed, LEAF_COST_MOST};
ghost use Rattle.leaf_bounds.specs.LeafAnswers.{IsCaseFor};
ghost use Rattle.leaf_bounds.specs.declared.leaf_slots.WidthRange.{WidthRange as the_range};
ghost use Rattle.leaf_bounds.specs.LeafSlots.{AreTried, IsLeastOf, IsLesserOf, IsLesserOfOne, IsNoBetter, IsOfModule, IsOfRange, IsOfRanks, IsOfRest, costs_at, lesser, range_slot, rank_range, rest_range};

use crate::basis::Basis;
use crate::case::CaseRoom;
use crate::laws::wider_slots_cost_no_less;
use crate::leaf_costs::{BesideUse, Weighed, module_cost, rated};
use crate::places::{Placing, may_be_on};
use crate::ranks::is_left;
use crate::widths::{interval_at, known_ranks, spare_wires};
use plan_model::Weights;

/// The buses of one rank, where it is known, on each width of a range, in wires.
#[derive(Clone, Copy)]
pub(crate) struct WidthRange {
    pub rank: Option<u64>,
    pub first: u64,
    pub high: u64,
    /// The width at which a cycle has the weight `base`.
    pub low: u64,
    pub base: u64,
    /// The weight of each wire more.
    pub wire: u64,
}

/// The lesser of two costs, where they are there.
fn lesser(a: Option<u128>, b: Option<u128>) -> Option<u128>
    ensures { result ≡ lesser a b }
{
    match a {
        None => b,
        Some(m) => match b {
            None => Some(m),
            Some(n) => Some(m.min(n)),
        },
    }
}

/// The weight of a rank: 0 where it has none.
fn rank_weight(weights: &Weights, rank: usize) -> u64
    requires weights { AreWeights (weights_value weights.now) }
    ensures weight { result ≡ rank_weight (weights_value weights.now) rank }
    ensures small { result ≤ WEIGHT_MOST }
{
    if rank < weights.ranks.len() {
        return weights.ranks[rank];
    }
    0
}

/// The range of a known rank.
fn rank_range(case: &CaseRoom, weights: &Weights, rank: usize) -> WidthRange
    requires weights { AreWeights (weights_value weights.now) }
    requires rank { rank < length case.now.widths.intervals.items }
    ensures range { (c : Case) → IsCaseOf case.now c →
        result ≡ rank_range c (weights_value weights.now) rank }
    ensures base { result.base ≤ WEIGHT_MOST }
{
    let interval = interval_at(&case.widths, rank);
    let base = rank_weight(weights, rank);
    WidthRange {
        rank: Some(rank as u64),
        first: interval.low.max(1),
        high: interval.high,
        low: interval.low,
        base,
        wire: weights.wire,
    }
}

/// The greatest width of a bus of the rest.
pub(crate) fn rest_high(case: &CaseRoom) -> u64
    requires case { HasCase case.now }
    ensures { (c : Case) → IsCaseOf case.now c →
        result ≡ rest_high case.now.widths.wires c (known_ranks c) }
{
    let known = known_ranks(&case.widths);
    if known == 0 {
        return case.widths.wires;
    }
    let last = interval_at(&case.widths, known - 1);
    last.high.min(spare_wires(&case.widths))
}

/// The range of the rest.
fn rest_range(case: &CaseRoom, weights: &Weights) -> WidthRange
    requires case { HasCase case.now }
    ensures { (c : Case) → IsCaseOf case.now c →
        result ≡ rest_range case.now.widths.wires c (weights_value weights.now) }
{
    WidthRange {
        rank: None,
        first: 1,
        high: rest_high(case),
        low: 0,
        base: 0,
        wire: weights.wire,
    }
}

/// Whether the tests of the module take fewer cycles than claimed on a bus of a width.
pub(crate) fn is_short(basis: &Basis<'_>, place: usize, width: u64) -> bool
    requires basis { IsBasis basis.now }
    requires place { place < length (chip_of basis.now).modules }
    requires some_wire { 1 ≤ width }
    requires few_wires { width ≤ (limits_of basis.now).wires }
    ensures { result
        ≡ nat_lt
        (packed_tam_time (chip_of basis.now) place width
        + self_test_time (chip_of basis.now) place) (claim_of basis.now) }
{
    let tam = basis.times.tam_time(place, width);
    let own = basis.times.self_time(place);
    tam + own < basis.proof.claimed
}

/// What a cycle weighs on a bus of the range.
fn rate_of(range: WidthRange, width: u64) -> u64
    requires base { range.base ≤ WEIGHT_MOST }
    requires wire { range.wire ≤ WEIGHT_MOST }
    requires width { width ≤ 256 }
    ensures rate { result ≡ range.base + range.wire * (width - range.low) }
    ensures small { result < 2 ^ 40 }
{
    range.base + range.wire * width.saturating_sub(range.low)
}

/// Whether a cost is no less than the least one so far, where there is one.
fn is_no_less(cost: u128, least: Option<u128>) -> bool
    ensures { result ≡ true → (n : ℕ) × (least ≡ Some n) × (n ≤ cost) }
{
    match least {
        None => false,
        Some(n) => n <= cost,
    }
}

/// The lesser of the least cost so far and what the module costs on the bus of the range at a width, where that counts. Its uses
/// aren't added up where its time alone costs no less.
fn lesser_at(
    basis: &Basis<'_>,
    weighed: &Weighed,
    place: usize,
    range: WidthRange,
    width: u64,
    least: Option<u128>,
) -> Option<u128>
    requires basis { IsBasis basis.now }
    requires kept { AllKept basis.now }
    requires place { place < length (chip_of basis.now).modules }
    requires some_wire { 1 ≤ width }
    requires few_wires { width ≤ (limits_of basis.now).wires }
    requires base { range.base ≤ WEIGHT_MOST }
    requires wire { range.wire ≤ WEIGHT_MOST }
    requires weighed { (weights : WeightsValue) × IsWeighed basis.now weights weighed.now }
    requires few { IfSome least (λ n. n ≤ LEAF_COST_MOST) }
    ensures cost { (weights : WeightsValue) → IsWeighed basis.now weights weighed.now →
        IsLesserOfOne (costs_at basis.now weights place) (chip_of basis.now) (claim_of basis.now)
        place (range_slot range width) least result }
    ensures small { IfSome result (λ n. n ≤ LEAF_COST_MOST) }
{
    if !is_short(basis, place, width) {
        return least;
    }
    let rate = rate_of(range, width);
    let time = rated(rate, basis.times.tam_time(place, width));
    if is_no_less(time, least) {
        return least;
    }
    let cost = module_cost(basis, weighed, place, range.rank, width, rate);
    lesser(least, Some(cost))
}

/// The lesser of the least cost so far and that of a module on a range. Widths on which the tests take as long as on the width before
/// aren't tried: they cost no less.
fn lesser_in_range(
    basis: &Basis<'_>,
    weighed: &Weighed,
    place: usize,
    range: WidthRange,
    least: Option<u128>,
) -> Option<u128>
    requires basis { IsBasis basis.now }
    requires kept { AllKept basis.now }
    requires place { place < length (chip_of basis.now).modules }
    requires some_wire { 1 ≤ range.first }
    requires few_wires { range.high ≤ (limits_of basis.now).wires }
    requires base { range.base ≤ WEIGHT_MOST }
    requires wire { range.wire ≤ WEIGHT_MOST }
    requires weighed { (weights : WeightsValue) × IsWeighed basis.now weights weighed.now }
    requires few { IfSome least (λ n. n ≤ LEAF_COST_MOST) }
    ensures least { (weights : WeightsValue) → IsWeighed basis.now weights weighed.now →
        IsLesserOf (costs_at basis.now weights place)
        (IsOfRange (chip_of basis.now) (claim_of basis.now) place range (range.high + 1)) least
        result }
    ensures small { IfSome result (λ n. n ≤ LEAF_COST_MOST) }
{
    wider_slots_cost_no_less();
    let mut best = least;
    let mut width = range.first;
    while width <= range.high {
        best = lesser_at(basis, weighed, place, range, width, best);
        width = basis.times.next_width(place, width);
    }
    best
}

/// What was found on the first ranks.
#[derive(Clone, Copy)]
pub(crate) struct RanksTried {
    /// The least cost, where there is a bus.
    pub least: Option<u128>,
    /// The range that was tried last of a rank that no list speaks of which is weighed.
    pub last: Option<WidthRange>,
}

/// Whether a range has no bus that an earlier one hasn't for as little, where no list speaks of the earlier one's rank.
fn is_no_better(range: WidthRange, earlier: WidthRange) -> bool
    ensures { result ≡ true → IsNoBetter range earlier }
{
    if range.low != earlier.low {
        return false;
    }
    if range.high > earlier.high {
        return false;
    }
    range.base >= earlier.base
}

/// Whether the range is no better than one that was tried.
fn is_passed(tried: Option<WidthRange>, range: WidthRange) -> bool
    ensures { result ≡ true →
        (earlier : the_range) × (tried ≡ Some earlier) × IsNoBetter range earlier }
{
    match tried {
        None => false,
        Some(earlier) => is_no_better(range, earlier),
    }
}

/// Whether no list that is weighed speaks of a rank.
pub(crate) fn is_without_list(beside: &[BesideUse], rank: usize) -> bool
    ensures { result ≡ true → All (λ b. b.rank ≢ rank) beside.now }
{
    for list in beside {
        if list.rank == rank as u64 {
            return false;
        }
    }
    true
}

/// The range that later ones are compared with, where that of a further rank was tried: its own, if no list speaks of the rank.
fn to_compare(
    beside: &[BesideUse],
    rank: usize,
    range: WidthRange,
    before: Option<WidthRange>,
) -> Option<WidthRange>
    ensures { (result ≡ before) ⊎ ((result ≡ Some range) × All (λ b. b.rank ≢ rank) beside.now) }
{
    if is_without_list(beside, rank) {
        return Some(range);
    }
    before
}

/// What is found on one known rank more.
fn with_rank(
    basis: &Basis<'_>,
    weighed: &Weighed,
    case: &CaseRoom,
    weights: &Weights,
    at: Placing,
    rank: usize,
    tried: RanksTried,
) -> RanksTried
    requires basis { IsBasis basis.now }
    requires kept { AllKept basis.now }
    requires of { IsCaseFor basis.now case.now }
    requires known { (c : Case) × IsCaseOf case.now c }
    requires weights { AreWeights (weights_value weights.now) }
    requires weighed { IsWeighed basis.now (weights_value weights.now) weighed.now }
    requires at { HasPlace case.now.ranks.may.items at }
    requires modules { at.modules ≡ case.now.modules }
    requires known_are { at.known ≡ length case.now.widths.intervals.items }
    requires rank { rank < at.known }
    requires tried { (c : Case) → IsCaseOf case.now c →
        AreTried basis.now c (weights_value weights.now) weighed.now at.place rank tried }
    requires few { IfSome tried.least (λ n. n ≤ LEAF_COST_MOST) }
    ensures tried { (c : Case) → IsCaseOf case.now c →
        AreTried basis.now c (weights_value weights.now) weighed.now at.place (rank + 1) result }
    ensures small { IfSome result.least (λ n. n ≤ LEAF_COST_MOST) }
{
    if !may_be_on(&case.ranks, at, rank) {
        return tried;
    }
    let range = rank_range(case, weights, rank);
    if is_passed(tried.last, range) {
        return tried;
    }
    RanksTried {
        least: lesser_in_range(basis, weighed, at.place, range, tried.least),
        last: to_compare(&weighed.beside, rank, range, tried.last),
    }
}

/// The least cost of a module on the known ranks.
fn least_on_ranks(
    basis: &Basis<'_>,
    weighed: &Weighed,
    case: &CaseRoom,
    weights: &Weights,
    place: usize,
) -> Option<u128>
    requires basis { IsBasis basis.now }
    requires kept { AllKept basis.now }
    requires case { HasCase case.now }
    requires of { IsCaseFor basis.now case.now }
    requires known { (c : Case) × IsCaseOf case.now c }
    requires weights { AreWeights (weights_value weights.now) }
    requires weighed { IsWeighed basis.now (weights_value weights.now) weighed.now }
    requires place { place < length (chip_of basis.now).modules }
    ensures least { (c : Case) → IsCaseOf case.now c →
        IsLeastOf (costs_at basis.now (weights_value weights.now) place)
        (IsOfRanks (chip_of basis.now) (claim_of basis.now) c (weights_value weights.now) place
        (known_ranks c)) result }
    ensures small { IfSome result (λ n. n ≤ LEAF_COST_MOST) }
{
    let known = known_ranks(&case.widths);
    let at = Placing {
        place,
        modules: case.modules,
        known,
    };
    let mut tried = RanksTried {
        least: None,
        last: None,
    };
    for rank in 0..known {
        tried = with_rank(basis, weighed, case, weights, at, rank, tried);
    }
    tried.least
}

/// The lesser of the least cost so far and that of a module on the rest.
fn lesser_on_rest(
    basis: &Basis<'_>,
    weighed: &Weighed,
    case: &CaseRoom,
    weights: &Weights,
    place: usize,
    least: Option<u128>,
) -> Option<u128>
    requires basis { IsBasis basis.now }
    requires kept { AllKept basis.now }
    requires case { HasCase case.now }
    requires of { IsCaseFor basis.now case.now }
    requires known { (c : Case) × IsCaseOf case.now c }
    requires weights { AreWeights (weights_value weights.now) }
    requires weighed { IsWeighed basis.now (weights_value weights.now) weighed.now }
    requires place { place < length (chip_of basis.now).modules }
    requires few { IfSome least (λ n. n ≤ LEAF_COST_MOST) }
    ensures least { (c : Case) → IsCaseOf case.now c →
        IsLesserOf (costs_at basis.now (weights_value weights.now) place)
        (IsOfRest (chip_of basis.now) (limits_of basis.now).wires (claim_of basis.now) c
        (weights_value weights.now) place) least result }
    ensures small { IfSome result (λ n. n ≤ LEAF_COST_MOST) }
{
    if !is_left(&case.ranks, place) {
        return least;
    }
    let range = rest_range(case, weights);
    lesser_in_range(basis, weighed, place, range, least)
}

/// The least cost of a module over all buses that it may be on: the cost of one of them, and none costs less. `None` where
/// there is no such bus.
pub(crate) fn least_cost(
    basis: &Basis<'_>,
    weighed: &Weighed,
    case: &CaseRoom,
    weights: &Weights,
    place: usize,
) -> Option<u128>
    requires basis { IsBasis basis.now }
    requires kept { AllKept basis.now }
    requires case { HasCase case.now }
    requires of { IsCaseFor basis.now case.now }
    requires known { (c : Case) × IsCaseOf case.now c }
    requires weights { AreWeights (weights_value weights.now) }
    requires weighed { IsWeighed basis.now (weights_value weights.now) weighed.now }
    requires place { place < length (chip_of basis.now).modules }
    ensures least { (c : Case) → IsCaseOf case.now c →
        IsLeastOf (costs_at basis.now (weights_value weights.now) place)
        (IsOfModule (chip_of basis.now) (limits_of basis.now).wires (claim_of basis.now) c
        (weights_value weights.now) place) result }
    ensures small { IfSome result (λ n. n ≤ LEAF_COST_MOST) }
{
    let known = least_on_ranks(basis, weighed, case, weights, place);
    lesser_on_rest(basis, weighed, case, weights, place, known)
}
