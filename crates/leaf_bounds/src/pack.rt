//! Whether a leaf of prices keeps its rule and holds.
ghost use Rattle.std.specs.Prelude.{◌≡◌, ◌+◌, ◌*◌, ◌^◌, ◌<◌, ◌≤◌, ℕ, true, false, max, length};
ghost use Rattle.plan_model.specs.Proofs.{OfPack, PricingValue, WeightsValue, pricing_value, weights_value};
ghost use Rattle.plan_model.specs.Sayable.{ArePrices};
ghost use Rattle.leaf_bounds.specs.Cases.{Case, IsEmpty};
ghost use Rattle.leaf_bounds.specs.CaseRooms.{HasCase, IsCaseOf};
ghost use Rattle.leaf_bounds.specs.Bases.{IsBasis, AllKept, chip_of, limits_of, lists_of, claim_of};
ghost use Rattle.leaf_bounds.specs.LeafAnswers.{HasLeafSpace, HasPackSpace, IsCaseFor, IsLeafAnswer, no_weights};
ghost use Rattle.leaf_bounds.specs.LeafCosts.{AreUses, IsWeighed, LEAF_COST_MOST};
ghost use Rattle.leaf_bounds.specs.LeafSlots.{HasNoBusIn};
ghost use Rattle.leaf_bounds.specs.PackBuses.{IsBusesRoom, IsPackLeaf};
ghost use Rattle.leaf_bounds.specs.PackLeaves.{IsPack, PaysTooMuch, cells_of, pack_work, price_sum, WORK_MOST};

use crate::basis::Basis;
use crate::case::CaseRoom;
use crate::leaf::{LeafAnswer, LeafRoom, are_named};
use crate::leaf_costs::{Weighed, self_cost, weigh_leaf};
use crate::leaf_sums::sum_of_least;
use crate::pack_buses::most_filled;
use crate::pack_room::{PACK_CELLS_MOST, PACK_WORK_MOST, PackRoom};
use crate::pack_rules::{are_priced_once, cells_of, work_in};
use crate::widths::{is_empty, known_ranks};
use plan_model::Pricing;

/// All prices of a leaf together.
fn price_sum(pricing: &Pricing) -> u64
    requires prices { ArePrices (pricing_value pricing.now) }
    requires few { length pricing.now.prices.items ≤ 1000 }
    ensures sum { result ≡ price_sum (pricing_value pricing.now) }
    ensures small { result ≤ 10 ^ 18 }
{
    let mut sum = 0;
    for item in 0..pricing.prices.len() {
        sum += pricing.prices[item].1;
    }
    sum
}

/// Whether what is paid is more than what all buses are worth, and the rooms of lists in all cycles.
fn is_more(paid: u128, filled: u128, rooms: u128, claim: u64) -> bool
    ensures yes { result ≡ true → filled + rooms * claim < paid }
    ensures no { result ≡ false → filled + rooms * claim < paid → ⊥ }
{
    if paid <= filled {
        return false;
    }
    let left = paid - filled;
    if rooms == 0 {
        return true;
    }
    u128::from(claim) <= (left - 1) / rooms
}

/// Whether prices and self tests are more than buses and lists are worth.
fn pays_too_much(
    basis: &Basis<'_>,
    weighed: &Weighed,
    case: &CaseRoom,
    pricing: &Pricing,
    room: &mut PackRoom,
) -> bool
    requires leaf { IsPackLeaf basis.now case.now weighed.now (pricing_value pricing.now) }
    requires room { IsBusesRoom basis.now (pricing_value pricing.now) room.old }
    requires some { (c : Case) → IsCaseOf case.now c → IsEmpty (limits_of basis.now).wires c → ⊥ }
    ensures yes { result ≡ true → (c : Case) → IsCaseOf case.now c →
        PaysTooMuch (chip_of basis.now) (limits_of basis.now) (lists_of basis.now)
        (claim_of basis.now) c (pricing_value pricing.now) }
    ensures no { result ≡ false → (c : Case) → IsCaseOf case.now c →
        PaysTooMuch (chip_of basis.now) (limits_of basis.now) (lists_of basis.now)
        (claim_of basis.now) c (pricing_value pricing.now) → ⊥ }
    ensures room { IsBusesRoom basis.now (pricing_value pricing.now) room.new }
    ensures work { room.new.work ≡ room.old.work }
    ensures places { room.new.bus.places ≡ room.old.bus.places }
{
    let filled = most_filled(basis, weighed, case, pricing, room);
    let prices = price_sum(pricing);
    let paid = u128::from(prices) + self_cost(basis, weighed) + weighed.rooms;
    is_more(paid, filled, weighed.rooms, basis.proof.claimed)
}

/// Whether each module with a test over the wires has a slot, where the room has no weights made ready.
fn all_have_slots(basis: &Basis<'_>, case: &CaseRoom, room: &LeafRoom) -> bool
    requires basis { IsBasis basis.now }
    requires kept { AllKept basis.now }
    requires case { HasCase case.now }
    requires of { IsCaseFor basis.now case.now }
    requires known { (c : Case) × IsCaseOf case.now c }
    requires nothing { weights_value room.now.nothing ≡ no_weights }
    requires ready { IsWeighed basis.now no_weights room.now.weighed }
    ensures yes { result ≡ true → (c : Case) → IsCaseOf case.now c →
        HasNoBusIn basis.now c no_weights → ⊥ }
    ensures no { result ≡ false → (c : Case) → IsCaseOf case.now c →
        HasNoBusIn basis.now c no_weights }
{
    match sum_of_least(basis, &room.weighed, case, &room.nothing) {
        Some(_) => true,
        None => false,
    }
}

/// Notes the work of a leaf, where there is no more of it than may be.
fn note_work(room: &mut PackRoom, work: u128) -> bool
    requires { room.old.work ≤ WORK_MOST }
    ensures yes { result ≡ true →
        (room.old.work + work ≤ WORK_MOST) × (room.new.work ≡ room.old.work + work) }
    ensures no { result ≡ false →
        (room.old.work + work ≤ WORK_MOST → ⊥) × (room.new.work ≡ room.old.work) }
    ensures bus { room.new.bus ≡ room.old.bus }
    ensures wires { room.new.wires ≡ room.old.wires }
    ensures worth { room.new.worth ≡ room.old.worth }
    ensures kept { room.new.kept ≡ room.old.kept }
{
    if work > u128::from(PACK_WORK_MOST - room.work) {
        return false;
    }
    room.work += work as u64;
    true
}

/// The work of a leaf where buses have so many cells.
fn pack_work(case: &CaseRoom, pricing: &Pricing, cells: u64) -> u128
    requires case { HasCase case.now }
    requires known { (c : Case) × IsCaseOf case.now c }
    requires cells { cells ≤ 4096 }
    requires lists { length pricing.now.lists.items ≤ 2 ^ 24 }
    requires prices { length pricing.now.prices.items ≤ 2 ^ 24 }
    ensures work { (c : Case) (claim : ℕ) → IsCaseOf case.now c →
        cells ≡ cells_of claim (pricing_value pricing.now) →
        result ≡ pack_work case.now.widths.wires claim c (pricing_value pricing.now) }
{
    if is_empty(&case.widths) {
        return 0;
    }
    work_in(case, pricing, cells)
}

/// Whether a leaf keeps its rule, behind those whose work was noted. Then its own work is noted, and the places of its modules.
fn keeps_rule(basis: &Basis<'_>, case: &CaseRoom, pricing: &Pricing, room: &mut PackRoom) -> bool
    requires basis { IsBasis basis.now }
    requires case { HasCase case.now }
    requires of { IsCaseFor basis.now case.now }
    requires known { (c : Case) × IsCaseOf case.now c }
    requires prices { ArePrices (pricing_value pricing.now) }
    requires few { max (length pricing.now.lists.items) (length pricing.now.prices.items) ≤ 2 ^ 24 }
    requires places { max (length pricing.now.lists.items) (length pricing.now.prices.items)
        ≤ length room.old.bus.places.items }
    requires space { HasPackSpace basis.now room.old }
    ensures yes { result ≡ true → (c : Case) → IsCaseOf case.now c →
        IsPack (chip_of basis.now) (limits_of basis.now).wires (lists_of basis.now)
        (claim_of basis.now) room.old.work c (pricing_value pricing.now) }
    ensures no { result ≡ false → (c : Case) → IsCaseOf case.now c →
        IsPack (chip_of basis.now) (limits_of basis.now).wires (lists_of basis.now)
        (claim_of basis.now) room.old.work c (pricing_value pricing.now) → ⊥ }
    ensures work { result ≡ true → (c : Case) → IsCaseOf case.now c →
        room.new.work
        ≡ room.old.work
        + pack_work (limits_of basis.now).wires (claim_of basis.now) c
        (pricing_value pricing.now) }
    ensures room { result ≡ true → IsBusesRoom basis.now (pricing_value pricing.now) room.new }
    ensures space { HasPackSpace basis.now room.new }
    ensures long { length room.new.bus.places.items ≡ length room.old.bus.places.items }
{
    if !are_priced_once(basis, &pricing.prices, &mut room.bus.places) {
        return false;
    }
    let known = known_ranks(&case.widths);
    if !are_named(&basis.proof.lists, known, &pricing.lists) {
        return false;
    }
    let cells = cells_of(basis.proof.claimed, pricing.grain);
    if cells > PACK_CELLS_MOST {
        return false;
    }
    note_work(room, pack_work(case, pricing, cells))
}

/// What is found at a leaf of prices in the case of a room.
pub fn check_pack(
    basis: &Basis<'_>,
    case: &CaseRoom,
    pricing: &Pricing,
    room: &mut LeafRoom,
) -> LeafAnswer
    requires basis { IsBasis basis.now }
    requires kept { AllKept basis.now }
    requires case { HasCase case.now }
    requires of { IsCaseFor basis.now case.now }
    requires known { (c : Case) × IsCaseOf case.now c }
    requires prices { ArePrices (pricing_value pricing.now) }
    requires few { max (length pricing.now.lists.items) (length pricing.now.prices.items) ≤ 2 ^ 24 }
    requires places { max (length pricing.now.lists.items) (length pricing.now.prices.items)
        ≤ length room.old.pack.bus.places.items }
    requires space { HasLeafSpace basis.now room.old }
    ensures answer { (c : Case) → IsCaseOf case.now c →
        IsLeafAnswer basis.now room.old.pack.work c (OfPack (pricing_value pricing.now)) result }
    ensures space { HasLeafSpace basis.now room.new }
    ensures long { length room.new.pack.bus.places.items ≡ length room.old.pack.bus.places.items }
    ensures work { (result ≡ LeafAnswer.Broken → ⊥) → (c : Case) → IsCaseOf case.now c →
        room.new.pack.work
        ≡ room.old.pack.work
        + pack_work (limits_of basis.now).wires (claim_of basis.now) c
        (pricing_value pricing.now) }
{
    if !keeps_rule(basis, case, pricing, &mut room.pack) {
        return LeafAnswer::Broken;
    }
    if is_empty(&case.widths) {
        return LeafAnswer::Holds;
    }
    weigh_leaf(basis, &room.nothing.lists, &mut room.weighed);
    if !all_have_slots(basis, case, room) {
        return LeafAnswer::Holds;
    }
    weigh_leaf(basis, &pricing.lists, &mut room.weighed);
    if pays_too_much(basis, &room.weighed, case, pricing, &mut room.pack) {
        return LeafAnswer::Holds;
    }
    LeafAnswer::Shows(0)
}
