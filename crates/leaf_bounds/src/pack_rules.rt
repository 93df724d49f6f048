//! The rule of a leaf of prices: its modules, the cells of a bus, and how much is to be worked out.
ghost use Rattle.std.specs.Prelude.{◌≡◌, ◌+◌, ◌*◌, ◌^◌, ◌<◌, ◌≤◌, ℕ, true, false, None, IfSome, length, slice_index};
ghost use Rattle.std.specs.List.{sum_by};
ghost use Rattle.plan_model.specs.Proofs.{PricingValue, pricing_value};
ghost use Rattle.leaf_bounds.specs.Bases.{IsBasis, chip_of};
ghost use Rattle.leaf_bounds.specs.Cases.{Case};
ghost use Rattle.leaf_bounds.specs.CaseRooms.{HasCase, IsCaseOf};
ghost use Rattle.leaf_bounds.specs.Trails.{IsRoomy};
ghost use Rattle.leaf_bounds.specs.PackLeaves.{ArePlaces, ArePricedOnce, IsNewPrice, cells_of, numbers_priced, pair_count, place_called, width_count, work_in};

use crate::basis::{Basis, wired_place};
use crate::case::CaseRoom;
use crate::leaf_slots::rest_high;
use crate::widths::{Interval, Widths, interval_at, known_ranks};
use plan_model::Pricing;

/// The cells of a bus: those that the cycles below the claim fill.
pub(crate) fn cells_of(claim: u64, grain: u64) -> u64
    requires { 1 ≤ grain }
    ensures { (pricing : PricingValue) → pricing.grain ≡ grain → result ≡ cells_of claim pricing }
{
    claim.saturating_sub(1) / grain
}

/// The number of the module at a place among the prices.
fn number_at(prices: &[(u64, u64)], at: usize) -> u64
    requires { at < length prices.now }
    ensures { result ≡ slice_index (numbers_priced prices.now) at }
{
    prices[at].0
}

/// Whether one of the first `count` modules has this number.
fn is_priced(prices: &[(u64, u64)], count: usize, number: u64) -> bool
    requires { count ≤ length prices.now }
    ensures yes { result ≡ true →
        (q : ℕ) × (q < count) × (slice_index (numbers_priced prices.now) q ≡ number) }
    ensures no { result ≡ false → (q : ℕ) → q < count →
        slice_index (numbers_priced prices.now) q ≡ number → ⊥ }
{
    for at in 0..count {
        if number_at(prices, at) == number {
            return true;
        }
    }
    false
}

/// The place of the module that the price at a place is for: it has a test over the wires, and isn't named before.
fn new_place(basis: &Basis<'_>, prices: &[(u64, u64)], at: usize) -> Option<usize>
    requires basis { IsBasis basis.now }
    requires at { at < length prices.now }
    ensures some { IfSome result (λ place. IsNewPrice (chip_of basis.now) prices.now at ×
        (place ≡ place_called (chip_of basis.now) (slice_index (numbers_priced prices.now) at))) }
    ensures none { result ≡ None → IsNewPrice (chip_of basis.now) prices.now at → ⊥ }
{
    let number = number_at(prices, at);
    let Some(place) = wired_place(basis, number) else {
        return None;
    };
    if is_priced(prices, at, number) {
        return None;
    }
    Some(place)
}

/// Whether all priced modules have tests over the wires, and none is named twice. Then their places are noted.
pub(crate) fn are_priced_once(
    basis: &Basis<'_>,
    prices: &[(u64, u64)],
    places: &mut [usize],
) -> bool
    requires basis { IsBasis basis.now }
    requires room { length prices.now ≤ length places.old }
    ensures long { length places.new ≡ length places.old }
    ensures yes { result ≡ true → ArePricedOnce (chip_of basis.now) prices.now }
    ensures no { result ≡ false → ArePricedOnce (chip_of basis.now) prices.now → ⊥ }
    ensures places { result ≡ true →
        ArePlaces (chip_of basis.now) prices.now (length prices.now) places.new }
{
    for at in 0..prices.len() {
        match new_place(basis, prices, at) {
            None => return false,
            Some(place) => places[at] = place,
        }
    }
    true
}

/// How many widths there are in an interval.
fn width_count(interval: Interval) -> u64
    requires { interval.high ≤ 256 }
    ensures count { result ≡ width_count interval }
    ensures few { result ≤ 257 }
{
    (interval.high + 1).saturating_sub(interval.low)
}

/// How many widths there are in the intervals of all known ranks.
fn widths_known(widths: &Widths) -> u64
    requires { IsRoomy widths.now }
    ensures sum { result ≡ sum_by width_count widths.now.intervals.items }
    ensures few { result ≤ length widths.now.intervals.items * 257 }
{
    let mut sum = 0;
    for rank in 0..known_ranks(widths) {
        sum += width_count(interval_at(widths, rank));
    }
    sum
}

/// How many widths of a bus of a known rank or of the rest there are.
fn pair_count(case: &CaseRoom) -> u64
    requires case { HasCase case.now }
    requires known { (c : Case) × IsCaseOf case.now c }
    ensures count { (c : Case) → IsCaseOf case.now c → result ≡ pair_count case.now.widths.wires c }
    ensures few { result ≤ 2 ^ 18 }
{
    widths_known(&case.widths) + rest_high(case)
}

/// What is to be worked out at a leaf where buses have so many cells.
pub(crate) fn work_in(case: &CaseRoom, pricing: &Pricing, cells: u64) -> u128
    requires case { HasCase case.now }
    requires known { (c : Case) × IsCaseOf case.now c }
    requires cells { cells ≤ 4096 }
    requires lists { length (pricing_value pricing.now).lists ≤ 2 ^ 24 }
    requires prices { length (pricing_value pricing.now).prices ≤ 2 ^ 24 }
    ensures work { (c : Case) (claim : ℕ) → IsCaseOf case.now c →
        cells ≡ cells_of claim (pricing_value pricing.now) →
        result ≡ work_in case.now.widths.wires claim c (pricing_value pricing.now) }
    ensures small { result ≤ 2 ^ 80 }
{
    let pairs = pair_count(case);
    let of_price = cells + 1 + pricing.lists.len() as u64;
    let of_pair = pricing.prices.len() as u64 * of_price + case.widths.wires;
    u128::from(pairs) * u128::from(of_pair)
}
