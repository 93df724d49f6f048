//! A profile of the power that is drawn: the load at the cycles where a draw begins or ends, in the order of cycles. From
//! each of them on the load stays the same up to the next.
ghost use Rattle.std.specs.Prelude.{◌≡◌, ℕ, ◌+◌, ◌-◌, ◌^◌, ◌<◌, ◌≤◌, ◌++◌, true, false, List, map, take, drop, length, slice_index_or, slice_set, vec_capacity, IfSome};
ghost use Rattle.std.specs.List.{All};
ghost use Rattle.std.specs.List.Sorted.{IsNonDecreasingBy};
ghost use Rattle.busy_times.specs.declared.points.Point.{Point};
ghost use Rattle.busy_times.specs.Draws.{taken_by, load_of, marks_from};
ghost use Rattle.busy_times.specs.Profiles.{no_point, all_uses, ArePoints, AreMarked, raised_by};

use crate::marks::{add_marks, remove_marks};
use crate::points::{Point, places_before_near};
use crate::power::Draw;

/// The load at a point with a draw more.
fn raise_at(points: &mut Vec<Point>, place: usize, power: u64)
    requires place { place < length points.old.items }
    requires fits { (slice_index_or points.old.items place no_point).load + power < 2 ^ 64 }
    ensures items { points.new.items ≡ slice_set points.old.items place
        (record {
          cycle = (slice_index_or points.old.items place no_point).cycle;
          load = (slice_index_or points.old.items place no_point).load + power;
          uses =
              (slice_index_or points.old.items place no_point).uses;
        }) }
    ensures capacity { vec_capacity points.new ≡ vec_capacity points.old }
{
    points[place].load += power;
}

/// The load at a point with a draw less.
fn lower_at(points: &mut Vec<Point>, place: usize, power: u64)
    requires place { place < length points.old.items }
    requires covers { power ≤ (slice_index_or points.old.items place no_point).load }
    ensures items { points.new.items ≡ slice_set points.old.items place
        (record {
          cycle = (slice_index_or points.old.items place no_point).cycle;
          load = (slice_index_or points.old.items place no_point).load - power;
          uses =
              (slice_index_or points.old.items place no_point).uses;
        }) }
    ensures capacity { vec_capacity points.new ≡ vec_capacity points.old }
{
    points[place].load -= power;
}

/// Whether a draw is over as it begins, so that it is taken at no cycle.
fn is_over(draw: &Draw) -> bool
    ensures over { result ≡ true → draw.now.to ≤ draw.now.from }
    ensures taken { result ≡ false → draw.now.from < draw.now.to }
{
    draw.to <= draw.from
}

/// Adds a draw to the loads of the points at which it is taken. They are sought from a near place; a place near to the end of the
/// draw is answered. A draw that is over as it begins is taken at none.
fn raise_load(points: &mut Vec<Point>, near: usize, draw: &Draw) -> usize
    requires ordered { IsNonDecreasingBy (λ (p : Point). p.cycle) points.old.items }
    requires fits { All (λ (p : Point). p.load + taken_by p.cycle draw.now < 2 ^ 64)
        points.old.items }
    ensures items { points.new.items ≡ map (raised_by draw.now) points.old.items }
    ensures capacity { vec_capacity points.new ≡ vec_capacity points.old }
{
    if is_over(draw) {
        return near;
    }
    let first = places_before_near(points, near, draw.from);
    for place in first..points.len() {
        if points[place].cycle >= draw.to {
            return place;
        }
        raise_at(points, place, draw.power);
    }
    points.len()
}

/// Takes a draw from the loads of the points at which it is taken. They are sought from a near place, and the place of the first
/// one is answered. A draw that is over as it begins is taken at none.
fn lower_load(points: &mut Vec<Point>, near: usize, draw: &Draw) -> usize
    requires ordered { IsNonDecreasingBy (λ (p : Point). p.cycle) points.old.items }
    requires covers { All (λ (p : Point). taken_by p.cycle draw.now ≤ p.load) points.old.items }
    ensures items { points.old.items ≡ map (raised_by draw.now) points.new.items }
    ensures capacity { vec_capacity points.new ≡ vec_capacity points.old }
{
    if is_over(draw) {
        return near;
    }
    let first = places_before_near(points, near, draw.from);
    for place in first..points.len() {
        if points[place].cycle >= draw.to {
            return first;
        }
        lower_at(points, place, draw.power);
    }
    first
}

/// Adds the draws from a place on, those of a test from a start, in room that is there. Those before it are in the profile,
/// and with them no more than `limit` is drawn at any cycle.
fn add_draws(points: &mut Vec<Point>, draws: &[Draw], from: usize, start: u64, limit: u64)
    requires from { from ≤ length draws.now }
    requires room { all_uses points.old.items + (length draws.now - from + 1)
        ≤ vec_capacity points.old }
    requires within { (c : ℕ) → load_of draws.now c ≤ limit }
    requires points { (cycles : List ℕ) × AreMarked (take from draws.now) cycles
        × ArePoints (take from draws.now) cycles points.old.items }
    ensures points { (cycles : List ℕ) → AreMarked (take from draws.now) cycles →
        ArePoints (take from draws.now) cycles points.old.items →
        ArePoints draws.now (marks_from start (drop from draws.now) ++ cycles) points.new.items }
    ensures capacity { vec_capacity points.new ≡ vec_capacity points.old }
{
    let mut near = add_marks(points, draws, from, start);
    for at in from..draws.len() {
        near = raise_load(points, near, &draws[at]);
    }
}

/// Takes away all draws but the first `count`: those of a test from a start.
fn take_draws(points: &mut Vec<Point>, draws: &[Draw], count: usize, start: u64)
    requires count { count ≤ length draws.now }
    requires points { (cycles : List ℕ)
        × ArePoints draws.now (marks_from start (drop count draws.now) ++ cycles) points.old.items }
    ensures points { (cycles : List ℕ) →
        ArePoints draws.now (marks_from start (drop count draws.now) ++ cycles) points.old.items →
        ArePoints (take count draws.now) cycles points.new.items }
    ensures capacity { vec_capacity points.new ≡ vec_capacity points.old }
{
    let mut near = points.len();
    let mut at = draws.len();
    while at > count {
        at -= 1;
        near = lower_load(points, near, &draws[at]);
    }
    remove_marks(points, near, draws, count, start);
}

/// Under a limit on power, adds the draws from a place on, those of a test from a start, in room that is there. Without a
/// limit no profile is kept.
#[inline(always)]
pub fn add_drawn(
    limit: Option<u64>,
    points: &mut Vec<Point>,
    draws: &[Draw],
    from: usize,
    start: u64,
)
    requires from { from ≤ length draws.now }
    requires room { IfSome limit
        (λ _. all_uses points.old.items + (length draws.now - from + 1) ≤ vec_capacity points.old) }
    requires within { IfSome limit (λ most. (c : ℕ) → load_of draws.now c ≤ most) }
    requires points { IfSome limit (λ _. (cycles : List ℕ) × AreMarked (take from draws.now) cycles
        × ArePoints (take from draws.now) cycles points.old.items) }
    ensures points { IfSome limit (λ _. (cycles : List ℕ) → AreMarked (take from draws.now) cycles →
        ArePoints (take from draws.now) cycles points.old.items →
        ArePoints draws.now (marks_from start (drop from draws.now) ++ cycles) points.new.items) }
    ensures capacity { vec_capacity points.new ≡ vec_capacity points.old }
{
    if let Some(most) = limit {
        add_draws(points, draws, from, start, most);
    }
}

/// Under a limit on power, takes away all draws but the first `count`: those of a test from a start. Without a limit no
/// profile is kept.
#[inline(always)]
pub fn take_drawn(
    limit: Option<u64>,
    points: &mut Vec<Point>,
    draws: &[Draw],
    count: usize,
    start: u64,
)
    requires count { count ≤ length draws.now }
    requires points { IfSome limit (λ _. (cycles : List ℕ) × ArePoints draws.now
        (marks_from start (drop count draws.now) ++ cycles) points.old.items) }
    ensures points { IfSome limit (λ _. (cycles : List ℕ) →
        ArePoints draws.now (marks_from start (drop count draws.now) ++ cycles) points.old.items →
        ArePoints (take count draws.now) cycles points.new.items) }
    ensures capacity { vec_capacity points.new ≡ vec_capacity points.old }
{
    if let Some(_) = limit {
        take_draws(points, draws, count, start);
    }
}
