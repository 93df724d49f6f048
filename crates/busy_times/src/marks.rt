//! The marks of a test in a profile of power: one at its start, and one at the end of each of its draws. Each stands at a
//! point of its cycle. A point stays where its marks are taken away, since the same marks often come again; such points
//! are taken out together, where there is no room.
ghost use Rattle.std.specs.Prelude.{◌≡◌, ℕ, ◌+◌, ◌-◌, ◌^◌, ◌<◌, ◌≤◌, ◌++◌, ◌∷◌, true, false, List, drop, length, slice_index_or, vec_capacity};
ghost use Rattle.std.specs.List.{sum_by};
ghost use Rattle.std.specs.List.Sorted.{IsNonDecreasingBy, IsPartitionPoint};
ghost use Rattle.busy_times.specs.declared.power.Draw.{Draw};
ghost use Rattle.busy_times.specs.declared.points.Point.{Point};
ghost use Rattle.busy_times.specs.Draws.{marks_from};
ghost use Rattle.busy_times.specs.Profiles.{no_point, uses_at, all_uses, ArePoints, AreMarked, HaveMarkMore};

use crate::points::{
    Point, drop_unused, load_before, places_before_near, put_point, stands_at, use_less, use_more,
};
use crate::power::Draw;
use crate::spares::{put_over, put_spares, takes_spare};

/// Where fewer points stand behind the marks of a test, they move once for each mark: that takes less time than to look first how many
/// marks find no point.
const MANY_BEHIND: usize = 256;

/// A mark of a test: its start, or behind that the end of one of its draws, which are those from a place on.
fn mark_at(draws: &[Draw], from: usize, start: u64, at: usize) -> u64
    requires { from + at ≤ length draws.now }
    ensures { result ≡ slice_index_or (marks_from start (drop from draws.now)) at 0 }
{
    if at == 0 {
        start
    } else {
        draws[from + at - 1].to
    }
}

/// Adds a mark at a cycle if its point stands at a place, and tells whether it does.
fn add_standing_mark(points: &mut Vec<Point>, place: usize, cycle: u64) -> bool
    requires fits { all_uses points.old.items + 1 < 2 ^ 64 }
    ensures added { result ≡ true → (held : List Draw) (cycles : List ℕ) →
        ArePoints held cycles points.old.items → ArePoints held (cycle ∷ cycles) points.new.items }
    ensures same { result ≡ false → points.new.items ≡ points.old.items }
    ensures missing { result ≡ false → place < length points.old.items →
        (slice_index_or points.old.items place no_point).cycle ≡ cycle → ⊥ }
    ensures capacity { vec_capacity points.new ≡ vec_capacity points.old }
{
    if stands_at(points, place, cycle) {
        use_more(points, place);
        return true;
    }
    false
}

/// Adds a mark at a cycle to the point at a place, before which the points of earlier cycles stand, or puts a point there, in room that
/// is there. The loads stay as they are. The place is answered.
fn put_mark(points: &mut Vec<Point>, place: usize, cycle: u64) -> usize
    requires room { length points.old.items < vec_capacity points.old }
    requires fits { all_uses points.old.items + 1 < 2 ^ 64 }
    requires place { place ≤ length points.old.items }
    requires parts { IsPartitionPoint (λ (p : Point). p.cycle < cycle)
        (λ (p : Point). cycle ≤ p.cycle) points.old.items place }
    ensures points { HaveMarkMore cycle points.old.items points.new.items }
    ensures capacity { vec_capacity points.new ≡ vec_capacity points.old }
{
    if add_standing_mark(points, place, cycle) {
        return place;
    }
    let load = load_before(points, place);
    let uses = 1;
    put_point(points, place, Point { cycle, load, uses });
    place
}

/// Adds a mark at a cycle, in room that is there. The loads stay as they are. Its place, which is sought from a near one, is
/// answered.
fn add_mark(points: &mut Vec<Point>, near: usize, cycle: u64) -> usize
    requires room { length points.old.items < vec_capacity points.old }
    requires fits { all_uses points.old.items + 1 < 2 ^ 64 }
    requires ordered { IsNonDecreasingBy (λ (p : Point). p.cycle) points.old.items }
    ensures points { HaveMarkMore cycle points.old.items points.new.items }
    ensures capacity { vec_capacity points.new ≡ vec_capacity points.old }
{
    let place = places_before_near(points, near, cycle);
    put_mark(points, place, cycle)
}

/// Takes away a mark that stands at a cycle. Its place, which is sought from a near one, is answered.
fn remove_mark(points: &mut Vec<Point>, near: usize, cycle: u64) -> usize
    requires ordered { IsNonDecreasingBy (λ (p : Point). p.cycle) points.old.items }
    requires there { 1 ≤ sum_by (uses_at cycle) points.old.items }
    ensures points { (held : List Draw) (cycles : List ℕ) →
        ArePoints held (cycle ∷ cycles) points.old.items → ArePoints held cycles points.new.items }
    ensures capacity { vec_capacity points.new ≡ vec_capacity points.old }
{
    let mut place = places_before_near(points, near, cycle);
    while points[place].uses == 0 {
        place += 1;
    }
    use_less(points, place);
    place
}

/// Makes room for `more` further points, where the marks leave it.
fn make_room(points: &mut Vec<Point>, more: usize)
    requires room { all_uses points.old.items + more ≤ vec_capacity points.old }
    ensures points { (held : List Draw) (cycles : List ℕ) → ArePoints held cycles points.old.items →
        ArePoints held cycles points.new.items }
    ensures room { length points.new.items + more ≤ vec_capacity points.new }
    ensures capacity { vec_capacity points.new ≡ vec_capacity points.old }
{
    if points.capacity() - points.len() < more {
        drop_unused(points);
    }
}

/// How many of the first `first` marks of a test find no point at their cycle. Marks of one cycle that follow each other count once.
fn missing(points: &[Point], draws: &[Draw], from: usize, start: u64, first: usize) -> usize
    requires from { from ≤ length draws.now }
    requires first { first ≤ length draws.now - from + 1 }
    requires ordered { IsNonDecreasingBy (λ (p : Point). p.cycle) points.now }
    ensures { result ≤ first }
{
    let mut left = first;
    let mut near = points.len();
    let mut behind = None;
    let mut count = 0;
    while left > 0 {
        left -= 1;
        let cycle = mark_at(draws, from, start, left);
        near = places_before_near(points, near, cycle);
        if behind != Some(cycle) && !stands_at(points, near, cycle) {
            count += 1;
        }
        behind = Some(cycle);
    }
    count
}

/// Puts spare points behind the place of the last of the first `first` marks of a test, where several of them find no point at
/// their cycle and many points stand behind, in room that is there. That place is looked for from a near one. The first place of a
/// spare point is answered, and without one a place past all points.
fn open_gap(
    points: &mut Vec<Point>,
    near: usize,
    draws: &[Draw],
    from: usize,
    start: u64,
    first: usize,
) -> usize
    requires from { from ≤ length draws.now }
    requires first { first ≤ length draws.now - from + 1 }
    requires ordered { IsNonDecreasingBy (λ (p : Point). p.cycle) points.old.items }
    requires room { length points.old.items + first ≤ vec_capacity points.old }
    ensures points { (held : List Draw) (cycles : List ℕ) → ArePoints held cycles points.old.items →
        ArePoints held cycles points.new.items }
    ensures capacity { vec_capacity points.new ≡ vec_capacity points.old }
{
    if first < 3 {
        return points.capacity();
    }
    let last = mark_at(draws, from, start, first - 1);
    let place = places_before_near(points, near, last);
    if points.len() - place < MANY_BEHIND {
        return points.capacity();
    }
    let more = missing(points, draws, from, start, first);
    if more < 2 {
        return points.capacity();
    }
    put_spares(points, place + 1, more);
    place + 1
}

/// Adds a mark at a cycle, over the spare point at a place if one stands there, and else in room that the marks leave. The loads stay
/// as they are. Its place, which is sought from a near one, is answered, and the place of the next spare point.
fn add_next_mark(points: &mut Vec<Point>, near: usize, spare: usize, cycle: u64) -> (usize, usize)
    requires room { all_uses points.old.items + 1 ≤ vec_capacity points.old }
    requires points { (held : List Draw) × (cycles : List ℕ)
        × ArePoints held cycles points.old.items }
    ensures points { (held : List Draw) (cycles : List ℕ) → AreMarked held cycles →
        ArePoints held cycles points.old.items → ArePoints held (cycle ∷ cycles) points.new.items }
    ensures capacity { vec_capacity points.new ≡ vec_capacity points.old }
{
    let place = places_before_near(points, near, cycle);
    if takes_spare(points, place, spare, cycle) {
        let load = load_before(points, place);
        let uses = 1;
        put_over(points, place, spare, Point { cycle, load, uses });
        return (place, spare + 1);
    }
    if points.len() < points.capacity() {
        return (put_mark(points, place, cycle), spare);
    }
    make_room(points, 1);
    (add_mark(points, place, cycle), spare)
}

/// Adds the marks of a test with the draws from a place on, from the last one up to the first that finds no point at its cycle. How
/// many are left is answered, and a place near to the next one.
fn add_standing(points: &mut Vec<Point>, draws: &[Draw], from: usize, start: u64) -> (usize, usize)
    requires from { from ≤ length draws.now }
    requires room { all_uses points.old.items + (length draws.now - from + 1)
        ≤ vec_capacity points.old }
    requires points { (held : List Draw) × (cycles : List ℕ)
        × ArePoints held cycles points.old.items }
    ensures left { result.0 ≤ length draws.now - from + 1 }
    ensures points { (held : List Draw) (cycles : List ℕ) → ArePoints held cycles points.old.items →
        ArePoints held (drop result.0 (marks_from start (drop from draws.now)) ++ cycles)
        points.new.items }
    ensures capacity { vec_capacity points.new ≡ vec_capacity points.old }
{
    let mut left = draws.len() - from + 1;
    let mut near = points.len();
    while left > 0 {
        let cycle = mark_at(draws, from, start, left - 1);
        near = places_before_near(points, near, cycle);
        if !add_standing_mark(points, near, cycle) {
            return (left, near);
        }
        left -= 1;
    }
    (left, near)
}

/// Adds the first `first` marks of a test with the draws from a place on, where the others are in the profile, in room that these
/// leave. The last of them is looked for from a near place. The place of the test's start is answered.
fn add_first(
    points: &mut Vec<Point>,
    last: usize,
    draws: &[Draw],
    from: usize,
    start: u64,
    first: usize,
) -> usize
    requires from { from ≤ length draws.now }
    requires first { first ≤ length draws.now - from + 1 }
    requires room { all_uses points.old.items + first ≤ vec_capacity points.old }
    requires points { (held : List Draw) × (cycles : List ℕ) × AreMarked held cycles
        × ArePoints held (drop first (marks_from start (drop from draws.now)) ++ cycles)
        points.old.items }
    ensures points { (held : List Draw) (cycles : List ℕ) → AreMarked held cycles →
        ArePoints held (drop first (marks_from start (drop from draws.now)) ++ cycles)
        points.old.items →
        ArePoints held (marks_from start (drop from draws.now) ++ cycles) points.new.items }
    ensures capacity { vec_capacity points.new ≡ vec_capacity points.old }
{
    make_room(points, first);
    let mut spare = open_gap(points, last, draws, from, start, first);
    let mut near = last;
    let mut left = first;
    while left > 0 {
        left -= 1;
        let cycle = mark_at(draws, from, start, left);
        (near, spare) = add_next_mark(points, near, spare, cycle);
    }
    near
}

/// Adds the marks of a test with the draws from a place on, in room that the marks leave. The loads stay as they are. The place
/// of its start is answered.
pub fn add_marks(points: &mut Vec<Point>, draws: &[Draw], from: usize, start: u64) -> usize
    requires from { from ≤ length draws.now }
    requires room { all_uses points.old.items + (length draws.now - from + 1)
        ≤ vec_capacity points.old }
    requires points { (held : List Draw) × (cycles : List ℕ) × AreMarked held cycles
        × ArePoints held cycles points.old.items }
    ensures points { (held : List Draw) (cycles : List ℕ) → AreMarked held cycles →
        ArePoints held cycles points.old.items →
        ArePoints held (marks_from start (drop from draws.now) ++ cycles) points.new.items }
    ensures capacity { vec_capacity points.new ≡ vec_capacity points.old }
{
    let (left, near) = add_standing(points, draws, from, start);
    if left == 0 {
        return near;
    }
    add_first(points, near, draws, from, start, left)
}

/// Takes away the marks of a test with the draws from a place on. The first one is sought from a near place.
pub fn remove_marks(points: &mut Vec<Point>, first: usize, draws: &[Draw], from: usize, start: u64)
    requires from { from ≤ length draws.now }
    requires points { (held : List Draw) × (cycles : List ℕ)
        × ArePoints held (marks_from start (drop from draws.now) ++ cycles) points.old.items }
    ensures points { (held : List Draw) (cycles : List ℕ) →
        ArePoints held (marks_from start (drop from draws.now) ++ cycles) points.old.items →
        ArePoints held cycles points.new.items }
    ensures capacity { vec_capacity points.new ≡ vec_capacity points.old }
{
    let count = draws.len() - from + 1;
    let mut near = first;
    let mut gone = 0;
    while gone < count {
        let cycle = mark_at(draws, from, start, gone);
        near = remove_mark(points, near, cycle);
        gone += 1;
    }
}
