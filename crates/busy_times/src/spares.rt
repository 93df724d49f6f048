//! Spare points: points without a mark, several in a row at one cycle, over which the points of new marks are put. So all points
//! behind the last mark of a test move once, and not once for each of its marks.
ghost use Rattle.std.specs.Prelude.{◌≡◌, ◌+◌, ◌-◌, ◌<◌, ◌≤◌, ◌++◌, true, length, take, drop, replicate, slice_index_or, vec_capacity};
ghost use Rattle.std.specs.List.{insert, remove};
ghost use Rattle.busy_times.specs.declared.points.Point.{Point};
ghost use Rattle.busy_times.specs.Profiles.{no_point};

use crate::points::{Point, put_point, stands_at};

/// Adds `more` copies of a point behind all others, in room that is there.
fn push_copies(points: &mut Vec<Point>, more: usize, point: Point)
    requires room { length points.old.items + more ≤ vec_capacity points.old }
    ensures items { points.new.items ≡ points.old.items ++ replicate more point }
    ensures capacity { vec_capacity points.new ≡ vec_capacity points.old }
{
    for _ in 0..more {
        let end = points.len();
        put_point(points, end, point);
    }
}

/// Puts `more` spare points before a place, in room that is there. They stand at the cycle of the point before it.
pub fn put_spares(points: &mut Vec<Point>, place: usize, more: usize)
    requires first { 1 ≤ place }
    requires place { place ≤ length points.old.items }
    requires room { length points.old.items + more ≤ vec_capacity points.old }
    ensures items { points.new.items ≡ take place points.old.items
        ++ (replicate more (record {
          cycle = (slice_index_or points.old.items (place - 1) no_point).cycle;
          load = (slice_index_or points.old.items (place - 1) no_point).load;
          uses = 0;
        }) ++ drop place points.old.items) }
    ensures capacity { vec_capacity points.new ≡ vec_capacity points.old }
{
    let mut spare = points[place - 1];
    spare.uses = 0;
    push_copies(points, more, spare);
    points[place..].rotate_right(more);
}

/// Whether the point of a cycle is missing at its place and may be put over a spare point that stands at another place.
pub fn takes_spare(points: &[Point], place: usize, spare: usize, cycle: u64) -> bool
    ensures spare { result ≡ true →
        (place ≤ spare) × (spare < length points.now)
        × ((slice_index_or points.now spare no_point).uses ≡ 0) }
    ensures missing { result ≡ true → place < length points.now →
        (slice_index_or points.now place no_point).cycle ≡ cycle → ⊥ }
{
    place <= spare
        && spare < points.len()
        && points[spare].uses == 0
        && !stands_at(points, place, cycle)
}

/// Puts a point to a place, over the one that stands at another place behind it. Those between move up.
pub fn put_over(points: &mut Vec<Point>, place: usize, spare: usize, point: Point)
    requires order { place ≤ spare }
    requires there { spare < length points.old.items }
    ensures items { points.new.items ≡ insert (remove points.old.items spare) place point }
    ensures capacity { vec_capacity points.new ≡ vec_capacity points.old }
{
    points[place..spare + 1].rotate_right(1);
    points[place] = point;
}
