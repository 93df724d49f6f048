//! Where a profile of power leaves enough free for a step of a test, and for long enough. A point is crowded for a step where it
//! leaves less free than the step draws; a crowd is a run of such points, one behind the other.
ghost use Rattle.std.specs.Prelude.{◌≡◌, ℕ, ◌+◌, ◌^◌, ◌<◌, ◌≤◌, ◌⊎◌, true, nat_lt, length, slice_index_or, IfSome, IfNone};
ghost use Rattle.busy_times.specs.Profiles.{no_point, IsEndedProfile, IsFreeFor};

use crate::points::{Point, load_before, places_before_near};

/// Whether a load leaves too little free.
fn is_crowded(load: u64, free: u64) -> bool
    ensures { result ≡ nat_lt free load }
{
    load > free
}

/// Whether more is drawn than is free from each of the four points from a place on.
fn are_crowded(points: &[Point], place: usize, free: u64) -> bool
    requires { place + 4 ≤ length points.now }
    ensures { result ≡ true → (k : ℕ) → place ≤ k → k < place + 4 →
        free < (slice_index_or points.now k no_point).load }
{
    if points[place].load <= free {
        return false;
    }
    if points[place + 1].load <= free {
        return false;
    }
    if points[place + 2].load <= free {
        return false;
    }
    if points[place + 3].load <= free {
        return false;
    }
    true
}

/// A place, from one on, up to which more is drawn than is free from each point. They are looked at in fours, since crowds are long.
fn crowd_from(points: &[Point], from: usize, free: u64) -> usize
    requires { from ≤ length points.now }
    ensures from { from ≤ result }
    ensures bound { result ≤ length points.now }
    ensures crowded { (k : ℕ) → from ≤ k → k < result →
        free < (slice_index_or points.now k no_point).load }
{
    let mut place = from;
    while points.len() - place >= 4 {
        if !are_crowded(points, place, free) {
            return place;
        }
        place += 4;
    }
    place
}

/// The place, from one on, of the first point from which on no more is drawn than is free; the end where there is none.
fn crowd_end(points: &[Point], from: usize, free: u64) -> usize
    requires { from ≤ length points.now }
    ensures from { from ≤ result }
    ensures bound { result ≤ length points.now }
    ensures crowded { (k : ℕ) → from ≤ k → k < result →
        free < (slice_index_or points.now k no_point).load }
    ensures end { result < length points.now →
        (slice_index_or points.now result no_point).load ≤ free }
{
    let first = crowd_from(points, from, free);
    for place in first..points.len() {
        if points[place].load <= free {
            return place;
        }
    }
    points.len()
}

/// The place, from one on and before another, of the last point from which on more is drawn than is free. It is looked for from
/// the last one back.
fn last_crowd(points: &[Point], from: usize, to: usize, free: u64) -> Option<usize>
    requires { to ≤ length points.now }
    ensures from { IfSome result (λ crowd. from ≤ crowd) }
    ensures to { IfSome result (λ crowd. crowd < to) }
    ensures crowded { IfSome result
        (λ crowd. free < (slice_index_or points.now crowd no_point).load) }
    ensures behind { IfSome result (λ crowd. (k : ℕ) → crowd < k → k < to →
        (slice_index_or points.now k no_point).load ≤ free) }
    ensures none { IfNone result
        ((k : ℕ) → from ≤ k → k < to → (slice_index_or points.now k no_point).load ≤ free) }
{
    let mut place = to;
    while place > from {
        place -= 1;
        if points[place].load > free {
            return Some(place);
        }
    }
    None
}

/// The least cycle from `from` on from which no more than `free` is drawn for `width` cycles. The point that has the load at `from`
/// is looked for from a near place. From each start the last crowd that it meets is looked for, from the last of its cycles back,
/// and where that crowd ends is the next start: no earlier one is free of it. So each point is looked at once at most, and what
/// stands before the last crowd isn't looked at.
pub fn after_crowds(
    points: &[Point],
    near: usize,
    free: u64,
    from: u64,
    width: u64,
    last: u64,
) -> u64
    requires some { 1 ≤ width }
    requires small { from + width < 2 ^ 64 }
    requires last { last + width < 2 ^ 64 }
    requires profile { (load : ℕ → ℕ) × IsEndedProfile load points.now last }
    ensures from { from ≤ result }
    ensures most { (result ≡ from) ⊎ (result ≤ last) }
    ensures free { (load : ℕ → ℕ) → IsEndedProfile load points.now last →
        IsFreeFor load free width result }
    ensures least { (load : ℕ → ℕ) → IsEndedProfile load points.now last → (other : ℕ) →
        from ≤ other → IsFreeFor load free width other → result ≤ other }
{
    let mut place = places_before_near(points, near, from + 1);
    let mut calm = place;
    let mut start = from;
    let mut crowded = is_crowded(load_before(points, place), free);
    'crowds: loop {
        if crowded {
            let end = crowd_end(points, place, free);
            if end == points.len() {
                return last;
            }
            start = points[end].cycle;
            place = end + 1;
            calm = calm.max(place);
            crowded = false;
            continue 'crowds;
        }
        let to = places_before_near(points, calm, start + width);
        let Some(crowd) = last_crowd(points, calm, to, free) else {
            return start;
        };
        place = crowd + 1;
        calm = to;
        crowded = true;
    }
}

/// A cycle from which on no more is drawn than is free. It is looked for from the last point back, up to the first one from which
/// on more is drawn.
pub fn calm_end(points: &[Point], free: u64, last: u64) -> u64
    requires profile { (load : ℕ → ℕ) × IsEndedProfile load points.now last }
    ensures most { result ≤ last }
    ensures calm { (load : ℕ → ℕ) → IsEndedProfile load points.now last → (c : ℕ) → result ≤ c →
        load c ≤ free }
{
    let mut calm: u64 = last;
    let mut place = points.len();
    while place > 0 {
        place -= 1;
        let now = points[place];
        if now.load > free {
            return calm;
        }
        calm = calm.min(now.cycle);
    }
    calm
}
