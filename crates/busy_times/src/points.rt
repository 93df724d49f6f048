//! Points of a profile of the power that is drawn, in the order of their cycles.
ghost use Rattle.std.specs.Prelude.{◌≡◌, ℕ, ◌+◌, ◌-◌, ◌^◌, ◌<◌, ◌≤◌, true, false, nat_eq, not, length, take, drop, slice_index_or, slice_set, vec_capacity};
ghost use Rattle.std.specs.List.{filter, insert};
ghost use Rattle.std.specs.List.Sorted.{IsNonDecreasingBy, IsPartitionPoint};
ghost use Rattle.busy_times.specs.declared.points.Point.{Point};
ghost use Rattle.busy_times.specs.Profiles.{no_point, all_uses, load_before as load_before_place, is_used as is_used_point};

/// What is drawn from a cycle on.
#[derive(Clone, Copy)]
pub struct Point {
    /// The cycle.
    pub cycle: u64,
    /// The power of all draws that are taken at it.
    pub load: u64,
    /// How many marks of placed tests stand at it.
    pub uses: usize,
}

/// Whether the point at a place is there and stands before a cycle.
fn is_early(points: &[Point], place: usize, cycle: u64) -> bool
    ensures early { result ≡ true →
        (place < length points.now) × ((slice_index_or points.now place no_point).cycle < cycle) }
    ensures late { result ≡ false → place < length points.now →
        cycle ≤ (slice_index_or points.now place no_point).cycle }
{
    place < points.len() && points[place].cycle < cycle
}

/// Whether the point before a place is there and doesn't stand before a cycle.
fn is_passed(points: &[Point], place: usize, cycle: u64) -> bool
    requires { place ≤ length points.now }
    ensures passed { result ≡ true →
        (0 < place) × (cycle ≤ (slice_index_or points.now (place - 1) no_point).cycle) }
    ensures ahead { result ≡ false → 0 < place →
        (slice_index_or points.now (place - 1) no_point).cycle < cycle }
{
    place > 0 && points[place - 1].cycle >= cycle
}

/// How many points stand before a cycle, where these are at least `from` and at most `to`.
fn places_between(points: &[Point], from: usize, to: usize, cycle: u64) -> usize
    requires order { from ≤ to }
    requires bound { to ≤ length points.now }
    requires ahead { 0 < from → (slice_index_or points.now (from - 1) no_point).cycle < cycle }
    requires late { to < length points.now → cycle ≤ (slice_index_or points.now to no_point).cycle }
    ensures bound { result ≤ length points.now }
    ensures ahead { 0 < result → (slice_index_or points.now (result - 1) no_point).cycle < cycle }
    ensures late { result < length points.now →
        cycle ≤ (slice_index_or points.now result no_point).cycle }
{
    let mut low = from;
    let mut high = to;
    while low < high {
        let middle = low + (high - low) / 2;
        if points[middle].cycle < cycle {
            low = middle + 1;
        } else {
            high = middle;
        }
    }
    low
}

/// How many points stand before a cycle, where these are at least `from`. They are looked for in steps that grow eightfold.
#[inline(never)]
fn places_from(points: &[Point], from: usize, cycle: u64) -> usize
    requires bound { from ≤ length points.now }
    requires ahead { 0 < from → (slice_index_or points.now (from - 1) no_point).cycle < cycle }
    ensures bound { result ≤ length points.now }
    ensures ahead { 0 < result → (slice_index_or points.now (result - 1) no_point).cycle < cycle }
    ensures late { result < length points.now →
        cycle ≤ (slice_index_or points.now result no_point).cycle }
{
    let mut low = from;
    let mut far: usize = 1;
    while points.len() - low > far {
        let high = low + far;
        if points[high].cycle >= cycle {
            return places_between(points, low, high, cycle);
        }
        low = high + 1;
        far = far.saturating_mul(8);
    }
    places_between(points, low, points.len(), cycle)
}

/// How many points stand before a cycle, where these are at most `to`. They are looked for in steps that grow eightfold.
#[inline(never)]
fn places_up_to(points: &[Point], to: usize, cycle: u64) -> usize
    requires bound { to ≤ length points.now }
    requires late { to < length points.now → cycle ≤ (slice_index_or points.now to no_point).cycle }
    ensures bound { result ≤ length points.now }
    ensures ahead { 0 < result → (slice_index_or points.now (result - 1) no_point).cycle < cycle }
    ensures late { result < length points.now →
        cycle ≤ (slice_index_or points.now result no_point).cycle }
{
    let mut high = to;
    let mut far: usize = 1;
    while high > far {
        let low = high - far;
        if points[low - 1].cycle < cycle {
            return places_between(points, low, high, cycle);
        }
        high = low - 1;
        far = far.saturating_mul(8);
    }
    places_between(points, 0, high, cycle)
}

/// How many points stand before a cycle. It is found the sooner, the nearer it is to some number.
#[inline(always)]
pub fn places_before_near(points: &[Point], near: usize, cycle: u64) -> usize
    requires { IsNonDecreasingBy (λ (p : Point). p.cycle) points.now }
    ensures bound { result ≤ length points.now }
    ensures parts { IsPartitionPoint (λ (p : Point). p.cycle < cycle)
        (λ (p : Point). cycle ≤ p.cycle) points.now result }
{
    let place = near.min(points.len());
    if is_early(points, place, cycle) {
        return places_from(points, place + 1, cycle);
    }
    if is_passed(points, place, cycle) {
        return places_up_to(points, place - 1, cycle);
    }
    place
}

/// The load just before the point at a place, 0 before the first.
pub fn load_before(points: &[Point], place: usize) -> u64
    requires { place ≤ length points.now }
    ensures { result ≡ load_before_place points.now place }
{
    if place == 0 {
        0
    } else {
        points[place - 1].load
    }
}

/// Whether the point at a place is there and stands at a cycle.
pub fn stands_at(points: &[Point], place: usize, cycle: u64) -> bool
    ensures there { result ≡ true →
        (place < length points.now) × ((slice_index_or points.now place no_point).cycle ≡ cycle) }
    ensures elsewhere { result ≡ false → place < length points.now →
        (slice_index_or points.now place no_point).cycle ≡ cycle → ⊥ }
{
    place < points.len() && points[place].cycle == cycle
}

/// Puts a point to a place, in room that is there.
pub fn put_point(points: &mut Vec<Point>, place: usize, point: Point)
    requires place { place ≤ length points.old.items }
    requires room { length points.old.items < vec_capacity points.old }
    ensures items { points.new.items ≡ insert points.old.items place point }
    ensures capacity { vec_capacity points.new ≡ vec_capacity points.old }
{
    points.push_reserved(point);
    points[place..].rotate_right(1);
}

/// A mark more at a point.
pub fn use_more(points: &mut Vec<Point>, place: usize)
    requires place { place < length points.old.items }
    requires fits { (slice_index_or points.old.items place no_point).uses + 1 < 2 ^ 64 }
    ensures items { points.new.items ≡ slice_set points.old.items place
        (record {
          cycle = (slice_index_or points.old.items place no_point).cycle;
          load = (slice_index_or points.old.items place no_point).load;
          uses = (slice_index_or points.old.items place no_point).uses + 1;
        }) }
    ensures capacity { vec_capacity points.new ≡ vec_capacity points.old }
{
    points[place].uses += 1;
}

/// A mark less at a point.
pub fn use_less(points: &mut Vec<Point>, place: usize)
    requires place { place < length points.old.items }
    requires some { 1 ≤ (slice_index_or points.old.items place no_point).uses }
    ensures items { points.new.items ≡ slice_set points.old.items place
        (record {
          cycle = (slice_index_or points.old.items place no_point).cycle;
          load = (slice_index_or points.old.items place no_point).load;
          uses = (slice_index_or points.old.items place no_point).uses - 1;
        }) }
    ensures capacity { vec_capacity points.new ≡ vec_capacity points.old }
{
    points[place].uses -= 1;
}

/// Takes the points out at which no mark stands.
pub fn drop_unused(points: &mut Vec<Point>)
    ensures items { points.new.items ≡ filter is_used_point points.old.items }
    ensures capacity { vec_capacity points.new ≡ vec_capacity points.old }
{
    points.retain(
        |p: &Point| -> bool
            ensures { result ≡ not (nat_eq p.now.uses 0) }
        { p.uses != 0 },
    );
}

/// How many points are left without those at the end at which no mark stands.
fn count_used(points: &[Point]) -> usize
    ensures bound { result ≤ length points.now }
    ensures unused { all_uses (drop result points.now) ≡ 0 }
{
    let mut count = points.len();
    while count > 0 {
        if points[count - 1].uses != 0 {
            return count;
        }
        count -= 1;
    }
    0
}

/// Takes the points at the end out at which no mark stands.
pub fn drop_last_unused(points: &mut Vec<Point>)
    ensures items { (n : ℕ) × (points.new.items ≡ take n points.old.items)
        × (all_uses (drop n points.old.items) ≡ 0) }
    ensures capacity { vec_capacity points.new ≡ vec_capacity points.old }
{
    let count = count_used(points);
    points.truncate(count);
}
