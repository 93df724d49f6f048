//! The widths that the buses of the known ranks may have, with a trail of the changes that led to them.
ghost use Rattle.std.specs.Prelude.{◌≡◌, ◌+◌, ◌-◌, ◌<◌, ◌≤◌, ◌++◌, ◌∷◌, [], true, false, length, map, take, drop, slice_set, vec_capacity, IfOk};
ghost use Rattle.std.specs.List.{All};
ghost use Rattle.leaf_bounds.specs.declared.widths.IntervalChange.TheVariants.{Was};
ghost use Rattle.leaf_bounds.specs.declared.widths.Widths.{Widths};
ghost use Rattle.leaf_bounds.specs.Cases.{Case, IsEmpty, at_least, at_most, interval, interval_of, least_wires, spare, tightened_by};
ghost use Rattle.leaf_bounds.specs.Trails.{HasGap, HasNoGap, IsBack, IsFew, IsLater, IsPart, IsRoomy, tight, undone_once};

use outside::NoMemory;
use std::alloc::Global;

/// The least and the greatest width of a bus, in wires.
#[derive(Clone, Copy)]
pub struct Interval {
    pub low: u64,
    pub high: u64,
}

/// A change of the intervals, by what was before it.
#[derive(Clone, Copy)]
pub enum IntervalChange {
    /// The last rank wasn't there.
    Added,
    /// A rank had this interval.
    Was { rank: usize, old: Interval },
}

/// The intervals of the known ranks, and the changes since there was none.
#[derive(Drop)]
pub struct Widths {
    /// Rank by rank, in wires.
    pub intervals: Vec<Interval>,
    pub trail: Vec<IntervalChange>,
    /// The wires of the chip.
    pub wires: u64,
    /// How many ranks there is room for.
    pub most: usize,
}

/// The wires of a chip, at most.
const WIDTH_MOST: u64 = 256;

/// How often a rank is noted at most: once as it comes, and each time that an end of its interval moves by a wire.
const CHANGES_MOST: usize = 513;

/// Room for `most` ranks, of which none is known. `NoMemory` where memory runs out.
pub(crate) fn no_ranks(alloc: Global, wires: u64, most: usize) -> Result<Widths, NoMemory>
    requires wires { wires ≤ 256 }
    requires most { most ≤ 256 }
    ensures roomy { IfOk result IsRoomy }
    ensures none { IfOk result (λ v. v.intervals.items ≡ []) }
    ensures wires { IfOk result (λ v. v.wires ≡ wires) }
    ensures most { IfOk result (λ v. v.most ≡ most) }
{
    let intervals = Vec::with_capacity(alloc, most)?;
    let trail = Vec::with_capacity(alloc, most * CHANGES_MOST)?;
    Ok(Widths {
        intervals,
        trail,
        wires,
        most,
    })
}

/// How many ranks are known.
pub fn known_ranks(widths: &Widths) -> usize
    ensures { result ≡ length widths.now.intervals.items }
{
    widths.intervals.len()
}

/// The interval of a known rank, in wires.
pub fn interval_at(widths: &Widths, rank: usize) -> Interval
    requires { rank < length widths.now.intervals.items }
    ensures { result ≡ interval_of widths.now.intervals.items rank }
{
    widths.intervals[rank]
}

/// Gives a rank another interval, and notes the one that it had.
fn put_interval(widths: &mut Widths, rank: usize, old: Interval, interval: Interval)
    requires rank { rank < length widths.old.intervals.items }
    requires room { length widths.old.trail.items < vec_capacity widths.old.trail }
    ensures intervals { widths.new.intervals.items
        ≡ slice_set widths.old.intervals.items rank interval }
    ensures trail { widths.new.trail.items ≡ widths.old.trail.items ++ Was rank old ∷ [] }
    ensures wires { widths.new.wires ≡ widths.old.wires }
    ensures most { widths.new.most ≡ widths.old.most }
    ensures room { vec_capacity widths.new.intervals ≡ vec_capacity widths.old.intervals }
    ensures trail_room { vec_capacity widths.new.trail ≡ vec_capacity widths.old.trail }
{
    widths
        .trail
        .push_reserved(IntervalChange::Was { rank, old });
    widths.intervals[rank] = interval;
}

/// Gives a rank an interval within the one that it has, which is noted where it is another one.
fn narrow_rank(widths: &mut Widths, rank: usize, interval: Interval)
    requires roomy { IsRoomy widths.old }
    requires rank { rank < length widths.old.intervals.items }
    requires within { IsPart interval (interval_of widths.old.intervals.items rank) }
    ensures roomy { IsRoomy widths.new }
    ensures intervals { widths.new.intervals.items
        ≡ slice_set widths.old.intervals.items rank interval }
    ensures later { IsLater widths.old widths.new }
{
    let old = interval_at(widths, rank);
    if old.low < interval.low {
        put_interval(widths, rank, old, interval);
        return;
    }
    if interval.high < old.high {
        put_interval(widths, rank, old, interval);
    }
}

/// The least widths of some ranks, together.
pub(crate) fn least_wires(intervals: &[Interval]) -> u64
    requires few { All IsFew intervals.now }
    requires known { length intervals.now ≤ 256 }
    ensures { result ≡ least_wires intervals.now }
{
    let mut least = 0;
    for interval in intervals {
        least += interval.low;
    }
    least
}

/// The least widths of the known ranks, together.
fn least_of(widths: &Widths) -> u64
    requires { IsRoomy widths.now }
    ensures { result ≡ least_wires widths.now.intervals.items }
{
    least_wires(&widths.intervals)
}

/// The wires beyond the least widths.
pub(crate) fn spare_wires(widths: &Widths) -> u64
    requires { IsRoomy widths.now }
    ensures { result ≡ spare widths.now.wires widths.now.intervals.items }
{
    widths.wires.saturating_sub(least_of(widths))
}

/// Whether no width is in an interval.
fn has_no_width(interval: Interval) -> bool
    ensures yes { result ≡ true → interval.high < interval.low }
    ensures no { result ≡ false → interval.low ≤ interval.high }
{
    interval.high < interval.low
}

/// Whether a known rank has no width.
fn any_without_width(widths: &Widths) -> bool
    ensures yes { result ≡ true → HasGap widths.now.intervals.items }
    ensures no { result ≡ false →
        HasNoGap widths.now.intervals.items (length widths.now.intervals.items) }
{
    let count = known_ranks(widths);
    for rank in 0..count {
        let interval = interval_at(widths, rank);
        if has_no_width(interval) {
            return true;
        }
    }
    false
}

/// Whether no plan is in a case with these intervals: their least widths take more than all wires, or a rank has no width.
pub(crate) fn is_empty(widths: &Widths) -> bool
    requires { IsRoomy widths.now }
    ensures yes { result ≡ true → (c : Case) → c.intervals ≡ widths.now.intervals.items →
        IsEmpty widths.now.wires c }
    ensures no { result ≡ false → (c : Case) → c.intervals ≡ widths.now.intervals.items →
        IsEmpty widths.now.wires c → ⊥ }
{
    let least = least_of(widths);
    let wires = widths.wires;
    if wires < least {
        return true;
    }
    any_without_width(widths)
}

/// The interval with no more than `more` wires beyond its least width, and no wider than `above`.
fn tight(interval: Interval, more: u64, above: u64) -> Interval
    requires few { IsFew interval }
    requires more { more ≤ 256 }
    ensures { result ≡ tight more above interval }
{
    let high = interval.high.min(interval.low + more).min(above);
    Interval {
        low: interval.low,
        high,
    }
}

/// The interval up to a width.
fn at_most(interval: Interval, width: u64) -> Interval
    ensures { result ≡ at_most width interval }
{
    Interval {
        low: interval.low,
        high: interval.high.min(width),
    }
}

/// The interval from a width on.
fn at_least(interval: Interval, width: u64) -> Interval
    ensures { result ≡ at_least width interval }
{
    Interval {
        low: interval.low.max(width),
        high: interval.high,
    }
}

/// Narrows each interval to what its least width, the wires that are left and the rank before it leave to it.
pub(crate) fn tighten_ranks(widths: &mut Widths)
    requires roomy { IsRoomy widths.old }
    ensures roomy { IsRoomy widths.new }
    ensures intervals { widths.new.intervals.items
        ≡ tightened_by (spare widths.old.wires widths.old.intervals.items)
        widths.old.intervals.items }
    ensures later { IsLater widths.old widths.new }
{
    let more = spare_wires(widths);
    let count = known_ranks(widths);
    let mut above = WIDTH_MOST;
    for rank in 0..count {
        let old = interval_at(widths, rank);
        let next = tight(old, more, above);
        narrow_rank(widths, rank, next);
        above = next.high;
    }
}

/// No bus from a rank on is wider than `width`.
pub(crate) fn narrow_ranks(widths: &mut Widths, from: usize, width: u64)
    requires roomy { IsRoomy widths.old }
    ensures roomy { IsRoomy widths.new }
    ensures intervals { widths.new.intervals.items
        ≡ take from widths.old.intervals.items
        ++ map (at_most width) (drop from widths.old.intervals.items) }
    ensures later { IsLater widths.old widths.new }
{
    let count = known_ranks(widths);
    for rank in from..count {
        let old = interval_at(widths, rank);
        let next = at_most(old, width);
        narrow_rank(widths, rank, next);
    }
}

/// No bus of the first `count` ranks is narrower than `width`.
pub(crate) fn widen_ranks(widths: &mut Widths, count: usize, width: u64)
    requires roomy { IsRoomy widths.old }
    requires count { count ≤ length widths.old.intervals.items }
    requires width { width ≤ 256 }
    ensures roomy { IsRoomy widths.new }
    ensures intervals { widths.new.intervals.items
        ≡ map (at_least width) (take count widths.old.intervals.items)
        ++ drop count widths.old.intervals.items }
    ensures later { IsLater widths.old widths.new }
{
    for rank in 0..count {
        let old = interval_at(widths, rank);
        let next = at_least(old, width);
        narrow_rank(widths, rank, next);
    }
}

/// One more rank is known: its bus may have any width.
pub(crate) fn add_rank(widths: &mut Widths)
    requires roomy { IsRoomy widths.old }
    requires room { length widths.old.intervals.items < widths.old.most }
    ensures roomy { IsRoomy widths.new }
    ensures intervals { widths.new.intervals.items
        ≡ widths.old.intervals.items ++ interval 0 widths.old.wires ∷ [] }
    ensures later { IsLater widths.old widths.new }
{
    let any = Interval {
        low: 0,
        high: widths.wires,
    };
    widths.trail.push_reserved(IntervalChange::Added);
    widths.intervals.push_reserved(any);
}

/// Takes a change back.
fn undo_once(widths: &mut Widths, change: IntervalChange)
    ensures intervals { widths.new.intervals.items ≡ undone_once widths.old.intervals.items change }
    ensures trail { widths.new.trail.items ≡ widths.old.trail.items }
    ensures wires { widths.new.wires ≡ widths.old.wires }
    ensures most { widths.new.most ≡ widths.old.most }
    ensures room { vec_capacity widths.new.intervals ≡ vec_capacity widths.old.intervals }
    ensures trail_room { vec_capacity widths.new.trail ≡ vec_capacity widths.old.trail }
{
    match change {
        IntervalChange::Added => {
            widths.intervals.pop();
        }
        IntervalChange::Was { rank, old } => {
            if rank < widths.intervals.len() {
                widths.intervals[rank] = old;
            }
        }
    }
}

/// Takes the last change back.
fn undo_last(widths: &mut Widths)
    ensures later { (before : Widths) → IsLater before widths.old →
        length before.trail.items < length widths.old.trail.items → IsLater before widths.new }
    ensures shorter { length widths.new.trail.items ≡ length widths.old.trail.items - 1 }
{
    if let Some(change) = widths.trail.pop() {
        undo_once(widths, change);
    }
}

/// How many changes are noted.
pub(crate) fn changes(widths: &Widths) -> usize
    ensures { result ≡ length widths.now.trail.items }
{
    widths.trail.len()
}

/// Takes back all changes but the first `kept`.
pub(crate) fn undo_changes(widths: &mut Widths, kept: usize)
    ensures { (before : Widths) → length before.trail.items ≡ kept →
        IsRoomy before → IsLater before widths.old → IsBack before widths.new }
{
    let count = changes(widths);
    for step in kept..count {
        undo_last(widths);
    }
}
