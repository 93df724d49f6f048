//! Whether a split keeps its rule in a case.
ghost use Rattle.std.specs.Prelude.{◌≡◌, ℕ, None, ◌<◌, ◌≤◌, ◌∷◌, true, false, length, slice_index, IfSome};
ghost use Rattle.std.specs.List.{All};
ghost use Rattle.leaf_bounds.specs.Cases.{Case};
ghost use Rattle.bus_proofs.specs.Cases.{AreTwins, IsPlace, IsWide, with_rank};
ghost use Rattle.leaf_bounds.specs.CaseRooms.{HasCase, IsCaseOf, IsFurther};
ghost use Rattle.leaf_bounds.specs.Bases.{IsBasis, chip_of};
ghost use Rattle.bus_proofs.specs.Walks.{AreRanks, IsNewTwin, IsPlaceAt, IsRoomFor, IsWideNow};

use leaf_bounds::{Basis, CaseRoom, Interval, are_alike, interval_at, known_ranks, wired_place};

/// Ranks go below this.
pub(crate) const RANKS_MOST: usize = 256;

/// The rank is known then: where it is the next one, it is added.
fn know_rank(case: &mut CaseRoom, rank: usize)
    requires room { HasCase case.old }
    requires known { (c : Case) × IsCaseOf case.old c }
    requires most { case.old.widths.most ≡ 256 }
    requires rank { rank ≤ length case.old.widths.intervals.items }
    requires few { rank < 256 }
    ensures room { HasCase case.new }
    ensures further { IsFurther case.old case.new }
    ensures below { rank < length case.new.widths.intervals.items }
    ensures case { (c : Case) → IsCaseOf case.old c →
        IsCaseOf case.new (with_rank case.old.widths.wires c rank) }
{
    if rank < known_ranks(&case.widths) {
        return;
    }
    case.extend();
    case.tighten();
}

/// Whether a width is in an interval, and isn't its greatest.
fn is_inside(interval: Interval, width: u64) -> bool
    ensures yes { result ≡ true → (interval.low ≤ width) × (width < interval.high) }
    ensures no { result ≡ false → interval.low ≤ width → interval.high ≤ width }
{
    if width < interval.low {
        return false;
    }
    width < interval.high
}

/// Whether two cases by the width of a rank keep their rule. Where they do, the rank is known then.
pub(crate) fn is_wide(case: &mut CaseRoom, rank: u64, width: u64) -> bool
    requires room { HasCase case.old }
    requires known { (c : Case) × IsCaseOf case.old c }
    requires most { case.old.widths.most ≡ 256 }
    ensures room { HasCase case.new }
    ensures further { IsFurther case.old case.new }
    ensures yes { result ≡ true → (c : Case) → IsCaseOf case.old c →
        IsWideNow case.new case.old.widths.wires c rank width }
    ensures no { result ≡ false → (c : Case) → IsCaseOf case.old c →
        IsWide case.old.widths.wires c rank width → ⊥ }
{
    if (known_ranks(&case.widths) as u64) < rank {
        return false;
    }
    if rank >= RANKS_MOST as u64 {
        return false;
    }
    know_rank(case, rank as usize);
    let interval = interval_at(&case.widths, rank as usize);
    is_inside(interval, width)
}

/// Whether a number is that of a known rank.
fn is_known(known: usize, rank: u64) -> bool
    ensures yes { result ≡ true → rank < known }
    ensures no { result ≡ false → known ≤ rank }
{
    rank < known as u64
}

/// Whether one of the first `count` twins is this rank.
fn is_among(twins: &[u64], count: usize, rank: u64) -> bool
    requires { count ≤ length twins.now }
    ensures yes { result ≡ true → (q : ℕ) × (q < count) × (slice_index twins.now q ≡ rank) }
    ensures no { result ≡ false → (q : ℕ) → q < count → slice_index twins.now q ≡ rank → ⊥ }
{
    for at in 0..count {
        if twins[at] == rank {
            return true;
        }
    }
    false
}

/// Whether the twin at a place is a known rank, and another one than the first and than each twin before it.
fn is_new_twin(known: usize, rank: u64, twins: &[u64], at: usize) -> bool
    requires { at < length twins.now }
    ensures yes { result ≡ true → IsNewTwin known rank twins.now at }
    ensures no { result ≡ false → IsNewTwin known rank twins.now at → ⊥ }
{
    let twin = twins[at];
    if !is_known(known, twin) {
        return false;
    }
    if twin == rank {
        return false;
    }
    !is_among(twins, at, twin)
}

/// Whether a rank and its twins are known ranks, no two of them the same.
fn are_ranks(known: usize, rank: u64, twins: &[u64]) -> bool
    ensures yes { result ≡ true → AreRanks known (rank ∷ twins.now) }
    ensures no { result ≡ false → AreRanks known (rank ∷ twins.now) → ⊥ }
{
    if !is_known(known, rank) {
        return false;
    }
    for at in 0..twins.len() {
        if !is_new_twin(known, rank, twins, at) {
            return false;
        }
    }
    true
}

/// Whether two intervals are one fixed width.
fn are_fixed(one: Interval, other: Interval) -> bool
    ensures yes { result ≡ true →
        (one.low ≡ one.high) × (other.low ≡ one.low) × (other.high ≡ one.high) }
    ensures no { result ≡ false → one.low ≡ one.high → other.low ≡ one.low → other.high ≡ one.high →
        ⊥ }
{
    if one.low != one.high {
        return false;
    }
    if other.low != one.low {
        return false;
    }
    other.high == one.high
}

/// Whether a known rank is a twin of another.
fn is_twin(basis: &Basis<'_>, case: &CaseRoom, rank: usize, twin: usize) -> bool
    requires basis { IsBasis basis.now }
    requires room { IsRoomFor basis.now case.now }
    requires known { (c : Case) × IsCaseOf case.now c }
    requires rank { rank < length case.now.widths.intervals.items }
    requires twin { twin < length case.now.widths.intervals.items }
    ensures yes { result ≡ true → (c : Case) → IsCaseOf case.now c →
        AreTwins (chip_of basis.now) c rank twin }
    ensures no { result ≡ false → (c : Case) → IsCaseOf case.now c →
        AreTwins (chip_of basis.now) c rank twin → ⊥ }
{
    let one = interval_at(&case.widths, rank);
    let other = interval_at(&case.widths, twin);
    if !are_fixed(one, other) {
        return false;
    }
    let known = known_ranks(&case.widths);
    are_alike(&case.ranks, &basis.wired, known, rank, twin)
}

/// Whether each of some known ranks is a twin of another one.
fn are_twins(basis: &Basis<'_>, case: &CaseRoom, rank: usize, twins: &[u64]) -> bool
    requires basis { IsBasis basis.now }
    requires room { IsRoomFor basis.now case.now }
    requires known { (c : Case) × IsCaseOf case.now c }
    requires rank { rank < length case.now.widths.intervals.items }
    requires twins { All (λ q. q < length case.now.widths.intervals.items) twins.now }
    ensures yes { result ≡ true → (c : Case) → IsCaseOf case.now c →
        All (AreTwins (chip_of basis.now) c rank) twins.now }
    ensures no { result ≡ false → (c : Case) → IsCaseOf case.now c →
        All (AreTwins (chip_of basis.now) c rank) twins.now → ⊥ }
{
    for at in 0..twins.len() {
        let twin = twins[at];
        if !is_twin(basis, case, rank, twin as usize) {
            return false;
        }
    }
    true
}

/// The place of the module where two cases by the place of a module keep their rule.
pub(crate) fn placed(
    basis: &Basis<'_>,
    case: &CaseRoom,
    number: u64,
    rank: u64,
    twins: &[u64],
) -> Option<usize>
    requires basis { IsBasis basis.now }
    requires room { IsRoomFor basis.now case.now }
    requires known { (c : Case) × IsCaseOf case.now c }
    ensures some { IfSome result (λ place. (c : Case) → IsCaseOf case.now c →
        IsPlaceAt (chip_of basis.now) c number rank twins.now place) }
    ensures none { result ≡ None → (c : Case) → IsCaseOf case.now c →
        IsPlace (chip_of basis.now) c number rank twins.now → ⊥ }
{
    let Some(place) = wired_place(basis, number) else {
        return None;
    };
    let known = known_ranks(&case.widths);
    if !are_ranks(known, rank, twins) {
        return None;
    }
    if !are_twins(basis, case, rank as usize, twins) {
        return None;
    }
    Some(place)
}
