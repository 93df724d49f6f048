//! A module is put on one of the known ranks, or kept off some of them.
ghost use Rattle.std.specs.Prelude.{◌≡◌, ◌≢◌, ◌+◌, ◌*◌, ◌<◌, ◌∷◌, false, slice_set};
ghost use Rattle.std.specs.List.{All};
ghost use Rattle.leaf_bounds.specs.Cases.{Case, known_ranks, placed_off, placed_on};
ghost use Rattle.leaf_bounds.specs.Takings.{HasSpace, IsAfter, bit_at};
ghost use Rattle.leaf_bounds.specs.Bits.{HasBits, HasPlace, IsNamed, IsWithout, bit_place};

use crate::ranks::{Ranks, is_left, take_away};

/// A module by its place, among how many modules, and how many ranks are known.
#[derive(Clone, Copy)]
pub(crate) struct Placing {
    pub place: usize,
    pub modules: usize,
    pub known: usize,
}

/// Whether the module may be on a known rank.
pub(crate) fn may_be_on(ranks: &Ranks, at: Placing, rank: usize) -> bool
    requires at { HasPlace ranks.now.may.items at }
    requires rank { rank < at.known }
    ensures { result ≡ bit_at ranks.now.may.items (bit_place at.modules at.place rank) }
{
    is_left(ranks, (rank + 1) * at.modules + at.place)
}

/// Takes a known rank from the module.
fn take_rank(ranks: &mut Ranks, at: Placing, rank: usize)
    requires space { HasSpace ranks.old }
    requires at { HasPlace ranks.old.may.items at }
    requires rank { rank < at.known }
    ensures space { HasSpace ranks.new }
    ensures may { ranks.new.may.items
        ≡ slice_set ranks.old.may.items (bit_place at.modules at.place rank) false }
    ensures after { IsAfter ranks.old ranks.new }
{
    take_away(ranks, (rank + 1) * at.modules + at.place);
}

/// Takes a known rank from the module, where it isn't the one that is kept.
fn take_other(ranks: &mut Ranks, at: Placing, rank: usize, kept: usize)
    requires space { HasSpace ranks.old }
    requires at { HasPlace ranks.old.may.items at }
    requires rank { rank < at.known }
    ensures space { HasSpace ranks.new }
    ensures taken { rank ≢ kept →
        ranks.new.may.items
        ≡ slice_set ranks.old.may.items (bit_place at.modules at.place rank) false }
    ensures kept { rank ≡ kept → ranks.new.may.items ≡ ranks.old.may.items }
    ensures after { IsAfter ranks.old ranks.new }
{
    if rank == kept {
        return;
    }
    take_rank(ranks, at, rank);
}

/// Takes each known rank from the module but one.
fn take_others(ranks: &mut Ranks, at: Placing, kept: usize)
    requires space { HasSpace ranks.old }
    requires at { HasPlace ranks.old.may.items at }
    ensures space { HasSpace ranks.new }
    ensures without { IsWithout at.modules at.place (λ q. (q < at.known) × (q ≢ kept))
        ranks.old.may.items ranks.new.may.items }
    ensures after { IsAfter ranks.old ranks.new }
{
    for rank in 0..at.known {
        take_other(ranks, at, rank, kept);
    }
}

/// The module may be on a rank alone, where it may be on it.
pub(crate) fn place_on(ranks: &mut Ranks, at: Placing, rank: usize)
    requires space { HasSpace ranks.old }
    requires at { HasPlace ranks.old.may.items at }
    ensures space { HasSpace ranks.new }
    ensures placed { (c : Case) → known_ranks c ≡ at.known →
        HasBits at.modules ranks.old.may.items c →
        HasBits at.modules ranks.new.may.items (placed_on c rank at.place) }
    ensures after { IsAfter ranks.old ranks.new }
{
    take_away(ranks, at.place);
    take_others(ranks, at, rank);
}

/// Takes some known ranks from the module.
fn take_ranks(ranks: &mut Ranks, at: Placing, off: &[u64])
    requires space { HasSpace ranks.old }
    requires at { HasPlace ranks.old.may.items at }
    requires off { All (λ q. q < at.known) off.now }
    ensures space { HasSpace ranks.new }
    ensures without { IsWithout at.modules at.place (IsNamed off.now) ranks.old.may.items
        ranks.new.may.items }
    ensures after { IsAfter ranks.old ranks.new }
{
    for rank in off {
        take_rank(ranks, at, *rank as usize);
    }
}

/// The module may be on none of some known ranks: a first one, and others.
pub(crate) fn place_off(ranks: &mut Ranks, at: Placing, rank: usize, twins: &[u64])
    requires space { HasSpace ranks.old }
    requires at { HasPlace ranks.old.may.items at }
    requires rank { rank < at.known }
    requires twins { All (λ q. q < at.known) twins.now }
    ensures space { HasSpace ranks.new }
    ensures placed { (c : Case) → known_ranks c ≡ at.known →
        HasBits at.modules ranks.old.may.items c →
        HasBits at.modules ranks.new.may.items (placed_off c (rank ∷ twins.now) at.place) }
    ensures after { IsAfter ranks.old ranks.new }
{
    take_ranks(ranks, at, twins);
    take_rank(ranks, at, rank);
}
