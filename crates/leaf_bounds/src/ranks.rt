//! The ranks that each module may be on, with a trail of those that were taken from it.
ghost use Rattle.std.specs.Prelude.{◌≡◌, ◌+◌, ◌-◌, ◌*◌, ◌^◌, ◌<◌, ◌≤◌, ◌++◌, ◌∷◌, [], true, false, length, take, replicate, slice_set, vec_capacity, IfOk};
ghost use Rattle.leaf_bounds.specs.declared.ranks.Ranks.{Ranks};
ghost use Rattle.leaf_bounds.specs.Takings.{HasSpace, IsAfter, IsGivenBack, IsRestored, bit_at};

use outside::NoMemory;
use std::alloc::Global;

/// Where the modules may be, and what was taken from them since each could be anywhere.
#[derive(Drop)]
pub struct Ranks {
    /// For each module whether it may be on the rest, and then for each known rank whether each module may be on it.
    pub may: Vec<bool>,
    /// The places in `may` that were taken away.
    pub trail: Vec<usize>,
    /// How many places there is room for.
    pub most: usize,
}

/// Room for `modules` modules, of which each may be on the rest, and for `ranks` ranks. `NoMemory` where memory runs out.
pub(crate) fn anywhere(alloc: Global, modules: usize, ranks: usize) -> Result<Ranks, NoMemory>
    requires modules { modules < 2 ^ 40 }
    requires ranks { ranks ≤ 256 }
    ensures space { IfOk result HasSpace }
    ensures may { IfOk result (λ r. r.may.items ≡ replicate modules true) }
    ensures most { IfOk result (λ r. r.most ≡ (ranks + 1) * modules) }
{
    let most = (ranks + 1) * modules;
    let may = Vec::with_capacity(alloc, most)?;
    let trail = Vec::with_capacity(alloc, most)?;
    let mut ranks = Ranks { may, trail, most };
    allow_all(&mut ranks, modules);
    Ok(ranks)
}

/// Whether what stands at a place of `may` is left.
pub(crate) fn is_left(ranks: &Ranks, at: usize) -> bool
    requires { at < length ranks.now.may.items }
    ensures { result ≡ bit_at ranks.now.may.items at }
{
    ranks.may[at]
}

/// Notes a place and takes it away.
fn note_taken(ranks: &mut Ranks, at: usize)
    requires at { at < length ranks.old.may.items }
    requires room { length ranks.old.trail.items < vec_capacity ranks.old.trail }
    ensures may { ranks.new.may.items ≡ slice_set ranks.old.may.items at false }
    ensures trail { ranks.new.trail.items ≡ ranks.old.trail.items ++ at ∷ [] }
    ensures most { ranks.new.most ≡ ranks.old.most }
    ensures room { vec_capacity ranks.new.may ≡ vec_capacity ranks.old.may }
    ensures trail_room { vec_capacity ranks.new.trail ≡ vec_capacity ranks.old.trail }
{
    ranks.trail.push_reserved(at);
    ranks.may[at] = false;
}

/// Takes a place away, where it is left.
pub(crate) fn take_away(ranks: &mut Ranks, at: usize)
    requires space { HasSpace ranks.old }
    requires at { at < length ranks.old.may.items }
    ensures space { HasSpace ranks.new }
    ensures may { ranks.new.may.items ≡ slice_set ranks.old.may.items at false }
    ensures after { IsAfter ranks.old ranks.new }
{
    if is_left(ranks, at) {
        note_taken(ranks, at);
    }
}

/// Each module may be on the rest, where nothing is said yet.
fn allow_all(ranks: &mut Ranks, modules: usize)
    requires none { ranks.old.may.items ≡ [] }
    requires no_trail { ranks.old.trail.items ≡ [] }
    requires fits { modules ≤ ranks.old.most }
    requires room { ranks.old.most ≤ vec_capacity ranks.old.may }
    requires trail_room { ranks.old.most ≤ vec_capacity ranks.old.trail }
    ensures space { HasSpace ranks.new }
    ensures may { ranks.new.may.items ≡ replicate modules true }
    ensures most { ranks.new.most ≡ ranks.old.most }
{
    for _module in 0..modules {
        ranks.may.push_reserved(true);
    }
}

/// One more rank is known: the modules that may be on the rest may be on it.
pub(crate) fn copy_rest(ranks: &mut Ranks, modules: usize)
    requires space { HasSpace ranks.old }
    requires modules { modules ≤ length ranks.old.may.items }
    requires fits { length ranks.old.may.items + modules ≤ ranks.old.most }
    ensures space { HasSpace ranks.new }
    ensures may { ranks.new.may.items ≡ ranks.old.may.items ++ take modules ranks.old.may.items }
    ensures after { IsAfter ranks.old ranks.new }
{
    for place in 0..modules {
        let on_rest = is_left(ranks, place);
        ranks.may.push_reserved(on_rest);
    }
}

/// Gives a place back.
fn put_back(ranks: &mut Ranks, at: usize)
    ensures may { ranks.new.may.items ≡ slice_set ranks.old.may.items at true }
    ensures trail { ranks.new.trail.items ≡ ranks.old.trail.items }
    ensures most { ranks.new.most ≡ ranks.old.most }
    ensures room { vec_capacity ranks.new.may ≡ vec_capacity ranks.old.may }
    ensures trail_room { vec_capacity ranks.new.trail ≡ vec_capacity ranks.old.trail }
{
    if at < ranks.may.len() {
        ranks.may[at] = true;
    }
}

/// Gives the last place that was taken away back.
fn undo_last(ranks: &mut Ranks)
    ensures after { (before : Ranks) → IsAfter before ranks.old →
        length before.trail.items < length ranks.old.trail.items → IsAfter before ranks.new }
    ensures shorter { length ranks.new.trail.items ≡ length ranks.old.trail.items - 1 }
{
    if let Some(at) = ranks.trail.pop() {
        put_back(ranks, at);
    }
}

/// How many places are noted.
pub(crate) fn takings(ranks: &Ranks) -> usize
    ensures { result ≡ length ranks.now.trail.items }
{
    ranks.trail.len()
}

/// Gives back all places that were noted but the first `kept`.
fn undo_takings(ranks: &mut Ranks, kept: usize)
    ensures { (before : Ranks) → length before.trail.items ≡ kept → IsAfter before ranks.old →
        IsGivenBack before ranks.new }
{
    let count = takings(ranks);
    for step in kept..count {
        undo_last(ranks);
    }
}

/// Gives back all places that were noted but the first `kept`, and leaves out the ranks behind the first `places` places.
pub(crate) fn undo_ranks(ranks: &mut Ranks, kept: usize, places: usize)
    ensures { (before : Ranks) → length before.trail.items ≡ kept →
        length before.may.items ≡ places → HasSpace before → IsAfter before ranks.old →
        IsRestored before ranks.new }
{
    undo_takings(ranks, kept);
    ranks.may.truncate(places);
}
