//! Lists that stand in room that was taken for them before.
ghost use Rattle.std.specs.Prelude.{◌≡◌, ◌<◌, ◌≤◌, true, length, slice_index_or, slice_set, vec_capacity, IfOk};
ghost use Rattle.std.specs.List.{insert, remove};

use outside::NoMemory;
use std::alloc::Global;
use std::mem::replace;

/// Room for `items` items.
pub(crate) fn room_for<T>(alloc: Global, items: usize) -> Result<Vec<T>, NoMemory>
    ensures { IfOk result (λ room. items ≤ vec_capacity room) }
{
    Ok(Vec::with_capacity(alloc, items)?)
}

/// Whether two lists are the same.
pub(crate) fn are_same(one: &[usize], other: &[usize]) -> bool
    ensures { result ≡ true → one.now ≡ other.now }
{
    one == other
}

/// Copies a list into one that has room for it.
pub(crate) fn copy_to(to: &mut Vec<usize>, from: &[usize])
    requires { length from.now ≤ vec_capacity to.old }
    ensures items { to.new.items ≡ from.now }
    ensures room { vec_capacity to.new ≡ vec_capacity to.old }
{
    to.clear();
    for item in from {
        to.push_reserved(*item);
    }
}

/// Puts an item to a place, in room that is there. At the end nothing has to move.
pub(crate) fn put_at(to: &mut Vec<usize>, place: usize, item: usize)
    requires place { place ≤ length to.old.items }
    requires room { length to.old.items < vec_capacity to.old }
    ensures items { to.new.items ≡ insert to.old.items place item }
    ensures room { vec_capacity to.new ≡ vec_capacity to.old }
{
    if place == to.len() {
        to.push_reserved(item);
        return;
    }
    match to.insert(place, item) {
        Ok(()) => {}
        Err(_) => unreachable!(),
    }
}

/// Takes the item at a place out. At the end nothing has to move.
#[inline(always)]
pub(crate) fn take_at(from: &mut Vec<usize>, place: usize) -> usize
    requires { place < length from.old.items }
    ensures item { result ≡ slice_index_or from.old.items place result }
    ensures items { from.new.items ≡ remove from.old.items place }
    ensures room { vec_capacity from.new ≡ vec_capacity from.old }
{
    if place + 1 == from.len() {
        return from.take_last();
    }
    from.remove(place)
}

/// Puts an item in the place of another one, and answers that.
pub(crate) fn put_for(items: &mut [usize], place: usize, item: usize) -> usize
    requires { place < length items.old }
    ensures item { result ≡ slice_index_or items.old place result }
    ensures items { items.new ≡ slice_set items.old place item }
{
    replace(&mut items[place], item)
}
