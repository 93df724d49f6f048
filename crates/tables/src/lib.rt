//! Lists that are read and written at any place, sets and shares in whole numbers, for searches that owe nothing of what they find.
//!
//! A search whose answer is checked by others keeps its numbers in tables, and finds their places by sums. These calls ask for no
//! proof that a place is there: what is not there reads as a given item, and is not written. A set of places is a row of marks, 64
//! places in a word; rows of several sets stand one behind another. A share is a part of a whole, which is [`ONE`].
#![tactic(auto)]

ghost use Rattle.std.specs.Prelude.{◌≡◌, length, slice_index_or, slice_set, IfOk};

mod fractions;
mod items;
mod marks;
mod shares;

pub use fractions::{FRACTION_PLACES, HALF, UNIT, cut_off, wide_product};
pub use items::{copy_items, fill_items, part, part_mut};
pub use marks::{
    first_mark, mark_place, marked, set_mark, sum_of_marked, unmark_place, without_first, words_for,
};
use outside::NoMemory;
pub use shares::{ONE, SHARE_PLACES, as_number, as_part, share_of, short_share};
use std::alloc::Global;

/// No place.
pub const NONE: usize = usize::MAX;

/// `count` copies of an item. `NoMemory` where memory runs out.
pub fn filled<T: Copy>(alloc: Global, item: T, count: usize) -> Result<Vec<T>, NoMemory>
    ensures { IfOk result (λ list. length list.items ≡ count) }
{
    Ok(vec![in alloc; item; count]?)
}

/// The item at a place, another one where there is none.
pub fn item_or<T: Copy>(list: &[T], place: usize, other: T) -> T
    ensures { result ≡ slice_index_or list.now place other }
{
    if place < list.len() {
        list[place]
    } else {
        other
    }
}

/// Writes an item at a place, where there is one.
pub fn put_item<T: Copy>(list: &mut [T], place: usize, item: T)
    ensures { list.new ≡ slice_set list.old place item }
{
    if place < list.len() {
        list[place] = item;
    }
}
