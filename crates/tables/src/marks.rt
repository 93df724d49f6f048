//! Rows of marks: 64 places in a word. Outside of a row nothing is marked.

use crate::{item_or, put_item};

/// The words of a row of marks for so many places, at least 1.
pub fn words_for(places: usize) -> usize {
    places.div_ceil(64).max(1)
}

/// Whether a place is marked in the row that begins at the word `from`.
pub fn marked(rows: &[u64], from: usize, place: usize) -> bool {
    let word = item_or(rows, from.saturating_add(place >> 6), 0);
    (word >> (place & 63)) & 1 == 1
}

/// Marks a place in the row that begins at the word `from`.
pub fn mark_place(rows: &mut [u64], from: usize, place: usize) {
    let at = from.saturating_add(place >> 6);
    let word = item_or(rows, at, 0);
    put_item(rows, at, word | (1u64 << (place & 63)));
}

/// Unmarks a place in the row that begins at the word `from`.
pub fn unmark_place(rows: &mut [u64], from: usize, place: usize) {
    let at = from.saturating_add(place >> 6);
    let word = item_or(rows, at, 0);
    put_item(rows, at, word & !(1u64 << (place & 63)));
}

/// Marks a place in the row that begins at the word `from`, or unmarks it.
pub fn set_mark(rows: &mut [u64], from: usize, place: usize, on: bool) {
    if on {
        mark_place(rows, from, place);
    } else {
        unmark_place(rows, from, place);
    }
}

/// The first place that is marked in a word of a row, the one at the place `word`.
pub fn first_mark(word: usize, marks: u64) -> usize {
    word.saturating_mul(64)
        .saturating_add(marks.trailing_zeros() as usize)
}

/// The marks of a word without the first.
pub fn without_first(marks: u64) -> u64 {
    marks & marks.wrapping_sub(1)
}

/// What the marked places of a word count together, the one at the place `word` of a row.
pub fn sum_of_marked(counts: &[i64], word: usize, marks: u64) -> i64 {
    let mut left = marks;
    let mut sum: i64 = 0;
    for _ in 0..64 {
        if left == 0 {
            break;
        }
        sum = sum.saturating_add(item_or(counts, first_mark(word, left), 0));
        left = without_first(left);
    }
    sum
}
