//! Lists that are filled and copied, and parts of lists.

/// Makes each item of a list the given one.
pub fn fill_items<T: Copy>(list: &mut [T], item: T) {
    for place in 0..list.len() {
        list[place] = item;
    }
}

/// Copies as much of a list as both have.
pub fn copy_items<T: Copy>(to: &mut [T], from: &[T]) {
    for place in 0..to.len().min(from.len()) {
        to[place] = from[place];
    }
}

/// `count` items of a list from a place on; none where they aren't there.
pub fn part(list: &[i64], start: usize, count: usize) -> &[i64] {
    if count > list.len() || start > list.len() - count {
        return &list[0..0];
    }
    &list[start..start + count]
}

/// `count` items of a list from a place on, to be written; none where they aren't there.
pub fn part_mut(list: &mut [i64], start: usize, count: usize) -> &mut [i64] {
    if count > list.len() || start > list.len() - count {
        return &mut list[0..0];
    }
    &mut list[start..start + count]
}
