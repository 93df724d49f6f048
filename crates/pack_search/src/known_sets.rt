//! The sets of modules that rows of a programme stand for.

use crate::module_set::{ModuleSet, copy_row, words_of};
use outside::NoMemory;
use pack_values::REST;
use std::alloc::Global;
use tables::{NONE, filled, item_or, put_item};

/// The sets that have rows, by the tags of these. A tag is free again where its row is gone.
#[derive(Drop)]
pub(crate) struct KnownSets {
    words: usize,
    /// For each tag whether a row has it.
    taken: Vec<bool>,
    /// For each tag the rank of its set.
    ranks: Vec<usize>,
    /// For each tag a row of marks: the modules of its set.
    rows: Vec<u64>,
}

/// Makes all tags free.
fn free_all(taken: &mut [bool]) {
    for tag in 0..taken.len() {
        taken[tag] = false;
    }
}

/// `count` items of a list from a place on; none where they aren't there.
pub(crate) fn part(list: &[u64], from: usize, count: usize) -> &[u64] {
    if count > list.len() || from > list.len() - count {
        return &list[0..0];
    }
    &list[from..from + count]
}

/// A part of a list, to be written; empty where the list has no such part.
pub(crate) fn part_mut(list: &mut [u64], from: usize, count: usize) -> &mut [u64] {
    if count > list.len() || from > list.len() - count {
        return &mut list[0..0];
    }
    &mut list[from..from + count]
}

impl KnownSets {
    /// Room for `most` sets. `NoMemory` where memory runs out.
    pub fn new(alloc: Global, modules: usize, most: usize) -> Result<KnownSets, NoMemory> {
        let words = words_of(modules);
        let taken = filled(alloc, false, most)?;
        let ranks = filled(alloc, REST, most)?;
        let rows = filled(alloc, 0u64, most.saturating_mul(words))?;
        Ok(KnownSets {
            words,
            taken,
            ranks,
            rows,
        })
    }

    /// Forgets all sets.
    pub fn clear_sets(&mut self) {
        free_all(&mut self.taken);
    }

    /// Keeps the set of a tag.
    pub fn hold(&mut self, tag: usize) {
        put_item(&mut self.taken, tag, true);
    }

    /// A free tag, NONE where there is none.
    fn free_tag(&self) -> usize {
        for tag in 0..self.taken.len() {
            if !self.taken[tag] {
                return tag;
            }
        }
        NONE
    }

    /// Adds a set. Answers its tag, NONE where there is no room.
    pub fn add(&mut self, set: &ModuleSet) -> usize {
        let tag = self.free_tag();
        if tag != NONE {
            put_item(&mut self.taken, tag, true);
            put_item(&mut self.ranks, tag, set.rank);
            let from = tag.saturating_mul(self.words);
            copy_row(part_mut(&mut self.rows, from, self.words), &set.row);
        }
        tag
    }

    /// The rank of the set of a tag.
    pub fn rank(&self, tag: usize) -> usize {
        item_or(&self.ranks, tag, REST)
    }

    /// The modules of the set of a tag, as a row of marks.
    pub fn row(&self, tag: usize) -> &[u64] {
        part(&self.rows, tag.saturating_mul(self.words), self.words)
    }
}
