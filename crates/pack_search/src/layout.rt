//! What the variables of a programme stand for.

use outside::NoMemory;
use pack_values::PackCase;
use std::alloc::Global;
use tables::{NONE, filled, item_or, put_item};

/// The most known ranks of a case.
const RANKS_MOST: usize = 256;

/// The variables of a programme: first the prices of the modules, then the worths of the known ranks that may have wires, of all
/// spare wires together, and of the lists.
#[derive(Drop)]
pub(crate) struct Layout {
    /// How many variables there are.
    pub count: usize,
    /// How many modules there are.
    pub modules: usize,
    /// For each known rank its variable, NONE where its bus has no wires.
    rank_at: Vec<usize>,
    /// The variable of the spare wires, NONE where there are none.
    pub wires: usize,
    /// The variable of the first list.
    pub lists_from: usize,
}

impl Layout {
    /// Room for a layout; it has no variables yet. `NoMemory` where memory runs out.
    pub fn new(alloc: Global) -> Result<Layout, NoMemory> {
        let rank_at = filled(alloc, NONE, RANKS_MOST)?;
        Ok(Layout {
            count: 0,
            modules: 0,
            rank_at,
            wires: NONE,
            lists_from: 0,
        })
    }

    /// The variable of a rank, NONE where its bus has no wires; the rest has none.
    pub fn of_rank(&self, rank: usize) -> usize {
        item_or(&self.rank_at, rank, NONE)
    }

    /// The variable of the list at a place of the attempt.
    pub fn of_list(&self, at: usize) -> usize {
        self.lists_from.saturating_add(at)
    }

    /// Adds a variable and answers its place.
    fn add(&mut self) -> usize {
        let place = self.count;
        self.count = place.saturating_add(1);
        place
    }

    /// Adds the variables of the known ranks.
    fn add_ranks(&mut self, case: &PackCase) {
        for rank in 0..self.rank_at.len() {
            let mut place = NONE;
            if rank < case.known && case.high(rank) > 0 {
                place = self.add();
            }
            put_item(&mut self.rank_at, rank, place);
        }
    }

    /// Takes the variables of a case with `lists` lists.
    pub fn take(&mut self, case: &PackCase, lists: usize) {
        self.modules = case.modules;
        self.count = case.modules;
        self.add_ranks(case);
        self.wires = if case.spare > 0 { self.add() } else { NONE };
        self.lists_from = self.count;
        self.count = self.count.saturating_add(lists);
    }
}
