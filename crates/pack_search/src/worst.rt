//! The sets that break their rows most.

use crate::rows::BREACH;
use crate::scheme::ADDED_MOST;
use outside::NoMemory;
use std::alloc::Global;
use tables::{NONE, filled, item_or, put_item};

/// The found sets that break their rows most, the worst first; of those that break them alike the one that was found first.
#[derive(Drop)]
pub(crate) struct Worst {
    /// How many there are.
    pub count: usize,
    /// Their places among the found sets.
    places: Vec<usize>,
    /// By how much each breaks its row.
    breaches: Vec<i64>,
}

impl Worst {
    /// Room for as many as a round adds; there are none yet. `NoMemory` where memory runs out.
    pub fn new(alloc: Global) -> Result<Worst, NoMemory> {
        let places = filled(alloc, NONE, ADDED_MOST)?;
        let breaches = filled(alloc, 0i64, ADDED_MOST)?;
        Ok(Worst {
            count: 0,
            places,
            breaches,
        })
    }

    /// Forgets all.
    pub fn clear_worst(&mut self) {
        self.count = 0;
    }

    /// The place of one of them among the found sets.
    pub fn place(&self, at: usize) -> usize {
        item_or(&self.places, at, NONE)
    }

    /// Where a breach comes among the others.
    fn place_for(&self, breach: i64) -> usize {
        for at in 0..self.count {
            if breach > item_or(&self.breaches, at, i64::MAX) {
                return at;
            }
        }
        self.count
    }

    /// Notes a found set, where it breaks its row by enough, and more than the last one of those that are noted.
    pub fn note(&mut self, place: usize, breach: i64) {
        let at = self.place_for(breach);
        if breach <= BREACH || at >= ADDED_MOST {
            return;
        }
        self.count = self.count.saturating_add(1).min(ADDED_MOST);
        for back in 1..self.count.saturating_sub(at) {
            let to = self.count.saturating_sub(back);
            let from = to.saturating_sub(1);
            let place = self.place(from);
            let breach = item_or(&self.breaches, from, 0);
            put_item(&mut self.places, to, place);
            put_item(&mut self.breaches, to, breach);
        }
        put_item(&mut self.places, at, place);
        put_item(&mut self.breaches, at, breach);
    }
}
