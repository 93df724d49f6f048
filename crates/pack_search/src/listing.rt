//! The lists that an attempt weighs.

use crate::warm::Warm;
use outside::NoMemory;
use pack_values::{PackCase, Uses};
use std::alloc::Global;
use tables::{NONE, filled, item_or, put_item};

/// The most lists of a proof.
pub(crate) const LISTS_MOST: usize = 256;

/// The lists that an attempt weighs, with the room of each: the most that tests over the wires use of it below the claim.
#[derive(Drop)]
pub(crate) struct Listing {
    /// How many there are.
    pub count: usize,
    /// Their places among the lists of the proof.
    places: Vec<usize>,
    /// The room of each, in cycles, at least 1.
    rooms: Vec<u64>,
}

/// Whether a list may be weighed in a case: what names a rank may not name one that isn't known.
fn may_weigh<U: Uses>(case: &PackCase, uses: &U, list: usize) -> bool {
    let rank = uses.rank(list);
    rank == NONE || rank < case.known
}

/// What tests over the wires use of a list at most below a claim, in cycles.
fn room_of<U: Uses>(uses: &U, list: usize, claim: u64) -> u64 {
    uses.most(list)
        .saturating_mul(claim.saturating_sub(1))
        .saturating_sub(uses.of_selfs(list))
}

impl Listing {
    /// Room for lists; there are none yet. `NoMemory` where memory runs out.
    pub fn new(alloc: Global) -> Result<Listing, NoMemory> {
        let places = filled(alloc, NONE, LISTS_MOST)?;
        let rooms = filled(alloc, 0u64, LISTS_MOST)?;
        Ok(Listing {
            count: 0,
            places,
            rooms,
        })
    }

    /// The place among the lists of the proof of the one at a place here.
    pub fn list(&self, at: usize) -> usize {
        item_or(&self.places, at, NONE)
    }

    /// The room of the list at a place here, in cycles; 0 where there is none.
    pub fn room(&self, at: usize) -> u64 {
        item_or(&self.rooms, at, 0)
    }

    /// The place here of a list of the proof, NONE where it isn't weighed.
    pub fn place_of(&self, list: usize) -> usize {
        for at in 0..self.count {
            if self.list(at) == list {
                return at;
            }
        }
        NONE
    }

    /// The least room of a list; the greatest number where there is no list.
    pub fn least_room(&self) -> u64 {
        let mut least = u64::MAX;
        for at in 0..self.count {
            least = least.min(self.room(at));
        }
        least
    }

    /// Adds a list, where it may be weighed and isn't there yet.
    fn add<U: Uses>(&mut self, case: &PackCase, uses: &U, list: usize, claim: u64) {
        if self.count >= LISTS_MOST || !may_weigh(case, uses, list) {
            return;
        }
        let room = room_of(uses, list, claim);
        if room == 0 || self.place_of(list) != NONE {
            return;
        }
        put_item(&mut self.places, self.count, list);
        put_item(&mut self.rooms, self.count, room);
        self.count = self.count.saturating_add(1);
    }

    /// Takes the lists for a claim: some, and those that another attempt weighed.
    pub fn take<U: Uses>(
        &mut self,
        case: &PackCase,
        uses: &U,
        lists: &[usize],
        warm: &Warm,
        claim: u64,
    ) {
        self.count = 0;
        for place in 0..lists.len() {
            self.add(case, uses, lists[place], claim);
        }
        for place in 0..warm.lists() {
            self.add(case, uses, warm.list(place), claim);
        }
    }
}
