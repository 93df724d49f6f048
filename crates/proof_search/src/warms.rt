//! What attempts at leaves Pack left, for the nodes that go on from it.

use outside::{NoMemory, push};
use pack_search::Warm;
use std::alloc::Global;

/// As much as is kept at once, at most: what was left first goes first.
const WARMS_MOST: usize = 512;

/// What the last attempts left. Each goes by how many were kept before it.
#[derive(Drop)]
pub(crate) struct WarmRing {
    warms: Vec<Warm>,
    /// How many were kept so far.
    kept: u64,
}

/// As many as there may be, in which nothing was left yet.
fn new_warms(alloc: Global, modules: usize, count: usize) -> Result<Vec<Warm>, NoMemory> {
    let mut warms = Vec::new(alloc);
    for _ in 0..count {
        let warm = Warm::new(alloc, modules)?;
        push(&mut warms, warm)?;
    }
    Ok(warms)
}

impl WarmRing {
    /// Room for what the attempts at `nodes_most` nodes leave, one at each, for a chip of `modules` wired modules. `NoMemory` where
    /// there is none.
    pub fn new(alloc: Global, modules: usize, nodes_most: usize) -> Result<WarmRing, NoMemory> {
        let warms = new_warms(alloc, modules, nodes_most.min(WARMS_MOST))?;
        Ok(WarmRing { warms, kept: 0 })
    }

    /// The place of the one that goes by a number.
    fn place_of(&self, number: u64) -> usize {
        let count = self.warms.len() as u64;
        number.checked_rem(count).unwrap_or(0) as usize
    }

    /// Keeps what an attempt left. Answers the number that it goes by.
    pub fn keep(&mut self, warm: &Warm) -> u64 {
        let number = self.kept;
        let place = self.place_of(number);
        if place < self.warms.len() {
            self.warms[place].copy_warm(warm);
        }
        self.kept = number.saturating_add(1);
        number
    }

    /// Writes what goes by a number; nothing, where it is gone or never was.
    pub fn load(&self, number: u64, warm: &mut Warm) {
        warm.clear_warm();
        let place = self.place_of(number);
        let last = number.saturating_add(self.warms.len() as u64);
        if number < self.kept && self.kept <= last && place < self.warms.len() {
            warm.copy_warm(&self.warms[place]);
        }
    }
}
