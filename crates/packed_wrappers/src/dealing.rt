//! The scan chains of a mode dealt over wrapper chains: longest first, or in equal counts.

use crate::cells::ModeCells;
use outside::NoMemory;
use std::alloc::Global;
use tables::{filled, item_or, put_item};

/// Scan chains on wrapper chains.
#[derive(Drop)]
pub(crate) struct Dealing {
    /// For each scan chain, longest first, the wrapper chain that it is on.
    pub on: Vec<usize>,
    /// For each wrapper chain its part: the lengths of its scan chains together.
    pub loads: Vec<u64>,
    /// For each wrapper chain the number of its scan chains, where they are dealt in equal counts.
    counts: Vec<usize>,
}

/// Some wrapper chains beside each other, and how many scan chains each may have.
#[derive(Clone, Copy)]
struct ChainGroup {
    from: usize,
    to: usize,
    room: usize,
}

impl Dealing {
    /// Room for as many scan chains and wrapper chains. `NoMemory` where memory runs out.
    pub fn new(alloc: Global, scans: usize, chains: usize) -> Result<Dealing, NoMemory> {
        let on = filled(alloc, 0usize, scans)?;
        let loads = filled(alloc, 0u64, chains)?;
        let counts = filled(alloc, 0usize, chains)?;
        Ok(Dealing { on, loads, counts })
    }

    /// The wrapper chain that has a scan chain.
    pub fn chain_of(&self, rank: usize) -> usize {
        item_or(&self.on, rank, 0)
    }

    /// The part of a wrapper chain.
    pub fn load(&self, chain: usize) -> u64 {
        item_or(&self.loads, chain, 0)
    }

    /// The first of the longest parts of `width` chains.
    pub fn first_longest(&self, width: usize) -> usize {
        let mut first = 0;
        let mut most = self.load(0);
        for chain in 1..width {
            let load = self.load(chain);
            if load > most {
                most = load;
                first = chain;
            }
        }
        first
    }

    /// The first of the shortest parts of `width` chains.
    pub fn first_shortest(&self, width: usize) -> usize {
        let mut first = 0;
        let mut least = self.load(0);
        for chain in 1..width {
            let load = self.load(chain);
            if load < least {
                least = load;
                first = chain;
            }
        }
        first
    }

    /// The first of the shortest parts of a group of which the chain has room for a scan chain.
    fn first_with_room(&self, group: ChainGroup) -> usize {
        let mut first = group.from;
        let mut least = u64::MAX;
        for chain in group.from..group.to {
            let load = self.load(chain);
            if load < least && item_or(&self.counts, chain, 0) < group.room {
                least = load;
                first = chain;
            }
        }
        first
    }

    /// Puts a scan chain of a length on a wrapper chain.
    fn put_scan(&mut self, rank: usize, length: u64, chain: usize) {
        let load = self.load(chain).saturating_add(length);
        let count = item_or(&self.counts, chain, 0).saturating_add(1);
        put_item(&mut self.on, rank, chain);
        put_item(&mut self.loads, chain, load);
        put_item(&mut self.counts, chain, count);
    }

    /// Takes all scan chains from `width` chains.
    fn clear_chains(&mut self, width: usize) {
        for chain in 0..width {
            put_item(&mut self.loads, chain, 0);
            put_item(&mut self.counts, chain, 0);
        }
    }

    /// Deals the scan chains over `width` chains, longest first, each to the first of the shortest parts.
    pub fn deal_longest_first(&mut self, cells: &ModeCells, width: usize) {
        self.clear_chains(width);
        for rank in 0..cells.count() {
            let chain = self.first_shortest(width);
            self.put_scan(rank, cells.length(rank), chain);
        }
    }

    /// Deals the scan chains over `width` chains in equal counts: the longest to the first chains, one more of the others to each
    /// of the last ones. Within these, each goes to the first of the shortest parts that has room.
    pub fn deal_equal_counts(&mut self, cells: &ModeCells, width: usize) {
        self.clear_chains(width);
        let few = cells.count() / width.max(1);
        let more = cells.count().saturating_sub(few.saturating_mul(width));
        let middle = width.saturating_sub(more);
        let first = ChainGroup {
            from: 0,
            to: middle,
            room: few,
        };
        let last = ChainGroup {
            from: middle,
            to: width,
            room: few.saturating_add(1),
        };
        let longest = few.saturating_mul(middle);
        for rank in 0..cells.count() {
            let group = if rank < longest { first } else { last };
            let chain = self.first_with_room(group);
            self.put_scan(rank, cells.length(rank), chain);
        }
    }

    /// Moves a scan chain of a length from its chain to another one.
    pub fn move_scan(&mut self, rank: usize, length: u64, chain: usize) {
        let from = self.chain_of(rank);
        let less = self.load(from).saturating_sub(length);
        put_item(&mut self.loads, from, less);
        let more = self.load(chain).saturating_add(length);
        put_item(&mut self.loads, chain, more);
        put_item(&mut self.on, rank, chain);
    }
}
