//! The best of some dealings, within some work.

use crate::cells::ModeCells;
use crate::dealing::Dealing;
use crate::exchanges::ExchangeSearch;
use outside::NoMemory;
use std::alloc::Global;
use tables::{filled, item_or, put_item};

/// Exchanges of a dealing, at most.
const EXCHANGES_MOST: usize = 16;

/// Deals scan chains, and keeps the dealing whose longest part is shortest.
#[derive(Drop)]
pub(crate) struct Dealer {
    dealing: Dealing,
    /// In the best dealing, the wrapper chain of each scan chain, longest first.
    best: Vec<usize>,
    /// Its longest part, in cells.
    pub part: u64,
    /// How much work is left, in scan chains that are looked at for a wrapper chain.
    pub work: u64,
}

impl Dealer {
    /// A dealer with room for as many scan chains and wrapper chains, and with some work. `NoMemory` where memory runs out.
    pub fn new(alloc: Global, scans: usize, chains: usize, work: u64) -> Result<Dealer, NoMemory> {
        let dealing = Dealing::new(alloc, scans, chains)?;
        let best = filled(alloc, 0usize, scans)?;
        Ok(Dealer {
            dealing,
            best,
            part: u64::MAX,
            work,
        })
    }

    /// The wrapper chain that has a scan chain in the best dealing.
    pub fn chain_of(&self, rank: usize) -> usize {
        item_or(&self.best, rank, 0)
    }

    /// Takes from the work that is left. Where less is left, nothing is left then, and the answer is no.
    fn spend_work(&mut self, work: u64) -> bool {
        if self.work < work {
            self.work = 0;
            return false;
        }
        self.work = self.work.saturating_sub(work);
        true
    }

    /// Keeps the dealing where its longest part is shorter than the best one's.
    fn keep_dealing(&mut self, width: usize) {
        let part = self.dealing.load(self.dealing.first_longest(width));
        if part < self.part {
            self.part = part;
            for rank in 0..self.best.len() {
                let chain = self.dealing.chain_of(rank);
                put_item(&mut self.best, rank, chain);
            }
        }
    }

    /// Makes the best exchange. Answers whether there was one.
    fn exchange_once(&mut self, cells: &ModeCells, width: usize, low: u64) -> bool {
        let mut search = ExchangeSearch::new(&self.dealing, width);
        if search.is_over(low) {
            return false;
        }
        search.look(cells, &self.dealing, self.work);
        let work = search.looks.saturating_add(cells.count() as u64);
        if !self.spend_work(work) {
            return false;
        }
        if !search.has_found() {
            return false;
        }
        search.make(cells, &mut self.dealing);
        true
    }

    /// Makes exchanges, and keeps what they lead to.
    fn exchange_scans(&mut self, cells: &ModeCells, width: usize, low: u64) {
        for _ in 0..EXCHANGES_MOST {
            if !self.exchange_once(cells, width, low) {
                break;
            }
        }
        self.keep_dealing(width);
    }

    /// Deals the scan chains over `width` chains: longest first and in equal counts, each with exchanges. It is over where the longest
    /// part is at most `low`, or where no work is left.
    pub fn deal_scans(&mut self, cells: &ModeCells, width: usize, low: u64) {
        let deal_work = (cells.count() as u64).saturating_mul(width as u64);
        self.part = u64::MAX;
        self.dealing.deal_longest_first(cells, width);
        self.keep_dealing(width);
        if self.part <= low || !self.spend_work(deal_work) {
            return;
        }
        self.exchange_scans(cells, width, low);
        if self.part <= low || !self.spend_work(deal_work) {
            return;
        }
        self.dealing.deal_equal_counts(cells, width);
        self.keep_dealing(width);
        if self.part <= low {
            return;
        }
        self.exchange_scans(cells, width, low);
    }
}
