//! The search for a leaf Pack of a case.

use crate::asked::{Asked, Found};
use crate::attempts::Attempts;
use crate::claims::PackLeaf;
use crate::spans::ClaimSpan;
use crate::warm::Warm;
use crate::whole::{greatest_of, write_scaled};
use outside::{NoMemory, both};
use pack_values::{PackCase, Uses};
use std::alloc::Global;

/// Attempts in the first case, and the most work there.
const ROOT_TRIES: usize = 8;

const ROOT_WORK: u64 = 600_000_000;
/// Attempts in another case, and the most work there.
const TRIES: usize = 3;

const WORK: u64 = 150_000_000;
/// What the greatest price of a leaf becomes: the first with which it holds.
static GREATEST: [u64; 4] = [9_999, 99_999, 999_999, 99_999_999];

/// A search for leaves Pack of the cases of a chip, with all room that it takes.
#[derive(Drop)]
pub struct PackSearch {
    attempts: Attempts,
    kept: PackLeaf,
}

impl PackSearch {
    /// Room for the cases of a chip of `modules` wired modules on `wires` wires. `NoMemory` where memory runs out.
    pub fn new(alloc: Global, modules: usize, wires: usize) -> Result<PackSearch, NoMemory> {
        let (attempts, kept) = both(
            Attempts::new(alloc, modules, wires),
            PackLeaf::new(alloc, modules),
        )?;
        Ok(PackSearch { attempts, kept })
    }

    /// The leaf that the last search found; its grain is 0 where it found none.
    pub fn leaf(&self) -> &PackLeaf {
        &self.kept
    }

    /// Makes an attempt at a claim, and keeps its leaf where that has a greater claim than the ones before.
    fn try_claim<U: Uses>(
        &mut self,
        case: &PackCase,
        uses: &U,
        asked: Asked<'_>,
        span: &mut ClaimSpan,
        claim: u64,
        warm: &mut Warm,
    ) {
        let holds = self.attempts.attempt(case, uses, asked, claim, warm);
        let mut low = span.low.saturating_add(1);
        if holds {
            span.held();
            low = claim;
        } else {
            span.failed(claim);
        }
        let found = self.attempts.claim_from(case, uses, low, span.high);
        if found > span.low {
            span.low = found;
            let grain = self.attempts.scheme.grain;
            self.kept.take(found, grain, &self.attempts.drafts.center);
        }
    }

    /// Gives the leaf the least greatest price with which it holds.
    fn shorten<U: Uses>(&mut self, case: &PackCase, uses: &U) {
        let (claim, grain) = (self.kept.claim, self.kept.grain);
        for at in 0..GREATEST.len() {
            let whole = GREATEST[at];
            let draft = &mut self.attempts.drafts.hand;
            if greatest_of(&self.kept.prices) <= whole {
                return;
            }
            write_scaled(&self.kept.prices, case.modules, whole, draft);
            if self.attempts.values.holds(case, uses, draft, claim, grain) {
                self.kept.prices.copy_prices(draft);
                return;
            }
        }
    }

    /// Looks for a leaf Pack of a claim above the asked value in a case: it tries some claims, each by an attempt, within the work. What
    /// is found is kept (`leaf`) where the found claim is greater than the asked value. `warm` is what attempts before left, and
    /// becomes what the last one of these leaves.
    pub fn packed<U: Uses>(
        &mut self,
        case: &PackCase,
        uses: &U,
        asked: Asked<'_>,
        warm: &mut Warm,
    ) -> Found {
        let (tries, work) = if asked.root {
            (ROOT_TRIES, ROOT_WORK)
        } else {
            (TRIES, WORK)
        };
        let most = work.min(asked.work_most);
        self.attempts.begin_work(most);
        self.kept.grain = 0;
        let mut span = ClaimSpan::of(asked);
        for attempt in 0..tries {
            if !span.is_open() || self.attempts.work() >= most {
                break;
            }
            let claim = span.next(attempt == 0);
            self.try_claim(case, uses, asked, &mut span, claim, warm);
        }
        if self.kept.grain > 0 {
            self.shorten(case, uses);
        }
        Found {
            claim: span.low,
            far: span.high,
            work: self.attempts.work(),
        }
    }
}
