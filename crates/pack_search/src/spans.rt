//! Which claims are tried.

use crate::asked::Asked;

/// Claims are tried until what is open is at most one part in `OPEN` of the goal.
const OPEN: u64 = 4_000;
/// The first step is at least one part in `STEP` of the goal.
const STEP: u64 = 500;

/// What is known of claims, in cycles.
#[derive(Clone, Copy)]
pub(crate) struct ClaimSpan {
    /// The greatest claim that holds.
    pub low: u64,
    /// The least one that failed; 1 more than the goal where none did.
    pub high: u64,
    step: u64,
    goal: u64,
    root: bool,
}

impl ClaimSpan {
    /// What is known at first.
    pub fn of(asked: Asked<'_>) -> ClaimSpan {
        let back = asked.far.saturating_sub(asked.value).saturating_mul(2);
        ClaimSpan {
            low: asked.value,
            high: asked.goal.saturating_add(1),
            step: back.max(asked.goal / STEP).max(1),
            goal: asked.goal,
            root: asked.root,
        }
    }

    /// Whether a claim is left to try.
    pub fn is_open(self) -> bool {
        let open = self.high.saturating_sub(self.low);
        open > (self.goal / OPEN).max(1) && self.low < self.goal
    }

    /// The claim that is tried next.
    pub fn next(self, first: bool) -> u64 {
        if first && self.root {
            return self.goal;
        }
        if self.high > self.goal {
            return self.low.saturating_add(self.step).min(self.goal);
        }
        self.low
            .saturating_add(self.high.saturating_sub(self.low) / 2)
    }

    /// After an attempt at a claim that held.
    pub fn held(&mut self) {
        self.step = self.step.saturating_mul(3);
    }

    /// After an attempt at a claim that failed.
    pub fn failed(&mut self, claim: u64) {
        self.high = claim;
    }
}
