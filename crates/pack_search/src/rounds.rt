//! A round of an attempt: which sets are worth most at the prices of the programme, and half way to the center.

use crate::attempts::Attempts;
use crate::module_set::cells_at;
use pack_values::{PackCase, Uses};

/// With fewer cells the best sets aren't guessed.
const GUESSED_FROM: u64 = 500;
/// One round of so many makes no guesses.
const EXACT_EACH: usize = 4;

/// How a round ends.
#[derive(Clone, Copy, PartialEq, Eq)]
pub(crate) enum RoundEnd {
    /// The center holds.
    Holds,
    /// There are new rows.
    GoesOn,
    /// No set breaks its row.
    Ends,
}

impl Attempts {
    /// Adds the rows of the found sets that break them most: how the round ends.
    fn add_worst<U: Uses>(&mut self, case: &PackCase, uses: &U) -> RoundEnd {
        self.worst.clear_worst();
        for at in 0..self.values.sets() {
            let breach = self.scheme.found_breach(case, uses, &self.values, at);
            self.worst.note(at, breach);
        }
        let mut end = RoundEnd::Ends;
        for place in 0..self.worst.count {
            let at = self.worst.place(place);
            self.scheme.set.take_found(&self.values, at);
            if self.scheme.add_known(case, uses) {
                end = RoundEnd::GoesOn;
            }
        }
        end
    }

    /// Guesses the best sets at the point at hand.
    fn guess<U: Uses>(&mut self, case: &PackCase, uses: &U) -> RoundEnd {
        self.write_hand();
        let (claim, grain) = (self.scheme.claim, self.scheme.grain);
        self.values
            .guess(case, uses, &self.drafts.hand, claim, grain);
        self.add_worst(case, uses)
    }

    /// Finds the best sets at the point at hand.
    fn find<U: Uses>(&mut self, case: &PackCase, uses: &U) -> RoundEnd {
        self.write_hand();
        let ratio = self.value_hand(case, uses, true);
        self.keep_better(ratio);
        if ratio.holds() {
            return RoundEnd::Holds;
        }
        self.add_worst(case, uses)
    }

    /// Takes the point half way between the center and the answer.
    fn take_middle(&mut self) {
        self.points
            .hand
            .take_middle(&self.points.center, &self.points.query);
    }

    /// Takes the answer.
    fn take_query(&mut self) {
        self.points.hand.copy_point(&self.points.query);
    }

    /// Guesses half way, then at the answer.
    fn guess_both<U: Uses>(&mut self, case: &PackCase, uses: &U) -> RoundEnd {
        self.take_middle();
        let end = self.guess(case, uses);
        if end != RoundEnd::Ends {
            return end;
        }
        self.take_query();
        self.guess(case, uses)
    }

    /// Finds the best sets half way, then at the answer.
    fn find_both<U: Uses>(&mut self, case: &PackCase, uses: &U) -> RoundEnd {
        self.take_middle();
        let end = self.find(case, uses);
        if end != RoundEnd::Ends {
            return end;
        }
        self.take_query();
        self.find(case, uses)
    }

    /// Whether a round guesses first.
    fn guesses(&self, number: usize) -> bool {
        let cells = cells_at(self.scheme.claim, self.scheme.grain);
        cells >= GUESSED_FROM && number % EXACT_EACH != EXACT_EACH - 1
    }

    /// A round, after an answer of the programme.
    pub fn round<U: Uses>(&mut self, case: &PackCase, uses: &U, number: usize) -> RoundEnd {
        if self.guesses(number) {
            let end = self.guess_both(case, uses);
            if end != RoundEnd::Ends {
                return end;
            }
        }
        self.find_both(case, uses)
    }
}
