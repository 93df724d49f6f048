//! The row of a set of modules: its prices together are at most what its bus is worth, with what it uses of lists.

use crate::module_set::ModuleSet;
use crate::scheme::Scheme;
use pack_values::{PackCase, PackRoom, Uses};
use tables::{FRACTION_PLACES, NONE, UNIT};

/// A coefficient of a row is at most this.
const PART_MOST: i64 = 1 << 56;
/// A set that breaks its row by more than this gets one.
pub(crate) const BREACH: i64 = 1 << 16;

/// A number as a part of a whole of `whole`.
fn part_of(number: u64, whole: u64) -> i64 {
    let parts = u128::from(number)
        .saturating_mul(UNIT as u128)
        .checked_div(u128::from(whole))
        .unwrap_or(0);
    i64::try_from(parts).unwrap_or(PART_MOST).min(PART_MOST)
}

/// A part of a worth.
fn times(worth: i64, part: i64) -> i64 {
    let product = i128::from(worth).wrapping_mul(i128::from(part)) >> FRACTION_PLACES;
    i64::try_from(product).unwrap_or(i64::MAX)
}

/// Less than nothing by a part.
fn minus(part: i64) -> i64 {
    0i64.saturating_sub(part)
}

/// What the set needs of all spare wires, as a part of them.
fn wires_part(case: &PackCase, set: &ModuleSet) -> i64 {
    part_of(set.more_wires(case) as u64, case.spare as u64)
}

impl Scheme {
    /// The right side of the next row: a little above nothing, for each row another one, so that no two rows end together.
    fn next_right(&mut self) -> i64 {
        let spread = self.added.wrapping_mul(7_919) % 1_009 / 4;
        self.added = self.added.saturating_add(1);
        i64::try_from(spread).unwrap_or(0).saturating_add(64)
    }

    /// What the set at hand uses of the list at a place of the attempt, as a part of its room.
    fn list_part<U: Uses>(&self, uses: &U, at: usize) -> i64 {
        let used = self.set.use_of(uses, self.lists.list(at));
        part_of(used, self.lists.room(at))
    }

    /// Adds the row of the set at hand with a tag.
    fn add_row<U: Uses>(&mut self, case: &PackCase, uses: &U, tag: usize) {
        self.programme.clear_draft();
        for module in 0..self.layout.modules {
            if self.set.has(module) {
                self.programme.put(module, UNIT);
            }
        }
        let rank = self.layout.of_rank(self.set.rank);
        if rank != NONE {
            self.programme.put(rank, minus(UNIT));
        }
        if self.layout.wires != NONE {
            let wires = wires_part(case, &self.set);
            self.programme.put(self.layout.wires, minus(wires));
        }
        for at in 0..self.lists.count {
            let part = self.list_part(uses, at);
            self.programme.put(self.layout.of_list(at), minus(part));
        }
        let right = self.next_right();
        self.programme.add_row(right, tag);
    }

    /// Adds the row of the set at hand, of a single module.
    pub fn add_single<U: Uses>(&mut self, case: &PackCase, uses: &U) {
        if self.programme.has_room() {
            self.add_row(case, uses, NONE);
        }
    }

    /// Adds the row of the set at hand, which is kept. Whether there was room.
    pub fn add_known<U: Uses>(&mut self, case: &PackCase, uses: &U) -> bool {
        if !self.programme.has_room() {
            return false;
        }
        let tag = self.known.add(&self.set);
        if tag == NONE {
            return false;
        }
        self.add_row(case, uses, tag);
        true
    }

    /// By how much the set at hand breaks its row at the last answer, but for what it uses of lists.
    fn bus_breach(&self, case: &PackCase) -> i64 {
        let mut breach: i64 = 0;
        for module in 0..self.layout.modules {
            if self.set.has(module) {
                breach = breach.saturating_add(self.answer(module));
            }
        }
        let wires = times(self.answer(self.layout.wires), wires_part(case, &self.set));
        breach
            .saturating_sub(self.answer(self.layout.of_rank(self.set.rank)))
            .saturating_sub(wires)
    }

    /// By how much the set at hand breaks its row at the last answer, where that is much.
    fn breach<U: Uses>(&self, case: &PackCase, uses: &U) -> i64 {
        let mut breach = self.bus_breach(case);
        for at in 0..self.lists.count {
            let worth = self.answer(self.layout.of_list(at));
            if breach > BREACH && worth > 0 {
                breach = breach.saturating_sub(times(worth, self.list_part(uses, at)));
            }
        }
        breach
    }

    /// Takes a set that was found. By how much it breaks its row at the last answer, where that is much.
    pub fn found_breach<U: Uses>(
        &mut self,
        case: &PackCase,
        uses: &U,
        values: &PackRoom,
        at: usize,
    ) -> i64 {
        self.set.take_found(values, at);
        self.breach(case, uses)
    }
}
