//! Looks for crowds: tests of which only some are active together, since all of them pass the limit of power.

use crate::graph::Light;
use outside::{NoMemory, copied};
use std::alloc::Global;
use tables::{
    NONE, ONE, as_part, fill_items, filled, item_or, mark_place, marked, put_item, words_for,
};

/// What tests draw at least, and how long a mix tests them.
#[derive(Clone, Copy)]
pub struct MixedPowers<'a> {
    /// The power limit.
    pub limit: u64,
    /// For each test the least that it draws at a cycle, in the unit of the limit.
    pub least: &'a [u64],
    /// For each test how long the mix tests it, in parts of `ONE`.
    pub on_all: &'a [i64],
}

/// A search for crowds: tests of which only some are active together, since all of them pass the power limit.
#[derive(Drop)]
pub struct Crowds {
    /// The tests, those first that cost a cover least for their power.
    light: Vec<Light>,
    /// The least powers of the tests, the least first: for each there is a crowd to make.
    pub powers: Vec<u64>,
    /// The tests of a cover, as they are taken.
    taken: Vec<usize>,
    /// How many these are.
    count: usize,
    /// Their least powers together.
    sum: u64,
    /// A row of marks: the tests of the crowd that was made last.
    pub members: Vec<u64>,
}

/// A cover in which each test is needed.
#[derive(Clone, Copy)]
struct Cover {
    /// How many tests it has.
    tests: usize,
    /// The greatest of their least powers.
    greatest: u64,
}

/// What a test costs a cover for its power.
fn lightness_of(powers: MixedPowers<'_>, test: usize) -> i64 {
    let cost = ONE.saturating_sub(item_or(powers.on_all, test, 0)).max(0);
    let power = item_or(powers.least, test, 0).max(1);
    cost.saturating_mul(ONE)
        .checked_div(as_part(power))
        .unwrap_or(0)
}

impl Crowds {
    /// Room for the search over tests that draw so much at least. `NoMemory` where memory runs out.
    pub fn new(alloc: Global, least: &[u64]) -> Result<Crowds, NoMemory> {
        let light = filled(alloc, Light::NOTHING, least.len())?;
        let taken = filled(alloc, NONE, least.len())?;
        let members = filled(alloc, 0u64, words_for(least.len()))?;
        let mut powers = copied(alloc, least)?;
        powers.sort_unstable();
        Ok(Crowds {
            light,
            powers,
            taken,
            count: 0,
            sum: 0,
            members,
        })
    }

    /// Begins with a mix: sorts the tests by what they cost a cover for their power.
    pub fn begin(&mut self, powers: MixedPowers<'_>) {
        for test in 0..self.light.len() {
            let lightness = lightness_of(powers, test);
            put_item(&mut self.light, test, Light { lightness, test });
        }
        self.light.sort_unstable();
    }

    /// Takes the test at a place into the cover, where it draws anything and at most `most`.
    fn take(&mut self, powers: MixedPowers<'_>, place: usize, most: u64) {
        let test = item_or(&self.light, place, Light::NOTHING).test;
        let power = item_or(powers.least, test, 0);
        if power == 0 || power > most {
            return;
        }
        put_item(&mut self.taken, self.count, test);
        self.count = self.count.saturating_add(1);
        self.sum = self.sum.saturating_add(power);
    }

    /// Takes tests that draw at most `most` until they pass the limit. Whether they do.
    fn cover(&mut self, powers: MixedPowers<'_>, most: u64) -> bool {
        self.count = 0;
        self.sum = 0;
        for place in 0..powers.least.len() {
            self.take(powers, place, most);
            if self.sum > powers.limit {
                return true;
            }
        }
        false
    }

    /// Leaves out the tests that the cover doesn't need, from the last one back. The others are marked as the crowd's.
    fn thin(&mut self, powers: MixedPowers<'_>) -> Cover {
        let mut kept = Cover {
            tests: 0,
            greatest: 0,
        };
        for behind in 0..self.count {
            let place = self.count.saturating_sub(behind).saturating_sub(1);
            let test = item_or(&self.taken, place, NONE);
            let power = item_or(powers.least, test, 0);
            let rest = self.sum.saturating_sub(power);
            if rest > powers.limit {
                self.sum = rest;
            } else {
                mark_place(&mut self.members, 0, test);
                kept.tests = kept.tests.saturating_add(1);
                kept.greatest = kept.greatest.max(power);
            }
        }
        kept
    }

    /// Adds all tests that draw at least `least` to the crowd.
    fn extend(&mut self, powers: MixedPowers<'_>, least: u64) {
        for test in 0..powers.least.len() {
            if item_or(powers.least, test, 0) >= least {
                mark_place(&mut self.members, 0, test);
            }
        }
    }

    /// How long the tests of the crowd are tested, together.
    fn used(&self, powers: MixedPowers<'_>) -> i64 {
        let mut sum: i64 = 0;
        for test in 0..powers.least.len() {
            if marked(&self.members, 0, test) {
                sum = sum.saturating_add(item_or(powers.on_all, test, 0));
            }
        }
        sum
    }

    /// Makes a crowd: a cover of tests that draw at most `most`, with all tests that draw no less than the greatest of these. Answers
    /// how many of it are active together at most, and `members` has its tests then; 0 where there is no such cover, or the
    /// mix tests the crowd no longer than `more_than` for each of so many.
    pub fn make(&mut self, powers: MixedPowers<'_>, most: u64, more_than: i64) -> usize {
        fill_items(&mut self.members, 0);
        if !self.cover(powers, most) {
            return 0;
        }
        let kept = self.thin(powers);
        self.extend(powers, kept.greatest);
        let active = kept.tests.saturating_sub(1);
        let room = as_part(active as u64);
        if self.used(powers) <= more_than.saturating_mul(room) {
            return 0;
        }
        active
    }
}
