//! The programme of an attempt, with what its variables and rows stand for.

use crate::known_sets::KnownSets;
use crate::layout::Layout;
use crate::listing::{LISTS_MOST, Listing};
use crate::module_set::ModuleSet;
use crate::points::Point;
use crate::warm::Warm;
use outside::{NoMemory, both};
use pack_programme::Programme;
use pack_values::PackCase;
use std::alloc::Global;
use tables::{NONE, UNIT, filled, item_or, put_item};

/// Rows that a round adds, at most.
pub(crate) const ADDED_MOST: usize = 20;
/// The most by which a row that binds has slack.
const BINDS: i64 = 1 << 10;
/// Rows of more slack than this may go.
const SLACK: i64 = 1 << 20;
/// The numbers of a programme's rows, at most.
const NUMBERS_MOST: usize = 1 << 22;

/// The programme of an attempt: the greatest prices that keep the rows of all known sets. All is in parts of `UNIT`.
#[derive(Drop)]
pub(crate) struct Scheme {
    /// The programme.
    pub programme: Programme,
    /// What its variables stand for.
    pub layout: Layout,
    /// The lists that are weighed.
    pub lists: Listing,
    /// The sets of two modules or more that have rows.
    pub known: KnownSets,
    /// The set at hand.
    pub set: ModuleSet,
    /// The last answer of the programme: the value of each variable.
    pub answers: Vec<i64>,
    /// The most variables.
    variables_most: usize,
    /// The most rows between rounds.
    rows_most: usize,
    /// How many rows were added so far.
    pub added: u64,
    /// The claim in cycles.
    pub claim: u64,
    /// The cycles of a cell.
    pub grain: u64,
}

/// The most variables of programmes of a chip.
fn variables_for(modules: usize, wires: usize) -> usize {
    modules
        .saturating_add(wires)
        .saturating_add(LISTS_MOST)
        .saturating_add(1)
}

/// The rows that a programme of some variables keeps at most.
fn rows_for(variables: usize) -> usize {
    variables.saturating_mul(3).saturating_add(60)
}

/// The rows that a programme of some variables keeps, where these may not have too many numbers in all.
fn rows_within(variables: usize) -> usize {
    let most = NUMBERS_MOST.checked_div(variables).unwrap_or(0);
    rows_for(variables).min(most)
}

/// Lists, and the set at hand.
fn parts_of(alloc: Global, modules: usize) -> Result<(Listing, ModuleSet), NoMemory> {
    both(Listing::new(alloc), ModuleSet::new(alloc, modules))
}

impl Scheme {
    /// Room for the programmes of a chip. Where it has so many modules and wires that their rows would take more than 32 megabytes,
    /// a programme keeps fewer rows. `NoMemory` where memory runs out.
    pub fn new(alloc: Global, modules: usize, wires: usize) -> Result<Scheme, NoMemory> {
        let variables_most = variables_for(modules, wires);
        let rows_most = rows_within(variables_most);
        let rows = rows_most.saturating_add(ADDED_MOST);
        let tables = both(
            Programme::new(alloc, variables_most, rows),
            KnownSets::new(alloc, modules, rows),
        );
        let shape = both(Layout::new(alloc), filled(alloc, 0i64, variables_most));
        let made = both(tables, both(shape, parts_of(alloc, modules)))?;
        let ((programme, known), ((layout, answers), (lists, set))) = made;
        Ok(Scheme {
            programme,
            layout,
            lists,
            known,
            set,
            answers,
            variables_most,
            rows_most,
            added: 0,
            claim: 0,
            grain: 1,
        })
    }

    /// Begins the programme of a case: all worths are at most a whole together. Whether there is room for it.
    pub fn begin(&mut self, case: &PackCase) -> bool {
        self.layout.take(case, self.lists.count);
        self.known.clear_sets();
        self.added = 0;
        if self.layout.count > self.variables_most {
            return false;
        }
        self.programme.begin(self.layout.count, self.layout.modules);
        self.programme.clear_draft();
        for variable in self.layout.modules..self.layout.count {
            self.programme.put(variable, UNIT);
        }
        self.programme.add_row(UNIT, NONE);
        true
    }

    /// The rows that it keeps at most.
    pub fn rows_most(&self) -> usize {
        rows_for(self.layout.count).min(self.rows_most)
    }

    /// The answer of a variable.
    pub fn answer(&self, variable: usize) -> i64 {
        item_or(&self.answers, variable, 0)
    }

    /// Takes the answer of the programme, as a point too.
    pub fn take_answer(&mut self, point: &mut Point) {
        for variable in 0..self.layout.count {
            let answer = self.programme.answer(variable);
            put_item(&mut self.answers, variable, answer);
        }
        point.clear_point();
        for module in 0..self.layout.modules {
            point.set_price(module, self.answer(module));
        }
        for at in 0..self.lists.count {
            point.set_worth(at, self.answer(self.layout.of_list(at)));
        }
    }

    /// Forgets the sets that have no row any more.
    fn sweep(&mut self) {
        self.known.clear_sets();
        for row in 0..self.programme.rows() {
            self.known.hold(self.programme.tag(row));
        }
    }

    /// Drops rows of most slack, where there are more than it keeps, down to two thirds.
    pub fn drop_rows(&mut self) {
        let most = self.rows_most();
        if self.programme.rows() > most {
            self.programme.drop_slack(most / 3 * 2, SLACK);
            self.sweep();
        }
    }

    /// Leaves the sets of the rows that bind.
    pub fn leave_sets(&self, warm: &mut Warm) {
        for row in 0..self.programme.rows() {
            let tag = self.programme.tag(row);
            if tag != NONE && self.programme.slack(row) <= BINDS {
                warm.add_set(self.known.rank(tag), self.known.row(tag));
            }
        }
    }
}
