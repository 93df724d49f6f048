//! A programme that grows, and the steps to its greatest sum.

use crate::basis::{Basis, Place};
use crate::tableau::Tableau;
use crate::written::WrittenRows;
use outside::{NoMemory, both};
use std::alloc::Global;
use tables::{fill_items, filled, item_or, part, put_item};

/// Dual steps of one call, at most.
const DUAL_STEPS: usize = 1_000;
/// Primal steps of one call, at most.
const PRIMAL_STEPS: usize = 4_000;
/// Each so many calls begin anew.
const ANEW: u64 = 64;

/// What became of a step.
enum Step {
    /// It was made.
    Done,
    /// There is none to do.
    Nothing,
    /// There is one to do, and none serves.
    Stuck,
}

/// A linear programme: the greatest sum of some variables under rows. Numbers are in parts of [`UNIT`](crate::UNIT).
#[derive(Drop)]
pub struct Programme {
    variables_most: usize,
    variables: usize,
    priced: usize,
    /// The row that is being written.
    draft: Vec<i64>,
    /// The rows as they were given.
    written: WrittenRows,
    /// Those rows in the present basis.
    tableau: Tableau,
    basis: Basis,
    /// How often the greatest sum was asked for.
    solves: u64,
}

impl Programme {
    /// Room for programmes of up to so many variables and rows: twice 8 bytes for each pair of these. `NoMemory` where memory runs out.
    pub fn new(
        alloc: Global,
        variables_most: usize,
        rows_most: usize,
    ) -> Result<Programme, NoMemory> {
        let rows = both(
            WrittenRows::new(alloc, variables_most, rows_most),
            Tableau::new(alloc, variables_most, rows_most),
        );
        let names = both(
            Basis::new(alloc, variables_most, rows_most),
            filled(alloc, 0i64, variables_most),
        );
        let ((written, tableau), (basis, draft)) = both(rows, names)?;
        Ok(Programme {
            variables_most,
            variables: 0,
            priced: 0,
            draft,
            written,
            tableau,
            basis,
            solves: 0,
        })
    }

    /// Begins a programme of no rows: `variables` variables, each of at least 0, of which the first `priced` count 1 each in the sum
    /// that is to be greatest. There are no more variables than have room.
    pub fn begin(&mut self, variables: usize, priced: usize) {
        self.variables = variables.min(self.variables_most);
        self.priced = priced.min(self.variables);
        self.solves = 0;
        self.clear_draft();
        self.written.begin(self.variables);
        self.start_over();
    }

    /// How many rows there are.
    pub fn rows(&self) -> usize {
        self.written.count()
    }

    /// Whether one more row has room.
    pub fn has_room(&self) -> bool {
        self.written.has_room()
    }

    /// Forgets the row that is being written.
    pub fn clear_draft(&mut self) {
        fill_items(&mut self.draft, 0);
    }

    /// Writes a coefficient of the row that is being written.
    pub fn put(&mut self, variable: usize, coefficient: i64) {
        put_item(&mut self.draft, variable, coefficient);
    }

    /// Adds the row that was written: its sum is at most `right`. `tag` is the caller's word for it. The draft stays as it is. Without room
    /// nothing is added.
    pub fn add_row(&mut self, right: i64, tag: usize) {
        if !self.has_room() {
            return;
        }
        self.written
            .push(part(&self.draft, 0, self.variables), right, tag);
        self.tableau.push_empty(right);
        let row = self.tableau.rows().saturating_sub(1);
        self.basis.set_slack(row, row);
        for variable in 0..self.variables {
            self.add_term(variable);
        }
    }

    /// Adds a variable of the draft to the last row of the tableau, by the unknowns of the columns.
    fn add_term(&mut self, variable: usize) {
        let coefficient = item_or(&self.draft, variable, 0);
        if coefficient == 0 {
            return;
        }
        match self.basis.place_of_variable(variable) {
            Place::Column(column) => self.tableau.add_to_last(column, coefficient),
            Place::Row(row) => self.tableau.take_from_last(row, coefficient),
        }
    }

    /// Goes back to the basis in which all variables are 0, from the rows as they were given.
    fn start_over(&mut self) {
        self.tableau.begin(self.variables, self.priced);
        self.basis.begin(self.variables);
        for row in 0..self.written.count() {
            self.tableau
                .push(self.written.coefficients(row), self.written.right(row));
            self.basis.set_slack(row, row);
        }
    }

    fn exchange(&mut self, row: usize, column: usize) {
        self.tableau.pivot(row, column);
        self.basis.exchange(row, column);
    }

    /// One dual step; whether there was none to do, or none that serves.
    fn dual_step(&mut self) -> Step {
        match self.tableau.lowest_row() {
            Some(row) => {
                match self.tableau.dual_column(row) {
                    Some(column) => {
                        self.exchange(row, column);
                        Step::Done
                    }
                    None => Step::Stuck,
                }
            }
            None => Step::Nothing,
        }
    }

    /// One primal step; whether there was none to do, or none that serves.
    fn primal_step(&mut self) -> Step {
        match self.tableau.cheapest_column() {
            Some(column) => {
                match self.tableau.primal_row(column) {
                    Some(row) => {
                        self.exchange(row, column);
                        Step::Done
                    }
                    None => Step::Stuck,
                }
            }
            None => Step::Nothing,
        }
    }

    /// Dual steps until none is left to do. Whether it got there.
    fn dual_steps(&mut self) -> bool {
        for _ in 0..DUAL_STEPS {
            match self.dual_step() {
                Step::Done => {}
                Step::Nothing => return true,
                Step::Stuck => return false,
            }
        }
        false
    }

    /// Primal steps until none is left to do. Whether it got there.
    fn primal_steps(&mut self) -> bool {
        for _ in 0..PRIMAL_STEPS {
            match self.primal_step() {
                Step::Done => {}
                Step::Nothing => return true,
                Step::Stuck => return false,
            }
        }
        false
    }

    /// Dual steps from the present basis, where no cost is astray before or after them. Whether it got there.
    fn go_on(&mut self) -> bool {
        !self.tableau.is_astray() && self.dual_steps() && !self.tableau.is_astray()
    }

    /// Goes on to the greatest sum. Whether it got there: a sum that has no greatest, or rows that have no answer, or too many steps are
    /// why not. The first call after `begin` and each 64th one begin anew, as do those that lost their way.
    pub fn solve(&mut self) -> bool {
        let anew = self.solves % ANEW == 0;
        self.solves = self.solves.saturating_add(1);
        if !anew && self.go_on() {
            return true;
        }
        self.start_over();
        self.primal_steps() && self.dual_steps()
    }

    /// The sum at the present answers.
    pub fn value(&self) -> i64 {
        let mut sum: i64 = 0;
        for variable in 0..self.priced {
            sum = sum.saturating_add(self.answer(variable));
        }
        sum
    }

    /// The present value of a variable, at least 0.
    pub fn answer(&self, variable: usize) -> i64 {
        self.at(self.basis.place_of_variable(variable)).max(0)
    }

    /// The value of the unknown at a place.
    fn at(&self, place: Place) -> i64 {
        match place {
            Place::Column(_) => 0,
            Place::Row(row) => self.tableau.right(row),
        }
    }

    /// The tag of a row.
    pub fn tag(&self, row: usize) -> usize {
        self.written.tag(row)
    }

    /// How much the sum of a row is below its right side at the present answers; somewhat less than 0 where that is passed.
    pub fn slack(&self, row: usize) -> i64 {
        self.at(self.basis.place_of_slack(row))
    }

    /// The row of most slack, where that is above `least`.
    fn most_slack(&self, least: i64) -> Option<usize> {
        let mut most = least.max(0);
        let mut found = None;
        for row in 0..self.rows() {
            let slack = self.slack(row);
            if slack > most {
                most = slack;
                found = Some(row);
            }
        }
        found
    }

    /// Drops a row whose slack is the unknown of a row of the tableau: the last row takes its place.
    fn drop_row(&mut self, row: usize) {
        let last = self.rows().saturating_sub(1);
        match self.basis.place_of_slack(row) {
            Place::Column(_) => {}
            Place::Row(own) => {
                self.tableau.drop_row(own);
                self.basis.move_row(self.tableau.rows(), own);
                self.written.drop_row(row);
                if row != last {
                    self.basis.rename_slack(last, row);
                }
            }
        }
    }

    /// Drops the rows of most slack, of those above `least` and above 0, until at most `keep` are left, as far as there are such.
    /// The answers stay. Rows change their places, and keep their tags.
    pub fn drop_slack(&mut self, keep: usize, least: i64) {
        for _ in 0..self.rows() {
            if self.rows() <= keep {
                return;
            }
            match self.most_slack(least) {
                Some(row) => self.drop_row(row),
                None => return,
            }
        }
    }

    /// The steps of work so far: 3 for each number of the tableau in a pivot. Only `begin_work` sets it back.
    pub fn work(&self) -> u64 {
        self.tableau.work()
    }

    /// Sets the work back to 0.
    pub fn begin_work(&mut self) {
        self.tableau.begin_work();
    }
}
