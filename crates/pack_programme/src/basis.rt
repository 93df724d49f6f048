//! Which unknown each row and each column of a tableau has.

use outside::{NoMemory, both};
use std::alloc::Global;
use tables::{NONE, filled, item_or, put_item};

/// Where an unknown is in a tableau.
#[derive(Clone, Copy)]
pub(crate) enum Place {
    Column(usize),
    Row(usize),
}

/// The unknowns of a tableau: a variable goes by its place, the slack of a row by `variables_most` and the row's place.
#[derive(Drop)]
pub(crate) struct Basis {
    variables_most: usize,
    /// The unknown of each column.
    at_column: Vec<usize>,
    /// The unknown of each row.
    at_row: Vec<usize>,
    /// Where each unknown is.
    places: Vec<Place>,
}

impl Basis {
    /// Room for tableaus of up to so many variables and rows. `NoMemory` where memory runs out.
    pub fn new(alloc: Global, variables_most: usize, rows_most: usize) -> Result<Basis, NoMemory> {
        let unknowns = variables_most.saturating_add(rows_most);
        let at = both(
            filled(alloc, NONE, variables_most),
            filled(alloc, NONE, rows_most),
        );
        let ((at_column, at_row), places) = both(at, filled(alloc, Place::Row(NONE), unknowns))?;
        Ok(Basis {
            variables_most,
            at_column,
            at_row,
            places,
        })
    }

    /// Begins with a column for each variable, and no row.
    pub fn begin(&mut self, variables: usize) {
        for variable in 0..variables {
            self.set_column(variable, variable);
        }
    }

    fn set_column(&mut self, column: usize, unknown: usize) {
        put_item(&mut self.at_column, column, unknown);
        put_item(&mut self.places, unknown, Place::Column(column));
    }

    fn set_row(&mut self, row: usize, unknown: usize) {
        put_item(&mut self.at_row, row, unknown);
        put_item(&mut self.places, unknown, Place::Row(row));
    }

    /// The slack of a row of the programme.
    fn slack_of(&self, row: usize) -> usize {
        self.variables_most.saturating_add(row)
    }

    /// Where a variable is.
    pub fn place_of_variable(&self, variable: usize) -> Place {
        item_or(&self.places, variable, Place::Row(NONE))
    }

    /// Where the slack of a row of the programme is.
    pub fn place_of_slack(&self, row: usize) -> Place {
        item_or(&self.places, self.slack_of(row), Place::Row(NONE))
    }

    /// Gives a row of the tableau the slack of a row of the programme.
    pub fn set_slack(&mut self, row: usize, of: usize) {
        let unknown = self.slack_of(of);
        self.set_row(row, unknown);
    }

    /// Exchanges the unknowns of a row and a column.
    pub fn exchange(&mut self, row: usize, column: usize) {
        let leaving = item_or(&self.at_row, row, NONE);
        let entering = item_or(&self.at_column, column, NONE);
        self.set_row(row, entering);
        self.set_column(column, leaving);
    }

    /// Moves the unknown of a row of the tableau to another one.
    pub fn move_row(&mut self, from: usize, to: usize) {
        let unknown = item_or(&self.at_row, from, NONE);
        self.set_row(to, unknown);
    }

    /// Makes the slack of a row of the programme that of another one.
    pub fn rename_slack(&mut self, from: usize, to: usize) {
        let unknown = self.slack_of(to);
        match self.place_of_slack(from) {
            Place::Column(column) => self.set_column(column, unknown),
            Place::Row(row) => self.set_row(row, unknown),
        }
    }
}
