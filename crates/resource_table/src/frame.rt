//! Frames: a placement that is to be taken back or kept.
ghost use Rattle.std.specs.Prelude.{◌≡◌, ◌≤◌, ◌++◌, ◌∷◌, [], length, take};
ghost use Rattle.std.specs.Borrow.{sem};
ghost use Rattle.resource_table.specs.Schedules.{at_start, MayPlace, IsSoundTable};
ghost use Rattle.resource_table.specs.Lent.{table_of, name_of, before_of, LendsTable};

use crate::Job;
use crate::table::TableOf;

/// A placement until it is taken back or kept. It must be spent, by [`FrameOf::undo`] or [`FrameOf::keep`].
pub struct FrameOf<'t, J> {
    table: &'t mut TableOf<J>,
    before: usize,
}

/// A placement in a [`crate::Table`].
pub type Frame<'t, 'a> = FrameOf<'t, &'a Job>;

impl<J> TableOf<J> {
    /// Places a test at a start, where it fits and all that precede it are placed. The frame takes it back or keeps it.
    pub fn place<'t>(&'t mut self, test: usize, start: u64) -> FrameOf<'t, J>
        requires { MayPlace self.old.job self.old.placed test start }
        ensures same_reference { name_of result ≡ self.entry.ghost_name }
        ensures table { table_of result
            ≡ record self.old { placed = self.old.placed ++ at_start test start ∷ [] } }
        ensures before { before_of result ≡ length self.old.placed }
        ensures sound { IsSoundTable (table_of result) }
    {
        let before = self.push(test, start);
        FrameOf {
            table: self,
            before,
        }
    }
}

impl<'t, J> FrameOf<'t, J> {
    /// Lends the table on, with the placement in it.
    pub fn table<'s>(&'s mut self) -> &'s mut TableOf<J>
        ensures* lends { sem 𝓛 (LendsTable J.row self.entry result) }
        ensures value { result.now ≡ table_of self.old }
        ensures sound { IsSoundTable result.now }
    {
        self.table.tables_are_sound();
        &mut *self.table
    }

    /// Takes back the placement, and all that were made after it: those before stay.
    pub fn undo(self)
        requires { before_of self ≤ length (table_of self).placed }
        ensures table { self.exit.0.now ≡ record (table_of self.entry)
            { placed = take (before_of self.entry) (table_of self.entry).placed } }
        ensures sound { IsSoundTable self.exit.0.now }
    {
        let FrameOf { table, before } = self;
        table.pop_to(before);
    }

    /// Keeps the placement.
    pub fn keep(self)
        ensures table { self.exit.0.now ≡ table_of self.entry }
        ensures sound { IsSoundTable self.exit.0.now }
    {
        let FrameOf { table, before: _ } = self;
        table.tables_are_sound();
    }
}
