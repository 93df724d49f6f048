//! The rows of some cycles one after another, in bytes.
ghost use Rattle.std.specs.Prelude.{◌≡◌, ◌+◌, ◌*◌, ◌<◌, ◌≤◌};
ghost use Rattle.cycle_texts.specs.Rows.{option_row, row_of};
ghost use Rattle.cycle_texts.specs.RowBlocks.{block_before, block_row, IsBlock};

use crate::Row;

/// The bytes of a line of vectors: two for each wire, a space and a line feed.
pub fn line_length(wires: usize) -> usize
    requires { wires ≤ 256 }
    ensures { result ≡ 2 * wires + 2 }
{
    2 * wires + 2
}

/// The rows of some cycles, from a first one on.
#[derive(Clone, Copy)]
pub struct RowBlock<'a> {
    /// The wires, and the controls.
    pub wires: usize,
    pub width: usize,
    /// The first cycle, and how many there are.
    pub first: u64,
    pub rows: usize,
    /// For each cycle a line of vectors.
    pub lines: &'a [u8],
    /// For each cycle a digit for each control.
    pub digits: &'a [u8],
}

impl<'a> RowBlock<'a> {
    /// The row at a place.
    pub fn row(&self, place: usize) -> Row<'a>
        requires block { IsBlock self.now }
        requires within { place < self.now.rows }
        ensures { row_of result ≡ block_row self.now place }
    {
        let line = place * line_length(self.wires);
        let marks = line + (self.wires + 1);
        let digits = place * self.width;
        Row {
            driven: &self.lines[line..line + self.wires],
            compared: &self.lines[marks..marks + self.wires],
            controls: &self.digits[digits..digits + self.width],
        }
    }

    /// The row before that at a place, if there is one.
    pub fn row_before(&self, place: usize) -> Option<Row<'a>>
        requires block { IsBlock self.now }
        requires within { place < self.now.rows }
        ensures { option_row result ≡ block_before self.now place }
    {
        if place == 0 {
            return None;
        }
        Some(self.row(place - 1))
    }
}
