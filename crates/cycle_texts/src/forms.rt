//! What a text is that has a part for each cycle of a plan's run: of what the wires carry and show in it, and of the controls of the
//! wrappers.
//!
//! A form of such a text, as STIL or a value change dump, answers the text before the first cycle, the part of a cycle, and the text
//! behind the last one. This crate has the trait and the rows alone: `cycle_texts` writes a text of any form, and each form has a
//! crate of its own.

/// What stands on the wires and the controls at a cycle, in bytes. A part of a text is made from it.
#[derive(Clone, Copy)]
pub struct Row<'a> {
    /// For each wire the bit that it carries: `0` or `1`.
    pub driven: &'a [u8],
    /// For each wire the bit that is compared there: `0`, `1`, or `-` where none is.
    pub compared: &'a [u8],
    /// For each control its bit: `0` or `1`.
    pub controls: &'a [u8],
}

/// The greatest number of a cycle that a part is made for.
pub const CYCLE_MOST: u64 = 1_000_000_000;

/// A form of a text with a part for each cycle.
pub trait CycleForm {
    ghost use Rattle.std.specs.Prelude.{◌≡◌, ℕ, ◌+◌, ◌≤◌, List, Option, length};
    ghost use Rattle.cycle_texts.specs.Rows.{CycleRow, HasSizes, HaveSizes, IsPutAt, option_row, row_of};

    ghost wires_of: { Self → ℕ };

    ghost controls_of: { Self → ℕ };

    ghost room_of: { Self → ℕ };

    ghost head_of: { Self → List ℕ };

    ghost part_of: { Self → ℕ → Option CycleRow → CycleRow → List ℕ };

    ghost tail_of: { Self → List ℕ };

    /// The text before the first cycle.
    fn head(&self) -> &[u8]
        ensures { result.now ≡ head_of self.now };

    /// The text behind the last cycle.
    fn tail(&self) -> &[u8]
        ensures { result.now ≡ tail_of self.now };

    /// How many bytes a part has at most.
    fn room(&self) -> usize
        ensures { result ≡ room_of self.now };

    /// Writes the part of a cycle into a text, from the byte `at` on, and answers where it ends. `before` is the row of the cycle before,
    /// if there is one.
    fn put(
        &self,
        cycle: u64,
        before: Option<Row<'_>>,
        row: Row<'_>,
        text: &mut [u8],
        at: usize,
    ) -> usize
        requires cycle { cycle ≤ CYCLE_MOST }
        requires before { HaveSizes (wires_of self.now) (controls_of self.now) (option_row before) }
        requires row { HasSizes (wires_of self.now) (controls_of self.now) (row_of row) }
        requires room { at + room_of self.now ≤ length text.old }
        ensures within { result ≤ at + room_of self.now }
        ensures put { IsPutAt at
            (part_of self.now cycle (option_row before.entry) (row_of row.entry)) result text.old
            text.new };
}
