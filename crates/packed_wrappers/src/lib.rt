//! Wrappers whose scan chains are packed better than longest first, on each width.
//!
//! A test is shorter where its wrapper's longest part, the scan chains of one wrapper chain, is shorter. `width_table` deals scan chains
//! longest first. Here they are dealt so, and in equal counts, each followed by exchanges between the longest part and another
//! one (`dealing`, `exchanges`), within some work for the whole chip. Where that can't help, since an even share of all cells is longer or
//! the parts are as short as they can be, it isn't tried (`cells`). As in `width_table` times never grow with the width: at each width a
//! wrapper of at most as many chains is taken, the narrower one where it is no longer (`choices`).
//!
//! No dealing is kept. A wrapper is dealt again when it is asked for, with the work that was left then, so that it has the lengths
//! of the table. Nothing is promised of the table, and a wrapper is tested before it is answered: where it isn't proper, or longer than the
//! one of `width_table`, it is that one.
//!
//! Times are in cycles, widths in wires, lengths in cells; modules go by their places in the chip, from 0. The only error is out of
//! memory.
#![tactic(auto)]

ghost use Rattle.std.specs.Prelude.{◌≡◌, ◌<◌, ◌≤◌, slice_get, IfOk, IfSome};
ghost use Rattle.soc_model.specs.Chips.{soc_value};
ghost use Rattle.plan_model.specs.Views.{wrapper_value};
ghost use Rattle.width_table.specs.Times.{least_time};
ghost use Rattle.width_table.specs.Tables.{places_of};
ghost use Rattle.packed_wrappers.specs.Times.{IsShortWrapper};

mod cells;
mod choices;
mod dealer;
mod dealing;
mod exchanges;
mod rows;
mod wrapping;

use outside::NoMemory;
use plan_model::Wrapper;
use rows::{PackedRow, choice_in, rows_of};
use soc_model::{Soc, module_at};
use std::alloc::Global;
use std::marker::Model;
use width_table::WidthTable;
use wrapping::{cycles_in, dealt_wrapper, is_short};

/// The wrappers of all modules of a chip on 1 to some wires, packed better than longest first.
#[derive(Drop)]
pub struct PackedWrappers<'a> {
    soc: &'a Soc,
    /// The wrappers that are answered where those packed here fail.
    table: &'a WidthTable<'a>,
    wires: u64,
    rows: Vec<PackedRow>,
}

impl<'a> Model for PackedWrappers<'a> {
    ghost use Rattle.soc_model.specs.Chips.{soc_value};
    ghost use Rattle.width_table.specs.Tables.{TableValue};
    ghost use Rattle.packed_wrappers.specs.Tables.{HasTable};

    ghost Value = { TableValue };

    ghost view = { λ p. record { soc = soc_value p.soc.now; wires = p.wires } };

    ghost invariant = { λ p. HasTable (soc_value p.soc.now) p.wires p.table.now };
}

impl<'a> PackedWrappers<'a> {
    /// Takes the wrappers of all modules of a chip at all widths from 1 to `wires`, beside those of its width table. All work is
    /// done here. `NoMemory` where memory runs out.
    pub fn new(
        alloc: Global,
        soc: &'a Soc,
        table: &'a WidthTable<'a>,
        wires: u64,
    ) -> Result<PackedWrappers<'a>, NoMemory>
        requires chip { table.now.soc ≡ soc_value soc.now }
        requires within { wires ≤ table.now.wires }
        ensures value { IfOk result (λ p. p ≡ record { soc = soc_value soc.now; wires = wires }) }
    {
        let wires = wires.min(table.wires());
        let rows = rows_of(alloc, soc, wires)?;
        Ok(PackedWrappers {
            soc,
            table,
            wires,
            rows,
        })
    }

    /// The longest path from the inputs and the longest one to the outputs of the wrapper that is taken for a mode of the module at a
    /// place at a width; both are 0 where the mode has no live test over the wires. It takes no memory.
    pub fn lengths(&self, place: usize, scan: bool, width: u64) -> (u64, u64) {
        let choice = choice_in(&self.rows, place, scan, width);
        (choice.si, choice.so)
    }

    /// The wrapper for a mode of the module at a place on a bus of a width. The tests of the mode take no more cycles in it than in
    /// the one of the width table. `NoMemory` where memory runs out.
    pub fn wrapper(
        &self,
        alloc: Global,
        place: usize,
        scan: bool,
        width: u64,
    ) -> Result<Wrapper, NoMemory>
        requires place { place < places_of self.now }
        requires some { 1 ≤ width }
        requires within { width ≤ self.now.wires }
        ensures short { IfOk result (λ w. IfSome (slice_get self.now.soc.modules place)
            (λ m. IsShortWrapper m scan width (least_time m scan width) (wrapper_value w))) }
    {
        let module = module_at(self.soc, place);
        let designed = self.table.wrapper(alloc, place, scan, width)?;
        let most = cycles_in(module, &designed);
        let choice = choice_in(&self.rows, place, scan, width);
        let packed = dealt_wrapper(alloc, module, scan, &choice)?;
        if is_short(module, scan, width, most, &packed) {
            return Ok(packed);
        }
        Ok(designed)
    }
}
