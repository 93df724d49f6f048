//! The times of the modules of a chip on buses of 1 to a given number of wires, and the widths whose designs are taken (after
//! the widths of TR-ARCHITECT, Goel and Marinissen 2002). A wider bus may leave wires unused, so no time grows with the width.
//!
//! Times are in cycles, widths in wires; modules go by their places in the chip, from 0.
//!
//! Each time is the sum of the least times of both modes up to the width, by the designs of `wrapper_design`. The only error is
//! out of memory.
#![tactic(auto)]

ghost use Rattle.std.specs.Prelude.{◌≡◌, ℕ, ◌+◌, ◌^◌, ◌<◌, ◌≤◌, length, slice_get, Some, IsTrue, IfOk, IfSome, true, false};
ghost use Rattle.soc_model.specs.Chips.{soc_value, is_live};
ghost use Rattle.soc_model.specs.SoundChips.{IsSoundChip};
ghost use Rattle.plan_model.specs.Views.{wrapper_value};
ghost use Rattle.plan_model.specs.Cells.{IsProper};
ghost use Rattle.wrapper_design.specs.Design.{mode_of, design};
ghost use Rattle.wrapper_design.specs.Balance.{IsBalanced};
ghost use Rattle.width_table.specs.Times.{mode_time, time_in, least_time, test_time, IsChosen};
ghost use Rattle.width_table.specs.Choices.{IsChoice};
ghost use Rattle.width_table.specs.Tables.{TableValue, IsTable, places_of, time_of, has_tam};

mod choosing;
mod rows;

use choosing::Choice;
use outside::NoMemory;
use plan_model::{Wrapper, closed_time};
use rows::{ModuleRow, rows_of};
use soc_model::{Soc, Test, module_at};
use std::alloc::Global;
use std::marker::Model;
use wrapper_design::design;

/// The times of all modules of a chip on 1 to `wires` wires, and the widths whose designs are taken.
#[derive(Drop)]
pub struct WidthTable<'a> {
    soc: &'a Soc,
    wires: u64,
    rows: Vec<ModuleRow>,
}

impl<'a> Model for WidthTable<'a> {
    ghost use Rattle.soc_model.specs.Chips.{soc_value};
    ghost use Rattle.width_table.specs.Tables.{TableValue};
    ghost use Rattle.width_table.specs.Choices.{HasRows};

    ghost Value = { TableValue };

    ghost view = { λ t. record { soc = soc_value t.soc.now; wires = t.wires } };

    ghost invariant = { λ t. HasRows (soc_value t.soc.now) t.wires t.rows.items };
}

impl<'a> WidthTable<'a> {
    /// Takes the times of all modules of the chip at all widths from 1 to `wires`. `NoMemory` where memory runs out.
    pub fn new(alloc: Global, soc: &'a Soc, wires: u64) -> Result<WidthTable<'a>, NoMemory>
        requires sound { IsSoundChip (soc_value soc.now) }
        requires some { 1 ≤ wires }
        requires few { wires ≤ 256 }
        ensures value { IfOk result (λ t. t ≡ record { soc = soc_value soc.now; wires = wires }) }
    {
        let rows = rows_of(alloc, soc, wires)?;
        Ok(WidthTable { soc, wires, rows })
    }

    /// The wires of the table.
    pub fn wires(&self) -> u64
        ensures value { result ≡ self.now.wires }
        ensures table { IsTable self.now }
    {
        self.wires
    }

    /// The number of modules of the chip.
    pub fn places(&self) -> usize
        ensures value { result ≡ places_of self.now }
        ensures table { IsTable self.now }
    {
        self.soc.modules.len()
    }

    /// The cycles of all tests over the wires of the module at a place, one after another, on a bus of a width: in each
    /// mode in the wrapper that takes the fewest. It never grows with the width, and takes no memory.
    pub fn time(&self, place: usize, width: u64) -> u64
        requires place { place < places_of self.now }
        requires some { 1 ≤ width }
        requires within { width ≤ self.now.wires }
        ensures time { result ≡ time_of self.now place width }
        ensures falls { (v : ℕ) → 1 ≤ v → v ≤ width → result ≤ time_of self.now place v }
        ensures attained { IfSome (slice_get self.now.soc.modules place) (λ m. (v u : ℕ) →
            IsChosen (mode_time m true) width v → IsChosen (mode_time m false) width u →
            result ≡ mode_time m true v + mode_time m false u) }
    {
        let times = &self.rows[place].times;
        times[(width - 1) as usize]
    }

    /// Whether the module at a place has a live test over the wires. It takes no memory.
    pub fn has_tam_test(&self, place: usize) -> bool
        requires place { place < places_of self.now }
        ensures tam { result ≡ has_tam self.now place }
    {
        self.time(place, self.wires) > 0
    }

    /// The width up to the bus's whose design is taken for a mode of the module at a place: the least one that takes the
    /// fewest cycles. It takes no memory.
    pub fn chosen(&self, place: usize, scan: bool, width: u64) -> u64
        requires place { place < places_of self.now }
        requires some { 1 ≤ width }
        requires within { width ≤ self.now.wires }
        ensures chosen { IfSome (slice_get self.now.soc.modules place)
            (λ m. IsChosen (mode_time m scan) width result) }
    {
        self.choice(place, scan, width).width
    }

    /// What is taken for a mode of the module at a place at a width.
    fn choice(&self, place: usize, scan: bool, width: u64) -> Choice
        requires place { place < places_of self.now }
        requires some { 1 ≤ width }
        requires within { width ≤ self.now.wires }
        ensures { IfSome (slice_get self.now.soc.modules place)
            (λ m. IsChoice m scan width result) }
    {
        self.rows[place].choices(scan).at(width)
    }

    /// The cycles of a live test over the wires of the module at a place on a bus of a width, those of the module's setup
    /// included: in the wrapper that the table gives for the test's mode there. No wrapper is made, and no memory taken.
    pub fn cycles(&self, place: usize, test: &Test, width: u64) -> u64
        requires place { place < places_of self.now }
        requires there { IfSome (slice_get self.now.soc.modules place)
            (λ m. (k : ℕ) × (slice_get m.tests k ≡ Some test.now)) }
        requires live { is_live test.now ≡ true }
        requires tam { IsTrue test.now.tam }
        requires some { 1 ≤ width }
        requires within { width ≤ self.now.wires }
        ensures cycles { IfSome (slice_get self.now.soc.modules place) (λ m. (v : ℕ) →
            IsChosen (mode_time m test.now.scan) width v → result ≡ test_time m test.now v) }
        ensures small { result ≤ 10 ^ 18 }
    {
        let choice = self.choice(place, test.scan, width);
        let setup = module_at(self.soc, place).setup;
        closed_time(setup, choice.si, choice.so, test.patterns)
    }

    /// The wrapper for a mode of the module at a place on a bus of a width: the design at the chosen width. The tests of
    /// the mode take the fewest cycles in it. `NoMemory` where memory runs out.
    pub fn wrapper(
        &self,
        alloc: Global,
        place: usize,
        scan: bool,
        width: u64,
    ) -> Result<Wrapper, NoMemory>
        requires place { place < places_of self.now }
        requires some { 1 ≤ width }
        requires within { width ≤ self.now.wires }
        ensures designed { IfOk result (λ w. IfSome (slice_get self.now.soc.modules place)
            (λ m. (v : ℕ) → IsChosen (mode_time m scan) width v →
            wrapper_value w
            ≡ record
            { «module» = m.number; scan = scan; chains = design (mode_of m scan) v })) }
        ensures proper { IfOk result (λ w. IfSome (slice_get self.now.soc.modules place)
            (λ m. IsProper m scan (wrapper_value w).chains)) }
        ensures balanced { IfOk result (λ w. IfSome (slice_get self.now.soc.modules place)
            (λ m. IsBalanced (mode_of m scan) (wrapper_value w).chains)) }
        ensures some_chain { IfOk result (λ w. 1 ≤ length (wrapper_value w).chains) }
        ensures few_chains { IfOk result (λ w. length (wrapper_value w).chains ≤ width) }
        ensures attained { IfOk result (λ w. IfSome (slice_get self.now.soc.modules place)
            (λ m. time_in m scan (wrapper_value w).chains ≡ least_time m scan width)) }
    {
        let chosen = self.chosen(place, scan, width);
        design(alloc, module_at(self.soc, place), scan, chosen)
    }
}
