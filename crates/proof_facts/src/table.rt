//! The packed times of all modules of a chip on each width, taken once.
ghost use Rattle.std.specs.Prelude.{◌≡◌, ◌+◌, ◌^◌, ◌<◌, ◌≤◌, ℕ, IfOk, IsTrue, Some, length, map, slice_get, slice_index, sum};
ghost use Rattle.std.specs.List.{All, range_with_len};
ghost use Rattle.soc_model.specs.Chips.{ModuleValue, is_live, module_value, soc_value};
ghost use Rattle.soc_model.specs.Sizes.{test_work};
ghost use Rattle.soc_model.specs.SoundChips.{IsSoundChip};
ghost use Rattle.proof_facts.specs.Packed.{packed, packed_tam_time, packed_time, self_test_time};
ghost use Rattle.proof_facts.specs.Tables.{AreNextChanges, HasChanges, IsNextChange, row_of, row_value};
ghost use Rattle.proof_facts.specs.Times.{tam_times_of, works_of};

use crate::lengths::{flops_of, packed_lengths};
use crate::times::{Packing, self_time, tam_time, test_time};
use outside::{NoMemory, push};
use soc_model::{Module, Soc, Test, module_at};
use std::alloc::Global;
use std::marker::Model;

/// The packed times of one module on each width from 1 on.
#[derive(Drop)]
struct ModuleTimes {
    /// For each width `w`: how many cells of the module's scan chains the longest of `w` wrapper chains has at least.
    packed: Vec<u64>,
    /// The cycles of the live tests over the wires, together.
    tam: Vec<u64>,
    /// For each width the next one on which these take another time together.
    next: Vec<u64>,
    /// The lengths of the scan chains together, in cells.
    flops: u64,
    /// The cycles of the live self tests, together.
    own: u64,
}

/// The packed times of a chip's live tests on each width of some wires.
#[derive(Drop)]
pub struct PackedTimes<'a> {
    soc: &'a Soc,
    wires: u64,
    rows: Vec<ModuleTimes>,
}

impl<'a> Model for PackedTimes<'a> {
    ghost use Rattle.soc_model.specs.Chips.{soc_value};
    ghost use Rattle.proof_facts.specs.Tables.{IsTable, TableValue};

    ghost Value = { TableValue };

    ghost view = { λ t. record { chip = soc_value t.soc.now; wires = t.wires } };

    ghost invariant = { λ t. IsTable (record { chip = soc_value t.soc.now; wires = t.wires })
        t.rows.items };
}

/// The cycles of the module's live tests over the wires on each width from 1 on, together, where its scan chains are
/// packed to these lengths.
fn tam_row(
    alloc: Global,
    module: &Module,
    flops: u64,
    lengths: &[u64],
) -> Result<Vec<u64>, NoMemory>
    requires work { works_of (module_value «module».now) «module».now.tests.items ≤ 10 ^ 18 }
    requires flops { flops ≡ sum «module».now.chains.items }
    requires lengths { lengths.now
        ≡ map (packed «module».now.chains.items) (range_with_len 1 (length lengths.now)) }
    ensures { IfOk result (λ row.
        row.items ≡ map (λ w. tam_times_of (module_value «module».now) w «module».now.tests.items)
        (range_with_len 1 (length lengths.now))) }
{
    let mut row = Vec::new(alloc);
    for place in 0..lengths.len() {
        let packing = Packing {
            width: place as u64 + 1,
            packed: lengths[place],
            flops,
        };
        push(&mut row, tam_time(module, &packing))?;
    }
    Ok(row)
}

/// The next place behind this one at which another number stands, from those behind the places after it.
fn next_change(numbers: &[u64], next: &[u64], place: usize) -> u64
    requires there { place + 1 < length numbers.now }
    requires long { length next.now ≡ length numbers.now }
    requires after { IsNextChange numbers.now (place + 1) (slice_index next.now (place + 1)) }
    ensures { IsNextChange numbers.now place result }
{
    if numbers[place] == numbers[place + 1] {
        return next[place + 1];
    }
    place as u64 + 1
}

/// For each place of a list the next one at which another number stands; the length of the list where there is none.
fn next_changes(alloc: Global, numbers: &[u64]) -> Result<Vec<u64>, NoMemory>
    ensures { IfOk result (λ next. AreNextChanges numbers.now next.items) }
{
    let count = numbers.len();
    let mut next = Vec::from_elem(alloc, count as u64, count)?;
    for step in 1..count {
        let place = count - 1 - step;
        next[place] = next_change(numbers, &next, place);
    }
    Ok(next)
}

/// The packed times of a module on each width from 1 to `wires`.
fn module_times(alloc: Global, module: &Module, wires: u64) -> Result<ModuleTimes, NoMemory>
    requires work { works_of (module_value «module».now) «module».now.tests.items ≤ 10 ^ 18 }
    requires flops { sum «module».now.chains.items < 2 ^ 63 }
    requires wires { wires ≤ 256 }
    ensures row { IfOk result
        (λ times. row_value times ≡ row_of wires (module_value «module».now)) }
    ensures changes { IfOk result HasChanges }
{
    let flops = flops_of(&module.chains);
    let packed = packed_lengths(alloc, &module.chains, wires)?;
    let tam = tam_row(alloc, module, flops, &packed)?;
    let next = next_changes(alloc, &tam)?;
    let own = self_time(module);
    Ok(ModuleTimes {
        packed,
        tam,
        next,
        flops,
        own,
    })
}

/// The packed times of all modules, in their order.
fn all_rows(alloc: Global, soc: &Soc, wires: u64) -> Result<Vec<ModuleTimes>, NoMemory>
    requires sound { IsSoundChip (soc_value soc.now) }
    requires wires { wires ≤ 256 }
    ensures rows { IfOk result
        (λ rows. map row_value rows.items ≡ map (row_of wires) (soc_value soc.now).modules) }
    ensures changes { IfOk result (λ rows. All HasChanges rows.items) }
{
    let mut rows = Vec::new(alloc);
    for place in 0..soc.modules.len() {
        let module = module_at(soc, place);
        let row = module_times(alloc, module, wires)?;
        push(&mut rows, row)?;
    }
    Ok(rows)
}

impl<'a> PackedTimes<'a> {
    /// The packed times of a chip's live tests on each width from 1 to `wires`. `NoMemory` where memory runs out.
    pub fn new(alloc: Global, soc: &'a Soc, wires: u64) -> Result<PackedTimes<'a>, NoMemory>
        requires sound { IsSoundChip (soc_value soc.now) }
        requires some_wire { 1 ≤ wires }
        requires few_wires { wires ≤ 256 }
        ensures { IfOk result
            (λ times. times ≡ record { chip = soc_value soc.now; wires = wires }) }
    {
        let rows = all_rows(alloc, soc, wires)?;
        Ok(PackedTimes { soc, wires, rows })
    }

    /// The packed times of the live tests over the wires of the module at a place, together, in cycles.
    pub fn tam_time(&self, place: usize, width: u64) -> u64
        requires place { place < length self.now.chip.modules }
        requires some_wire { 1 ≤ width }
        requires few_wires { width ≤ self.now.wires }
        ensures time { result ≡ packed_tam_time self.now.chip place width }
        ensures small { result ≤ 10 ^ 18 }
    {
        self.rows[place].tam[(width - 1) as usize]
    }

    /// The least width above this one on which the live tests over the wires of the module at a place take another time together;
    /// a wire more than the table has where there is none.
    pub fn next_width(&self, place: usize, width: u64) -> u64
        requires place { place < length self.now.chip.modules }
        requires some_wire { 1 ≤ width }
        requires few_wires { width ≤ self.now.wires }
        ensures wider { width < result }
        ensures within { result ≤ self.now.wires + 1 }
        ensures same { (w : ℕ) → width ≤ w → w < result → packed_tam_time self.now.chip place w
            ≡ packed_tam_time self.now.chip place width }
        ensures other { result ≤ self.now.wires →
            packed_tam_time self.now.chip place result ≡ packed_tam_time self.now.chip place width →
            ⊥ }
    {
        self.rows[place].next[(width - 1) as usize] + 1
    }

    /// The patterns of the live self tests of the module at a place, together: as many cycles as they take.
    pub fn self_time(&self, place: usize) -> u64
        requires place { place < length self.now.chip.modules }
        ensures time { result ≡ self_test_time self.now.chip place }
        ensures small { result ≤ 10 ^ 18 }
    {
        self.rows[place].own
    }

    /// The packed time of a live test of the module at a place, in cycles.
    pub fn test_time(&self, place: usize, test: &Test, width: u64) -> u64
        requires place { place < length self.now.chip.modules }
        requires some_wire { 1 ≤ width }
        requires few_wires { width ≤ self.now.wires }
        requires live { IsTrue (is_live test.now) }
        requires work { (m : ModuleValue) → slice_get self.now.chip.modules place ≡ Some m →
            test_work m test.now ≤ 10 ^ 18 }
        ensures time { (m : ModuleValue) → slice_get self.now.chip.modules place ≡ Some m →
            result ≡ packed_time m test.now width }
        ensures small { result ≤ 10 ^ 18 }
    {
        let row = &self.rows[place];
        let packing = Packing {
            width,
            packed: row.packed[(width - 1) as usize],
            flops: row.flops,
        };
        test_time(module_at(self.soc, place), &packing, test)
    }
}
