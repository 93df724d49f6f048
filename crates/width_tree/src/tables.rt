//! The times of all modules at all widths, taken once.
ghost use Rattle.std.specs.Prelude.{◌≡◌, ℕ, ◌+◌, ◌*◌, ◌^◌, ◌<◌, ◌≤◌, length, slice_index};
ghost use Rattle.soc_model.specs.Chips.{soc_value};
ghost use Rattle.soc_model.specs.SoundChips.{IsSoundChip};
ghost use Rattle.width_tree.specs.Tables.{place_of_time, AreTimes, HasRow, own_time as own_time_is, AreOwnTimes};

use bound_rules::LowerTimes;
use soc_model::Soc;

/// Widths of a module's row in a table: as many as limits may have wires.
pub const ROW_WIDTHS: usize = 256;

/// A chip, the wires of limits, and the times of the chip's modules: those over the wires on each width, and those of self
/// tests.
#[derive(Clone, Copy, Drop)]
pub struct ChipTimes<'a> {
    pub soc: &'a Soc,
    pub wires: u64,
    pub times: &'a [u64],
    pub own: &'a [u64],
}

/// The place of a time in a table.
fn time_place(place: usize, width: u64) -> usize
    requires some { 1 ≤ width }
    requires few { width ≤ 256 }
    requires fits { place * 256 + 256 < 2 ^ 63 }
    ensures { result ≡ place_of_time place width }
{
    place * ROW_WIDTHS + (width - 1) as usize
}

/// The lower times of the tests over the wires of the module at a place on a width, together, as a table has them.
pub fn tam_time(times: &[u64], place: usize, width: u64) -> u64
    requires some { 1 ≤ width }
    requires few { width ≤ 256 }
    requires room { place * 256 + 256 ≤ length times.now }
    ensures { result ≡ slice_index times.now (place_of_time place width) }
{
    times[time_place(place, width)]
}

/// Writes the times of the module at a place on each width.
fn fill_row(soc: &Soc, place: usize, wires: u64, times: &mut [u64])
    requires sound { IsSoundChip (soc_value soc.now) }
    requires place { place < length (soc_value soc.now).modules }
    requires wires { wires ≤ 256 }
    requires room { length times.old ≡ length (soc_value soc.now).modules * 256 }
    ensures row { HasRow (soc_value soc.now) wires times.new place }
    ensures earlier { (k : ℕ) → k < place * 256 →
        slice_index times.new k ≡ slice_index times.old k }
{
    let lower = LowerTimes::of(soc, place);
    for width in 1..wires + 1 {
        times[time_place(place, width)] = lower.over_wires(width);
    }
}

/// Writes the times of all modules over the wires on each width.
pub fn fill_times(soc: &Soc, wires: u64, times: &mut [u64])
    requires sound { IsSoundChip (soc_value soc.now) }
    requires wires { wires ≤ 256 }
    requires room { length times.old ≡ length (soc_value soc.now).modules * 256 }
    ensures { AreTimes (soc_value soc.now) wires times.new }
{
    for place in 0..soc.modules.len() {
        fill_row(soc, place, wires, times);
    }
}

/// The cycles of a module's self tests, together.
fn own_time(soc: &Soc, place: usize, wires: u64) -> u64
    requires sound { IsSoundChip (soc_value soc.now) }
    requires place { place < length (soc_value soc.now).modules }
    requires some_wire { 1 ≤ wires }
    ensures time { result ≡ own_time_is (soc_value soc.now) place }
    ensures small { result ≤ 10 ^ 18 }
{
    let lower = LowerTimes::of(soc, place);
    lower.of_all(wires) - lower.over_wires(wires)
}

/// Writes the cycles of the self tests of all modules.
pub fn fill_own_times(soc: &Soc, wires: u64, own: &mut [u64])
    requires sound { IsSoundChip (soc_value soc.now) }
    requires some_wire { 1 ≤ wires }
    requires room { length own.old ≡ length (soc_value soc.now).modules }
    ensures { AreOwnTimes (soc_value soc.now) own.new }
{
    for place in 0..soc.modules.len() {
        own[place] = own_time(soc, place, wires);
    }
}
