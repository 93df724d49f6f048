//! The parts of the cycles of a block, which are put into a text and written.
ghost use Rattle.std.specs.Prelude.{◌≡◌, ◌+◌, ◌-◌, ◌<◌, ◌≤◌, ℕ, length, take, IfOk, OnOk, OnErr, true, false};
ghost use Rattle.outside.specs.Held.{Appended, AppendedFront, Rose};
ghost use Rattle.outside.specs.Puts.{Puts};
ghost use Rattle.cycle_texts.specs.Rows.{CycleRow, IsPutAt};
ghost use Rattle.cycle_texts.specs.declared.forms.TheConstants.{CYCLE_MOST};
ghost use Rattle.cycle_texts.specs.ProgramText.{parts_of};
ghost use Rattle.cycle_texts.specs.RowBlocks.{block_before, block_row, HasRows, IsBlock};
ghost use Rattle.cycle_texts.specs.UnderWay.{IsUnderWay};

use crate::CycleForm;
use crate::blocks::RowBlock;
use outside::{Sink, WriteFault, put_all};

/// Answers where a part of at most `room` bytes can be put into a text that is filled up to a byte. Where too little is left behind it,
/// what stands before it is written first.
fn with_room<K: Sink>(text: &[u8], at: usize, room: usize, out: &mut K) -> Result<usize, WriteFault>
    requires at { at ≤ length text.now }
    requires room { room ≤ length text.now }
    ensures faults_never_fall { K.faults out.old ≤ K.faults out.new }
    ensures room { IfOk result (λ next. next + room ≤ length text.now) }
    ensures moved { IfOk result (λ next. IsUnderWay (K.written out.old) (take next text.now)
        (take at text.now) (K.written out.new)) }
    ensures front { OnErr result
        (AppendedFront (K.written out.old) (take at text.now) (K.written out.new)) }
    ensures fault { OnErr result (Rose (K.faults out.old) (K.faults out.new)) }
    ensures none_failed { OnOk result (Puts K.is_put out.old false out.new) }
    ensures last_failed { OnErr result (Puts K.is_put out.old true out.new) }
{
    if room <= text.len() - at {
        return Ok(at);
    }
    match put_all(out, &text[..at]) {
        Ok(()) => Ok(0),
        Err(fault) => Err(fault),
    }
}

/// Puts the part of the cycle at a place of a block into a text, from the byte `at` on, and answers where it ends.
fn put_part<F: CycleForm>(
    form: &F,
    block: RowBlock<'_>,
    place: usize,
    text: &mut [u8],
    at: usize,
) -> usize
    requires block { IsBlock block }
    requires wires { block.wires ≡ F.wires_of form.now }
    requires width { block.width ≡ F.controls_of form.now }
    requires within { place < block.rows }
    requires cycles { block.first + block.rows ≤ CYCLE_MOST }
    requires room { at + F.room_of form.now ≤ length text.old }
    ensures within { result ≤ at + F.room_of form.now }
    ensures put { IsPutAt at
        (F.part_of form.now (block.entry.first + place) (block_before block.entry place)
        (block_row block.entry place)) result text.old text.new }
{
    let cycle = block.first + place as u64;
    let before = block.row_before(place);
    let row = block.row(place);
    form.put(cycle, before, row, text, at)
}

/// Writes the parts of the cycles of a block, but for the first `skipped` ones: that of a first cycle is made without one before it.
/// They are put into the text, and written where it is full, and at the end.
pub fn put_parts<F: CycleForm, K: Sink>(
    form: &F,
    block: RowBlock<'_>,
    skipped: usize,
    text: &mut [u8],
    out: &mut K,
) -> Result<(), WriteFault>
    requires block { IsBlock block }
    requires wires { block.wires ≡ F.wires_of form.now }
    requires width { block.width ≡ F.controls_of form.now }
    requires within { skipped ≤ block.rows }
    requires begins { skipped ≡ 0 → block.first ≡ 0 }
    requires cycles { block.first + block.rows ≤ CYCLE_MOST }
    requires room { F.room_of form.now ≤ length text.old }
    ensures faults_never_fall { K.faults out.old ≤ K.faults out.new }
    ensures all { (row : ℕ → CycleRow) → HasRows row block.entry →
        OnOk result (Appended (K.written out.old)
        (parts_of (F.part_of form.now) row (block.entry.first + skipped)
        (block.entry.rows - skipped)) (K.written out.new)) }
    ensures front { (row : ℕ → CycleRow) → HasRows row block.entry →
        OnErr result (AppendedFront (K.written out.old)
        (parts_of (F.part_of form.now) row (block.entry.first + skipped)
        (block.entry.rows - skipped)) (K.written out.new)) }
    ensures fault { OnErr result (Rose (K.faults out.old) (K.faults out.new)) }
    ensures none_failed { OnOk result (Puts K.is_put out.old false out.new) }
    ensures last_failed { OnErr result (Puts K.is_put out.old true out.new) }
{
    let mut at = 0;
    let mut place = skipped;
    while place < block.rows {
        let next = match with_room(text, at, form.room(), out) {
            Ok(next) => next,
            Err(fault) => return Err(fault),
        };
        at = put_part(form, block, place, text, next);
        place += 1;
    }
    match put_all(out, &text[..at]) {
        Ok(()) => Ok(()),
        Err(fault) => Err(fault),
    }
}
