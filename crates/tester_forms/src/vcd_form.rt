//! The form of a dump: what is made of a plan once, and the part of each cycle.
ghost use Rattle.std.specs.Prelude.{◌≡◌, ℕ, ◌+◌, ◌*◌, ◌^◌, ◌<◌, ◌≤◌, ◌++◌, List, Option, None, Some, length, slice_index, sum, vec_len, IfOk};
ghost use Rattle.soc_model.specs.Chips.{soc_value};
ghost use Rattle.soc_model.specs.SoundChips.{IsSoundChip};
ghost use Rattle.plan_model.specs.Plans.{widths};
ghost use Rattle.plan_model.specs.Rules.{live_ids};
ghost use Rattle.plan_model.specs.Views.{plan_value};
ghost use Rattle.controls.specs.Controls.{controls, tam_numbers};
ghost use Rattle.cycle_texts.specs.Rows.{CycleRow, HasSizes, IsPutAt, row_of};
ghost use Rattle.tester_forms.specs.Dumps.{dump_head, dump_part, dump_tail, part_text, time_line};
ghost use Rattle.tester_forms.specs.Forms.{AreCodes, form_sources};

use crate::vcd_changes::{
    put_control_changes, put_control_values, put_wire_changes, put_wire_values,
};
use crate::vcd_code::Code;
use crate::vcd_definitions::{Counts, Listing, counts_of, definitions_of};
use crate::vcd_lines::{LINE_MOST, TIME_MOST, code_of, put_time};
use cycle_texts::{CYCLE_MOST, CycleForm, Row};
use live_tests::all_wires;
use outside::{NoMemory, extend, push, push_number};
use plan_model::Plan;
use soc_model::Soc;
use std::alloc::Global;

/// A plan's vectors as a value change dump. A cycle takes ten units of time, of ten nanoseconds each.
#[derive(Drop)]
pub struct VcdForm {
    /// The definitions, and the line of the time at which the last cycle ends.
    head: Vec<u8>,
    tail: Vec<u8>,
    wires: usize,
    controls: usize,
    /// For each variable of a control the place of its control, and for each variable its code.
    places: Vec<usize>,
    codes: Vec<Code>,
    ghost narrow: { wires ≤ 256 },
    ghost few: { vec_len places < 2 ^ 32 },
    ghost there: { (i : ℕ) → i < length places.items → slice_index places.items i < controls },
    ghost coded: { AreCodes (2 * wires + vec_len places) codes.items },
}

/// The codes of the variables from 0 on.
fn codes_of(alloc: Global, count: usize) -> Result<Vec<Code>, NoMemory>
    requires { count < 10 ^ 4 }
    ensures { IfOk result (λ codes. AreCodes count codes.items) }
{
    let mut codes = Vec::new(alloc);
    for number in 0..count {
        push(&mut codes, code_of(number))?;
    }
    Ok(codes)
}

/// The line of the time at which the last cycle ends.
fn tail_of(alloc: Global, cycles: u64) -> Result<Vec<u8>, NoMemory>
    ensures { IfOk result (λ tail. tail.items ≡ time_line cycles) }
{
    let mut tail = Vec::new(alloc);
    extend(&mut tail, b"#")?;
    push_number(&mut tail, 10 * u128::from(cycles))?;
    extend(&mut tail, b"\n")?;
    Ok(tail)
}

impl VcdForm {
    /// The form of a plan of a sound chip. `NoMemory` where memory runs out.
    pub fn new(alloc: Global, soc: &Soc, plan: &Plan) -> Result<VcdForm, NoMemory>
        requires sound { IsSoundChip (soc_value soc.now) }
        requires narrow { sum (widths (plan_value plan.now)) ≤ 256 }
        ensures wires { IfOk result
            (λ form. ⟦<VcdForm as CycleForm>⟧.wires_of form ≡ sum (widths (plan_value plan.now))) }
        ensures controls { IfOk result (λ form. ⟦<VcdForm as CycleForm>⟧.controls_of form
            ≡ length (controls (soc_value soc.now))) }
        ensures room { IfOk result (λ form. ⟦<VcdForm as CycleForm>⟧.room_of form ≤ 2 ^ 40) }
        ensures head { IfOk result (λ form. ⟦<VcdForm as CycleForm>⟧.head_of form
            ≡ dump_head (soc_value soc.now) (plan_value plan.now)) }
        ensures part { IfOk result (λ form. ⟦<VcdForm as CycleForm>⟧.part_of form
            ≡ dump_part (soc_value soc.now) (plan_value plan.now)) }
        ensures tail { IfOk result
            (λ form. ⟦<VcdForm as CycleForm>⟧.tail_of form ≡ dump_tail (plan_value plan.now)) }
    {
        let counts = counts_of(alloc, soc)?;
        let wires = all_wires(plan) as usize;
        let tail = tail_of(alloc, plan.cycles)?;
        let listing = definitions_of(alloc, soc, plan, counts, wires)?;
        let codes = codes_of(alloc, 2 * wires + listing.places.len())?;
        let Listing {
            text,
            first: _,
            places,
        } = listing;
        Ok(VcdForm {
            head: text,
            tail,
            wires,
            controls: counts.runs + 2 * counts.wired,
            places,
            codes,
        })
    }

    /// Writes the part of a cycle at which all values are written.
    fn put_all(&self, cycle: u64, row: Row<'_>, text: &mut [u8], at: usize) -> usize
        requires cycle { cycle ≤ CYCLE_MOST }
        requires row { HasSizes self.now.wires self.now.controls (row_of row) }
        requires room { at + (16 + 8 * vec_len self.now.codes) ≤ length text.old }
        ensures within { result ≤ at + (16 + 8 * vec_len self.now.codes) }
        ensures put { IsPutAt at
            (part_text (form_sources self.now.wires self.now.places.items) cycle None
            (row_of row.entry)) result text.old text.new }
    {
        let time_end = put_time(text, at, cycle);
        let wires_end = put_wire_values(&self.codes, self.wires, row, text, time_end);
        put_control_values(
            &self.codes,
            2 * self.wires,
            &self.places,
            row,
            text,
            wires_end,
        )
    }

    /// Writes the part of a cycle behind another one, whose row is `before`.
    fn put_changed(
        &self,
        cycle: u64,
        before: Row<'_>,
        row: Row<'_>,
        text: &mut [u8],
        at: usize,
    ) -> usize
        requires cycle { cycle ≤ CYCLE_MOST }
        requires before { HasSizes self.now.wires self.now.controls (row_of before) }
        requires row { HasSizes self.now.wires self.now.controls (row_of row) }
        requires room { at + (16 + 8 * vec_len self.now.codes) ≤ length text.old }
        ensures within { result ≤ at + (16 + 8 * vec_len self.now.codes) }
        ensures put { IsPutAt at
            (part_text (form_sources self.now.wires self.now.places.items) cycle
            (Some (row_of before.entry)) (row_of row.entry)) result text.old text.new }
    {
        let time_end = put_time(text, at, cycle);
        let wires_end = put_wire_changes(&self.codes, self.wires, before, row, text, time_end);
        let end = put_control_changes(
            &self.codes,
            2 * self.wires,
            &self.places,
            before,
            row,
            text,
            wires_end,
        );
        if end == time_end {
            return at;
        }
        end
    }
}

impl CycleForm for VcdForm {
    ghost use Rattle.std.specs.Prelude.{◌+◌, ◌*◌, vec_len};
    ghost use Rattle.tester_forms.specs.Dumps.{part_text};
    ghost use Rattle.tester_forms.specs.Forms.{form_sources};

    ghost wires_of = { λ f. f.wires };

    ghost controls_of = { λ f. f.controls };

    ghost room_of = { λ f. 16 + 8 * vec_len f.codes };

    ghost head_of = { λ f. f.head.items };

    ghost part_of = { λ f. part_text (form_sources f.wires f.places.items) };

    ghost tail_of = { λ f. f.tail.items };

    fn head(&self) -> &[u8] {
        &self.head
    }

    fn tail(&self) -> &[u8] {
        &self.tail
    }

    fn room(&self) -> usize {
        TIME_MOST + LINE_MOST * self.codes.len()
    }

    fn put(
        &self,
        cycle: u64,
        before: Option<Row<'_>>,
        row: Row<'_>,
        text: &mut [u8],
        at: usize,
    ) -> usize {
        match before {
            None => self.put_all(cycle, row, text, at),
            Some(before) => self.put_changed(cycle, before, row, text, at),
        }
    }
}
