//! The form: its head, and the calls of the task.
ghost use Rattle.std.specs.Prelude.{◌≡◌, ◌+◌, ◌*◌, ◌≤◌, ◌<◌, ◌^◌, length, map, IfOk, sum};
ghost use Rattle.cycle_texts.specs.Rows.{HasSizes, IsPutAt, row_of};
ghost use Rattle.tester_forms.specs.Pieces.{letter_of};
ghost use Rattle.soc_model.specs.Chips.{soc_value};
ghost use Rattle.soc_model.specs.SoundChips.{IsSoundChip};
ghost use Rattle.plan_model.specs.Plans.{widths};
ghost use Rattle.plan_model.specs.Views.{plan_value};
ghost use Rattle.tester_forms.specs.VerilogText.{further_number, number, numbers, only_number, size_mark as the_mark, wire_numbers};

use crate::verilog_head::verilog_head;
use crate::verilog_pushes::push_size;
use crate::{Letters, put_letters, put_piece};
use controls::controls_of;
use cycle_texts::{CycleForm, Row};
use live_tests::all_wires;
use outside::NoMemory;
use plan_model::Plan;
use soc_model::Soc;
use std::alloc::Global;

/// What a call has beside bits, in bytes, at most.
const BESIDE_BITS: usize = 64;

/// What stands before the bits of a number of so many bits.
fn size_mark(alloc: Global, count: usize) -> Result<Vec<u8>, NoMemory>
    requires few { count < 10 ^ 4 }
    ensures is { IfOk result (λ mark. mark.items ≡ the_mark count) }
    ensures short { IfOk result (λ mark. length mark.items ≤ 6) }
{
    let mut mark = Vec::new(alloc);
    push_size(&mut mark, count)?;
    Ok(mark)
}

/// Puts a number: what stands before its bits, and the bits.
fn put_number(mark: &[u8], bits: &[u8], text: &mut [u8], at: usize) -> usize
    requires mark { mark.now ≡ the_mark (length bits.now) }
    requires room { at + (length mark.now + length bits.now) ≤ length text.old }
    ensures { IsPutAt at (number bits.now) result text.old text.new }
{
    let from = put_piece(text, at, mark);
    put_piece(text, from, bits)
}

/// Puts a number with a bit for what is compared on each wire.
fn put_compared(mark: &[u8], letters: Letters, compared: &[u8], text: &mut [u8], at: usize) -> usize
    requires mark { mark.now ≡ the_mark (length compared.now) }
    requires room { at + (length mark.now + length compared.now) ≤ length text.old }
    ensures { IsPutAt at (number (map (letter_of letters) compared.now)) result text.old text.new }
{
    let from = put_piece(text, at, mark);
    put_letters(letters, compared, text, from)
}

/// The Verilog text of a plan's run.
#[derive(Drop)]
pub struct VerilogForm {
    /// The text before the first cycle.
    head: Vec<u8>,
    /// How many wires and controls there are.
    wires: usize,
    controls: usize,
    /// What stands before the bits of a number for the wires, and for the controls.
    wire_mark: Vec<u8>,
    control_mark: Vec<u8>,
    ghost few_wires: { wires ≤ 256 },
    ghost few_controls: { controls ≤ 6096 },
    ghost wire_mark_is: { wire_mark.items ≡ the_mark wires },
    ghost control_mark_is: { control_mark.items ≡ the_mark controls },
    ghost wire_mark_short: { length wire_mark.items ≤ 6 },
    ghost control_mark_short: { length control_mark.items ≤ 6 },
}

impl VerilogForm {
    ghost use Rattle.tester_forms.specs.VerilogForms.{IsVerilogForm};

    /// The Verilog form of the run of a plan of a sound chip. `NoMemory` where memory runs out.
    pub fn new(alloc: Global, soc: &Soc, plan: &Plan) -> Result<VerilogForm, NoMemory>
        requires sound { IsSoundChip (soc_value soc.now) }
        requires narrow { sum (widths (plan_value plan.now)) ≤ 256 }
        ensures { IfOk result (IsVerilogForm (soc_value soc.now) (plan_value plan.now)) }
    {
        let wires = all_wires(plan) as usize;
        let list = controls_of(alloc, soc)?;
        let controls = list.len();
        let head = verilog_head(alloc, wires, &list)?;
        let wire_mark = size_mark(alloc, wires)?;
        let control_mark = size_mark(alloc, controls)?;
        Ok(VerilogForm {
            head,
            wires,
            controls,
            wire_mark,
            control_mark,
        })
    }

    /// Puts the three numbers of the wires.
    fn put_wires(&self, driven: &[u8], compared: &[u8], text: &mut [u8], at: usize) -> usize
        requires driven { length driven.now ≡ self.now.wires }
        requires compared { length compared.now ≡ self.now.wires }
        requires room { at + (3 * self.now.wires + 22) ≤ length text.old }
        ensures { IsPutAt at (wire_numbers driven.now compared.now) result text.old text.new }
    {
        let wanted = Letters {
            zero: b'0',
            one: b'1',
            none: b'0',
        };
        let care = Letters {
            zero: b'1',
            one: b'1',
            none: b'0',
        };
        let driven_end = put_number(&self.wire_mark, driven, text, at);
        let wanted_from = put_piece(text, driven_end, b", ");
        let wanted_end = put_compared(&self.wire_mark, wanted, compared, text, wanted_from);
        let care_from = put_piece(text, wanted_end, b", ");
        put_compared(&self.wire_mark, care, compared, text, care_from)
    }

    /// Puts the number of the controls behind those of the wires, where there are any.
    fn put_further(&self, controls: &[u8], text: &mut [u8], at: usize) -> usize
        requires controls { length controls.now ≡ self.now.controls }
        requires room { at + (self.now.controls + 8) ≤ length text.old }
        ensures { IsPutAt at (further_number controls.now) result text.old text.new }
    {
        if controls.is_empty() {
            return at;
        }
        let from = put_piece(text, at, b", ");
        put_number(&self.control_mark, controls, text, from)
    }

    /// Puts the only number, where there are no wires.
    fn put_only(&self, controls: &[u8], text: &mut [u8], at: usize) -> usize
        requires controls { length controls.now ≡ self.now.controls }
        requires room { at + (self.now.controls + 8) ≤ length text.old }
        ensures { IsPutAt at (only_number controls.now) result text.old text.new }
    {
        if controls.is_empty() {
            return put_piece(text, at, b"1'b0");
        }
        put_number(&self.control_mark, controls, text, at)
    }

    /// Puts what the task is called with.
    fn put_numbers(&self, row: Row<'_>, text: &mut [u8], at: usize) -> usize
        requires row { HasSizes self.now.wires self.now.controls (row_of row) }
        requires room { at + (3 * self.now.wires + self.now.controls + 30) ≤ length text.old }
        ensures { IsPutAt at
            (numbers row.entry.driven.now row.entry.compared.now row.entry.controls.now) result
            text.old text.new }
    {
        if row.driven.is_empty() {
            return self.put_only(row.controls, text, at);
        }
        let end = self.put_wires(row.driven, row.compared, text, at);
        self.put_further(row.controls, text, end)
    }
}

impl CycleForm for VerilogForm {
    ghost use Rattle.tester_forms.specs.VerilogText.{verilog_line, verilog_tail};

    ghost wires_of = { λ form. form.wires };

    ghost controls_of = { λ form. form.controls };

    ghost room_of = { λ form. 3 * form.wires + form.controls + 64 };

    ghost head_of = { λ form. form.head.items };

    ghost part_of = { λ form cycle before row. verilog_line row };

    ghost tail_of = { λ form. verilog_tail };

    fn head(&self) -> &[u8] {
        &self.head
    }

    fn tail(&self) -> &[u8] {
        b"    $display(\"cycles %0d failed %0d\", cycle, failed);\n    $finish;\n  end\nendmodule\n"
    }

    fn room(&self) -> usize {
        3 * self.wires + self.controls + BESIDE_BITS
    }

    fn put(
        &self,
        _cycle: u64,
        _before: Option<Row<'_>>,
        row: Row<'_>,
        text: &mut [u8],
        at: usize,
    ) -> usize {
        let from = put_piece(text, at, b"    v(");
        let end = self.put_numbers(row, text, from);
        put_piece(text, end, b");\n")
    }
}
