//! Writes the text of a plan's run, block by block.
ghost use Rattle.std.specs.Prelude.{◌≡◌, ◌≤◌, ◌+◌, ◌++◌, OnOk, OnErr, true, false};
ghost use Rattle.outside.specs.Held.{Appended, AppendedFront, Rose};
ghost use Rattle.outside.specs.Puts.{Puts};
ghost use Rattle.soc_model.specs.Chips.{soc_value};
ghost use Rattle.plan_model.specs.Runs.{Content};
ghost use Rattle.plan_model.specs.Views.{plan_value};
ghost use Rattle.vector_lines.specs.Marks.{Marks};
ghost use Rattle.vector_lines.specs.Placed.{StandFor};
ghost use Rattle.cycle_texts.specs.declared.forms.TheConstants.{CYCLE_MOST};
ghost use Rattle.cycle_texts.specs.ProgramText.{parts_of, program_text, row_at};
ghost use Rattle.cycle_texts.specs.Sources.{HaveRoom, IsSource};

use crate::CycleForm;
use crate::blocks::RowBlock;
use crate::parts::put_parts;
use crate::sources::RowSource;
use outside::{Sink, WriteFault, put_all};
use vector_lines::Contents;

/// Writes the parts of all cycles. The rows are made block by block, each with the row of the cycle before it.
fn write_cycles<F: CycleForm, C: Contents, K: Sink>(
    form: &F,
    contents: &C,
    source: &RowSource<'_>,
    lines: &mut [u8],
    digits: &mut [u8],
    text: &mut [u8],
    out: &mut K,
) -> Result<(), WriteFault>
    requires source { IsSource (C.keys contents.now) source.now }
    requires wires { source.now.wires ≡ F.wires_of form.now }
    requires width { source.now.width ≡ F.controls_of form.now }
    requires cycles { source.now.cycles ≤ CYCLE_MOST }
    requires room { HaveRoom source.now (F.room_of form.now) lines.old digits.old text.old }
    ensures faults_never_fall { K.faults out.old ≤ K.faults out.new }
    ensures all { (content : Content) (marks : Marks) →
        StandFor (C.keys contents.now) (C.drive contents.now) (C.mark contents.now)
        (soc_value source.now.soc.now) content marks →
        OnOk result (Appended (K.written out.old)
        (parts_of (F.part_of form.now)
        (row_at (soc_value source.now.soc.now) (plan_value source.now.plan.now) content
        marks) 0 source.now.cycles) (K.written out.new)) }
    ensures front { (content : Content) (marks : Marks) →
        StandFor (C.keys contents.now) (C.drive contents.now) (C.mark contents.now)
        (soc_value source.now.soc.now) content marks →
        OnErr result (AppendedFront (K.written out.old)
        (parts_of (F.part_of form.now)
        (row_at (soc_value source.now.soc.now) (plan_value source.now.plan.now) content
        marks) 0 source.now.cycles) (K.written out.new)) }
    ensures fault { OnErr result (Rose (K.faults out.old) (K.faults out.new)) }
    ensures none_failed { OnOk result (Puts K.is_put out.old false out.new) }
    ensures last_failed { OnErr result (Puts K.is_put out.old true out.new) }
{
    let mut done = 0;
    while done < source.cycles {
        let count = source.most.min(source.cycles - done);
        let earlier = done.min(1);
        let first = done - earlier;
        let rows = earlier + count;
        source.fill(contents, lines, digits, first, rows);
        let block = RowBlock {
            wires: source.wires,
            width: source.width,
            first,
            rows: rows as usize,
            lines,
            digits,
        };
        match put_parts(form, block, earlier as usize, text, out) {
            Ok(()) => {}
            Err(fault) => return Err(fault),
        }
        done += count;
    }
    Ok(())
}

/// Writes the whole text: what stands before the first cycle, the parts of all cycles, and what stands behind the last one.
pub fn write_text<F: CycleForm, C: Contents, K: Sink>(
    form: &F,
    contents: &C,
    source: &RowSource<'_>,
    lines: &mut [u8],
    digits: &mut [u8],
    text: &mut [u8],
    out: &mut K,
) -> Result<(), WriteFault>
    requires source { IsSource (C.keys contents.now) source.now }
    requires wires { source.now.wires ≡ F.wires_of form.now }
    requires width { source.now.width ≡ F.controls_of form.now }
    requires cycles { source.now.cycles ≤ CYCLE_MOST }
    requires room { HaveRoom source.now (F.room_of form.now) lines.old digits.old text.old }
    ensures faults_never_fall { K.faults out.old ≤ K.faults out.new }
    ensures all { (content : Content) (marks : Marks) →
        StandFor (C.keys contents.now) (C.drive contents.now) (C.mark contents.now)
        (soc_value source.now.soc.now) content marks →
        OnOk result (Appended (K.written out.old)
        (program_text (F.head_of form.now) (F.part_of form.now) (F.tail_of form.now)
        (soc_value source.now.soc.now) (plan_value source.now.plan.now) content marks)
        (K.written out.new)) }
    ensures front { (content : Content) (marks : Marks) →
        StandFor (C.keys contents.now) (C.drive contents.now) (C.mark contents.now)
        (soc_value source.now.soc.now) content marks →
        OnErr result (AppendedFront (K.written out.old)
        (program_text (F.head_of form.now) (F.part_of form.now) (F.tail_of form.now)
        (soc_value source.now.soc.now) (plan_value source.now.plan.now) content marks)
        (K.written out.new)) }
    ensures fault { OnErr result (Rose (K.faults out.old) (K.faults out.new)) }
    ensures none_failed { OnOk result (Puts K.is_put out.old false out.new) }
    ensures last_failed { OnErr result (Puts K.is_put out.old true out.new) }
{
    match put_all(out, form.head()) {
        Ok(()) => {}
        Err(fault) => return Err(fault),
    }
    match write_cycles(form, contents, source, lines, digits, text, out) {
        Ok(()) => {}
        Err(fault) => return Err(fault),
    }
    match put_all(out, form.tail()) {
        Ok(()) => Ok(()),
        Err(fault) => Err(fault),
    }
}
