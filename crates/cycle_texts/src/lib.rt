//! Writes a program for a tester, or another text with a part for each cycle of a plan's run, in any form of such a text.
//!
//! A form says what stands before the first cycle, for a cycle, and behind the last one. Here the rows are made that the parts are made
//! from: the bits that are driven and compared on the wires, as a text of vectors has them, and the controls of the wrappers. They are
//! made in blocks of cycles, so that no more than a block is in memory. Writing ends with what failed: memory before the first byte, or
//! the output.
#![tactic(auto)]

ghost use Rattle.std.specs.Prelude.{◌≡◌, ◌≤◌, length, true, false};
ghost use Rattle.outside.specs.Held.{Appended, AppendedFront, Rose};
ghost use Rattle.outside.specs.Puts.{Puts};
ghost use Rattle.soc_model.specs.Chips.{soc_value};
ghost use Rattle.plan_model.specs.Runs.{Content};
ghost use Rattle.plan_model.specs.Views.{plan_value};
ghost use Rattle.vector_lines.specs.Wires.{wires_of};
ghost use Rattle.vector_lines.specs.Marks.{Marks, Keys};
ghost use Rattle.vector_lines.specs.Placed.{StandFor};
ghost use Rattle.controls.specs.Controls.{controls};
ghost use Rattle.cycle_texts.specs.declared.forms.TheConstants.{CYCLE_MOST};
ghost use Rattle.cycle_texts.specs.ProgramText.{program_text};
ghost use Rattle.cycle_texts.specs.Sources.{HaveRoom, IsSource};

mod blocks;
mod forms;
mod laws;
mod parts;
mod sources;
mod writing;

pub use forms::{CYCLE_MOST, CycleForm, Row};
pub use laws::rows_show_vectors;
use live_tests::PlacedPlan;
use outside::Sink;
use sources::{BlockRooms, RowSource};
use std::alloc::Global;
use tester_vectors::LinesOutcome;
use vector_lines::Contents;
use writing::write_text;

/// Writes the text from a source in room that is at hand.
fn write_in_room<F: CycleForm, C: Contents, K: Sink>(
    form: &F,
    contents: &C,
    source: &RowSource<'_>,
    rooms: BlockRooms,
    out: &mut K,
) -> LinesOutcome
    requires source { IsSource (C.keys contents.now) source.now }
    requires wires { source.now.wires ≡ F.wires_of form.now }
    requires width { source.now.width ≡ F.controls_of form.now }
    requires cycles { source.now.cycles ≤ CYCLE_MOST }
    requires room { HaveRoom source.now (F.room_of form.now) rooms.lines.items rooms.digits.items
        rooms.text.items }
    ensures faults_never_fall { K.faults out.old ≤ K.faults out.new }
    ensures written { result ≡ LinesOutcome.Written → (content : Content) (marks : Marks) →
        StandFor (C.keys contents.now) (C.drive contents.now) (C.mark contents.now)
        (soc_value source.now.soc.now) content marks →
        Appended (K.written out.old)
        (program_text (F.head_of form.now) (F.part_of form.now) (F.tail_of form.now)
        (soc_value source.now.soc.now) (plan_value source.now.plan.now) content marks)
        (K.written out.new) }
    ensures no_memory_writes_nothing { result ≡ LinesOutcome.NoMemory → out.new ≡ out.old }
    ensures none_failed { result ≡ LinesOutcome.Written → Puts K.is_put out.old false out.new }
    ensures last_failed { result ≡ LinesOutcome.WriteFault → Puts K.is_put out.old true out.new }
    ensures fault { result ≡ LinesOutcome.WriteFault → Rose (K.faults out.old) (K.faults out.new) }
    ensures front { result ≡ LinesOutcome.WriteFault → (content : Content) (marks : Marks) →
        StandFor (C.keys contents.now) (C.drive contents.now) (C.mark contents.now)
        (soc_value source.now.soc.now) content marks →
        AppendedFront (K.written out.old)
        (program_text (F.head_of form.now) (F.part_of form.now) (F.tail_of form.now)
        (soc_value source.now.soc.now) (plan_value source.now.plan.now) content marks)
        (K.written out.new) }
{
    let mut rooms = rooms;
    let lines: &mut [u8] = &mut rooms.lines;
    let digits: &mut [u8] = &mut rooms.digits;
    let text: &mut [u8] = &mut rooms.text;
    match write_text(form, contents, source, lines, digits, text, out) {
        Ok(()) => LinesOutcome::Written,
        Err(_) => LinesOutcome::WriteFault,
    }
}

/// Writes the text of a good plan of a sound chip in a form, for contents: what stands before the first cycle, the part of each cycle, and
/// what stands behind the last one. The part of a cycle is made from its row and from that of the cycle before: from the bits that the
/// wires carry, the marks of the response bits that are read there or `-` where none is, and the controls of the chip. The form is one of
/// as many wires as the plan has, and of as many controls as the chip has.
///
/// All memory is taken first. No more than some 65,536 bytes of rows, the row before them, and as much of the text with one part are in
/// memory.
///
/// With `NoMemory` nothing is written. `WriteFault` comes only where the number of the sink's faults rose, and a front of the text is
/// then written.
pub fn write_program<F: CycleForm, C: Contents, K: Sink>(
    alloc: Global,
    placed: &PlacedPlan<'_>,
    contents: &C,
    form: &F,
    out: &mut K,
) -> LinesOutcome
    requires narrow { wires_of placed.now.plan ≤ 256 }
    requires cycles { placed.now.plan.cycles ≤ CYCLE_MOST }
    requires wires { F.wires_of form.now ≡ wires_of placed.now.plan }
    requires controls { F.controls_of form.now ≡ length (controls placed.now.soc) }
    ensures faults_never_fall { K.faults out.old ≤ K.faults out.new }
    ensures written { result ≡ LinesOutcome.Written → (content : Content) (marks : Marks) →
        StandFor (C.keys contents.now) (C.drive contents.now) (C.mark contents.now) placed.now.soc
        content marks →
        Appended (K.written out.old)
        (program_text (F.head_of form.now) (F.part_of form.now) (F.tail_of form.now)
        placed.now.soc placed.now.plan content marks) (K.written out.new) }
    ensures no_memory_writes_nothing { result ≡ LinesOutcome.NoMemory → out.new ≡ out.old }

    // No put fails but the last one, and none is empty.
    ensures none_failed { result ≡ LinesOutcome.Written → Puts K.is_put out.old false out.new }
    ensures last_failed { result ≡ LinesOutcome.WriteFault → Puts K.is_put out.old true out.new }

    ensures fault { result ≡ LinesOutcome.WriteFault → Rose (K.faults out.old) (K.faults out.new) }
    ensures front { result ≡ LinesOutcome.WriteFault → (content : Content) (marks : Marks) →
        StandFor (C.keys contents.now) (C.drive contents.now) (C.mark contents.now) placed.now.soc
        content marks →
        AppendedFront (K.written out.old)
        (program_text (F.head_of form.now) (F.part_of form.now) (F.tail_of form.now)
        placed.now.soc placed.now.plan content marks) (K.written out.new) }
{
    let source = match RowSource::new(alloc, placed, contents) {
        Ok(source) => source,
        Err(_) => return LinesOutcome::NoMemory,
    };
    match BlockRooms::new(alloc, &source, form.room()) {
        Ok(rooms) => write_in_room(form, contents, &source, rooms, out),
        Err(_) => LinesOutcome::NoMemory,
    }
}
