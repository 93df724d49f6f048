//! The text of a plan's test vectors: what a tester drives on each wire, cycle by cycle, and what it compares.
//!
//! A run that is driven with these bits loads each pattern and reads what they compare, whatever stands in the cells at first. The
//! lines are those of `bit_machine`; this crate cuts the run into blocks of lines and writes them. It refuses a run of too many
//! cycles times wires, and ends with what failed: memory before the first byte, or the output.
#![tactic(auto)]

ghost use Rattle.std.specs.Prelude.{◌≡◌, ℕ, ◌<◌, ◌≤◌, true, false};
ghost use Rattle.soc_model.specs.Chips.{soc_value};
ghost use Rattle.soc_model.specs.SoundChips.{IsSoundChip};
ghost use Rattle.plan_model.specs.Rules.{IsGoodAlone};
ghost use Rattle.plan_model.specs.Views.{plan_value};
ghost use Rattle.outside.specs.Held.{Rose, Appended, AppendedFront};
ghost use Rattle.outside.specs.Puts.{Puts};
ghost use Rattle.plan_model.specs.Runs.{Content};
ghost use Rattle.vector_lines.specs.Wires.{wires_of};
ghost use Rattle.vector_lines.specs.Made.{made_content};
ghost use Rattle.vector_lines.specs.Placed.{StandFor};
ghost use Rattle.tester_vectors.specs.Marks.{Marks, MarksReads, MarksStand};
ghost use Rattle.tester_vectors.specs.VectorText.{marked_text, wire_cycles as cycles_by_wires, vector_text as whole_text};
ghost use Rattle.tester_vectors.specs.DrivenRuns.{RunsAsShown};

mod laws;
mod text;

pub use laws::{marks_are_reads, marks_stand, vectors_run_as_shown};
use live_tests::{LiveTests, Placed, PlacedPlan, all_wires};
use outside::Sink;
use plan_model::Plan;
use soc_model::Soc;
use std::alloc::Global;
use text::Run;
pub use text::{cells_over, too_many_cells};
use vector_lines::{Contents, MadeContents, made_contents_stand};

/// The cycles of a run of vectors times its wires, at most. A plan without wires counts as one of one wire.
pub const RUN_MOST: u128 = 20_000_000;

/// How the writing of vectors ended.
#[derive(Clone, Copy, PartialEq, Eq, Debug)]
pub enum Outcome {
    /// The whole text was written.
    Written,
    /// The cycles of the run times its wires are `cells`, more than [`RUN_MOST`]. Nothing was written.
    RunTooLong { cells: u128 },
    /// Writing failed, and perhaps a front of the text was written.
    WriteFault,
    /// Memory was refused. Nothing was written.
    NoMemory,
}

/// How the writing of lines for contents ended.
#[derive(Clone, Copy, PartialEq, Eq, Debug)]
pub enum LinesOutcome {
    /// The whole text was written.
    Written,
    /// Writing failed, and perhaps a front of the text was written.
    WriteFault,
    /// Memory was refused. Nothing was written.
    NoMemory,
}

/// Writes the vectors of a good plan of a sound chip for contents: a line `vectors W C` with the wires of the plan and its cycles, then
/// a line for each cycle. In it stand the bits that the wires carry, a space, and for each wire the mark of the response bit that is
/// read there, or `-` where none is. Runs of any length are written: [`cells_over`] tells how long a run is.
///
/// All memory is taken first. Then the first line is put by itself, and the others in blocks of whole lines.
///
/// With `NoMemory` nothing is written. `WriteFault` comes only where the number of the sink's faults rose, and a front of the text is
/// then written.
pub fn write_lines<C: Contents, K: Sink>(
    alloc: Global,
    placed: &PlacedPlan<'_>,
    contents: &C,
    out: &mut K,
) -> LinesOutcome
    requires { wires_of placed.now.plan ≤ 256 }
    ensures faults_never_fall { K.faults out.old ≤ K.faults out.new }
    ensures written { result ≡ LinesOutcome.Written → (content : Content) (marks : Marks) →
        StandFor (C.keys contents.now) (C.drive contents.now) (C.mark contents.now) placed.now.soc
        content marks →
        Appended (K.written out.old) (marked_text placed.now.soc placed.now.plan content marks)
        (K.written out.new) }
    ensures marks { (marks : Marks) → MarksStand placed.now.soc placed.now.plan marks }
    ensures no_memory_writes_nothing { result ≡ LinesOutcome.NoMemory → out.new ≡ out.old }

    // No put fails but the last one, and none is empty.
    ensures none_failed { result ≡ LinesOutcome.Written → Puts K.is_put out.old false out.new }
    ensures last_failed { result ≡ LinesOutcome.WriteFault → Puts K.is_put out.old true out.new }

    ensures fault { result ≡ LinesOutcome.WriteFault → Rose (K.faults out.old) (K.faults out.new) }
    ensures front { result ≡ LinesOutcome.WriteFault → (content : Content) (marks : Marks) →
        StandFor (C.keys contents.now) (C.drive contents.now) (C.mark contents.now) placed.now.soc
        content marks →
        AppendedFront (K.written out.old) (marked_text placed.now.soc placed.now.plan content marks)
        (K.written out.new) }
{
    let mut run = match Run::new(alloc, placed, contents, all_wires(placed.plan)) {
        Ok(run) => run,
        Err(_) => return LinesOutcome::NoMemory,
    };
    match run.write(contents, out) {
        Ok(()) => LinesOutcome::Written,
        Err(_) => LinesOutcome::WriteFault,
    }
}

/// Writes the vectors of a good plan of a sound chip, with the made contents of a seed: a line `vectors W C` with the wires
/// of the plan and its cycles, then a line for each cycle. In it stand the bits that the wires carry, a space, and for each
/// wire the response bit that is read there, or `-` where none is.
///
/// All memory is taken first. Then the first line is put by itself, and the others in blocks of whole lines.
///
/// `RunTooLong` comes exactly where cycles times wires pass [`RUN_MOST`]; then, and with `NoMemory`, nothing is written.
/// `WriteFault` comes only where the number of the sink's faults rose, and a front of the text is then written.
pub fn write_vectors<K: Sink>(
    alloc: Global,
    soc: &Soc,
    plan: &Plan,
    seed: u64,
    out: &mut K,
) -> Outcome
    requires sound { IsSoundChip (soc_value soc.now) }
    requires good { IsGoodAlone (soc_value soc.now) (plan_value plan.now) }
    requires narrow { wires_of (plan_value plan.now) ≤ 256 }
    ensures faults_never_fall { K.faults out.old ≤ K.faults out.new }
    ensures written { result ≡ Outcome.Written →
        Appended (K.written out.old)
        (whole_text (soc_value soc.now) (plan_value plan.now)
        (made_content (soc_value soc.now) seed)) (K.written out.new) }
    ensures run { RunsAsShown (soc_value soc.now) (plan_value plan.now)
        (made_content (soc_value soc.now) seed) (whole_text (soc_value soc.now)
        (plan_value plan.now) (made_content (soc_value soc.now) seed)) }
    ensures marks { MarksReads (soc_value soc.now) (plan_value plan.now)
        (made_content (soc_value soc.now) seed) }

    ensures too_long { RUN_MOST < cycles_by_wires (plan_value plan.now) →
        result ≡ Outcome.RunTooLong (cycles_by_wires (plan_value plan.now)) }
    ensures only { (cells : ℕ) → result ≡ Outcome.RunTooLong cells →
        RUN_MOST < cycles_by_wires (plan_value plan.now) }
    ensures too_long_writes_nothing { (cells : ℕ) → result ≡ Outcome.RunTooLong cells →
        out.new ≡ out.old }
    ensures no_memory_writes_nothing { result ≡ Outcome.NoMemory → out.new ≡ out.old }

    // No put fails but the last one, and none is empty.
    ensures none_failed { result ≡ Outcome.Written → Puts K.is_put out.old false out.new }
    ensures last_failed { result ≡ Outcome.WriteFault → Puts K.is_put out.old true out.new }

    ensures fault { result ≡ Outcome.WriteFault → Rose (K.faults out.old) (K.faults out.new) }
    ensures front { result ≡ Outcome.WriteFault →
        AppendedFront (K.written out.old)
        (whole_text (soc_value soc.now) (plan_value plan.now)
        (made_content (soc_value soc.now) seed)) (K.written out.new) }
{
    if let Some(cells) = too_many_cells(plan) {
        return Outcome::RunTooLong { cells };
    }
    let Ok(names) = LiveTests::new(alloc, soc) else {
        return Outcome::NoMemory;
    };
    let Ok(places) = Placed::new(alloc, soc, plan) else {
        drop(names);
        return Outcome::NoMemory;
    };
    let placed = PlacedPlan::new(soc, plan, &names, &places);
    let outcome = write_made(alloc, &placed, seed, out);
    // dropped by calls: the end of the scope would drop each of their parts, and be proved for each
    drop(names);
    drop(places);
    outcome
}

/// Writes the vectors of a placed plan, as [`write_vectors`] does those of a plan.
pub fn write_made<K: Sink>(
    alloc: Global,
    placed: &PlacedPlan<'_>,
    seed: u64,
    out: &mut K,
) -> Outcome
    requires { wires_of placed.now.plan ≤ 256 }
    ensures faults_never_fall { K.faults out.old ≤ K.faults out.new }
    ensures written { result ≡ Outcome.Written →
        Appended (K.written out.old)
        (whole_text placed.now.soc placed.now.plan (made_content placed.now.soc seed))
        (K.written out.new) }
    ensures run { RunsAsShown placed.now.soc placed.now.plan (made_content placed.now.soc seed)
        (whole_text placed.now.soc placed.now.plan (made_content placed.now.soc seed)) }
    ensures marks { MarksReads placed.now.soc placed.now.plan (made_content placed.now.soc seed) }

    ensures too_long { RUN_MOST < cycles_by_wires placed.now.plan →
        result ≡ Outcome.RunTooLong (cycles_by_wires placed.now.plan) }
    ensures only { (cells : ℕ) → result ≡ Outcome.RunTooLong cells →
        RUN_MOST < cycles_by_wires placed.now.plan }
    ensures too_long_writes_nothing { (cells : ℕ) → result ≡ Outcome.RunTooLong cells →
        out.new ≡ out.old }
    ensures no_memory_writes_nothing { result ≡ Outcome.NoMemory → out.new ≡ out.old }

    // No put fails but the last one, and none is empty.
    ensures none_failed { result ≡ Outcome.Written → Puts K.is_put out.old false out.new }
    ensures last_failed { result ≡ Outcome.WriteFault → Puts K.is_put out.old true out.new }

    ensures fault { result ≡ Outcome.WriteFault → Rose (K.faults out.old) (K.faults out.new) }
    ensures front { result ≡ Outcome.WriteFault →
        AppendedFront (K.written out.old)
        (whole_text placed.now.soc placed.now.plan (made_content placed.now.soc seed))
        (K.written out.new) }
{
    if let Some(cells) = too_many_cells(placed.plan) {
        return Outcome::RunTooLong { cells };
    }
    made_contents_stand();
    match write_lines(alloc, placed, &MadeContents { seed }, out) {
        LinesOutcome::Written => Outcome::Written,
        LinesOutcome::WriteFault => Outcome::WriteFault,
        LinesOutcome::NoMemory => Outcome::NoMemory,
    }
}
