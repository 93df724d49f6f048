//! What a tester drives and compares in a plan that is accepted: `vectors`, with contents that are made from a seed, and the vectors with
//! those of test data.
ghost use Rattle.std.specs.Prelude.{◌≡◌, ◌≤◌, None};
ghost use Rattle.vector_lines.specs.Wires.{wires_of};
ghost use Rattle.vector_lines.specs.Made.{made_content};
ghost use Rattle.tester_vectors.specs.VectorText.{vector_text, too_many};
ghost use Rattle.commands.specs.Ends.{WritesUnless, MakesPuts};
ghost use Rattle.commands.specs.Endings.{Closes, LoadsEnding};
ghost use Rattle.commands.specs.Texts.{run_refusal};
ghost use Rattle.tester_commands.specs.Endings.{ending_value};
ghost use Rattle.tester_commands.specs.Procedures.{vectors_procedure};
ghost use Rattle.tester_commands.specs.RetargetText.{retarget_text};

use crate::contents::DataContents;
use crate::ending::Ending;
use commands::{Accepted, Status, load_all, refused_with, run_line, write_verdict};
use live_tests::PlacedPlan;
use outside::{Shelf, Sink};
use std::alloc::Global;
use test_data::TestData;
use tester_vectors::{LinesOutcome, Outcome, write_lines, write_made};

/// `vectors SOC LIMITS PLAN SEED`: what a tester drives and compares in a plan that is accepted, with contents that are made from a seed.
/// It is written as it is made.
pub fn decide_vectors<H: Shelf>(
    alloc: Global,
    soc: &str,
    limits: &str,
    plan: &str,
    seed: u64,
    shelf: &mut H,
) -> Ending
    ensures held_stays { H.held shelf.new ≡ H.held shelf.old }
    ensures faults_never_fall { H.faults shelf.old ≤ H.faults shelf.new }
    ensures closes { Closes (vectors_procedure soc.now limits.now plan.now seed)
        (H.held shelf.old) (H.faults shelf.old) (H.faults shelf.new) (ending_value result) }
    ensures by_loads { LoadsEnding H.is_load (vectors_procedure soc.now limits.now plan.now seed)
        shelf.old (ending_value result) shelf.new }
{
    match load_all(alloc, soc, limits, plan, shelf) {
        Ok(all) => Ending::Vectors { all, seed },
        Err(verdict) => Ending::Decided(verdict),
    }
}

/// Writes the vectors of a plan as they are made, or the refusal of a run that is too long. All memory is taken before the
/// first byte.
fn write_vectors<K: Sink>(alloc: Global, placed: &PlacedPlan<'_>, seed: u64, out: &mut K) -> Status
    requires { wires_of placed.now.plan ≤ 256 }
    ensures faults_never_fall { K.faults out.old ≤ K.faults out.new }
    ensures written { WritesUnless (run_refusal (too_many placed.now.plan))
        (vector_text placed.now.soc placed.now.plan (made_content placed.now.soc seed))
        (K.faults out.old) (K.faults out.new) (K.written out.old) result (K.written out.new) }
    ensures puts { MakesPuts K.is_put out.old result out.new }
{
    match write_made(alloc, placed, seed, out) {
        Outcome::Written => Status::Done,
        Outcome::RunTooLong { cells } => {
            let verdict = refused_with(run_line(alloc, cells));
            write_verdict(verdict, out)
        }
        Outcome::WriteFault => Status::WriteFault,
        Outcome::NoMemory => Status::NoMemory,
    }
}

/// Writes the vectors of a plan that is accepted.
pub(crate) fn write_accepted<K: Sink>(
    alloc: Global,
    all: &Accepted,
    seed: u64,
    out: &mut K,
) -> Status
    ensures faults_never_fall { K.faults out.old ≤ K.faults out.new }
    ensures written { WritesUnless (run_refusal (too_many all.now.plan))
        (vector_text all.now.soc all.now.plan (made_content all.now.soc seed)) (K.faults out.old)
        (K.faults out.new) (K.written out.old) result (K.written out.new) }
    ensures puts { MakesPuts K.is_put out.old result out.new }
{
    write_vectors(alloc, &all.placed_plan(), seed, out)
}

/// Writes the vectors of a plan with the contents of test data, as they are made. All memory is taken before the first byte.
pub(crate) fn write_data_vectors<K: Sink>(
    alloc: Global,
    placed: &PlacedPlan<'_>,
    test_data: &TestData,
    out: &mut K,
) -> Status
    requires { wires_of placed.now.plan ≤ 256 }
    ensures faults_never_fall { K.faults out.old ≤ K.faults out.new }
    ensures written { WritesUnless None (retarget_text placed.now.soc placed.now.plan test_data.now)
        (K.faults out.old) (K.faults out.new) (K.written out.old) result (K.written out.new) }
    ensures puts { MakesPuts K.is_put out.old result out.new }
{
    // opened, so that its chip is known to be sound
    let _ = &placed.soc;
    let contents = DataContents { test_data };
    match write_lines(alloc, placed, &contents, out) {
        LinesOutcome::Written => Status::Done,
        LinesOutcome::WriteFault => Status::WriteFault,
        LinesOutcome::NoMemory => Status::NoMemory,
    }
}
