//! Writes a plan with test data in a form for testers, as it is made.
ghost use Rattle.std.specs.Prelude.{◌≡◌, ◌≤◌, None, length};
ghost use Rattle.vector_lines.specs.Wires.{wires_of};
ghost use Rattle.commands.specs.Ends.{WritesUnless, MakesPuts};
ghost use Rattle.controls.specs.Controls.{controls};
ghost use Rattle.cycle_texts.specs.declared.forms.TheConstants.{CYCLE_MOST};
ghost use Rattle.tester_commands.specs.RunTexts.{data_program, run_text, stil_program, vcd_program, verilog_program};

use crate::contents::DataContents;
use crate::ending::{DataRun, RunForm};
use crate::vectors::write_data_vectors;
use commands::Status;
use cycle_texts::{CycleForm, write_program};
use live_tests::PlacedPlan;
use outside::Sink;
use std::alloc::Global;
use test_data::TestData;
use tester_forms::{StilForm, VcdForm, VerilogForm};
use tester_vectors::LinesOutcome;

/// Writes a plan with the contents of test data in a form, as it is made. All memory is taken before the first byte.
fn write_in_form<F: CycleForm, K: Sink>(
    alloc: Global,
    placed: &PlacedPlan<'_>,
    test_data: &TestData,
    form: &F,
    out: &mut K,
) -> Status
    requires narrow { wires_of placed.now.plan ≤ 256 }
    requires cycles { placed.now.plan.cycles ≤ CYCLE_MOST }
    requires wires { F.wires_of form.now ≡ wires_of placed.now.plan }
    requires controls { F.controls_of form.now ≡ length (controls placed.now.soc) }
    ensures faults_never_fall { K.faults out.old ≤ K.faults out.new }
    ensures written { WritesUnless None
        (data_program (F.head_of form.now) (F.part_of form.now) (F.tail_of form.now) placed.now.soc
        placed.now.plan test_data.now) (K.faults out.old) (K.faults out.new)
        (K.written out.old) result (K.written out.new) }
    ensures puts { MakesPuts K.is_put out.old result out.new }
{
    // opened, so that its chip is known to be sound
    let _ = &placed.soc;
    let contents = DataContents { test_data };
    match write_program(alloc, placed, &contents, form, out) {
        LinesOutcome::Written => Status::Done,
        LinesOutcome::WriteFault => Status::WriteFault,
        LinesOutcome::NoMemory => Status::NoMemory,
    }
}

/// Writes a plan with the contents of test data in STIL.
fn write_stil<K: Sink>(
    alloc: Global,
    placed: &PlacedPlan<'_>,
    test_data: &TestData,
    out: &mut K,
) -> Status
    requires narrow { wires_of placed.now.plan ≤ 256 }
    requires cycles { placed.now.plan.cycles ≤ CYCLE_MOST }
    ensures faults_never_fall { K.faults out.old ≤ K.faults out.new }
    ensures written { WritesUnless None
        (stil_program placed.now.soc placed.now.plan test_data.now)
        (K.faults out.old) (K.faults out.new) (K.written out.old) result (K.written out.new) }
    ensures puts { MakesPuts K.is_put out.old result out.new }
{
    match StilForm::new(alloc, placed.soc, placed.plan) {
        Ok(form) => write_in_form(alloc, placed, test_data, &form, out),
        Err(_) => Status::NoMemory,
    }
}

/// Writes a plan with the contents of test data as a value change dump.
fn write_vcd<K: Sink>(
    alloc: Global,
    placed: &PlacedPlan<'_>,
    test_data: &TestData,
    out: &mut K,
) -> Status
    requires narrow { wires_of placed.now.plan ≤ 256 }
    requires cycles { placed.now.plan.cycles ≤ CYCLE_MOST }
    ensures faults_never_fall { K.faults out.old ≤ K.faults out.new }
    ensures written { WritesUnless None
        (vcd_program placed.now.soc placed.now.plan test_data.now)
        (K.faults out.old) (K.faults out.new) (K.written out.old) result (K.written out.new) }
    ensures puts { MakesPuts K.is_put out.old result out.new }
{
    match VcdForm::new(alloc, placed.soc, placed.plan) {
        Ok(form) => write_in_form(alloc, placed, test_data, &form, out),
        Err(_) => Status::NoMemory,
    }
}

/// Writes a plan with the contents of test data as a test bench in Verilog.
fn write_verilog<K: Sink>(
    alloc: Global,
    placed: &PlacedPlan<'_>,
    test_data: &TestData,
    out: &mut K,
) -> Status
    requires narrow { wires_of placed.now.plan ≤ 256 }
    requires cycles { placed.now.plan.cycles ≤ CYCLE_MOST }
    ensures faults_never_fall { K.faults out.old ≤ K.faults out.new }
    ensures written { WritesUnless None
        (verilog_program placed.now.soc placed.now.plan test_data.now)
        (K.faults out.old) (K.faults out.new) (K.written out.old) result (K.written out.new) }
    ensures puts { MakesPuts K.is_put out.old result out.new }
{
    match VerilogForm::new(alloc, placed.soc, placed.plan) {
        Ok(form) => write_in_form(alloc, placed, test_data, &form, out),
        Err(_) => Status::NoMemory,
    }
}

/// Writes a plan with the contents of test data in a form for testers.
fn write_run<K: Sink>(
    alloc: Global,
    form: RunForm,
    placed: &PlacedPlan<'_>,
    test_data: &TestData,
    out: &mut K,
) -> Status
    requires narrow { wires_of placed.now.plan ≤ 256 }
    requires cycles { placed.now.plan.cycles ≤ CYCLE_MOST }
    ensures faults_never_fall { K.faults out.old ≤ K.faults out.new }
    ensures written { WritesUnless None
        (run_text form placed.now.soc placed.now.plan test_data.now) (K.faults out.old)
        (K.faults out.new) (K.written out.old) result (K.written out.new) }
    ensures puts { MakesPuts K.is_put out.old result out.new }
{
    match form {
        RunForm::Vectors => write_data_vectors(alloc, placed, test_data, out),
        RunForm::Stil => write_stil(alloc, placed, test_data, out),
        RunForm::Vcd => write_vcd(alloc, placed, test_data, out),
        RunForm::Verilog => write_verilog(alloc, placed, test_data, out),
    }
}

/// Writes a plan that is accepted, with its test data, in a form for testers.
pub(crate) fn write_data_run<K: Sink>(
    alloc: Global,
    form: RunForm,
    run: &DataRun,
    out: &mut K,
) -> Status
    ensures faults_never_fall { K.faults out.old ≤ K.faults out.new }
    ensures written { WritesUnless None
        (run_text form run.now.all.soc run.now.all.plan run.now.entries) (K.faults out.old)
        (K.faults out.new) (K.written out.old) result (K.written out.new) }
    ensures puts { MakesPuts K.is_put out.old result out.new }
{
    write_run(alloc, form, &run.all.placed_plan(), &run.test_data, out)
}
