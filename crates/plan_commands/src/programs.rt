//! What is answered of a program of shifts: whether it is right for its test in a plan that is accepted.
ghost use Rattle.std.specs.Prelude.{◌≡◌, ◌^◌, ◌≤◌, None, Some, IfOk, IfSome, IfNone, IsTrue, map, slice_get, true};
ghost use Rattle.std.specs.List.{All};
ghost use Rattle.soc_model.specs.declared.Test.{Test};
ghost use Rattle.soc_model.specs.Chips.{ModuleValue, module_value, soc_value};
ghost use Rattle.soc_model.specs.Modes.{is_tam};
ghost use Rattle.soc_model.specs.Sizes.{test_work};
ghost use Rattle.soc_model.specs.SoundChips.{IsSoundChip};
ghost use Rattle.plan_model.specs.Cells.{IsProper};
ghost use Rattle.plan_model.specs.Listing.{module_size};
ghost use Rattle.plan_model.specs.Rules.{IsGood, IsWrapped};
ghost use Rattle.plan_model.specs.Views.{chain_value, limits_value, plan_value, wrapper_value};
ghost use Rattle.shift_program.specs.Programs.{IsLasting, program_value, wrapped_test};
ghost use Rattle.shift_program.specs.Faults.{place_of};
ghost use Rattle.commands.specs.Decides.{AnswersBytes, Follows};
ghost use Rattle.commands.specs.Loads.{LoadsGive};
ghost use Rattle.commands.specs.Procedures.{done_with};
ghost use Rattle.commands.specs.Texts.{is_line, no_feed};
ghost use Rattle.plan_commands.specs.Procedures.{shift_procedure};
ghost use Rattle.plan_commands.specs.ShiftPrograms.{named_test, planned_for, fault_word as word_of_fault, accepted_with, accepted_program as text_of_program, program_line as program_line_text, program_test_line as program_test_text, program_fault_line as program_fault_text, Judges, RefusesProgram, SaysRight, with_program};

use commands::{
    Accepted, FileKind, Status, Verdict, answered_with, load_all, load_file, number_line,
    push_decimal, push_test, push_text, push_two, refused_with,
};
use outside::{NoMemory, Shelf};
use plan_model::{Limits, Plan, Wrapper, test_cycles, wrapper_of};
use shift_program::{
    Program, ProgramFault, ProgramRoom, ProgramTextFault, check_program, read_program,
};
use soc_model::{Module, Soc, Test, TestId, find_test, module_at, over_wires};
use std::alloc::Global;

/// `refused program line` and the line.
fn program_line(alloc: Global, line: u64) -> Result<Vec<u8>, NoMemory>
    ensures text { IfOk result (λ text. text.items ≡ program_line_text line) }
    ensures line { IfOk result (λ text. IsTrue (is_line text.items)) }
{
    number_line(alloc, b"refused program line ", u128::from(line))
}

/// `refused program test` and the test.
fn program_test_line(alloc: Global, test: &TestId) -> Result<Vec<u8>, NoMemory>
    ensures text { IfOk result (λ text. text.items ≡ program_test_text test.now) }
    ensures line { IfOk result (λ text. IsTrue (is_line text.items)) }
{
    let mut text = Vec::new(alloc);
    push_text(&mut text, b"refused program test ")?;
    push_test(&mut text, test)?;
    push_text(&mut text, b"\n")?;
    Ok(text)
}

/// The place that a fault carries.
fn fault_place(fault: ProgramFault) -> usize
    ensures { result ≡ place_of fault }
{
    match fault {
        ProgramFault::Setup { place }
        | ProgramFault::Pattern { place }
        | ProgramFault::Load { place }
        | ProgramFault::Unload { place }
        | ProgramFault::Missing { place } => place,
    }
}

/// The kind of a fault, with a space before it.
fn fault_word(fault: ProgramFault) -> &'static [u8]
    ensures text { result.now ≡ word_of_fault fault }
    ensures plain { IsTrue (no_feed result.now) }
{
    match fault {
        ProgramFault::Setup { .. } => b" setup",
        ProgramFault::Pattern { .. } => b" pattern",
        ProgramFault::Load { .. } => b" load",
        ProgramFault::Unload { .. } => b" unload",
        ProgramFault::Missing { .. } => b" missing",
    }
}

/// `refused program entry`, the place and the kind of a fault.
fn program_fault_line(alloc: Global, fault: ProgramFault) -> Result<Vec<u8>, NoMemory>
    ensures text { IfOk result (λ text. text.items ≡ program_fault_text fault) }
    ensures line { IfOk result (λ text. IsTrue (is_line text.items)) }
{
    let mut text = Vec::new(alloc);
    push_text(&mut text, b"refused program entry ")?;
    push_decimal(&mut text, fault_place(fault) as u128)?;
    push_text(&mut text, fault_word(fault))?;
    push_text(&mut text, b"\n")?;
    Ok(text)
}

/// `accepted`, the operations of a program and the cycles of its test.
fn accepted_program(alloc: Global, done: u128, cycles: u64) -> Result<Vec<u8>, NoMemory>
    ensures { IfOk result (λ text. text.items ≡ accepted_with done cycles) }
{
    let mut text = Vec::new(alloc);
    push_text(&mut text, b"accepted ")?;
    push_two(&mut text, done, u128::from(cycles))?;
    push_text(&mut text, b"\n")?;
    Ok(text)
}

/// The places of the module and of the live test over the wires of this name, where the chip has one.
fn tam_test(soc: &Soc, id: TestId) -> Option<(usize, usize)>
    requires { IsSoundChip (soc_value soc.now) }
    ensures found { IfSome result (λ at. (m : ModuleValue) × (t : Test)
        × (slice_get (soc_value soc.now).modules at.0 ≡ Some m) × (slice_get m.tests at.1 ≡ Some t)
        × (is_tam t ≡ true) × (named_test (soc_value soc.now) id ≡ Some (m, t))) }
    ensures none { IfNone result (named_test (soc_value soc.now) id ≡ None) }
{
    let (place, at) = find_test(soc, id)?;
    let module = module_at(soc, place);
    if over_wires(&module.tests[at]) {
        return Some((place, at));
    }
    None
}

/// The wrapper that a plan has for a test.
fn wrapper_for<'a>(plan: &'a Plan, module: &Module, test: &Test) -> &'a Wrapper
    requires { IsWrapped (module_value «module».now) test.now
        (map wrapper_value plan.now.wrappers.items) }
    ensures proper { IsProper (module_value «module».now) result.now.scan
        (map chain_value result.now.chains.items) }
    ensures same { wrapped_test (module_value «module».now) test.now (wrapper_value result.now)
        ≡ planned_for (plan_value plan.now) (module_value «module».now) test.now }
{
    match wrapper_of(&plan.wrappers, module.number, test.scan) {
        Some(place) => &plan.wrappers[place],
        None => unreachable!(),
    }
}

/// Whether a program is right for a test in the wrapper of a plan, as it is answered.
fn judge_program(
    alloc: Global,
    plan: &Plan,
    module: &Module,
    test: &Test,
    program: &Program,
) -> Verdict
    requires wrapped { IsWrapped (module_value «module».now) test.now
        (map wrapper_value plan.now.wrappers.items) }
    requires small { module_size (module_value «module».now) ≤ 10 ^ 18 }
    requires work { test_work (module_value «module».now) test.now ≤ 10 ^ 18 }
    requires tam { is_tam test.now ≡ true }
    requires lasting { All IsLasting program.now.entries.items }
    ensures { Judges (plan_value plan.now) (program_value program.now)
        (Some (module_value «module».now, test.now)) result }
{
    let Ok(mut room) = ProgramRoom::new(alloc, program) else {
        return Verdict::NoMemory;
    };
    let wrapper = wrapper_for(plan, module, test);
    let cycles = test_cycles(&plan.wrappers, module, test);
    let judged = check_program(module, wrapper, test, program, &mut room);
    // dropped by a call, as the room of a checker is
    drop(room);
    match judged {
        Ok(done) => answered_with(Status::Done, accepted_program(alloc, done, cycles)),
        Err(fault) => refused_with(program_fault_line(alloc, fault)),
    }
}

/// What is answered of a program that was read.
fn judge_named(alloc: Global, soc: &Soc, limits: &Limits, plan: &Plan, program: &Program) -> Verdict
    requires chip { IsSoundChip (soc_value soc.now) }
    requires good { IsGood (soc_value soc.now) (limits_value limits.now) (plan_value plan.now) }
    requires lasting { All IsLasting program.now.entries.items }
    ensures { Judges (plan_value plan.now) (program_value program.now)
        (named_test (soc_value soc.now) program.now.test) result }
{
    match tam_test(soc, program.test) {
        Some((place, at)) => {
            let module = module_at(soc, place);
            judge_program(alloc, plan, module, &module.tests[at], program)
        }
        None => refused_with(program_test_line(alloc, &program.test)),
    }
}

/// What is answered of a program's bytes, for a plan that is good.
fn answer_program(alloc: Global, soc: &Soc, limits: &Limits, plan: &Plan, bytes: &[u8]) -> Verdict
    requires chip { IsSoundChip (soc_value soc.now) }
    requires good { IsGood (soc_value soc.now) (limits_value limits.now) (plan_value plan.now) }
    ensures { AnswersBytes (SaysRight (soc_value soc.now) (plan_value plan.now))
        (RefusesProgram (soc_value soc.now) (plan_value plan.now))
        (text_of_program (soc_value soc.now) (plan_value plan.now)) bytes.now result }
{
    match read_program(alloc, bytes) {
        Ok(program) => judge_named(alloc, soc, limits, plan, &program),
        Err(ProgramTextFault::Text { line }) => refused_with(program_line(alloc, line)),
        Err(ProgramTextFault::NoMemory) => Verdict::NoMemory,
    }
}

/// What is answered of a program's bytes, for a plan that is accepted.
fn answer_accepted(alloc: Global, all: &Accepted, bytes: &[u8]) -> Verdict
    ensures { AnswersBytes (SaysRight all.now.soc all.now.plan)
        (RefusesProgram all.now.soc all.now.plan) (text_of_program all.now.soc all.now.plan)
        bytes.now result }
{
    answer_program(alloc, &all.soc, &all.limits, &all.plan, bytes)
}

/// Loads the program of this name and answers its bytes, else how the command ends without them.
fn answer_program_file<H: Shelf>(
    alloc: Global,
    all: &Accepted,
    name: &str,
    shelf: &mut H,
) -> Verdict
    ensures held_stays { H.held shelf.new ≡ H.held shelf.old }
    ensures faults_never_fall { H.faults shelf.old ≤ H.faults shelf.new }
    ensures follows { Follows (with_program all.now.soc all.now.plan name.now
        (λ shifts. done_with (text_of_program all.now.soc all.now.plan shifts)))
        (H.held shelf.old) (H.faults shelf.old) (H.faults shelf.new) result }
    ensures by_loads { LoadsGive H.is_load (with_program all.now.soc all.now.plan name.now
        (λ shifts. done_with (text_of_program all.now.soc all.now.plan shifts)))
        shelf.old result shelf.new }
{
    match load_file(alloc, FileKind::Program, name, shelf) {
        Ok(bytes) => answer_accepted(alloc, all, bytes.as_slice()),
        Err(verdict) => verdict,
    }
}

/// `shift SOC LIMITS PLAN PROGRAM`: whether a program is right for its test in a plan that is accepted.
pub fn decide_shift<H: Shelf>(
    alloc: Global,
    soc: &str,
    limits: &str,
    plan: &str,
    program: &str,
    shelf: &mut H,
) -> Verdict
    ensures held_stays { H.held shelf.new ≡ H.held shelf.old }
    ensures faults_never_fall { H.faults shelf.old ≤ H.faults shelf.new }
    ensures follows { Follows (shift_procedure soc.now limits.now plan.now program.now)
        (H.held shelf.old) (H.faults shelf.old) (H.faults shelf.new) result }
    ensures by_loads { LoadsGive H.is_load
        (shift_procedure soc.now limits.now plan.now program.now) shelf.old result shelf.new }
{
    match load_all(alloc, soc, limits, plan, shelf) {
        Ok(all) => {
            let verdict = answer_program_file(alloc, &all, program, shelf);
            // dropped by a call, as the room of a checker is
            all.free();
            verdict
        }
        Err(verdict) => verdict,
    }
}
