//! What is answered of a fail log: which cells its fails name in a plan that is accepted.
ghost use Rattle.std.specs.Prelude.{◌≡◌, ◌≤◌, IfOk, IsTrue};
ghost use Rattle.fail_locate.specs.LogAnswers.{SaysLog};
ghost use Rattle.commands.specs.Decides.{AnswersBytes, Follows};
ghost use Rattle.commands.specs.Loads.{LoadsGive};
ghost use Rattle.commands.specs.Procedures.{done_with};
ghost use Rattle.commands.specs.Texts.{is_line};
ghost use Rattle.plan_commands.specs.LocateText.{locate_text as text_of_fails};
ghost use Rattle.plan_commands.specs.LogReadings.{RefusesFails, with_log};
ghost use Rattle.plan_commands.specs.Procedures.{locate_procedure};
ghost use Rattle.plan_commands.specs.Texts.{log_line as log_line_text};

use crate::fails::locate_text;
use commands::{
    Accepted, FileKind, Status, Verdict, answered_with, load_all, load_file, number_line,
    refused_with,
};
use fail_locate::{LogFault, read_log};
use outside::{NoMemory, Shelf};
use std::alloc::Global;

/// `refused log line` and the line.
fn log_line(alloc: Global, line: u64) -> Result<Vec<u8>, NoMemory>
    ensures text { IfOk result (λ text. text.items ≡ log_line_text line) }
    ensures line { IfOk result (λ text. IsTrue (is_line text.items)) }
{
    number_line(alloc, b"refused log line ", u128::from(line))
}

/// What the fails of a log name in a plan that is accepted.
fn located(alloc: Global, all: &Accepted, fails: &[(u64, u64)]) -> Result<Vec<u8>, NoMemory>
    ensures { IfOk result (λ text. text.items ≡ text_of_fails all.now.soc all.now.plan fails.now) }
{
    locate_text(alloc, &all.placed_plan(), fails)
}

/// What is answered of a log's bytes, for a plan that is accepted.
fn answer_log(alloc: Global, all: &Accepted, bytes: &[u8]) -> Verdict
    ensures { AnswersBytes SaysLog RefusesFails (text_of_fails all.now.soc all.now.plan) bytes.now
        result }
{
    match read_log(alloc, bytes) {
        Ok(fails) => answered_with(Status::Done, located(alloc, all, fails.as_slice())),
        Err(LogFault::Text { line }) => refused_with(log_line(alloc, line)),
        Err(LogFault::NoMemory) => Verdict::NoMemory,
    }
}

/// Loads the log of this name and answers its bytes, else how the command ends without them.
fn answer_log_file<H: Shelf>(alloc: Global, all: &Accepted, name: &str, shelf: &mut H) -> Verdict
    ensures held_stays { H.held shelf.new ≡ H.held shelf.old }
    ensures faults_never_fall { H.faults shelf.old ≤ H.faults shelf.new }
    ensures follows { Follows
        (with_log name.now (λ fails. done_with (text_of_fails all.now.soc all.now.plan fails)))
        (H.held shelf.old) (H.faults shelf.old) (H.faults shelf.new) result }
    ensures by_loads { LoadsGive H.is_load
        (with_log name.now (λ fails. done_with (text_of_fails all.now.soc all.now.plan fails)))
        shelf.old result shelf.new }
{
    match load_file(alloc, FileKind::Log, name, shelf) {
        Ok(bytes) => answer_log(alloc, all, bytes.as_slice()),
        Err(verdict) => verdict,
    }
}

/// `locate SOC LIMITS PLAN LOG`: which cells the fails of a log name in a plan that is accepted.
pub fn decide_locate<H: Shelf>(
    alloc: Global,
    soc: &str,
    limits: &str,
    plan: &str,
    log: &str,
    shelf: &mut H,
) -> Verdict
    ensures held_stays { H.held shelf.new ≡ H.held shelf.old }
    ensures faults_never_fall { H.faults shelf.old ≤ H.faults shelf.new }
    ensures follows { Follows (locate_procedure soc.now limits.now plan.now log.now)
        (H.held shelf.old) (H.faults shelf.old) (H.faults shelf.new) result }
    ensures by_loads { LoadsGive H.is_load
        (locate_procedure soc.now limits.now plan.now log.now) shelf.old result shelf.new }
{
    match load_all(alloc, soc, limits, plan, shelf) {
        Ok(all) => {
            let verdict = answer_log_file(alloc, &all, log, shelf);
            // dropped by a call, as the room of a checker is
            all.free();
            verdict
        }
        Err(verdict) => verdict,
    }
}
