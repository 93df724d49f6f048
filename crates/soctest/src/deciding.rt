//! Takes each command to the part of the program that answers it.
ghost use Rattle.std.specs.Prelude.{◌≡◌, ◌≤◌, None, IfSome, option_map};
ghost use Rattle.commands.specs.Commands.{IsInRange, command_value};
ghost use Rattle.commands.specs.Decides.{Decides};
ghost use Rattle.commands.specs.Endings.{Closes, LoadsEnding};
ghost use Rattle.commands.specs.Loads.{LoadsGive};
ghost use Rattle.tester_commands.specs.Endings.{ending_value};
ghost use Rattle.soctest.specs.Commands.{part_of as the_part_of, procedure_of, requested};
ghost use Rattle.soctest.specs.Reports.{IsQuiet, IsQuietOf, MayReport, MayReportOf};

use bound_commands::{decide_bound, decide_picture, decide_picture_with_proof, decide_tree};
use bound_prover::decide_prove;
use commands::{Command, Verdict, bad_words};
use outside::{Shelf, Sink};
use plan_commands::{
    decide_chart, decide_check, decide_locate, decide_plan, decide_print, decide_report,
    decide_sample, decide_shift, decide_split, decide_widths,
};
use plan_improver::{Drawing, decide_improve};
use std::alloc::Global;
use tester_commands::{
    Ending, RunForm, decide_data, decide_run, decide_simulate, decide_vectors, decided,
};

/// The parts of the program, each of which answers the commands of one subject.
#[derive(Clone, Copy, PartialEq, Eq, Debug)]
pub(crate) enum Part {
    /// Chips and plans.
    Plans,
    /// What a tester reads.
    Testers,
    /// Bounds that are shown, and pictures of them.
    Bounds,
    /// Searches that report their progress.
    Searches,
}

/// The part of the program that a command belongs to.
fn part_of(command: Command<'_>) -> Part
    ensures { result ≡ the_part_of (command_value command.entry) }
{
    match command {
        Command::Print { .. }
        | Command::Widths { .. }
        | Command::Plan { .. }
        | Command::Check { .. }
        | Command::Chart { .. }
        | Command::Sample { .. }
        | Command::Locate { .. }
        | Command::Split { .. }
        | Command::Shift { .. }
        | Command::Report { .. } => Part::Plans,
        Command::Vectors { .. }
        | Command::Simulate { .. }
        | Command::Data { .. }
        | Command::Retarget { .. }
        | Command::Stil { .. }
        | Command::Vcd { .. }
        | Command::Verilog { .. } => Part::Testers,
        Command::Tree { .. }
        | Command::Bound { .. }
        | Command::Picture { .. }
        | Command::PictureWithProof { .. } => Part::Bounds,
        Command::Improve { .. } | Command::Prove { .. } => Part::Searches,
    }
}

/// Decides how a command over chips and plans ends.
#[tactic(auto, unfolding(crate::specs::Commands::procedure_of))]
fn decide_plans<H: Shelf>(alloc: Global, command: Command<'_>, shelf: &mut H) -> Verdict
    requires part { the_part_of (command_value command) ≡ Part.Plans }
    requires range { IsInRange (command_value command) }
    ensures held_stays { H.held shelf.new ≡ H.held shelf.old }
    ensures faults_never_fall { H.faults shelf.old ≤ H.faults shelf.new }
    ensures decides { Decides (procedure_of (command_value command.entry)) (H.held shelf.old)
        (H.faults shelf.old) (H.faults shelf.new) result }
    ensures by_loads { LoadsGive H.is_load (procedure_of (command_value command.entry)) shelf.old
        result shelf.new }
{
    match command {
        Command::Print { soc } => decide_print(alloc, soc, shelf),
        Command::Widths { soc, wires } => decide_widths(alloc, soc, wires, shelf),
        Command::Plan { soc, limits } => decide_plan(alloc, soc, limits, shelf),
        Command::Check { soc, limits, plan } => decide_check(alloc, soc, limits, plan, shelf),
        Command::Chart { soc, limits, plan } => decide_chart(alloc, soc, limits, plan, shelf),
        Command::Report { soc, limits, plan } => decide_report(alloc, soc, limits, plan, shelf),
        Command::Sample { n, seed } => decide_sample(alloc, n, seed),
        Command::Locate {
            soc,
            limits,
            plan,
            log,
        } => decide_locate(alloc, soc, limits, plan, log, shelf),
        Command::Split { soc, limits, most } => decide_split(alloc, soc, limits, most, shelf),
        Command::Shift {
            soc,
            limits,
            plan,
            program,
        } => decide_shift(alloc, soc, limits, plan, program, shelf),
        _ => bad_words(alloc),
    }
}

/// Decides how a command for testers ends: its text may be written as it is made.
#[tactic(auto, unfolding(crate::specs::Commands::procedure_of))]
fn decide_testers<H: Shelf>(alloc: Global, command: Command<'_>, shelf: &mut H) -> Ending
    requires part { the_part_of (command_value command) ≡ Part.Testers }
    ensures held_stays { H.held shelf.new ≡ H.held shelf.old }
    ensures faults_never_fall { H.faults shelf.old ≤ H.faults shelf.new }
    ensures closes { Closes (procedure_of (command_value command.entry)) (H.held shelf.old)
        (H.faults shelf.old) (H.faults shelf.new) (ending_value result) }
    ensures by_loads { LoadsEnding H.is_load (procedure_of (command_value command.entry)) shelf.old
        (ending_value result) shelf.new }
{
    match command {
        Command::Vectors {
            soc,
            limits,
            plan,
            seed,
        } => decide_vectors(alloc, soc, limits, plan, seed, shelf),
        Command::Simulate {
            soc,
            limits,
            plan,
            seed,
        } => decided(decide_simulate(alloc, soc, limits, plan, seed, shelf)),
        Command::Data { soc, seed } => decide_data(alloc, soc, seed, shelf),
        Command::Retarget {
            soc,
            limits,
            plan,
            data,
        } => decide_run(alloc, RunForm::Vectors, soc, limits, plan, data, shelf),
        Command::Stil {
            soc,
            limits,
            plan,
            data,
        } => decide_run(alloc, RunForm::Stil, soc, limits, plan, data, shelf),
        Command::Vcd {
            soc,
            limits,
            plan,
            data,
        } => decide_run(alloc, RunForm::Vcd, soc, limits, plan, data, shelf),
        Command::Verilog {
            soc,
            limits,
            plan,
            data,
        } => decide_run(alloc, RunForm::Verilog, soc, limits, plan, data, shelf),
        _ => decided(bad_words(alloc)),
    }
}

/// Decides how a command that shows a bound ends.
#[tactic(auto, unfolding(crate::specs::Commands::procedure_of))]
fn decide_bounds<H: Shelf>(alloc: Global, command: Command<'_>, shelf: &mut H) -> Verdict
    requires part { the_part_of (command_value command) ≡ Part.Bounds }
    ensures held_stays { H.held shelf.new ≡ H.held shelf.old }
    ensures faults_never_fall { H.faults shelf.old ≤ H.faults shelf.new }
    ensures decides { Decides (procedure_of (command_value command.entry)) (H.held shelf.old)
        (H.faults shelf.old) (H.faults shelf.new) result }
    ensures by_loads { LoadsGive H.is_load (procedure_of (command_value command.entry)) shelf.old
        result shelf.new }
{
    match command {
        Command::Tree { soc, limits, tree } => decide_tree(alloc, soc, limits, tree, shelf),
        Command::Bound { soc, limits, proof } => decide_bound(alloc, soc, limits, proof, shelf),
        Command::Picture { soc, limits, plan } => decide_picture(alloc, soc, limits, plan, shelf),
        Command::PictureWithProof {
            soc,
            limits,
            plan,
            proof,
        } => decide_picture_with_proof(alloc, soc, limits, plan, proof, shelf),
        _ => bad_words(alloc),
    }
}

/// Decides how a command that searches ends. `progress` gets the lines that it reports.
#[tactic(auto, unfolding(crate::specs::Commands::procedure_of))]
fn decide_searches<H: Shelf, T: Sink>(
    alloc: Global,
    command: Command<'_>,
    shelf: &mut H,
    progress: &mut T,
) -> Verdict
    requires part { the_part_of (command_value command) ≡ Part.Searches }
    requires range { IsInRange (command_value command) }
    ensures held_stays { H.held shelf.new ≡ H.held shelf.old }
    ensures faults_never_fall { H.faults shelf.old ≤ H.faults shelf.new }
    ensures report_faults_never_fall { T.faults progress.old ≤ T.faults progress.new }
    ensures decides { Decides (procedure_of (command_value command.entry)) (H.held shelf.old)
        (H.faults shelf.old) (H.faults shelf.new) result }
    ensures by_loads { LoadsGive H.is_load (procedure_of (command_value command.entry)) shelf.old
        result shelf.new }
    ensures quiet { IsQuietOf (command_value command.entry) → progress.new ≡ progress.old }
    ensures reported { MayReportOf (command_value command.entry) (T.written progress.old)
        (T.written progress.new) }
{
    match command {
        Command::Improve {
            soc,
            limits,
            plan,
            tries,
            seed,
        } => {
            let by = Drawing { tries, seed };
            decide_improve(alloc, soc, limits, plan, by, shelf, progress)
        }
        Command::Prove {
            soc,
            limits,
            plan,
            nodes,
        } => decide_prove(alloc, soc, limits, plan, nodes, shelf, progress),
        _ => bad_words(alloc),
    }
}

/// Decides how a command ends before anything is written.
///
/// `progress` gets the lines that `improve` and `prove` report; all other commands leave it as it is.
fn decide_command<H: Shelf, T: Sink>(
    alloc: Global,
    command: Command<'_>,
    shelf: &mut H,
    progress: &mut T,
) -> Ending
    requires range { IsInRange (command_value command) }
    ensures held_stays { H.held shelf.new ≡ H.held shelf.old }
    ensures faults_never_fall { H.faults shelf.old ≤ H.faults shelf.new }
    ensures report_faults_never_fall { T.faults progress.old ≤ T.faults progress.new }
    ensures closes { Closes (procedure_of (command_value command.entry)) (H.held shelf.old)
        (H.faults shelf.old) (H.faults shelf.new) (ending_value result) }
    ensures by_loads { LoadsEnding H.is_load (procedure_of (command_value command.entry))
        shelf.old (ending_value result) shelf.new }
    ensures quiet { IsQuietOf (command_value command.entry) → progress.new ≡ progress.old }
    ensures reported { MayReportOf (command_value command.entry) (T.written progress.old)
        (T.written progress.new) }
{
    match part_of(command) {
        Part::Plans => decided(decide_plans(alloc, command, shelf)),
        Part::Testers => decide_testers(alloc, command, shelf),
        Part::Bounds => decided(decide_bounds(alloc, command, shelf)),
        Part::Searches => decided(decide_searches(alloc, command, shelf, progress)),
    }
}

/// Decides how a call ends before anything is written. Where there is no command, the words were bad, and the shelf is untouched.
#[tactic(auto, unfolding(crate::specs::Commands::requested, crate::specs::Reports::IsQuiet, crate::specs::Reports::MayReport))]
pub(crate) fn decide<H: Shelf, T: Sink>(
    alloc: Global,
    command: Option<Command<'_>>,
    shelf: &mut H,
    progress: &mut T,
) -> Ending
    requires range { IfSome (option_map command_value command) IsInRange }
    ensures held_stays { H.held shelf.new ≡ H.held shelf.old }
    ensures faults_never_fall { H.faults shelf.old ≤ H.faults shelf.new }
    ensures report_faults_never_fall { T.faults progress.old ≤ T.faults progress.new }
    ensures closes { Closes (requested (option_map command_value command.entry)) (H.held shelf.old)
        (H.faults shelf.old) (H.faults shelf.new) (ending_value result) }
    ensures by_loads { LoadsEnding H.is_load (requested (option_map command_value command.entry))
        shelf.old (ending_value result) shelf.new }
    ensures untouched { option_map command_value command.entry ≡ None → shelf.new ≡ shelf.old }
    ensures quiet { IsQuiet (option_map command_value command.entry) → progress.new ≡ progress.old }
    ensures reported { MayReport (option_map command_value command.entry) (T.written progress.old)
        (T.written progress.new) }
{
    match command {
        Some(command) => decide_command(alloc, command, shelf, progress),
        None => decided(bad_words(alloc)),
    }
}
