//! Loads and reads the files of a command, each only where the ones before it are taken.
ghost use Rattle.std.specs.Prelude.{◌≡◌, ◌≤◌, IfOk, sum};
ghost use Rattle.soc_model.specs.Chips.{soc_value};
ghost use Rattle.soc_model.specs.SoundChips.{IsSoundChip};
ghost use Rattle.plan_model.specs.declared.TheConstants.{WIRES_MOST};
ghost use Rattle.plan_model.specs.Faults.{IsFaultless};
ghost use Rattle.plan_model.specs.Plans.{widths};
ghost use Rattle.plan_model.specs.Rules.{IsGood};
ghost use Rattle.plan_model.specs.Views.{limits_value, plan_value};
ghost use Rattle.plan_model.specs.SoundLimits.{IsSoundLimits};
ghost use Rattle.live_tests.specs.Placed.{IsPlaced};
ghost use Rattle.live_tests.specs.Resolved.{IsResolved};
ghost use Rattle.plan_text.specs.Grammar.{AreSmallStarts};
ghost use Rattle.commands.specs.declared.Status.TheVariants.{Refused, BadWords};
ghost use Rattle.commands.specs.Texts.{bad_words_line};
ghost use Rattle.commands.specs.Readings.{most_of as most_bytes};
ghost use Rattle.commands.specs.Decides.{Gives, GivesText, LoadsBytes, LoadsChip, LoadsLimits, LoadsAccepted, LoadsBoth, LoadsAll, RefusesSoc, RefusesBounds, RefusesValue, AnswersCheck};
ghost use Rattle.commands.specs.Loads.{LoadsFile, LoadsSoc, LoadsBounds, LoadsPlan, LoadsTwo, LoadsThree};

use crate::lines::{
    chip_limit_line, chip_line, fault_line, limits_line, loop_line, plan_line, test_power_line,
    too_long_line, unknown_test_line,
};
use crate::{DATA_FILE_MOST, FILE_MOST, FileKind, PLAN_FILE_MOST, Status, Verdict};
use limits_text::{Bounds, LimFault, read_bounds};
use live_tests::{Placed, PlacedPlan, Problem, Resolved};
use outside::{Loaded, NoMemory, Shelf};
use plan_checker::judge_plan;
use plan_model::{Limits, Plan};
use plan_text::{PlanTextFault, read_plan};
use soc_model::{Soc, SocLimit};
use soc_reader::{SocFault, read_soc};
use std::alloc::Global;
use std::marker::Model;

/// A chip and limits for it, resolved by place. Both are sound.
#[derive(Drop)]
pub struct Both {
    pub soc: Soc,
    pub limits: Limits,
    pub resolved: Resolved,
}

impl Model for Both {
    ghost use Rattle.soc_model.specs.Chips.{soc_value};
    ghost use Rattle.plan_model.specs.Views.{limits_value};
    ghost use Rattle.live_tests.specs.Problems.{IsProblem, ProblemValue};

    ghost Value = { ProblemValue };

    ghost view = { λ b. record { soc = soc_value b.soc; limits = limits_value b.limits } };

    ghost invariant = { λ b. IsProblem b.soc b.limits b.resolved };
}

impl Both {
    /// What is asked: the chip and its limits, lent.
    pub fn problem(&self) -> Problem<'_>
        ensures { result ≡ self.now }
    {
        Problem::new(&self.soc, &self.limits, &self.resolved)
    }

    /// Frees what was read. (A caller that frees it otherwise is proved for each of its parts anew.)
    pub fn free(self) {
        drop(self);
    }
}

/// A chip, limits for it, and a plan that is accepted for both, placed.
#[derive(Drop)]
pub struct Accepted {
    pub soc: Soc,
    pub limits: Limits,
    pub resolved: Resolved,
    pub plan: Plan,
    pub placed: Placed,
}

impl Model for Accepted {
    ghost use Rattle.soc_model.specs.Chips.{soc_value};
    ghost use Rattle.plan_model.specs.Views.{limits_value, plan_value};
    ghost use Rattle.commands.specs.AcceptedPlans.{AcceptedValue, IsAccepted};

    ghost Value = { AcceptedValue };

    ghost view = { λ a. record
        { soc = soc_value a.soc; limits = limits_value a.limits; plan = plan_value a.plan } };

    ghost invariant = { λ a. IsAccepted a.soc a.limits a.resolved a.plan a.placed };
}

impl Accepted {
    /// What the plan was made for: the chip and its limits, lent.
    pub fn problem(&self) -> Problem<'_>
        ensures chip { result.soc ≡ self.now.soc }
        ensures limits { result.limits ≡ self.now.limits }
    {
        Problem::new(&self.soc, &self.limits, &self.resolved)
    }

    /// The plan, placed, with its chip, lent. It keeps the limits, which are sound, and has no more wires than limits may have.
    pub fn placed_plan(&self) -> PlacedPlan<'_>
        ensures chip { result.soc ≡ self.now.soc }
        ensures plan { result.plan ≡ self.now.plan }
        ensures bounds { IsSoundLimits result.soc self.now.limits }
        ensures good { IsGood result.soc self.now.limits result.plan }
        ensures narrow { sum (widths result.plan) ≤ WIRES_MOST }
    {
        PlacedPlan::new(&self.soc, &self.plan, &self.resolved.tests, &self.placed)
    }

    /// Frees what was read, as [`Both::free`].
    pub fn free(self) {
        drop(self);
    }
}

/// The answer of a line, where there is memory for it.
fn answered(alloc: Global, status: Status, line: &[u8]) -> Verdict
    ensures { Gives status line.now result }
{
    match Vec::from_slice(alloc, line) {
        Ok(text) => Verdict::Answered { status, text },
        Err(_) => Verdict::NoMemory,
    }
}

/// The answer of a text, where there was memory for it.
pub fn answered_with(status: Status, text: Result<Vec<u8>, NoMemory>) -> Verdict
    ensures { GivesText status text result }
{
    match text {
        Ok(text) => Verdict::Answered { status, text },
        Err(NoMemory) => Verdict::NoMemory,
    }
}

/// The answer to words that are no command.
pub fn bad_words(alloc: Global) -> Verdict
    ensures { Gives BadWords bad_words_line result }
{
    answered(alloc, Status::BadWords, b"bad words\n")
}

/// The refusal with this line, where there was memory for it.
pub fn refused_with(line: Result<Vec<u8>, NoMemory>) -> Verdict
    ensures { GivesText Refused line result }
{
    answered_with(Status::Refused, line)
}

/// The answer to a chip's text that isn't taken.
fn refused_chip(alloc: Global, fault: SocFault) -> Verdict
    ensures { RefusesSoc fault result }
{
    match fault {
        SocFault::Text { line } => refused_with(chip_line(alloc, line)),
        SocFault::Limit { which, value } => {
            let limit = SocLimit { which, value };
            refused_with(chip_limit_line(alloc, &limit))
        }
        SocFault::NoMemory => Verdict::NoMemory,
    }
}

/// The greatest length of a file of this kind, in bytes.
fn most_of(file: FileKind) -> u64
    ensures { result ≡ most_bytes file }
{
    match file {
        FileKind::Soc
        | FileKind::Limits
        | FileKind::Log
        | FileKind::Tree
        | FileKind::Program
        | FileKind::Proof => FILE_MOST,
        FileKind::Plan => PLAN_FILE_MOST,
        FileKind::Data => DATA_FILE_MOST,
    }
}

/// Loads the bytes of a file, else how the command ends: the file is too long, it can't be read, or there is no memory.
pub fn load_file<H: Shelf>(
    alloc: Global,
    file: FileKind,
    name: &str,
    shelf: &mut H,
) -> Result<Vec<u8>, Verdict>
    ensures held_stays { H.held shelf.new ≡ H.held shelf.old }
    ensures faults_never_fall { H.faults shelf.old ≤ H.faults shelf.new }
    ensures loads { LoadsBytes file name.now (H.held shelf.old) (H.faults shelf.old)
        (H.faults shelf.new) result }
    ensures by_loads { LoadsFile H.is_load file name.now shelf.old result shelf.new }
{
    let mut bytes = Vec::new(alloc);
    match shelf.load(name, most_of(file), &mut bytes) {
        Loaded::Whole => Ok(bytes),
        Loaded::TooLong => Err(answered(alloc, Status::TooLong, too_long_line(file))),
        Loaded::Failed => Err(Verdict::CannotRead { file }),
        Loaded::NoMemory => Err(Verdict::NoMemory),
    }
}

/// Loads and reads a chip, else how the command ends.
pub fn load_chip<H: Shelf>(alloc: Global, name: &str, shelf: &mut H) -> Result<Soc, Verdict>
    ensures held_stays { H.held shelf.new ≡ H.held shelf.old }
    ensures faults_never_fall { H.faults shelf.old ≤ H.faults shelf.new }
    ensures sound { IfOk result (λ soc. IsSoundChip (soc_value soc)) }
    ensures loads { LoadsChip name.now (H.held shelf.old) (H.faults shelf.old) (H.faults shelf.new)
        result }
    ensures by_loads { LoadsSoc H.is_load name.now shelf.old result shelf.new }
{
    let bytes = load_file(alloc, FileKind::Soc, name, shelf)?;
    match read_soc(alloc, bytes.as_slice()) {
        Ok(soc) => Ok(soc),
        Err(fault) => Err(refused_chip(alloc, fault)),
    }
}

/// The answer to a text of limits that isn't taken.
fn refused_limits(alloc: Global, fault: LimFault) -> Verdict
    ensures { RefusesBounds fault result }
{
    match fault {
        LimFault::Text { line } => refused_with(limits_line(alloc, line)),
        LimFault::UnknownTest { line } => refused_with(unknown_test_line(alloc, line)),
        LimFault::Cycle { tests } => refused_with(loop_line(alloc, tests.as_slice())),
        LimFault::TestPower { test, power } => refused_with(test_power_line(alloc, &test, power)),
        LimFault::NoMemory => Verdict::NoMemory,
    }
}

/// Loads and reads limits for a chip, else how the command ends.
fn load_limits<H: Shelf>(
    alloc: Global,
    soc: &Soc,
    name: &str,
    shelf: &mut H,
) -> Result<Bounds, Verdict>
    ensures held_stays { H.held shelf.new ≡ H.held shelf.old }
    ensures faults_never_fall { H.faults shelf.old ≤ H.faults shelf.new }
    ensures sound { IfOk result
        (λ bounds. IsSoundLimits (soc_value soc.now) (limits_value bounds.limits)) }
    ensures resolved { IfOk result
        (λ bounds. IsResolved (soc_value soc.now) bounds.limits bounds.resolved) }
    ensures loads { LoadsLimits (soc_value soc.now) name.now (H.held shelf.old) (H.faults shelf.old)
        (H.faults shelf.new) result }
    ensures by_loads { LoadsBounds H.is_load (soc_value soc.now)
        name.now shelf.old result shelf.new }
{
    let bytes = load_file(alloc, FileKind::Limits, name, shelf)?;
    match read_bounds(alloc, bytes.as_slice(), soc) {
        Ok(bounds) => Ok(bounds),
        Err(fault) => Err(refused_limits(alloc, fault)),
    }
}

/// The answer to a plan's text that isn't taken.
fn refused_plan(alloc: Global, fault: PlanTextFault) -> Verdict
    ensures { RefusesValue fault result }
{
    match fault {
        PlanTextFault::Text { line } => refused_with(plan_line(alloc, line)),
        PlanTextFault::NoMemory => Verdict::NoMemory,
    }
}

/// A plan, and what it says of its chip by place.
#[derive(Drop)]
pub(crate) struct PlanPlaces {
    pub(crate) plan: Plan,
    pub(crate) placed: Placed,
}

/// The plan, placed, where it is good and its certificate accepted, else the answer to its fault.
fn checked(alloc: Global, problem: &Problem<'_>, plan: Plan) -> Result<PlanPlaces, Verdict>
    requires { AreSmallStarts (plan_value plan).starts }
    ensures { AnswersCheck problem.now.soc problem.now.limits (plan_value plan) result }
{
    match judge_plan(alloc, problem, &plan) {
        Ok(Ok(placed)) => Ok(PlanPlaces { plan, placed }),
        Ok(Err(fault)) => Err(refused_with(fault_line(alloc, &fault))),
        Err(_) => Err(Verdict::NoMemory),
    }
}

/// The plan, placed, where it is accepted for a chip and its limits, else the answer to its fault.
fn accepted_plan(alloc: Global, both: &Both, plan: Plan) -> Result<PlanPlaces, Verdict>
    requires { AreSmallStarts (plan_value plan).starts }
    ensures { AnswersCheck both.now.soc both.now.limits (plan_value plan) result }
{
    let problem = both.problem();
    checked(alloc, &problem, plan)
}

/// Loads and reads a plan for a chip under limits and checks it, else how the command ends.
fn load_accepted_plan<H: Shelf>(
    alloc: Global,
    both: &Both,
    name: &str,
    shelf: &mut H,
) -> Result<PlanPlaces, Verdict>
    ensures held_stays { H.held shelf.new ≡ H.held shelf.old }
    ensures faults_never_fall { H.faults shelf.old ≤ H.faults shelf.new }
    ensures accepted { IfOk result
        (λ found. IsFaultless both.now.soc both.now.limits (plan_value found.plan)) }
    ensures placed { IfOk result
        (λ found. IsPlaced both.now.soc (plan_value found.plan) found.placed) }
    ensures loads { LoadsAccepted both.now.soc both.now.limits name.now (H.held shelf.old)
        (H.faults shelf.old) (H.faults shelf.new) result }
    ensures by_loads { LoadsPlan H.is_load both.now.soc both.now.limits
        name.now shelf.old result shelf.new }
{
    let bytes = load_file(alloc, FileKind::Plan, name, shelf)?;
    match read_plan(alloc, bytes.as_slice()) {
        Ok(plan) => accepted_plan(alloc, both, plan),
        Err(fault) => Err(refused_plan(alloc, fault)),
    }
}

/// A chip, its limits and a plan that is accepted for them, placed.
fn accepted_for(both: Both, found: PlanPlaces) -> Accepted
    requires accepted { IsFaultless both.soc both.limits (plan_value found.plan) }
    requires placed { IsPlaced both.soc (plan_value found.plan) found.placed }
    ensures chip { result.soc ≡ both.soc }
    ensures limits { result.limits ≡ both.limits }
    ensures plan { result.plan ≡ plan_value found.plan }
{
    Accepted {
        soc: both.soc,
        limits: both.limits,
        resolved: both.resolved,
        plan: found.plan,
        placed: found.placed,
    }
}

/// Loads a chip and limits for it, else how the command ends.
pub fn load_both<H: Shelf>(
    alloc: Global,
    soc: &str,
    limits: &str,
    shelf: &mut H,
) -> Result<Both, Verdict>
    ensures held_stays { H.held shelf.new ≡ H.held shelf.old }
    ensures faults_never_fall { H.faults shelf.old ≤ H.faults shelf.new }
    ensures loads { LoadsBoth soc.now limits.now (H.held shelf.old) (H.faults shelf.old)
        (H.faults shelf.new) result }
    ensures by_loads { LoadsTwo H.is_load soc.now limits.now shelf.old result shelf.new }
{
    let soc = load_chip(alloc, soc, shelf)?;
    let bounds = load_limits(alloc, &soc, limits, shelf)?;
    Ok(Both {
        soc,
        limits: bounds.limits,
        resolved: bounds.resolved,
    })
}

/// Loads a chip, limits for it and a plan that is accepted, else how the command ends.
pub fn load_all<H: Shelf>(
    alloc: Global,
    soc: &str,
    limits: &str,
    plan: &str,
    shelf: &mut H,
) -> Result<Accepted, Verdict>
    ensures held_stays { H.held shelf.new ≡ H.held shelf.old }
    ensures faults_never_fall { H.faults shelf.old ≤ H.faults shelf.new }
    ensures loads { LoadsAll soc.now limits.now plan.now (H.held shelf.old) (H.faults shelf.old)
        (H.faults shelf.new) result }
    ensures by_loads { LoadsThree H.is_load soc.now limits.now plan.now shelf.old result shelf.new }
{
    let both = load_both(alloc, soc, limits, shelf)?;
    let plan = load_accepted_plan(alloc, &both, plan, shelf)?;
    Ok(accepted_for(both, plan))
}
