//! `sample`: a made chip, planned and checked.
ghost use Rattle.std.specs.Prelude.{◌≡◌, ◌≤◌, ◌++◌, ℕ, Option, IfOk, IsTrue, OnOk, codes, decimal, length};
ghost use Rattle.std.specs.List.{filter};
ghost use Rattle.outside.specs.Held.{Files};
ghost use Rattle.soc_model.specs.Chips.{module_value, soc_value, is_live, live_tests};
ghost use Rattle.soc_model.specs.SoundChips.{IsSoundChip};
ghost use Rattle.soc_model.specs.declared.TheConstants.{NUMBER_WORD_MOST};
ghost use Rattle.plan_model.specs.Plans.{PlanValue};
ghost use Rattle.plan_model.specs.SoundLimits.{IsSoundLimits};
ghost use Rattle.plan_model.specs.Views.{limits_value, plan_value, why_value};
ghost use Rattle.planner.specs.Plans.{IsPlanned};
ghost use Rattle.plan_commands.specs.Procedures.{sample_procedure};
ghost use Rattle.plan_commands.specs.Samples.{sample_limits, sample_line as sample_line_text, sample_text, kind_text};
ghost use Rattle.commands.specs.Texts.{is_line, two_numbers};
ghost use Rattle.commands.specs.Decides.{Follows};

use crate::planning::checked_for;
use commands::{
    Status, Verdict, answered_with, number_line, push_decimal, push_text, push_two, refused_with,
};
use outside::NoMemory;
use plan_model::{Limits, Plan, Why};
use sample_maker::{SampleFault, sample};
use soc_model::{Module, Soc, live};
use std::alloc::Global;

/// The limits that a made chip is planned under: 32 wires, a power of 300, a budget of 1,000.
fn make_limits(alloc: Global) -> Limits
    ensures { limits_value result ≡ sample_limits }
{
    Limits {
        wires: 32,
        power: Some(300),
        before: Vec::new(alloc),
        budget: 1_000,
        profiles: Vec::new(alloc),
    }
}

/// How many tests of a module are live.
fn count_live(module: &Module) -> u64
    ensures { result ≡ length (filter is_live (module_value «module».now).tests) }
{
    let mut count = 0u64;
    for test in &module.tests {
        if live(test) {
            count += 1;
        }
    }
    count
}

/// How many tests of a chip are live.
fn count_tests(soc: &Soc) -> u128
    requires { IsSoundChip (soc_value soc.now) }
    ensures { result ≡ length (live_tests (soc_value soc.now)) }
{
    let mut count = 0u128;
    for module in soc.modules.values() {
        count += u128::from(count_live(module));
    }
    count
}

/// The keyword of a certificate's kind.
fn kind(why: &Why) -> &'static [u8]
    ensures { result.now ≡ kind_text (why_value why.now) }
{
    match why {
        Why::Module { .. } => b"Module",
        Why::Pair { .. } => b"Pair",
        Why::Chain { .. } => b"Chain",
        Why::Area => b"Area",
        Why::Power => b"Power",
        Why::Forced { .. } => b"Forced",
    }
}

/// Appends the lines of a made chip: its numbers, its modules and its live tests.
fn push_made(text: &mut Vec<u8>, n: u64, seed: u64, soc: &Soc) -> Result<(), NoMemory>
    requires { IsSoundChip (soc_value soc.now) }
    ensures { OnOk result (text.new.items
        ≡ text.old.items ++ codes "sample " ++ two_numbers n seed ++ codes "\nmodules "
        ++ decimal (length (soc_value soc.now).modules) ++ codes "\ntests "
        ++ decimal (length (live_tests (soc_value soc.now)))) }
{
    push_text(text, b"sample ")?;
    push_two(text, u128::from(n), u128::from(seed))?;
    push_text(text, b"\nmodules ")?;
    push_decimal(text, soc.modules.len() as u128)?;
    push_text(text, b"\ntests ")?;
    push_decimal(text, count_tests(soc))
}

/// Appends the lines of a plan: its cycles, and its bound with the kind of its certificate.
fn push_planned(text: &mut Vec<u8>, plan: &Plan) -> Result<(), NoMemory>
    ensures { OnOk result (text.new.items
        ≡ text.old.items ++ codes "\ncycles " ++ decimal plan.now.cycles ++ codes "\nbound "
        ++ decimal plan.now.bound.cycles ++ codes " "
        ++ kind_text (why_value plan.now.bound.why)) }
{
    push_text(text, b"\ncycles ")?;
    push_decimal(text, u128::from(plan.cycles))?;
    push_text(text, b"\nbound ")?;
    push_decimal(text, u128::from(plan.bound.cycles))?;
    push_text(text, b" ")?;
    push_text(text, kind(&plan.bound.why))
}

/// The summary of a made chip and its plan.
fn summary(alloc: Global, n: u64, seed: u64, soc: &Soc, plan: &Plan) -> Result<Vec<u8>, NoMemory>
    requires { IsSoundChip (soc_value soc.now) }
    ensures { IfOk result
        (λ text. text.items ≡ sample_text n seed (soc_value soc.now) (plan_value plan.now)) }
{
    let mut text = Vec::new(alloc);
    push_made(&mut text, n, seed, soc)?;
    push_planned(&mut text, plan)?;
    push_text(&mut text, b"\naccepted\n")?;
    Ok(text)
}

/// Plans a made chip, checks the plan, and sums both up.
fn plan_sample(alloc: Global, n: u64, seed: u64, soc: &Soc) -> Result<Vec<u8>, NoMemory>
    requires chip { IsSoundChip (soc_value soc.now) }
    requires limits { IsSoundLimits (soc_value soc.now) sample_limits }
    ensures { IfOk result
        (λ text. (value : PlanValue) × IsPlanned (soc_value soc.now) sample_limits value
        × (text.items ≡ sample_text n seed (soc_value soc.now) value)) }
{
    let limits = make_limits(alloc);
    let plan = checked_for(alloc, soc, &limits)?;
    summary(alloc, n, seed, soc, &plan)
}

/// `refused sample` and the number of modules.
fn sample_line(alloc: Global, n: u64) -> Result<Vec<u8>, NoMemory>
    ensures text { IfOk result (λ text. text.items ≡ sample_line_text n) }
    ensures line { IfOk result (λ text. IsTrue (is_line text.items)) }
{
    number_line(alloc, b"refused sample ", u128::from(n))
}

/// `sample N SEED`: the summary of the made chip of N modules.
pub fn decide_sample(alloc: Global, n: u64, seed: u64) -> Verdict
    requires { seed ≤ NUMBER_WORD_MOST }
    ensures { (held : Option Files) (before after : ℕ) →
        Follows (sample_procedure n seed) held before after result }
{
    match sample(alloc, n, seed) {
        Ok(soc) => answered_with(Status::Done, plan_sample(alloc, n, seed, &soc)),
        Err(SampleFault::SampleSize { n }) => refused_with(sample_line(alloc, n)),
        Err(SampleFault::NoMemory) => Verdict::NoMemory,
    }
}
