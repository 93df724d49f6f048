//! The command `split`: tests cut into parts, with a plan of the parts.
ghost use Rattle.std.specs.Prelude.{◌≡◌, ◌≤◌, ◌++◌, ℕ, List, IfOk, OnOk, IsTrue};
ghost use Rattle.soc_model.specs.Chips.{soc_value};
ghost use Rattle.soc_model.specs.SoundChips.{IsSoundChip};
ghost use Rattle.plan_model.specs.Plans.{PlanValue};
ghost use Rattle.plan_model.specs.SoundLimits.{IsSoundLimits};
ghost use Rattle.plan_model.specs.Views.{limits_value, plan_value};
ghost use Rattle.planner.specs.Plans.{IsPlanned};
ghost use Rattle.split_plan.specs.Parts.{split_chip, split_limits, split_of as parts_of, split_value};
ghost use Rattle.commands.specs.Decides.{Follows, GivesAny};
ghost use Rattle.commands.specs.Loads.{LoadsGive};
ghost use Rattle.plan_commands.specs.Procedures.{split_procedure};
ghost use Rattle.plan_commands.specs.SplitText.{part_line, parts_text, soc_and_limits, split_line as split_line_text, split_refusal, split_text as text_of_parts};
ghost use Rattle.commands.specs.Texts.{is_line};

use crate::planning::checked_for;
use commands::{
    Both, Status, Verdict, answered_with, limit_word, load_both, push_decimal, push_test,
    push_text, push_two, refused_with,
};
use limits_text::print_limits;
use outside::{NoMemory, Shelf, extend};
use plan_model::{Limits, Plan};
use plan_text::print_plan;
use soc_model::{Soc, SocLimit};
use soc_printer::print_soc;
use split_plan::{Part, Split, SplitFault, split_soc};
use std::alloc::Global;

/// Appends the line of a part.
fn push_part(text: &mut Vec<u8>, part: &Part) -> Result<(), NoMemory>
    ensures { OnOk result (text.new.items ≡ text.old.items ++ part_line part.now) }
{
    push_test(text, &part.whole)?;
    push_text(text, b" ")?;
    push_two(text, u128::from(part.first), u128::from(part.last))?;
    push_text(text, b" as ")?;
    push_test(text, &part.part)?;
    push_text(text, b"\n")
}

/// Appends the lines of parts.
fn push_parts(text: &mut Vec<u8>, parts: &[Part]) -> Result<(), NoMemory>
    ensures { OnOk result (text.new.items ≡ text.old.items ++ parts_text parts.now) }
{
    for part in parts {
        push_part(text, part)?;
    }
    Ok(())
}

/// Appends the texts of a chip and of limits for it, each under its name.
fn push_both(alloc: Global, text: &mut Vec<u8>, soc: &Soc, limits: &Limits) -> Result<(), NoMemory>
    ensures { OnOk result (text.new.items
        ≡ text.old.items ++ soc_and_limits (soc_value soc.now) (limits_value limits.now)) }
{
    extend(text, b"soc\n")?;
    let chip = print_soc(alloc, soc)?;
    extend(text, &chip)?;
    extend(text, b"limits\n")?;
    let bounds = print_limits(alloc, limits)?;
    extend(text, &bounds)
}

/// The text of the parts of a chip and of a plan for them.
fn split_text(alloc: Global, split: &Split, plan: &Plan) -> Result<Vec<u8>, NoMemory>
    ensures { IfOk result
        (λ text. text.items ≡ text_of_parts (split_value split.now) (plan_value plan.now)) }
{
    let mut text = Vec::new(alloc);
    extend(&mut text, b"parts\n")?;
    push_parts(&mut text, &split.parts)?;
    push_both(alloc, &mut text, &split.soc, &split.limits)?;
    extend(&mut text, b"plan\n")?;
    let of_plan = print_plan(alloc, plan)?;
    extend(&mut text, &of_plan)?;
    Ok(text)
}

/// The text of the parts of a chip and of the planner's plan for them.
fn planned_split(alloc: Global, split: &Split) -> Result<Vec<u8>, NoMemory>
    requires chip { IsSoundChip (soc_value split.now.soc) }
    requires limits { IsSoundLimits (soc_value split.now.soc) (limits_value split.now.limits) }
    ensures { IfOk result (λ text. (value : PlanValue)
        × IsPlanned (soc_value split.now.soc) (limits_value split.now.limits) value
        × (text.items ≡ text_of_parts (split_value split.now) value)) }
{
    let plan = checked_for(alloc, &split.soc, &split.limits)?;
    split_text(alloc, split, &plan)
}

/// `refused split limit`, the name of a limit and the number that passes it.
fn split_line(alloc: Global, limit: &SocLimit) -> Result<Vec<u8>, NoMemory>
    ensures text { IfOk result (λ text. text.items ≡ split_line_text limit.now) }
    ensures line { IfOk result (λ text. IsTrue (is_line text.items)) }
{
    let mut text = Vec::new(alloc);
    push_text(&mut text, b"refused split limit ")?;
    push_text(&mut text, limit_word(limit.which))?;
    push_decimal(&mut text, limit.value)?;
    push_text(&mut text, b"\n")?;
    Ok(text)
}

/// The parts of a chip with a plan for them, or the refusal of a chip of parts that is too large.
fn answer_split(alloc: Global, soc: &Soc, limits: &Limits, most: u64) -> Verdict
    requires chip { IsSoundChip (soc_value soc.now) }
    requires limits { IsSoundLimits (soc_value soc.now) (limits_value limits.now) }
    requires most { 1 ≤ most }
    ensures { GivesAny (split_refusal (soc_value soc.now) (limits_value limits.now) most)
        (λ (text : List ℕ). (value : PlanValue)
        × IsPlanned (split_chip (limits_value limits.now) most (soc_value soc.now))
        (split_limits (limits_value limits.now) most (soc_value soc.now)) value
        × (text
        ≡ text_of_parts (parts_of (soc_value soc.now) (limits_value limits.now) most)
        value)) result }
{
    match split_soc(alloc, soc, limits, most) {
        Ok(split) => answered_with(Status::Done, planned_split(alloc, &split)),
        Err(SplitFault::Limit { which, value }) => {
            let limit = SocLimit { which, value };
            refused_with(split_line(alloc, &limit))
        }
        Err(SplitFault::NoMemory) => Verdict::NoMemory,
    }
}

/// What is answered for a chip under limits.
fn answer_both(alloc: Global, both: &Both, most: u64) -> Verdict
    requires { 1 ≤ most }
    ensures { GivesAny (split_refusal both.now.soc both.now.limits most)
        (λ (text : List ℕ). (value : PlanValue)
        × IsPlanned (split_chip both.now.limits most both.now.soc)
        (split_limits both.now.limits most both.now.soc) value
        × (text ≡ text_of_parts (parts_of both.now.soc both.now.limits most) value)) result }
{
    answer_split(alloc, &both.soc, &both.limits, most)
}

/// `split SOC LIMITS MOST`: the tests cut into parts of at most `most` patterns, and a plan of the parts.
pub fn decide_split<H: Shelf>(
    alloc: Global,
    soc: &str,
    limits: &str,
    most: u64,
    shelf: &mut H,
) -> Verdict
    requires { 1 ≤ most }
    ensures held_stays { H.held shelf.new ≡ H.held shelf.old }
    ensures faults_never_fall { H.faults shelf.old ≤ H.faults shelf.new }
    ensures follows { Follows (split_procedure soc.now limits.now most) (H.held shelf.old)
        (H.faults shelf.old) (H.faults shelf.new) result }
    ensures by_loads { LoadsGive H.is_load (split_procedure soc.now limits.now most)
        shelf.old result shelf.new }
{
    match load_both(alloc, soc, limits, shelf) {
        Ok(both) => {
            let verdict = answer_both(alloc, &both, most);
            both.free();
            verdict
        }
        Err(verdict) => verdict,
    }
}
