//! Draws a plan as a picture: one SVG image, with the wires from top to bottom and the cycles from left to right.
//!
//! Its text is by its definition, and a wire is drawn at exactly the cycles at which the run of a good plan uses it. The tests
//! are those of `live_tests`, and so is what they draw. The only error is out of memory.
#![tactic(auto)]

ghost use Rattle.std.specs.Prelude.{◌≡◌, ℕ, ◌+◌, ◌^◌, ◌≤◌, ◌++◌, List, Some, slice_get, IfOk, OnOk};
ghost use Rattle.soc_model.specs.Chips.{SocValue, soc_value};
ghost use Rattle.plan_model.specs.Plans.{LimitsValue, PlanValue};
ghost use Rattle.plan_model.specs.Rules.{IsGood};
ghost use Rattle.plan_model.specs.SoundLimits.{IsSoundLimits};
ghost use Rattle.plan_model.specs.Views.{limits_value, plan_value};
ghost use Rattle.live_tests.specs.declared.placed.PlacedTest.{PlacedTest as the_placed};
ghost use Rattle.live_tests.specs.Events.{HasSteps};
ghost use Rattle.live_tests.specs.Loads.{drawn_by, load_steps};
ghost use Rattle.picture.specs.Laws.{AreParts, AreTestsOf};
ghost use Rattle.picture.specs.PictureText.{bottom_of as the_bottom, inner_text, picture_of_claim, picture_text, picture_with, wires_text};
ghost use Rattle.picture.specs.Rectangles.{between, wired as the_wired};

mod fills;
mod laws;
mod marks;
mod panels;
mod rectangles;
mod scale;
mod sections;

pub use laws::good_plans_draw_right;
use live_tests::{PlacedPlan, PlacedTest, first_wires, power_steps};
use marks::{push_buses, push_tests};
use outside::{NoMemory, extend};
use panels::{Drawn, Panel, below, lanes_panel, wires_panel};
use plan_model::{Limits, Plan, good_without_limits};
use rectangles::{lane_count, self_lanes, wired};
use scale::push_scale;
use sections::{BoundMark, push_frame, push_head, push_lanes, push_lines, push_power};
use soc_model::Soc;
use std::alloc::Global;

/// What a picture is drawn from.
#[derive(Drop)]
struct Parts {
    wires: Panel,
    /// The first wire of each bus, and behind them the number of all wires.
    firsts: Vec<u64>,
    wired: Vec<Drawn>,
    lanes: Panel,
    laned: Vec<Drawn>,
    steps: Vec<(u64, u64)>,
    bottom: u64,
}

/// Where all that is drawn ends, of which nothing but the power is below the lanes.
fn bottom_of(end: u64, cycles: u64, power: Option<u64>) -> u64
    requires { end ≤ 2 ^ 33 }
    ensures is { result ≡ the_bottom end cycles power }
    ensures small { result ≤ 2 ^ 34 }
{
    match power {
        None => end,
        Some(_) => { if cycles == 0 { end } else { end + 124 } }
    }
}

/// The steps of what tests draw, which is at most a number.
fn steps_below(
    alloc: Global,
    limits: &Limits,
    tests: &[PlacedTest],
    most: u64,
) -> Result<Vec<(u64, u64)>, NoMemory>
    requires steps { (i : ℕ) (t : the_placed) → slice_get tests.now i ≡ Some t →
        HasSteps (limits_value limits.now) t }
    requires within { (c : ℕ) → drawn_by (limits_value limits.now) tests.now c ≤ most }
    ensures { (last : ℕ) →
        ((i : ℕ) (t : the_placed) → slice_get tests.now i ≡ Some t → t.end ≤ last) →
        IfOk result (λ steps. steps.items
        ≡ load_steps (drawn_by (limits_value limits.now) tests.now) last) }
{
    power_steps(alloc, limits, tests)
}

/// The steps of what tests draw, where there is a limit on power.
fn steps_under(
    alloc: Global,
    limits: &Limits,
    tests: &[PlacedTest],
) -> Result<Vec<(u64, u64)>, NoMemory>
    requires steps { (i : ℕ) (t : the_placed) → slice_get tests.now i ≡ Some t →
        HasSteps (limits_value limits.now) t }
    requires within { (most : ℕ) → limits.now.power ≡ Some most → (c : ℕ) →
        drawn_by (limits_value limits.now) tests.now c ≤ most }
    ensures { (last most : ℕ) →
        ((i : ℕ) (t : the_placed) → slice_get tests.now i ≡ Some t → t.end ≤ last) →
        limits.now.power ≡ Some most →
        IfOk result (λ steps. steps.items
        ≡ load_steps (drawn_by (limits_value limits.now) tests.now) last) }
{
    match limits.power {
        Some(most) => steps_below(alloc, limits, tests, most),
        None => Ok(Vec::new(alloc)),
    }
}

/// The parts of the picture of a good plan whose tests are placed.
fn parts_with(
    alloc: Global,
    limits: &Limits,
    plan: &Plan,
    placed: &[PlacedTest],
) -> Result<Parts, NoMemory>
    requires { (soc : SocValue)
        × AreTestsOf soc (limits_value limits.now) (plan_value plan.now) placed.now }
    ensures { (soc : SocValue) →
        AreTestsOf soc (limits_value limits.now) (plan_value plan.now) placed.now →
        IfOk result (AreParts soc (limits_value limits.now) (plan_value plan.now)) }
{
    good_without_limits();
    let firsts = first_wires(alloc, plan)?;
    let wired = wired(alloc, &firsts, placed)?;
    let lanes = self_lanes(alloc, placed)?;
    let steps = steps_under(alloc, limits, placed)?;
    let panel = lanes_panel(plan.cycles, limits.wires, lane_count(&lanes));
    let bottom = bottom_of(below(&panel), plan.cycles, limits.power);
    Ok(Parts {
        wires: wires_panel(plan.cycles, limits.wires),
        firsts,
        wired,
        lanes: panel,
        laned: lanes.drawn,
        steps,
        bottom,
    })
}

/// The parts of the picture of a good plan.
fn parts_of(alloc: Global, limits: &Limits, placed: &PlacedPlan<'_>) -> Result<Parts, NoMemory>
    requires sound_limits { IsSoundLimits placed.now.soc (limits_value limits.now) }
    requires good { IsGood placed.now.soc (limits_value limits.now) placed.now.plan }
    ensures { IfOk result (AreParts placed.now.soc (limits_value limits.now) placed.now.plan) }
{
    parts_with(alloc, limits, placed.plan, placed.tests())
}

/// Appends the buses and the tests over their wires.
#[tactic(auto, unfolding(crate::specs::PictureText::wires_text))]
fn push_wires(
    alloc: Global,
    text: &mut Vec<u8>,
    soc: &Soc,
    panel: &Panel,
    firsts: &[u64],
    drawn: &[Drawn],
) -> Result<(), NoMemory>
    ensures { (tests : List the_placed) → drawn.now ≡ the_wired (between firsts.now) tests →
        OnOk result (text.new.items
        ≡ text.old.items
        ++ wires_text (soc_value soc.now) panel.now (between firsts.now) tests) }
{
    push_buses(text, panel, firsts)?;
    push_tests(alloc, text, soc, panel, drawn)
}

/// Appends all that is in the frame.
fn push_inner(
    alloc: Global,
    text: &mut Vec<u8>,
    soc: &Soc,
    parts: &Parts,
    power: Option<u64>,
    cycles: u64,
    mark: BoundMark,
) -> Result<(), NoMemory>
    requires lanes { parts.now.lanes.top + parts.now.lanes.height ≤ 2 ^ 33 }
    requires small { parts.now.bottom ≤ 2 ^ 34 }
    ensures { (limits : LimitsValue) (plan : PlanValue) →
        AreParts (soc_value soc.now) limits plan parts.now → power ≡ limits.power →
        cycles ≡ plan.cycles →
        OnOk result
        (text.new.items ≡ text.old.items ++ inner_text (soc_value soc.now) limits plan mark) }
{
    push_wires(alloc, text, soc, &parts.wires, &parts.firsts, &parts.wired)?;
    push_lanes(alloc, text, soc, &parts.lanes, &parts.laned)?;
    push_power(text, below(&parts.lanes) + 24, cycles, power, &parts.steps)?;
    push_scale(text, cycles, parts.bottom)?;
    push_lines(text, cycles, mark, parts.bottom)
}

/// The picture of a good plan with the mark of a bound.
fn print_with(
    alloc: Global,
    limits: &Limits,
    placed: &PlacedPlan<'_>,
    mark: BoundMark,
) -> Result<Vec<u8>, NoMemory>
    requires sound_limits { IsSoundLimits placed.now.soc (limits_value limits.now) }
    requires good { IsGood placed.now.soc (limits_value limits.now) placed.now.plan }
    ensures { IfOk result (λ text. text.items
        ≡ picture_with placed.now.soc (limits_value limits.now) placed.now.plan mark) }
{
    let parts = parts_of(alloc, limits, placed)?;
    let cycles = placed.plan.cycles;
    let mut text = Vec::new(alloc);
    push_head(&mut text, parts.bottom + 24)?;
    push_frame(&mut text, &parts.wires)?;
    if cycles != 0 {
        push_inner(
            alloc,
            &mut text,
            placed.soc,
            &parts,
            limits.power,
            cycles,
            mark,
        )?;
    }
    extend(&mut text, b"</svg>\n")?;
    Ok(text)
}

/// The picture of a plan that is good under sound limits, as SVG of 1,140 units from left to right. The wires stand below
/// each other, with the frames of their buses, and beside each its place and how many wires it has; a rectangle for each test
/// lies over the wires of its bus, from its start to its end, with its numbers and the name of its module in its title, and in it
/// where there is room; a name shows at most 64 characters. Tests next to each other in time on a bus, and tests on buses beside each
/// other, have different fills, and so with lanes. Below are the self tests, by their starts, each in the first lane that
/// is free then; and, where power has a limit, the steps of what all tests draw, under the line of the limit. Thin lines stand at
/// round cycles, with a scale of their numbers below all. Lines with numbers mark the last cycle and the bound. A plan of 0 cycles
/// is the frame alone.
/// `NoMemory` where memory runs out.
pub fn print_picture(
    alloc: Global,
    limits: &Limits,
    placed: &PlacedPlan<'_>,
) -> Result<Vec<u8>, NoMemory>
    requires sound_limits { IsSoundLimits placed.now.soc (limits_value limits.now) }
    requires good { IsGood placed.now.soc (limits_value limits.now) placed.now.plan }
    ensures text { IfOk result (λ text. text.items
        ≡ picture_text placed.now.soc (limits_value limits.now) placed.now.plan) }
{
    let mark = BoundMark {
        cycles: placed.plan.bound.cycles,
        of_proof: false,
    };
    print_with(alloc, limits, placed, mark)
}

/// The picture of a good plan, as [`print_picture`] draws it, with a claim of a proof, in cycles, in the place of the plan's own bound.
/// `NoMemory` where memory runs out.
pub fn print_picture_of_claim(
    alloc: Global,
    limits: &Limits,
    placed: &PlacedPlan<'_>,
    claim: u64,
) -> Result<Vec<u8>, NoMemory>
    requires sound_limits { IsSoundLimits placed.now.soc (limits_value limits.now) }
    requires good { IsGood placed.now.soc (limits_value limits.now) placed.now.plan }
    ensures text { IfOk result (λ text. text.items
        ≡ picture_of_claim placed.now.soc (limits_value limits.now) placed.now.plan claim) }
{
    let mark = BoundMark {
        cycles: claim,
        of_proof: true,
    };
    print_with(alloc, limits, placed, mark)
}
