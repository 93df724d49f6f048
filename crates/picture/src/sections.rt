//! The parts of a picture, from its head to its lines.
ghost use Rattle.std.specs.Prelude.{◌≡◌, ◌++◌, ◌≤◌, ◌^◌, OnOk};
ghost use Rattle.std.specs.List.{flat_map};
ghost use Rattle.soc_model.specs.Chips.{soc_value};
ghost use Rattle.picture.specs.PictureText.{bound_side, bound_text, bound_words, frame_text, head_text, lanes_name, lanes_text, limit_text, lines_at, lines_text, load_line as the_load_line, load_text, power_text, step_text, style_text};

use crate::marks::{end_label, push_entry, push_label, push_tests};
use crate::panels::{Drawn, Panel, column, scaled};
use outside::{NoMemory, extend, push_number};
use soc_model::Soc;
use std::alloc::Global;

/// A bound that is marked in a picture, in cycles: that of the plan, or the claim of a proof.
#[derive(Clone, Copy, Drop)]
pub struct BoundMark {
    pub cycles: u64,
    pub of_proof: bool,
}

/// Appends how the classes look.
fn push_style(text: &mut Vec<u8>) -> Result<(), NoMemory>
    ensures { OnOk result (text.new.items ≡ text.old.items ++ style_text) }
{
    extend(
        text,
        b"<style>\nrect{stroke:#333;stroke-width:.5}\n.a{fill:#fff3c4}.b{fill:#cde7cd}.c{fill:#a9c6e8}.d{fill:#c79fc6}\n",
    )?;
    extend(
        text,
        b".w{fill:#fff;stroke:#999}.p{fill:#ddd;stroke:#333;stroke-width:.5}.l{stroke:#000;stroke-dasharray:4 3}\n",
    )?;
    extend(
        text,
        b".g{stroke:#000;stroke-opacity:.2;pointer-events:none}\n",
    )?;
    extend(
        text,
        b"text{fill:#111;pointer-events:none}.m{text-anchor:middle}.e{text-anchor:end}\n</style>\n",
    )
}

/// Appends the head of a picture of `height` units from top to bottom.
#[tactic(auto, unfolding(crate::specs::PictureText::head_text))]
pub fn push_head(text: &mut Vec<u8>, height: u64) -> Result<(), NoMemory>
    ensures { OnOk result (text.new.items ≡ text.old.items ++ head_text height) }
{
    push_entry(
        text,
        b"<svg xmlns='http://www.w3.org/2000/svg' width='1140' height='",
        height,
    )?;
    push_entry(text, b"' viewBox='0 0 1140 ", height)?;
    extend(text, b"' font-family='sans-serif' font-size='10'>\n")?;
    push_style(text)?;
    push_entry(text, b"<rect class='w' width='1140' height='", height)?;
    extend(text, b"'/>\n")
}

/// Appends the frame of the wires.
#[tactic(auto, unfolding(crate::specs::PictureText::frame_text))]
pub fn push_frame(text: &mut Vec<u8>, panel: &Panel) -> Result<(), NoMemory>
    ensures { OnOk result (text.new.items ≡ text.old.items ++ frame_text panel.now) }
{
    push_entry(
        text,
        b"<rect class='w' x='120' y='40' width='1000' height='",
        u64::from(panel.height),
    )?;
    push_entry(text, b"'><title>wires ", panel.rows)?;
    extend(text, b"</title></rect>\n")
}

/// Appends what the lanes are, where there are any.
fn push_lanes_name(text: &mut Vec<u8>, lanes: u64, top: u32) -> Result<(), NoMemory>
    ensures { OnOk result (text.new.items ≡ text.old.items ++ lanes_name lanes top) }
{
    if lanes == 0 {
        return Ok(());
    }
    push_label(text, b"e", 114, u128::from(top) + 12)?;
    extend(text, b"self tests</text>\n")
}

/// Appends the self tests in their lanes.
#[tactic(auto, unfolding(crate::specs::PictureText::lanes_text))]
pub fn push_lanes(
    alloc: Global,
    text: &mut Vec<u8>,
    soc: &Soc,
    panel: &Panel,
    drawn: &[Drawn],
) -> Result<(), NoMemory>
    ensures { OnOk result
        (text.new.items ≡ text.old.items ++ lanes_text (soc_value soc.now) panel.now drawn.now) }
{
    push_lanes_name(text, panel.rows, panel.top)?;
    push_tests(alloc, text, soc, panel, drawn)
}

/// Where a load stands, up to 100 units below the line of the limit at `top`.
fn load_line(top: u64, load: u64, most: u64) -> u64
    requires { top ≤ 2 ^ 40 }
    ensures { result ≡ the_load_line top load most }
{
    top + u64::from(100 - scaled(load, most, 100))
}

/// Appends a load from a cycle on.
fn push_step(
    text: &mut Vec<u8>,
    top: u64,
    cycles: u64,
    most: u64,
    step: (u64, u64),
) -> Result<(), NoMemory>
    requires { top ≤ 2 ^ 40 }
    ensures { OnOk result (text.new.items ≡ text.old.items ++ step_text top cycles most step) }
{
    let (cycle, load) = step;
    push_entry(text, b"H", column(cycle, cycles))?;
    push_entry(text, b"V", load_line(top, load, most))
}

/// Appends the steps of a load.
fn push_steps(
    text: &mut Vec<u8>,
    top: u64,
    cycles: u64,
    most: u64,
    steps: &[(u64, u64)],
) -> Result<(), NoMemory>
    requires { top ≤ 2 ^ 40 }
    ensures { OnOk result
        (text.new.items ≡ text.old.items ++ flat_map (step_text top cycles most) steps.now) }
{
    for step in steps {
        push_step(text, top, cycles, most, *step)?;
    }
    Ok(())
}

/// Appends a load over `cycles` cycles.
#[tactic(auto, unfolding(crate::specs::PictureText::load_text))]
fn push_load(
    text: &mut Vec<u8>,
    top: u64,
    cycles: u64,
    most: u64,
    steps: &[(u64, u64)],
) -> Result<(), NoMemory>
    requires { top ≤ 2 ^ 40 }
    ensures { OnOk result (text.new.items ≡ text.old.items ++ load_text top cycles most steps.now) }
{
    push_entry(text, b"<path class='p' d='M120 ", top + 100)?;
    push_steps(text, top, cycles, most, steps)?;
    extend(text, b"'/>\n")
}

/// Appends the limit on power.
#[tactic(auto, unfolding(crate::specs::PictureText::limit_text))]
fn push_limit(text: &mut Vec<u8>, top: u64, most: u64) -> Result<(), NoMemory>
    requires { top ≤ 2 ^ 40 }
    ensures { OnOk result (text.new.items ≡ text.old.items ++ limit_text top most) }
{
    push_entry(text, b"<path class='l' d='M120 ", top)?;
    extend(text, b"H1120'/>\n")?;
    push_label(text, b"e", 114, u128::from(top + 4))?;
    extend(text, b"power limit</text>\n")?;
    push_label(text, b"e", 114, u128::from(top + 16))?;
    push_number(text, u128::from(most))?;
    end_label(text)?;
    push_label(text, b"e", 114, u128::from(top + 100))?;
    extend(text, b"0</text>\n")
}

/// Appends what is drawn under a limit on power; without one, nothing.
#[tactic(auto, unfolding(crate::specs::PictureText::power_text))]
pub fn push_power(
    text: &mut Vec<u8>,
    top: u64,
    cycles: u64,
    power: Option<u64>,
    steps: &[(u64, u64)],
) -> Result<(), NoMemory>
    requires { top ≤ 2 ^ 40 }
    ensures { OnOk result
        (text.new.items ≡ text.old.items ++ power_text top cycles power steps.now) }
{
    match power {
        Some(most) => {
            push_load(text, top, cycles, most, steps)?;
            push_limit(text, top, most)
        }
        None => Ok(()),
    }
}

/// Appends the begin of the bound's label, on the side of its line that has more room.
fn push_side(text: &mut Vec<u8>, x: u64) -> Result<(), NoMemory>
    requires left { 120 ≤ x }
    requires right { x ≤ 1120 }
    ensures { OnOk result (text.new.items ≡ text.old.items ++ bound_side x) }
{
    if x >= 620 {
        push_label(text, b"e", u128::from(x - 4), 32)
    } else {
        push_label(text, b"s", u128::from(x + 4), 32)
    }
}

/// Appends which bound a number is.
fn push_words(text: &mut Vec<u8>, of_proof: bool) -> Result<(), NoMemory>
    ensures { OnOk result (text.new.items ≡ text.old.items ++ bound_words of_proof) }
{
    if of_proof {
        return extend(text, b"bound by proof ");
    }
    extend(text, b"bound ")
}

/// Appends the label of the bound.
#[tactic(auto, unfolding(crate::specs::PictureText::bound_text))]
fn push_bound(text: &mut Vec<u8>, x: u64, mark: BoundMark) -> Result<(), NoMemory>
    requires left { 120 ≤ x }
    requires right { x ≤ 1120 }
    ensures { OnOk result (text.new.items ≡ text.old.items ++ bound_text x mark) }
{
    push_side(text, x)?;
    push_words(text, mark.of_proof)?;
    push_number(text, u128::from(mark.cycles))?;
    end_label(text)
}

/// Appends the lines of the last cycle and of the bound, which is at a place, with their numbers.
#[tactic(auto, unfolding(crate::specs::PictureText::lines_at))]
fn push_lines_at(
    text: &mut Vec<u8>,
    x: u64,
    cycles: u64,
    mark: BoundMark,
    bottom: u64,
) -> Result<(), NoMemory>
    requires left { 120 ≤ x }
    requires right { x ≤ 1120 }
    ensures { OnOk result (text.new.items ≡ text.old.items ++ lines_at x cycles mark bottom) }
{
    push_entry(text, b"<path class='l' d='M1120 16V", bottom)?;
    push_entry(text, b"M", x)?;
    push_entry(text, b" 32V", bottom)?;
    extend(text, b"'/>\n")?;
    push_label(text, b"e", 1116, 16)?;
    push_entry(text, b"cycles ", cycles)?;
    end_label(text)?;
    push_bound(text, x, mark)
}

/// Appends the lines of the last cycle and of the bound, down to the end of the picture, with their numbers.
pub fn push_lines(
    text: &mut Vec<u8>,
    cycles: u64,
    mark: BoundMark,
    bottom: u64,
) -> Result<(), NoMemory>
    ensures { OnOk result (text.new.items ≡ text.old.items ++ lines_text cycles mark bottom) }
{
    push_lines_at(text, column(mark.cycles, cycles), cycles, mark, bottom)
}
