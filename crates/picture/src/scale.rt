//! The scale of a picture: thin lines at round cycles, with their numbers below all panels.
ghost use Rattle.std.specs.Prelude.{◌≡◌, ◌+◌, ◌*◌, ◌/◌, ◌++◌, ◌≤◌, ◌^◌, OnOk};
ghost use Rattle.std.specs.List.{flat_map};
ghost use Rattle.picture.specs.Scale.{leading_power as the_power, mark_line, mark_number, mark_step as the_step, marks_by, number_middle as the_middle, scale_by, scale_text, step_within as the_step_within};

use crate::marks::{digits, end_label, push_entry, push_label};
use crate::panels::column;
use outside::{NoMemory, extend, push_number};

/// The power of ten that the first digit of a number counts.
#[tactic(auto, unfolding(crate::specs::Scale::leading_power))]
fn leading_power(n: u64) -> u64
    ensures { result ≡ the_power n }
{
    let zeros = digits(n).saturating_sub(1);
    10u64.pow(zeros as u32)
}

/// How many cycles are from one mark to the next, given the power of ten that the first digit of all cycles counts.
fn step_within(power: u64, cycles: u64) -> u64
    ensures is { result ≡ the_step_within power cycles }
    ensures some { 1 ≤ result }
{
    let wide = u128::from(power);
    let all = u128::from(cycles);
    if all >= 5 * wide {
        return power.max(1);
    }
    if all >= 2 * wide {
        return (power / 2).max(1);
    }
    (power / 5).max(1)
}

/// How many cycles are from one mark to the next: 1, 2 or 5 times a power of ten, so that up to nine marks come after the first.
#[tactic(auto, unfolding(crate::specs::Scale::mark_step))]
fn mark_step(cycles: u64) -> u64
    ensures is { result ≡ the_step cycles }
    ensures some { 1 ≤ result }
{
    step_within(leading_power(cycles), cycles)
}

/// The cycle of the mark at a place, counted from 0.
fn mark_at(place: u128, step: u64, cycles: u64) -> u64
    requires some { 1 ≤ step }
    requires within { place ≤ cycles / step }
    ensures { result ≡ place * step }
{
    (place * u128::from(step)) as u64
}

/// How many marks there are.
fn mark_count(step: u64, cycles: u64) -> u128
    requires { 1 ≤ step }
    ensures { result ≡ cycles / step + 1 }
{
    u128::from(cycles / step) + 1
}

/// Appends the line of the mark at a cycle.
fn push_mark(text: &mut Vec<u8>, cycles: u64, bottom: u64, cycle: u64) -> Result<(), NoMemory>
    requires { bottom ≤ 2 ^ 40 }
    ensures { OnOk result (text.new.items ≡ text.old.items ++ mark_line cycles bottom cycle) }
{
    push_entry(text, b"M", column(cycle, cycles))?;
    push_entry(text, b" 40V", bottom + 4)
}

/// Appends the lines of all marks.
fn push_marks(text: &mut Vec<u8>, step: u64, cycles: u64, bottom: u64) -> Result<(), NoMemory>
    requires some { 1 ≤ step }
    requires small { bottom ≤ 2 ^ 40 }
    ensures { OnOk result (text.new.items
        ≡ text.old.items ++ flat_map (mark_line cycles bottom) (marks_by step cycles)) }
{
    for place in 0..mark_count(step, cycles) {
        push_mark(text, cycles, bottom, mark_at(place, step, cycles))?;
    }
    Ok(())
}

/// Where the middle of the number of a cycle stands, whose mark is at `x`.
fn number_middle(x: u64, cycle: u64) -> u64
    ensures { result ≡ the_middle x cycle }
{
    x.min(1_136 - 4 * digits(cycle))
}

/// Appends the number of the mark at a cycle.
#[tactic(auto, unfolding(crate::specs::Scale::mark_number))]
fn push_mark_number(
    text: &mut Vec<u8>,
    cycles: u64,
    bottom: u64,
    cycle: u64,
) -> Result<(), NoMemory>
    requires { bottom ≤ 2 ^ 40 }
    ensures { OnOk result (text.new.items ≡ text.old.items ++ mark_number cycles bottom cycle) }
{
    let x = number_middle(column(cycle, cycles), cycle);
    push_label(text, b"m", u128::from(x), u128::from(bottom + 14))?;
    push_number(text, u128::from(cycle))?;
    end_label(text)
}

/// Appends the numbers of all marks.
fn push_mark_numbers(
    text: &mut Vec<u8>,
    step: u64,
    cycles: u64,
    bottom: u64,
) -> Result<(), NoMemory>
    requires some { 1 ≤ step }
    requires small { bottom ≤ 2 ^ 40 }
    ensures { OnOk result (text.new.items
        ≡ text.old.items ++ flat_map (mark_number cycles bottom) (marks_by step cycles)) }
{
    for place in 0..mark_count(step, cycles) {
        push_mark_number(text, cycles, bottom, mark_at(place, step, cycles))?;
    }
    Ok(())
}

/// Appends a scale with a mark at all multiples of a step.
#[tactic(auto, unfolding(crate::specs::Scale::scale_by))]
fn push_scale_by(text: &mut Vec<u8>, step: u64, cycles: u64, bottom: u64) -> Result<(), NoMemory>
    requires some { 1 ≤ step }
    requires small { bottom ≤ 2 ^ 40 }
    ensures { OnOk result (text.new.items ≡ text.old.items ++ scale_by step cycles bottom) }
{
    extend(text, b"<path class='g' d='")?;
    push_marks(text, step, cycles, bottom)?;
    extend(text, b"'/>\n")?;
    push_label(text, b"e", 114, u128::from(bottom + 14))?;
    extend(text, b"cycles</text>\n")?;
    push_mark_numbers(text, step, cycles, bottom)
}

/// Appends the scale of `cycles` cycles, below all that ends at `bottom`.
pub fn push_scale(text: &mut Vec<u8>, cycles: u64, bottom: u64) -> Result<(), NoMemory>
    requires { bottom ≤ 2 ^ 40 }
    ensures { OnOk result (text.new.items ≡ text.old.items ++ scale_text cycles bottom) }
{
    push_scale_by(text, mark_step(cycles), cycles, bottom)
}
