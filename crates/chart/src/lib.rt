//! Draws the schedule of a plan as text.
//!
//! The text is by its definition, a bar for each live test of a good plan, from `live_tests`. The only error is out of memory.
#![tactic(auto)]

ghost use Rattle.std.specs.Prelude.{◌≡◌, ◌++◌, ◌∷◌, [], ◌<◌, decimal, OnOk, IfOk};
ghost use Rattle.std.specs.List.{flat_map};
ghost use Rattle.soc_model.specs.Chips.{soc_value};
ghost use Rattle.soc_model.specs.SoundChips.{IsSoundChip};
ghost use Rattle.plan_model.specs.Rules.{IsGoodAlone};
ghost use Rattle.plan_model.specs.Views.{plan_value};
ghost use Rattle.live_tests.specs.Placed.{placed_tests};
ghost use Rattle.chart.specs.ChartText.{is_marked, mark, bar, bus_text, times_text, bar_text, row_text, row_if, start_row, chart_text};

use live_tests::{LiveTests, Placed, PlacedPlan, PlacedTest};
use outside::{NoMemory, extend, push_dotted, push_number};
use plan_model::Plan;
use soc_model::Soc;
use std::alloc::Global;

/// The characters of a bar.
const BAR: u64 = 48;

/// Whether character `i` of a bar lies in the cycles of a test.
fn is_marked(start: u64, end: u64, cycles: u64, i: u64) -> bool
    requires { i < 48 }
    ensures { result ≡ is_marked start end cycles i }
{
    let width = u128::from(BAR);
    let (from, to) = (u128::from(start) * width, u128::from(end) * width);
    let (part, all) = (u128::from(i), u128::from(cycles));
    from < (part + 1) * all && part * all < to
}

/// Appends character `i` of the bar of a test.
fn push_mark(text: &mut Vec<u8>, start: u64, end: u64, cycles: u64, i: u64) -> Result<(), NoMemory>
    requires { i < 48 }
    ensures { OnOk result (text.new.items ≡ text.old.items ++ mark start end cycles i ∷ []) }
{
    if is_marked(start, end, cycles, i) {
        extend(text, b"#")
    } else {
        extend(text, b".")
    }
}

/// Appends the bar of a test.
fn push_bar(text: &mut Vec<u8>, start: u64, end: u64, cycles: u64) -> Result<(), NoMemory>
    ensures { OnOk result (text.new.items ≡ text.old.items ++ bar start end cycles) }
{
    for i in 0..BAR {
        push_mark(text, start, end, cycles, i)?;
    }
    Ok(())
}

/// Appends a name and a number.
fn push_entry(text: &mut Vec<u8>, name: &[u8], number: u64) -> Result<(), NoMemory>
    ensures { OnOk result (text.new.items ≡ text.old.items ++ name.now ++ decimal number) }
{
    extend(text, name)?;
    push_number(text, u128::from(number))
}

/// Appends the place of a bus, or `-` for a self test.
fn push_bus(text: &mut Vec<u8>, bus: Option<usize>) -> Result<(), NoMemory>
    ensures { OnOk result (text.new.items ≡ text.old.items ++ bus_text bus) }
{
    extend(text, b" bus ")?;
    match bus {
        Some(place) => push_number(text, place as u128),
        None => extend(text, b"-"),
    }
}

/// Appends the cycles of a test's start and end.
fn push_times(text: &mut Vec<u8>, start: u64, end: u64) -> Result<(), NoMemory>
    ensures { OnOk result (text.new.items ≡ text.old.items ++ times_text start end) }
{
    push_entry(text, b" start ", start)?;
    push_entry(text, b" end ", end)
}

/// Appends the bar of a test between two strokes, and ends the line.
fn push_framed(text: &mut Vec<u8>, start: u64, end: u64, cycles: u64) -> Result<(), NoMemory>
    ensures { OnOk result (text.new.items ≡ text.old.items ++ bar_text start end cycles) }
{
    extend(text, b" |")?;
    push_bar(text, start, end, cycles)?;
    extend(text, b"|\n")
}

/// Appends the line of a test, in a plan of `cycles` cycles.
fn push_row(text: &mut Vec<u8>, test: &PlacedTest, cycles: u64) -> Result<(), NoMemory>
    ensures { OnOk result (text.new.items ≡ text.old.items ++ row_text cycles test.now) }
{
    push_dotted(text, test.id.module, test.id.test)?;
    push_bus(text, test.bus)?;
    push_times(text, test.start, test.end)?;
    push_framed(text, test.start, test.end, cycles)
}

/// Appends the line of a test, where there is one.
fn push_found(text: &mut Vec<u8>, test: Option<PlacedTest>, cycles: u64) -> Result<(), NoMemory>
    ensures { OnOk result (text.new.items ≡ text.old.items ++ row_if cycles test) }
{
    match test {
        Some(test) => push_row(text, &test, cycles),
        None => Ok(()),
    }
}

/// Appends the lines of all starts.
fn push_rows(text: &mut Vec<u8>, placed: &PlacedPlan<'_>) -> Result<(), NoMemory>
    ensures { OnOk result (text.new.items
        ≡ text.old.items
        ++ flat_map
        (start_row placed.now.plan.cycles (placed_tests placed.now.soc placed.now.plan))
        placed.now.plan.starts) }
{
    for (id, _) in &placed.plan.starts {
        push_found(text, placed.find(*id), placed.plan.cycles)?;
    }
    Ok(())
}

/// The chart of a good plan of a sound chip: the cycles of the plan, and for each start, in the order of the plan, a line
/// with the test, the place of its bus (`-` for a self test), the cycles of its start and its end, and a bar of 48
/// characters, of which each stands for as many cycles and is `#` where the test is active in one of them, else `.`.
pub fn print_chart(alloc: Global, soc: &Soc, plan: &Plan) -> Result<Vec<u8>, NoMemory>
    requires sound { IsSoundChip (soc_value soc.now) }
    requires good { IsGoodAlone (soc_value soc.now) (plan_value plan.now) }
    ensures { IfOk result
        (λ text. text.items ≡ chart_text (soc_value soc.now) (plan_value plan.now)) }
{
    let names = LiveTests::new(alloc, soc)?;
    let places = Placed::new(alloc, soc, plan)?;
    let placed = PlacedPlan::new(soc, plan, &names, &places);
    let text = print_placed(alloc, &placed)?;
    Ok(text)
}

/// The chart of a good plan that is placed.
pub fn print_placed(alloc: Global, placed: &PlacedPlan<'_>) -> Result<Vec<u8>, NoMemory>
    ensures { IfOk result (λ text. text.items ≡ chart_text placed.now.soc placed.now.plan) }
{
    let mut text = Vec::new(alloc);
    push_entry(&mut text, b"cycles ", placed.plan.cycles)?;
    extend(&mut text, b"\n")?;
    push_rows(&mut text, placed)?;
    Ok(text)
}
