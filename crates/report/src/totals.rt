//! The lines of the cycles and of the wires.
ghost use Rattle.std.specs.Prelude.{◌≡◌, ◌++◌, ◌^◌, ◌<◌, decimal, slice_index, sum, IfOk, OnOk};
ghost use Rattle.plan_model.specs.Plans.{widths};
ghost use Rattle.plan_model.specs.Views.{bound_value, plan_value, why_value};
ghost use Rattle.report.specs.Totals.{area_of, bound_text, busy_area as the_busy_area, cycles_line, cycles_of as the_cycles, kind_text, wires_line, wires_over as the_wires_over, wires_text};

use crate::entries::push_entry;
use live_tests::PlacedTest;
use outside::{NoMemory, extend, push, push_number};
use plan_model::{Bound, Plan, Why};
use std::alloc::Global;

/// The keyword of a certificate's kind.
fn kind(why: &Why) -> &'static [u8]
    ensures { result.now ≡ kind_text (why_value why.now) }
{
    match why {
        Why::Module { .. } => b"Module",
        Why::Pair { .. } => b"Pair",
        Why::Chain { .. } => b"Chain",
        Why::Area => b"Area",
        Why::Power => b"Power",
        Why::Forced { .. } => b"Forced",
    }
}

/// Appends a bound with its kind.
fn push_bound(text: &mut Vec<u8>, bound: &Bound) -> Result<(), NoMemory>
    ensures { OnOk result (text.new.items ≡ text.old.items ++ bound_text (bound_value bound.now)) }
{
    push_entry(text, b" bound ", bound.cycles)?;
    extend(text, b" ")?;
    extend(text, kind(&bound.why))
}

/// Appends the line of the cycles: those of the plan, its bound, and how many are between them.
pub fn push_cycles(text: &mut Vec<u8>, plan: &Plan) -> Result<(), NoMemory>
    ensures { OnOk result (text.new.items ≡ text.old.items ++ cycles_line (plan_value plan.now)) }
{
    push_entry(text, b"cycles ", plan.cycles)?;
    push_bound(text, &plan.bound)?;
    push_entry(
        text,
        b" left ",
        plan.cycles.saturating_sub(plan.bound.cycles),
    )?;
    extend(text, b"\n")
}

/// The widths of a plan's buses, in wires.
pub fn widths_of(alloc: Global, plan: &Plan) -> Result<Vec<u64>, NoMemory>
    ensures { IfOk result (λ ws. ws.items ≡ widths (plan_value plan.now)) }
{
    let mut ws = Vec::new(alloc);
    for bus in &plan.buses {
        push(&mut ws, bus.width)?;
    }
    Ok(ws)
}

/// The cycles of a test.
pub fn cycles_of(test: &PlacedTest) -> u64
    ensures { result ≡ the_cycles test.now }
{
    test.end.saturating_sub(test.start)
}

/// The wires of a bus, 0 where there is none.
fn wires_over(ws: &[u64], bus: Option<usize>) -> u64
    ensures is { result ≡ the_wires_over ws.now bus }
{
    match bus {
        Some(place) => width_at(ws, place),
        None => 0,
    }
}

/// The width at a place, 0 where there is none.
pub fn width_at(ws: &[u64], place: usize) -> u64
    ensures { result ≡ slice_index ws.now place }
{
    if place >= ws.len() {
        return 0;
    }
    ws[place]
}

/// What a test takes of the wires, in wires times cycles.
fn area_of(ws: &[u64], test: &PlacedTest) -> u128
    ensures { result ≡ area_of ws.now test.now }
{
    u128::from(wires_over(ws, test.bus)) * u128::from(cycles_of(test))
}

/// What all tests take of the wires, in wires times cycles.
fn busy_area(ws: &[u64], tests: &[PlacedTest]) -> u128
    requires { the_busy_area ws.now tests.now < 2 ^ 128 }
    ensures { result ≡ the_busy_area ws.now tests.now }
{
    let mut busy = 0u128;
    for test in tests {
        busy += area_of(ws, test);
    }
    busy
}

/// The wires of all buses together.
fn wires_used(ws: &[u64]) -> u64
    requires { sum ws.now < 2 ^ 64 }
    ensures { result ≡ sum ws.now }
{
    let mut used = 0u64;
    for width in ws {
        used += *width;
    }
    used
}

/// Appends a name and a number of up to 128 bits.
fn push_long(text: &mut Vec<u8>, name: &[u8], number: u128) -> Result<(), NoMemory>
    ensures { OnOk result (text.new.items ≡ text.old.items ++ name.now ++ decimal number) }
{
    extend(text, name)?;
    push_number(text, number)
}

/// Appends the line of the wires: all wires, those of the buses, and in wires times cycles what the tests take of all that there is.
pub fn push_wires(
    text: &mut Vec<u8>,
    wires: u64,
    cycles: u64,
    ws: &[u64],
    tests: &[PlacedTest],
) -> Result<(), NoMemory>
    requires few { sum ws.now < 2 ^ 64 }
    requires fits { the_busy_area ws.now tests.now < 2 ^ 128 }
    ensures { OnOk result
        (text.new.items ≡ text.old.items ++ wires_line wires cycles ws.now tests.now) }
{
    push_entry(text, b"wires ", wires)?;
    push_entry(text, b" used ", wires_used(ws))?;
    push_long(text, b" busy ", busy_area(ws, tests))?;
    push_long(text, b" of ", u128::from(wires) * u128::from(cycles))?;
    extend(text, b"\n")
}
