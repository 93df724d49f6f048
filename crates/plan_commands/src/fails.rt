//! The text of `locate`.
ghost use Rattle.std.specs.Prelude.{◌≡◌, ◌++◌, IfOk, OnOk};
ghost use Rattle.plan_commands.specs.LocateText.{cell_text, fail_line, locate_text as whole_text, spot_text};

use commands::{push_decimal, push_test, push_text};
use fail_locate::{Cell, Locator, Spot};
use live_tests::PlacedPlan;
use outside::NoMemory;
use std::alloc::Global;

/// Appends a cell.
fn push_cell(text: &mut Vec<u8>, cell: Cell) -> Result<(), NoMemory>
    ensures { OnOk result (text.new.items ≡ text.old.items ++ cell_text cell) }
{
    match cell {
        Cell::Flop { chain, place } => {
            push_text(text, b"flop ")?;
            push_decimal(text, chain as u128)?;
            push_text(text, b".")?;
            push_decimal(text, u128::from(place))
        }
        Cell::Out { number } => {
            push_text(text, b"out ")?;
            push_decimal(text, u128::from(number))
        }
    }
}

/// Appends what is read, `none` where nothing is.
fn push_spot(text: &mut Vec<u8>, found: Option<Spot>) -> Result<(), NoMemory>
    ensures { OnOk result (text.new.items ≡ text.old.items ++ spot_text found) }
{
    let Some(spot) = found else {
        return push_text(text, b"none");
    };
    push_test(text, &spot.test)?;
    push_text(text, b" pattern ")?;
    push_decimal(text, u128::from(spot.pattern))?;
    push_text(text, b" ")?;
    push_cell(text, spot.cell)
}

/// Appends the line of a fail.
fn push_fail(
    text: &mut Vec<u8>,
    locator: &Locator<'_>,
    cycle: u64,
    wire: u64,
) -> Result<(), NoMemory>
    ensures { OnOk result (text.new.items
        ≡ text.old.items ++ fail_line locator.now.soc locator.now.plan (cycle, wire)) }
{
    push_decimal(text, u128::from(cycle))?;
    push_text(text, b" ")?;
    push_decimal(text, u128::from(wire))?;
    push_text(text, b" ")?;
    push_spot(text, locator.spot(cycle, wire))?;
    push_text(text, b"\n")
}

/// The text of `locate`: for each fail of a log, its cycle and its wire, the test, the pattern and the cell whose response bit
/// a good plan reads there, or `none`.
pub fn locate_text(
    alloc: Global,
    placed: &PlacedPlan<'_>,
    fails: &[(u64, u64)],
) -> Result<Vec<u8>, NoMemory>
    ensures { IfOk result
        (λ text. text.items ≡ whole_text placed.now.soc placed.now.plan fails.now) }
{
    let locator = Locator::of(alloc, placed)?;
    let mut text = Vec::new(alloc);
    for (cycle, wire) in fails {
        push_fail(&mut text, &locator, *cycle, *wire)?;
    }
    Ok(text)
}
