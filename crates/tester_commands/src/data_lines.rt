//! The lines that refuse test data.
ghost use Rattle.std.specs.Prelude.{◌≡◌, IfOk, IsTrue};
ghost use Rattle.commands.specs.Texts.{is_line, no_feed};
ghost use Rattle.tester_commands.specs.DataLines.{bits_line as bits_line_text, data_line as data_line_text, misfit_line as misfit_line_text};

use commands::{number_line, push_decimal, push_test, push_text};
use outside::NoMemory;
use soc_model::TestId;
use std::alloc::Global;
use test_data::Misfit;

/// `refused data line` and the line.
pub(crate) fn data_line(alloc: Global, line: u64) -> Result<Vec<u8>, NoMemory>
    ensures text { IfOk result (λ text. text.items ≡ data_line_text line) }
    ensures line { IfOk result (λ text. IsTrue (is_line text.items)) }
{
    number_line(alloc, b"refused data line ", u128::from(line))
}

/// `refused data test` and a test.
fn test_line(alloc: Global, test: TestId) -> Result<Vec<u8>, NoMemory>
    ensures text { IfOk result (λ text. text.items ≡ misfit_line_text (Misfit.Test test)) }
    ensures line { IfOk result (λ text. IsTrue (is_line text.items)) }
{
    let mut text = Vec::new(alloc);
    push_text(&mut text, b"refused data test ")?;
    push_test(&mut text, &test)?;
    push_text(&mut text, b"\n")?;
    Ok(text)
}

/// `refused data patterns`, a test and how many patterns are wanted.
fn patterns_line(alloc: Global, test: TestId, wanted: u64) -> Result<Vec<u8>, NoMemory>
    ensures text { IfOk result
        (λ text. text.items ≡ misfit_line_text (Misfit.Patterns test wanted)) }
    ensures line { IfOk result (λ text. IsTrue (is_line text.items)) }
{
    let mut text = Vec::new(alloc);
    push_text(&mut text, b"refused data patterns ")?;
    push_test(&mut text, &test)?;
    push_text(&mut text, b" ")?;
    push_decimal(&mut text, u128::from(wanted))?;
    push_text(&mut text, b"\n")?;
    Ok(text)
}

/// `refused data bits`, a test, a pattern, the side of the word and how many bits are wanted.
fn bits_line(
    alloc: Global,
    test: TestId,
    pattern: u64,
    side: &[u8],
    wanted: u128,
) -> Result<Vec<u8>, NoMemory>
    requires { IsTrue (no_feed side.now) }
    ensures text { IfOk result (λ text. text.items ≡ bits_line_text test pattern side.now wanted) }
    ensures line { IfOk result (λ text. IsTrue (is_line text.items)) }
{
    let mut text = Vec::new(alloc);
    push_text(&mut text, b"refused data bits ")?;
    push_test(&mut text, &test)?;
    push_text(&mut text, b" ")?;
    push_decimal(&mut text, u128::from(pattern))?;
    push_text(&mut text, side)?;
    push_decimal(&mut text, wanted)?;
    push_text(&mut text, b"\n")?;
    Ok(text)
}

/// `refused data` and what shows first that the data doesn't suit a chip.
pub(crate) fn misfit_line(alloc: Global, misfit: Misfit) -> Result<Vec<u8>, NoMemory>
    ensures text { IfOk result (λ text. text.items ≡ misfit_line_text misfit) }
    ensures line { IfOk result (λ text. IsTrue (is_line text.items)) }
{
    match misfit {
        Misfit::Test { test } => test_line(alloc, test),
        Misfit::Patterns { test, wanted } => patterns_line(alloc, test, wanted),
        Misfit::Load {
            test,
            pattern,
            wanted,
        } => bits_line(alloc, test, pattern, b" load ", wanted),
        Misfit::Unload {
            test,
            pattern,
            wanted,
        } => bits_line(alloc, test, pattern, b" unload ", wanted),
    }
}
