//! The line that is written of a run.
ghost use Rattle.std.specs.Prelude.{◌≡◌, IfOk};
ghost use Rattle.tester_commands.specs.RunCounts.{counts_line as counts_text};

use bit_machine::Report;
use commands::{push_decimal, push_text};
use outside::NoMemory;
use std::alloc::Global;

/// `cycles C captures N loaded M`: what a chip under test has done.
pub(crate) fn counts_line(alloc: Global, report: Report) -> Result<Vec<u8>, NoMemory>
    ensures { IfOk result
        (λ text. text.items ≡ counts_text report.cycle report.captures report.right_loads) }
{
    let mut text = Vec::new(alloc);
    push_text(&mut text, b"cycles ")?;
    push_decimal(&mut text, u128::from(report.cycle))?;
    push_text(&mut text, b" captures ")?;
    push_decimal(&mut text, u128::from(report.captures))?;
    push_text(&mut text, b" loaded ")?;
    push_decimal(&mut text, u128::from(report.right_loads))?;
    push_text(&mut text, b"\n")?;
    Ok(text)
}
