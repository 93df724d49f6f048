//! The text before the first cycle.
ghost use Rattle.std.specs.Prelude.{◌≡◌, IfOk};
ghost use Rattle.tester_forms.specs.VerilogText.{verilog_head as the_head};

use crate::verilog_chip::push_chip;
use crate::verilog_task::push_task;
use controls::Control;
use outside::{NoMemory, extend};
use std::alloc::Global;

/// The text before the first cycle, of a chip with these controls under a plan with so many wires.
pub fn verilog_head(alloc: Global, wires: usize, controls: &[Control]) -> Result<Vec<u8>, NoMemory>
    ensures { IfOk result (λ head. head.items ≡ the_head wires controls.now) }
{
    let mut text = Vec::new(alloc);
    push_chip(&mut text, wires, controls)?;
    push_task(&mut text, wires, controls.len())?;
    extend(
        &mut text,
        b"  initial begin\n    clock = 0;\n    cycle = 0;\n    failed = 0;\n",
    )?;
    Ok(text)
}
