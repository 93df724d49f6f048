//! The task that runs a cycle.
ghost use Rattle.std.specs.Prelude.{◌≡◌, ◌++◌, OnOk, replicate};
ghost use Rattle.tester_forms.specs.Pieces.{where_some};
ghost use Rattle.tester_forms.specs.VerilogText.{comparison, control_inputs, inputs as the_inputs, number, steps as the_steps, task as the_task, wire_inputs};

use crate::verilog_pushes::{push_declared, push_size, push_where_none, push_where_some};
use outside::{NoMemory, extend, push};

/// Appends the inputs for the wires, where there are any.
fn push_wire_inputs(text: &mut Vec<u8>, wires: usize) -> Result<(), NoMemory>
    ensures { OnOk result
        (text.new.items ≡ text.old.items ++ where_some wires (wire_inputs wires)) }
{
    if wires == 0 {
        return Ok(());
    }
    push_declared(text, b"    input ", wires, b" drive;\n")?;
    push_declared(text, b"    input ", wires, b" want;\n")?;
    push_declared(text, b"    input ", wires, b" care;\n")
}

/// Appends the input for the controls, where there are any.
fn push_control_inputs(text: &mut Vec<u8>, controls: usize) -> Result<(), NoMemory>
    ensures { OnOk result
        (text.new.items ≡ text.old.items ++ where_some controls (control_inputs controls)) }
{
    if controls == 0 {
        return Ok(());
    }
    push_declared(text, b"    input ", controls, b" controls;\n")
}

/// Appends what the task takes.
fn push_inputs(text: &mut Vec<u8>, wires: usize, controls: usize) -> Result<(), NoMemory>
    ensures { OnOk result (text.new.items ≡ text.old.items ++ the_inputs wires controls) }
{
    extend(text, b"  task v;\n")?;
    push_wire_inputs(text, wires)?;
    push_control_inputs(text, controls)?;
    push_where_none(text, wires, controls, b"    input nothing;\n")
}

/// Appends the digit 0 as often as there are wires.
fn push_zeros(text: &mut Vec<u8>, wires: usize) -> Result<(), NoMemory>
    ensures { OnOk result (text.new.items ≡ text.old.items ++ replicate wires 48) }
{
    for _wire in 0..wires {
        push(text, b'0')?;
    }
    Ok(())
}

/// Appends the number 0 of so many bits.
fn push_zero(text: &mut Vec<u8>, wires: usize) -> Result<(), NoMemory>
    ensures { OnOk result (text.new.items ≡ text.old.items ++ number (replicate wires 48)) }
{
    push_size(text, wires)?;
    push_zeros(text, wires)
}

/// Appends the comparison of the wires, where there are any.
fn push_comparison(text: &mut Vec<u8>, wires: usize) -> Result<(), NoMemory>
    ensures { OnOk result (text.new.items ≡ text.old.items ++ where_some wires (comparison wires)) }
{
    if wires == 0 {
        return Ok(());
    }
    extend(text, b"      if (((wo ^ want) & care) !== ")?;
    push_zero(text, wires)?;
    extend(text, b") begin\n        failed = failed + 1;\n")?;
    extend(
        text,
        b"        $display(\"cycle %0d shows %b, wanted %b where %b\", cycle, wo, want, care);\n      end\n",
    )
}

/// Appends what the task does.
fn push_steps(text: &mut Vec<u8>, wires: usize, controls: usize) -> Result<(), NoMemory>
    ensures { OnOk result (text.new.items ≡ text.old.items ++ the_steps wires controls) }
{
    extend(text, b"    begin\n")?;
    push_where_some(text, wires, b"      wi = drive;\n")?;
    push_where_some(text, controls, b"      control = controls;\n")?;
    extend(text, b"      #40;\n")?;
    push_comparison(text, wires)?;
    extend(
        text,
        b"      #10 clock = 1;\n      #25 clock = 0;\n      #25 cycle = cycle + 1;\n    end\n  endtask\n",
    )
}

/// Appends the task.
pub fn push_task(text: &mut Vec<u8>, wires: usize, controls: usize) -> Result<(), NoMemory>
    ensures { OnOk result (text.new.items ≡ text.old.items ++ the_task wires controls) }
{
    push_inputs(text, wires, controls)?;
    push_steps(text, wires, controls)
}
