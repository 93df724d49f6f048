//! The signals, and the chip with its ports.
ghost use Rattle.std.specs.Prelude.{◌≡◌, ◌+◌, ◌≤◌, ◌^◌, ◌++◌, OnOk, length};
ghost use Rattle.tester_forms.specs.Pieces.{where_some};
ghost use Rattle.tester_forms.specs.VerilogText.{chip as the_chip, control_port, control_ports, control_signals, wire_signals};

use crate::push_signal;
use crate::verilog_pushes::{push_declared, push_where_some};
use controls::Control;
use outside::{NoMemory, extend, push_number};

/// Appends the signals of the wires, where there are any.
fn push_wire_signals(text: &mut Vec<u8>, wires: usize) -> Result<(), NoMemory>
    ensures { OnOk result
        (text.new.items ≡ text.old.items ++ where_some wires (wire_signals wires)) }
{
    if wires == 0 {
        return Ok(());
    }
    push_declared(text, b"  reg ", wires, b" wi;\n")?;
    push_declared(text, b"  wire ", wires, b" wo;\n")
}

/// Appends the signals of the controls, where there are any.
fn push_control_signals(text: &mut Vec<u8>, controls: usize) -> Result<(), NoMemory>
    ensures { OnOk result
        (text.new.items ≡ text.old.items ++ where_some controls (control_signals controls)) }
{
    if controls == 0 {
        return Ok(());
    }
    push_declared(text, b"  reg ", controls, b" control;\n")
}

/// Appends the port of the control at a place.
fn push_port(text: &mut Vec<u8>, place: usize, control: Control) -> Result<(), NoMemory>
    ensures { OnOk result (text.new.items ≡ text.old.items ++ control_port place control) }
{
    extend(text, b",\n    .")?;
    push_signal(text, control)?;
    extend(text, b"(control[")?;
    push_number(text, place as u128)?;
    extend(text, b"])")
}

/// Appends the ports of the controls.
fn push_ports(text: &mut Vec<u8>, controls: &[Control]) -> Result<(), NoMemory>
    ensures { OnOk result (text.new.items ≡ text.old.items ++ control_ports 0 controls.now) }
{
    for (place, control) in controls.iter().enumerate() {
        push_port(text, place, *control)?;
    }
    Ok(())
}

/// Appends the signals, and the chip with its ports.
pub fn push_chip(text: &mut Vec<u8>, wires: usize, controls: &[Control]) -> Result<(), NoMemory>
    ensures { OnOk result (text.new.items ≡ text.old.items ++ the_chip wires controls.now) }
{
    extend(text, b"`timescale 1ns/1ns\nmodule bench;\n  reg clock;\n")?;
    push_wire_signals(text, wires)?;
    push_control_signals(text, controls.len())?;
    extend(
        text,
        b"  integer cycle, failed;\n  chip dut (\n    .clock(clock)",
    )?;
    push_where_some(text, wires, b",\n    .wi(wi),\n    .wo(wo)")?;
    push_ports(text, controls)?;
    extend(text, b"\n  );\n")
}
