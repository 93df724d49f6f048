//! The text before the first cycle.
ghost use Rattle.std.specs.Prelude.{◌≡◌, ◌-◌, ◌++◌, length, codes, decimal, map, OnOk, IfOk};
ghost use Rattle.std.specs.List.{flat_map};
ghost use Rattle.tester_forms.specs.Pieces.{where_some};
ghost use Rattle.tester_forms.specs.StilText.{added as the_added, control_group as the_group, control_signal as the_signal, groups as the_groups, opening as the_opening, pattern_begin, quoted_byte as the_quoted, signals as the_signals, stil_head as the_head, title, waveforms as the_waveforms, wire_groups, wire_range, wire_signals};

use crate::push_signal;
use controls::Control;
use outside::{NoMemory, extend, push, push_number};
use std::alloc::Global;

/// A byte of a name within quotes.
fn quoted_byte(byte: u8) -> u8
    ensures { result ≡ the_quoted byte }
{
    if byte == b'"' { b'\'' } else { byte }
}

/// Appends a name within quotes.
fn push_quoted(text: &mut Vec<u8>, name: &[u8]) -> Result<(), NoMemory>
    ensures { OnOk result (text.new.items ≡ text.old.items ++ map the_quoted name.now) }
{
    for byte in name {
        push(text, quoted_byte(*byte))?;
    }
    Ok(())
}

/// Appends the name of a chip within quotes, or what stands for one.
fn push_title(text: &mut Vec<u8>, name: &[u8]) -> Result<(), NoMemory>
    ensures { OnOk result (text.new.items ≡ text.old.items ++ title name.now) }
{
    if name.is_empty() {
        return extend(text, b"soc");
    }
    push_quoted(text, name)
}

/// Appends what stands before the signals of wires and controls.
#[tactic(auto, unfolding(crate::specs::StilText::opening))]
fn push_opening(text: &mut Vec<u8>, name: &[u8]) -> Result<(), NoMemory>
    ensures { OnOk result (text.new.items ≡ text.old.items ++ the_opening name.now) }
{
    extend(text, b"STIL 1.0;\nHeader { Title \"")?;
    push_title(text, name)?;
    extend(text, b"\"; }\nSignals {\n  clock In;\n")
}

/// Appends the range of all wires.
#[tactic(auto, unfolding(crate::specs::StilText::wire_range))]
fn push_range(text: &mut Vec<u8>, wires: usize) -> Result<(), NoMemory>
    ensures { OnOk result (text.new.items ≡ text.old.items ++ wire_range wires) }
{
    extend(text, b"[0..")?;
    push_number(text, wires.saturating_sub(1) as u128)?;
    extend(text, b"]")
}

/// Appends the signals of the wires, where there are any.
#[tactic(auto, unfolding(crate::specs::StilText::wire_signals))]
fn push_wire_signals(text: &mut Vec<u8>, wires: usize) -> Result<(), NoMemory>
    ensures { OnOk result
        (text.new.items ≡ text.old.items ++ where_some wires (wire_signals wires)) }
{
    if wires == 0 {
        return Ok(());
    }
    extend(text, b"  wi")?;
    push_range(text, wires)?;
    extend(text, b" In;\n  wo")?;
    push_range(text, wires)?;
    extend(text, b" Out;\n")
}

/// Appends the signal of a control.
fn push_control_signal(text: &mut Vec<u8>, control: Control) -> Result<(), NoMemory>
    ensures { OnOk result (text.new.items ≡ text.old.items ++ the_signal control) }
{
    extend(text, b"  ")?;
    push_signal(text, control)?;
    extend(text, b" In;\n")
}

/// Appends the signals of wires and controls.
#[tactic(auto, unfolding(crate::specs::StilText::signals))]
fn push_signals(text: &mut Vec<u8>, wires: usize, controls: &[Control]) -> Result<(), NoMemory>
    ensures { OnOk result (text.new.items ≡ text.old.items ++ the_signals wires controls.now) }
{
    push_wire_signals(text, wires)?;
    for control in controls {
        push_control_signal(text, *control)?;
    }
    Ok(())
}

/// Appends the groups of the wires, where there are any.
#[tactic(auto, unfolding(crate::specs::StilText::wire_groups))]
fn push_wire_groups(text: &mut Vec<u8>, wires: usize) -> Result<(), NoMemory>
    ensures { OnOk result
        (text.new.items ≡ text.old.items ++ where_some wires (wire_groups wires)) }
{
    if wires == 0 {
        return Ok(());
    }
    extend(text, b"  i = 'wi")?;
    push_range(text, wires)?;
    extend(text, b"';\n  o = 'wo")?;
    push_range(text, wires)?;
    extend(text, b"';\n")
}

/// Appends controls behind another one of their group.
fn push_added(text: &mut Vec<u8>, controls: &[Control]) -> Result<(), NoMemory>
    ensures { OnOk result (text.new.items ≡ text.old.items ++ flat_map the_added controls.now) }
{
    for control in controls {
        extend(text, b" + ")?;
        push_signal(text, *control)?;
    }
    Ok(())
}

/// Appends the group of the controls, where there are any.
fn push_control_group(text: &mut Vec<u8>, controls: &[Control]) -> Result<(), NoMemory>
    ensures { OnOk result (text.new.items ≡ text.old.items ++ the_group controls.now) }
{
    let [first, others @ ..] = controls else {
        return Ok(());
    };
    extend(text, b"  c = '")?;
    push_signal(text, *first)?;
    push_added(text, others)?;
    extend(text, b"';\n")
}

/// Appends the groups of wires and of controls.
fn push_groups(text: &mut Vec<u8>, wires: usize, controls: &[Control]) -> Result<(), NoMemory>
    ensures { OnOk result (text.new.items ≡ text.old.items ++ the_groups wires controls.now) }
{
    extend(text, b"}\nSignalGroups {\n")?;
    push_wire_groups(text, wires)?;
    push_control_group(text, controls)?;
    extend(text, b"}\nTiming plan {\n")
}

/// Appends a text, where there is something that it speaks of.
fn push_where_some(text: &mut Vec<u8>, count: usize, piece: &[u8]) -> Result<(), NoMemory>
    ensures { OnOk result (text.new.items ≡ text.old.items ++ where_some count piece.now) }
{
    if count == 0 {
        return Ok(());
    }
    extend(text, piece)
}

/// Appends the waveforms of a cycle.
fn push_waveforms(text: &mut Vec<u8>, wires: usize, controls: usize) -> Result<(), NoMemory>
    ensures { OnOk result (text.new.items ≡ text.old.items ++ the_waveforms wires controls) }
{
    extend(
        text,
        b"  WaveformTable cycle {\n    Period '100ns';\n    Waveforms {\n      clock { P { '0ns' D; '50ns' U; '75ns' D; } }\n",
    )?;
    push_where_some(
        text,
        wires,
        b"      i { 01 { '0ns' D/U; } }\n      o { LHX { '40ns' L/H/X; } }\n",
    )?;
    push_where_some(text, controls, b"      c { 01 { '0ns' D/U; } }\n")?;
    extend(text, b"    }\n  }\n}\n")
}

/// Appends what stands directly before the vectors.
#[tactic(auto, unfolding(crate::specs::StilText::pattern_begin))]
fn push_pattern_begin(text: &mut Vec<u8>) -> Result<(), NoMemory>
    ensures { OnOk result (text.new.items ≡ text.old.items ++ pattern_begin) }
{
    extend(
        text,
        b"PatternBurst all { PatList { plan; } }\nPatternExec { Timing plan; PatternBurst all; }\nPattern plan {\n  W cycle;\n",
    )
}

/// The text before the first cycle, of a chip with a name and with these controls, under a plan with so many wires.
#[tactic(auto, unfolding(crate::specs::StilText::stil_head))]
pub fn stil_head(
    alloc: Global,
    name: &[u8],
    wires: usize,
    controls: &[Control],
) -> Result<Vec<u8>, NoMemory>
    ensures { IfOk result (λ head. head.items ≡ the_head name.now wires controls.now) }
{
    let mut text = Vec::new(alloc);
    push_opening(&mut text, name)?;
    push_signals(&mut text, wires, controls)?;
    push_groups(&mut text, wires, controls)?;
    push_waveforms(&mut text, wires, controls.len())?;
    push_pattern_begin(&mut text)?;
    Ok(text)
}
