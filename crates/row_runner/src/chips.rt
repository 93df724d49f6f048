//! A whole chip under an accepted plan, stepped by itself.
ghost use Rattle.std.specs.Prelude.{◌≡◌, ◌+◌, ◌<◌, ◌≤◌, length, IfOk};
ghost use Rattle.soc_model.specs.Chips.{soc_value};
ghost use Rattle.soc_model.specs.SoundChips.{IsSoundChip};
ghost use Rattle.plan_model.specs.Rules.{IsGoodAlone};
ghost use Rattle.plan_model.specs.Views.{plan_value};
ghost use Rattle.vector_lines.specs.Wires.{wires_of};
ghost use Rattle.row_runner.specs.Widths.{IsWide};

use bit_machine::Chip;
use live_tests::all_wires;
use outside::{NoMemory, extend, push, push_number};
use plan_model::Plan;
use soc_model::Soc;
use std::alloc::Global;

/// What stands on the wires at a cycle.
#[derive(Drop)]
pub struct Wires {
    /// The bits that are driven.
    pub drive: Vec<bool>,
    /// Where a response bit is read.
    pub care: Vec<bool>,
    /// The bits that are shown.
    pub read: Vec<bool>,
}

/// `count` bits, all 0.
fn zero_bits(alloc: Global, count: usize) -> Result<Vec<bool>, NoMemory>
    ensures { IfOk result (λ bits. length bits.items ≡ count) }
{
    Ok(vec![in alloc; false; count]?)
}

impl Wires {
    /// `count` wires, with all bits 0.
    fn new(alloc: Global, count: usize) -> Result<Wires, NoMemory>
        ensures { IfOk result (λ wires. IsWide count wires) }
    {
        Ok(Wires {
            drive: zero_bits(alloc, count)?,
            care: zero_bits(alloc, count)?,
            read: zero_bits(alloc, count)?,
        })
    }
}

/// Appends `0` or `1` where there is a bit, else `-`.
fn push_mark(text: &mut Vec<u8>, mark: Option<bool>) -> Result<(), NoMemory> {
    let digit = match mark {
        Some(true) => b'1',
        Some(false) => b'0',
        None => b'-',
    };
    push(text, digit)
}

/// Appends the bits of the wires.
fn push_bits(text: &mut Vec<u8>, bits: &[bool]) -> Result<(), NoMemory> {
    for bit in bits {
        push_mark(text, Some(*bit))?;
    }
    Ok(())
}

/// Appends the bit of each wire that is compared, else `-`.
fn push_compared(text: &mut Vec<u8>, care: &[bool], bits: &[bool]) -> Result<(), NoMemory>
    requires { length care.now ≡ length bits.now }
{
    for wire in 0..care.len() {
        let mark = if care[wire] { Some(bits[wire]) } else { None };
        push_mark(text, mark)?;
    }
    Ok(())
}

/// One cycle of the chip, driven with the bits that its wires want. Appends its line, in the form of a line of vectors.
fn push_cycle(text: &mut Vec<u8>, chip: &mut Chip<'_>, wires: &mut Wires) -> Result<(), NoMemory>
    requires left { chip.old.cycle < chip.old.plan.cycles }
    requires wide { IsWide (wires_of chip.old.plan) wires.old }
    ensures plan { chip.new.plan ≡ chip.old.plan }
    ensures cycle { chip.new.cycle ≡ chip.old.cycle + 1 }
    ensures wide { IsWide (wires_of chip.old.plan) wires.new }
{
    chip.want(&mut wires.drive);
    chip.compared(&mut wires.care);
    chip.cycle(&wires.drive, &mut wires.read);
    push_bits(text, &wires.drive)?;
    push(text, b' ')?;
    push_compared(text, &wires.care, &wires.read)?;
    push(text, b'\n')
}

/// The lines of all cycles of an accepted plan, by the stepped chip, and how many of its captures found their stimulus.
pub fn run_of_chip(alloc: Global, soc: &Soc, plan: &Plan, seed: u64) -> Result<Vec<u8>, NoMemory>
    requires sound { IsSoundChip (soc_value soc.now) }
    requires good { IsGoodAlone (soc_value soc.now) (plan_value plan.now) }
    requires narrow { wires_of (plan_value plan.now) ≤ 256 }
{
    let mut wires = Wires::new(alloc, all_wires(plan) as usize)?;
    let mut chip = Chip::new(alloc, soc, plan, seed)?;
    let mut text = Vec::new(alloc);
    for _cycle in 0..plan.cycles {
        push_cycle(&mut text, &mut chip, &mut wires)?;
    }
    let report = chip.report();
    push_number(&mut text, u128::from(report.right_loads))?;
    extend(&mut text, b" of ")?;
    push_number(&mut text, u128::from(report.captures))?;
    extend(&mut text, b" right")?;
    Ok(text)
}
