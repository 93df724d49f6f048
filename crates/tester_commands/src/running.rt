//! A whole chip is stepped through its plan.
ghost use Rattle.std.specs.Prelude.{◌≡◌, ℕ, ◌+◌, ◌<◌, ◌≤◌, length, IfOk};
ghost use Rattle.soc_model.specs.Chips.{SocValue};
ghost use Rattle.plan_model.specs.Plans.{PlanValue};
ghost use Rattle.plan_model.specs.Rules.{IsGoodAlone};
ghost use Rattle.vector_lines.specs.Wires.{wires_of};
ghost use Rattle.tester_commands.specs.SteppedChips.{IsAfter};

use bit_machine::Chip;
use live_tests::{PlacedPlan, all_wires};
use outside::NoMemory;
use std::alloc::Global;

/// `count` bits, all 0.
fn zero_bits(alloc: Global, count: usize) -> Result<Vec<bool>, NoMemory>
    ensures { IfOk result (λ bits. length bits.items ≡ count) }
{
    Ok(vec![in alloc; false; count]?)
}

/// One cycle of a chip, whose wires carry what its tests want. Each list has a bit for each wire: what is driven, and what is
/// shown.
fn run_cycle(chip: &mut Chip<'_>, drive: &mut [bool], read: &mut [bool])
    requires left { chip.old.cycle < chip.old.plan.cycles }
    requires driven { length drive.old ≡ wires_of chip.old.plan }
    requires shown { length read.old ≡ wires_of chip.old.plan }
    ensures { (soc : SocValue) (plan : PlanValue) (seed cycle : ℕ) → IsGoodAlone soc plan →
        IsAfter soc plan seed cycle chip.old → IsAfter soc plan seed (cycle + 1) chip.new }
{
    chip.want(drive);
    chip.cycle(drive, read);
}

/// Steps a chip with the made contents of a seed through its whole plan, and answers it as it is after the last cycle: its bits are
/// those of the plan's own run, and it has counted the captures of all cycles.
pub(crate) fn run_plan<'a>(
    alloc: Global,
    placed: &PlacedPlan<'a>,
    seed: u64,
) -> Result<Chip<'a>, NoMemory>
    requires good { IsGoodAlone placed.now.soc placed.now.plan }
    requires narrow { wires_of placed.now.plan ≤ 256 }
    ensures { IfOk result (IsAfter placed.now.soc placed.now.plan seed placed.now.plan.cycles) }
{
    let wires = all_wires(placed.plan) as usize;
    let mut drive = zero_bits(alloc, wires)?;
    let mut read = zero_bits(alloc, wires)?;
    let mut chip = Chip::of(alloc, placed, seed)?;
    for _cycle in 0..placed.plan.cycles {
        run_cycle(&mut chip, &mut drive, &mut read);
    }
    Ok(chip)
}
