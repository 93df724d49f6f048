//! Steps over the buses of an architecture, each by itself: the planner makes them in rounds.
ghost use Rattle.std.specs.Prelude.{◌≡◌, ◌≤◌, IfOk};
ghost use Rattle.soc_model.specs.Chips.{soc_value};
ghost use Rattle.soc_model.specs.SoundChips.{IsSoundChip};
ghost use Rattle.bus_model.specs.Buses.{arch_value};
ghost use Rattle.bus_model.specs.Sound.{IsSoundArch};

use crate::held::chip_of;
use crate::lines::{count_of, part};
use crate::rig::Rig;
use arch_settle::{bottom_up, reshuffle, settle, top_down};
use bus_model::{Arch, cost, spread, start_solution};
use outside::{NoMemory, copied, extend, push_number};
use soc_model::Soc;
use std::alloc::Global;
use width_table::WidthTable;

/// The most wires of a table.
const WIRES_MOST: u64 = 256;

/// The start solution for `first` of the wires of a table, with the other wires given to its buses.
fn start_for(alloc: Global, soc: &Soc, table: &WidthTable<'_>, first: u64) -> Result<Arch, NoMemory>
    requires sound { IsSoundChip (soc_value soc.now) }
    requires table { table.now.soc ≡ soc_value soc.now }
    requires some { 1 ≤ first }
    requires within { first ≤ table.now.wires }
    ensures { IfOk result (λ arch. IsSoundArch table.now (arch_value arch)) }
{
    let wires = table.wires();
    let mut arch = start_solution(alloc, &WidthTable::new(alloc, soc, first)?)?;
    if !arch.buses.is_empty() {
        spread(table, &mut arch, wires - first);
    }
    Ok(arch)
}

/// What a kind of step makes of an architecture.
fn after_step(
    alloc: Global,
    table: &WidthTable<'_>,
    arch: Arch,
    step: &str,
) -> Result<Arch, NoMemory>
    requires { IsSoundArch table.now (arch_value arch) }
    ensures { IfOk result (λ next. IsSoundArch table.now (arch_value next)) }
{
    match step {
        "bottom_up" => bottom_up(alloc, table, arch),
        "top_down" => top_down(alloc, table, arch),
        "reshuffle" => reshuffle(alloc, table, arch),
        "settle" => settle(alloc, table, arch),
        _ => Ok(arch),
    }
}

/// Appends the cycles of an architecture and its buses, each by its width and the places of its modules.
fn push_arch(text: &mut Vec<u8>, table: &WidthTable<'_>, arch: &Arch) -> Result<(), NoMemory>
    requires { IsSoundArch table.now (arch_value arch.now) }
{
    push_number(text, u128::from(cost(table, arch)))?;
    for bus in &arch.buses {
        extend(text, b" | ")?;
        push_number(text, u128::from(bus.width))?;
        extend(text, b" :")?;
        for place in &bus.places {
            extend(text, b" ")?;
            push_number(text, *place as u128)?;
        }
    }
    Ok(())
}

/// The start solution for `first` of `wires` wires, with the other wires given to its buses, and what a kind of step makes of it.
fn text_of_step(
    alloc: Global,
    soc: &Soc,
    first: u64,
    wires: u64,
    step: &str,
) -> Result<Vec<u8>, NoMemory>
    requires sound { IsSoundChip (soc_value soc.now) }
    requires some { 1 ≤ first }
    requires within { first ≤ wires }
    requires few { wires ≤ 256 }
{
    let table = WidthTable::new(alloc, soc, wires)?;
    let arch = start_for(alloc, soc, &table, first)?;
    let mut text = Vec::new(alloc);
    push_arch(&mut text, &table, &arch)?;
    let next = after_step(alloc, &table, arch, step)?;
    extend(&mut text, b" then ")?;
    push_arch(&mut text, &table, &next)?;
    Ok(text)
}

/// `buses STEP FIRST WIRES`: what a kind of step (bottom_up, top_down, reshuffle, settle) makes of the buses of the start
/// solution of the chip of SOC for FIRST wires, to which the others of the WIRES are given. Each is printed by its cycles and buses.
pub fn cycles_of_steps(rig: &Rig, words: &str) -> Result<Vec<u8>, NoMemory> {
    let Some(soc) = chip_of(rig) else {
        return copied(rig.alloc(), b"no chip");
    };
    let (step, numbers) = part(words.trim());
    let (first, wires) = part(numbers);
    let first = count_of(first);
    let wires = count_of(wires);
    if first < 1 || first > wires || wires > WIRES_MOST {
        return copied(rig.alloc(), b"no wires");
    }
    text_of_step(rig.alloc(), &soc, first, wires, step)
}
