//! The wrapper of a dealing, and whether it is as good as the one that is designed.
ghost use Rattle.std.specs.Prelude.{◌≡◌, true};
ghost use Rattle.soc_model.specs.Chips.{module_value};
ghost use Rattle.plan_model.specs.Views.{wrapper_value};
ghost use Rattle.packed_wrappers.specs.Times.{HasShortTests, IsProperWrapper, IsShortWrapper, time_within};

use crate::cells::ModeCells;
use crate::choices::PackedChoice;
use crate::dealer::Dealer;
use outside::{NoMemory, push};
use plan_model::{ChainPlan, Wrapper, is_proper, tam_duration};
use soc_model::{Module, is_of_mode};
use std::alloc::Global;

/// The places of the scan chains that a wrapper chain has, longest first, and their lengths together.
fn part_of(
    alloc: Global,
    cells: &ModeCells,
    dealer: &Dealer,
    chain: usize,
) -> Result<(Vec<u64>, u64), NoMemory> {
    let mut scans = Vec::new(alloc);
    let mut part: u64 = 0;
    for (rank, place) in cells.places.iter().enumerate() {
        if dealer.chain_of(rank) == chain {
            push(&mut scans, *place)?;
            part = part.saturating_add(cells.length(rank));
        }
    }
    Ok((scans, part))
}

/// The chains of the best dealing, filled in order with input cells up to the `si` of a choice and output cells up to its `so`.
fn dealt_chains(
    alloc: Global,
    cells: &ModeCells,
    dealer: &Dealer,
    choice: &PackedChoice,
) -> Result<Vec<ChainPlan>, NoMemory> {
    let mut chains = Vec::new(alloc);
    let mut in_left = cells.ins;
    let mut out_left = cells.outs;
    for chain in 0..choice.width {
        let (scans, part) = part_of(alloc, cells, dealer, chain as usize)?;
        let ins = choice.si.saturating_sub(part).min(in_left);
        let outs = choice.so.saturating_sub(part).min(out_left);
        push(&mut chains, ChainPlan { ins, scans, outs })?;
        in_left = in_left.saturating_sub(ins);
        out_left = out_left.saturating_sub(outs);
    }
    Ok(chains)
}

/// The wrapper of a choice for a mode of the module, dealt as for the table: with the work that was left then.
pub(crate) fn dealt_wrapper(
    alloc: Global,
    module: &Module,
    scan: bool,
    choice: &PackedChoice,
) -> Result<Wrapper, NoMemory> {
    let cells = ModeCells::new(alloc, module, scan)?;
    let width = choice.width as usize;
    let mut dealer = Dealer::new(alloc, cells.count(), width, choice.budget)?;
    dealer.deal_scans(&cells, width, cells.low(width));
    let chains = dealt_chains(alloc, &cells, &dealer, choice)?;
    Ok(Wrapper {
        module: module.number,
        scan,
        chains,
    })
}

/// The cycles of the tests of a proper wrapper's mode in it, together.
pub(crate) fn cycles_in(module: &Module, wrapper: &Wrapper) -> u128
    requires proper { IsProperWrapper (module_value «module».now) (wrapper_value wrapper.now) }
    requires work { HasShortTests (module_value «module».now) }
    ensures { result ≡ time_within (module_value «module».now) (wrapper_value wrapper.now) }
{
    let mut cycles: u128 = 0;
    for test in &module.tests {
        if is_of_mode(test, wrapper.scan) {
            cycles += u128::from(tam_duration(module, wrapper, test));
        }
    }
    cycles
}

/// Whether a wrapper is a proper one for a mode of the module, of 1 to `width` chains, in which the mode's tests take at most `most`
/// cycles together.
pub(crate) fn is_short(
    module: &Module,
    scan: bool,
    width: u64,
    most: u128,
    wrapper: &Wrapper,
) -> bool
    requires { HasShortTests (module_value «module».now) }
    ensures { result ≡ true →
        IsShortWrapper (module_value «module».now) scan width most (wrapper_value wrapper.now) }
{
    if wrapper.module != module.number {
        return false;
    }
    if wrapper.scan != scan {
        return false;
    }
    let chains = wrapper.chains.len() as u64;
    if chains < 1 {
        return false;
    }
    if chains > width {
        return false;
    }
    if !is_proper(module, wrapper) {
        return false;
    }
    cycles_in(module, wrapper) <= most
}
