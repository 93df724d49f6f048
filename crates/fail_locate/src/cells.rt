//! The cell that stands a given number of places from the end of a chain, of those whose bits are read.
ghost use Rattle.std.specs.Prelude.{◌≡◌, ◌+◌, ◌^◌, ◌<◌, ◌≤◌, ◌++◌, length, map, option_map, reverse, slice_get, take};
ghost use Rattle.std.specs.List.{All, flat_map, sum_by};
ghost use Rattle.soc_model.specs.Chips.{module_value};
ghost use Rattle.plan_model.specs.Cells.{IsProper, chain_cells, flops, out_cells};
ghost use Rattle.plan_model.specs.Listing.{module_size};
ghost use Rattle.plan_model.specs.Views.{chain_value};
ghost use Rattle.plan_model.specs.declared.ChainPlan.{ChainPlan};
ghost use Rattle.fail_locate.specs.Spots.{cell_value};
ghost use Rattle.fail_locate.specs.Chains.{IsFromEnd, cells_at};

use crate::Cell;
use plan_model::{ChainPlan, Wrapper};
use soc_model::{Module, mode_chains};

/// The output cells of the chains before one.
fn outs_before(chains: &[ChainPlan], chain: usize) -> u64
    requires chain { chain ≤ length chains.now }
    requires fits { sum_by (λ (c : ChainPlan). c.outs) chains.now < 2 ^ 63 }
    ensures { result ≡ sum_by (λ (c : ChainPlan). c.outs) (take chain chains.now) }
{
    let mut outs = 0;
    for place in 0..chain {
        outs += chains[place].outs;
    }
    outs
}

/// The flop that is `shifts` places from the end of scan chains, one behind the other.
fn flop_from_end(lengths: &[u64], scans: &[u64], shifts: u64) -> Option<Cell>
    requires { All (λ c. c < length lengths.now) scans.now }
    ensures { option_map cell_value result
        ≡ slice_get (reverse (flat_map (flops lengths.now) scans.now)) shifts }
{
    let mut left = shifts;
    let mut place = scans.len();
    while place > 0 {
        place -= 1;
        let scan = scans[place] as usize;
        let flops = lengths[scan];
        if left < flops {
            return Some(Cell::Flop {
                chain: scan,
                place: flops - 1 - left,
            });
        }
        left -= flops;
    }
    None
}

/// The cell that is `shifts` places from the end of a chain, of its flops and its output cells; these are numbered from
/// `outs_from` on.
fn read_from_end(lengths: &[u64], chain: &ChainPlan, outs_from: u64, shifts: u64) -> Option<Cell>
    requires listed { All (λ c. c < length lengths.now) chain.now.scans.items }
    requires fits { outs_from + chain.now.outs < 2 ^ 64 }
    ensures { option_map cell_value result
        ≡ slice_get
        (reverse (flat_map (flops lengths.now) chain.now.scans.items
        ++ out_cells outs_from chain.now.outs)) shifts }
{
    if shifts < chain.outs {
        let number = outs_from + (chain.outs - 1 - shifts);
        return Some(Cell::Out { number });
    }
    flop_from_end(lengths, &chain.scans, shifts - chain.outs)
}

/// The cell whose bit a chain of a wrapper shows `shifts` Shifts after a capture. None comes exactly where the chain has no
/// cell there that is read.
pub fn cell_shown(module: &Module, wrapper: &Wrapper, chain: usize, shifts: u64) -> Option<Cell>
    requires proper { IsProper (module_value «module».now) wrapper.now.scan
        (map chain_value wrapper.now.chains.items) }
    requires small { module_size (module_value «module».now) ≤ 10 ^ 18 }
    ensures { IsFromEnd
        (cells_at
        (chain_cells (module_value «module».now) wrapper.now.scan
        (map chain_value wrapper.now.chains.items)) chain) shifts result }
{
    if chain >= wrapper.chains.len() {
        return None;
    }
    let lengths = mode_chains(module, wrapper.scan);
    let outs_from = outs_before(&wrapper.chains, chain);
    read_from_end(lengths, &wrapper.chains[chain], outs_from, shifts)
}
