//! How the cells of a module stand in the chains of a wrapper, and where their bits stand in a response.
ghost use Rattle.std.specs.Prelude.{◌≡◌, ◌^◌, ◌≤◌, map, IfOk};
ghost use Rattle.std.specs.List.{sum};
ghost use Rattle.soc_model.specs.Chips.{module_value};
ghost use Rattle.soc_model.specs.Modes.{scan_lengths};
ghost use Rattle.plan_model.specs.Cells.{IsProper};
ghost use Rattle.plan_model.specs.Listing.{module_size};
ghost use Rattle.plan_model.specs.Views.{chain_value};
ghost use Rattle.vector_lines.specs.Layouts.{IsLayout, IsStarts};

use outside::{NoMemory, copied, push};
use plan_model::{ChainPlan, Wrapper};
use soc_model::{Module, mode_chains};
use std::alloc::Global;

/// How the cells of a module stand in the chains of a wrapper, and where their bits stand in a response.
#[derive(Drop)]
pub struct Layout {
    /// The lengths of the scan chains of the mode, in cells.
    pub lengths: Vec<u64>,
    /// For each scan chain, the bits of a response before those of its cells.
    pub starts: Vec<usize>,
    /// The bits of a response before those of the output cells.
    pub flops: usize,
    /// The chains of the wrapper.
    pub chains: Vec<ChainPlan>,
}

/// The lengths of the scan chains that a mode of a module has: none over the terminals alone.
fn lengths_of(alloc: Global, module: &Module, scan: bool) -> Result<Vec<u64>, NoMemory>
    ensures { IfOk result
        (λ lengths. lengths.items ≡ scan_lengths (module_value «module».now) scan) }
{
    copied(alloc, mode_chains(module, scan))
}

/// For each scan chain, the lengths of those before it together, and the lengths of all.
fn starts_of(alloc: Global, lengths: &[u64]) -> Result<(Vec<usize>, usize), NoMemory>
    requires { sum lengths.now ≤ 10 ^ 18 }
    ensures starts { IfOk result (λ r. IsStarts lengths.now r.0.items) }
    ensures flops { IfOk result (λ r. r.1 ≡ sum lengths.now) }
{
    let mut starts = Vec::new(alloc);
    let mut start = 0;
    for length in lengths {
        push(&mut starts, start)?;
        start += *length as usize;
    }
    Ok((starts, start))
}

/// A copy of the chains of a wrapper.
fn copy_of(alloc: Global, chains: &[ChainPlan]) -> Result<Vec<ChainPlan>, NoMemory>
    ensures { IfOk result (λ copy. map chain_value copy.items ≡ map chain_value chains.now) }
{
    let mut copy = Vec::new(alloc);
    for chain in chains {
        let scans = copied(alloc, &chain.scans)?;
        let chain = ChainPlan {
            ins: chain.ins,
            scans,
            outs: chain.outs,
        };
        push(&mut copy, chain)?;
    }
    Ok(copy)
}

impl Layout {
    /// The layout of a module in a proper wrapper.
    pub fn new(alloc: Global, module: &Module, wrapper: &Wrapper) -> Result<Layout, NoMemory>
        requires proper { IsProper (module_value «module».now) wrapper.now.scan
            (map chain_value wrapper.now.chains.items) }
        requires small { module_size (module_value «module».now) ≤ 10 ^ 18 }
        ensures layout { IfOk result IsLayout }
        ensures lengths { IfOk result (λ layout. layout.lengths.items
            ≡ scan_lengths (module_value «module».now) wrapper.now.scan) }
        ensures chains { IfOk result (λ layout. map chain_value layout.chains.items
            ≡ map chain_value wrapper.now.chains.items) }
    {
        let lengths = lengths_of(alloc, module, wrapper.scan)?;
        let (starts, flops) = starts_of(alloc, &lengths)?;
        Ok(Layout {
            lengths,
            starts,
            flops,
            chains: copy_of(alloc, &wrapper.chains)?,
        })
    }
}
