//! The chains of a test over the wires, by the numbers of their bits.
ghost use Rattle.std.specs.Prelude.{◌≡◌, ℕ, ◌+◌, ◌^◌, ◌<◌, ◌≤◌, ◌++◌, length, OnOk, IfOk};
ghost use Rattle.std.specs.List.{All, sum, sum_by, flat_map, range_with_len};
ghost use Rattle.plan_model.specs.Views.{chain_value};
ghost use Rattle.vector_lines.specs.Layouts.{chain_of, chain_length, layout_cells, IsLayout};
ghost use Rattle.vector_lines.specs.Numbers.{all_numbers, IsFull};
ghost use Rattle.vector_lines.specs.Building.{flop_numbers, ArePaths};
ghost use Rattle.vector_lines.specs.Paths.{IsPath};

use crate::layout::Layout;
use crate::numbers::{NumberRun, Numbers};
use crate::path::Path;
use outside::{NoMemory, push};
use plan_model::ChainPlan;
use std::alloc::Global;

/// Appends `count` numbers, from `from` on.
fn push_numbers(runs: &mut Vec<NumberRun>, from: u64, count: u64) -> Result<(), NoMemory>
    requires full { All IsFull runs.old.items }
    requires fits { from + count < 2 ^ 64 }
    ensures full { OnOk result (All IsFull runs.new.items) }
    ensures numbers { OnOk result
        (all_numbers runs.new.items ≡ all_numbers runs.old.items ++ range_with_len from count) }
{
    if count == 0 {
        return Ok(());
    }
    push(runs, NumberRun { from, count })
}

/// Appends the numbers of the cells of a scan chain.
fn push_flops(
    runs: &mut Vec<NumberRun>,
    base: u64,
    layout: &Layout,
    scan: u64,
) -> Result<(), NoMemory>
    requires full { All IsFull runs.old.items }
    requires layout { IsLayout layout.now }
    requires scan { scan < length layout.now.lengths.items }
    requires fits { base + sum layout.now.lengths.items < 2 ^ 63 }
    ensures full { OnOk result (All IsFull runs.new.items) }
    ensures numbers { OnOk result (all_numbers runs.new.items
        ≡ all_numbers runs.old.items ++ flop_numbers base layout.now.lengths.items scan) }
{
    let place = scan as usize;
    let from = base + layout.starts[place] as u64;
    push_numbers(runs, from, layout.lengths[place])
}

/// Appends the numbers of the cells of scan chains.
fn push_scans(
    runs: &mut Vec<NumberRun>,
    base: u64,
    layout: &Layout,
    scans: &[u64],
) -> Result<(), NoMemory>
    requires full { All IsFull runs.old.items }
    requires layout { IsLayout layout.now }
    requires listed { All (λ c. c < length layout.now.lengths.items) scans.now }
    requires fits { base + sum layout.now.lengths.items < 2 ^ 63 }
    ensures full { OnOk result (All IsFull runs.new.items) }
    ensures numbers { OnOk result (all_numbers runs.new.items
        ≡ all_numbers runs.old.items
        ++ flat_map (flop_numbers base layout.now.lengths.items) scans.now) }
{
    for scan in scans {
        push_flops(runs, base, layout, *scan)?;
    }
    Ok(())
}

/// The numbers of the bits that a chain loads: of its input cells, from `ins_from` on, and of its scan cells, behind all
/// input cells of the module.
fn loads_of(
    alloc: Global,
    inputs: u64,
    layout: &Layout,
    chain: &ChainPlan,
    ins_from: u64,
) -> Result<Numbers, NoMemory>
    requires layout { IsLayout layout.now }
    requires listed { All (λ c. c < length layout.now.lengths.items) chain.now.scans.items }
    requires long { chain_length layout.now.lengths.items chain.now ≤ 10 ^ 18 }
    requires fits { inputs + sum layout.now.lengths.items < 2 ^ 63 }
    requires ins { ins_from + chain.now.ins < 2 ^ 63 }
    ensures { IfOk result (λ loads. loads ≡ range_with_len ins_from chain.now.ins
        ++ flat_map (flop_numbers inputs layout.now.lengths.items) chain.now.scans.items) }
{
    let mut loads = Vec::new(alloc);
    push_numbers(&mut loads, ins_from, chain.ins)?;
    push_scans(&mut loads, inputs, layout, &chain.scans)?;
    Ok(Numbers::new(loads))
}

/// The numbers of the bits that a chain answers: of its scan cells, and of its output cells, from `outs_from` on.
fn answers_of(
    alloc: Global,
    layout: &Layout,
    chain: &ChainPlan,
    outs_from: u64,
) -> Result<Numbers, NoMemory>
    requires layout { IsLayout layout.now }
    requires listed { All (λ c. c < length layout.now.lengths.items) chain.now.scans.items }
    requires long { chain_length layout.now.lengths.items chain.now ≤ 10 ^ 18 }
    requires fits { sum layout.now.lengths.items < 2 ^ 63 }
    requires outs { outs_from + chain.now.outs < 2 ^ 63 }
    ensures { IfOk result (λ answers. answers
        ≡ flat_map (flop_numbers 0 layout.now.lengths.items) chain.now.scans.items
        ++ range_with_len outs_from chain.now.outs) }
{
    let mut answers = Vec::new(alloc);
    push_scans(&mut answers, 0, layout, &chain.scans)?;
    push_numbers(&mut answers, outs_from, chain.outs)?;
    Ok(Numbers::new(answers))
}

/// A chain whose input cells are numbered from `ins_from` on, and whose output cells answer from `outs_from` on.
fn path_of(
    alloc: Global,
    inputs: u64,
    layout: &Layout,
    chain: &ChainPlan,
    ins_from: u64,
    outs_from: u64,
) -> Result<Path, NoMemory>
    requires layout { IsLayout layout.now }
    requires listed { All (λ c. c < length layout.now.lengths.items) chain.now.scans.items }
    requires long { chain_length layout.now.lengths.items chain.now ≤ 10 ^ 18 }
    requires fits { inputs + sum layout.now.lengths.items < 2 ^ 63 }
    requires ins { ins_from + chain.now.ins < 2 ^ 63 }
    requires outs { outs_from + chain.now.outs < 2 ^ 63 }
    ensures { (o : ℕ) → outs_from ≡ sum layout.now.lengths.items + o →
        IfOk result (IsPath inputs layout.now.lengths.items
        (chain_of layout.now.lengths.items ins_from o (chain_value chain.now))) }
{
    let loads = loads_of(alloc, inputs, layout, chain, ins_from)?;
    let answers = answers_of(alloc, layout, chain, outs_from)?;
    let cells = loads.len() + chain.outs as usize;
    Ok(Path {
        cells,
        loads,
        answers,
    })
}

/// The chains of a wrapper, for a module of `inputs` input cells.
pub fn paths_of(alloc: Global, inputs: u64, layout: &Layout) -> Result<Vec<Path>, NoMemory>
    requires layout { IsLayout layout.now }
    requires fits { inputs + sum layout.now.lengths.items < 2 ^ 62 }
    requires ins { sum_by (λ c. c.ins) layout.now.chains.items < 2 ^ 62 }
    requires outs { sum_by (λ c. c.outs) layout.now.chains.items < 2 ^ 62 }
    ensures { IfOk result (λ paths. ArePaths inputs layout.now.lengths.items
        (layout_cells layout.now) (length layout.now.chains.items) paths.items) }
{
    let mut ins_from = 0;
    let mut outs_from = layout.flops as u64;
    let mut paths = Vec::new(alloc);
    for chain in &layout.chains {
        let path = path_of(alloc, inputs, layout, chain, ins_from, outs_from)?;
        push(&mut paths, path)?;
        ins_from += chain.ins;
        outs_from += chain.outs;
    }
    Ok(paths)
}
