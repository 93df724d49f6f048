//! Scan chains, input cells and output cells, dealt over chains.
ghost use Rattle.std.specs.Prelude.{◌≡◌, ℕ, ◌+◌, ◌^◌, ◌<◌, ◌≤◌, length, max, map, List, [], replicate, IfOk};
ghost use Rattle.std.specs.List.{All, sum, sum_by};
ghost use Rattle.std.specs.BinaryHeap.{IsHeap, heap_items, heap_len};
ghost use Rattle.plan_model.specs.declared.ChainPlan.{ChainPlan};
ghost use Rattle.plan_model.specs.Views.{chain_value};
ghost use Rattle.plan_model.specs.Plans.{greatest};
ghost use Rattle.plan_model.specs.Bounds.{quotient_up};
ghost use Rattle.wrapper_design.specs.Entries.{entry_cmp, HasEntries};
ghost use Rattle.wrapper_design.specs.Design.{design, scan_length, filled, scan_parts};
ghost use Rattle.wrapper_design.specs.Loads.{IsOrder};

use crate::loads::{empty_heap, grow_shortest};
use crate::order::ScanChain;
use plan_model::ChainPlan;
use std::alloc::{AllocError, Global};
use std::cmp::Reverse;
use std::collections::BinaryHeap;

/// The length up to which chains are filled with `ends` cells.
pub fn level(longest: u64, ends: u64, flops: u64, width: u64) -> u64
    requires some { 1 ≤ width }
    requires fits { ends + flops < 2 ^ 63 }
    ensures { result ≡ max longest (quotient_up (ends + flops) width) }
{
    longest.max((ends + flops).div_ceil(width))
}

/// Puts each scan chain into its chain, and answers the greatest scan length.
fn put_scans(
    order: &[ScanChain],
    heap: &mut BinaryHeap<Reverse<(u64, u64)>>,
    loads: &mut [u64],
    chains: &mut [ChainPlan],
) -> Result<u64, AllocError>
    requires some { 0 < length loads.old }
    requires as_many { length loads.old ≡ length chains.old }
    requires empty { loads.old ≡ replicate (length loads.old) 0 }
    requires no_scans { map (λ (c : ChainPlan). c.scans.items) chains.old
        ≡ replicate (length loads.old) [] }
    requires many { 0 < heap_len heap.old }
    requires heap { IsHeap entry_cmp (heap_items heap.old) }
    requires entries { HasEntries (heap_items heap.old) loads.old }
    requires fits { sum_by (λ c. c.length.0) order.now < 2 ^ 62 }
    ensures longest { IfOk result (λ longest. longest ≡ greatest loads.new) }
    ensures loads { IfOk result (λ longest. (lengths : List ℕ) → IsOrder lengths order.now →
        loads.new ≡ map (scan_length lengths) (scan_parts lengths (length loads.old))) }
    ensures parts { IfOk result (λ longest. (lengths : List ℕ) → IsOrder lengths order.now →
        map (λ (c : ChainPlan). c.scans.items) chains.new ≡ scan_parts lengths (length loads.old)) }
{
    let mut longest: u64 = 0;
    for chain in order {
        let (place, grown) = grow_shortest(heap, chain.length.0)?;
        chains[place as usize].scans.push(chain.place)?;
        loads[place as usize] = grown;
        longest = longest.max(grown);
    }
    Ok(longest)
}

/// Fills chains in order with input cells up to `si` and output cells up to `so`.
fn fill_chains(
    loads: &[u64],
    chains: &mut [ChainPlan],
    mut ins: u64,
    si: u64,
    mut outs: u64,
    so: u64,
)
    requires as_many { length loads.now ≡ length chains.old }
    requires below_si { All (λ n. n ≤ si) loads.now }
    requires below_so { All (λ n. n ≤ so) loads.now }
    ensures { (lengths : List ℕ) →
        loads.now ≡ map (λ (c : ChainPlan). scan_length lengths c.scans.items) chains.old →
        map chain_value chains.new
        ≡ filled lengths si ins so outs (map (λ (c : ChainPlan). c.scans.items) chains.old) }
{
    for (place, load) in loads.iter().enumerate() {
        let chain = &mut chains[place];
        chain.ins = (si - *load).min(ins);
        chain.outs = (so - *load).min(outs);
        ins -= chain.ins;
        outs -= chain.outs;
    }
}

/// Chains without cells.
fn empty_chains(alloc: Global, width: u64) -> Result<Vec<ChainPlan>, AllocError>
    ensures { IfOk result
        (λ v. map (λ (c : ChainPlan). c.scans.items) v.items ≡ replicate width []) }
{
    let mut chains = Vec::with_capacity(alloc, width as usize)?;
    for _place in 0..width {
        chains.push(ChainPlan {
            ins: 0,
            scans: Vec::new(alloc),
            outs: 0,
        })?;
    }
    Ok(chains)
}

/// Puts all scan chains and cells into chains that have none.
fn put_cells(
    order: &[ScanChain],
    heap: &mut BinaryHeap<Reverse<(u64, u64)>>,
    loads: &mut [u64],
    chains: &mut [ChainPlan],
    flops: u64,
    ins: u64,
    outs: u64,
) -> Result<(), AllocError>
    requires some { 0 < length loads.old }
    requires as_many { length loads.old ≡ length chains.old }
    requires empty { loads.old ≡ replicate (length loads.old) 0 }
    requires no_scans { map (λ (c : ChainPlan). c.scans.items) chains.old
        ≡ replicate (length loads.old) [] }
    requires many { 0 < heap_len heap.old }
    requires heap { IsHeap entry_cmp (heap_items heap.old) }
    requires entries { HasEntries (heap_items heap.old) loads.old }
    requires fits { sum_by (λ c. c.length.0) order.now < 2 ^ 62 }
    requires few_flops { flops < 2 ^ 62 }
    requires few_ins { ins < 2 ^ 62 }
    requires few_outs { outs < 2 ^ 62 }
    ensures { IfOk result (λ _. (lengths : List ℕ) → IsOrder lengths order.now →
        flops ≡ sum lengths →
        map chain_value chains.new
        ≡ design (record { lengths = lengths; ins = ins; outs = outs }) (length loads.old)) }
{
    let longest = put_scans(order, heap, loads, chains)?;
    let width = loads.len() as u64;
    let si = level(longest, ins, flops, width);
    let so = level(longest, outs, flops, width);
    fill_chains(loads, chains, ins, si, outs, so);
    Ok(())
}

/// The chains of the design for scan chains in their order.
pub fn build_chains(
    alloc: Global,
    order: &[ScanChain],
    flops: u64,
    ins: u64,
    outs: u64,
    width: u64,
) -> Result<Vec<ChainPlan>, AllocError>
    requires wide { 1 ≤ width }
    requires fits { sum_by (λ c. c.length.0) order.now < 2 ^ 62 }
    requires few_flops { flops < 2 ^ 62 }
    requires few_ins { ins < 2 ^ 62 }
    requires few_outs { outs < 2 ^ 62 }
    ensures { IfOk result
        (λ v. (lengths : List ℕ) → IsOrder lengths order.now → flops ≡ sum lengths →
        map chain_value v.items
        ≡ design (record { lengths = lengths; ins = ins; outs = outs }) width) }
{
    let mut chains = empty_chains(alloc, width)?;
    let mut loads = Vec::from_elem(alloc, 0u64, width as usize)?;
    let mut heap = empty_heap(alloc, width)?;
    put_cells(order, &mut heap, &mut loads, &mut chains, flops, ins, outs)?;
    Ok(chains)
}
