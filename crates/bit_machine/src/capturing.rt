//! Captures of a module in its wrapper: the cells that are read take their bits of a response.
ghost use Rattle.std.specs.Prelude.{◌≡◌, ℕ, ◌+◌, ◌^◌, ◌<◌, ◌≤◌, ◌++◌, length, take, drop, slice_index, IfOk};
ghost use Rattle.std.specs.List.{All, sum, sum_by};
ghost use Rattle.plan_model.specs.Runs.{captured};
ghost use Rattle.plan_model.specs.Views.{chain_value};
ghost use Rattle.vector_lines.specs.Layouts.{chain_of, chain_length, layout_cells, IsLayout};
ghost use Rattle.bit_machine.specs.Sessions.{each_with, response_bit, zero_bits, IsLong};

use crate::ring::Ring;
use outside::{NoMemory, push};
use plan_model::ChainPlan;
use std::alloc::Global;
use vector_lines::Layout;

/// The cells of a chain.
fn length_of(lengths: &[u64], chain: &ChainPlan) -> usize
    requires listed { All (λ c. c < length lengths.now) chain.now.scans.items }
    requires fits { chain_length lengths.now chain.now ≤ 10 ^ 18 }
    ensures { result ≡ chain_length lengths.now chain.now }
{
    let mut flops = 0;
    for scan in &chain.scans {
        flops += lengths[*scan as usize];
    }
    (chain.ins + flops + chain.outs) as usize
}

/// Writes an answer over the bits from a place on.
fn put_bits(bits: &mut Ring, at: usize, answer: &[bool])
    requires { at + length answer.now ≤ length bits.old }
    ensures { bits.new ≡ take at bits.old ++ answer.now ++ drop (at + length answer.now) bits.old }
{
    let _cells = bits.len();
    for place in 0..answer.len() {
        bits.put(at + place, answer[place]);
    }
}

/// `count` bits from a place on.
fn part(bits: &[bool], from: usize, count: usize) -> &[bool]
    requires { from + count ≤ length bits.now }
    ensures part { result.now ≡ take count (drop from bits.now) }
    ensures long { length result.now ≡ count }
{
    &bits[from..from + count]
}

/// A bit 0 for each cell of each chain.
pub fn resting_rings(alloc: Global, layout: &Layout) -> Result<Vec<Ring>, NoMemory>
    requires { IsLayout layout.now }
    ensures { IfOk result (λ bits. bits.items ≡ zero_bits (layout_cells layout.now)) }
{
    let mut all = Vec::new(alloc);
    for chain in &layout.chains {
        let cells = length_of(&layout.lengths, chain);
        push(&mut all, Ring::zeros(alloc, cells)?)?;
    }
    Ok(all)
}

/// The bits of a response that the cells of a scan chain take.
fn scan_answer<'a>(layout: &Layout, scan: usize, response: &'a [bool]) -> &'a [bool]
    requires layout { IsLayout layout.now }
    requires scan { scan < length layout.now.lengths.items }
    requires answered { sum layout.now.lengths.items ≤ length response.now }
    ensures answer { result.now ≡ take (slice_index layout.now.lengths.items scan)
        (drop (sum (take scan layout.now.lengths.items)) response.now) }
    ensures long { length result.now ≡ slice_index layout.now.lengths.items scan }
{
    part(response, layout.starts[scan], layout.lengths[scan] as usize)
}

/// Writes the answer of a chain's scan cells and then of its output cells, whose bits stand in the response from
/// `outs_from` on.
fn capture_chain(
    layout: &Layout,
    chain: &ChainPlan,
    outs_from: usize,
    response: &[bool],
    bits: &mut Ring,
)
    requires layout { IsLayout layout.now }
    requires listed { All (λ c. c < length layout.now.lengths.items) chain.now.scans.items }
    requires flops { sum layout.now.lengths.items ≤ outs_from }
    requires answered { outs_from + chain.now.outs ≤ length response.now }
    requires long { length bits.old ≡ chain_length layout.now.lengths.items chain.now }
    ensures { (i o : ℕ) → sum layout.now.lengths.items + o ≡ outs_from →
        bits.new ≡ captured (response_bit layout.now.lengths.items response.now)
        (chain_of layout.now.lengths.items i o (chain_value chain.now)) bits.old }
{
    let _cells = bits.len();
    let mut at = chain.ins as usize;
    for scan in &chain.scans {
        let answer = scan_answer(layout, *scan as usize, response);
        put_bits(bits, at, answer);
        at += answer.len();
    }
    put_bits(bits, at, part(response, outs_from, chain.outs as usize));
}

/// Writes a response into the chains: the cells that are read take their bits of it.
pub fn capture_response(layout: &Layout, response: &[bool], bits: &mut [Ring])
    requires layout { IsLayout layout.now }
    requires long { IsLong layout.now bits.old }
    requires answered { length response.now
        ≡ sum layout.now.lengths.items + sum_by (λ c. c.outs) layout.now.chains.items }
    ensures { bits.new
        ≡ each_with (captured (response_bit layout.now.lengths.items response.now))
        (layout_cells layout.now) bits.old }
{
    let mut outs_from = layout.flops;
    for place in 0..bits.len() {
        let chain = &layout.chains[place];
        capture_chain(layout, chain, outs_from, response, &mut bits[place]);
        outs_from += chain.outs as usize;
    }
}
