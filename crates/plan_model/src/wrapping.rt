//! Whether a wrapper is proper, and the lengths and times that it gives.

ghost use Rattle.std.specs.Prelude.{◌≡◌, ◌≢◌, ℕ, ◌+◌, ◌*◌, ◌^◌, ◌<◌, ◌≤◌, length, map, IsTrue, false, slice_index, nat_eq, nat_lt, if◌then◌else◌};
ghost use Rattle.std.specs.List.{All, sum_by, list_all};
ghost use Rattle.plan_model.specs.Views.{chain_value, wrapper_value};
ghost use Rattle.plan_model.specs.Rules.{IsWrapped};
ghost use Rattle.soc_model.specs.Sizes.{test_work};
ghost use Rattle.soc_model.specs.Chips.{module_value};
ghost use Rattle.plan_model.specs.Cells.{chain_cells, in_length, out_length, IsProper};
ghost use Rattle.plan_model.specs.Listing.{times, listed_times, mark_at, module_size};
ghost use Rattle.plan_model.specs.Plans.{PlanValue, greatest, chains_of, operations_of};
ghost use Rattle.plan_model.specs.declared.ChainPlan.{ChainPlan};

use crate::{ChainPlan, Wrapper, closed_time, wrapper_of};
use soc_model::{Module, Test, mode_chains};

/// How many scan chains are marked at a time.
const WINDOW: usize = 1024;

/// The input cells that chains take together.
fn all_ins(chains: &[ChainPlan]) -> u128
    ensures { result ≡ sum_by (λ (c : ChainPlan). c.ins) chains.now }
{
    let mut sum = 0;
    for chain in chains {
        sum += u128::from(chain.ins);
    }
    sum
}

/// The output cells that chains take together.
fn all_outs(chains: &[ChainPlan]) -> u128
    ensures { result ≡ sum_by (λ (c : ChainPlan). c.outs) chains.now }
{
    let mut sum = 0;
    for chain in chains {
        sum += u128::from(chain.outs);
    }
    sum
}

/// Marks a scan chain in the window from `base`; false where it is marked already.
fn mark_scan(scan: u64, base: u64, seen: &mut [bool]) -> bool
    ensures marked { IsTrue result → (k : ℕ) → k < length seen.old →
        mark_at seen.new k ≡ mark_at seen.old k + (if nat_eq scan (base + k) then 1 else 0) }
    ensures twice { result ≡ false →
        (k : ℕ) × (k < length seen.old) × (scan ≡ base + k) × (mark_at seen.old k ≡ 1) }
{
    if scan < base {
        return true;
    }
    let ahead = scan - base;
    if ahead >= seen.len() as u64 {
        return true;
    }
    let place = ahead as usize;
    if seen[place] {
        return false;
    }
    seen[place] = true;
    true
}

/// Marks the scan chains that a chain lists; false where one is then marked twice.
fn mark_chain(scans: &[u64], base: u64, seen: &mut [bool]) -> bool
    ensures marked { IsTrue result → (k : ℕ) → k < length seen.old →
        mark_at seen.new k ≡ mark_at seen.old k + times (base + k) scans.now }
    ensures twice { result ≡ false →
        (k : ℕ) × (k < length seen.old) × (2 ≤ mark_at seen.old k + times (base + k) scans.now) }
{
    for scan in scans {
        if !mark_scan(*scan, base, seen) {
            return false;
        }
    }
    true
}

/// Marks the scan chains that the chains list; false where one is then marked twice.
fn mark_chains(chains: &[ChainPlan], base: u64, seen: &mut [bool]) -> bool
    ensures marked { IsTrue result → (k : ℕ) → k < length seen.old →
        mark_at seen.new k ≡ mark_at seen.old k + listed_times (base + k) chains.now }
    ensures twice { result ≡ false →
        (k : ℕ) × (k < length seen.old)
        × (2 ≤ mark_at seen.old k + listed_times (base + k) chains.now) }
{
    for chain in chains {
        if !mark_chain(&chain.scans, base, seen) {
            return false;
        }
    }
    true
}

/// Whether the chains list each scan chain of the window exactly once.
fn window(chains: &[ChainPlan], base: u64, count: usize) -> bool
    requires { count ≤ 1024 }
    ensures once { IsTrue result → (k : ℕ) → k < count → listed_times (base + k) chains.now ≡ 1 }
    ensures other { result ≡ false →
        (k : ℕ) × (k < count) × (listed_times (base + k) chains.now ≢ 1) }
{
    let mut marks = [false; WINDOW];
    let seen = &mut marks[..count];
    mark_chains(chains, base, seen) && all_marked(seen)
}

/// Whether each place is marked.
fn all_marked(seen: &[bool]) -> bool
    ensures all { IsTrue result → (k : ℕ) → k < length seen.now → mark_at seen.now k ≡ 1 }
    ensures not_all { result ≡ false → (k : ℕ) × (k < length seen.now) × (mark_at seen.now k ≡ 0) }
{
    for mark in seen {
        if !*mark {
            return false;
        }
    }
    true
}

/// Whether the chains list each number below `n` exactly once.
fn lists_once(chains: &[ChainPlan], n: usize) -> bool
    ensures once { IsTrue result → (c : ℕ) → c < n → listed_times c chains.now ≡ 1 }
    ensures other { result ≡ false → (c : ℕ) × (c < n) × (listed_times c chains.now ≢ 1) }
{
    let mut base = 0;
    while base < n {
        let count = (n - base).min(WINDOW);
        if !window(chains, base as u64, count) {
            return false;
        }
        base += count;
    }
    true
}

/// Whether each listed scan chain is below `n`.
fn is_below(scans: &[u64], n: u64) -> bool
    ensures { result ≡ list_all (λ x. nat_lt x n) scans.now }
{
    scans.iter().all(|scan| *scan < n)
}

/// Whether each scan chain that the chains list is below `n`.
fn all_below(chains: &[ChainPlan], n: u64) -> bool
    ensures { result
        ≡ list_all (λ (c : ChainPlan). list_all (λ x. nat_lt x n) c.scans.items) chains.now }
{
    for chain in chains {
        if !is_below(&chain.scans, n) {
            return false;
        }
    }
    true
}

/// The sum, which has room for both.
fn both(a: u64, b: u64) -> u128
    ensures { result ≡ a + b }
{
    u128::from(a) + u128::from(b)
}

/// Whether the chains take as many input and output cells as the module has.
fn takes_terminals(module: &Module, chains: &[ChainPlan]) -> bool
    ensures ins { IsTrue result →
        sum_by (λ (c : ChainPlan). c.ins) chains.now ≡ «module».now.inputs + «module».now.bidirs }
    ensures outs { IsTrue result →
        sum_by (λ (c : ChainPlan). c.outs) chains.now ≡ «module».now.outputs + «module».now.bidirs }
    ensures only { sum_by (λ (c : ChainPlan). c.ins) chains.now
        ≡ «module».now.inputs + «module».now.bidirs →
        sum_by (λ (c : ChainPlan). c.outs) chains.now ≡ «module».now.outputs + «module».now.bidirs →
        IsTrue result }
{
    all_ins(chains) == both(module.inputs, module.bidirs)
        && all_outs(chains) == both(module.outputs, module.bidirs)
}

/// Whether the chains of the wrapper have each cell of its mode of the module exactly once and nothing else, and list
/// each scan chain of the mode exactly once and no other.
///
/// It counts, takes no memory, and reads each listed scan chain once for every 1,024 scan chains of the module.
pub fn is_proper(module: &Module, wrapper: &Wrapper) -> bool
    ensures proper { IsTrue result →
        IsProper (module_value «module».now) wrapper.now.scan
        (map chain_value wrapper.now.chains.items) }
    ensures only { IsProper (module_value «module».now) wrapper.now.scan
        (map chain_value wrapper.now.chains.items) → IsTrue result }
{
    let lengths = mode_chains(module, wrapper.scan);
    if !takes_terminals(module, &wrapper.chains) {
        return false;
    }
    if !all_below(&wrapper.chains, lengths.len() as u64) {
        return false;
    }
    lists_once(&wrapper.chains, lengths.len())
}

/// The flops of a chain: the lengths of its scan chains together.
fn flops_of(lengths: &[u64], scans: &[u64]) -> u64
    requires listed { All (λ c. c < length lengths.now) scans.now }
    requires fits { sum_by (slice_index lengths.now) scans.now < 2 ^ 63 }
    ensures { result ≡ sum_by (slice_index lengths.now) scans.now }
{
    let mut sum = 0;
    for scan in scans {
        sum += lengths[*scan as usize];
    }
    sum
}

/// The greatest in-length and the greatest out-length of the chains of a proper wrapper, in cells: `si` and `so`.
///
/// Every module of a sound chip is small enough: `module_size-le` of proofs/SoundChips.antt.
pub fn lengths(module: &Module, wrapper: &Wrapper) -> (u64, u64)
    requires proper { IsProper (module_value «module».now) wrapper.now.scan
        (map chain_value wrapper.now.chains.items) }
    requires small { module_size (module_value «module».now) ≤ 10 ^ 18 }
    ensures si { result.0
        ≡ greatest (map in_length (chain_cells (module_value «module».now) wrapper.now.scan
        (map chain_value wrapper.now.chains.items))) }
    ensures so { result.1
        ≡ greatest (map out_length (chain_cells (module_value «module».now) wrapper.now.scan
        (map chain_value wrapper.now.chains.items))) }
{
    let lengths = mode_chains(module, wrapper.scan);
    let mut si: u64 = 0;
    let mut so: u64 = 0;
    for chain in &wrapper.chains {
        let flops = flops_of(lengths, &chain.scans);
        si = si.max(chain.ins + flops);
        so = so.max(chain.outs + flops);
    }
    (si, so)
}

/// The cycles of a live test over the wires in a proper wrapper of its mode, those of the module's setup included.
///
/// Every live test over the wires of a sound chip meets the condition on its work: `tam_work-le` of
/// proofs/SoundChips.antt.
pub fn tam_duration(module: &Module, wrapper: &Wrapper, test: &Test) -> u64
    requires proper { IsProper (module_value «module».now) wrapper.now.scan
        (map chain_value wrapper.now.chains.items) }
    requires mode { wrapper.now.scan ≡ test.now.scan }
    requires tam { IsTrue test.now.tam }
    requires live { 1 ≤ test.now.patterns }
    requires work { «module».now.setup + test.now.patterns * module_size (module_value «module».now)
        ≤ 10 ^ 18 }
    ensures small { result ≤ 10 ^ 18 }
    ensures time { result
        ≡ length (operations_of (module_value «module».now) test.now (chain_cells
        (module_value «module».now) test.now.scan (map chain_value wrapper.now.chains.items))) }
{
    let (si, so) = lengths(module, wrapper);
    closed_time(module.setup, si, so, test.patterns)
}

/// The cycles of a live test: over the wires those in the first wrapper of its mode, with those of the module's setup; of a
/// self test its patterns. In a plan with a proper wrapper for each module and mode that is used, every live test is
/// wrapped: `wrapped_test` of proofs/FoundWrappers.antt.
pub fn test_cycles(wrappers: &[Wrapper], module: &Module, test: &Test) -> u64
    requires live { 1 ≤ test.now.patterns }
    requires work { test_work (module_value «module».now) test.now ≤ 10 ^ 18 }
    requires wrapped { IsTrue test.now.tam →
        IsWrapped (module_value «module».now) test.now (map wrapper_value wrappers.now) }
    ensures time { (plan : PlanValue) → plan.wrappers ≡ map wrapper_value wrappers.now →
        result
        ≡ length (operations_of (module_value «module».now) test.now
        (chains_of plan (module_value «module».now) test.now)) }
{
    if !test.tam {
        return test.patterns;
    }
    match wrapper_of(wrappers, module.number, test.scan) {
        Some(place) => tam_duration(module, &wrappers[place], test),
        None => unreachable!(),
    }
}
