//! How long the longest of some wrapper chains is at least, for the scan chains that stand in them.
ghost use Rattle.std.specs.Prelude.{◌≡◌, ℕ, ◌+◌, ◌-◌, ◌*◌, ◌^◌, ◌<◌, ◌≤◌, List, length, map, max, min, sum, IfOk};
ghost use Rattle.std.specs.List.{range_with_len};
ghost use Rattle.plan_model.specs.Bounds.{least_from_one};
ghost use Rattle.proof_facts.specs.Packed.{rising, counting, averaging, beside, packed};
ghost use Rattle.proof_facts.specs.Fronts.{AreFronts, even_share, window};

use outside::{NoMemory, copied, push};
use std::alloc::Global;

/// The lengths together.
pub fn flops_of(lengths: &[u64]) -> u64
    requires { sum lengths.now < 2 ^ 63 }
    ensures { result ≡ sum lengths.now }
{
    lengths.iter().sum()
}

/// The lengths in order, the shortest first. `NoMemory` where memory runs out.
pub fn sorted_lengths(alloc: Global, lengths: &[u64]) -> Result<Vec<u64>, NoMemory>
    ensures { IfOk result (λ sorted. sorted.items ≡ rising lengths.now) }
{
    let mut sorted = copied(alloc, lengths)?;
    sorted.sort_unstable();
    Ok(sorted)
}

/// The sum of each front of the lengths, that of the empty one first.
fn front_sums(alloc: Global, lengths: &[u64]) -> Result<Vec<u64>, NoMemory>
    requires { sum lengths.now < 2 ^ 63 }
    ensures { IfOk result (λ fronts. AreFronts lengths.now fronts.items) }
{
    let mut fronts = Vec::new(alloc);
    push(&mut fronts, 0u64)?;
    let mut sum = 0u64;
    for length in lengths {
        sum += *length;
        push(&mut fronts, sum)?;
    }
    Ok(fronts)
}

/// Of the `k * width + 1` last of sorted lengths the `k + 1` first, together.
fn window(sorted: &[u64], fronts: &[u64], width: usize, k: usize) -> u64
    requires some_wire { 1 ≤ width }
    requires fronts { AreFronts sorted.now fronts.now }
    requires within { k * width < length sorted.now }
    ensures { result ≡ window sorted.now width k }
{
    let start = sorted.len() - (k * width + 1);
    fronts[start + k + 1] - fronts[start]
}

/// The length in cells that the longest of `width` wrapper chains has at least, since one has `k + 1` of the `k * width + 1` longest
/// scan chains.
fn counted_length(sorted: &[u64], fronts: &[u64], width: usize) -> u64
    requires some_wire { 1 ≤ width }
    requires fronts { AreFronts sorted.now fronts.now }
    ensures { (lengths : List ℕ) → sorted.now ≡ rising lengths → result ≡ counting lengths width }
{
    let mut most: u64 = 0;
    for k in 0..sorted.len().div_ceil(width) {
        most = most.max(window(sorted, fronts, width, k));
    }
    most
}

/// What the longest of `busy` wrapper chains has at least, in cells, where these have more than `k` scan chains each, and the others
/// of `width` wrapper chains at most `k`.
fn even_share(sorted: &[u64], fronts: &[u64], width: usize, k: usize, busy: usize) -> u64
    requires within { k * width < length sorted.now }
    requires some_busy { 1 ≤ busy }
    requires on_wires { busy ≤ width }
    requires fronts { AreFronts sorted.now fronts.now }
    ensures { result ≡ even_share sorted.now width k busy }
{
    let excess = sorted.len() - k * width;
    fronts[k * busy + excess].div_ceil(busy as u64)
}

/// The greater of `most` and of the least share over how many wrapper chains may have more than `k` scan chains.
fn with_least_share(sorted: &[u64], fronts: &[u64], width: usize, k: usize, most: u64) -> u64
    requires some_wire { 1 ≤ width }
    requires within { k * width < length sorted.now }
    requires fronts { AreFronts sorted.now fronts.now }
    ensures { result
        ≡ max most (least_from_one (even_share sorted.now width k)
        (min width (length sorted.now - k * width))) }
{
    let busy = width.min(sorted.len() - k * width);
    let mut least = even_share(sorted, fronts, width, k, busy);
    // All scan chains on fewer wrapper chains are no less in the mean.
    if k == 0 {
        return most.max(least);
    }
    // The most wrapper chains come first: with them the share is seldom above `most`, and then no other one is.
    for fewer in 1..busy {
        if least <= most {
            return most;
        }
        least = least.min(even_share(sorted, fronts, width, k, busy - fewer));
    }
    most.max(least)
}

/// The greater of `most` and of the length in cells that the longest of `width` wrapper chains has at least, since it is no shorter
/// than those with more than `k` scan chains are in the mean.
fn with_averages(sorted: &[u64], fronts: &[u64], width: usize, most: u64) -> u64
    requires some_wire { 1 ≤ width }
    requires fronts { AreFronts sorted.now fronts.now }
    ensures { (lengths : List ℕ) → sorted.now ≡ rising lengths →
        result ≡ max most (averaging lengths width) }
{
    let mut greatest = most;
    for k in 0..sorted.len().div_ceil(width) {
        greatest = with_least_share(sorted, fronts, width, k, greatest);
    }
    greatest
}

/// The length in cells that the longest of `width` wrapper chains has at least, since the longest scan chain is beside another one, or
/// the others are on one wrapper chain less. 0 where there is no other one, or no other wrapper chain.
fn beside_length(sorted: &[u64], fronts: &[u64], width: usize) -> u64
    requires fronts { AreFronts sorted.now fronts.now }
    requires sum { sum sorted.now < 2 ^ 63 }
    ensures { (lengths : List ℕ) → sorted.now ≡ rising lengths → result ≡ beside lengths width }
{
    let count = sorted.len();
    if count < 2 {
        return 0;
    }
    if width < 2 {
        return 0;
    }
    let longest = sorted[count - 1];
    let others = counted_length(&sorted[..count - 1], &fronts[..count], width - 1);
    (longest + sorted[0]).min(longest.max(others))
}

/// The length in cells that the longest of `width` wrapper chains has at least, where scan chains of these lengths stand
/// in them.
fn packed_length(sorted: &[u64], fronts: &[u64], width: usize) -> u64
    requires some_wire { 1 ≤ width }
    requires fronts { AreFronts sorted.now fronts.now }
    requires sum { sum sorted.now < 2 ^ 63 }
    ensures { (lengths : List ℕ) → sorted.now ≡ rising lengths → result ≡ packed lengths width }
{
    let counted = counted_length(sorted, fronts, width);
    let beside = beside_length(sorted, fronts, width);
    with_averages(sorted, fronts, width, counted.max(beside))
}

/// The packed length on each width from 1 to `wires`. `NoMemory` where memory runs out.
pub fn packed_lengths(alloc: Global, lengths: &[u64], wires: u64) -> Result<Vec<u64>, NoMemory>
    requires sum { sum lengths.now < 2 ^ 63 }
    requires wires { wires ≤ 256 }
    ensures { IfOk result (λ row. row.items ≡ map (packed lengths.now) (range_with_len 1 wires)) }
{
    let sorted = sorted_lengths(alloc, lengths)?;
    let fronts = front_sums(alloc, &sorted)?;
    let mut row = Vec::new(alloc);
    for place in 0..wires {
        push(
            &mut row,
            packed_length(&sorted, &fronts, place as usize + 1),
        )?;
    }
    Ok(row)
}
