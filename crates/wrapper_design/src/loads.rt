//! Chains by their scan lengths: a heap whose top is the first of the shortest, and a heap of the scan lengths alone, which
//! is several times faster.
ghost use Rattle.std.specs.Prelude.{◌≡◌, ℕ, ◌+◌, ◌*◌, ◌^◌, ◌<◌, ◌≤◌, length, List, slice_index, slice_set, replicate, IfOk, OnOk};
ghost use Rattle.std.specs.List.{sum_by};
ghost use Rattle.std.specs.BinaryHeap.{IsHeap, heap_items, heap_len};
ghost use Rattle.wrapper_design.specs.Entries.{entry_cmp, HasEntries, Grows};
ghost use Rattle.wrapper_design.specs.Design.{longest_part};
ghost use Rattle.wrapper_design.specs.Loads.{IsMinHeap, IsOrder};

use crate::order::ScanChain;
use std::alloc::{AllocError, Global};
use std::cmp::Reverse;
use std::collections::BinaryHeap;

/// `width` chains without scan chains, by scan length and place.
pub fn empty_heap(alloc: Global, width: u64) -> Result<BinaryHeap<Reverse<(u64, u64)>>, AllocError>
    ensures len { IfOk result (λ h. heap_len h ≡ width) }
    ensures heap { IfOk result (λ h. IsHeap entry_cmp (heap_items h)) }
    ensures entries { IfOk result (λ h. HasEntries (heap_items h) (replicate width 0)) }
{
    let mut heap = BinaryHeap::with_capacity(alloc, width as usize)?;
    for place in 0..width {
        heap.push(Reverse((0u64, place)))?;
    }
    Ok(heap)
}

/// Makes the first of the shortest chains longer, and answers its place and its new scan length.
pub fn grow_shortest(
    heap: &mut BinaryHeap<Reverse<(u64, u64)>>,
    length: u64,
) -> Result<(u64, u64), AllocError>
    requires some { 0 < heap_len heap.old }
    requires heap { IsHeap entry_cmp (heap_items heap.old) }
    requires fits { sum_by (λ e. e.0.0) (heap_items heap.old) + length < 2 ^ 63 }
    ensures heap { OnOk result (IsHeap entry_cmp (heap_items heap.new)) }
    ensures len { OnOk result (heap_len heap.new ≡ heap_len heap.old) }
    ensures grows { IfOk result (λ r. (loads : List ℕ) → HasEntries (heap_items heap.old) loads →
        Grows loads length r.0 r.1 × HasEntries (heap_items heap.new) (slice_set loads r.0 r.1)) }
{
    match heap.pop() {
        Some(Reverse((shortest, place))) => {
            let grown = shortest + length;
            heap.push(Reverse((grown, place)))?;
            Ok((place, grown))
        }
        None => unreachable!(),
    }
}

/// The lesser of the two children of a place in a heap. It is chosen without a branch, which halves the time of a table of
/// widths.
fn lesser_child(heap: &[u64], place: usize) -> usize
    requires small { length heap.now < 2 ^ 62 }
    requires both { 2 * place + 2 < length heap.now }
    ensures above { 2 * place + 1 ≤ result }
    ensures below { result ≤ 2 * place + 2 }
    ensures left { slice_index heap.now result ≤ slice_index heap.now (2 * place + 1) }
    ensures right { slice_index heap.now result ≤ slice_index heap.now (2 * place + 2) }
{
    let left = 2 * place + 1;
    left + (heap[left + 1] < heap[left]) as usize
}

/// Puts a number in place of the least one of a heap, which is no greater.
fn replace_least(heap: &mut [u64], grown: u64)
    requires some { 0 < length heap.old }
    requires small { length heap.old < 2 ^ 62 }
    requires heap { IsMinHeap heap.old }
    requires greater { slice_index heap.old 0 ≤ grown }
    ensures heap { IsMinHeap heap.new }
    ensures sums { (f : ℕ → ℕ) →
        sum_by f heap.new + f (slice_index heap.old 0) ≡ sum_by f heap.old + f grown }
{
    let mut place = 0;
    while 2 * place + 2 < heap.len() {
        let child = lesser_child(heap, place);
        let least = heap[child];
        if grown <= least {
            heap[place] = grown;
            return;
        }
        heap[place] = least;
        place = child;
    }
    let child = 2 * place + 1;
    if child < heap.len() && heap[child] < grown {
        heap[place] = heap[child];
        place = child;
    }
    heap[place] = grown;
}

/// The greatest scan length where all scan chains are put on as many chains as there are loads.
pub fn longest_part(order: &[ScanChain], loads: &mut [u64]) -> u64
    requires some { 0 < length loads.old }
    requires small { length loads.old < 2 ^ 62 }
    requires empty { loads.old ≡ replicate (length loads.old) 0 }
    requires fits { sum_by (λ c. c.length.0) order.now < 2 ^ 63 }
    ensures { (lengths : List ℕ) → IsOrder lengths order.now →
        result ≡ longest_part lengths (length loads.old) }
{
    let mut longest: u64 = 0;
    for chain in order {
        let grown = loads[0] + chain.length.0;
        replace_least(loads, grown);
        longest = longest.max(grown);
    }
    longest
}
