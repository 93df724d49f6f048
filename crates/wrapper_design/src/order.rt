//! The scan chains of a mode, in the order in which they go into chains.
ghost use Rattle.std.specs.Prelude.{◌≡◌, ◌^◌, ◌<◌, map, IfOk, sum};
ghost use Rattle.plan_model.specs.Plans.{greatest};
ghost use Rattle.wrapper_design.specs.declared.order.ScanChain.{ScanChain};
ghost use Rattle.wrapper_design.specs.Loads.{IsOrder};

use std::alloc::{AllocError, Global};
use std::cmp::Reverse;

/// A scan chain by its length and its place in the module. The order is longest first, ties by place.
#[derive(Clone, Copy, PartialEq, Eq, PartialOrd, Ord, Drop)]
pub struct ScanChain {
    /// Its cells.
    pub length: Reverse<u64>,
    /// Its place in the module, from 0.
    pub place: u64,
}

/// The lengths together.
pub fn flops_of(lengths: &[u64]) -> u64
    requires { sum lengths.now < 2 ^ 63 }
    ensures { result ≡ sum lengths.now }
{
    lengths.iter().sum()
}

/// The scan chains, longest first, ties by place.
pub fn longest_first(alloc: Global, lengths: &[u64]) -> Result<Vec<ScanChain>, AllocError>
    ensures { IfOk result (λ v. IsOrder lengths.now v.items) }
{
    let mut order = Vec::with_capacity(alloc, lengths.len())?;
    for (place, length) in lengths.iter().enumerate() {
        order.push(ScanChain {
            length: Reverse(*length),
            place: place as u64,
        })?;
    }
    order.sort()?;
    Ok(order)
}

/// The length of the longest of some scan chains, 0 where there is none.
pub fn longest_of(order: &[ScanChain]) -> u64
    ensures { result ≡ greatest (map (λ (c : ScanChain). c.length.0) order.now) }
{
    let mut longest: u64 = 0;
    for chain in order {
        longest = longest.max(chain.length.0);
    }
    longest
}
