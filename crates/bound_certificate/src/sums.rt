//! The greatest sum of lower times over a precedence chain that ends in a test, for each live test. Times and sums are in
//! cycles, and tests go by their places among the live tests of the chip.
ghost use Rattle.std.specs.Prelude.{◌≡◌, ◌^◌, ◌<◌, length, replicate, IfOk};
ghost use Rattle.soc_model.specs.Chips.{SocValue};
ghost use Rattle.plan_model.specs.Plans.{LimitsValue};
ghost use Rattle.bound_certificate.specs.declared.sums.Sum.TheVariants.{Unknown};
ghost use Rattle.bound_certificate.specs.Nodes.{node_values, AreNodes};
ghost use Rattle.bound_certificate.specs.Sums.{HasSum, AreRight, GoOn, AreAcyclic, IsUnderWay, AreSums};

use crate::nodes::PrecedenceNode;
use outside::{NoMemory, push};
use std::alloc::Global;

/// What is known of the greatest sum of a test.
#[derive(Clone, Copy)]
enum Sum {
    /// Nothing yet.
    Unknown,
    /// The sums of the tests before it are being sought.
    Begun,
    /// The sum.
    Known { sum: u128 },
}

/// The greatest sum of a test: its own lower time, and the greatest of the sums of the tests before it. All sums that are
/// found on the way are noted, so that each is sought once. A call goes one test back, so that no more are open than the
/// chip has live tests.
fn greatest_sum(nodes: &[PrecedenceNode], sums: &mut Vec<Sum>, test: usize) -> u128
    requires within { test < length nodes.now }
    requires few { length nodes.now < 2 ^ 64 }
    requires long { length sums.old.items ≡ length nodes.now }
    requires under_way { IsUnderWay (node_values nodes.now) sums.old.items test }
    ensures goes_on { GoOn (node_values nodes.now) sums.old.items sums.new.items }
    ensures sum { (soc : SocValue) (limits : LimitsValue) →
        AreNodes soc limits (node_values nodes.now) →
        AreRight soc limits (node_values nodes.now) sums.old.items →
        HasSum soc limits (node_values nodes.now) test result }
{
    match sums[test] {
        Sum::Known { sum } => return sum,
        Sum::Begun => unreachable!(),
        Sum::Unknown => {}
    }
    sums[test] = Sum::Begun;
    let mut most = 0;
    for earlier in &nodes[test].before {
        let sum = greatest_sum(nodes, sums, *earlier);
        most = most.max(sum);
    }
    let sum = most + u128::from(nodes[test].time);
    sums[test] = Sum::Known { sum };
    sum
}

/// A sum that is not yet known, for each of `count` tests.
fn unknown_sums(alloc: Global, count: usize) -> Result<Vec<Sum>, NoMemory>
    ensures { IfOk result (λ sums. sums.items ≡ replicate count Unknown) }
{
    let mut sums = Vec::new(alloc);
    for _ in 0..count {
        push(&mut sums, Sum::Unknown)?;
    }
    Ok(sums)
}

/// The greatest sums of all tests.
pub fn greatest_sums(alloc: Global, nodes: &[PrecedenceNode]) -> Result<Vec<u128>, NoMemory>
    requires { AreAcyclic (node_values nodes.now) }
    ensures { IfOk result (λ sums. (soc : SocValue) (limits : LimitsValue) →
        AreNodes soc limits (node_values nodes.now) →
        AreSums soc limits (node_values nodes.now) sums.items) }
{
    let mut known = unknown_sums(alloc, nodes.len())?;
    let mut sums = Vec::new(alloc);
    for test in 0..nodes.len() {
        let sum = greatest_sum(nodes, &mut known, test);
        push(&mut sums, sum)?;
    }
    Ok(sums)
}
