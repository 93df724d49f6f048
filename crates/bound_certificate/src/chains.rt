//! The precedence chain that the planner's bound weighs among its candidates. Tests go by their places among the live
//! tests of the chip, in its order; sums are in cycles.
ghost use Rattle.std.specs.Prelude.{◌≡◌, ◌<◌, List, ◌∷◌, length, reverse, slice_get, IfOk, IfSome, Some};
ghost use Rattle.std.specs.List.{All, Contains};
ghost use Rattle.soc_model.specs.declared.TestId.{TestId as TheTestId};
ghost use Rattle.soc_model.specs.Chips.{SocValue};
ghost use Rattle.plan_model.specs.Plans.{LimitsValue};
ghost use Rattle.plan_model.specs.Rules.{Each};
ghost use Rattle.plan_model.specs.Certificates.{IsChainItem};
ghost use Rattle.bound_certificate.specs.Best.{GoesBack, IsPrintedChain, IsGreatestChain};
ghost use Rattle.bound_certificate.specs.Nodes.{NodeValue, node_values, AreNodes};
ghost use Rattle.bound_certificate.specs.Sums.{AreSums};
ghost use Rattle.bound_certificate.specs.Chains.{IsBest, better_place, HasEarlier, SumsFall};
ghost use Rattle.bound_certificate.specs.Winners.{names_of};

use crate::nodes::{PrecedenceNode, nodes_of};
use crate::sums::greatest_sums;
use live_tests::Problem;
use outside::{NoMemory, push};
use soc_model::TestId;
use std::alloc::Global;

/// The test of greater sum of two, or the earlier one.
fn better(sums: &[u128], best: Option<usize>, place: usize) -> Option<usize>
    requires within { place < length sums.now }
    requires best_within { IfSome best (λ b. b < length sums.now) }
    ensures better { result ≡ better_place sums.now best place }
    ensures within { IfSome result (λ b. b < length sums.now) }
{
    let Some(best) = best else {
        return Some(place);
    };
    if sums[best] < sums[place] || (sums[place] == sums[best] && place < best) {
        Some(place)
    } else {
        Some(best)
    }
}

/// Of these tests the first of greatest sum. None comes exactly where there are none.
fn best_of(sums: &[u128], places: &[usize]) -> Option<usize>
    requires { All (λ p. p < length sums.now) places.now }
    ensures best { IsBest sums.now (Contains places.now) result }
    ensures within { IfSome result (λ b. b < length sums.now) }
{
    let mut best = None;
    for place in places {
        best = better(sums, best, *place);
    }
    best
}

/// Of the tests that others precede the first of greatest sum. None comes exactly where there are none.
fn last_test(nodes: &[PrecedenceNode], sums: &[u128]) -> Option<usize>
    requires { length sums.now ≡ length nodes.now }
    ensures best { IsBest sums.now (HasEarlier (node_values nodes.now)) result }
    ensures within { IfSome result (λ b. b < length sums.now) }
{
    let mut best = None;
    for place in 0..nodes.len() {
        if nodes[place].before.is_empty() {
            continue;
        }
        best = better(sums, best, place);
    }
    best
}

/// The chain that ends in a test: from each test back to the one of greatest sum before it.
fn chain_to(
    alloc: Global,
    nodes: &[PrecedenceNode],
    sums: &[u128],
    last: usize,
) -> Result<Vec<TestId>, NoMemory>
    requires within { last < length nodes.now }
    requires long { length sums.now ≡ length nodes.now }
    requires fall { SumsFall (node_values nodes.now) sums.now }
    ensures { IfOk result (λ chain. (soc : SocValue) (limits : LimitsValue) (n : NodeValue) →
        AreNodes soc limits (node_values nodes.now) →
        AreSums soc limits (node_values nodes.now) sums.now →
        slice_get (node_values nodes.now) last ≡ Some n →
        (back : List TheTestId) × (chain.items ≡ reverse (n.id ∷ back))
        × GoesBack soc limits n.id back) }
{
    let mut chain = Vec::new(alloc);
    push(&mut chain, nodes[last].id)?;
    let mut test = last;
    while let Some(earlier) = best_of(sums, &nodes[test].before) {
        test = earlier;
        push(&mut chain, nodes[test].id)?;
    }
    chain.reverse();
    Ok(chain)
}

/// The chain that ends in the first test of greatest sum among those that others precede. None comes exactly where there
/// are none.
fn best_chain(
    alloc: Global,
    nodes: &[PrecedenceNode],
    sums: &[u128],
) -> Result<Option<Vec<TestId>>, NoMemory>
    requires long { length sums.now ≡ length nodes.now }
    requires fall { SumsFall (node_values nodes.now) sums.now }
    ensures { IfOk result (λ chain. (soc : SocValue) (limits : LimitsValue) →
        AreNodes soc limits (node_values nodes.now) →
        AreSums soc limits (node_values nodes.now) sums.now →
        IsPrintedChain soc limits (names_of chain)) }
{
    let Some(last) = last_test(nodes, sums) else {
        return Ok(None);
    };
    Ok(Some(chain_to(alloc, nodes, sums, last)?))
}

/// The precedence chain that is a candidate of the planner's bound. The sum of a live test is the greatest sum of lower
/// times, on all wires, over a list of live tests that ends in it and has each test but the first behind its forerunner
/// in a precedence. The chain ends in the test of greatest sum among the live tests that some live test precedes, and
/// goes back from each test to the one of greatest sum among those that precede it, the first in the order of the chip,
/// until none does. None comes exactly where no live test precedes another one. No such list of at least two tests has a
/// greater sum than the chain.
pub fn printed_chain(alloc: Global, problem: &Problem<'_>) -> Result<Option<Vec<TestId>>, NoMemory>
    ensures printed { IfOk result
        (λ chain. IsPrintedChain problem.now.soc problem.now.limits (names_of chain)) }
    ensures keeps { IfOk result (λ chain. IfSome chain (λ tests.
        Each (IsChainItem problem.now.soc problem.now.limits) tests.items)) }
    ensures greatest { IfOk result
        (λ chain. IsGreatestChain problem.now.soc problem.now.limits (names_of chain)) }
{
    // opened for what it keeps
    let _ = &problem.limits;
    let nodes = nodes_of(alloc, problem)?;
    let sums = greatest_sums(alloc, &nodes)?;
    best_chain(alloc, &nodes, &sums)
}
