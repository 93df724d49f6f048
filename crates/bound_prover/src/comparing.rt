//! Whether two proofs say the same.
ghost use Rattle.std.specs.Prelude.{◌≡◌, true, map};
ghost use Rattle.plan_model.specs.Proofs.{list_value, node_value, pricing_value, proof_value, weights_value};

use plan_model::{Node, Pricing, Proof, TestList, Weights};
use soc_model::TestId;

/// Whether two lists have equal numbers.
fn equal_numbers(one: &[u64], other: &[u64]) -> bool
    ensures { result ≡ true → one.now ≡ other.now }
{
    one == other
}

/// Whether two lists have equal pairs.
fn equal_pairs(one: &[(u64, u64)], other: &[(u64, u64)]) -> bool
    ensures { result ≡ true → one.now ≡ other.now }
{
    one == other
}

/// Whether two lists have equal tests.
fn equal_tests(one: &[TestId], other: &[TestId]) -> bool
    ensures { result ≡ true → one.now ≡ other.now }
{
    one == other
}

/// Whether two lists of a proof are equal.
fn equal_list(one: &TestList, other: &TestList) -> bool
    ensures { result ≡ true → list_value one.now ≡ list_value other.now }
{
    match (one, other) {
        (TestList::Turns { tests }, TestList::Turns { tests: others }) => {
            equal_tests(tests, others)
        }
        (
            TestList::TurnsOn { rank, tests },
            TestList::TurnsOn {
                rank: other_rank,
                tests: others,
            },
        ) => rank == other_rank && equal_tests(tests, others),
        (
            TestList::Crowd { most, tests },
            TestList::Crowd {
                most: other_most,
                tests: others,
            },
        ) => most == other_most && equal_tests(tests, others),
        (TestList::Power { near }, TestList::Power { near: other_near }) => near == other_near,
        _ => false,
    }
}

/// Whether two leaves weigh equally.
fn equal_weights(one: &Weights, other: &Weights) -> bool
    ensures { result ≡ true → weights_value one.now ≡ weights_value other.now }
{
    one.wire == other.wire
        && equal_numbers(&one.ranks, &other.ranks)
        && equal_pairs(&one.lists, &other.lists)
}

/// Whether two leaves price equally.
fn equal_pricing(one: &Pricing, other: &Pricing) -> bool
    ensures { result ≡ true → pricing_value one.now ≡ pricing_value other.now }
{
    one.grain == other.grain
        && equal_pairs(&one.prices, &other.prices)
        && equal_pairs(&one.lists, &other.lists)
}

/// Whether two nodes are equal.
fn equal_node(one: &Node, other: &Node) -> bool
    ensures { result ≡ true → node_value one.now ≡ node_value other.now }
{
    match (one, other) {
        (
            Node::Wide { rank, width },
            Node::Wide {
                rank: other_rank,
                width: other_width,
            },
        ) => rank == other_rank && width == other_width,
        (
            Node::Place {
                module,
                rank,
                twins,
            },
            Node::Place {
                module: other_module,
                rank: other_rank,
                twins: others,
            },
        ) => module == other_module && rank == other_rank && equal_numbers(twins, others),
        (Node::Sum { weights }, Node::Sum { weights: others }) => equal_weights(weights, others),
        (
            Node::Pack { pricing },
            Node::Pack {
                pricing: other_pricing,
            },
        ) => { equal_pricing(pricing, other_pricing) }
        _ => false,
    }
}

/// Whether the lists of two proofs are equal.
fn equal_lists(one: &[TestList], other: &[TestList]) -> bool
    ensures { result ≡ true → map list_value one.now ≡ map list_value other.now }
{
    if one.len() != other.len() {
        return false;
    }
    for place in 0..one.len() {
        if !equal_list(&one[place], &other[place]) {
            return false;
        }
    }
    true
}

/// Whether the nodes of two proofs are equal.
fn equal_nodes(one: &[Node], other: &[Node]) -> bool
    ensures { result ≡ true → map node_value one.now ≡ map node_value other.now }
{
    if one.len() != other.len() {
        return false;
    }
    for place in 0..one.len() {
        if !equal_node(&one[place], &other[place]) {
            return false;
        }
    }
    true
}

/// Whether two proofs are equal.
pub(crate) fn equal_proof(one: &Proof, other: &Proof) -> bool
    ensures { result ≡ true → proof_value one.now ≡ proof_value other.now }
{
    one.claimed == other.claimed
        && equal_lists(&one.lists, &other.lists)
        && equal_nodes(&one.nodes, &other.nodes)
}
