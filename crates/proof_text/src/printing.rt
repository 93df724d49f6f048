//! Prints a proof, line by line.
ghost use Rattle.std.specs.Prelude.{◌≡◌, ◌++◌, map, OnOk, IfOk};
ghost use Rattle.std.specs.List.{flat_map};
ghost use Rattle.keyword_text.specs.Lines.{spaced, spaced_numbers, line_text, text_of};
ghost use Rattle.plan_model.specs.Proofs.{list_value, weights_value, pricing_value, node_value, proof_value};
ghost use Rattle.proof_text.specs.Tokens.{spelling};
ghost use Rattle.proof_text.specs.ProofLines.{test_numbers, use_tokens, list_line, weight_tokens, price_numbers, price_tokens, node_line, head_lines, proof_text};
ghost use Rattle.proof_text.specs.Answers.{IsReadAgain};

use keyword_text::push_numbers;
use outside::{NoMemory, extend, push_spaced};
use plan_model::{Node, Pricing, Proof, TestList, Weights};
use soc_model::TestId;
use std::alloc::Global;

/// The numbers of tests, each with a space before it.
fn push_tests(to: &mut Vec<u8>, tests: &[TestId]) -> Result<(), NoMemory>
    ensures { OnOk result
        (to.new.items ≡ to.old.items ++ spaced_numbers (flat_map test_numbers tests.now)) }
{
    for test in tests {
        push_spaced(to, test.module)?;
        push_spaced(to, test.test)?;
    }
    Ok(())
}

fn push_list(to: &mut Vec<u8>, list: &TestList) -> Result<(), NoMemory>
    ensures { OnOk result
        (to.new.items ≡ to.old.items ++ line_text spelling (list_line (list_value list.now))) }
{
    match list {
        TestList::Turns { tests } => {
            extend(to, b"Turns")?;
            push_tests(to, tests.as_slice())?;
        }
        TestList::TurnsOn { rank, tests } => {
            extend(to, b"TurnsOn")?;
            push_spaced(to, *rank)?;
            push_tests(to, tests.as_slice())?;
        }
        TestList::Crowd { most, tests } => {
            extend(to, b"Crowd")?;
            push_spaced(to, *most)?;
            push_tests(to, tests.as_slice())?;
        }
        TestList::Power { near } => {
            extend(to, b"Power")?;
            push_spaced(to, *near)?;
        }
    }
    extend(to, b"\n")
}

/// The weights of lists, each behind the word `Of` and the place of its list.
fn push_uses(to: &mut Vec<u8>, uses: &[(u64, u64)]) -> Result<(), NoMemory>
    ensures { OnOk result
        (to.new.items ≡ to.old.items ++ spaced spelling (flat_map use_tokens uses.now)) }
{
    for list in uses {
        extend(to, b" Of")?;
        push_spaced(to, list.0)?;
        push_spaced(to, list.1)?;
    }
    Ok(())
}

fn push_weights(to: &mut Vec<u8>, weights: &Weights) -> Result<(), NoMemory>
    ensures { OnOk result (to.new.items
        ≡ to.old.items ++ spaced spelling (weight_tokens (weights_value weights.now))) }
{
    push_spaced(to, weights.wire)?;
    push_numbers(to, weights.ranks.as_slice())?;
    push_uses(to, weights.lists.as_slice())
}

/// Modules, each with its price, with a space before each number.
fn push_prices(to: &mut Vec<u8>, prices: &[(u64, u64)]) -> Result<(), NoMemory>
    ensures { OnOk result
        (to.new.items ≡ to.old.items ++ spaced_numbers (flat_map price_numbers prices.now)) }
{
    for price in prices {
        push_spaced(to, price.0)?;
        push_spaced(to, price.1)?;
    }
    Ok(())
}

fn push_pricing(to: &mut Vec<u8>, pricing: &Pricing) -> Result<(), NoMemory>
    ensures { OnOk result (to.new.items
        ≡ to.old.items ++ spaced spelling (price_tokens (pricing_value pricing.now))) }
{
    push_spaced(to, pricing.grain)?;
    push_prices(to, pricing.prices.as_slice())?;
    push_uses(to, pricing.lists.as_slice())
}

fn push_node(to: &mut Vec<u8>, node: &Node) -> Result<(), NoMemory>
    ensures { OnOk result
        (to.new.items ≡ to.old.items ++ line_text spelling (node_line (node_value node.now))) }
{
    match node {
        Node::Wide { rank, width } => {
            extend(to, b"Wide")?;
            push_spaced(to, *rank)?;
            push_spaced(to, *width)?;
        }
        Node::Place {
            module,
            rank,
            twins,
        } => {
            extend(to, b"Place")?;
            push_spaced(to, *module)?;
            push_spaced(to, *rank)?;
            push_numbers(to, twins.as_slice())?;
        }
        Node::Sum { weights } => {
            extend(to, b"Sum")?;
            push_weights(to, weights)?;
        }
        Node::Pack { pricing } => {
            extend(to, b"Pack")?;
            push_pricing(to, pricing)?;
        }
    }
    extend(to, b"\n")
}

fn push_lists(to: &mut Vec<u8>, lists: &[TestList]) -> Result<(), NoMemory>
    ensures { OnOk result (to.new.items
        ≡ to.old.items ++ text_of spelling (map list_line (map list_value lists.now))) }
{
    for list in lists {
        push_list(to, list)?;
    }
    Ok(())
}

fn push_nodes(to: &mut Vec<u8>, nodes: &[Node]) -> Result<(), NoMemory>
    ensures { OnOk result (to.new.items
        ≡ to.old.items ++ text_of spelling (map node_line (map node_value nodes.now))) }
{
    for node in nodes {
        push_node(to, node)?;
    }
    Ok(())
}

/// The first two lines: the form, and the claim.
fn push_head(to: &mut Vec<u8>, claimed: u64) -> Result<(), NoMemory>
    ensures { OnOk result (to.new.items ≡ to.old.items ++ text_of spelling (head_lines claimed)) }
{
    extend(to, b"Proof")?;
    push_spaced(to, 1)?;
    extend(to, b"\nBound")?;
    push_spaced(to, claimed)?;
    extend(to, b"\n")
}

/// The text of a proof: a line for each list and each node, in their order, behind the lines of the form and of the claim.
///
/// Reading it gives the proof again, where a text may say it and its numbers are in the grammar's range. However deep the branches
/// are, nothing recurses over them.
pub fn print_proof(alloc: Global, proof: &Proof) -> Result<Vec<u8>, NoMemory>
    ensures text { IfOk result (λ text. text.items ≡ proof_text (proof_value proof.now)) }
    ensures read_again { IfOk result (λ text. IsReadAgain text.items (proof_value proof.now)) }
{
    let mut text = Vec::new(alloc);
    push_head(&mut text, proof.claimed)?;
    push_lists(&mut text, proof.lists.as_slice())?;
    push_nodes(&mut text, proof.nodes.as_slice())?;
    Ok(text)
}
