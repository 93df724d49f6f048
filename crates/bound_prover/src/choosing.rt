//! A proof that was found, and the better of two.
ghost use Rattle.std.specs.Prelude.{◌≡◌, IfOk};
ghost use Rattle.plan_model.specs.Proofs.{proof_value};
ghost use Rattle.proof_text.specs.ProofLines.{proof_text};

use outside::{NoMemory, both};
use plan_model::Proof;
use proof_text::print_proof;
use std::alloc::Global;
use std::marker::Model;

/// A proof that was found, with its text. Clauses see what it says.
#[derive(Drop)]
pub(crate) struct FoundProof {
    pub proof: Proof,
    pub text: Vec<u8>,
}

impl Model for FoundProof {
    ghost use Rattle.std.specs.Prelude.{◌≡◌};
    ghost use Rattle.plan_model.specs.Proofs.{ProofValue, proof_value};
    ghost use Rattle.proof_text.specs.ProofLines.{proof_text};

    ghost Value = { ProofValue };

    ghost view = { λ f. proof_value f.proof };

    ghost invariant = { λ f. f.text.items ≡ proof_text (proof_value f.proof) };
}

impl FoundProof {
    /// A proof with its text. `NoMemory` where memory runs out.
    pub fn new(alloc: Global, proof: Proof) -> Result<FoundProof, NoMemory>
        ensures { IfOk result (λ found. found ≡ proof_value proof) }
    {
        let text = print_proof(alloc, &proof);
        let (proof, text) = both(Ok(proof), text)?;
        Ok(FoundProof { proof, text })
    }

    /// How many bytes its text has.
    fn text_len(&self) -> usize {
        self.text.len()
    }

    /// Its text.
    pub fn into_text(self) -> Vec<u8>
        ensures { result.items ≡ proof_text self }
    {
        let FoundProof { proof, text } = self;
        // dropped by a call: the end of the scope would drop each of its parts, and be proved for each
        drop(proof);
        text
    }
}

/// One of two values; the other is dropped here.
fn one_of<A: Drop>(first: A, second: A, is_second: bool) -> A {
    if is_second { second } else { first }
}

/// The shorter one of two proofs; the first one where neither is shorter.
fn shorter_of(alloc: Global, first: Proof, second: Proof) -> Result<FoundProof, NoMemory> {
    let first = FoundProof::new(alloc, first);
    let second = FoundProof::new(alloc, second);
    let (first, second) = both(first, second)?;
    let is_second = second.text_len() < first.text_len();
    Ok(one_of(first, second, is_second))
}

/// The better of two proofs, where the second was found: it claims more, or as much in a shorter text. It is the first one where
/// neither is better.
pub(crate) fn better_of(
    alloc: Global,
    first: Proof,
    second: Result<Proof, NoMemory>,
) -> Result<FoundProof, NoMemory> {
    let (first, second) = both(Ok(first), second)?;
    let (claimed, other) = (first.claimed, second.claimed);
    if claimed == other {
        return shorter_of(alloc, first, second);
    }
    FoundProof::new(alloc, one_of(first, second, other > claimed))
}
