//! What a proof's text says is settled. Each law is the contract of a function that does nothing: a caller learns it by the call.
ghost use Rattle.proof_text.specs.TextLaws.{SayOneProof, ProofsAreNotRefused, ProofsAreRefusedOnce, ProofTextsHaveAnswers, ProofsAreAnswered};
ghost use Rattle.proof_text.specs.TextLaws.{PrintedProofsAreRead, PrintedProofsAreAnswered};

use crate::reading::ProofText;
use keyword_text::texts_are_settled;

/// A text says at most one proof; one that says a proof is refused at no line, and no text at more than one; each text says a proof
/// in the grammar's range, or is refused at a line; and one that says a proof is answered with it, unless memory runs out.
pub fn proof_texts_are_settled()
    ensures say_one { SayOneProof }
    ensures not_refused { ProofsAreNotRefused }
    ensures refused_once { ProofsAreRefusedOnce }
    ensures have_answers { ProofTextsHaveAnswers }
    ensures are_answered { ProofsAreAnswered }
{
    texts_are_settled::<ProofText>()
}

/// The printed text of a proof that a text may say, with its numbers in the grammar's range, says that proof, and is answered with
/// it, unless memory runs out.
pub fn printed_proofs_are_read()
    ensures said { PrintedProofsAreRead }
    ensures answered { PrintedProofsAreAnswered }
{}
