//! Reads a whole text.
ghost use Rattle.keyword_text.specs.Reads.{Makes};
ghost use Rattle.proof_text.specs.Answers.{ProofRead};
ghost use Rattle.proof_text.specs.Reads.{state_of};
ghost use Rattle.proof_text.specs.Words.{step as step_value};

use crate::ProofTextFault;
use crate::parts::{Part, ReadSoFar};
use crate::tokens::{KEYWORDS, Keyword};
use crate::words::{end_proof, new_draft, step_token};
use keyword_text::{Format, Spelled, Token, read_by};
use outside::{Stop, Unread};
use plan_model::{PLAN_NUMBER_MOST, Proof};
use std::alloc::Global;

/// What was read of a proof's text so far. It stands in a box, so that no more than a pointer moves from word to word.
#[derive(Drop)]
pub struct ProofText {
    alloc: Global,
    read: Box<ReadSoFar>,
}

impl Format for ProofText {
    type Keyword = Keyword;

    type Value = Proof;

    type Fault = ProofTextFault;

    ghost use Rattle.plan_model.specs.Proofs.{ProofValue, proof_value};
    ghost use Rattle.proof_text.specs.Grammar.{proof_grammar};
    ghost use Rattle.proof_text.specs.Words.{State, proof_machine};
    ghost use Rattle.proof_text.specs.Answers.{proof_unread};

    ghost State = { State };

    ghost Meaning = { ProofValue };

    ghost grammar = { proof_grammar };

    ghost machine = { proof_machine };

    ghost state_of = { state_of };

    ghost meaning_of = { proof_value };

    ghost unread_of = { proof_unread };

    fn keywords() -> &'static [Spelled<Keyword>] {
        &KEYWORDS
    }

    fn most() -> u64 {
        PLAN_NUMBER_MOST
    }

    fn step(self, token: Token<Keyword>) -> Result<ProofText, Stop>
        ensures { Makes state_of (step_value (state_of self) token) result }
    {
        let ProofText { alloc, mut read } = self;
        let so_far = &mut *read;
        match step_token(alloc, &mut so_far.draft, &mut so_far.part, token) {
            Ok(()) => Ok(ProofText { alloc, read }),
            Err(stop) => Err(stop),
        }
    }

    fn end(self) -> Result<Proof, Stop> {
        let ReadSoFar { draft, part } = Box::into_inner(self.read);
        end_proof(draft, part)
    }

    fn fault(unread: Unread) -> ProofTextFault {
        match unread {
            Unread::Refused { line } => ProofTextFault::Text { line },
            Unread::NoMemory => ProofTextFault::NoMemory,
        }
    }
}

/// The proof that a text says: its claim, its lists, and its nodes in the order of the text, which are exactly one node with its
/// branches. All its numbers are in the grammar's range.
///
/// A text is refused exactly where it says none, at the line of the first word with which no proof's text begins so, or at its
/// last line where it ends too early. However deep the branches are, nothing recurses over them.
pub fn read_proof(alloc: Global, bytes: &[u8]) -> Result<Proof, ProofTextFault>
    ensures { ProofRead bytes.now result }
{
    let nothing = ReadSoFar {
        draft: new_draft(alloc),
        part: Part::WantsProof,
    };
    let read = match Box::new(alloc, nothing) {
        Ok(read) => read,
        Err(failed) => {
            // dropped by a call: the end of the scope would drop each of its parts, and be proved for each
            drop(failed);
            return Err(ProofTextFault::NoMemory);
        }
    };
    match read_by(ProofText { alloc, read }, bytes) {
        Ok(proof) => Ok(proof),
        Err(fault) => Err(fault),
    }
}
