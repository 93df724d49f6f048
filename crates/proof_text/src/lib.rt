//! The text of a proof by cases on buses: reading and printing it, and the law that what it says is settled.
//!
//! Buses go by their ranks, the widest first, counted from 0; modules and tests by their numbers; widths are in wires, claims
//! in cycles. What a proof shows is the matter of `bus_proofs`.
#![tactic(auto)]

mod parts;
mod printing;
mod reading;
mod text_laws;
mod tokens;
mod words;

pub use printing::print_proof;
pub use reading::read_proof;
pub use text_laws::{printed_proofs_are_read, proof_texts_are_settled};
use thiserror::Error;

/// Why no proof was read of a text.
#[derive(Debug, Drop, Error)]
pub enum ProofTextFault {
    /// The grammar refuses the text: on this line stands the first word with which no proof's text begins so, or the text
    /// ends too early on it.
    #[error("line {line} of the proof's text: no proof goes on so")]
    Text { line: u64 },
    /// There was no memory for the proof.
    #[error("out of memory while the proof's text was read")]
    NoMemory,
}
