//! Proofs of bounds by cases on buses: the command `prove` looks for one, decided here before anything is written. Nothing is believed
//! of what the search finds: its text is read and checked before it is answered.
#![tactic(auto)]

mod accepting;
mod choosing;
mod comparing;
mod deciding;
mod progress;
mod proving;

pub use deciding::decide_prove;
pub use proving::{proved, proved_text};
