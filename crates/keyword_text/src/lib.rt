//! Texts of keywords and numbers: what their words stand for, reading them, and the laws of reading, once for all formats.
//!
//! A format is put on it so:
//!
//! - an enumeration of its keywords and a table of them with their spellings, a [`Spelled`] each;
//! - in its definitions a `Grammar` (`specs/Texts.antt`): keywords and greatest number, the words of each value, and which values are
//!   allowed. What a text says, and the line at which it is refused, follow from that alone;
//! - in its definitions a `Machine` (`specs/Machines.antt`): a state at the beginning, the state after one more word, and the value where
//!   the words may end;
//! - `impl` [`Format`] for what its reader keeps from word to word: a step and an end, each as the machine's;
//! - in its proofs one `ReadsGrammar`: words that may end are those of their value, the words of each value are read, each state may still
//!   be ended, each keyword has a word.
//!
//! Then [`read_by`] reads its texts, and [`texts_are_settled`] has their laws. A format that is printed line by line has its lines from
//! `specs/Lines.antt`, and that they are read back from `proofs/Printed.antt`.
#![tactic(auto)]

mod format;
mod laws;
mod printing;
mod reading;
mod tokens;

pub use format::Format;
pub use laws::texts_are_settled;
pub use printing::{push_listed, push_numbers};
pub use reading::read_by;
pub use tokens::{Spelled, Token, token_of};
