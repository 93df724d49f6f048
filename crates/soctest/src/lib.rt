//! The whole program over any files and outputs: from the words of a command line and a shelf of files to an answer, which is
//! decided first and then written once. The program over the files of the system and standard output is `soctest_program`.
#![tactic(auto)]

mod deciding;
mod limits;
mod top;

pub use commands::Status;
pub use limits::limits_are_as_written;
pub use top::{soctest, soctest_with_progress};
