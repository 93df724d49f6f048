//! The commands for testers. From a plan that is accepted: what a tester drives and compares (`vectors`), and what a chip whose every cell
//! has a bit counts as it is stepped through the plan (`simulate`), with contents that are made from a seed. Test data: what a seed makes
//! for a chip (`data`), and a plan with test data of the user's own, as one program for the whole chip: pattern retargeting.
//!
//! A plan that is accepted says when and over which wires each test of a core runs. Its vectors with the contents of the data are
//! written by `retarget`, and whatever the contents are that agree with the data, the plan's run with them is as the text shows it. Data
//! suits a chip where it has each live test over the wires with all its patterns and bits; else its refusal is one line. What `stil`,
//! `vcd` and `verilog` write has the same bits; beside the wires stand the controls that tell the wrappers of the chip when to shift and
//! when to capture.
//!
//! What `data` writes is read back as data that suits the chip, and the made contents agree with it. A long text is never in memory: it is
//! written as it is made. Errors are a line that refuses a file, a run or a text that is too long, a file that can't be read, an output
//! that fails, and out of memory, before the first byte.
#![tactic(auto)]

mod bits;
mod blocks;
mod contents;
mod counts;
mod data_lines;
mod data_runs;
mod ending;
mod laws;
mod loading;
mod made_text;
mod making;
mod parts;
mod programs;
mod running;
mod simulating;
mod vectors;
mod writing;

pub use contents::{DataContents, WordBytes};
pub use data_runs::decide_run;
pub use ending::{DataRequest, DataRun, Ending, RunForm, decided};
pub use laws::{
    contents_have_data, data_files_say_one_thing, data_of_contents_gives_vectors,
    full_data_gives_vectors, retargeted_texts_run_right,
};
pub use loading::{load_suiting, long_run};
pub use making::decide_data;
pub use simulating::decide_simulate;
pub use vectors::decide_vectors;
pub use writing::write_ending;

/// The cycles of a run with test data times its wires, at most. A plan without wires counts as one of one wire.
pub const LONG_RUN_MOST: u128 = 100_000_000;

/// Bytes that are written at a time, at most.
const BLOCK: usize = 65_536;
