//! What commands over files have in common: their words, how their files are loaded and refused, how they are decided, and the
//! one place that writes. A program over it gives its procedures and its texts.
#![tactic(auto)]

ghost use Rattle.std.specs.Prelude.{◌≡◌};

mod laws;
mod lines;
mod loading;
mod progress;
mod words;
mod writing;

pub use laws::{files_say_one_thing, plans_are_trustworthy};
pub use lines::{
    less_line, limit_word, number_line, push_decimal, push_test, push_text, push_two, run_line,
};
pub use loading::{
    Accepted, Both, answered_with, bad_words, load_all, load_both, load_chip, load_file,
    refused_with,
};
pub use progress::{REPORTS, Unheard, line_room, report_line};
pub use words::{command_of, each_command_has_words, words_after_name};
pub use writing::write_verdict;

/// The greatest length of a .soc file, a limits file, a log, a tree, a program or a proof, in bytes.
pub const FILE_MOST: u64 = 1_048_576;
/// The greatest length of a plan file, in bytes.
pub const PLAN_FILE_MOST: u64 = 33_554_432;
/// The greatest length of a file of test data, in bytes.
pub const DATA_FILE_MOST: u64 = 268_435_456;

/// The most tries of `improve`.
pub const TRIES_MOST: u64 = 10_000_000;

/// The most nodes of a proof that `prove` makes.
pub const NODES_MOST: u64 = 1_000_000;

/// A command, with the names of its files and its numbers in the order of its words.
#[derive(Clone, Copy)]
pub enum Command<'a> {
    /// The text of a chip, in one form.
    Print {
        soc: &'a str,
    },
    /// The cycles that the tests of each module take over 1 to `wires` wires.
    Widths {
        soc: &'a str,
        wires: u64,
    },
    /// A plan for a chip under limits.
    Plan {
        soc: &'a str,
        limits: &'a str,
    },
    /// Whether a plan is good, and its certificate accepted.
    Check {
        soc: &'a str,
        limits: &'a str,
        plan: &'a str,
    },
    /// The schedule of a plan that is accepted, as text.
    Chart {
        soc: &'a str,
        limits: &'a str,
        plan: &'a str,
    },
    /// What a tester drives and compares in a plan that is accepted, with contents that are made from a seed.
    Vectors {
        soc: &'a str,
        limits: &'a str,
        plan: &'a str,
        seed: u64,
    },
    /// A made chip of `n` modules, planned and checked.
    Sample {
        n: u64,
        seed: u64,
    },
    /// The cells that a fail log of a plan that is accepted names.
    Locate {
        soc: &'a str,
        limits: &'a str,
        plan: &'a str,
        log: &'a str,
    },
    /// The bound of a width tree that is accepted, in cycles.
    Tree {
        soc: &'a str,
        limits: &'a str,
        tree: &'a str,
    },
    /// The tests cut into parts of at most `most` patterns, and a plan of the parts.
    Split {
        soc: &'a str,
        limits: &'a str,
        most: u64,
    },
    /// Whether a program of Shifts, Captures and Rests is right for its test in a plan that is accepted.
    Shift {
        soc: &'a str,
        limits: &'a str,
        plan: &'a str,
        program: &'a str,
    },
    /// A plan of no more cycles than one that is accepted, by `tries` tries with draws from a seed.
    Improve {
        soc: &'a str,
        limits: &'a str,
        plan: &'a str,
        tries: u64,
        seed: u64,
    },
    /// The picture of a plan that is accepted.
    Picture {
        soc: &'a str,
        limits: &'a str,
        plan: &'a str,
    },
    /// The counts of a chip that is stepped through a plan that is accepted, with contents that are made from a seed.
    Simulate {
        soc: &'a str,
        limits: &'a str,
        plan: &'a str,
        seed: u64,
    },
    /// The bound of a proof by cases on buses that is accepted, in cycles.
    Bound {
        soc: &'a str,
        limits: &'a str,
        proof: &'a str,
    },
    /// A proof by cases on buses, of at most `nodes` nodes, which claims no more than the cycles of a plan that is accepted.
    Prove {
        soc: &'a str,
        limits: &'a str,
        plan: &'a str,
        nodes: u64,
    },
    /// Test data of a chip, with contents that are made from a seed.
    Data {
        soc: &'a str,
        seed: u64,
    },
    /// What a tester drives and compares in a plan that is accepted, with the contents of test data.
    Retarget {
        soc: &'a str,
        limits: &'a str,
        plan: &'a str,
        data: &'a str,
    },
    /// What `retarget` writes, with the controls of the wrappers, as a pattern of STIL.
    Stil {
        soc: &'a str,
        limits: &'a str,
        plan: &'a str,
        data: &'a str,
    },
    /// What `retarget` writes, with the controls of the wrappers, as a value change dump.
    Vcd {
        soc: &'a str,
        limits: &'a str,
        plan: &'a str,
        data: &'a str,
    },
    /// What `retarget` writes, with the controls of the wrappers, as a test bench in Verilog.
    Verilog {
        soc: &'a str,
        limits: &'a str,
        plan: &'a str,
        data: &'a str,
    },
    /// What holds up the cycles of a plan that is accepted, as text.
    Report {
        soc: &'a str,
        limits: &'a str,
        plan: &'a str,
    },
    /// The picture of a plan that is accepted, with the bound of a proof that is accepted: `picture` with one file more.
    PictureWithProof {
        soc: &'a str,
        limits: &'a str,
        plan: &'a str,
        proof: &'a str,
    },
}

/// How a call ended. Its number is the status of the program.
#[derive(Clone, Copy, PartialEq, Eq, Debug)]
pub enum Status {
    /// The answer is written.
    Done,
    /// A file is refused; one line says why.
    Refused,
    /// The words are no command.
    BadWords,
    /// A file can't be read.
    ReadFault,
    /// A file is longer than its limit.
    TooLong,
    /// The output failed; a prefix is written.
    WriteFault,
    /// Memory ran out; nothing is written.
    NoMemory,
}

/// The files of a command.
#[derive(Clone, Copy, PartialEq, Eq, Debug)]
pub enum FileKind {
    Soc,
    Limits,
    Plan,
    Tree,
    Program,
    Log,
    Proof,
    Data,
}

/// How a call ends, decided before anything is written.
#[derive(Drop)]
pub enum Verdict {
    /// This text is written, and the call ends with its status.
    Answered { status: Status, text: Vec<u8> },
    /// A file can't be read; a line says which.
    CannotRead { file: FileKind },
    /// Memory ran out.
    NoMemory,
}

impl Status {
    ghost use Rattle.commands.specs.Ends.{status_number};

    /// The exit status of the program.
    pub fn number(&self) -> u8
        ensures { result ≡ status_number self.now }
    {
        match self {
            Status::Done => 0,
            Status::Refused => 1,
            Status::BadWords => 2,
            Status::ReadFault => 3,
            Status::TooLong => 4,
            Status::WriteFault => 5,
            Status::NoMemory => 6,
        }
    }
}
