//! The rows of the table of items, and what its columns hold.

/// A keyword that begins an item, one row of the table.
#[derive(Clone, Copy, PartialEq, Eq, Hash)]
pub enum Key {
    /// The chip's name.
    SocName,
    /// The number of modules.
    TotalModules,
    /// The two flags follow it.
    Options,
    /// `Power` with a flag, directly after `Options` and its flags.
    PowerFlag,
    /// `XY` with a flag, directly after `Options` and its flags.
    XyFlag,
    /// A module that is spoken of from here on.
    Module,
    /// The module's level.
    Level,
    /// Its input terminals.
    Inputs,
    /// Its output terminals.
    Outputs,
    /// Its bidirectional terminals.
    Bidirs,
    /// Its setup cycles.
    Setup,
    /// The lengths of its scan chains.
    ScanChains,
    /// The number of its tests.
    TotalTests,
    /// A test of it that is spoken of from here on.
    Test,
    /// Whether the test uses the scan chains.
    ScanUse,
    /// Whether the test uses the test access wires.
    TamUse,
    /// The test's patterns.
    Patterns,
    /// The test's power.
    Power,
}

/// What an item speaks of.
#[derive(Clone, Copy, PartialEq, Eq, Hash)]
pub enum Subject {
    /// The chip.
    Chip,
    /// The module of this number.
    OfModule(u64),
    /// Of the module of the first number the test of the second.
    OfTest(u64, u64),
}

/// What follows a keyword.
#[derive(Clone, Copy)]
pub enum Shape {
    /// Nothing.
    NoWord,
    /// A printable word.
    OneWord,
    /// A number.
    OneNumber,
    /// A flag.
    OneFlag,
    /// A number, and then as many numbers.
    ManyNumbers,
}

/// The places where more may stand than elsewhere.
#[derive(Clone, Copy)]
pub enum After {
    /// Directly after `Options` and its flags.
    AfterOptions,
    /// Directly after a module's number.
    AfterNumber,
    /// Directly after place data.
    AfterData,
    /// Anywhere else.
    Elsewhere,
}

/// What may be given once: a keyword of a subject.
#[derive(Clone, Copy, PartialEq, Eq, Hash)]
pub struct Given {
    /// What it speaks of.
    pub subject: Subject,
    /// The keyword.
    pub key: Key,
}
