//! The items of a text of limits, as they are read.

use indexmap::IndexSet;
use soc_model::TestId;

/// A number that the limits name at most once.
#[derive(Clone, Copy)]
pub enum Amount {
    Wires,
    Power,
    Budget,
}

/// A keyword that begins an item.
#[derive(Clone, Copy)]
pub enum Key {
    One(Amount),
    Before,
    Profile,
}

/// What a test is named for, with the line of the item's keyword.
#[derive(Clone, Copy)]
pub enum Naming {
    /// As the first test of a precedence.
    First { line: u64 },
    /// As the second test of a precedence.
    Second { line: u64, first: TestId },
    /// As the test of a profile.
    Profiled { line: u64 },
}

/// An item.
#[derive(Drop)]
pub enum Item {
    Number {
        amount: Amount,
        value: u64,
    },
    Precedence {
        line: u64,
        first: TestId,
        second: TestId,
    },
    Steps {
        line: u64,
        test: TestId,
        steps: Vec<(u64, u64)>,
    },
}

/// The items so far.
#[derive(Drop)]
pub struct Items {
    /// Whether the text is of the second form, which has profiles.
    pub second: bool,
    /// The items in the order of the text.
    pub list: Vec<Item>,
    /// The tests that have a profile.
    pub profiled: IndexSet<TestId>,
}

/// What was read of an unfinished item, or of the two words before the items.
#[derive(Drop)]
pub enum Part {
    Title,
    Version,
    Between,
    Wants(Amount),
    ModuleFor(Naming),
    TestFor {
        naming: Naming,
        number: u64,
    },
    StepsFor {
        line: u64,
        test: TestId,
        steps: Vec<(u64, u64)>,
    },
    PowerFor {
        line: u64,
        test: TestId,
        steps: Vec<(u64, u64)>,
        from: u64,
    },
}

/// What was read of a text so far: whole items, and of an unfinished one what there is.
#[derive(Drop)]
pub struct ReadSoFar {
    pub items: Items,
    pub part: Part,
}
