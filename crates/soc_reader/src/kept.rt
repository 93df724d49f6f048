//! What is kept of the items of a text, as they are read.

use crate::build::Draft;
use crate::keys::{After, Key, Shape, Subject};
use crate::marks::Marks;
use indexmap::IndexMap;

/// What the word behind a keyword says of the subject.
#[derive(Clone, Copy)]
pub enum ReadValue<'a> {
    /// Nothing: no word stands there, or a list.
    Nothing,
    /// A word.
    Word(&'a [u8]),
    /// A number, on a line.
    Count { number: u64, line: u64 },
    /// A flag.
    Flag(bool),
}

/// A total, on a line.
#[derive(Clone, Copy)]
pub enum Total {
    /// The number of modules.
    Modules { number: u64, line: u64 },
    /// The number of a module's tests.
    Tests { module: u64, number: u64, line: u64 },
}

/// What is kept of the items so far: their chip with their totals, and what the next item is looked up in.
#[derive(Drop)]
pub struct ItemsSoFar<'a> {
    /// The chip that they say.
    pub draft: Draft,
    /// Their totals, in the order of the text.
    pub totals: Vec<Total>,
    /// What is spoken of after them.
    pub opened: Subject,
    /// Where the next item stands.
    pub after: After,
    /// Whether `XY 1` was given.
    pub xy: bool,
    /// What was given.
    pub given: Marks,
    /// The names that modules were given.
    pub names: IndexMap<u64, &'a [u8]>,
}

/// What was read of an unfinished item.
#[derive(Drop)]
pub enum ReadPart<'a> {
    /// Nothing: the last item ended.
    Between,
    /// A keyword whose value comes next.
    Wants {
        subject: Subject,
        key: Key,
        shape: Shape,
    },
    /// A keyword and how many lengths are to come.
    Counted {
        subject: Subject,
        key: Key,
        count: u64,
    },
    /// Some of the lengths.
    Listing {
        subject: Subject,
        key: Key,
        read: Vec<u64>,
        left: u64,
    },
    /// The first word of place data.
    WantsCoordinate,
    /// A word that is place data where a coordinate comes next, and otherwise a module's name.
    NameOrData {
        module: u64,
        name: &'a [u8],
    },
}

/// What was read of a text so far: what is kept of whole items, and of an unfinished one what there is.
#[derive(Drop)]
pub struct ReadSoFar<'a> {
    pub kept: ItemsSoFar<'a>,
    pub part: ReadPart<'a>,
}
