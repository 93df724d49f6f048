//! One chain of a test over the wires, by the numbers of its bits in the patterns.

use crate::numbers::Numbers;

/// How many cells a chain has, and for each one that is loaded and each that is read the number of its bit in a stimulus and
/// in a response, both from wire in on.
#[derive(Drop)]
pub struct Path {
    /// The cells.
    pub cells: usize,
    /// The numbers of the bits that are loaded.
    pub loads: Numbers,
    /// The numbers of the bits that are read.
    pub answers: Numbers,
}
