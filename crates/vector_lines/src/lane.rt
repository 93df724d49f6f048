//! One live test of a chip as its plan places it.

use crate::path::Path;
use plan_model::Phases;

/// A live test as its plan places it, with the numbers of the bits of its chains. A self test has no chains.
#[derive(Drop)]
pub struct Lane {
    /// Whether the test goes over the wires.
    pub tam: bool,
    /// By what the contents know the test; 0 at a self test.
    pub key: u64,
    /// The first cycle of the test.
    pub start: u64,
    /// The first cycle after it.
    pub end: u64,
    /// The phases of a test over the wires.
    pub phases: Phases,
    /// The first wire of its bus.
    pub first_wire: usize,
    /// The wires of its bus.
    pub width: usize,
    /// The chains.
    pub paths: Vec<Path>,
}
