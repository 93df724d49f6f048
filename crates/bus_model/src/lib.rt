//! Test access architectures of fixed buses: their times and cost, the spreading of free wires, and the start solution
//! (after the start solution of TR-ARCHITECT, Goel and Marinissen 2002, for fixed buses in place of TestRails).
//!
//! Each is by its definition, and an architecture that is sound for the table stays so. Times are in cycles, widths in wires, and
//! modules go by their places in the chip; the times are those of `width_table`. The only error is out of memory.
#![tactic(auto)]

mod costs;
mod spreading;
mod start;

pub use costs::{bottleneck, bus_time, cost, quickest, time_at};
pub use spreading::spread;
pub use start::start_solution;

/// A fixed test bus: its modules are tested one after another, each over all of its wires.
#[derive(Drop)]
pub struct ArchBus {
    /// The wires of the bus.
    pub width: u64,
    /// The places in the chip of the modules that it tests, in the order in which it came to own them.
    pub places: Vec<usize>,
}

/// A test access architecture of fixed buses.
///
/// It is sound for a table where each module with a live test over the wires stands on one bus and no other module
/// does, no bus is empty, each bus has a wire, and together they have at most the wires of the table.
#[derive(Drop)]
pub struct Arch {
    /// The buses, in order.
    pub buses: Vec<ArchBus>,
}
