//! A table of placed tests: which resources they take (buses, modules, power), and where one more test fits first. It
//! serves the schedules of a chip's tests (after Iyengar, Chakrabarty and Marinissen 2002).
//!
//! Times are in cycles, and power is in the unit of the limits. Only [`Table::new`] and [`OwnTable::new`] take memory.
#![tactic(auto)]

mod copies;
mod earlier;
mod empty_times;
mod excluding;
mod frame;
mod history;
mod laws;
mod own;
mod table;

pub use earlier::{all_before, earlier_than};
pub use frame::{Frame, FrameOf};
pub use laws::{list_schedules_are_short, sound_tables_keep_the_rules, starts_only_rise};
pub use own::OwnTable;
use soc_model::TestId;
pub use table::{Table, TableOf};

/// A test that is to be scheduled.
#[derive(Drop)]
pub struct JobTest {
    /// The test, by the numbers of its module and of itself.
    pub id: TestId,
    /// The place of its module in the chip.
    pub place: usize,
    /// The place of that module's direct parent, where it has one.
    pub parent: Option<usize>,
    /// The place of the bus that it goes over; None for a self test.
    pub bus: Option<usize>,
    /// The cycles that it takes, at least one.
    pub length: u64,
    /// Its power in steps: cycles since its start, and the power from that cycle on up to the next step. There are 1 to
    /// 16, the first is from 0, and the cycles grow.
    pub power: Vec<(u64, u64)>,
}

/// Tests that are to be scheduled together. Their order in the list breaks ties.
#[derive(Drop)]
pub struct Job {
    /// The tests. Elsewhere they go by their places in this list.
    pub tests: Vec<JobTest>,
    /// Precedences: the first test has ended as the second starts.
    pub before: Vec<(usize, usize)>,
    /// What the active tests may draw together at a cycle; no limit where it is None.
    pub power: Option<u64>,
}

/// A placed test.
#[derive(Clone, Copy, Default, PartialEq, Eq, Debug)]
pub struct Placement {
    /// The test's place in the job.
    pub test: usize,
    /// The cycle at which it starts.
    pub start: u64,
}
