//! Test plans of a chip (after the ITC'02 SOC Test Benchmarks, Marinissen, Iyengar and Chakrabarty 2002): plans and their
//! limits, the definitions of what a plan does cycle by cycle and when it is good, and the laws over them.
//!
//! The main law: a good plan runs right, bit by bit, for every content; and accepted certificates bound every good plan. It
//! stands on the chips of `soc_model` alone. Nothing here takes memory.
#![tactic(auto)]

mod laws;
mod moments;
mod places;
mod proof;
mod times;
mod wrapping;

pub use laws::{
    certificates_are_bounds, faults_are_exact, good_plans_run_right, good_without_limits,
    law_of_one_test, lower_times_are_least, tests_are_short,
};
pub use moments::{Moment, NearCapture, Phases};
pub use places::{bus_of, lists_module, profile_of, wrapper_of};
pub use proof::{LISTS_MOST, Node, PRICE_MOST, Pricing, Proof, TestList, WEIGHT_MOST, Weights};
use soc_model::TestId;
pub use times::closed_time;
pub use wrapping::{is_proper, lengths, tam_duration, test_cycles};

/// Wires of the test access mechanism (TAM), at most.
pub const WIRES_MOST: u64 = 256;
/// Prefixes that a search may enter, at most.
pub const BUDGET_MOST: u64 = 1_000_000;
/// Steps of a power profile, at most.
pub const STEPS_MOST: usize = 16;
/// The greatest number of a plan file, and so of a plan's cycles.
pub const PLAN_NUMBER_MOST: u64 = 2_000_000_000_000_000_000;
/// The greatest start of a test, in cycles.
pub const START_MOST: u64 = 1_000_000_000_000_000_000;

/// A test's power in steps, in place of the test's own power.
#[derive(Drop)]
pub struct Profile {
    /// The test, by the numbers of its module and of itself.
    pub test: TestId,
    /// The steps: cycles since the test's start, and the power from that cycle on up to the next step. The first step is
    /// from 0, and the cycles grow.
    pub steps: Vec<(u64, u64)>,
}

/// What a plan has to keep to.
#[derive(Drop)]
pub struct Limits {
    /// Wires of the test access mechanism, from 1 to [`WIRES_MOST`].
    pub wires: u64,
    /// What the active tests may draw together at a cycle, in the unit of the tests' powers; no limit where it is None.
    pub power: Option<u64>,
    /// Precedences of tests: the first has ended as the second starts. One that names a test that isn't live says nothing.
    pub before: Vec<(TestId, TestId)>,
    /// Prefixes that the search for a schedule may enter, at most.
    pub budget: u64,
    /// The tests that don't draw the same at every cycle, at most one profile each.
    pub profiles: Vec<Profile>,
}

/// A fixed test bus (after the architectures of TR-ARCHITECT, Goel and Marinissen 2002).
#[derive(Drop)]
pub struct Bus {
    /// Its wires, of which each carries one bit a cycle. They follow those of the buses before it.
    pub width: u64,
    /// The numbers of the modules that are tested over it, one test after another.
    pub modules: Vec<u64>,
}

/// One chain of a wrapper: `ins` input cells, the scan chains `scans`, and `outs` output cells, from wire in to wire out.
#[derive(Drop)]
pub struct ChainPlan {
    /// Cells of input terminals.
    pub ins: u64,
    /// Scan chains, by their places in the module, counted from 0.
    pub scans: Vec<u64>,
    /// Cells of output terminals.
    pub outs: u64,
}

/// The wrapper of a module in one mode. Its chains take the input cells in order by their `ins`, and the output cells
/// in order by their `outs`; chain `j` is on wire `j` of the module's bus.
#[derive(Drop)]
pub struct Wrapper {
    /// The module's number.
    pub module: u64,
    /// Mode `scan`, or else mode `terminals`, where the module counts as having no scan chain.
    pub scan: bool,
    /// The chains, at least one and no more than the bus has wires.
    pub chains: Vec<ChainPlan>,
}

/// Why no good plan has fewer cycles. Modules go by their numbers. A test's lower time on some wires is a bound on the
/// cycles that it takes there in any proper wrapper.
#[derive(Drop)]
pub enum Why {
    /// The live tests of a module take turns: their lower times on all wires, together.
    Module { module: u64 },
    /// So do those of a module and of its direct parent.
    Pair { module: u64 },
    /// Each test of the list stands behind its forerunner in a precedence.
    Chain { tests: Vec<TestId> },
    /// The least areas, in wires times cycles, of all modules lie on the wires beside each other.
    Area,
    /// No cycle draws more than the power limit.
    Power,
    /// No two modules of the list fit on buses beside each other, so that their tests over the wires take turns.
    Forced { modules: Vec<u64> },
}

/// A certificate: a number of cycles that no good plan goes below, and why.
#[derive(Drop)]
pub struct Bound {
    /// The cycles that are claimed.
    pub cycles: u64,
    /// The reason.
    pub why: Why,
}

/// A plan of the tests of a chip.
#[derive(Drop)]
pub struct Plan {
    /// The buses, from the first wire on.
    pub buses: Vec<Bus>,
    /// The wrappers, one for each module and mode that a live test over the wires is in.
    pub wrappers: Vec<Wrapper>,
    /// The cycle at which each live test starts, counted from 0.
    pub starts: Vec<(TestId, u64)>,
    /// The cycles in all: the end of the test that ends last.
    pub cycles: u64,
    /// A lower bound on the cycles of every good plan.
    pub bound: Bound,
}
