//! What was read of a plan, up to some word of its text.

use plan_model::{Bound, Bus, ChainPlan, Wrapper};
use soc_model::TestId;

/// The parts of a plan that were read whole.
#[derive(Drop)]
pub struct Draft {
    pub cycles: u64,
    pub buses: Vec<Bus>,
    pub wrappers: Vec<Wrapper>,
    pub starts: Vec<(TestId, u64)>,
}

/// What was read of the part that comes next.
#[derive(Drop)]
pub enum Part {
    /// Nothing: the word `Plan` comes.
    WantsPlan,
    /// The word `Plan`: its number 1 comes.
    WantsForm,
    /// The word `Cycles` comes.
    WantsCyclesWord,
    /// The number of the cycles comes.
    WantsCycles,
    /// The cycles were read, and no bus yet.
    AfterCycles,
    /// The word `Bus`: its width comes.
    WantsWidth,
    /// A bus, which may go on.
    InBus(Bus),
    /// The word `Wrapper`: its module comes.
    WantsModule,
    /// A wrapper's module: its mode comes.
    WantsMode {
        module: u64,
    },
    /// A wrapper, which may go on with a chain.
    InWrapper(Wrapper),
    /// A wrapper and the word `Chain`: the chain's input cells come.
    WantsIns(Wrapper),
    /// A wrapper and the input cells of a chain: its output cells come.
    WantsOuts {
        wrapper: Wrapper,
        ins: u64,
    },
    /// A wrapper and its next chain, which may go on.
    InChain {
        wrapper: Wrapper,
        chain: ChainPlan,
    },
    /// The word `Start`: the module of a test comes.
    WantsTestModule,
    /// The module of a test: the test's number comes.
    WantsTest {
        module: u64,
    },
    /// A test: its start comes.
    WantsStart(TestId),
    /// A start was read.
    AfterStart,
    /// The word `Bound`: its cycles come.
    WantsBound,
    /// The cycles of a bound: its reason comes.
    WantsReason {
        cycles: u64,
    },
    /// A bound by a module: the module comes.
    WantsBoundModule {
        cycles: u64,
    },
    /// A bound by a module and its parent: the module comes.
    WantsPairModule {
        cycles: u64,
    },
    /// A bound by a chain of tests, which may go on.
    InTests {
        cycles: u64,
        tests: Vec<TestId>,
    },
    /// A chain of tests and the module of one more: that test's number comes.
    WantsTestOf {
        cycles: u64,
        tests: Vec<TestId>,
        module: u64,
    },
    /// A bound by a list of modules, which may go on.
    InForced {
        cycles: u64,
        modules: Vec<u64>,
    },
    /// A bound that is whole: nothing may follow.
    Whole(Bound),
}

/// The sections of a plan's text, of which each may begin at its word while it is not over.
#[derive(Clone, Copy)]
pub enum Section {
    Buses,
    Wrappers,
    Starts,
}

/// What was read of a text so far.
#[derive(Drop)]
pub struct ReadSoFar {
    pub draft: Draft,
    pub part: Part,
}
