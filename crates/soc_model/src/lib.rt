//! A chip for test after the ITC'02 SOC Test Benchmarks: its modules in order of first mention, and their tests.
//!
//! A chip has no two modules of one number, and its sizes are within limits once they are checked. Lengths are in cells, powers
//! in the unit of the file. It stands on no other crate of this repository.
#![tactic(auto)]

ghost use Rattle.std.specs.Prelude.{◌≡◌, ◌++◌, ◌∷◌, [], false, OnOk, OnErr, IfErr};

mod laws;
mod lookups;
mod modes;
mod sizes;

use indexmap::IndexMap;
pub use laws::parents_are_found;
pub use lookups::{find_test, live, module_at, parent, place_of};
pub use modes::{has_tam_test, is_of_mode, mode_chains, over_wires, uses_mode};
pub use sizes::{cells_and_one, check_size};
use std::alloc::Global;

/// Modules of a chip, at most.
pub const MODULES_MOST: u64 = 1_000;
/// Tests of a chip in all, at most; tests that aren't live count too.
pub const TESTS_MOST: u64 = 4_096;
/// Scan chains of a module, at most.
pub const CHAINS_MOST: u64 = 1_000;
/// Power of a test, at most.
pub const POWER_MOST: u64 = 1_000_000_000;
/// Work of a chip, at most: the sum over its live tests of the patterns times 1 and the module's input, output and
/// twice its scan cells, with the module's setup for each live test over the wires. No test takes more cycles than its
/// part of the work.
pub const WORK_MOST: u64 = 1_000_000_000_000_000_000;
/// The greatest number that a word of a chip's text stands for.
pub const NUMBER_WORD_MOST: u64 = 999_999_999_999;

/// A test of a module.
///
/// A test is live where it has at least one pattern; the others are never scheduled. A live test with `tam` goes over
/// the test access wires, in mode `scan` where `scan` is set and in mode `terminals` otherwise. A live test without
/// `tam` is a self test: it takes as many cycles as it has patterns and uses no wire.
#[derive(Clone, Copy, PartialEq, Eq, Debug)]
pub struct Test {
    /// The test's number in its module.
    pub number: u64,
    /// ScanUse: whether the test uses the scan chains.
    pub scan: bool,
    /// TamUse: whether the test uses the test access wires.
    pub tam: bool,
    /// Patterns; of a self test cycles.
    pub patterns: u64,
    /// What the test draws at every cycle, in the unit of the limits.
    pub power: u64,
}

/// A test by the numbers of its module and of itself.
#[derive(Clone, Copy, PartialEq, Eq, Hash, Debug)]
pub struct TestId {
    /// The module's number.
    pub module: u64,
    /// The test's number in that module.
    pub test: u64,
}

/// A module (a wrapped core) of the chip, after the ITC'02 SOC Test Benchmarks.
#[derive(Drop)]
pub struct Module {
    /// The module's number.
    pub number: u64,
    /// The name, empty where there is none.
    pub name: Vec<u8>,
    /// The level in the hierarchy.
    pub level: u64,
    /// Input terminals.
    pub inputs: u64,
    /// Output terminals.
    pub outputs: u64,
    /// Bidirectional terminals: each is one input cell and one output cell of a wrapper.
    pub bidirs: u64,
    /// Cycles before the first shift of each test over the wires.
    pub setup: u64,
    /// The lengths of the scan chains, in cells. A length may be 0.
    pub chains: Vec<u64>,
    /// The tests by first mention.
    pub tests: Vec<Test>,
}

/// A chip.
#[derive(Drop)]
pub struct Soc {
    /// The chip's name, empty where there is none.
    pub name: Vec<u8>,
    /// The flag of `Options Power`. It is kept and printed, and changes nothing else.
    pub power_flag: bool,
    /// The flag of `Options XY`.
    pub xy_flag: bool,
    /// The modules by first mention, each under its own number.
    pub modules: IndexMap<u64, Module>,
}

/// Why a module was not put into a chip. The module is handed back.
#[derive(Drop)]
pub enum PutFault {
    /// A module of its number is there already.
    Known { module: Module },
    /// There was no memory for it.
    NoMemory { module: Module },
}

/// A limit on the size of a chip, in the order in which they are tried.
#[derive(Clone, Copy, PartialEq, Eq, Debug)]
pub enum Which {
    /// The number of modules, at most [`MODULES_MOST`].
    Modules,
    /// The number of tests of all modules together, at most [`TESTS_MOST`].
    Tests,
    /// The number of scan chains of a module, at most [`CHAINS_MOST`].
    Chains,
    /// The power of a test, at most [`POWER_MOST`].
    Power,
    /// The work of the chip, at most [`WORK_MOST`].
    Work,
}

/// A limit that a chip passes, and the number that passes it.
#[derive(Clone, Copy, PartialEq, Eq, Debug)]
pub struct SocLimit {
    /// The limit.
    pub which: Which,
    /// The number that passes it.
    pub value: u128,
}

impl Soc {
    ghost use Rattle.soc_model.specs.Chips.{soc_value, module_value};
    ghost use Rattle.soc_model.specs.Lookups.{has_module_number};
    ghost use Rattle.soc_model.specs.Faults.{handed_back as module_of, is_known};

    /// A chip without a name and without modules, with both flags false.
    pub fn new(alloc: Global) -> Soc
        ensures { soc_value result
            ≡ record { name = []; power_flag = false; xy_flag = false; keys = []; modules = [] } }
    {
        Soc {
            name: Vec::new(alloc),
            power_flag: false,
            xy_flag: false,
            modules: IndexMap::new(alloc),
        }
    }

    /// Adds a module last, under its own number. The refusal is `Known` exactly where a module of that number is there.
    /// After a refusal the chip is as it was.
    pub fn put(&mut self, module: Module) -> Result<(), PutFault>
        ensures ok { OnOk result (soc_value self.new ≡ record (soc_value self.old) {
          keys = (soc_value self.old).keys ++ «module».number ∷ [];
          modules = (soc_value self.old).modules ++ module_value «module» ∷ [];
        }) }
        ensures err { OnErr result (soc_value self.new ≡ soc_value self.old) }
        ensures handed_back { IfErr result (λ fault. module_of fault ≡ «module») }
        ensures known { is_known result ≡ has_module_number (soc_value self.old) «module».number }
    {
        let number = module.number;
        if self.modules.contains_key(&number) {
            return Err(PutFault::Known { module });
        }
        match self.modules.insert(number, module) {
            Ok(_) => Ok(()),
            Err(failed) => {
                let (_, module) = failed.value;
                Err(PutFault::NoMemory { module })
            }
        }
    }
}
