//! The widths whose designs are taken for a mode of a module, at each width of a bus.
ghost use Rattle.std.specs.Prelude.{◌≡◌, ℕ, Bool, ◌+◌, ◌*◌, ◌^◌, ◌<◌, ◌≤◌, length, max, min, replicate, IfOk, OnOk, sum_by};
ghost use Rattle.std.specs.List.{filter};
ghost use Rattle.soc_model.specs.declared.Test.{Test};
ghost use Rattle.soc_model.specs.Chips.{ModuleValue, module_value, is_live};
ghost use Rattle.soc_model.specs.Sizes.{test_work};
ghost use Rattle.plan_model.specs.Listing.{module_size};
ghost use Rattle.width_table.specs.Times.{mode_tests};
ghost use Rattle.soc_model.specs.Modes.{is_of_mode};
ghost use Rattle.width_table.specs.Choices.{IsChoice, AreChoices, takes_fewer, with_choice};

use soc_model::{Module, is_of_mode};
use std::alloc::{AllocError, Global};
use wrapper_design::PathLengths;

/// A width, with the longest paths of the design at it, and the cycles of a mode's tests there.
#[derive(Clone, Copy, Drop)]
pub struct Choice {
    /// The width, in wires.
    pub width: u64,
    /// The longest path from the inputs, in cells.
    pub si: u64,
    /// The longest path to the outputs, in cells.
    pub so: u64,
    /// The cycles together.
    pub cycles: u64,
}

/// What is taken for a mode of a module at each width from 1 on. Many widths have the same choice, which stands here once.
#[derive(Drop)]
pub struct Choices {
    /// The choices, from the narrowest on.
    pub taken: Vec<Choice>,
    /// For each width the place of its choice. There are at most 256 widths.
    pub places: Vec<u8>,
}

impl Choices {
    /// The choice at a width.
    pub fn at(&self, width: u64) -> Choice
        requires some { 1 ≤ width }
        requires within { (m : ModuleValue) × (scan : Bool) × (wires : ℕ)
            × AreChoices m scan wires self.now.taken.items self.now.places.items × (width ≤ wires) }
        ensures { (m : ModuleValue) (scan : Bool) (wires : ℕ) →
            AreChoices m scan wires self.now.taken.items self.now.places.items → width ≤ wires →
            IsChoice m scan width result }
    {
        let place = self.places[(width - 1) as usize];
        self.taken[place as usize]
    }
}

/// How many tests over the wires a mode of a module has, and their patterns together.
#[derive(Clone, Copy, Drop)]
struct TestTotals {
    tests: u64,
    patterns: u64,
}

/// The totals of a mode of a module.
fn totals(module: &Module, scan: bool) -> TestTotals
    requires { sum_by (test_work (module_value «module».now))
        (filter is_live «module».now.tests.items) ≤ 10 ^ 18 }
    ensures tests { result.tests ≡ length (mode_tests (module_value «module».now) scan) }
    ensures patterns { result.patterns
        ≡ sum_by (λ (t : Test). t.patterns) (mode_tests (module_value «module».now) scan) }
{
    let mut tests: u64 = 0;
    let mut patterns: u64 = 0;
    for test in &module.tests {
        if is_of_mode(test, scan) {
            tests += 1;
            patterns += test.patterns;
        }
    }
    TestTotals { tests, patterns }
}

/// The cycles of all tests of a mode in a wrapper of these path lengths: of each its setup, its patterns and what is left
/// of the shorter path (Iyengar, Chakrabarty and Marinissen 2002).
fn cycles_of(setup: u64, totals: TestTotals, si: u64, so: u64) -> u64
    requires some { 1 ≤ totals.tests }
    requires patterns { 1 ≤ totals.patterns }
    requires fits { totals.tests * (setup + min si so) + (1 + max si so) * totals.patterns
        ≤ 10 ^ 18 }
    ensures { result ≡ totals.tests * (setup + min si so) + (1 + max si so) * totals.patterns }
{
    totals.tests * (setup + si.min(so)) + (1 + si.max(so)) * totals.patterns
}

/// The choices of a mode without tests.
fn idle_choices(alloc: Global, wires: u64) -> Result<Choices, AllocError>
    ensures taken { IfOk result
        (λ c. c.taken.items ≡ replicate 1 (record { width = 1; si = 0; so = 0; cycles = 0 })) }
    ensures places { IfOk result (λ c. c.places.items ≡ replicate wires 0) }
{
    let idle = Choice {
        width: 1,
        si: 0,
        so: 0,
        cycles: 0,
    };
    let taken = Vec::from_elem(alloc, idle, 1)?;
    let places = Vec::from_elem(alloc, 0, wires as usize)?;
    Ok(Choices { taken, places })
}

/// Whether a choice takes fewer cycles than the last one.
fn takes_fewer(choice: &Choice, taken: &[Choice]) -> bool
    ensures { result ≡ takes_fewer choice.now taken.now }
{
    match taken.last() {
        None => true,
        Some(last) => choice.cycles < last.cycles,
    }
}

/// Adds a choice, where it takes fewer cycles than the last one. Answers the place of the one that is the last then.
fn add_choice(taken: &mut Vec<Choice>, choice: Choice) -> Result<usize, AllocError>
    ensures added { OnOk result (taken.new.items ≡ with_choice choice taken.old.items) }
    ensures newest { IfOk result (λ newest. newest + 1 ≡ length taken.new.items) }
{
    if takes_fewer(&choice, taken) {
        taken.push(choice)?;
    }
    Ok(taken.len() - 1)
}

/// At each width, the width up to it whose design takes the fewest cycles, the least such.
pub fn choices_of(
    alloc: Global,
    module: &Module,
    scan: bool,
    wires: u64,
) -> Result<Choices, AllocError>
    requires small { module_size (module_value «module».now) ≤ 10 ^ 18 }
    requires work { sum_by (test_work (module_value «module».now))
        (filter is_live «module».now.tests.items) ≤ 10 ^ 18 }
    requires few { wires ≤ 256 }
    ensures { IfOk result
        (λ c. AreChoices (module_value «module».now) scan wires c.taken.items c.places.items) }
{
    let totals = totals(module, scan);
    if totals.tests == 0 {
        let idle = idle_choices(alloc, wires)?;
        return Ok(idle);
    }
    let mut paths = PathLengths::new(alloc, module, scan)?;
    let mut taken = Vec::new(alloc);
    let mut places = Vec::with_capacity(alloc, wires as usize)?;
    let mut width: u64 = 1;
    while width <= wires {
        let (si, so) = paths.at(width)?;
        let cycles = cycles_of(module.setup, totals, si, so);
        let choice = Choice {
            width,
            si,
            so,
            cycles,
        };
        let newest = add_choice(&mut taken, choice)?;
        // where the paths stay as they are, so does the choice
        let last = paths.same_to(width, si, so, wires);
        places.resize(last as usize, newest as u8)?;
        width = last + 1;
    }
    Ok(Choices { taken, places })
}
