//! The controls of a chip's wrappers: signals that tell which test runs, and which modules shift and which capture.
//!
//! The wires of a plan carry bits alone. What the wrappers do with them at a cycle is said by one control for each live test and two for
//! each module with a live test over the wires. This crate has which controls a chip has, their order, and when each is 1.
#![tactic(auto)]

ghost use Rattle.std.specs.Prelude.{◌≡◌, ◌++◌, map, IfOk, OnOk};
ghost use Rattle.soc_model.specs.Chips.{module_value, soc_value};
ghost use Rattle.plan_model.specs.Rules.{live_ids};
ghost use Rattle.controls.specs.Controls.{capture_of, controls, run_of, runs_in, shift_of, tam_numbers};

mod columns;
mod laws;
mod placing;
mod rows;
mod spells;

pub use laws::controls_run_the_plan;
use outside::{NoMemory, push};
pub use rows::ControlRows;
use soc_model::{Module, Soc, TestId, has_tam_test, live};
use std::alloc::Global;

/// A signal that goes to the wrappers of a chip. At each cycle it is 0 or 1.
#[derive(Clone, Copy, PartialEq, Eq, Debug)]
pub enum Control {
    /// It is 1 at the cycles at which a live test is active.
    Run { test: TestId },
    /// It is 1 at the cycles at which a test of the module of this number shifts.
    Shift { module: u64 },
    /// It is 1 at the cycles at which a test of the module of this number captures.
    Capture { module: u64 },
}

/// Adds the control of each live test of a module.
fn push_runs(list: &mut Vec<Control>, module: &Module) -> Result<(), NoMemory>
    ensures { OnOk result (list.new.items ≡ list.old.items ++ runs_in (module_value «module».now)) }
{
    for test in &module.tests {
        if live(test) {
            let id = TestId {
                module: module.number,
                test: test.number,
            };
            push(list, Control::Run { test: id })?;
        }
    }
    Ok(())
}

/// The controls of all live tests, in the order of the chip.
fn run_controls(alloc: Global, soc: &Soc) -> Result<Vec<Control>, NoMemory>
    ensures { IfOk result (λ list. list.items ≡ map run_of (live_ids (soc_value soc.now))) }
{
    let mut list = Vec::new(alloc);
    for module in soc.modules.values() {
        push_runs(&mut list, module)?;
    }
    Ok(list)
}

/// Adds the control of each of these modules that has its wrappers shift.
fn push_shifts(list: &mut Vec<Control>, numbers: &[u64]) -> Result<(), NoMemory>
    ensures { OnOk result (list.new.items ≡ list.old.items ++ map shift_of numbers.now) }
{
    for number in numbers {
        push(list, Control::Shift { module: *number })?;
    }
    Ok(())
}

/// Adds the control of each of these modules that has its wrappers capture.
fn push_captures(list: &mut Vec<Control>, numbers: &[u64]) -> Result<(), NoMemory>
    ensures { OnOk result (list.new.items ≡ list.old.items ++ map capture_of numbers.now) }
{
    for number in numbers {
        push(list, Control::Capture { module: *number })?;
    }
    Ok(())
}

/// The numbers of the modules with a live test over the wires, in the order of the chip. `NoMemory` where memory runs out.
pub fn tam_modules(alloc: Global, soc: &Soc) -> Result<Vec<u64>, NoMemory>
    ensures { IfOk result (λ list. list.items ≡ tam_numbers (soc_value soc.now)) }
{
    let mut list = Vec::new(alloc);
    for module in soc.modules.values() {
        if has_tam_test(module) {
            push(&mut list, module.number)?;
        }
    }
    Ok(list)
}

/// The controls of a chip, in their order: the one of each live test, then for each module with a live test over the wires that of its
/// Shifts, and then for each of these that of its Captures. `NoMemory` where memory runs out.
pub fn controls_of(alloc: Global, soc: &Soc) -> Result<Vec<Control>, NoMemory>
    ensures { IfOk result (λ list. list.items ≡ controls (soc_value soc.now)) }
{
    let numbers = tam_modules(alloc, soc)?;
    let mut list = run_controls(alloc, soc)?;
    push_shifts(&mut list, &numbers)?;
    push_captures(&mut list, &numbers)?;
    Ok(list)
}
