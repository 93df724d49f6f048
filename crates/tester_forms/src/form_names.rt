//! The names of signals.
ghost use Rattle.std.specs.Prelude.{◌≡◌, ◌++◌, codes, decimal, OnOk};
ghost use Rattle.tester_forms.specs.Pieces.{signal_name};

use controls::Control;
use outside::{NoMemory, extend, push_number};
use soc_model::TestId;

/// Appends the name of the signal that runs a test.
fn push_run(text: &mut Vec<u8>, test: TestId) -> Result<(), NoMemory>
    ensures { OnOk result (text.new.items ≡ text.old.items
        ++ (codes "run_" ++ (decimal test.«module» ++ (codes "_" ++ decimal test.test)))) }
{
    extend(text, b"run_")?;
    push_number(text, u128::from(test.module))?;
    extend(text, b"_")?;
    push_number(text, u128::from(test.test))
}

/// Appends the name of the signal of a module: what it says, and the number of the module.
fn push_of_module(text: &mut Vec<u8>, says: &[u8], module: u64) -> Result<(), NoMemory>
    ensures { OnOk result (text.new.items ≡ text.old.items ++ (says.now ++ decimal «module»)) }
{
    extend(text, says)?;
    push_number(text, u128::from(module))
}

/// Appends the name of a control's signal, as `run_1_2` for test 2 of module 1, `shift_1` and `capture_1`. With `NoMemory` a front of it
/// may stand behind the text.
pub fn push_signal(text: &mut Vec<u8>, control: Control) -> Result<(), NoMemory>
    ensures { OnOk result (text.new.items ≡ text.old.items ++ signal_name control) }
{
    match control {
        Control::Run { test } => push_run(text, test),
        Control::Shift { module } => push_of_module(text, b"shift_", module),
        Control::Capture { module } => push_of_module(text, b"capture_", module),
    }
}
