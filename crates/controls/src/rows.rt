//! The rows of the controls of a plan.
ghost use Rattle.std.specs.Prelude.{◌≡◌, ℕ, ◌+◌, ◌*◌, ◌^◌, ◌<◌, length, slice_range, IfOk};
ghost use Rattle.soc_model.specs.Chips.{SocValue};
ghost use Rattle.plan_model.specs.Plans.{PlanValue};
ghost use Rattle.controls.specs.Controls.{control_row, controls};
ghost use Rattle.controls.specs.Columns.{own_columns};
ghost use Rattle.controls.specs.Tests.{AreControlRows, HaveRowRoom};

use crate::columns::{ModuleColumns, put_test, put_zeros};
use crate::placing::{ControlledTest, controlled_tests};
use crate::{controls_of, tam_modules};
use live_tests::PlacedPlan;
use outside::NoMemory;
use std::alloc::Global;

/// The controls of a good plan at each cycle. A row is what they are at one cycle, each as a digit, in the order of
/// [`crate::controls_of`].
#[derive(Drop)]
pub struct ControlRows {
    /// The live tests, in the order of the chip.
    tests: Vec<ControlledTest>,
    /// How many modules have a live test over the wires.
    modules: usize,
    /// How many controls there are.
    columns: usize,
}

impl ControlRows {
    /// The rows of a good plan of a sound chip. All memory is taken here: `NoMemory` where memory runs out.
    pub fn new(alloc: Global, placed: &PlacedPlan<'_>) -> Result<ControlRows, NoMemory>
        ensures { IfOk result (AreControlRows placed.now.soc placed.now.plan) }
    {
        let numbers = tam_modules(alloc, placed.soc)?;
        let list = controls_of(alloc, placed.soc)?;
        let tests = controlled_tests(alloc, placed)?;
        Ok(ControlRows {
            tests,
            modules: numbers.len(),
            columns: list.len(),
        })
    }

    /// How many controls there are: the digits of a row.
    pub fn count(&self) -> usize
        ensures { (soc : SocValue) (plan : PlanValue) → AreControlRows soc plan self.now →
            result ≡ length (controls soc) }
    {
        self.columns
    }

    /// Writes the rows of `count` cycles from one on, one behind another from the text's first byte on. What stands behind them is kept
    /// in its length alone.
    pub fn put_rows(&self, text: &mut [u8], from: u64, count: u64)
        requires room { HaveRowRoom self.now count text.old }
        requires fits { from + count < 2 ^ 64 }
        ensures long { length text.new ≡ length text.old }
        ensures rows { (soc : SocValue) (plan : PlanValue) → AreControlRows soc plan self.now →
            (r : ℕ) → r < count →
            slice_range text.new (r * length (controls soc))
            (r * length (controls soc) + length (controls soc))
            ≡ control_row soc plan (from + r) }
    {
        let columns = self.columns;
        put_zeros(text, count as usize * columns);
        for place in 0..self.tests.len() {
            let test = &self.tests[place];
            let own = self.own_columns(test);
            put_test(text, columns, test, place, own, from, count);
        }
    }

    /// The columns of the controls of a test's module.
    fn own_columns(&self, test: &ControlledTest) -> ModuleColumns
        requires { length self.now.tests.items + self.now.modules + test.now.before < 2 ^ 64 }
        ensures { result
            ≡ own_columns (length self.now.tests.items) self.now.modules test.now.before }
    {
        let shifts = self.tests.len();
        ModuleColumns {
            shift: shifts + test.before,
            capture: shifts + self.modules + test.before,
        }
    }
}
