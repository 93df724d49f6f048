//! The lower times of a module's tests together, at any widths.
ghost use Rattle.std.specs.Prelude.{◌≡◌, ℕ, ◌^◌, ◌<◌, ◌≤◌, Some, IsTrue, length, slice_get};
ghost use Rattle.soc_model.specs.Chips.{SocValue, soc_value, module_value, is_live};
ghost use Rattle.soc_model.specs.SoundChips.{IsSoundChip};
ghost use Rattle.plan_model.specs.Bounds.{lower_time, lower_tam_time, module_bound};
ghost use Rattle.bound_rules.specs.Sizes.{IsMeasurable};

use crate::sizes::Sizes;
use soc_model::{Module, Soc, Test, module_at};
use std::marker::Model;

/// What the lower times of a module's tests are found from. The scan chains of the module are walked once, as it is made.
#[derive(Drop)]
pub struct LowerTimes<'a> {
    sizes: Sizes,
    module: &'a Module,
}

impl<'a> Model for LowerTimes<'a> {
    ghost use Rattle.soc_model.specs.Chips.{ModuleValue, module_value};
    ghost use Rattle.bound_rules.specs.Sizes.{IsMeasured};

    ghost Value = { ModuleValue };

    ghost view = { λ t. module_value t.«module».now };

    ghost invariant = { λ t. IsMeasured (module_value t.«module».now) t.sizes };
}

impl<'a> LowerTimes<'a> {
    /// Those of a module. Each of a sound chip is measurable: `measurable` of proofs/SoundWork.antt.
    pub fn new(module: &'a Module) -> LowerTimes<'a>
        requires { IsMeasurable (module_value «module».now) }
        ensures { result ≡ module_value «module».now }
    {
        LowerTimes {
            sizes: Sizes::of(module),
            module,
        }
    }

    /// Those of the module at a place of a chip.
    pub fn of(soc: &'a Soc, place: usize) -> LowerTimes<'a>
        requires sound { IsSoundChip (soc_value soc.now) }
        requires place { place < length (soc_value soc.now).modules }
        ensures { slice_get (soc_value soc.now).modules place ≡ Some result }
    {
        LowerTimes::new(module_at(soc, place))
    }

    /// The cycles that a live test of the module takes at least on `width` wires, as `lower_time` has them.
    pub fn of_test(&self, test: &Test, width: u64) -> u64
        requires some_wire { 1 ≤ width }
        requires live { IsTrue (is_live test.now) }
        requires there { (k : ℕ) × (slice_get self.now.tests k ≡ Some test.now) }
        ensures time { result ≡ lower_time self.now test.now width }
        ensures small { result ≤ 10 ^ 18 }
    {
        self.sizes.time(test, width)
    }

    /// The cycles that the live tests of the module take at least on `width` wires, one after another.
    pub fn of_all(&self, width: u64) -> u64
        requires some_wire { 1 ≤ width }
        ensures sum { (soc : SocValue) (place : ℕ) → slice_get soc.modules place ≡ Some self.now →
            result ≡ module_bound soc width place }
        ensures small { result ≤ 10 ^ 18 }
    {
        self.sizes.times(&self.module.tests, width)
    }

    /// The cycles that the live tests over the wires of the module take at least on `width` wires, one after another.
    pub fn over_wires(&self, width: u64) -> u64
        requires some_wire { 1 ≤ width }
        ensures sum { (soc : SocValue) (place : ℕ) → slice_get soc.modules place ≡ Some self.now →
            result ≡ lower_tam_time soc place width }
        ensures small { result ≤ 10 ^ 18 }
    {
        self.sizes.tam_times(&self.module.tests, width)
    }
}
