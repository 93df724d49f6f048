//! The lower times of a module's tests over the wires, at different widths.
ghost use Rattle.std.specs.Prelude.{◌≡◌, ℕ, ◌+◌, ◌*◌, ◌^◌, ◌<◌, ◌≤◌, length};
ghost use Rattle.soc_model.specs.Chips.{soc_value};
ghost use Rattle.soc_model.specs.SoundChips.{IsSoundChip};
ghost use Rattle.plan_model.specs.Plans.{LimitsValue};
ghost use Rattle.plan_model.specs.Rules.{IsBound};
ghost use Rattle.plan_model.specs.Bounds.{lower_tam_time, need, first_below, least_from_one, sum_below, module_area, area_bound};
ghost use Rattle.bound_rules.specs.Sizes.{tam_times_by, works_by, IsFitting};

use crate::lower_times::LowerTimes;
use crate::quotient_up;
use crate::sizes::Sizes;
use soc_model::{Soc, Test, module_at};

/// The cycles that the module's live tests over the wires take at least on `width` wires, one after another.
pub fn lower_tam_time(soc: &Soc, place: usize, width: u64) -> u64
    requires sound { IsSoundChip (soc_value soc.now) }
    requires place { place < length (soc_value soc.now).modules }
    requires some_wire { 1 ≤ width }
    ensures sum { result ≡ lower_tam_time (soc_value soc.now) place width }
    ensures small { result ≤ 10 ^ 18 }
{
    LowerTimes::of(soc, place).over_wires(width)
}

/// The least width from 1 to `wires` at which the tests over the wires take less than `claimed` cycles together, or one
/// more than `wires` where there is none. Times never grow with the width, so the search halves.
fn least_width(sizes: &Sizes, tests: &[Test], wires: u64, claimed: u64) -> u64
    requires wires { wires ≤ 256 }
    requires fitting { IsFitting sizes.now }
    requires work { works_by sizes.now tests.now ≤ 10 ^ 18 }
    ensures { result ≡ first_below (λ w. tam_times_by sizes.now w tests.now) claimed wires }
{
    let mut low = 1;
    let mut high = wires + 1;
    while low < high {
        let middle = low + (high - low) / 2;
        if sizes.tam_times(tests, middle) < claimed {
            high = middle;
        } else {
            low = middle + 1;
        }
    }
    low
}

/// The wires that a module needs in a plan of less than `claimed` cycles: the least width from 1 to `wires` at which the
/// lower times of its tests over the wires are less than that together, or one more than `wires` where there is none.
pub fn need(soc: &Soc, place: usize, wires: u64, claimed: u64) -> u64
    requires sound { IsSoundChip (soc_value soc.now) }
    requires place { place < length (soc_value soc.now).modules }
    requires wires { wires ≤ 256 }
    ensures need { result ≡ need (soc_value soc.now) wires claimed place }
    ensures some { 1 ≤ result }
    ensures few { result ≤ wires + 1 }
{
    let module = module_at(soc, place);
    least_width(&Sizes::of(module), &module.tests, wires, claimed)
}

/// The least area, in wires times cycles, that a module's tests over the wires take at a width from 1 on: that on one
/// wire, since more wires never divide their times by more than their number.
fn least_area(sizes: &Sizes, tests: &[Test]) -> u64
    requires fitting { IsFitting sizes.now }
    requires work { works_by sizes.now tests.now ≤ 10 ^ 18 }
    ensures { (wires : ℕ) → 1 ≤ wires →
        result ≡ least_from_one (λ w. w * tam_times_by sizes.now w tests.now) wires }
{
    sizes.tam_times(tests, 1)
}

/// The least area of the module at a place.
fn module_area(soc: &Soc, place: usize) -> u64
    requires sound { IsSoundChip (soc_value soc.now) }
    requires place { place < length (soc_value soc.now).modules }
    ensures { (wires : ℕ) → 1 ≤ wires → result ≡ module_area (soc_value soc.now) wires place }
{
    let module = module_at(soc, place);
    least_area(&Sizes::of(module), &module.tests)
}

/// The least areas of all modules together.
fn total_area(soc: &Soc) -> u64
    requires { IsSoundChip (soc_value soc.now) }
    ensures sum { (wires : ℕ) → 1 ≤ wires →
        result
        ≡ sum_below (module_area (soc_value soc.now) wires)
        (length (soc_value soc.now).modules) }
    ensures small { result ≤ 10 ^ 18 }
{
    let mut sum = 0;
    for place in 0..soc.modules.len() {
        sum += module_area(soc, place);
    }
    sum
}

/// The cycles that the least areas of all modules take on `wires` wires, where they lie there beside each other: their sum
/// divided by the wires, rounded up once.
pub fn area_bound(soc: &Soc, wires: u64) -> u64
    requires sound { IsSoundChip (soc_value soc.now) }
    requires some_wire { 1 ≤ wires }
    ensures quotient { result ≡ area_bound (soc_value soc.now) wires }
    ensures small { result ≤ 10 ^ 18 }
    ensures bound { (limits : LimitsValue) → limits.wires ≡ wires →
        IsBound (soc_value soc.now) limits result }
{
    quotient_up(u128::from(total_area(soc)), wires)
}
