//! Lower bounds on the cycles of every good plan of a chip, by sums over its tests.
//!
//! Lower times are in cycles, widths in wires, lengths of chains in cells. Nothing here takes memory.
//!
//! Each sum is by its definition in `plan_model`, and no good plan ends before it. There are no errors.
#![tactic(auto)]

ghost use Rattle.std.specs.Prelude.{◌≡◌, ◌*◌, ◌^◌, ◌<◌, ◌≤◌, true, false, Some, List, length, option_map, IfSome, IsTrue};
ghost use Rattle.soc_model.specs.Chips.{soc_value, module_value, is_live, parent_place};
ghost use Rattle.soc_model.specs.Sizes.{test_work};
ghost use Rattle.soc_model.specs.SoundChips.{IsSoundChip};
ghost use Rattle.plan_model.specs.Cells.{ChainValue, chain_cells, IsProper};
ghost use Rattle.plan_model.specs.Plans.{LimitsValue, operations_of};
ghost use Rattle.plan_model.specs.Rules.{IsBound};
ghost use Rattle.plan_model.specs.Bounds.{quotient_up, lower_time, module_bound, pair_bound};

mod energy;
mod lower_times;
mod names;
mod sizes;
mod widths;

pub use energy::{power_bound, power_bound_with};
pub use lower_times::LowerTimes;
pub use names::{chain_bound, live_time};
use sizes::Sizes;
use soc_model::{Module, Soc, Test, parent};
pub use widths::{area_bound, lower_tam_time, need};

/// A total divided by `parts`, rounded up.
fn quotient_up(total: u128, parts: u64) -> u64
    requires some { 1 ≤ parts }
    requires fits { total ≤ 10 ^ 18 * parts }
    ensures quotient { result ≡ quotient_up total parts }
    ensures small { result ≤ 10 ^ 18 }
{
    total.div_ceil(u128::from(parts)) as u64
}

/// The cycles that a live test of the module takes at least on `width` wires: for a test over the wires the time of its
/// patterns after the module's setup (Iyengar, Chakrabarty and Marinissen 2002), with chains as short as cells dealt
/// over `width` chains and the longest scan chain of the mode allow; for a self test its patterns.
///
/// Each live test of a sound chip meets the condition on its work: `live_work-le` of proofs/SoundWork.antt.
pub fn lower_time(module: &Module, test: &Test, width: u64) -> u64
    requires width { 1 ≤ width }
    requires live { IsTrue (is_live test.now) }
    requires work { test_work (module_value «module».now) test.now ≤ 10 ^ 18 }
    ensures time { result ≡ lower_time (module_value «module».now) test.now width }
    ensures small { result ≤ 10 ^ 18 }
    ensures over_wires { (chains : List ChainValue) → test.now.tam ≡ true → 1 ≤ length chains →
        length chains ≤ width → IsProper (module_value «module».now) test.now.scan chains →
        result
        ≤ length (operations_of (module_value «module».now) test.now
        (chain_cells (module_value «module».now) test.now.scan chains)) }
    ensures self_tests { test.now.tam ≡ false → result ≡ test.now.patterns }
{
    Sizes::of(module).time(test, width)
}

/// The cycles that the live tests of a module take at least, one after another, on `wires` wires: their lower times
/// together.
pub fn module_bound(soc: &Soc, place: usize, wires: u64) -> u64
    requires sound { IsSoundChip (soc_value soc.now) }
    requires place { place < length (soc_value soc.now).modules }
    requires some_wire { 1 ≤ wires }
    ensures sum { result ≡ module_bound (soc_value soc.now) wires place }
    ensures small { result ≤ 10 ^ 18 }
    ensures bound { (limits : LimitsValue) → limits.wires ≡ wires →
        IsBound (soc_value soc.now) limits result }
{
    LowerTimes::of(soc, place).of_all(wires)
}

/// The cycles that the live tests of a module and of its parent take at least on `wires` wires, one after another: a
/// module is never under test beside its parent. None comes exactly where the module has no parent.
pub fn pair_bound(soc: &Soc, place: usize, wires: u64) -> Option<u64>
    requires sound { IsSoundChip (soc_value soc.now) }
    requires place { place < length (soc_value soc.now).modules }
    requires some_wire { 1 ≤ wires }
    ensures sum { result ≡ option_map (λ parent. pair_bound (soc_value soc.now) wires parent place)
        (parent_place (soc_value soc.now).modules place) }
    ensures small { IfSome result (λ n. n ≤ 2 * 10 ^ 18) }
    ensures bound { IfSome result (λ n. (limits : LimitsValue) → limits.wires ≡ wires →
        IsBound (soc_value soc.now) limits n) }
{
    pair_bound_with(soc, place, parent(soc, place), wires)
}

/// What `pair_bound` answers, where the place of the module's parent is at hand.
pub fn pair_bound_with(soc: &Soc, place: usize, parent: Option<usize>, wires: u64) -> Option<u64>
    requires sound { IsSoundChip (soc_value soc.now) }
    requires place { place < length (soc_value soc.now).modules }
    requires parent { parent ≡ parent_place (soc_value soc.now).modules place }
    requires some_wire { 1 ≤ wires }
    ensures sum { result ≡ option_map (λ parent. pair_bound (soc_value soc.now) wires parent place)
        (parent_place (soc_value soc.now).modules place) }
    ensures small { IfSome result (λ n. n ≤ 2 * 10 ^ 18) }
    ensures bound { IfSome result (λ n. (limits : LimitsValue) → limits.wires ≡ wires →
        IsBound (soc_value soc.now) limits n) }
{
    match parent {
        Some(above) => Some(module_bound(soc, above, wires) + module_bound(soc, place, wires)),
        None => None,
    }
}
