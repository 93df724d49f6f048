//! Lower times of live tests by their names.
ghost use Rattle.std.specs.Prelude.{◌≡◌, ◌^◌, ◌≤◌, IfSome, option_map};
ghost use Rattle.std.specs.List.{find, sum_by};
ghost use Rattle.soc_model.specs.Chips.{soc_value, live_tests};
ghost use Rattle.soc_model.specs.SoundChips.{IsSoundChip};
ghost use Rattle.plan_model.specs.Plans.{LimitsValue};
ghost use Rattle.plan_model.specs.Rules.{IsBound, Each};
ghost use Rattle.plan_model.specs.Bounds.{lower};
ghost use Rattle.plan_model.specs.Certificates.{is_called, lower_of_id, IsChainItem};
ghost use Rattle.bound_rules.specs.Named.{is_named};

use crate::sizes::Sizes;
use soc_model::{Soc, Test, TestId, live, module_at, place_of};

/// The first live test of this number.
fn live_test(tests: &[Test], number: u64) -> Option<Test>
    ensures { result ≡ find (is_named number) tests.now }
{
    for test in tests {
        if live(test) && test.number == number {
            return Some(*test);
        }
    }
    None
}

/// The lower time of a live test by its name, on `wires` wires. None comes exactly where no live test of the chip has the
/// name.
pub fn live_time(soc: &Soc, id: TestId, wires: u64) -> Option<u64>
    requires sound { IsSoundChip (soc_value soc.now) }
    requires some_wire { 1 ≤ wires }
    ensures time { result
        ≡ option_map (lower wires) (find (is_called id) (live_tests (soc_value soc.now))) }
    ensures small { IfSome result (λ n. n ≤ 10 ^ 18) }
{
    let place = place_of(soc, id.module)?;
    let module = module_at(soc, place);
    let test = live_test(&module.tests, id.test)?;
    Some(Sizes::of(module).time(&test, wires))
}

/// The lower times of live tests by their names, together: where each but the first stands behind its forerunner in a
/// precedence, they run one after another. A name of no live test adds nothing.
pub fn chain_bound(soc: &Soc, tests: &[TestId], wires: u64) -> u128
    requires sound { IsSoundChip (soc_value soc.now) }
    requires some_wire { 1 ≤ wires }
    ensures sum { result ≡ sum_by (lower_of_id (soc_value soc.now) wires) tests.now }
    ensures bound { (limits : LimitsValue) → limits.wires ≡ wires →
        Each (IsChainItem (soc_value soc.now) limits) tests.now →
        IsBound (soc_value soc.now) limits result }
{
    let mut sum = 0u128;
    for id in tests {
        sum += u128::from(live_time(soc, *id, wires).unwrap_or(0));
    }
    sum
}
