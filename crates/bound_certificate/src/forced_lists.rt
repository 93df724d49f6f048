//! The list of a Forced certificate: modules of which no two have buses beside each other in a plan that is shorter than
//! claimed.
ghost use Rattle.std.specs.Prelude.{◌≡◌, ℕ, ◌+◌, ◌^◌, ◌<◌, ◌≤◌, Some, IfSome, IfNone, is_some, length, slice_get, take};
ghost use Rattle.std.specs.List.{sum_by};
ghost use Rattle.soc_model.specs.Chips.{soc_value};
ghost use Rattle.soc_model.specs.declared.TheConstants.{MODULES_MOST};
ghost use Rattle.soc_model.specs.Lookups.{module_place};
ghost use Rattle.soc_model.specs.SoundChips.{IsSoundChip};
ghost use Rattle.plan_model.specs.Views.{limits_value};
ghost use Rattle.plan_model.specs.Plans.{OfForced};
ghost use Rattle.plan_model.specs.SoundLimits.{IsSoundLimits};
ghost use Rattle.plan_model.specs.Bounds.{lower_tam_time};
ghost use Rattle.plan_model.specs.Certificates.{on, passes, has_tam_at, IsForcedItem};
ghost use Rattle.bound_certificate.specs.Breaches.{IsBreachPlace};
ghost use Rattle.bound_certificate.specs.Checks.{IsCheck};
ghost use Rattle.bound_certificate.specs.Forced.{IsForcedSoFar};

use crate::{BoundFault, enough};
use bound_rules::{lower_tam_time, need};
use plan_model::Limits;
use soc_model::{Soc, has_tam_test, module_at, place_of};

/// The place of a module that has a live test over the wires. None comes exactly where the chip has no such module of
/// this number.
fn tam_place(soc: &Soc, number: u64) -> Option<usize>
    requires { IsSoundChip (soc_value soc.now) }
    ensures some { IfSome result (λ place. (module_place (soc_value soc.now) number ≡ Some place)
        × (place < length (soc_value soc.now).modules)) }
    ensures exact { is_some result
        ≡ passes (has_tam_at (soc_value soc.now)) (module_place (soc_value soc.now) number) }
{
    match place_of(soc, number) {
        None => None,
        Some(place) => {
            if has_tam_test(module_at(soc, place)) {
                Some(place)
            } else {
                None
            }
        }
    }
}

/// The lower times of a module's tests over the wires together, by its number; 0 where the chip has no such module.
fn tam_time_of(soc: &Soc, number: u64, wires: u64) -> u64
    requires sound { IsSoundChip (soc_value soc.now) }
    requires some_wire { 1 ≤ wires }
    ensures time { result
        ≡ on (module_place (soc_value soc.now) number)
        (λ place. lower_tam_time (soc_value soc.now) place wires) }
    ensures small { result ≤ 10 ^ 18 }
{
    match place_of(soc, number) {
        None => 0,
        Some(place) => lower_tam_time(soc, place, wires),
    }
}

/// The lower times of these modules' tests over the wires together.
pub fn forced_sum(soc: &Soc, modules: &[u64], wires: u64) -> u128
    requires sound { IsSoundChip (soc_value soc.now) }
    requires some_wire { 1 ≤ wires }
    ensures { result
        ≡ sum_by
        (λ m. on (module_place (soc_value soc.now) m)
        (λ place. lower_tam_time (soc_value soc.now) place wires)) modules.now }
{
    let mut sum = 0u128;
    for number in modules {
        sum += u128::from(tam_time_of(soc, *number, wires));
    }
    sum
}

/// The least need after one more entry of a list of modules. The modules before it are marked, and `least` is the least
/// need of them, so that one comparison does for all. None comes exactly where the entry breaks the rule of forced lists.
fn take_entry(
    soc: &Soc,
    limits: &Limits,
    claimed: u64,
    modules: &[u64],
    place: usize,
    marks: &mut [bool],
    least: u64,
) -> Option<u64>
    requires sound { IsSoundChip (soc_value soc.now) }
    requires limits { IsSoundLimits (soc_value soc.now) (limits_value limits.now) }
    requires place { place < length modules.now }
    requires room { length marks.old ≡ MODULES_MOST }
    requires least { least ≤ limits.now.wires + 1 }
    requires so_far { IsForcedSoFar (soc_value soc.now) limits.now.wires claimed
        (take place modules.now) marks.old least }
    ensures kept { IfSome result (λ next. (m : ℕ) → slice_get modules.now place ≡ Some m →
        IsForcedItem (soc_value soc.now) limits.now.wires claimed (take place modules.now) m
        × IsForcedSoFar (soc_value soc.now) limits.now.wires claimed
        (take (place + 1) modules.now) marks.new next) }
    ensures few { IfSome result (λ next. next ≤ limits.now.wires + 1) }
    ensures breach { IfNone result ((m : ℕ) → slice_get modules.now place ≡ Some m →
        IsForcedItem (soc_value soc.now) limits.now.wires claimed (take place modules.now) m → ⊥) }
{
    match tam_place(soc, modules[place]) {
        None => None,
        Some(at) => {
            let needed = need(soc, at, limits.wires, claimed);
            if marks[at] || least + needed <= limits.wires {
                return None;
            }
            marks[at] = true;
            Some(least.min(needed))
        }
    }
}

/// The first place of a list of modules that breaks the rule of forced lists.
pub fn forced_breach(
    soc: &Soc,
    limits: &Limits,
    claimed: u64,
    modules: &[u64],
    marks: &mut [bool],
) -> Option<usize>
    requires sound { IsSoundChip (soc_value soc.now) }
    requires limits { IsSoundLimits (soc_value soc.now) (limits_value limits.now) }
    requires room { length marks.old ≡ MODULES_MOST }
    ensures { IsBreachPlace (IsForcedItem (soc_value soc.now) limits.now.wires claimed) modules.now
        result }
{
    marks.fill(false);
    let mut least = limits.wires + 1;
    for place in 0..modules.len() {
        match take_entry(soc, limits, claimed, modules, place, marks, least) {
            None => return Some(place),
            Some(next) => least = next,
        }
    }
    None
}

/// The check of kind Forced.
pub fn check_forced(
    soc: &Soc,
    limits: &Limits,
    modules: &[u64],
    claimed: u64,
    marks: &mut [bool],
) -> Result<(), BoundFault>
    requires sound { IsSoundChip (soc_value soc.now) }
    requires limits { IsSoundLimits (soc_value soc.now) (limits_value limits.now) }
    requires room { length marks.old ≡ MODULES_MOST }
    ensures { IsCheck (soc_value soc.now) (limits_value limits.now) claimed (OfForced modules.now)
        result }
{
    match forced_breach(soc, limits, claimed, modules, marks) {
        Some(place) => Err(BoundFault::BadList { place }),
        None => enough(claimed, forced_sum(soc, modules, limits.wires)),
    }
}
