//! Each module with a test over the wires is on one bus, and none is on two.

ghost use Rattle.std.specs.Prelude.{◌≡◌, ℕ, ◌<◌, Some, length, map, slice_get, IfSome, IfNone};
ghost use Rattle.std.specs.List.{flat_map, Contains};
ghost use Rattle.soc_model.specs.Chips.{soc_value};
ghost use Rattle.plan_model.specs.Views.{plan_value, bus_value};
ghost use Rattle.plan_model.specs.Plans.{BusValue, PlanValue, LimitsValue};
ghost use Rattle.plan_checker.specs.Stages.{IsStage};
ghost use Rattle.plan_model.specs.Rules.{Each, IsFirstBreach, IsNew, IsKnown, named, Places};
ghost use Rattle.soc_model.specs.Chips.{numbers};
ghost use Rattle.soc_model.specs.SoundChips.{IsSoundChip};
ghost use Rattle.plan_checker.specs.Broken.{EachOf};
ghost use Rattle.plan_checker.specs.Marks.{AreMarks, IsUnlisted, AreMarked, AreBusesBy, IsFirstUnplaced};

use crate::PlanFault;
use crate::lookups::find_module;
use plan_model::{Bus, Plan};
use soc_model::{Soc, has_tam_test, module_at};

/// The place of a module of the chip.
pub(crate) fn known_place(soc: &Soc, number: u64) -> usize
    requires sound { IsSoundChip (soc_value soc.now) }
    requires known { Contains (numbers (soc_value soc.now)) number }
    ensures { slice_get (numbers (soc_value soc.now)) result ≡ Some number }
{
    match find_module(soc, number) {
        Some(place) => place,
        None => unreachable!(),
    }
}

/// Writes the bus for each module that it lists, up to the first that is on a bus already.
fn list_bus(soc: &Soc, listed: &[u64], bus: usize, count: usize, marks: &mut [usize]) -> Option<u64>
    requires sound { IsSoundChip (soc_value soc.now) }
    requires known { EachOf (Contains (numbers (soc_value soc.now))) listed.now }
    requires within { bus < count }
    requires marks { AreMarks (numbers (soc_value soc.now)) count marks.old }
    ensures new { IfNone result
        (Each (IsUnlisted (numbers (soc_value soc.now)) count marks.old) listed.now) }
    ensures first { IfSome result (λ m. (n : ℕ)
        × IsFirstBreach (IsUnlisted (numbers (soc_value soc.now)) count marks.old) listed.now n m) }
    ensures marked { IfNone result
        (AreMarked (numbers (soc_value soc.now)) marks.old bus listed.now marks.new) }
{
    for number in listed {
        let place = known_place(soc, *number);
        if marks[place] < count {
            return Some(*number);
        }
        marks[place] = bus;
    }
    None
}

/// Writes one number at each place.
pub(crate) fn clear_marks(marks: &mut [usize], count: usize)
    ensures { (p : ℕ) → p < length marks.old → slice_get marks.new p ≡ Some count }
{
    for mark in marks.iter_mut() {
        *mark = count;
    }
}

/// Writes the bus of each module. The first module that is listed a second time.
fn listed_twice(soc: &Soc, buses: &[Bus], marks: &mut [usize]) -> Option<u64>
    requires sound { IsSoundChip (soc_value soc.now) }
    requires known { EachOf (Contains (numbers (soc_value soc.now)))
        (flat_map (λ (b : BusValue). b.modules) (map bus_value buses.now)) }
    requires room { length marks.old ≡ length (numbers (soc_value soc.now)) }
    ensures new { IfNone result
        (Each IsNew (flat_map (λ (b : BusValue). b.modules) (map bus_value buses.now))) }
    ensures first { IfSome result (λ m. (n : ℕ) × IsFirstBreach IsNew
        (flat_map (λ (b : BusValue). b.modules) (map bus_value buses.now)) n m) }
    ensures marked { IfNone result
        (AreBusesBy (numbers (soc_value soc.now)) (map bus_value buses.now) marks.new) }
{
    let count = buses.len();
    clear_marks(marks, count);
    for (place, bus) in buses.iter().enumerate() {
        let double = list_bus(soc, &bus.modules, place, count, marks);
        if double.is_some() {
            return double;
        }
    }
    None
}

/// The first module with a test over the wires that is on no bus.
fn unplaced(soc: &Soc, marks: &[usize], count: usize) -> Option<u64>
    requires { length marks.now ≡ length (soc_value soc.now).modules }
    ensures { (plan : PlanValue) → AreBusesBy (numbers (soc_value soc.now)) plan.buses marks.now →
        count ≡ length plan.buses → IsFirstUnplaced (soc_value soc.now) plan result }
{
    for (place, bus) in marks.iter().enumerate() {
        if *bus < count {
            continue;
        }
        let module = module_at(soc, place);
        if has_tam_test(module) {
            return Some(module.number);
        }
    }
    None
}

/// The buses of the plan against the modules of its chip. Where nothing is wrong, the marks say for each module its bus.
pub(crate) fn check_places(soc: &Soc, plan: &Plan, marks: &mut [usize]) -> Option<PlanFault>
    requires sound { IsSoundChip (soc_value soc.now) }
    requires known { Each (IsKnown (soc_value soc.now)) (named (plan_value plan.now)) }
    requires room { length marks.old ≡ length (soc_value soc.now).modules }
    ensures stage { (limits : LimitsValue) →
        IsStage (soc_value soc.now) limits (plan_value plan.now) Places result }
    ensures marked { IfNone result
        (AreBusesBy (numbers (soc_value soc.now)) (plan_value plan.now).buses marks.new) }
{
    match listed_twice(soc, &plan.buses, marks) {
        Some(module) => Some(PlanFault::ModulePlace { module }),
        None => match unplaced(soc, marks, plan.buses.len()) {
            Some(module) => Some(PlanFault::ModulePlace { module }),
            None => None,
        },
    }
}
