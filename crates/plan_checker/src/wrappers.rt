//! Each pair of a module and a mode that a test over the wires uses has one wrapper, and no other pair has any.

ghost use Rattle.std.specs.Prelude.{◌≡◌, ℕ, ◌+◌, ◌<◌, ◌≤◌, ◌∷◌, ◌++◌, [], length, map, IsTrue, IfSome, IfNone, true, false, slice_index};
ghost use Rattle.std.specs.List.{list_any, Contains};
ghost use Rattle.indexmap.specs.IndexSet.{keys, spare};
ghost use Rattle.plan_model.specs.Plans.{BusValue, WrapperValue, LimitsValue};
ghost use Rattle.soc_model.specs.Chips.{soc_value, module_value};
ghost use Rattle.plan_model.specs.Views.{plan_value, bus_value, wrapper_value};
ghost use Rattle.plan_model.specs.Rules.{Each, IsFirstBreach, IsFitting, Wrappers, mode_pair, used_pairs, pair_of};
ghost use Rattle.soc_model.specs.Chips.{numbers};
ghost use Rattle.plan_model.specs.declared.Wrapper.{Wrapper};
ghost use Rattle.plan_checker.specs.Broken.{EachOf, Breaks};
ghost use Rattle.plan_checker.specs.Stages.{IsStage};
ghost use Rattle.plan_checker.specs.Marks.{AreBusesBy, IsWired};
ghost use Rattle.soc_model.specs.SoundChips.{IsSoundChip};
ghost use Rattle.live_tests.specs.Index.{is_pair};

use crate::PlanFault;
use crate::lookups::{find_module, module_count};
use crate::placed::bus_at;
use crate::places::known_place;
use indexmap::IndexSet;
use plan_model::{Bus, ChainPlan, Plan, Wrapper};
use soc_model::{Module, Soc, module_at, uses_mode};

/// Whether a wrapper of the pair is in the room.
fn has_pair(room: &IndexSet<(u64, bool)>, number: u64, scan: bool) -> bool
    ensures { result ≡ list_any (is_pair number scan) (keys room.now) }
{
    room.contains(&(number, scan))
}

/// Puts a pair last.
fn put_pair(room: &mut IndexSet<(u64, bool)>, number: u64, scan: bool)
    requires new { list_any (is_pair number scan) (keys room.old) ≡ false }
    requires space { 0 < spare room.old }
    ensures filled { keys room.new ≡ keys room.old ++ (number, scan) ∷ [] }
    ensures space_left { spare room.old ≤ spare room.new + 1 }
{
    let _ = room.insert((number, scan));
}

/// Whether a live test over the wires of the module is in the mode.
fn is_used(soc: &Soc, number: u64, scan: bool) -> bool
    requires { IsSoundChip (soc_value soc.now) }
    ensures used { IsTrue result → Contains (used_pairs (soc_value soc.now)) (number, scan) }
    ensures other { result ≡ false → Contains (used_pairs (soc_value soc.now)) (number, scan) → ⊥ }
{
    match find_module(soc, number) {
        Some(place) => uses_mode(module_at(soc, place), scan),
        None => false,
    }
}

/// The wires of the bus at a place, 0 where there is none.
fn width_at(buses: &[Bus], place: usize) -> u64
    ensures { result
        ≡ slice_index (map (λ (b : BusValue). b.width) (map bus_value buses.now)) place }
{
    if place < buses.len() {
        buses[place].width
    } else {
        0
    }
}

/// The number of chains.
fn chain_count(chains: &[ChainPlan]) -> usize
    ensures { result ≡ length chains.now }
{
    chains.len()
}

/// Whether the wrapper has a chain, and no more chains than its bus has wires.
fn has_wires(soc: &Soc, buses: &[Bus], marks: &[usize], wrapper: &Wrapper) -> bool
    requires sound { IsSoundChip (soc_value soc.now) }
    requires known { Contains (numbers (soc_value soc.now)) wrapper.now.«module» }
    requires marked { AreBusesBy (numbers (soc_value soc.now)) (map bus_value buses.now) marks.now }
    ensures { IsWired (map bus_value buses.now) (wrapper_value wrapper.now) result }
{
    let place = known_place(soc, wrapper.module);
    let chains = chain_count(&wrapper.chains);
    if chains == 0 {
        return false;
    }
    chains as u64 <= width_at(buses, bus_at(marks, place))
}

/// The first wrapper that isn't of a used pair, repeats one or doesn't fit its bus. The room holds the pairs before it.
fn take_wrappers(
    soc: &Soc,
    plan: &Plan,
    wrappers: &[Wrapper],
    marks: &[usize],
    room: &mut IndexSet<(u64, bool)>,
) -> Option<(u64, bool)>
    requires sound { IsSoundChip (soc_value soc.now) }
    requires known { EachOf (Contains (numbers (soc_value soc.now)))
        (map (λ (w : Wrapper). w.«module») wrappers.now) }
    requires marked { AreBusesBy (numbers (soc_value soc.now)) (plan_value plan.now).buses
        marks.now }
    requires empty { keys room.old ≡ [] }
    requires space { length (used_pairs (soc_value soc.now)) ≤ spare room.old }
    ensures kept { IfNone result (Each (IsFitting (soc_value soc.now) (plan_value plan.now))
        (map wrapper_value wrappers.now)) }
    ensures filled { IfNone result (keys room.new ≡ map pair_of (map wrapper_value wrappers.now)) }
    ensures first { IfSome result (λ p. (n : ℕ) × (w : WrapperValue)
        × IsFirstBreach (IsFitting (soc_value soc.now) (plan_value plan.now))
        (map wrapper_value wrappers.now) n w × (p ≡ pair_of w)) }
    ensures space_left { spare room.old ≤ length (keys room.new) + spare room.new }
{
    for wrapper in wrappers {
        if !is_used(soc, wrapper.module, wrapper.scan) {
            return Some((wrapper.module, wrapper.scan));
        }
        if has_pair(room, wrapper.module, wrapper.scan) {
            return Some((wrapper.module, wrapper.scan));
        }
        if !has_wires(soc, &plan.buses, marks, wrapper) {
            return Some((wrapper.module, wrapper.scan));
        }
        put_pair(room, wrapper.module, wrapper.scan);
    }
    None
}

/// Whether the module uses the mode and the room has no wrapper for it.
fn lacks_wrapper(module: &Module, scan: bool, room: &IndexSet<(u64, bool)>) -> bool
    ensures broken { IsTrue result →
        Breaks (Contains (keys room.now)) (mode_pair scan (module_value «module».now))
        («module».now.number, scan) }
    ensures kept { result ≡ false →
        EachOf (Contains (keys room.now)) (mode_pair scan (module_value «module».now)) }
{
    if !uses_mode(module, scan) {
        return false;
    }
    !has_pair(room, module.number, scan)
}

/// The first pair of the module that has no wrapper in the room, scan before terminals.
fn unwrapped_in(module: &Module, room: &IndexSet<(u64, bool)>) -> Option<(u64, bool)>
    ensures all { IfNone result (EachOf (Contains (keys room.now)) (mode_pair true
        (module_value «module».now) ++ mode_pair false (module_value «module».now))) }
    ensures first { IfSome result (λ p. Breaks (Contains (keys room.now))
        (mode_pair true (module_value «module».now) ++ mode_pair false (module_value «module».now))
        p) }
{
    if lacks_wrapper(module, true, room) {
        return Some((module.number, true));
    }
    if lacks_wrapper(module, false, room) {
        return Some((module.number, false));
    }
    None
}

/// The first pair of the chip that has no wrapper in the room.
fn unwrapped(soc: &Soc, room: &IndexSet<(u64, bool)>) -> Option<(u64, bool)>
    ensures all { IfNone result
        (EachOf (Contains (keys room.now)) (used_pairs (soc_value soc.now))) }
    ensures first { IfSome result
        (λ p. Breaks (Contains (keys room.now)) (used_pairs (soc_value soc.now)) p) }
{
    for place in 0..module_count(soc) {
        let missing = unwrapped_in(module_at(soc, place), room);
        if missing.is_some() {
            return missing;
        }
    }
    None
}

/// The wrappers of the plan against its chip and its buses. Where nothing is wrong, the room holds their pairs.
pub(crate) fn check_wrappers(
    soc: &Soc,
    plan: &Plan,
    marks: &[usize],
    room: &mut IndexSet<(u64, bool)>,
) -> Option<PlanFault>
    requires sound { IsSoundChip (soc_value soc.now) }
    requires known { EachOf (Contains (numbers (soc_value soc.now)))
        (map (λ (w : Wrapper). w.«module») plan.now.wrappers.items) }
    requires marked { AreBusesBy (numbers (soc_value soc.now)) (plan_value plan.now).buses
        marks.now }
    requires space { length (used_pairs (soc_value soc.now))
        ≤ length (keys room.old) + spare room.old }
    ensures stage { (limits : LimitsValue) →
        IsStage (soc_value soc.now) limits (plan_value plan.now) Wrappers result }
    ensures filled { IfNone result (keys room.new ≡ map pair_of (plan_value plan.now).wrappers) }
    ensures space_left { length (keys room.old) + spare room.old
        ≤ length (keys room.new) + spare room.new }
{
    room.clear();
    match take_wrappers(soc, plan, &plan.wrappers, marks, room) {
        Some(pair) => Some(PlanFault::WrapperList {
            module: pair.0,
            scan: pair.1,
        }),
        None => match unwrapped(soc, room) {
            Some(pair) => Some(PlanFault::WrapperList {
                module: pair.0,
                scan: pair.1,
            }),
            None => None,
        },
    }
}
