//! The stages one after another, in the order of the rules.

ghost use Rattle.std.specs.Prelude.{◌≡◌, ℕ, ◌+◌, ◌*◌, ◌≤◌, length, map, vec_capacity, IfSome, IfNone, Some};
ghost use Rattle.std.specs.List.{Contains};
ghost use Rattle.plan_model.specs.declared.Wrapper.{Wrapper};
ghost use Rattle.plan_checker.specs.Broken.{EachOf};
ghost use Rattle.indexmap.specs.IndexSet.{keys, spare};
ghost use Rattle.soc_model.specs.Chips.{SocValue};
ghost use Rattle.plan_model.specs.Plans.{PlanValue, LimitsValue};
ghost use Rattle.soc_model.specs.Chips.{soc_value};
ghost use Rattle.plan_model.specs.Views.{limits_value, plan_value};
ghost use Rattle.plan_model.specs.Rules.{IsGood, used_pairs, pair_of, live_ids};
ghost use Rattle.plan_model.specs.Faults.{IsFault};
ghost use Rattle.soc_model.specs.Chips.{numbers};
ghost use Rattle.soc_model.specs.SoundChips.{IsSoundChip};
ghost use Rattle.plan_checker.specs.Listed.{StartEarly};
ghost use Rattle.live_tests.specs.Placed.{AreWalked, placed_tests};
ghost use Rattle.plan_model.specs.SoundLimits.{IsSoundLimits};
ghost use Rattle.live_tests.specs.Names.{AllDiffer};
ghost use Rattle.plan_checker.specs.Named.{FindsTests, names_of};
ghost use Rattle.plan_checker.specs.Starting.{AreStarts};
ghost use Rattle.plan_checker.specs.Power.{IsLoad};
ghost use Rattle.plan_checker.specs.Placing.{IsPlacing};
ghost use Rattle.plan_checker.specs.Stages.{KeptTo, IsVerdict};
ghost use Rattle.plan_checker.specs.FaultValues.{fault_value};
ghost use Rattle.plan_checker.specs.Marks.{AreBusesBy};
ghost use Rattle.live_tests.specs.Parents.{AreParents};
ghost use Rattle.plan_checker.specs.Layout.{IsLayout};
ghost use Rattle.plan_checker.specs.Lengths.{AreAsLong};

use crate::PlanFault;
use crate::clashes::{Apart, check_apart};
use crate::events::EVENTS_EACH;
use crate::known::{check_cells, check_known};
use crate::meetings::{Begin, fill_begins};
use crate::named::TestNames;
use crate::order::{check_before, check_cycles};
use crate::placed::{PlanLookups, fill_tests, fill_wrappers};
use crate::places::check_places;
use crate::power::{check_power, fill_profiles};
use crate::space::{PlacedRooms, Rooms};
use crate::starts::check_starts;
use crate::widths::check_widths;
use crate::wrappers::check_wrappers;
use indexmap::IndexSet;
use live_tests::{Event, ModeWrappers, PlacedTest, fill_parents};
use plan_model::{Limits, Plan, WIRES_MOST};
use soc_model::Soc;

/// The buses of the plan: their widths, the modules that it names, and their places.
fn check_buses(soc: &Soc, limits: &Limits, plan: &Plan, marks: &mut [usize]) -> Option<PlanFault>
    requires sound { IsSoundChip (soc_value soc.now) }
    requires room { length marks.old ≡ length (soc_value soc.now).modules }
    ensures verdict { IsVerdict (soc_value soc.now) (limits_value limits.now) (plan_value plan.now)
        4 result }
    ensures marked { IfNone result
        (AreBusesBy (numbers (soc_value soc.now)) (plan_value plan.now).buses marks.new) }
{
    match check_widths(limits.wires, &plan.buses) {
        Some(fault) => Some(fault),
        None => match check_known(soc, plan) {
            Some(fault) => Some(fault),
            None => check_places(soc, plan, marks),
        },
    }
}

/// Tests that may not meet: on one bus, of one module, of a module and its parent.
fn check_meetings(
    parents: &[usize],
    placed: &[PlacedTest],
    begins: &[Begin],
    ends: &mut [u64],
) -> Option<PlanFault>
    requires { IsLayout parents.now placed.now begins.now (length ends.old) }
    ensures { (soc : SocValue) (limits : LimitsValue) (plan : PlanValue) →
        placed.now ≡ placed_tests soc plan → AreParents soc parents.now → KeptTo soc limits plan 7 →
        IsVerdict soc limits plan 10 result }
{
    match check_apart(parents, Apart::OneBus, placed, begins, ends) {
        Some(fault) => Some(fault),
        None => match check_apart(parents, Apart::OneModule, placed, begins, ends) {
            Some(fault) => Some(fault),
            None => check_apart(parents, Apart::ParentAndChild, placed, begins, ends),
        },
    }
}

/// The wrappers and the starts of the plan, once its buses have passed.
fn check_tests(
    soc: &Soc,
    limits: &Limits,
    plan: &Plan,
    marks: &[usize],
    names: &TestNames<'_>,
    wrappers: &mut IndexSet<(u64, bool)>,
    starts: &mut [u64],
) -> Option<PlanFault>
    requires sound { IsSoundChip (soc_value soc.now) }
    requires kept { KeptTo (soc_value soc.now) (limits_value limits.now) (plan_value plan.now) 4 }
    requires known { EachOf (Contains (numbers (soc_value soc.now)))
        (map (λ (w : Wrapper). w.«module») plan.now.wrappers.items) }
    requires marked { AreBusesBy (numbers (soc_value soc.now)) (plan_value plan.now).buses
        marks.now }
    requires pairs_fit { length (used_pairs (soc_value soc.now))
        ≤ length (keys wrappers.old) + spare wrappers.old }
    requires early { StartEarly plan.now.starts.items }
    requires named { FindsTests limits.now.before.items (live_ids (soc_value soc.now)) names.now }
    requires starts_fit { length starts.old ≡ length (live_ids (soc_value soc.now)) }
    ensures verdict { IsVerdict (soc_value soc.now) (limits_value limits.now) (plan_value plan.now)
        7 result }
    ensures paired { IfNone result
        (keys wrappers.new ≡ map pair_of (plan_value plan.now).wrappers) }
    ensures started { IfNone result
        (AreStarts (live_ids (soc_value soc.now)) plan.now.starts.items starts.new) }
    ensures pairs_left { length (keys wrappers.old) + spare wrappers.old
        ≤ length (keys wrappers.new) + spare wrappers.new }
{
    match check_wrappers(soc, plan, marks, wrappers) {
        Some(fault) => Some(fault),
        None => match check_cells(soc, plan) {
            Some(fault) => Some(fault),
            None => check_starts(soc, plan, names, starts),
        },
    }
}

/// The precedences, the power and the cycles.
fn check_ends(
    limits: &Limits,
    plan: &Plan,
    placed: &[PlacedTest],
    names: &TestNames<'_>,
    profiles: &[usize],
    events: &mut Vec<Event>,
) -> Option<PlanFault>
    requires named { FindsTests limits.now.before.items (names_of placed.now) names.now }
    requires apart { AllDiffer (names_of placed.now) }
    requires load { (most : ℕ) → limits.now.power ≡ Some most →
        IsLoad (limits_value limits.now) placed.now profiles.now most }
    requires space { length placed.now * EVENTS_EACH ≤ vec_capacity events.old }
    ensures verdict { (soc : SocValue) → placed.now ≡ placed_tests soc (plan_value plan.now) →
        KeptTo soc (limits_value limits.now) (plan_value plan.now) 10 →
        IsVerdict soc (limits_value limits.now) (plan_value plan.now) 13 result }
    ensures room { vec_capacity events.old ≤ vec_capacity events.new }
{
    match check_before(limits, placed, names) {
        Some(fault) => Some(fault),
        None => match check_power(limits, placed, profiles, events) {
            Some(fault) => Some(fault),
            None => check_cycles(plan.cycles, placed),
        },
    }
}

/// The tests as the plan places them, once its buses, wrappers and starts have passed.
fn check_placed(
    limits: &Limits,
    from: &PlanLookups<'_>,
    names: &TestNames<'_>,
    rooms: &mut PlacedRooms,
) -> Option<PlanFault>
    requires placing { IsPlacing from.now }
    requires kept { KeptTo (soc_value from.now.soc.now) (limits_value limits.now)
        (plan_value from.now.plan.now) 7 }
    requires limits { IsSoundLimits (soc_value from.now.soc.now) (limits_value limits.now) }
    requires named { FindsTests limits.now.before.items (live_ids (soc_value from.now.soc.now))
        names.now }
    requires parents_fit { length rooms.old.parents.items
        ≡ length (soc_value from.now.soc.now).modules }
    requires wrappers_fit { length rooms.old.wrappers.items
        ≡ length (soc_value from.now.soc.now).modules }
    requires tests_fit { length rooms.old.tests.items
        ≡ length (placed_tests (soc_value from.now.soc.now) (plan_value from.now.plan.now)) }
    requires begins_fit { length rooms.old.begins.items ≡ length rooms.old.tests.items }
    requires ends_fit { length rooms.old.ends.items
        ≡ length rooms.old.parents.items + WIRES_MOST + 1 }
    requires profiles_fit { length rooms.old.profiles.items ≡ length rooms.old.tests.items }
    requires events_fit { length rooms.old.tests.items * EVENTS_EACH
        ≤ vec_capacity rooms.old.events }
    ensures verdict { IsVerdict (soc_value from.now.soc.now) (limits_value limits.now)
        (plan_value from.now.plan.now) 13 result }
    ensures tests { rooms.new.tests.items
        ≡ placed_tests (soc_value from.now.soc.now) (plan_value from.now.plan.now) }
    ensures walked { AreWalked (soc_value from.now.soc.now) (plan_value from.now.plan.now)
        rooms.new.wrappers.items }
    ensures long { AreAsLong rooms.old rooms.new }
    ensures events_left { vec_capacity rooms.old.events ≤ vec_capacity rooms.new.events }
{
    let parents: &mut [usize] = &mut rooms.parents;
    let walked: &mut [ModeWrappers] = &mut rooms.wrappers;
    let placed: &mut [PlacedTest] = &mut rooms.tests;
    let begins: &mut [Begin] = &mut rooms.begins;
    let profiles: &mut [usize] = &mut rooms.profiles;
    fill_parents(from.soc, parents);
    fill_wrappers(from, walked);
    fill_tests(from, walked, placed);
    fill_begins(placed, begins);
    fill_profiles(limits, placed, names, profiles);
    match check_meetings(parents, placed, begins, &mut rooms.ends) {
        Some(fault) => Some(fault),
        None => check_ends(
            limits,
            from.plan,
            placed,
            names,
            profiles,
            &mut rooms.events,
        ),
    }
}

/// The first rule that the plan breaks, with what shows it. Where it breaks none, the room holds what it says by place.
pub(crate) fn check_rules(
    soc: &Soc,
    limits: &Limits,
    plan: &Plan,
    names: &TestNames<'_>,
    rooms: &mut Rooms,
) -> Option<PlanFault>
    requires sound { IsSoundChip (soc_value soc.now) }
    requires limits { IsSoundLimits (soc_value soc.now) (limits_value limits.now) }
    requires early { StartEarly plan.now.starts.items }
    requires named { FindsTests limits.now.before.items (live_ids (soc_value soc.now)) names.now }
    requires marks_fit { length rooms.old.marks.items ≡ length (soc_value soc.now).modules }
    requires parents_fit { length rooms.old.placed.parents.items
        ≡ length (soc_value soc.now).modules }
    requires wrappers_fit { length rooms.old.placed.wrappers.items
        ≡ length (soc_value soc.now).modules }
    requires pairs_fit { length (used_pairs (soc_value soc.now))
        ≤ length (keys rooms.old.wrappers) + spare rooms.old.wrappers }
    requires starts_fit { length rooms.old.starts.items ≡ length (live_ids (soc_value soc.now)) }
    requires tests_fit { length rooms.old.placed.tests.items
        ≡ length (placed_tests (soc_value soc.now) (plan_value plan.now)) }
    requires begins_fit { length rooms.old.placed.begins.items
        ≡ length rooms.old.placed.tests.items }
    requires ends_fit { length rooms.old.placed.ends.items
        ≡ length rooms.old.marks.items + WIRES_MOST + 1 }
    requires profiles_fit { length rooms.old.placed.profiles.items
        ≡ length rooms.old.placed.tests.items }
    requires events_fit { length rooms.old.placed.tests.items * EVENTS_EACH
        ≤ vec_capacity rooms.old.placed.events }
    ensures good { IfNone result
        (IsGood (soc_value soc.now) (limits_value limits.now) (plan_value plan.now)) }
    ensures fault { IfSome result (λ f. IsFault (soc_value soc.now) (limits_value limits.now)
        (plan_value plan.now) (fault_value f)) }
    ensures tests { IfNone result
        (rooms.new.placed.tests.items ≡ placed_tests (soc_value soc.now) (plan_value plan.now)) }
    ensures walked { IfNone result
        (AreWalked (soc_value soc.now) (plan_value plan.now) rooms.new.placed.wrappers.items) }
    ensures pairs_left { length (keys rooms.old.wrappers) + spare rooms.old.wrappers
        ≤ length (keys rooms.new.wrappers) + spare rooms.new.wrappers }
    ensures starts_long { length rooms.new.starts.items ≡ length rooms.old.starts.items }
    ensures events_left { length rooms.old.placed.tests.items * EVENTS_EACH
        ≤ vec_capacity rooms.new.placed.events }
    ensures marks_long { length rooms.new.marks.items ≡ length rooms.old.marks.items }
    ensures long { AreAsLong rooms.old.placed rooms.new.placed }
{
    let marks: &mut [usize] = &mut rooms.marks;
    let starts: &mut [u64] = &mut rooms.starts;
    match check_buses(soc, limits, plan, marks) {
        Some(fault) => Some(fault),
        None => match check_tests(soc, limits, plan, marks, names, &mut rooms.wrappers, starts) {
            Some(fault) => Some(fault),
            None => {
                let from = PlanLookups {
                    soc,
                    plan,
                    starts,
                    wrappers: &rooms.wrappers,
                    buses: marks,
                };
                check_placed(limits, &from, names, &mut rooms.placed)
            }
        },
    }
}
