//! The checker's room and its public call that takes no memory.

ghost use Rattle.std.specs.Prelude.{◌≡◌, ℕ, ◌≤◌, OnOk, IfOk, IfErr, IsOk, length};
ghost use Rattle.std.specs.List.{All};
ghost use Rattle.soc_model.specs.declared.TestId.{TestId};
ghost use Rattle.soc_model.specs.Chips.{SocValue, soc_value};
ghost use Rattle.soc_model.specs.SoundChips.{IsSoundChip};
ghost use Rattle.plan_model.specs.declared.TheConstants.{START_MOST};
ghost use Rattle.plan_model.specs.Views.{limits_value, plan_value};
ghost use Rattle.plan_model.specs.Faults.{IsFault, IsFaultless};
ghost use Rattle.plan_model.specs.Right.{IsRight};
ghost use Rattle.plan_model.specs.Rules.{IsBound, live_ids};
ghost use Rattle.plan_model.specs.Runs.{Content};
ghost use Rattle.plan_model.specs.SoundLimits.{IsSoundLimits};
ghost use Rattle.indexmap.specs.IndexSet.{keys, spare};
ghost use Rattle.plan_checker.specs.FaultValues.{fault_value};
ghost use Rattle.plan_checker.specs.Named.{FindsTests};
ghost use Rattle.plan_checker.specs.Room.{HasNamedRoomFor, HasRoom, HasRoomFor, HoldsPlaced, StaysNamedRoom, StaysRoom};

use crate::PlanFault;
use crate::named::{TestNames, fill_names};
use crate::space::{CheckSizes, PlanRooms, chip_sizes, plan_rooms};
use crate::verdict::check_rules;
use bound_certificate::check_bound;
use indexmap::IndexSet;
use outside::NoMemory;
use plan_model::{Limits, Plan, faults_are_exact, good_plans_run_right};
use soc_model::{Soc, TestId};
use std::alloc::Global;
use std::marker::Model;

/// What a check fills that takes no memory.
#[derive(Drop)]
struct NamedRooms {
    /// The names of the live tests, in the order of the chip.
    names: IndexSet<TestId>,
    /// Room for the rules and the certificate.
    plan: PlanRooms,
}

/// Room for checking plans of a chip. Its model is the number of modules, of pairs of a module and a mode, and of live
/// tests that there is room for.
#[derive(Drop)]
pub struct Scratch {
    rooms: NamedRooms,
}

impl Model for Scratch {
    ghost use Rattle.plan_checker.specs.Room.{IsNamedRoom, RoomValue, room_value};

    ghost Value = { RoomValue };

    ghost view = { λ s. room_value s.rooms };

    ghost invariant = { λ s. IsNamedRoom s.rooms };
}

impl Scratch {
    /// Room for a plan of a chip of these sizes.
    fn sized(alloc: Global, sizes: &CheckSizes, plan: &Plan) -> Result<Scratch, NoMemory>
        ensures { IfOk result (λ room. (room.modules ≡ sizes.now.modules)
            × (sizes.now.pairs ≤ room.pairs) × (room.tests ≡ sizes.now.tests)) }
    {
        let plan = plan_rooms(alloc, sizes, plan)?;
        let Ok(names) = IndexSet::with_capacity(alloc, sizes.tests) else {
            // dropped by a call: the end of the scope would drop each of its parts, and be proved for each
            drop(plan);
            return Err(NoMemory);
        };
        Ok(Scratch {
            rooms: NamedRooms { names, plan },
        })
    }

    /// Room for this chip and this plan, the list of its certificate included.
    pub fn new(alloc: Global, soc: &Soc, plan: &Plan) -> Result<Scratch, NoMemory>
        ensures { IfOk result (HasRoom (soc_value soc.now)) }
    {
        let Some(sizes) = chip_sizes(soc) else {
            return Err(NoMemory);
        };
        Scratch::sized(alloc, &sizes, plan)
    }
}

/// Whether the plan is good and its certificate accepted; then the room holds what it says by place. Else the fault that shows first.
pub(crate) fn check_all(
    soc: &Soc,
    limits: &Limits,
    plan: &Plan,
    names: &TestNames<'_>,
    room: &mut PlanRooms,
) -> Result<(), PlanFault>
    requires sound { IsSoundChip (soc_value soc.now) }
    requires limits { IsSoundLimits (soc_value soc.now) (limits_value limits.now) }
    requires early { All (λ (s : TestId × ℕ). s.1 ≤ START_MOST) plan.now.starts.items }
    requires named { FindsTests limits.now.before.items (live_ids (soc_value soc.now)) names.now }
    requires room { HasRoomFor (soc_value soc.now) room.old.rules }
    ensures ok { OnOk result
        (IsFaultless (soc_value soc.now) (limits_value limits.now) (plan_value plan.now)) }
    ensures fault { IfErr result (λ f. IsFault (soc_value soc.now) (limits_value limits.now)
        (plan_value plan.now) (fault_value f)) }
    ensures exact { IsFaultless (soc_value soc.now) (limits_value limits.now)
        (plan_value plan.now) → IsOk result }
    ensures bound { OnOk result
        (IsBound (soc_value soc.now) (limits_value limits.now) (plan_value plan.now).bound.cycles) }
    ensures placed { OnOk result
        (HoldsPlaced (soc_value soc.now) (plan_value plan.now) room.new.rules.placed) }
    ensures room { StaysRoom room.old.rules room.new.rules }
{
    faults_are_exact();
    match check_rules(soc, limits, plan, names, &mut room.rules) {
        Some(fault) => Err(fault),
        None => match check_bound(soc, limits, &plan.bound, &mut room.bound) {
            Ok(()) => Ok(()),
            Err(fault) => Err(PlanFault::Bound(fault)),
        },
    }
}

/// What [`check_all`] answers, by a set of the names, which it fills.
fn check_listed(
    soc: &Soc,
    limits: &Limits,
    plan: &Plan,
    room: &mut NamedRooms,
) -> Result<(), PlanFault>
    requires sound { IsSoundChip (soc_value soc.now) }
    requires limits { IsSoundLimits (soc_value soc.now) (limits_value limits.now) }
    requires early { All (λ (s : TestId × ℕ). s.1 ≤ START_MOST) plan.now.starts.items }
    requires room { HasNamedRoomFor (soc_value soc.now) room.old }
    ensures ok { OnOk result
        (IsFaultless (soc_value soc.now) (limits_value limits.now) (plan_value plan.now)) }
    ensures fault { IfErr result (λ f. IsFault (soc_value soc.now) (limits_value limits.now)
        (plan_value plan.now) (fault_value f)) }
    ensures exact { IsFaultless (soc_value soc.now) (limits_value limits.now)
        (plan_value plan.now) → IsOk result }
    ensures bound { OnOk result
        (IsBound (soc_value soc.now) (limits_value limits.now) (plan_value plan.now).bound.cycles) }
    ensures room { StaysNamedRoom room.old room.new }
{
    fill_names(soc, &mut room.names);
    let names = TestNames::Listed(&room.names);
    check_all(soc, limits, plan, &names, &mut room.plan)
}

/// Whether the plan is good and its certificate accepted. Then it runs right for every content, and no good plan has
/// fewer cycles than its certificate claims. Else the error is the first rule that the plan breaks, in their order, with
/// what shows that first, and last the fault of the certificate. It takes no memory, and the room serves again: every chip that it
/// had room for, it still has room for.
pub fn check_plan(
    soc: &Soc,
    limits: &Limits,
    plan: &Plan,
    room: &mut Scratch,
) -> Result<(), PlanFault>
    requires sound { IsSoundChip (soc_value soc.now) }
    requires limits { IsSoundLimits (soc_value soc.now) (limits_value limits.now) }
    requires early { All (λ (s : TestId × ℕ). s.1 ≤ START_MOST) plan.now.starts.items }
    requires room { HasRoom (soc_value soc.now) room.old }
    ensures ok { OnOk result
        (IsFaultless (soc_value soc.now) (limits_value limits.now) (plan_value plan.now)) }
    ensures fault { IfErr result (λ f. IsFault (soc_value soc.now) (limits_value limits.now)
        (plan_value plan.now) (fault_value f)) }
    ensures exact { IsFaultless (soc_value soc.now) (limits_value limits.now)
        (plan_value plan.now) → IsOk result }
    ensures right { OnOk result ((content : Content) →
        IsRight (soc_value soc.now) (limits_value limits.now) (plan_value plan.now) content) }
    ensures bound { OnOk result
        (IsBound (soc_value soc.now) (limits_value limits.now) (plan_value plan.now).bound.cycles) }
    ensures room { HasRoom (soc_value soc.now) room.new }
    ensures serves { (chip : SocValue) → HasRoom chip room.old → HasRoom chip room.new }
{
    good_plans_run_right();
    check_listed(soc, limits, plan, &mut room.rooms)
}
