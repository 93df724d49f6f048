//! Every module that a plan names is in the chip, and every wrapper is proper.

ghost use Rattle.std.specs.Prelude.{◌≡◌, map, [], IsTrue, IfSome, IfNone, false};
ghost use Rattle.std.specs.List.{flat_map, Contains};
ghost use Rattle.plan_model.specs.declared.Bus.{Bus};
ghost use Rattle.plan_model.specs.declared.Wrapper.{Wrapper};
ghost use Rattle.plan_model.specs.Plans.{PlanValue, LimitsValue};
ghost use Rattle.soc_model.specs.Chips.{soc_value};
ghost use Rattle.plan_model.specs.Views.{plan_value, wrapper_value};
ghost use Rattle.plan_model.specs.Rules.{Known, Proper, HasProperCells};
ghost use Rattle.soc_model.specs.SoundChips.{IsSoundChip};
ghost use Rattle.plan_checker.specs.Stages.{IsStage};
ghost use Rattle.plan_checker.specs.Broken.{EachOf, Breaks};

use crate::PlanFault;
use crate::lookups::{find_module, is_known};
use plan_model::{Bus, Plan, Wrapper, is_proper};
use soc_model::{Soc, module_at};

/// The first number of no module.
fn unknown_in(soc: &Soc, listed: &[u64]) -> Option<u64>
    requires { IsSoundChip (soc_value soc.now) }
    ensures all { IfNone result (EachOf (Contains (soc_value soc.now).keys) listed.now) }
    ensures first { IfSome result (λ m. Breaks (Contains (soc_value soc.now).keys) listed.now m) }
{
    for number in listed {
        if !is_known(soc, *number) {
            return Some(*number);
        }
    }
    None
}

/// The first module of a bus that isn't in the chip.
fn unknown_on(soc: &Soc, buses: &[Bus]) -> Option<u64>
    requires { IsSoundChip (soc_value soc.now) }
    ensures all { IfNone result (EachOf (Contains (soc_value soc.now).keys)
        (flat_map (λ (b : Bus). b.modules.items) buses.now)) }
    ensures first { IfSome result (λ m. Breaks (Contains (soc_value soc.now).keys)
        (flat_map (λ (b : Bus). b.modules.items) buses.now) m) }
{
    for bus in buses {
        let unknown = unknown_in(soc, &bus.modules);
        if unknown.is_some() {
            return unknown;
        }
    }
    None
}

/// The first module of a wrapper that isn't in the chip.
fn unknown_of(soc: &Soc, wrappers: &[Wrapper]) -> Option<u64>
    requires { IsSoundChip (soc_value soc.now) }
    ensures all { IfNone result (EachOf (Contains (soc_value soc.now).keys)
        (map (λ (w : Wrapper). w.«module») wrappers.now)) }
    ensures first { IfSome result (λ m. Breaks (Contains (soc_value soc.now).keys)
        (map (λ (w : Wrapper). w.«module») wrappers.now) m) }
{
    for wrapper in wrappers {
        if !is_known(soc, wrapper.module) {
            return Some(wrapper.module);
        }
    }
    None
}

/// Whether the wrapper is proper for its module, if that is in the chip.
fn cells_fit(soc: &Soc, wrapper: &Wrapper) -> bool
    requires { IsSoundChip (soc_value soc.now) }
    ensures kept { IsTrue result →
        HasProperCells (soc_value soc.now) [] (wrapper_value wrapper.now) }
    ensures broken { result ≡ false →
        HasProperCells (soc_value soc.now) [] (wrapper_value wrapper.now) → ⊥ }
{
    match find_module(soc, wrapper.module) {
        Some(place) => is_proper(module_at(soc, place), wrapper),
        None => true,
    }
}

/// The wrappers against the cells of their modules.
fn check_wrapped(soc: &Soc, wrappers: &[Wrapper]) -> Option<PlanFault>
    requires { IsSoundChip (soc_value soc.now) }
    ensures { (limits : LimitsValue) (plan : PlanValue) →
        map wrapper_value wrappers.now ≡ plan.wrappers →
        IsStage (soc_value soc.now) limits plan Proper result }
{
    for wrapper in wrappers {
        if !cells_fit(soc, wrapper) {
            return Some(PlanFault::Cells {
                module: wrapper.module,
                scan: wrapper.scan,
            });
        }
    }
    None
}

/// The modules that the plan names against those of the chip.
pub(crate) fn check_known(soc: &Soc, plan: &Plan) -> Option<PlanFault>
    requires { IsSoundChip (soc_value soc.now) }
    ensures { (limits : LimitsValue) →
        IsStage (soc_value soc.now) limits (plan_value plan.now) Known result }
{
    match unknown_on(soc, &plan.buses) {
        Some(module) => Some(PlanFault::UnknownModule { module }),
        None => match unknown_of(soc, &plan.wrappers) {
            Some(module) => Some(PlanFault::UnknownModule { module }),
            None => None,
        },
    }
}

/// The wrappers of the plan against the cells of their modules.
pub(crate) fn check_cells(soc: &Soc, plan: &Plan) -> Option<PlanFault>
    requires { IsSoundChip (soc_value soc.now) }
    ensures { (limits : LimitsValue) →
        IsStage (soc_value soc.now) limits (plan_value plan.now) Proper result }
{
    check_wrapped(soc, &plan.wrappers)
}
