//! Each bus has a wire, and all buses together have no more wires than the limits.

ghost use Rattle.std.specs.Prelude.{◌≡◌, map};
ghost use Rattle.soc_model.specs.Chips.{SocValue};
ghost use Rattle.plan_model.specs.Plans.{PlanValue, LimitsValue};
ghost use Rattle.plan_model.specs.Views.{bus_value};
ghost use Rattle.plan_model.specs.Rules.{Widths};
ghost use Rattle.plan_checker.specs.Stages.{IsStage};

use crate::PlanFault;
use plan_model::Bus;

/// The widths of the buses against the wires of the limits.
pub(crate) fn check_widths(wires: u64, buses: &[Bus]) -> Option<PlanFault>
    ensures { (soc : SocValue) (limits : LimitsValue) (plan : PlanValue) →
        map bus_value buses.now ≡ plan.buses → wires ≡ limits.wires →
        IsStage soc limits plan Widths result }
{
    let mut left = wires;
    for (place, bus) in buses.iter().enumerate() {
        if bus.width == 0 || bus.width > left {
            return Some(PlanFault::Width { bus: place });
        }
        left -= bus.width;
    }
    None
}
