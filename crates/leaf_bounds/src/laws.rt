//! What wider slots cost. The law is the contract of a function that does nothing: a caller learns it by the call.
ghost use Rattle.leaf_bounds.specs.Laws.{WiderSlotsCostNoLess};

use proof_facts::packed_times_are_least;

/// Of a leaf's slots on one bus only the first width, and those on which the module takes less time, need be looked at:
/// where it takes one time on two widths, it costs no less on the wider.
pub fn wider_slots_cost_no_less()
    ensures { WiderSlotsCostNoLess }
{
    packed_times_are_least();
}
