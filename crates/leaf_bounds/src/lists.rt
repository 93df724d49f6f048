//! Lists of tests: their rules, and how much of each there is.
ghost use Rattle.std.specs.Prelude.{◌≡◌, ◌≤◌, true, false};
ghost use Rattle.plan_model.specs.Views.{limits_value};
ghost use Rattle.leaf_bounds.specs.Lists.{IsNear, counted, room_of};
ghost use Rattle.plan_model.specs.Proofs.{list_value};

use plan_model::{Limits, TestList};

/// Whether there is a limit of power of at least 1, and a number is at most half of it.
pub(crate) fn is_near(limits: &Limits, near: u64) -> bool
    ensures yes { result ≡ true → IsNear (limits_value limits.now) near }
    ensures no { result ≡ false → IsNear (limits_value limits.now) near → ⊥ }
{
    let Some(limit) = limits.power else {
        return false;
    };
    if limit == 0 {
        return false;
    }
    near <= limit / 2
}

/// A power as it counts where one that is `near` to all of it counts for all, and one below that for nothing.
pub(crate) fn counted(limit: u64, near: u64, power: u64) -> u64
    requires { near ≤ limit }
    ensures { result ≡ counted limit near power }
{
    if limit - near < power {
        return limit;
    }
    if power < near {
        return 0;
    }
    power
}

/// How much of a list there is at each cycle.
pub(crate) fn room_of(list: &TestList) -> u64
    ensures { result ≡ room_of (list_value list.now) }
{
    match list {
        TestList::Turns { tests: _ } => 1,
        TestList::TurnsOn { rank: _, tests: _ } => 1,
        TestList::Crowd { most, tests: _ } => *most,
        TestList::Power { near: _ } => 1,
    }
}
