//! The kinds of change of buses, with how often each is drawn.
ghost use Rattle.std.specs.Prelude.{◌≤◌};
ghost use Rattle.arch_schedule.specs.Kinds.{HasEachKind};

use crate::draws::Draws;

/// What is changed. Two modules are drawn for it, a first one and a second one.
#[derive(Clone, Copy)]
pub enum ChangeKind {
    /// The first module goes to the bus of the second.
    Move,
    /// The first module's bus goes to the second one's, with its wires.
    Merge,
    /// The first module's bus is split.
    Split,
    /// The first module and some others are dealt again.
    DealModules,
    /// The modules of both buses are dealt again, and their wires.
    DealBuses,
}

/// A kind with its weight.
#[derive(Clone, Copy)]
pub struct Weighted {
    /// The kind.
    pub kind: ChangeKind,
    /// In as many draws as all weights together, the kind comes this many times on average.
    pub weight: usize,
}

/// The table of the kinds. Each kind stands in it.
fn table() -> [Weighted; 5]
    ensures { HasEachKind result }
{
    [
        Weighted {
            kind: ChangeKind::Move,
            weight: 1,
        },
        Weighted {
            kind: ChangeKind::Merge,
            weight: 1,
        },
        Weighted {
            kind: ChangeKind::Split,
            weight: 1,
        },
        Weighted {
            kind: ChangeKind::DealModules,
            weight: 1,
        },
        Weighted {
            kind: ChangeKind::DealBuses,
            weight: 1,
        },
    ]
}

/// All weights together, one at least.
fn all_weights(kinds: &[Weighted]) -> usize
    ensures { 1 ≤ result }
{
    let mut sum: usize = 0;
    for one in kinds {
        sum = sum.saturating_add(one.weight);
    }
    sum.max(1)
}

/// A kind that is drawn, each by its weight.
pub(crate) fn drawn_kind(draws: &mut Draws) -> ChangeKind {
    let kinds = table();
    let mut left = draws.below(all_weights(&kinds));
    for one in kinds {
        if left < one.weight {
            return one.kind;
        }
        left -= one.weight;
    }
    ChangeKind::Move
}
