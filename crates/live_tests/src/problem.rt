//! A chip under its limits, resolved: what plans, checks and bounds are asked of. That both are sound goes with it, so that a call
//! which takes a problem asks nothing of it.
ghost use Rattle.std.specs.Prelude.{◌≡◌};
ghost use Rattle.soc_model.specs.Chips.{soc_value};
ghost use Rattle.soc_model.specs.SoundChips.{IsSoundChip};
ghost use Rattle.plan_model.specs.SoundLimits.{IsSoundLimits};
ghost use Rattle.plan_model.specs.Views.{limits_value};
ghost use Rattle.live_tests.specs.Resolved.{IsResolved};

use crate::Resolved;
use plan_model::Limits;
use soc_model::Soc;
use std::marker::Model;

/// A sound chip under sound limits, resolved by place. Clauses see what both say.
#[derive(Drop)]
pub struct Problem<'a> {
    pub soc: &'a Soc,
    pub limits: &'a Limits,
    pub resolved: &'a Resolved,
}

impl<'a> Model for Problem<'a> {
    ghost use Rattle.soc_model.specs.Chips.{soc_value};
    ghost use Rattle.plan_model.specs.Views.{limits_value};
    ghost use Rattle.live_tests.specs.Problems.{IsProblem, ProblemValue};

    ghost Value = { ProblemValue };

    ghost view = { λ p. record { soc = soc_value p.soc.now; limits = limits_value p.limits.now } };

    ghost invariant = { λ p. IsProblem p.soc.now p.limits.now p.resolved.now };
}

impl<'a> Problem<'a> {
    /// The problem of a chip and its limits, where they are resolved already.
    pub fn new(soc: &'a Soc, limits: &'a Limits, resolved: &'a Resolved) -> Problem<'a>
        requires sound { IsSoundChip (soc_value soc.now) }
        requires limits { IsSoundLimits (soc_value soc.now) (limits_value limits.now) }
        requires resolved { IsResolved (soc_value soc.now) limits.now resolved.now }
        ensures chip { result.soc ≡ soc_value soc.now }
        ensures limits { result.limits ≡ limits_value limits.now }
    {
        Problem {
            soc,
            limits,
            resolved,
        }
    }
}
