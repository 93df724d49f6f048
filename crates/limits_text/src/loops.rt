//! The first loop of the precedences of live tests.
ghost use Rattle.std.specs.Prelude.{◌≡◌, ◌<◌, length, IfOk, MatchOption};
ghost use Rattle.std.specs.List.{All};
ghost use Rattle.soc_model.specs.Chips.{SocValue};
ghost use Rattle.plan_model.specs.Plans.{LimitsValue};
ghost use Rattle.plan_model.specs.Rules.{live_ids};
ghost use Rattle.plan_model.specs.SoundLimits.{IsAcyclic};
ghost use Rattle.limits_text.specs.Loops.{AreAt, IsLoopOf};
ghost use Rattle.live_tests.specs.Names.{precedences as precedences_of};

use crate::graph::first_loop;
use live_tests::LiveTests;
use outside::{NoMemory, push};
use soc_model::TestId;
use std::alloc::Global;

/// The tests at these places.
fn tests_at(alloc: Global, ids: &[TestId], places: &[usize]) -> Result<Vec<TestId>, NoMemory>
    requires { All (λ p. p < length ids.now) places.now }
    ensures { IfOk result (λ tests. AreAt ids.now places.now tests.items) }
{
    let mut tests = Vec::new(alloc);
    for place in places {
        push(&mut tests, ids[*place])?;
    }
    Ok(tests)
}

/// The first loop of the precedences of live tests, which are given by the places of these. None comes exactly where
/// they have no loop.
pub fn loop_of(
    alloc: Global,
    tests: &LiveTests,
    pairs: &[(usize, usize)],
) -> Result<Option<Vec<TestId>>, NoMemory>
    requires { (soc : SocValue) × (limits : LimitsValue) × (tests.now ≡ live_ids soc)
        × (pairs.now ≡ precedences_of soc limits) }
    ensures { (soc : SocValue) (limits : LimitsValue) → tests.now ≡ live_ids soc →
        pairs.now ≡ precedences_of soc limits →
        IfOk result (λ found. MatchOption found (IsAcyclic soc limits)
        (λ circle. IsLoopOf soc limits circle.items)) }
{
    // most limits have no precedence, and then no test is taken away
    if pairs.is_empty() {
        return Ok(None);
    }
    let names = tests.names();
    match first_loop(alloc, names.len(), pairs)? {
        Some(circle) => Ok(Some(tests_at(alloc, names, &circle)?)),
        None => Ok(None),
    }
}
