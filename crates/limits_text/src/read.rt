//! Reads the limits of a text for a chip.
ghost use Rattle.std.specs.Prelude.{◌≡◌, Ok, Err, IfOk, IfErr, map, reverse};
ghost use Rattle.std.specs.List.{flat_map};
ghost use Rattle.soc_model.specs.Chips.{soc_value};
ghost use Rattle.plan_model.specs.Rules.{live_ids};
ghost use Rattle.plan_model.specs.SoundLimits.{IsAcyclic};
ghost use Rattle.plan_model.specs.Views.{limits_value};
ghost use Rattle.live_tests.specs.Names.{precedences as precedences_of};
ghost use Rattle.live_tests.specs.Resolved.{IsResolved};
ghost use Rattle.limits_text.specs.Answers.{LimitsRead};
ghost use Rattle.limits_text.specs.Bounds.{AnswersLimits};
ghost use Rattle.limits_text.specs.Meaning.{limits_of as limits_said};
ghost use Rattle.limits_text.specs.Places.{pair_of};
ghost use Rattle.limits_text.specs.Views.{item_of};

use crate::LimFault;
use crate::build::limits_of;
use crate::items::{Item, Items};
use crate::loops::loop_of;
use crate::named::{NamedTests, named_tests};
use crate::refusals::test_power;
use crate::whole::read_items;
use live_tests::{Resolved, profile_places};
use plan_model::Limits;
use soc_model::Soc;
use std::alloc::Global;

/// Limits for a chip, and what both say by place.
#[derive(Drop)]
pub struct Bounds {
    pub limits: Limits,
    pub resolved: Resolved,
}

/// The items by themselves. The set of tests beside them is dropped here, once, and not at each exit of the caller.
fn list_of(items: Items) -> Vec<Item>
    ensures { result.items ≡ items.list.items }
{
    items.list
}

/// Limits without a loop, resolved. `TestPower` where a power passes the limit.
fn within_power(
    alloc: Global,
    soc: &Soc,
    limits: Limits,
    named: NamedTests,
) -> Result<Bounds, LimFault>
    requires tests { named.tests ≡ live_ids (soc_value soc.now) }
    requires precedences { named.precedences.items
        ≡ precedences_of (soc_value soc.now) (limits_value limits) }
    requires acyclic { IsAcyclic (soc_value soc.now) (limits_value limits) }
    ensures { AnswersLimits (soc_value soc.now) (limits_value limits) result }
{
    let NamedTests { tests, precedences } = named;
    let profiles = profile_places(alloc, &limits.profiles)?;
    if let Some((test, power)) = test_power(soc, &limits, &profiles) {
        return Err(LimFault::TestPower { test, power });
    }
    let resolved = Resolved::with_places(alloc, soc, &limits, tests, precedences, profiles)?;
    Ok(Bounds { limits, resolved })
}

/// The limits that items say, resolved. `Cycle` or `TestPower` where the chip refuses them.
fn bounds_of(
    alloc: Global,
    soc: &Soc,
    list: Vec<Item>,
    named: NamedTests,
) -> Result<Bounds, LimFault>
    requires tests { named.tests ≡ live_ids (soc_value soc.now) }
    requires precedences { named.precedences.items
        ≡ flat_map (pair_of (soc_value soc.now)) (map item_of list.items) }
    ensures { AnswersLimits (soc_value soc.now) (limits_said (reverse (map item_of list.items)))
        result }
{
    let circle = loop_of(alloc, &named.tests, &named.precedences)?;
    let limits = limits_of(alloc, list)?;
    match circle {
        Some(tests) => Err(LimFault::Cycle { tests }),
        None => within_power(alloc, soc, limits, named),
    }
}

/// The limits that a text says for a chip, as [`read_limits`] answers them, resolved with the chip.
pub fn read_bounds(alloc: Global, bytes: &[u8], soc: &Soc) -> Result<Bounds, LimFault>
    ensures read { IfOk result
        (λ bounds. LimitsRead bytes.now (soc_value soc.now) (Ok bounds.limits)) }
    ensures refused { IfErr result (λ fault. LimitsRead bytes.now (soc_value soc.now) (Err fault)) }
    ensures resolved { IfOk result
        (λ bounds. IsResolved (soc_value soc.now) bounds.limits bounds.resolved) }
{
    let items = read_items(alloc, bytes)?;
    let list = list_of(items);
    match named_tests(alloc, soc, &list) {
        Ok(named) => bounds_of(alloc, soc, list, named),
        Err(fault) => Err(fault),
    }
}

/// Limits by themselves. What was resolved is dropped here, once.
fn limits_alone(bounds: Bounds) -> Limits
    ensures { result ≡ bounds.limits }
{
    bounds.limits
}

/// The limits that a text says for a chip; they are sound for it. The refusals are tried in the order of [`LimFault`].
///
/// What is answered is what the text is for the chip. It is exactly one such thing (`texts_have_one_answer`,
/// `each_text_has_an_answer`), so each answer comes exactly where the text is that, unless memory runs out
/// (`texts_are_answered`). A text of 10^12 bytes or more is `NoMemory`.
pub fn read_limits(alloc: Global, bytes: &[u8], soc: &Soc) -> Result<Limits, LimFault>
    ensures { LimitsRead bytes.now (soc_value soc.now) result }
{
    match read_bounds(alloc, bytes, soc) {
        Ok(bounds) => Ok(limits_alone(bounds)),
        Err(fault) => Err(fault),
    }
}
