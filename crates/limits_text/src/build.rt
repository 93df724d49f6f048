//! The limits that the items of a text say.
ghost use Rattle.std.specs.Prelude.{◌≡◌, map, reverse, OnOk, IfOk};
ghost use Rattle.plan_model.specs.Views.{limits_value};
ghost use Rattle.limits_text.specs.Meaning.{says, no_limits as no_limits_said, limits_of as limits_said};
ghost use Rattle.limits_text.specs.Views.{item_of};

use crate::BUDGET;
use crate::items::{Amount, Item};
use outside::{NoMemory, push};
use plan_model::{Limits, Profile};
use std::alloc::Global;

/// Limits before any item, with room for `precedences` precedences.
fn no_limits(alloc: Global, precedences: usize) -> Result<Limits, NoMemory>
    ensures { IfOk result (λ limits. limits_value limits ≡ no_limits_said) }
{
    let before = Vec::with_capacity(alloc, precedences)?;
    Ok(Limits {
        wires: 0,
        power: None,
        before,
        budget: BUDGET,
        profiles: Vec::new(alloc),
    })
}

/// Changes the limits as an item says.
fn apply_item(limits: &mut Limits, item: Item) -> Result<(), NoMemory>
    ensures { OnOk result
        (limits_value limits.new ≡ says (item_of item) (limits_value limits.old)) }
{
    match item {
        Item::Number { amount, value } => match amount {
            Amount::Wires => limits.wires = value,
            Amount::Power => limits.power = Some(value),
            Amount::Budget => limits.budget = value,
        },
        Item::Precedence { first, second, .. } => {
            push(&mut limits.before, (first, second))?;
        }
        Item::Steps { test, steps, .. } => {
            push(&mut limits.profiles, Profile { test, steps })?;
        }
    }
    Ok(())
}

/// The limits of all items, in the order of the text.
pub fn limits_of(alloc: Global, list: Vec<Item>) -> Result<Limits, NoMemory>
    ensures { IfOk result
        (λ limits. limits_value limits ≡ limits_said (reverse (map item_of list.items))) }
{
    let mut limits = no_limits(alloc, list.len())?;
    for item in list {
        apply_item(&mut limits, item)?;
    }
    Ok(limits)
}
