//! Adds items to those that were read.
ghost use Rattle.std.specs.Prelude.{◌≡◌, ◌∷◌, ◌||◌, [], false, IfOk, OnOk, OnErr, map};
ghost use Rattle.std.specs.List.{list_any};
ghost use Rattle.soc_model.specs.Chips.{same_test};
ghost use Rattle.limits_text.specs.Items.{gives_amount as gives, has_amount as has_that_amount, has_profile as has_that_profile, gives_profile, same_amount as is_same_amount};
ghost use Rattle.limits_text.specs.Views.{item_of, done_of, InStep};

use crate::items::{Amount, Item, Items};
use indexmap::IndexSet;
use outside::{NoMemory, Stop};
use soc_model::TestId;
use std::alloc::Global;

/// What most texts have at least for each item, in bytes: `Before` with four numbers.
const ITEM_BYTES: usize = 16;

/// No items, with room for those of a text of `bytes` bytes.
pub fn no_items(alloc: Global, bytes: usize) -> Result<Items, NoMemory>
    ensures none { IfOk result (λ items. done_of items ≡ []) }
    ensures first_form { IfOk result (λ items. items.second ≡ false) }
    ensures in_step { IfOk result InStep }
{
    let list = Vec::with_capacity(alloc, bytes / ITEM_BYTES)?;
    Ok(Items {
        second: false,
        list,
        profiled: IndexSet::new(alloc),
    })
}

fn same_amount(a: Amount, b: Amount) -> bool
    ensures { result ≡ is_same_amount a b }
{
    matches!(
        (a, b),
        (Amount::Wires, Amount::Wires)
            | (Amount::Power, Amount::Power)
            | (Amount::Budget, Amount::Budget)
    )
}

fn gives_amount(amount: Amount, item: &Item) -> bool
    ensures { result ≡ gives amount (item_of item.now) }
{
    match item {
        Item::Number { amount: other, .. } => same_amount(amount, *other),
        Item::Precedence { .. } | Item::Steps { .. } => false,
    }
}

fn some_gives(list: &[Item], amount: Amount) -> bool
    ensures { result ≡ list_any (gives amount) (map item_of list.now) }
{
    for item in list {
        if gives_amount(amount, item) {
            return true;
        }
    }
    false
}

/// Whether the items name this amount.
pub fn has_amount(items: &Items, amount: Amount) -> bool
    ensures { result ≡ has_that_amount amount (done_of items.now) }
{
    some_gives(items.list.as_slice(), amount)
}

fn is_in(tests: &IndexSet<TestId>, test: TestId) -> bool
    ensures { result ≡ list_any (same_test test) tests.now.keys }
{
    tests.contains(&test)
}

/// Whether the items have a profile of this test.
pub fn has_profile(items: &Items, test: TestId) -> bool
    requires { InStep items.now }
    ensures { result ≡ has_that_profile test (done_of items.now) }
{
    is_in(&items.profiled, test)
}

fn mark_test(tests: &mut IndexSet<TestId>, test: TestId) -> Result<(), Stop>
    ensures ok { OnOk result ((id : TestId) → list_any (same_test id) tests.new.keys
        ≡ (same_test id test || list_any (same_test id) tests.old.keys)) }
    ensures memory { OnErr result (result ≡ Err Stop.NoMemory) }
{
    tests.insert(test)?;
    Ok(())
}

/// Marks the test of an item that is a profile.
fn mark_item(tests: &mut IndexSet<TestId>, item: &Item) -> Result<(), Stop>
    ensures ok { OnOk result ((id : TestId) → list_any (same_test id) tests.new.keys
        ≡ (gives_profile id (item_of item.now) || list_any (same_test id) tests.old.keys)) }
    ensures memory { OnErr result (result ≡ Err Stop.NoMemory) }
{
    match item {
        Item::Steps { test, .. } => mark_test(tests, *test),
        Item::Number { .. } | Item::Precedence { .. } => Ok(()),
    }
}

/// Adds an item.
pub fn add_item(items: &mut Items, item: Item) -> Result<(), Stop>
    requires { InStep items.old }
    ensures in_step { OnOk result (InStep items.new) }
    ensures pushed { OnOk result (done_of items.new ≡ item_of item ∷ done_of items.old) }
    ensures form { items.new.second ≡ items.old.second }
    ensures memory { OnErr result (result ≡ Err Stop.NoMemory) }
{
    mark_item(&mut items.profiled, &item)?;
    items.list.push(item)?;
    Ok(())
}
