//! Reads a text word by word.
ghost use Rattle.std.specs.Prelude.{◌≡◌, ◌∷◌, IfOk};
ghost use Rattle.soc_model.specs.declared.TestId.{TestId};
ghost use Rattle.limits_text.specs.Items.{number as number_in, is_title as says_title};
ghost use Rattle.limits_text.specs.Steps.{at, between, begin as begins, after_title as goes_after_title, after_version as goes_after_version, after_amount as goes_after_amount, named as goes_after_name, after_module as goes_after_module, after_test as goes_after_test, may_follow as may_come_next, end_profile as goes_on, after_step as goes_after_step, after_power as goes_after_power, step_at, ended_at, whole_of};
ghost use Rattle.limits_text.specs.Views.{item_of, done_of, part_of, InStep, Steps, Closes};

use crate::collect::{add_item, has_amount, has_profile};
use crate::items::{Amount, Item, Items, Key, Naming, Part};
use crate::lexicon::{is_in_range, is_title, key_of, number_of};
use outside::{Stop, Word};
use plan_model::STEPS_MOST;
use soc_model::{POWER_MOST, TestId};
use std::alloc::Global;
use std::mem::replace;

fn pushed(items: &mut Items, part: &mut Part, item: Item) -> Result<(), Stop>
    requires { InStep items.old }
    ensures { Steps (at items.old.second (item_of item ∷ done_of items.old) between) result part.new
        items.new }
{
    add_item(items, item)?;
    *part = Part::Between;
    Ok(())
}

/// The first word of an item.
fn begin_item(items: &Items, part: &mut Part, word: Word<'_>) -> Result<(), Stop>
    requires { InStep items.now }
    ensures { Steps
        (begins items.now.second (done_of items.now) (word.entry.bytes.now, word.entry.line)) result
        part.new items.now }
{
    let line = word.line;
    *part = match key_of(word.bytes) {
        Some(Key::One(amount)) => {
            if has_amount(items, amount) {
                return Err(Stop::Refused);
            }
            Part::Wants(amount)
        }
        Some(Key::Before) => Part::ModuleFor(Naming::First { line }),
        Some(Key::Profile) => {
            if !items.second {
                return Err(Stop::Refused);
            }
            Part::ModuleFor(Naming::Profiled { line })
        }
        None => return Err(Stop::Refused),
    };
    Ok(())
}

/// The word `Limits`.
fn step_title(items: &Items, part: &mut Part, word: &[u8]) -> Result<(), Stop>
    requires { InStep items.now }
    ensures { Steps (goes_after_title items.now.second (done_of items.now) (says_title word.now))
        result part.new items.now }
{
    if !is_title(word) {
        return Err(Stop::Refused);
    }
    *part = Part::Version;
    Ok(())
}

/// The number of the form.
fn step_version(items: &mut Items, part: &mut Part, word: &[u8]) -> Result<(), Stop>
    requires { InStep items.old }
    ensures { Steps (goes_after_version (done_of items.old) (number_in word.now)) result part.new
        items.new }
{
    match number_of(word) {
        Some(form) if 1 <= form && form <= 2 => {
            items.second = form == 2;
            *part = Part::Between;
            Ok(())
        }
        _ => Err(Stop::Refused),
    }
}

/// The number of an amount.
fn step_amount(items: &mut Items, part: &mut Part, amount: Amount, word: &[u8]) -> Result<(), Stop>
    requires { InStep items.old }
    ensures { Steps
        (goes_after_amount items.old.second (done_of items.old) amount (number_in word.now)) result
        part.new items.new }
{
    let Some(value) = number_of(word) else {
        return Err(Stop::Refused);
    };
    if !is_in_range(amount, value) {
        return Err(Stop::Refused);
    }
    pushed(items, part, Item::Number { amount, value })
}

/// After both numbers of a test.
fn name_test(
    alloc: Global,
    items: &mut Items,
    part: &mut Part,
    naming: Naming,
    test: TestId,
) -> Result<(), Stop>
    requires { InStep items.old }
    ensures { Steps (goes_after_name items.old.second (done_of items.old) naming test) result
        part.new items.new }
{
    match naming {
        Naming::First { line } => {
            *part = Part::ModuleFor(Naming::Second { line, first: test });
            Ok(())
        }
        Naming::Second { line, first } => pushed(
            items,
            part,
            Item::Precedence {
                line,
                first,
                second: test,
            },
        ),
        Naming::Profiled { line } => {
            if has_profile(items, test) {
                return Err(Stop::Refused);
            }
            *part = Part::StepsFor {
                line,
                test,
                steps: Vec::new(alloc),
            };
            Ok(())
        }
    }
}

/// The module of a test.
fn step_module(items: &Items, part: &mut Part, naming: Naming, word: &[u8]) -> Result<(), Stop>
    requires { InStep items.now }
    ensures { Steps
        (goes_after_module items.now.second (done_of items.now) naming (number_in word.now)) result
        part.new items.now }
{
    let Some(number) = number_of(word) else {
        return Err(Stop::Refused);
    };
    *part = Part::TestFor { naming, number };
    Ok(())
}

/// The number of a test in its module.
fn step_test(
    alloc: Global,
    items: &mut Items,
    part: &mut Part,
    naming: Naming,
    module: u64,
    word: &[u8],
) -> Result<(), Stop>
    requires { InStep items.old }
    ensures { Steps
        (goes_after_test items.old.second (done_of items.old) naming «module» (number_in word.now))
        result part.new items.new }
{
    match number_of(word) {
        Some(test) => name_test(alloc, items, part, naming, TestId { module, test }),
        None => Err(Stop::Refused),
    }
}

/// Whether a step from here may follow the steps.
fn may_follow(steps: &[(u64, u64)], from: u64) -> bool
    ensures { result ≡ may_come_next steps.now from }
{
    match steps.last() {
        None => from == 0,
        Some((last, _)) => *last < from && steps.len() < STEPS_MOST,
    }
}

/// After a word that is no number: the profile ends before it, and an item begins.
fn end_profile(
    items: &mut Items,
    part: &mut Part,
    line: u64,
    test: TestId,
    steps: Vec<(u64, u64)>,
    word: Word<'_>,
) -> Result<(), Stop>
    requires { InStep items.old }
    ensures { Steps
        (goes_on items.old.second (done_of items.old) line test steps.items
        (word.entry.bytes.now, word.entry.line)) result part.new items.new }
{
    if steps.is_empty() {
        return Err(Stop::Refused);
    }
    add_item(items, Item::Steps { line, test, steps })?;
    begin_item(items, part, word)
}

/// The first number of a step, or the first word after the profile.
fn step_steps(
    items: &mut Items,
    part: &mut Part,
    line: u64,
    test: TestId,
    steps: Vec<(u64, u64)>,
    word: Word<'_>,
) -> Result<(), Stop>
    requires { InStep items.old }
    ensures { Steps
        (goes_after_step items.old.second (done_of items.old) line test steps.items
        (word.entry.bytes.now, word.entry.line) (number_in word.entry.bytes.now)) result
        part.new items.new }
{
    let Some(from) = number_of(word.bytes) else {
        return end_profile(items, part, line, test, steps, word);
    };
    if !may_follow(steps.as_slice(), from) {
        return Err(Stop::Refused);
    }
    *part = Part::PowerFor {
        line,
        test,
        steps,
        from,
    };
    Ok(())
}

/// The second number of a step.
fn step_power(
    items: &Items,
    part: &mut Part,
    line: u64,
    test: TestId,
    mut steps: Vec<(u64, u64)>,
    from: u64,
    word: &[u8],
) -> Result<(), Stop>
    requires { InStep items.now }
    ensures { Steps
        (goes_after_power items.now.second (done_of items.now) line test steps.items from
        (number_in word.now)) result part.new items.now }
{
    let Some(power) = number_of(word) else {
        return Err(Stop::Refused);
    };
    if power > POWER_MOST {
        return Err(Stop::Refused);
    }
    steps.push((from, power))?;
    *part = Part::StepsFor { line, test, steps };
    Ok(())
}

/// The next word.
pub fn step_word(
    alloc: Global,
    items: &mut Items,
    part: &mut Part,
    word: Word<'_>,
) -> Result<(), Stop>
    requires { InStep items.old }
    ensures { Steps
        (step_at items.old.second (done_of items.old) (part_of part.old)
        (word.entry.bytes.now, word.entry.line)) result part.new items.new }
{
    match part {
        Part::Title => step_title(items, part, word.bytes),
        Part::Version => step_version(items, part, word.bytes),
        Part::Between => begin_item(items, part, word),
        Part::Wants(amount) => {
            let amount = *amount;
            step_amount(items, part, amount, word.bytes)
        }
        Part::ModuleFor(naming) => {
            let naming = *naming;
            step_module(items, part, naming, word.bytes)
        }
        Part::TestFor { naming, number } => {
            let (naming, number) = (*naming, *number);
            step_test(alloc, items, part, naming, number, word.bytes)
        }
        Part::StepsFor { line, test, steps } => {
            let (line, test) = (*line, *test);
            let steps = replace(steps, Vec::new(alloc));
            step_steps(items, part, line, test, steps, word)
        }
        Part::PowerFor {
            line,
            test,
            steps,
            from,
        } => {
            let (line, test, from) = (*line, *test, *from);
            let steps = replace(steps, Vec::new(alloc));
            step_power(items, part, line, test, steps, from, word.bytes)
        }
    }
}

/// Ends the last item, where it may end.
fn end_item(mut items: Items, part: Part) -> Result<Items, Stop>
    requires { InStep items }
    ensures items { Closes (ended_at (done_of items) (part_of part)) result }
    ensures form { IfOk result (λ whole. whole.second ≡ items.second) }
{
    match part {
        Part::Between => Ok(items),
        Part::StepsFor { line, test, steps } => {
            if steps.is_empty() {
                return Err(Stop::Refused);
            }
            add_item(&mut items, Item::Steps { line, test, steps })?;
            Ok(items)
        }
        _ => Err(Stop::Refused),
    }
}

/// The text ends here.
pub fn end_text(items: Items, part: Part) -> Result<Items, Stop>
    requires { InStep items }
    ensures items { Closes (whole_of (ended_at (done_of items) (part_of part))) result }
    ensures form { IfOk result (λ whole. whole.second ≡ items.second) }
{
    let items = end_item(items, part)?;
    if !has_amount(&items, Amount::Wires) {
        return Err(Stop::Refused);
    }
    Ok(items)
}
