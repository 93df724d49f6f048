//! The lines of the tests that end last: each was held by the one of the next line.
ghost use Rattle.std.specs.Prelude.{◌≡◌, ◌<◌, ◌++◌, length, IfOk, IfSome, OnOk};
ghost use Rattle.soc_model.specs.Chips.{soc_value};
ghost use Rattle.plan_model.specs.Plans.{step_power};
ghost use Rattle.plan_model.specs.Views.{limits_value};
ghost use Rattle.report.specs.Chains.{chain_text, held_text, hold_text, last_line, last_test as the_last_test, name_text, test_of as the_test_of, times_text};
ghost use Rattle.report.specs.Holders.{held as the_held};
ghost use Rattle.report.specs.PlacedTests.{StandIn};

use crate::entries::push_entry;
use crate::holders::{Hold, held};
use live_tests::PlacedTest;
use outside::{NoMemory, extend, push_dotted};
use plan_model::Limits;
use soc_model::{Soc, TestId};

/// The word of a reason.
fn word(kind: Hold) -> &'static [u8]
    ensures { result.now ≡ hold_text kind }
{
    match kind {
        Hold::Bus => b"bus",
        Hold::Module => b"module",
        Hold::Parent => b"parent",
        Hold::Before => b"before",
        Hold::Power => b"power",
    }
}

/// Appends the numbers of a test.
fn push_name(text: &mut Vec<u8>, id: TestId) -> Result<(), NoMemory>
    ensures { OnOk result (text.new.items ≡ text.old.items ++ name_text id) }
{
    push_dotted(text, id.module, id.test)
}

/// Appends the test that held another one, with the reason; `-` where there was none.
fn push_held(text: &mut Vec<u8>, held: Option<(PlacedTest, Hold)>) -> Result<(), NoMemory>
    ensures { OnOk result (text.new.items ≡ text.old.items ++ held_text held) }
{
    match held {
        Some((other, kind)) => {
            push_name(text, other.id)?;
            extend(text, b" ")?;
            extend(text, word(kind))
        }
        None => extend(text, b"-"),
    }
}

/// Appends the cycles of a test's start and end.
fn push_times(text: &mut Vec<u8>, start: u64, end: u64) -> Result<(), NoMemory>
    ensures { OnOk result (text.new.items ≡ text.old.items ++ times_text start end) }
{
    push_entry(text, b" start ", start)?;
    push_entry(text, b" end ", end)
}

/// Appends the line of a test that was held so.
fn push_last(
    text: &mut Vec<u8>,
    test: &PlacedTest,
    held: Option<(PlacedTest, Hold)>,
) -> Result<(), NoMemory>
    ensures { OnOk result (text.new.items ≡ text.old.items ++ last_line test.now held) }
{
    extend(text, b"last ")?;
    push_name(text, test.id)?;
    push_times(text, test.start, test.end)?;
    extend(text, b" held ")?;
    push_held(text, held)?;
    extend(text, b"\n")
}

/// The test that held another one.
fn test_of(held: Option<(PlacedTest, Hold)>) -> Option<PlacedTest>
    ensures { result ≡ the_test_of held }
{
    match held {
        Some((other, _)) => Some(other),
        None => None,
    }
}

/// The first test that ends last.
fn last_test(tests: &[PlacedTest], cycles: u64) -> Option<PlacedTest>
    ensures { result ≡ the_last_test tests.now cycles }
{
    for test in tests {
        if test.end == cycles {
            return Some(*test);
        }
    }
    None
}

/// Appends the line of a test, and answers the one that held it.
fn push_link(
    text: &mut Vec<u8>,
    soc: &Soc,
    limits: &Limits,
    tests: &[PlacedTest],
    steps: &[(u64, u64)],
    test: &PlacedTest,
) -> Result<Option<PlacedTest>, NoMemory>
    requires place { test.now.place < length (soc_value soc.now).modules }
    requires places { StandIn (soc_value soc.now).modules tests.now }
    ensures line { OnOk result (text.new.items
        ≡ text.old.items
        ++ last_line test.now (the_held (soc_value soc.now) (limits_value limits.now)
        (λ c. step_power c 0 steps.now) tests.now test.now)) }
    ensures next { IfOk result (λ next. next
        ≡ the_test_of (the_held (soc_value soc.now) (limits_value limits.now)
        (λ c. step_power c 0 steps.now) tests.now test.now)) }
    ensures there { IfOk result
        (λ next. IfSome next (λ t. t.place < length (soc_value soc.now).modules)) }
{
    let held = held(soc, limits, tests, steps, test);
    push_last(text, test, held)?;
    Ok(test_of(held))
}

/// Appends the lines of the test that ends last and of those that held it back, one after another, in a plan of `cycles` cycles whose
/// tests draw the load with these steps.
pub fn push_chain(
    text: &mut Vec<u8>,
    soc: &Soc,
    limits: &Limits,
    tests: &[PlacedTest],
    steps: &[(u64, u64)],
    cycles: u64,
) -> Result<(), NoMemory>
    requires { StandIn (soc_value soc.now).modules tests.now }
    ensures { OnOk result (text.new.items
        ≡ text.old.items
        ++ chain_text (soc_value soc.now) (limits_value limits.now)
        (λ c. step_power c 0 steps.now) tests.now cycles) }
{
    let mut next = last_test(tests, cycles);
    for _ in 0..cycles {
        match next {
            Some(test) => {
                next = push_link(text, soc, limits, tests, steps, &test)?;
            }
            None => return Ok(()),
        }
    }
    Ok(())
}
