//! The lines that programs over files have in common, and what other lines are made of.
ghost use Rattle.std.specs.Prelude.{◌≡◌, ◌++◌, ◌&&◌, OnOk, IfOk, decimal, codes, IsTrue};
ghost use Rattle.bound_certificate.specs.Checks.{certificate_fault};
ghost use Rattle.plan_checker.specs.FaultValues.{fault_value};
ghost use Rattle.commands.specs.Texts.{is_line, no_feed, unread_line as unread_text, too_long_line as too_long_text, chip_line as chip_line_text, chip_limit_line as chip_limit_text, limits_line as limits_line_text, unknown_test_line as unknown_test_text, tests_text, loop_line as loop_line_text, test_power_line as test_power_text, plan_line as plan_line_text, limit_name, test_text, wrapper_text, pair_text, clash_text, two_numbers, certificate_text, fault_keyword, carried_text, fault_line as fault_line_text, run_line as run_line_text};

use crate::FileKind;
use bound_certificate::BoundFault;
use outside::{NoMemory, extend, push_dotted, push_number};
use plan_checker::PlanFault;
use soc_model::{SocLimit, TestId, Which};
use std::alloc::Global;

/// `cannot read FILE`.
pub(crate) fn unread_line(file: FileKind) -> &'static [u8]
    ensures text { result.now ≡ unread_text file }
    ensures line { IsTrue (is_line result.now) }
{
    match file {
        FileKind::Soc => b"cannot read SOC\n",
        FileKind::Limits => b"cannot read LIMITS\n",
        FileKind::Plan => b"cannot read PLAN\n",
        FileKind::Tree => b"cannot read TREE\n",
        FileKind::Program => b"cannot read PROGRAM\n",
        FileKind::Log => b"cannot read LOG\n",
        FileKind::Proof => b"cannot read PROOF\n",
        FileKind::Data => b"cannot read DATA\n",
    }
}

/// `too long FILE`.
pub(crate) fn too_long_line(file: FileKind) -> &'static [u8]
    ensures text { result.now ≡ too_long_text file }
    ensures line { IsTrue (is_line result.now) }
{
    match file {
        FileKind::Soc => b"too long SOC\n",
        FileKind::Limits => b"too long LIMITS\n",
        FileKind::Plan => b"too long PLAN\n",
        FileKind::Tree => b"too long TREE\n",
        FileKind::Program => b"too long PROGRAM\n",
        FileKind::Log => b"too long LOG\n",
        FileKind::Proof => b"too long PROOF\n",
        FileKind::Data => b"too long DATA\n",
    }
}

/// The name of a limit on the size of a chip, with a space behind it.
pub fn limit_word(which: Which) -> &'static [u8]
    ensures text { result.now ≡ limit_name which }
    ensures plain { IsTrue (no_feed result.now) }
{
    match which {
        Which::Modules => b"modules ",
        Which::Tests => b"tests ",
        Which::Chains => b"chains ",
        Which::Power => b"power ",
        Which::Work => b"work ",
    }
}

/// Appends a text.
pub fn push_text(to: &mut Vec<u8>, text: &[u8]) -> Result<(), NoMemory>
    ensures text { OnOk result (to.new.items ≡ to.old.items ++ text.now) }
    ensures plain { OnOk result
        (no_feed to.new.items ≡ (no_feed to.old.items && no_feed text.now)) }
{
    extend(to, text)
}

/// Appends a number in decimal.
pub fn push_decimal(to: &mut Vec<u8>, n: u128) -> Result<(), NoMemory>
    ensures text { OnOk result (to.new.items ≡ to.old.items ++ decimal n) }
    ensures plain { OnOk result (IsTrue (no_feed to.old.items) → IsTrue (no_feed to.new.items)) }
{
    push_number(to, n)
}

/// Appends a test, as its module's number and its own with a dot between them.
pub fn push_test(to: &mut Vec<u8>, id: &TestId) -> Result<(), NoMemory>
    ensures text { OnOk result (to.new.items ≡ to.old.items ++ test_text id.now) }
    ensures plain { OnOk result (IsTrue (no_feed to.old.items) → IsTrue (no_feed to.new.items)) }
{
    push_dotted(to, id.module, id.test)
}

fn push_pair(to: &mut Vec<u8>, a: &TestId, b: &TestId) -> Result<(), NoMemory>
    ensures text { OnOk result (to.new.items ≡ to.old.items ++ pair_text a.now b.now) }
    ensures plain { OnOk result (IsTrue (no_feed to.old.items) → IsTrue (no_feed to.new.items)) }
{
    push_test(to, a)?;
    push_text(to, b" ")?;
    push_test(to, b)
}

fn push_clash(to: &mut Vec<u8>, a: &TestId, b: &TestId, cycle: u64) -> Result<(), NoMemory>
    ensures text { OnOk result (to.new.items ≡ to.old.items ++ clash_text a.now b.now cycle) }
    ensures plain { OnOk result (IsTrue (no_feed to.old.items) → IsTrue (no_feed to.new.items)) }
{
    push_pair(to, a, b)?;
    push_text(to, b" ")?;
    push_decimal(to, u128::from(cycle))
}

fn push_wrapper(to: &mut Vec<u8>, module: u64, scan: bool) -> Result<(), NoMemory>
    ensures text { OnOk result (to.new.items ≡ to.old.items ++ wrapper_text «module» scan) }
    ensures plain { OnOk result (IsTrue (no_feed to.old.items) → IsTrue (no_feed to.new.items)) }
{
    push_decimal(to, u128::from(module))?;
    if scan {
        push_text(to, b" scan")
    } else {
        push_text(to, b" terminals")
    }
}

/// Appends two numbers, with a space between them.
pub fn push_two(to: &mut Vec<u8>, a: u128, b: u128) -> Result<(), NoMemory>
    ensures text { OnOk result (to.new.items ≡ to.old.items ++ two_numbers a b) }
    ensures plain { OnOk result (IsTrue (no_feed to.old.items) → IsTrue (no_feed to.new.items)) }
{
    push_decimal(to, a)?;
    push_text(to, b" ")?;
    push_decimal(to, b)
}

fn push_certificate(to: &mut Vec<u8>, fault: &BoundFault) -> Result<(), NoMemory>
    ensures text { OnOk result
        (to.new.items ≡ to.old.items ++ certificate_text (certificate_fault fault.now)) }
    ensures plain { OnOk result (IsTrue (no_feed to.old.items) → IsTrue (no_feed to.new.items)) }
{
    match fault {
        BoundFault::BadList { place } => {
            push_text(to, b"list ")?;
            push_decimal(to, *place as u128)
        }
        BoundFault::Less { claimed, shown } => {
            push_text(to, b"less ")?;
            push_two(to, u128::from(*claimed), *shown)
        }
    }
}

/// The name of a fault's rule, with a space behind it.
fn keyword(fault: &PlanFault) -> &'static [u8]
    ensures text { result.now ≡ fault_keyword (fault_value fault.now) }
    ensures plain { IsTrue (no_feed result.now) }
{
    match fault {
        PlanFault::Width { .. } => b"F1 ",
        PlanFault::UnknownModule { .. } => b"F2 ",
        PlanFault::ModulePlace { .. } => b"F3 ",
        PlanFault::WrapperList { .. } => b"F4 ",
        PlanFault::Cells { .. } => b"F5 ",
        PlanFault::Tests { .. } => b"F6 ",
        PlanFault::Wire { .. } => b"F7 ",
        PlanFault::Busy { .. } => b"F8 ",
        PlanFault::Parent { .. } => b"F9 ",
        PlanFault::Before { .. } => b"F10 ",
        PlanFault::Power { .. } => b"F11 ",
        PlanFault::Cycles { .. } => b"F12 ",
        PlanFault::Bound(_) => b"F13 ",
    }
}

/// What a fault carries.
fn push_carried(to: &mut Vec<u8>, fault: &PlanFault) -> Result<(), NoMemory>
    ensures text { OnOk result
        (to.new.items ≡ to.old.items ++ carried_text (fault_value fault.now)) }
    ensures plain { OnOk result (IsTrue (no_feed to.old.items) → IsTrue (no_feed to.new.items)) }
{
    match fault {
        PlanFault::Width { bus } => push_decimal(to, *bus as u128),
        PlanFault::UnknownModule { module } | PlanFault::ModulePlace { module } => {
            push_decimal(to, u128::from(*module))
        }
        PlanFault::WrapperList { module, scan } | PlanFault::Cells { module, scan } => {
            push_wrapper(to, *module, *scan)
        }
        PlanFault::Tests { test } => push_test(to, test),
        PlanFault::Wire { a, b, cycle }
        | PlanFault::Busy { a, b, cycle }
        | PlanFault::Parent { a, b, cycle } => push_clash(to, a, b, *cycle),
        PlanFault::Before { a, b } => push_pair(to, a, b),
        PlanFault::Power { cycle, sum } => push_two(to, u128::from(*cycle), u128::from(*sum)),
        PlanFault::Cycles { right } => push_decimal(to, u128::from(*right)),
        PlanFault::Bound(fault) => push_certificate(to, fault),
    }
}

/// A line of words, which have no line feed, and a number.
pub fn number_line(alloc: Global, words: &[u8], number: u128) -> Result<Vec<u8>, NoMemory>
    requires { IsTrue (no_feed words.now) }
    ensures text { IfOk result (λ text. text.items ≡ words.now ++ decimal number ++ codes "\n") }
    ensures line { IfOk result (λ text. IsTrue (is_line text.items)) }
{
    let mut text = Vec::new(alloc);
    push_text(&mut text, words)?;
    push_decimal(&mut text, number)?;
    push_text(&mut text, b"\n")?;
    Ok(text)
}

/// A line of words, which have no line feed, a place, a claim and what is shown there, which is less.
pub fn less_line(
    alloc: Global,
    words: &[u8],
    place: usize,
    claimed: u64,
    shown: u128,
) -> Result<Vec<u8>, NoMemory>
    requires { IsTrue (no_feed words.now) }
    ensures text { IfOk result (λ text. text.items
        ≡ words.now ++ decimal place ++ codes " " ++ two_numbers claimed shown ++ codes "\n") }
    ensures line { IfOk result (λ text. IsTrue (is_line text.items)) }
{
    let mut text = Vec::new(alloc);
    push_text(&mut text, words)?;
    push_decimal(&mut text, place as u128)?;
    push_text(&mut text, b" ")?;
    push_two(&mut text, u128::from(claimed), shown)?;
    push_text(&mut text, b"\n")?;
    Ok(text)
}

/// `refused soc line` and the line.
pub(crate) fn chip_line(alloc: Global, line: u64) -> Result<Vec<u8>, NoMemory>
    ensures text { IfOk result (λ text. text.items ≡ chip_line_text line) }
    ensures line { IfOk result (λ text. IsTrue (is_line text.items)) }
{
    number_line(alloc, b"refused soc line ", u128::from(line))
}

/// `refused soc limit`, the name of the limit and the number that passes it.
pub(crate) fn chip_limit_line(alloc: Global, limit: &SocLimit) -> Result<Vec<u8>, NoMemory>
    ensures text { IfOk result (λ text. text.items ≡ chip_limit_text limit.now) }
    ensures line { IfOk result (λ text. IsTrue (is_line text.items)) }
{
    let mut text = Vec::new(alloc);
    push_text(&mut text, b"refused soc limit ")?;
    push_text(&mut text, limit_word(limit.which))?;
    push_decimal(&mut text, limit.value)?;
    push_text(&mut text, b"\n")?;
    Ok(text)
}

/// `refused limits line` and the line.
pub(crate) fn limits_line(alloc: Global, line: u64) -> Result<Vec<u8>, NoMemory>
    ensures text { IfOk result (λ text. text.items ≡ limits_line_text line) }
    ensures line { IfOk result (λ text. IsTrue (is_line text.items)) }
{
    number_line(alloc, b"refused limits line ", u128::from(line))
}

/// `refused limits unknown test line` and the line.
pub(crate) fn unknown_test_line(alloc: Global, line: u64) -> Result<Vec<u8>, NoMemory>
    ensures text { IfOk result (λ text. text.items ≡ unknown_test_text line) }
    ensures line { IfOk result (λ text. IsTrue (is_line text.items)) }
{
    number_line(
        alloc,
        b"refused limits unknown test line ",
        u128::from(line),
    )
}

/// Appends tests, each behind a space.
fn push_tests(to: &mut Vec<u8>, tests: &[TestId]) -> Result<(), NoMemory>
    ensures text { OnOk result (to.new.items ≡ to.old.items ++ tests_text tests.now) }
    ensures plain { OnOk result (IsTrue (no_feed to.old.items) → IsTrue (no_feed to.new.items)) }
{
    for test in tests {
        push_text(to, b" ")?;
        push_test(to, test)?;
    }
    Ok(())
}

/// `refused limits cycle` and the tests of the loop.
pub(crate) fn loop_line(alloc: Global, tests: &[TestId]) -> Result<Vec<u8>, NoMemory>
    ensures text { IfOk result (λ text. text.items ≡ loop_line_text tests.now) }
    ensures line { IfOk result (λ text. IsTrue (is_line text.items)) }
{
    let mut text = Vec::new(alloc);
    push_text(&mut text, b"refused limits cycle")?;
    push_tests(&mut text, tests)?;
    push_text(&mut text, b"\n")?;
    Ok(text)
}

/// `refused limits power`, a test and its power that passes the limit.
pub(crate) fn test_power_line(alloc: Global, test: &TestId, power: u64) -> Result<Vec<u8>, NoMemory>
    ensures text { IfOk result (λ text. text.items ≡ test_power_text test.now power) }
    ensures line { IfOk result (λ text. IsTrue (is_line text.items)) }
{
    let mut text = Vec::new(alloc);
    push_text(&mut text, b"refused limits power ")?;
    push_test(&mut text, test)?;
    push_text(&mut text, b" ")?;
    push_decimal(&mut text, u128::from(power))?;
    push_text(&mut text, b"\n")?;
    Ok(text)
}

/// `refused plan line` and the line.
pub(crate) fn plan_line(alloc: Global, line: u64) -> Result<Vec<u8>, NoMemory>
    ensures text { IfOk result (λ text. text.items ≡ plan_line_text line) }
    ensures line { IfOk result (λ text. IsTrue (is_line text.items)) }
{
    number_line(alloc, b"refused plan line ", u128::from(line))
}

/// `refused plan` and the fault.
pub(crate) fn fault_line(alloc: Global, fault: &PlanFault) -> Result<Vec<u8>, NoMemory>
    ensures text { IfOk result (λ text. text.items ≡ fault_line_text (fault_value fault.now)) }
    ensures line { IfOk result (λ text. IsTrue (is_line text.items)) }
{
    let mut text = Vec::new(alloc);
    push_text(&mut text, b"refused plan ")?;
    push_text(&mut text, keyword(fault))?;
    push_carried(&mut text, fault)?;
    push_text(&mut text, b"\n")?;
    Ok(text)
}

/// `refused run` and the wire cycles of the run.
pub fn run_line(alloc: Global, cells: u128) -> Result<Vec<u8>, NoMemory>
    ensures text { IfOk result (λ text. text.items ≡ run_line_text cells) }
    ensures line { IfOk result (λ text. IsTrue (is_line text.items)) }
{
    number_line(alloc, b"refused run ", cells)
}
