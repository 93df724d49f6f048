//! The parts of a test: as tests, in the list of parts, and one before the next.
ghost use Rattle.std.specs.Prelude.{◌≡◌, ◌++◌, ◌<◌, ◌≤◌, map, OnOk, IfOk};
ghost use Rattle.std.specs.List.{All};
ghost use Rattle.split_plan.specs.Cuts.{live_cuts, part_id as id_of_part, patterns_of as patterns_in, part_test as test_of_part, part_at as listed, pieces, pieces_of};
ghost use Rattle.split_plan.specs.Steps.{HasRoom};

use crate::Part;
use crate::cuts::Cut;
use outside::{NoMemory, push};
use soc_model::{Test, TestId, live};
use std::alloc::Global;

/// The name of a part, by its place among the parts of its test, counted from 0.
pub(crate) fn part_id(cut: &Cut, place: u64) -> TestId
    requires room { HasRoom cut.now }
    requires within { place < cut.now.count }
    ensures { result ≡ id_of_part cut.now place }
{
    TestId {
        module: cut.whole.module,
        test: cut.number + place,
    }
}

/// How many patterns a part has.
fn patterns_of(cut: &Cut, place: u64) -> u64
    requires room { HasRoom cut.now }
    requires within { place < cut.now.count }
    ensures patterns { result ≡ patterns_in cut.now place }
    ensures bounded { result ≤ cut.now.test.patterns }
{
    cut.size.min(cut.test.patterns - place * cut.size)
}

/// The test that a part is.
fn part_test(cut: &Cut, place: u64) -> Test
    requires room { HasRoom cut.now }
    requires within { place < cut.now.count }
    ensures { result ≡ test_of_part (cut.now, place) }
{
    Test {
        number: cut.number + place,
        scan: cut.test.scan,
        tam: cut.test.tam,
        patterns: patterns_of(cut, place),
        power: cut.power,
    }
}

/// A part in the list of parts.
fn part_at(cut: &Cut, place: u64) -> Part
    requires room { HasRoom cut.now }
    requires within { place < cut.now.count }
    ensures { result ≡ listed (cut.now, place) }
{
    let before = place * cut.size;
    Part {
        whole: cut.whole,
        first: before + 1,
        last: before + patterns_of(cut, place),
        part: part_id(cut, place),
    }
}

/// Adds the tests that the parts of a test are.
pub(crate) fn push_tests(tests: &mut Vec<Test>, cut: &Cut) -> Result<(), NoMemory>
    requires { HasRoom cut.now }
    ensures { OnOk result
        (tests.new.items ≡ tests.old.items ++ map test_of_part (pieces_of cut.now)) }
{
    for place in 0..cut.count {
        push(tests, part_test(cut, place))?;
    }
    Ok(())
}

/// Adds the parts of a test.
fn push_parts(parts: &mut Vec<Part>, cut: &Cut) -> Result<(), NoMemory>
    requires { HasRoom cut.now }
    ensures { OnOk result (parts.new.items ≡ parts.old.items ++ map listed (pieces_of cut.now)) }
{
    for place in 0..cut.count {
        push(parts, part_at(cut, place))?;
    }
    Ok(())
}

/// The parts of live tests.
pub(crate) fn list_parts(alloc: Global, cuts: &[Cut]) -> Result<Vec<Part>, NoMemory>
    requires { All HasRoom cuts.now }
    ensures { IfOk result (λ parts. parts.items ≡ map listed (pieces (live_cuts cuts.now))) }
{
    let mut parts = Vec::new(alloc);
    for cut in cuts {
        if live(&cut.test) {
            push_parts(&mut parts, cut)?;
        }
    }
    Ok(parts)
}
