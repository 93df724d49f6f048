//! What is written of each test, before any of it is written.
ghost use Rattle.std.specs.Prelude.{◌≡◌, ◌++◌, ◌+◌, ◌*◌, ◌^◌, ◌≤◌, length, map, max, sum_by, IfOk, OnOk};
ghost use Rattle.std.specs.List.{All};
ghost use Rattle.soc_model.specs.declared.TestId.{TestId as Id};
ghost use Rattle.soc_model.specs.Chips.{module_value, soc_value};
ghost use Rattle.tester_commands.specs.DataText.{test_line as line_of};
ghost use Rattle.tester_commands.specs.DataParts.{IsSmallPart, part_length as length_of, part_of as the_part, part_value, parts_from, parts_in};

use outside::{NoMemory, extend, push, push_number};
use soc_model::{Module, Soc, Test, TestId, over_wires};
use std::alloc::Global;
use test_data::{Wanted, wanted_for};
use vector_lines::{Contents, MadeContents};

/// What is written of a test.
#[derive(Drop)]
pub struct Part {
    /// The line `Test m t`.
    pub head: Vec<u8>,
    /// What the seed and the places of module and test give to each of its bits.
    pub base: u64,
    /// Its patterns, and the bits of each.
    pub wanted: Wanted,
}

/// `Test m t`.
fn test_line(alloc: Global, id: TestId) -> Result<Vec<u8>, NoMemory>
    ensures { IfOk result (λ line. line.items ≡ line_of id) }
{
    let mut line = Vec::new(alloc);
    extend(&mut line, b"Test ")?;
    push_number(&mut line, u128::from(id.module))?;
    extend(&mut line, b" ")?;
    push_number(&mut line, u128::from(id.test))?;
    extend(&mut line, b"\n")?;
    Ok(line)
}

/// The part of a test over the wires, by its place in its module and that of its module in the chip.
fn part_of(
    alloc: Global,
    seed: u64,
    place: usize,
    module: &Module,
    at: usize,
    test: &Test,
) -> Result<Part, NoMemory>
    ensures { IfOk result
        (λ p. part_value p ≡ the_part seed place (module_value «module».now) at test.now) }
{
    let id = TestId {
        module: module.number,
        test: test.number,
    };
    let head = test_line(alloc, id)?;
    Ok(Part {
        head,
        base: MadeContents { seed }.key(place, at, id),
        wanted: wanted_for(module, test),
    })
}

/// Appends the parts of the live tests over the wires of a module.
fn push_parts(
    alloc: Global,
    seed: u64,
    place: usize,
    module: &Module,
    parts: &mut Vec<Part>,
) -> Result<(), NoMemory>
    ensures { OnOk result (map part_value parts.new.items
        ≡ map part_value parts.old.items
        ++ parts_in seed place (module_value «module».now) 0 «module».now.tests.items) }
{
    for at in 0..module.tests.len() {
        let test = module.tests[at];
        if !over_wires(&test) {
            continue;
        }
        push(parts, part_of(alloc, seed, place, module, at, &test)?)?;
    }
    Ok(())
}

/// The parts of all live tests over the wires, in the order of the chip.
pub fn chip_parts(alloc: Global, soc: &Soc, seed: u64) -> Result<Vec<Part>, NoMemory>
    ensures { IfOk result (λ parts. map part_value parts.items
        ≡ parts_from seed 0 (soc_value soc.now).modules) }
{
    let mut parts = Vec::new(alloc);
    for place in 0..soc.modules.len() {
        match soc.modules.get_index(place) {
            Some((_, module)) => push_parts(alloc, seed, place, module, &mut parts)?,
            None => unreachable!(),
        }
    }
    Ok(parts)
}

/// The bytes of the words of a line, with the space and the line feed.
fn line_length(wanted: Wanted) -> u128
    requires load { wanted.load ≤ 10 ^ 16 }
    requires unload { wanted.unload ≤ 10 ^ 16 }
    ensures is { result ≡ max 1 wanted.load + max 1 wanted.unload + 2 }
    ensures small { result ≤ 3 * 10 ^ 16 }
{
    wanted.load.max(1) + wanted.unload.max(1) + 2
}

/// The bytes that are written of a test.
fn part_length(part: &Part) -> u128
    requires { IsSmallPart (part_value part.now) }
    ensures is { result ≡ length_of (part_value part.now) }
    ensures small { result ≤ 10 ^ 30 }
{
    let lines = u128::from(part.wanted.patterns) * line_length(part.wanted);
    part.head.len() as u128 + lines
}

/// The bytes that are written of all tests.
pub fn parts_length(parts: &[Part]) -> u128
    requires small { All (λ p. IsSmallPart (part_value p)) parts.now }
    requires few { length parts.now ≤ 4096 }
    ensures is { result ≡ sum_by length_of (map part_value parts.now) }
    ensures small { result ≤ 10 ^ 34 }
{
    let mut sum = 0u128;
    for part in parts {
        sum += part_length(part);
    }
    sum
}
