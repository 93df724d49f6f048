//! The lines of buses.
ghost use Rattle.std.specs.Prelude.{◌≡◌, ◌++◌, ◌^◌, ◌<◌, OnOk};
ghost use Rattle.report.specs.BusLines.{bus_line, bus_lines, is_bus as the_is_bus, is_over as the_is_over, place_text, tests_over as the_tests_over, use_text};
ghost use Rattle.report.specs.PlacedTests.{AreTests, cycles_over as the_cycles_over};

use crate::entries::push_entry;
use crate::totals::cycles_of;
use live_tests::PlacedTest;
use outside::{NoMemory, extend};

/// Whether a bus is the one at a place.
fn is_bus(place: usize, bus: Option<usize>) -> bool
    ensures { result ≡ the_is_bus place bus }
{
    match bus {
        Some(found) => found == place,
        None => false,
    }
}

/// Whether a test is over the wires of the bus at a place.
fn is_over(place: usize, test: &PlacedTest) -> bool
    ensures { result ≡ the_is_over place test.now }
{
    is_bus(place, test.bus)
}

/// How many tests are over the wires of a bus.
fn tests_over(tests: &[PlacedTest], place: usize) -> u64
    ensures { result ≡ the_tests_over tests.now place }
{
    let mut count = 0u64;
    for test in tests {
        if is_over(place, test) {
            count += 1;
        }
    }
    count
}

/// The cycles of all tests over the wires of a bus.
fn cycles_over(tests: &[PlacedTest], place: usize) -> u64
    requires { the_cycles_over tests.now place < 2 ^ 64 }
    ensures { result ≡ the_cycles_over tests.now place }
{
    let mut busy = 0u64;
    for test in tests {
        if is_over(place, test) {
            busy += cycles_of(test);
        }
    }
    busy
}

/// Appends the place of a bus and its width.
fn push_place(text: &mut Vec<u8>, place: usize, width: u64) -> Result<(), NoMemory>
    ensures { OnOk result (text.new.items ≡ text.old.items ++ place_text place width) }
{
    push_entry(text, b"bus ", place as u64)?;
    push_entry(text, b" width ", width)
}

/// Appends how many tests a bus has, and its busy and idle cycles, and ends the line.
fn push_use(text: &mut Vec<u8>, tests: u64, busy: u64, idle: u64) -> Result<(), NoMemory>
    ensures { OnOk result (text.new.items ≡ text.old.items ++ use_text tests busy idle) }
{
    push_entry(text, b" tests ", tests)?;
    push_entry(text, b" busy ", busy)?;
    push_entry(text, b" idle ", idle)?;
    extend(text, b"\n")
}

/// Appends the line of a bus: how many tests it has, and of all cycles those at which one of them is active, and the others.
fn push_bus(
    text: &mut Vec<u8>,
    place: usize,
    width: u64,
    cycles: u64,
    tests: &[PlacedTest],
) -> Result<(), NoMemory>
    requires { AreTests cycles tests.now }
    ensures { OnOk result
        (text.new.items ≡ text.old.items ++ bus_line cycles tests.now place width) }
{
    let busy = cycles_over(tests, place);
    let idle = cycles - busy;
    push_place(text, place, width)?;
    push_use(text, tests_over(tests, place), busy, idle)
}

/// Appends the lines of all buses, which have these widths.
pub fn push_buses(
    text: &mut Vec<u8>,
    ws: &[u64],
    cycles: u64,
    tests: &[PlacedTest],
) -> Result<(), NoMemory>
    requires { AreTests cycles tests.now }
    ensures { OnOk result (text.new.items ≡ text.old.items ++ bus_lines cycles tests.now 0 ws.now) }
{
    for place in 0..ws.len() {
        push_bus(text, place, ws[place], cycles, tests)?;
    }
    Ok(())
}
