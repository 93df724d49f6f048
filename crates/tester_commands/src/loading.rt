//! Loads and reads test data for a chip.
ghost use Rattle.std.specs.Prelude.{◌≡◌, ◌≤◌, IfOk};
ghost use Rattle.soc_model.specs.Chips.{soc_value};
ghost use Rattle.soc_model.specs.SoundChips.{IsSoundChip};
ghost use Rattle.test_data.specs.Agreement.{Suits};
ghost use Rattle.tester_vectors.specs.VectorText.{more_than};
ghost use Rattle.tester_commands.specs.declared.TheConstants.{LONG_RUN_MOST};
ghost use Rattle.tester_commands.specs.DataReadings.{AnswersSuiting, LoadsData, LoadsSuiting, RefusesFault};

use crate::LONG_RUN_MOST;
use crate::data_lines::{data_line, misfit_line};
use commands::{Accepted, FileKind, Verdict, load_file, refused_with};
use outside::Shelf;
use plan_model::good_without_limits;
use soc_model::Soc;
use std::alloc::Global;
use test_data::{DataFault, TestData, data_without_misfit_suits, first_misfit, read_data};
use tester_vectors::cells_over;

/// The answer to a text of test data that isn't taken.
fn refused_data(alloc: Global, fault: DataFault) -> Verdict
    ensures { RefusesFault fault result }
{
    match fault {
        DataFault::Text { line } => refused_with(data_line(alloc, line)),
        DataFault::NoMemory => Verdict::NoMemory,
    }
}

/// The data where it suits a chip, else the answer to what shows that it doesn't.
fn suiting(alloc: Global, soc: &Soc, test_data: TestData) -> Result<TestData, Verdict>
    ensures { AnswersSuiting (soc_value soc.now) test_data result }
{
    match first_misfit(&test_data, soc) {
        None => Ok(test_data),
        Some(misfit) => Err(refused_with(misfit_line(alloc, misfit))),
    }
}

/// Loads and reads test data that suits a chip, else how the command ends.
fn load_for_chip<H: Shelf>(
    alloc: Global,
    soc: &Soc,
    name: &str,
    shelf: &mut H,
) -> Result<TestData, Verdict>
    requires { IsSoundChip (soc_value soc.now) }
    ensures held_stays { H.held shelf.new ≡ H.held shelf.old }
    ensures faults_never_fall { H.faults shelf.old ≤ H.faults shelf.new }
    ensures suits { IfOk result (Suits (soc_value soc.now)) }
    ensures loads { LoadsSuiting (soc_value soc.now) name.now (H.held shelf.old)
        (H.faults shelf.old) (H.faults shelf.new) result }
    ensures by_loads { LoadsData H.is_load (soc_value soc.now) name.now shelf.old result shelf.new }
{
    data_without_misfit_suits();
    let bytes = load_file(alloc, FileKind::Data, name, shelf)?;
    match read_data(alloc, bytes) {
        Ok(test_data) => suiting(alloc, soc, test_data),
        Err(fault) => Err(refused_data(alloc, fault)),
    }
}

/// Loads and reads test data that suits the chip of a plan, else how the command ends.
///
/// The data is refused at a line of its text, or else for the first thing that shows that it doesn't suit the chip: the name of a
/// test, its number of patterns, the number of bits of a word.
pub fn load_suiting<H: Shelf>(
    alloc: Global,
    all: &Accepted,
    name: &str,
    shelf: &mut H,
) -> Result<TestData, Verdict>
    ensures held_stays { H.held shelf.new ≡ H.held shelf.old }
    ensures faults_never_fall { H.faults shelf.old ≤ H.faults shelf.new }
    ensures suits { IfOk result (Suits all.now.soc) }
    ensures loads { LoadsSuiting all.now.soc name.now (H.held shelf.old) (H.faults shelf.old)
        (H.faults shelf.new) result }
    ensures by_loads { LoadsData H.is_load all.now.soc name.now shelf.old result shelf.new }
{
    load_for_chip(alloc, &all.soc, name, shelf)
}

/// The cells of a run that is too long to be written with test data. None comes exactly where the run is short enough.
pub fn long_run(all: &Accepted) -> Option<u128>
    ensures { result ≡ more_than LONG_RUN_MOST all.now.plan }
{
    good_without_limits();
    cells_over(LONG_RUN_MOST, &all.plan)
}
