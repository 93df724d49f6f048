//! Compares totals with what a text says.
ghost use Rattle.std.specs.Prelude.{◌≡◌};
ghost use Rattle.soc_model.specs.Chips.{soc_value};
ghost use Rattle.soc_model.specs.Lookups.{has_module_number};
ghost use Rattle.soc_reader.specs.Views.{total_item, totals_of};
ghost use Rattle.soc_reader.specs.Meaning.{module_count, test_count, wrong_total as wrong_total_of, first_wrong as first_wrong_of};

use crate::kept::Total;
use soc_model::{Soc, place_of};

/// Whether module 0 is among the modules.
fn has_module_zero(soc: &Soc) -> bool
    ensures { result ≡ has_module_number (soc_value soc.now) 0 }
{
    soc.modules.contains_key(&0)
}

/// Whether a total is the number of modules, or that less one where module 0 is among them.
fn counts_modules(soc: &Soc, total: u64) -> bool
    ensures { result ≡ module_count (soc_value soc.now) total }
{
    let count = soc.modules.len() as u128;
    let total = u128::from(total);
    if total == count {
        return true;
    }
    has_module_zero(soc) && total + 1 == count
}

/// Whether a total is the number of the module's tests.
fn counts_tests(soc: &Soc, number: u64, total: u64) -> bool
    ensures { result ≡ test_count (soc_value soc.now) number total }
{
    let Some(place) = place_of(soc, number) else {
        return false;
    };
    match soc.modules.get_index(place) {
        Some((_, found)) => total == found.tests.len() as u64,
        None => false,
    }
}

/// The line of a total that does not agree with the chip.
fn wrong_total(soc: &Soc, total: &Total) -> Option<u64>
    ensures { result ≡ wrong_total_of (soc_value soc.now) (total_item total.now) }
{
    match total {
        Total::Modules { number, line } => (!counts_modules(soc, *number)).then_some(*line),
        Total::Tests {
            module,
            number,
            line,
        } => (!counts_tests(soc, *module, *number)).then_some(*line),
    }
}

/// The line of the first total, in the text, that does not agree with the chip.
pub fn first_wrong(soc: &Soc, totals: &[Total]) -> Option<u64>
    ensures { result ≡ first_wrong_of (soc_value soc.now) (totals_of totals.now) }
{
    for total in totals {
        if let Some(line) = wrong_total(soc, total) {
            return Some(line);
        }
    }
    None
}
