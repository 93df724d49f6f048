//! The line of the power.
ghost use Rattle.std.specs.Prelude.{◌≡◌, ◌++◌, OnOk};
ghost use Rattle.report.specs.Peaks.{higher as the_higher, limit_text, no_power, peak_after, peak_text};

use crate::entries::push_entry;
use outside::{NoMemory, extend, push_number};

/// The greatest power that was found, with its first cycle.
#[derive(Clone, Copy, Drop)]
pub struct Peak {
    /// In the unit of the chip's file.
    pub power: u64,
    /// The first cycle that has it.
    pub cycle: u64,
}

/// A peak, or the power at a later cycle where that is more.
fn higher(peak: Peak, cycle: u64, power: u64) -> Peak
    ensures { result ≡ the_higher peak cycle power }
{
    if peak.power < power {
        return Peak { power, cycle };
    }
    peak
}

/// The peak of a load, by its steps: cycles with the load from there on.
fn peak_of(steps: &[(u64, u64)]) -> Peak
    ensures { result ≡ peak_after no_power steps.now }
{
    let mut peak = Peak { power: 0, cycle: 0 };
    for (cycle, power) in steps {
        peak = higher(peak, *cycle, *power);
    }
    peak
}

/// Appends the limit, or `-` where there is none.
fn push_limit(text: &mut Vec<u8>, limit: Option<u64>) -> Result<(), NoMemory>
    ensures { OnOk result (text.new.items ≡ text.old.items ++ limit_text limit) }
{
    match limit {
        Some(most) => push_number(text, u128::from(most)),
        None => extend(text, b"-"),
    }
}

/// Appends the line of the power: the greatest of the load with these steps, its first cycle, and the limit.
pub fn push_power(
    text: &mut Vec<u8>,
    steps: &[(u64, u64)],
    limit: Option<u64>,
) -> Result<(), NoMemory>
    ensures { OnOk result
        (text.new.items ≡ text.old.items ++ peak_text (peak_after no_power steps.now) limit) }
{
    let peak = peak_of(steps);
    push_entry(text, b"power ", peak.power)?;
    push_entry(text, b" at ", peak.cycle)?;
    extend(text, b" of ")?;
    push_limit(text, limit)?;
    extend(text, b"\n")
}
