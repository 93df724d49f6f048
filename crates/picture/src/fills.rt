//! Which of four fills a rectangle has, so that no two neighbours have one: one of two by its bus or lane, and of these one of two by
//! its place there.
ghost use Rattle.std.specs.Prelude.{◌≡◌, ◌<◌, ◌^◌, List, nat_lt, IfOk};
ghost use Rattle.std.specs.List.{count_by};
ghost use Rattle.std.specs.List.Sorted.{IsNonDecreasing};
ghost use Rattle.picture.specs.declared.panels.Drawn.{Drawn as the_rectangle};
ghost use Rattle.picture.specs.Fills.{AreStartKeys, AreStarts, band, band_key, earlier, fill_of as the_fill, start_key};

use crate::panels::Drawn;
use outside::{NoMemory, push};
use std::alloc::Global;

/// More than any cycle.
const CYCLES: u128 = 18_446_744_073_709_551_616;

/// The band of a rectangle: the place of its bus, or the lane of a self test.
fn band_of(one: &Drawn) -> u64
    ensures { result ≡ band one.now }
{
    match one.test.bus {
        Some(bus) => bus as u64,
        None => one.rectangle.first,
    }
}

/// A band and a cycle as one number, in the order of the bands and then of the cycles.
fn key_of(band: u64, cycle: u64) -> u128
    ensures is { result ≡ band_key band cycle }
    ensures small { cycle < 2 ^ 64 }
{
    u128::from(band) * CYCLES + u128::from(cycle)
}

/// The key of the start of a rectangle.
fn start_key_of(one: &Drawn) -> u128
    ensures is { result ≡ start_key one.now }
    ensures small { one.now.rectangle.start < 2 ^ 64 }
{
    key_of(band_of(one), one.rectangle.start)
}

/// The keys of the starts of rectangles, in their order.
fn start_keys(alloc: Global, drawn: &[Drawn]) -> Result<Vec<u128>, NoMemory>
    ensures { IfOk result (λ keys. AreStartKeys drawn.now keys.items) }
{
    let mut keys = Vec::new(alloc);
    for one in drawn {
        push(&mut keys, start_key_of(one))?;
    }
    Ok(keys)
}

/// The keys of the starts of rectangles, sorted.
pub fn sorted_starts(alloc: Global, drawn: &[Drawn]) -> Result<Vec<u128>, NoMemory>
    ensures { IfOk result (λ keys. AreStarts drawn.now keys.items) }
{
    let mut keys = start_keys(alloc, drawn)?;
    keys.sort_unstable();
    Ok(keys)
}

/// How many keys are below one.
fn count_below(keys: &[u128], key: u128) -> usize
    requires { IsNonDecreasing keys.now }
    ensures { result ≡ count_by (λ k. nat_lt k key) keys.now }
{
    keys.partition_point(
        |k: &u128| -> bool
            ensures { result ≡ nat_lt k.now key }
        { *k < key },
    )
}

/// How many rectangles of a band start before a cycle.
fn earlier_in(starts: &[u128], band: u64, cycle: u64) -> usize
    requires { IsNonDecreasing starts.now }
    ensures { (drawn : List the_rectangle) → AreStarts drawn starts.now →
        result ≡ earlier drawn band cycle }
{
    let all = count_below(starts, key_of(band, cycle));
    all.saturating_sub(count_below(starts, key_of(band, 0)))
}

/// The fill of a rectangle among those that have these starts.
pub fn fill_of(starts: &[u128], one: &Drawn) -> u8
    requires { IsNonDecreasing starts.now }
    ensures is { (drawn : List the_rectangle) → AreStarts drawn starts.now →
        result ≡ the_fill drawn one.now }
    ensures few { result < 4 }
{
    let band = band_of(one);
    let place = earlier_in(starts, band, one.rectangle.start);
    2 * (band % 2) as u8 + (place % 2) as u8
}
