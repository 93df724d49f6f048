//! What shows first that test data doesn't suit a chip.
ghost use Rattle.std.specs.Prelude.{◌≡◌, ◌+◌, ◌*◌, ◌^◌, ◌≤◌, length, find, nat_eq, not, slice_get, sum};
ghost use Rattle.std.specs.List.{list_any};
ghost use Rattle.soc_model.specs.Chips.{module_value, same_test, soc_value};
ghost use Rattle.test_data.specs.declared.places.TestEntry.{TestEntry as KeptEntry};
ghost use Rattle.test_data.specs.DataPlaces.{bits_in, entry_in, entries_in, kept_names, patterns_in};
ghost use Rattle.test_data.specs.Suiting.{wanted_by, wanted_for as wanted_of_test, tam_only, tam_names_in, has_name, first_misnamed as the_misnamed, first_missing as the_missing, first_of, misfit_of, wrong_bits as bits_misfit, wrong_patterns as patterns_misfit, wrong_word as word_misfit};

use crate::Misfit;
use crate::data::TestData;
use crate::places::{BitPlace, PatternPlaces, TestEntry, bytes_of};
use soc_model::{Module, Soc, Test, TestId, find_test, mode_chains, over_wires};

/// What a chip wants of the data of a test.
#[derive(Clone, Copy)]
pub struct Wanted {
    /// Patterns.
    pub patterns: u64,
    /// Bits of the stimulus.
    pub load: u128,
    /// Bits of the response.
    pub unload: u128,
}

/// The cells of scan chains.
fn scan_cells(lengths: &[u64]) -> u128
    ensures cells { result ≡ sum lengths.now }
    ensures bounded { result ≤ length lengths.now * 2 ^ 64 }
{
    let mut sum = 0u128;
    for length in lengths {
        sum += u128::from(*length);
    }
    sum
}

/// Terminals of a kind and bidirectional ones together.
fn terminals(some: u64, bidirs: u64) -> u128
    ensures sum { result ≡ some + bidirs }
    ensures bounded { result ≤ 2 ^ 65 }
{
    u128::from(some) + u128::from(bidirs)
}

/// What a module wants of the data of a test over the wires.
pub fn wanted_for(module: &Module, test: &Test) -> Wanted
    ensures { result ≡ wanted_of_test (module_value «module».now) test.now }
{
    let flops = scan_cells(mode_chains(module, test.scan));
    let inputs = terminals(module.inputs, module.bidirs);
    let outputs = terminals(module.outputs, module.bidirs);
    Wanted {
        patterns: test.patterns,
        load: inputs + flops,
        unload: flops + outputs,
    }
}

/// What is wanted of a test that goes over the wires.
fn wanted_if(module: &Module, test: &Test) -> Option<Wanted>
    ensures { result ≡ tam_only (module_value «module».now) (Some test.now) }
{
    if over_wires(test) {
        return Some(wanted_for(module, test));
    }
    None
}

/// What is wanted of the test at a place of the module, where there is one.
#[tactic(auto, using(crate::proofs::ChipBits::past_end))]
fn wanted_in(module: &Module, at: usize) -> Option<Wanted>
    ensures { result
        ≡ tam_only (module_value «module».now) (slice_get «module».now.tests.items at) }
{
    if at >= module.tests.len() {
        return None;
    }
    wanted_if(module, &module.tests[at])
}

/// What the chip wants of the data of the live test over the wires of a name, where it has one.
fn wanted_of(soc: &Soc, id: TestId) -> Option<Wanted>
    ensures { result ≡ wanted_by (soc_value soc.now) id }
{
    let (place, at) = find_test(soc, id)?;
    let (_, module) = soc.modules.get_index(place)?;
    wanted_in(module, at)
}

/// Whether one of the entries has the name.
fn is_named(entries: &[TestEntry], id: TestId) -> bool
    ensures { result ≡ list_any (λ (e : KeptEntry). same_test id e.test) entries.now }
{
    entries.iter().any(|entry| id == entry.test)
}

/// The name of the first entry that is of no live test over the wires, or that an entry before it has.
fn first_misnamed(soc: &Soc, entries: &[TestEntry]) -> Option<TestId>
    ensures { result ≡ the_misnamed (soc_value soc.now) (kept_names entries.now) }
{
    for at in 0..entries.len() {
        let id = entries[at].test;
        if wanted_of(soc, id).is_none() {
            return Some(id);
        }
        let (before, _) = entries.split_at(at);
        if is_named(before, id) {
            return Some(id);
        }
    }
    None
}

/// The first live test over the wires of a module that has no entry.
fn missing_in(module: &Module, entries: &[TestEntry]) -> Option<TestId>
    ensures { result ≡ find (λ id. not (has_name (kept_names entries.now) id))
        (tam_names_in (module_value «module».now)) }
{
    for test in &module.tests {
        if !over_wires(test) {
            continue;
        }
        let id = TestId {
            module: module.number,
            test: test.number,
        };
        if !is_named(entries, id) {
            return Some(id);
        }
    }
    None
}

/// The first live test over the wires of the chip that has no entry.
fn first_missing(soc: &Soc, entries: &[TestEntry]) -> Option<TestId>
    ensures { result ≡ the_missing (soc_value soc.now) (kept_names entries.now) }
{
    for module in soc.modules.values() {
        if let Some(id) = missing_in(module, entries) {
            return Some(id);
        }
    }
    None
}

/// The misfit of an entry with another number of patterns than its test.
fn wrong_patterns(soc: &Soc, bytes: &[u8], entry: &TestEntry) -> Option<Misfit>
    ensures { result ≡ patterns_misfit (soc_value soc.now) (entry_in bytes.now entry.now) }
{
    let wanted = wanted_of(soc, entry.test)?;
    if entry.patterns.len() as u64 == wanted.patterns {
        return None;
    }
    Some(Misfit::Patterns {
        test: entry.test,
        wanted: wanted.patterns,
    })
}

/// Whether a word has as many bits as are wanted.
fn has_bits(bytes: &[u8], place: BitPlace, wanted: u128) -> bool
    ensures { result ≡ nat_eq (length (bits_in bytes.now place)) wanted }
{
    bytes_of(bytes, place).len() as u128 == wanted
}

/// The first word of the patterns of a test that has another number of bits than is wanted.
fn wrong_word(
    bytes: &[u8],
    test: TestId,
    wanted: Wanted,
    patterns: &[PatternPlaces],
) -> Option<Misfit>
    ensures { result ≡ word_misfit test wanted 1 (patterns_in bytes.now patterns.now) }
{
    for before in 0..patterns.len() {
        let places = patterns[before];
        let pattern = before as u64 + 1;
        if !has_bits(bytes, places.load, wanted.load) {
            return Some(Misfit::Load {
                test,
                pattern,
                wanted: wanted.load,
            });
        }
        if !has_bits(bytes, places.unload, wanted.unload) {
            return Some(Misfit::Unload {
                test,
                pattern,
                wanted: wanted.unload,
            });
        }
    }
    None
}

/// The first word of an entry that has another number of bits than is wanted.
fn wrong_bits(soc: &Soc, bytes: &[u8], entry: &TestEntry) -> Option<Misfit>
    ensures { result ≡ bits_misfit (soc_value soc.now) (entry_in bytes.now entry.now) }
{
    let wanted = wanted_of(soc, entry.test)?;
    wrong_word(bytes, entry.test, wanted, &entry.patterns)
}

/// The misfit of the first entry with another number of patterns than its test.
fn first_wrong_patterns(soc: &Soc, bytes: &[u8], entries: &[TestEntry]) -> Option<Misfit>
    ensures { result
        ≡ first_of (patterns_misfit (soc_value soc.now)) (entries_in bytes.now entries.now) }
{
    for entry in entries {
        if let Some(misfit) = wrong_patterns(soc, bytes, entry) {
            return Some(misfit);
        }
    }
    None
}

/// The misfit of the first word of all entries that has another number of bits than is wanted.
fn first_wrong_bits(soc: &Soc, bytes: &[u8], entries: &[TestEntry]) -> Option<Misfit>
    ensures { result
        ≡ first_of (bits_misfit (soc_value soc.now)) (entries_in bytes.now entries.now) }
{
    for entry in entries {
        if let Some(misfit) = wrong_bits(soc, bytes, entry) {
            return Some(misfit);
        }
    }
    None
}

/// What shows first that test data doesn't suit a chip. None comes exactly where it suits. It takes no memory.
pub fn first_misfit(data: &TestData, soc: &Soc) -> Option<Misfit>
    ensures { result ≡ misfit_of (soc_value soc.now) «data».now }
{
    let (bytes, entries) = data.parts();
    if let Some(test) = first_misnamed(soc, entries) {
        return Some(Misfit::Test { test });
    }
    if let Some(test) = first_missing(soc, entries) {
        return Some(Misfit::Test { test });
    }
    if let Some(misfit) = first_wrong_patterns(soc, bytes, entries) {
        return Some(misfit);
    }
    first_wrong_bits(soc, bytes, entries)
}
