//! Prints a chip as the text that `soc_reader` reads.
//!
//! What is printed of a sound chip is read back as that chip. The only error is out of memory.
#![tactic(auto)]

ghost use Rattle.std.specs.Prelude.{◌≡◌, ◌∷◌, [], ◌++◌, codes, decimal, map, OnOk, IfOk};
ghost use Rattle.std.specs.List.{flat_map};
ghost use Rattle.soc_model.specs.Chips.{SocValue, soc_value, module_value};
ghost use Rattle.soc_model.specs.SoundChips.{IsSoundChip};
ghost use Rattle.soc_reader.specs.ChipForm.{SaysChip};
ghost use Rattle.soc_printer.specs.SocText.{spaced, flag_word, name_words, setup_words, lengths_text, name_line, total_line, options_line, terminal_words, module_words, module_line, tests_line, test_line, module_text, soc_text};

use outside::{NoMemory, extend, push, push_spaced};
use soc_model::{Module, Soc, Test};
use std::alloc::Global;

/// Appends a space and a word.
fn push_word(text: &mut Vec<u8>, word: &[u8]) -> Result<(), NoMemory>
    ensures { OnOk result (text.new.items ≡ text.old.items ++ spaced (word.now ∷ [])) }
{
    push(text, b' ')?;
    extend(text, word)
}

/// Appends a space and a number.
fn push_count(text: &mut Vec<u8>, number: u64) -> Result<(), NoMemory>
    ensures { OnOk result (text.new.items ≡ text.old.items ++ spaced (decimal number ∷ [])) }
{
    push_spaced(text, number)
}

/// Appends a keyword with a number.
fn push_entry(text: &mut Vec<u8>, key: &[u8], number: u64) -> Result<(), NoMemory>
    ensures { OnOk result
        (text.new.items ≡ text.old.items ++ spaced (key.now ∷ decimal number ∷ [])) }
{
    push_word(text, key)?;
    push_count(text, number)
}

/// Appends a keyword with a flag.
fn push_flag(text: &mut Vec<u8>, key: &[u8], flag: bool) -> Result<(), NoMemory>
    ensures { OnOk result
        (text.new.items ≡ text.old.items ++ spaced (key.now ∷ flag_word flag ∷ [])) }
{
    push_word(text, key)?;
    push(text, b' ')?;
    push(text, if flag { b'1' } else { b'0' })
}

/// Appends the line of the chip's name, where it has one.
fn push_name_line(text: &mut Vec<u8>, name: &[u8]) -> Result<(), NoMemory>
    ensures { OnOk result (text.new.items ≡ text.old.items ++ name_line name.now) }
{
    if name.is_empty() {
        return Ok(());
    }
    extend(text, b"SocName")?;
    push_word(text, name)?;
    push(text, b'\n')
}

/// Appends the line of the number of modules.
fn push_total_line(text: &mut Vec<u8>, modules: usize) -> Result<(), NoMemory>
    ensures { OnOk result (text.new.items ≡ text.old.items ++ total_line modules) }
{
    extend(text, b"TotalModules")?;
    push_count(text, modules as u64)?;
    push(text, b'\n')
}

/// Appends the line of the chip's flags.
fn push_options_line(text: &mut Vec<u8>, power: bool, xy: bool) -> Result<(), NoMemory>
    ensures { OnOk result (text.new.items ≡ text.old.items ++ options_line power xy) }
{
    extend(text, b"Options")?;
    push_flag(text, b"Power", power)?;
    push_flag(text, b"XY", xy)?;
    push(text, b'\n')
}

/// Appends a module's name, where it has one.
fn push_name(text: &mut Vec<u8>, name: &[u8]) -> Result<(), NoMemory>
    ensures { OnOk result (text.new.items ≡ text.old.items ++ spaced (name_words name.now)) }
{
    if name.is_empty() {
        return Ok(());
    }
    push_word(text, name)
}

/// Appends the counts of a module's terminals.
fn push_terminals(text: &mut Vec<u8>, module: &Module) -> Result<(), NoMemory>
    ensures { OnOk result
        (text.new.items ≡ text.old.items ++ spaced (terminal_words (module_value «module».now))) }
{
    push_entry(text, b"Inputs", module.inputs)?;
    push_entry(text, b"Outputs", module.outputs)?;
    push_entry(text, b"Bidirs", module.bidirs)
}

/// Appends the setup cycles, where there are any.
fn push_setup(text: &mut Vec<u8>, setup: u64) -> Result<(), NoMemory>
    ensures { OnOk result (text.new.items ≡ text.old.items ++ spaced (setup_words setup)) }
{
    if setup == 0 {
        return Ok(());
    }
    push_entry(text, b"Setup", setup)
}

/// Appends numbers, each behind a space.
fn push_counts(text: &mut Vec<u8>, numbers: &[u64]) -> Result<(), NoMemory>
    ensures { OnOk result (text.new.items ≡ text.old.items ++ spaced (map decimal numbers.now)) }
{
    for number in numbers {
        push_count(text, *number)?;
    }
    Ok(())
}

/// Appends the lengths of scan chains, behind a colon where there are any.
fn push_lengths(text: &mut Vec<u8>, lengths: &[u64]) -> Result<(), NoMemory>
    ensures { OnOk result (text.new.items ≡ text.old.items ++ lengths_text lengths.now) }
{
    if lengths.is_empty() {
        return Ok(());
    }
    extend(text, b" :")?;
    push_counts(text, lengths)
}

/// Appends what follows `Module` on the line of a module, up to the number of its scan chains.
fn push_module_words(text: &mut Vec<u8>, module: &Module) -> Result<(), NoMemory>
    ensures { OnOk result
        (text.new.items ≡ text.old.items ++ spaced (module_words (module_value «module».now))) }
{
    push_count(text, module.number)?;
    push_name(text, &module.name)?;
    push_entry(text, b"Level", module.level)?;
    push_terminals(text, module)?;
    push_setup(text, module.setup)?;
    push_entry(text, b"ScanChains", module.chains.len() as u64)
}

/// Appends the line of a module.
fn push_module_line(text: &mut Vec<u8>, module: &Module) -> Result<(), NoMemory>
    ensures { OnOk result
        (text.new.items ≡ text.old.items ++ module_line (module_value «module».now)) }
{
    extend(text, b"Module")?;
    push_module_words(text, module)?;
    push_lengths(text, &module.chains)?;
    push(text, b'\n')
}

/// Appends the line of the number of a module's tests.
fn push_tests_line(text: &mut Vec<u8>, number: u64, tests: usize) -> Result<(), NoMemory>
    ensures { OnOk result (text.new.items ≡ text.old.items ++ tests_line number tests) }
{
    extend(text, b"Module")?;
    push_count(text, number)?;
    push_entry(text, b"TotalTests", tests as u64)?;
    push(text, b'\n')
}

/// Appends whether a test uses scan chains, and whether it uses wires. Most of a text is lines of tests, so both words go at once.
fn push_uses(text: &mut Vec<u8>, scan: bool, tam: bool) -> Result<(), NoMemory>
    ensures { OnOk result (text.new.items
        ≡ text.old.items
        ++ (spaced (codes "ScanUse" ∷ flag_word scan ∷ [])
        ++ spaced (codes "TamUse" ∷ flag_word tam ∷ []))) }
{
    match (scan, tam) {
        (true, true) => extend(text, b" ScanUse 1 TamUse 1"),
        (true, false) => extend(text, b" ScanUse 1 TamUse 0"),
        (false, true) => extend(text, b" ScanUse 0 TamUse 1"),
        (false, false) => extend(text, b" ScanUse 0 TamUse 0"),
    }
}

/// Appends the line of a test.
fn push_test_line(text: &mut Vec<u8>, number: u64, test: &Test) -> Result<(), NoMemory>
    ensures { OnOk result (text.new.items ≡ text.old.items ++ test_line number test.now) }
{
    extend(text, b"Module")?;
    push_count(text, number)?;
    push_entry(text, b"Test", test.number)?;
    push_uses(text, test.scan, test.tam)?;
    push_entry(text, b"Patterns", test.patterns)?;
    push_entry(text, b"Power", test.power)?;
    push(text, b'\n')
}

/// Appends the lines of tests.
fn push_test_lines(text: &mut Vec<u8>, number: u64, tests: &[Test]) -> Result<(), NoMemory>
    ensures { OnOk result
        (text.new.items ≡ text.old.items ++ flat_map (test_line number) tests.now) }
{
    for test in tests {
        push_test_line(text, number, test)?;
    }
    Ok(())
}

/// Appends the lines of a module and its tests.
fn push_module(text: &mut Vec<u8>, module: &Module) -> Result<(), NoMemory>
    ensures { OnOk result
        (text.new.items ≡ text.old.items ++ module_text (module_value «module».now)) }
{
    push_module_line(text, module)?;
    push_tests_line(text, module.number, module.tests.len())?;
    push_test_lines(text, module.number, &module.tests)
}

/// Appends the lines of all modules.
fn push_modules(text: &mut Vec<u8>, soc: &Soc) -> Result<(), NoMemory>
    ensures { OnOk result
        (text.new.items ≡ text.old.items ++ flat_map module_text (soc_value soc.now).modules) }
{
    for module in soc.modules.values() {
        push_module(text, module)?;
    }
    Ok(())
}

/// The text of a chip, line by line. What is printed of a sound chip is read as that chip again.
pub fn print_soc(alloc: Global, soc: &Soc) -> Result<Vec<u8>, NoMemory>
    ensures printed { IfOk result (λ text. text.items ≡ soc_text (soc_value soc.now)) }
    ensures read_back { IfOk result
        (λ text. IsSoundChip (soc_value soc.now) → SaysChip text.items (soc_value soc.now)) }
{
    let mut text = Vec::new(alloc);
    push_name_line(&mut text, &soc.name)?;
    push_total_line(&mut text, soc.modules.len())?;
    push_options_line(&mut text, soc.power_flag, soc.xy_flag)?;
    push_modules(&mut text, soc)?;
    Ok(text)
}

/// The text of every sound chip is read as that chip.
pub fn printed_chips_are_read()
    ensures { (soc : SocValue) → IsSoundChip soc → SaysChip (soc_text soc) soc }
{}
