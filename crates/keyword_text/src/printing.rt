//! Prints the numbers of lines.
ghost use Rattle.std.specs.Prelude.{◌≡◌, ◌++◌, true, OnOk};
ghost use Rattle.keyword_text.specs.Lines.{spaced_numbers, listed_text};

use outside::{NoMemory, extend, push_spaced};

/// Appends numbers, each with a space before it.
pub fn push_numbers(to: &mut Vec<u8>, numbers: &[u64]) -> Result<(), NoMemory>
    ensures { OnOk result (to.new.items ≡ to.old.items ++ spaced_numbers numbers.now) }
{
    for n in numbers {
        push_spaced(to, *n)?;
    }
    Ok(())
}

/// Appends a list of numbers, each with a space before it, and a space and a colon before the list where it isn't empty.
pub fn push_listed(to: &mut Vec<u8>, numbers: &[u64]) -> Result<(), NoMemory>
    ensures { OnOk result (to.new.items ≡ to.old.items ++ listed_text true numbers.now) }
{
    if numbers.is_empty() {
        return Ok(());
    }
    extend(to, b" :")?;
    push_numbers(to, numbers)
}
