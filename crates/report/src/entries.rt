//! Names with numbers, of which all lines are made.
ghost use Rattle.std.specs.Prelude.{◌≡◌, ◌++◌, decimal, OnOk};

use outside::{NoMemory, extend, push_number};

/// Appends a name and a number.
pub fn push_entry(text: &mut Vec<u8>, name: &[u8], number: u64) -> Result<(), NoMemory>
    ensures { OnOk result (text.new.items ≡ text.old.items ++ name.now ++ decimal number) }
{
    extend(text, name)?;
    push_number(text, u128::from(number))
}
