//! Ranges, numbers, and texts that stand where there is something that they speak of.
ghost use Rattle.std.specs.Prelude.{◌≡◌, ◌+◌, ◌≤◌, ◌++◌, OnOk, IfOk, length};
ghost use Rattle.tester_forms.specs.Pieces.{where_some};
ghost use Rattle.tester_forms.specs.VerilogText.{declared, range, size_mark, where_none};

use outside::{NoMemory, extend, push_number};

/// Appends a text, where there is something that it speaks of.
pub fn push_where_some(text: &mut Vec<u8>, count: usize, piece: &[u8]) -> Result<(), NoMemory>
    ensures { OnOk result (text.new.items ≡ text.old.items ++ where_some count piece.now) }
{
    if count == 0 {
        return Ok(());
    }
    extend(text, piece)
}

/// Appends a text, where there are neither wires nor controls.
pub fn push_where_none(
    text: &mut Vec<u8>,
    wires: usize,
    controls: usize,
    piece: &[u8],
) -> Result<(), NoMemory>
    ensures { OnOk result (text.new.items ≡ text.old.items ++ where_none wires controls piece.now) }
{
    if wires > 0 {
        return Ok(());
    }
    if controls > 0 {
        return Ok(());
    }
    extend(text, piece)
}

/// Appends the range of so many bits.
#[tactic(auto, unfolding(crate::specs::VerilogText::range))]
fn push_range(text: &mut Vec<u8>, count: usize) -> Result<(), NoMemory>
    ensures { OnOk result (text.new.items ≡ text.old.items ++ range count) }
{
    extend(text, b"[0:")?;
    push_number(text, count.saturating_sub(1) as u128)?;
    extend(text, b"]")
}

/// Appends a declaration of so many bits: what stands before the range, the range, and what stands behind it.
pub fn push_declared(
    text: &mut Vec<u8>,
    before: &[u8],
    count: usize,
    behind: &[u8],
) -> Result<(), NoMemory>
    ensures { OnOk result
        (text.new.items ≡ text.old.items ++ declared before.now count behind.now) }
{
    extend(text, before)?;
    push_range(text, count)?;
    extend(text, behind)
}

/// Appends what stands before the bits of a number of so many bits.
pub fn push_size(text: &mut Vec<u8>, count: usize) -> Result<(), NoMemory>
    ensures { OnOk result (text.new.items ≡ text.old.items ++ size_mark count) }
{
    push_number(text, count as u128)?;
    extend(text, b"'b")
}
