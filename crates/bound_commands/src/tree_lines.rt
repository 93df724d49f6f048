//! The lines that are written of width trees.
ghost use Rattle.std.specs.Prelude.{◌≡◌, IfOk, IsTrue};
ghost use Rattle.width_tree.specs.Trees.{tree_value};
ghost use Rattle.commands.specs.Texts.{is_line};
ghost use Rattle.bound_commands.specs.TreeTexts.{bound_line as bound_text, tree_line as tree_line_text, tree_fault_line as tree_fault_text};

use commands::{less_line, number_line};
use outside::NoMemory;
use std::alloc::Global;
use width_tree::{Tree, TreeFault};

/// `bound` and the cycles that a tree claims.
pub(crate) fn bound_line(alloc: Global, tree: &Tree) -> Result<Vec<u8>, NoMemory>
    ensures text { IfOk result (λ text. text.items ≡ bound_text (tree_value tree.now)) }
{
    number_line(alloc, b"bound ", u128::from(tree.claimed))
}

/// `refused tree line` and the line.
pub(crate) fn tree_line(alloc: Global, line: u64) -> Result<Vec<u8>, NoMemory>
    ensures text { IfOk result (λ text. text.items ≡ tree_line_text line) }
    ensures line { IfOk result (λ text. IsTrue (is_line text.items)) }
{
    number_line(alloc, b"refused tree line ", u128::from(line))
}

/// `refused tree` and the fault.
pub(crate) fn tree_fault_line(alloc: Global, fault: TreeFault) -> Result<Vec<u8>, NoMemory>
    ensures text { IfOk result (λ text. text.items ≡ tree_fault_text fault) }
    ensures line { IfOk result (λ text. IsTrue (is_line text.items)) }
{
    match fault {
        TreeFault::BadNode { place } => number_line(alloc, b"refused tree node ", place as u128),
        TreeFault::Less {
            place,
            claimed,
            shown,
        } => less_line(alloc, b"refused tree less ", place, claimed, shown),
    }
}
