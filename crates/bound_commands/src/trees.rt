//! What is answered of the bytes of a width tree, for a chip under limits: its bound.
ghost use Rattle.soc_model.specs.Chips.{soc_value};
ghost use Rattle.soc_model.specs.SoundChips.{IsSoundChip};
ghost use Rattle.plan_model.specs.Views.{limits_value};
ghost use Rattle.plan_model.specs.SoundLimits.{IsSoundLimits};
ghost use Rattle.commands.specs.Decides.{AnswersBytes};
ghost use Rattle.bound_commands.specs.TreeReadings.{RefusesTree, SaysAcceptedTree};
ghost use Rattle.bound_commands.specs.TreeTexts.{bound_line as bound_text};

use crate::tree_lines::{bound_line, tree_fault_line, tree_line};
use commands::{Status, Verdict, answered_with, refused_with};
use plan_model::Limits;
use soc_model::Soc;
use std::alloc::Global;
use width_tree::{TreeRoom, TreeTextFault, check_tree, read_tree};

/// What is answered of a tree's bytes, for a chip under limits.
pub(crate) fn answer_tree(alloc: Global, soc: &Soc, limits: &Limits, bytes: &[u8]) -> Verdict
    requires chip { IsSoundChip (soc_value soc.now) }
    requires limits { IsSoundLimits (soc_value soc.now) (limits_value limits.now) }
    ensures { AnswersBytes (SaysAcceptedTree (soc_value soc.now) (limits_value limits.now))
        (RefusesTree (soc_value soc.now) (limits_value limits.now)) bound_text bytes.now result }
{
    let tree = match read_tree(alloc, bytes) {
        Ok(tree) => tree,
        Err(TreeTextFault::Text { line }) => return refused_with(tree_line(alloc, line)),
        Err(TreeTextFault::NoMemory) => return Verdict::NoMemory,
    };
    let Ok(mut room) = TreeRoom::new(alloc, soc, &tree) else {
        return Verdict::NoMemory;
    };
    match check_tree(soc, limits, &tree, &mut room) {
        Ok(()) => answered_with(Status::Done, bound_line(alloc, &tree)),
        Err(fault) => refused_with(tree_fault_line(alloc, fault)),
    }
}
