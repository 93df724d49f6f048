//! Reads a whole text.
ghost use Rattle.keyword_text.specs.Reads.{Makes};
ghost use Rattle.width_tree.specs.Answers.{TreeRead};
ghost use Rattle.width_tree.specs.Reads.{state_of};
ghost use Rattle.width_tree.specs.Steps.{step as step_value};

use crate::parts::{Draft, Part};
use crate::steps::{end_tree, new_draft, take_token};
use crate::tokens::{KEYWORDS, Keyword};
use crate::{Tree, TreeTextFault};
use keyword_text::{Format, Spelled, Token, read_by};
use outside::{Stop, Unread};
use plan_model::PLAN_NUMBER_MOST;
use std::alloc::Global;

/// What was read of a tree's text so far.
#[derive(Drop)]
pub struct TreeReading {
    alloc: Global,
    draft: Draft,
    part: Part,
}

impl Format for TreeReading {
    type Keyword = Keyword;

    type Value = Tree;

    type Fault = TreeTextFault;

    ghost use Rattle.width_tree.specs.Trees.{TreeValue, tree_value};
    ghost use Rattle.width_tree.specs.TreeText.{tree_grammar};
    ghost use Rattle.width_tree.specs.Steps.{State, tree_machine};
    ghost use Rattle.width_tree.specs.Answers.{tree_unread};

    ghost State = { State };

    ghost Meaning = { TreeValue };

    ghost grammar = { tree_grammar };

    ghost machine = { tree_machine };

    ghost state_of = { state_of };

    ghost meaning_of = { tree_value };

    ghost unread_of = { tree_unread };

    fn keywords() -> &'static [Spelled<Keyword>] {
        &KEYWORDS
    }

    fn most() -> u64 {
        PLAN_NUMBER_MOST
    }

    fn step(self, token: Token<Keyword>) -> Result<TreeReading, Stop>
        ensures { Makes state_of (step_value (state_of self) token) result }
    {
        let TreeReading {
            alloc,
            mut draft,
            part,
        } = self;
        match take_token(alloc, &mut draft, part, token) {
            Ok(part) => Ok(TreeReading { alloc, draft, part }),
            Err(stop) => Err(stop),
        }
    }

    fn end(self) -> Result<Tree, Stop> {
        let TreeReading { draft, part, .. } = self;
        end_tree(draft, part)
    }

    fn fault(unread: Unread) -> TreeTextFault {
        match unread {
            Unread::Refused { line } => TreeTextFault::Text { line },
            Unread::NoMemory => TreeTextFault::NoMemory,
        }
    }
}

/// The tree that a text says: its claim, and its nodes in the order of the text, which are exactly one node with its
/// branches.
///
/// A text is refused exactly where it says none, at the line of the first word with which no tree's text begins so, or
/// at its last line where it ends too early. However deep the branches are, nothing recurses over them.
pub fn read_tree(alloc: Global, bytes: &[u8]) -> Result<Tree, TreeTextFault>
    ensures { TreeRead bytes.now result }
{
    let start = TreeReading {
        alloc,
        draft: new_draft(alloc),
        part: Part::WantsTree,
    };
    read_by(start, bytes)
}
