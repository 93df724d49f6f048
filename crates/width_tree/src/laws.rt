//! What a text says is settled, and what a tree shows. Each law is the contract of a function that does nothing: a caller
//! learns it by the call.
ghost use Rattle.keyword_text.specs.Laws.{SayOne, AreNotRefused, AreRefusedOnce, HaveAnswers, AreAnswered};
ghost use Rattle.width_tree.specs.Trees.{tree_value};
ghost use Rattle.width_tree.specs.TreeText.{tree_grammar};
ghost use Rattle.width_tree.specs.Answers.{tree_unread};
ghost use Rattle.width_tree.specs.Laws.{NodesTellTheTree, AcceptedTreesAreBounds, TreesHaveOneFault, AcceptedTreesHaveNoFault};

use crate::reading::TreeReading;
use keyword_text::texts_are_settled;

/// A text says at most one tree.
pub fn say_one_tree()
    ensures { SayOne tree_grammar }
{
    texts_are_settled::<TreeReading>()
}

/// A text that says a tree is refused at no line.
pub fn trees_are_not_refused()
    ensures { AreNotRefused tree_grammar }
{
    texts_are_settled::<TreeReading>()
}

/// A text is refused at no more than one line.
pub fn refused_once()
    ensures { AreRefusedOnce tree_grammar }
{
    texts_are_settled::<TreeReading>()
}

/// A text that says a tree is answered with that tree, unless memory runs out.
pub fn trees_are_answered()
    ensures { AreAnswered tree_grammar tree_value tree_unread }
{
    texts_are_settled::<TreeReading>()
}

/// Each text says a tree, or is refused at a line.
pub fn each_text_has_an_answer()
    ensures { HaveAnswers tree_grammar }
{
    texts_are_settled::<TreeReading>()
}

/// A list of nodes is that of at most one tree.
pub fn nodes_tell_the_tree()
    ensures { NodesTellTheTree }
{}

/// No good plan has fewer cycles than an accepted tree claims.
pub fn accepted_trees_are_bounds()
    ensures { AcceptedTreesAreBounds }
{}

/// A tree has at most one fault.
pub fn trees_have_one_fault()
    ensures { TreesHaveOneFault }
{}

/// An accepted tree has no fault.
pub fn accepted_trees_have_no_fault()
    ensures { AcceptedTreesHaveNoFault }
{}
