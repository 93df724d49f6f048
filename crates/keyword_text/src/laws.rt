//! What a text of a format says is settled.
ghost use Rattle.keyword_text.specs.Machines.{ReadsGrammar};
ghost use Rattle.keyword_text.specs.Laws.{SayOne, AreNotRefused, AreRefusedOnce, HaveAnswers, AreAnswered};

use crate::format::Format;

/// Words say at most one value; those that say one are refused at no line, and no words at more than one; each text says a value, or is
/// refused at a line; and one that says a value is answered with it, unless memory runs out.
///
/// It does nothing: a caller learns these laws by the call.
pub fn texts_are_settled<F: Format>()
    requires { ReadsGrammar F.grammar F.machine }
    ensures say_one { SayOne F.grammar }
    ensures not_refused { AreNotRefused F.grammar }
    ensures refused_once { AreRefusedOnce F.grammar }
    ensures have_answers { HaveAnswers F.grammar }
    ensures are_answered { AreAnswered F.grammar F.meaning_of F.unread_of }
{}
