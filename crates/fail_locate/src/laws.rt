//! What a log says, and what is read at a cycle on a wire, is settled. Each law is the contract of a function that does
//! nothing: a caller learns it by the call.
ghost use Rattle.fail_locate.specs.Laws.{SpotsAreOne, SpotsAreReads};
ghost use Rattle.fail_locate.specs.LogWords.{log_grammar};
ghost use Rattle.keyword_text.specs.Laws.{SayOne, AreNotRefused, AreRefusedOnce, HaveAnswers};

use crate::log::LogText;
use keyword_text::texts_are_settled;

/// A text says the fails of at most one log.
pub fn say_one_log()
    ensures { SayOne log_grammar }
{
    texts_are_settled::<LogText>()
}

/// A text that is a log is refused at no line.
pub fn logs_are_not_refused()
    ensures { AreNotRefused log_grammar }
{
    texts_are_settled::<LogText>()
}

/// A text is refused at no more than one line.
pub fn logs_refused_once()
    ensures { AreRefusedOnce log_grammar }
{
    texts_are_settled::<LogText>()
}

/// Each text is a log, or is refused at a line.
pub fn each_log_has_an_answer()
    ensures { HaveAnswers log_grammar }
{
    texts_are_settled::<LogText>()
}

/// A good plan shows at most one response bit at a cycle on a wire.
pub fn spots_are_one()
    ensures { SpotsAreOne }
{}

/// The spot that counting back finds at a cycle on a wire, by which the lines of a log are answered, is the response bit that the
/// run of a good plan reads there, for every content: the test, the pattern and the cell exactly where the run shows that
/// bit, and none exactly where it reads nothing.
pub fn spots_are_reads()
    ensures { SpotsAreReads }
{}
