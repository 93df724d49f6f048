//! What a text says is settled. Each law is the contract of a function that does nothing: a caller learns it by the call.
ghost use Rattle.plan_text.specs.Laws.{SayOnePlan, PlansAreNotRefused, RefusedOnce};
ghost use Rattle.plan_text.specs.Laws.{PrintedPlansAreRead, PlansAreAnswered, PrintedPlansAreAnswered, EachTextHasAnAnswer};

use crate::reading::PlanText;
use keyword_text::texts_are_settled;

/// A text says at most one plan.
pub fn say_one_plan()
    ensures { SayOnePlan }
{
    texts_are_settled::<PlanText>()
}

/// A text that says a plan is refused at no line.
pub fn plans_are_not_refused()
    ensures { PlansAreNotRefused }
{
    texts_are_settled::<PlanText>()
}

/// A text is refused at no more than one line.
pub fn refused_once()
    ensures { RefusedOnce }
{
    texts_are_settled::<PlanText>()
}

/// The printed text of a plan in the grammar's range says that plan.
pub fn printed_plans_are_read()
    ensures { PrintedPlansAreRead }
{}

/// A text that says a plan is answered with that plan, unless memory runs out.
pub fn plans_are_answered()
    ensures { PlansAreAnswered }
{}

/// The printed text of a plan in the grammar's range is answered with that plan, unless memory runs out.
pub fn printed_plans_are_answered()
    ensures { PrintedPlansAreAnswered }
{}

/// Each text says a plan in the grammar's range, or is refused at a line.
pub fn each_text_has_an_answer()
    ensures { EachTextHasAnAnswer }
{}
