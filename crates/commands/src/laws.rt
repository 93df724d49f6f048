//! Laws for all commands. Each is the contract of a function that does nothing: a caller learns it by the call.
ghost use Rattle.commands.specs.Settled.{FilesSayOneThing};
ghost use Rattle.commands.specs.Trusted.{TrustLaws};

use limits_text::texts_have_one_answer;
use plan_model::{certificates_are_bounds, faults_are_exact, good_plans_run_right};
use plan_text::{plans_are_not_refused, refused_once, say_one_plan};

/// A text says at most one chip, limits for a chip, or plan that is accepted for both, and is refused in no more than one
/// line, and only where it says none.
pub fn files_say_one_thing()
    ensures { FilesSayOneThing }
{
    texts_have_one_answer();
    say_one_plan();
    plans_are_not_refused();
    refused_once();
    faults_are_exact();
}

/// A good plan runs right for every content, and no good plan of a chip under limits ends before the cycles of a certificate that
/// is accepted for both.
pub fn plans_are_trustworthy()
    ensures { TrustLaws }
{
    good_plans_run_right();
    certificates_are_bounds();
}
