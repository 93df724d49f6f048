//! What is right in the answers to a plan that is accepted. It is the contract of a function that does nothing: a caller learns it by the
//! call.
ghost use Rattle.plan_commands.specs.Laws.{PlanLaws};

use fail_locate::spots_are_reads;
use report::good_plans_report_right;
use shift_program::{
    faultless_programs_are_right, program_faults_are_exact, program_texts_have_one_answer,
};

/// What counting back finds at a cycle on a wire is what the run of a good plan reads there. A text says at most one program, which has
/// no fault where it is right, and at most one that shows first. The report of a good plan shows what its tests draw, use and wait for.
pub fn plans_are_told_right()
    ensures { PlanLaws }
{
    spots_are_reads();
    faultless_programs_are_right();
    program_faults_are_exact();
    program_texts_have_one_answer();
    good_plans_report_right();
}
