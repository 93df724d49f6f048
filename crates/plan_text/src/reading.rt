//! Reads a whole text.
ghost use Rattle.plan_text.specs.Answers.{PlanRead};
ghost use Rattle.plan_text.specs.Steps.{step as step_value};
ghost use Rattle.plan_text.specs.Reads.{state_of};
ghost use Rattle.keyword_text.specs.Reads.{Makes};

use crate::PlanTextFault;
use crate::parts::{Part, ReadSoFar};
use crate::steps::{bound_at, new_draft, take_token};
use crate::tokens::{KEYWORDS, Keyword};
use keyword_text::{Format, Spelled, Token, read_by};
use outside::{Stop, Unread};
use plan_model::{PLAN_NUMBER_MOST, Plan};
use std::alloc::Global;

/// What was read of a plan's text so far. It stands in a box, so that no more than a pointer moves from word to word.
#[derive(Drop)]
pub struct PlanText {
    alloc: Global,
    read: Box<ReadSoFar>,
}

impl Format for PlanText {
    type Keyword = Keyword;

    type Value = Plan;

    type Fault = PlanTextFault;

    ghost use Rattle.plan_model.specs.Plans.{PlanValue};
    ghost use Rattle.plan_model.specs.Views.{plan_value};
    ghost use Rattle.plan_text.specs.Grammar.{plan_grammar};
    ghost use Rattle.plan_text.specs.Steps.{State, plan_machine};
    ghost use Rattle.plan_text.specs.Answers.{plan_unread};

    ghost State = { State };

    ghost Meaning = { PlanValue };

    ghost grammar = { plan_grammar };

    ghost machine = { plan_machine };

    ghost state_of = { state_of };

    ghost meaning_of = { plan_value };

    ghost unread_of = { plan_unread };

    fn keywords() -> &'static [Spelled<Keyword>] {
        &KEYWORDS
    }

    fn most() -> u64 {
        PLAN_NUMBER_MOST
    }

    fn step(self, token: Token<Keyword>) -> Result<PlanText, Stop>
        ensures { Makes state_of (step_value (state_of self) token) result }
    {
        let PlanText { alloc, mut read } = self;
        let so_far = &mut *read;
        match take_token(alloc, &mut so_far.draft, &mut so_far.part, token) {
            Ok(()) => Ok(PlanText { alloc, read }),
            Err(stop) => Err(stop),
        }
    }

    fn end(self) -> Result<Plan, Stop> {
        let ReadSoFar { draft, part } = Box::into_inner(self.read);
        match bound_at(part) {
            Some(bound) => Ok(Plan {
                buses: draft.buses,
                wrappers: draft.wrappers,
                starts: draft.starts,
                cycles: draft.cycles,
                bound,
            }),
            None => Err(Stop::Refused),
        }
    }

    fn fault(unread: Unread) -> PlanTextFault {
        match unread {
            Unread::Refused { line } => PlanTextFault::Text { line },
            Unread::NoMemory => PlanTextFault::NoMemory,
        }
    }
}

/// The plan that a text says, with all its numbers in the grammar's range.
///
/// A text is refused exactly where it says none, at the line of the first word with which no plan's text begins so, or
/// at its last line where it ends too early.
pub fn read_plan(alloc: Global, bytes: &[u8]) -> Result<Plan, PlanTextFault>
    ensures { PlanRead bytes.now result }
{
    let nothing = ReadSoFar {
        draft: new_draft(alloc),
        part: Part::WantsPlan,
    };
    let read = match Box::new(alloc, nothing) {
        Ok(read) => read,
        Err(failed) => {
            // dropped by a call: the end of the scope would drop each of its parts, and be proved for each
            drop(failed);
            return Err(PlanTextFault::NoMemory);
        }
    };
    match read_by(PlanText { alloc, read }, bytes) {
        Ok(plan) => Ok(plan),
        Err(fault) => Err(fault),
    }
}
