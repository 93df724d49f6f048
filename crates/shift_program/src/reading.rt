//! Reads a whole text.
ghost use Rattle.keyword_text.specs.Reads.{Makes};
ghost use Rattle.shift_program.specs.Answers.{ProgramRead};
ghost use Rattle.shift_program.specs.Reads.{state_of};
ghost use Rattle.shift_program.specs.Steps.{step as step_value};

use crate::steps::{Draft, Part, new_draft, take_token};
use crate::tokens::{KEYWORDS, Keyword};
use crate::{Program, ProgramTextFault};
use keyword_text::{Format, Spelled, Token, read_by};
use outside::{Stop, Unread};
use plan_model::PLAN_NUMBER_MOST;
use std::alloc::Global;

/// What was read of a program's text so far.
#[derive(Drop)]
pub struct ProgramText {
    draft: Draft,
    part: Part,
}

impl Format for ProgramText {
    type Keyword = Keyword;

    type Value = Program;

    type Fault = ProgramTextFault;

    ghost use Rattle.shift_program.specs.Programs.{ProgramValue, program_value};
    ghost use Rattle.shift_program.specs.Grammar.{program_grammar};
    ghost use Rattle.shift_program.specs.Steps.{State, program_machine};
    ghost use Rattle.shift_program.specs.Answers.{program_unread};

    ghost State = { State };

    ghost Meaning = { ProgramValue };

    ghost grammar = { program_grammar };

    ghost machine = { program_machine };

    ghost state_of = { state_of };

    ghost meaning_of = { program_value };

    ghost unread_of = { program_unread };

    fn keywords() -> &'static [Spelled<Keyword>] {
        &KEYWORDS
    }

    fn most() -> u64 {
        PLAN_NUMBER_MOST
    }

    fn step(self, token: Token<Keyword>) -> Result<ProgramText, Stop>
        ensures { Makes state_of (step_value (state_of self) token) result }
    {
        let ProgramText { mut draft, part } = self;
        match take_token(&mut draft, part, token) {
            Ok(part) => Ok(ProgramText { draft, part }),
            Err(stop) => Err(stop),
        }
    }

    fn end(self) -> Result<Program, Stop> {
        let ProgramText { draft, part } = self;
        match part {
            Part::AfterEntry => Ok(Program {
                test: draft.test,
                entries: draft.entries,
            }),
            _ => Err(Stop::Refused),
        }
    }

    fn fault(unread: Unread) -> ProgramTextFault {
        match unread {
            Unread::Refused { line } => ProgramTextFault::Text { line },
            Unread::NoMemory => ProgramTextFault::NoMemory,
        }
    }
}

/// The program that a text says. Its Rests and Shifts have at least one cycle, and all its numbers are in the grammar's
/// range.
///
/// A text is refused exactly where it says none, at the line of the first word with which no program's text begins so, or
/// at its last line where it ends too early.
pub fn read_program(alloc: Global, bytes: &[u8]) -> Result<Program, ProgramTextFault>
    ensures { ProgramRead bytes.now result }
{
    let start = ProgramText {
        draft: new_draft(alloc),
        part: Part::WantsProgram,
    };
    match read_by(start, bytes) {
        Ok(program) => Ok(program),
        Err(fault) => Err(fault),
    }
}
