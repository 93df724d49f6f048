//! Reads a fail log.
ghost use Rattle.fail_locate.specs.LogAnswers.{LogRead};
ghost use Rattle.fail_locate.specs.LogReads.{state_of, after};
ghost use Rattle.keyword_text.specs.Reads.{Makes};
ghost use Rattle.keyword_text.specs.declared.tokens.Token.TheVariants.{Number};

use crate::LogFault;
use crate::tokens::{KEYWORDS, Keyword};
use keyword_text::{Format, Spelled, Token, read_by};
use outside::{Stop, Unread, push};
use plan_model::PLAN_NUMBER_MOST;
use std::alloc::Global;

/// What was read of a log so far.
#[derive(Drop)]
pub enum LogText {
    /// Nothing.
    Empty { alloc: Global },
    /// The word `Log`.
    Titled { alloc: Global },
    /// Some fails, each with its cycle and its wire.
    Between { fails: Vec<(u64, u64)> },
    /// These, and the word `Fail`.
    Begun { fails: Vec<(u64, u64)> },
    /// These, and the word `Fail` with a cycle.
    Timed { fails: Vec<(u64, u64)>, cycle: u64 },
}

/// The fails and one more.
fn with_fail(fails: Vec<(u64, u64)>, cycle: u64, wire: u64) -> Result<LogText, Stop>
    ensures { Makes state_of (after (state_of (LogText.Timed fails cycle)) (Number wire)) result }
{
    let mut fails = fails;
    push(&mut fails, (cycle, wire))?;
    Ok(LogText::Between { fails })
}

/// What is read with one more word.
fn next_text(text: LogText, token: Token<Keyword>) -> Result<LogText, Stop>
    ensures { Makes state_of (after (state_of text) token) result }
{
    match text {
        LogText::Empty { alloc } => match token {
            Token::Key(Keyword::Log) => Ok(LogText::Titled { alloc }),
            _ => Err(Stop::Refused),
        },
        LogText::Titled { alloc } => match token {
            Token::Number(1) => Ok(LogText::Between {
                fails: Vec::new(alloc),
            }),
            _ => Err(Stop::Refused),
        },
        LogText::Between { fails } => match token {
            Token::Key(Keyword::Fail) => Ok(LogText::Begun { fails }),
            _ => Err(Stop::Refused),
        },
        LogText::Begun { fails } => match token {
            Token::Number(cycle) => Ok(LogText::Timed { fails, cycle }),
            _ => Err(Stop::Refused),
        },
        LogText::Timed { fails, cycle } => match token {
            Token::Number(wire) => with_fail(fails, cycle, wire),
            _ => Err(Stop::Refused),
        },
    }
}

impl Format for LogText {
    type Keyword = Keyword;

    type Value = Vec<(u64, u64)>;

    type Fault = LogFault;

    ghost use Rattle.std.specs.Prelude.{List, ℕ};
    ghost use Rattle.fail_locate.specs.LogAnswers.{fails_value, log_unread};
    ghost use Rattle.fail_locate.specs.LogWords.{log_grammar};
    ghost use Rattle.fail_locate.specs.LogReads.{State, log_machine, state_of};

    ghost State = { State };

    ghost Meaning = { List (ℕ × ℕ) };

    ghost grammar = { log_grammar };

    ghost machine = { log_machine };

    ghost state_of = { state_of };

    ghost meaning_of = { fails_value };

    ghost unread_of = { log_unread };

    fn keywords() -> &'static [Spelled<Keyword>] {
        &KEYWORDS
    }

    fn most() -> u64 {
        PLAN_NUMBER_MOST
    }

    fn step(self, token: Token<Keyword>) -> Result<LogText, Stop>
        ensures { Makes state_of (after (state_of self) token) result }
    {
        next_text(self, token)
    }

    fn end(self) -> Result<Vec<(u64, u64)>, Stop> {
        match self {
            LogText::Between { fails } => Ok(fails),
            _ => Err(Stop::Refused),
        }
    }

    fn fault(unread: Unread) -> LogFault {
        match unread {
            Unread::Refused { line } => LogFault::Text { line },
            Unread::NoMemory => LogFault::NoMemory,
        }
    }
}

/// The fails of a log, the cycle and the wire of each, in their order.
///
/// `Text` comes exactly where the text is no log, with the line of the first word with which no log begins so, or with the
/// last line where it ends too early.
pub fn read_log(alloc: Global, bytes: &[u8]) -> Result<Vec<(u64, u64)>, LogFault>
    ensures { LogRead bytes.now result }
{
    read_by(LogText::Empty { alloc }, bytes)
}
