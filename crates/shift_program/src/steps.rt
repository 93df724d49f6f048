//! Reads the words of a program one by one.
ghost use Rattle.std.specs.Prelude.{◌≡◌, OnOk, OnErr};
ghost use Rattle.shift_program.specs.PartValues.{draft_value, Begins, Steps};
ghost use Rattle.shift_program.specs.Steps.{at, start as state_at_first, begin as begins, begin_program as begins_program, begin_test as begins_test, with_entry, step_key as steps_key, step_number as steps_number, step as steps};

use crate::Entry;
use crate::tokens::Keyword;
use keyword_text::Token;
use outside::Stop;
use soc_model::TestId;
use std::alloc::Global;

/// What was read of a program whole: its test and its entries so far.
#[derive(Drop)]
pub struct Draft {
    pub test: TestId,
    pub entries: Vec<Entry>,
}

/// What was read of the part that comes next.
#[derive(Clone, Copy)]
pub enum Part {
    /// Nothing: the word `Program` comes.
    WantsProgram,
    /// The word `Program`: its number 1 comes.
    WantsForm,
    /// The word `Test` comes.
    WantsTestWord,
    /// The word `Test`: the number of its module comes.
    WantsModule,
    /// The module of the test: the test's own number comes.
    WantsTest { module: u64 },
    /// The test, and whole entries.
    AfterEntry,
    /// The word `Rest`, or else `Shift`: its cycles come.
    WantsCycles { shifts: bool },
    /// The word `Capture`: its pattern comes.
    WantsPattern,
}

/// A draft of which nothing was read.
pub fn new_draft(alloc: Global) -> Draft
    ensures { at (draft_value result) Part.WantsProgram ≡ state_at_first }
{
    Draft {
        test: TestId { module: 0, test: 0 },
        entries: Vec::new(alloc),
    }
}

fn push_entry(draft: &mut Draft, entry: Entry) -> Result<(), Stop>
    ensures ok { OnOk result (draft_value draft.new ≡ with_entry (draft_value draft.old) entry) }
    ensures err { OnErr result (result ≡ Err Stop.NoMemory) }
{
    draft.entries.push(entry)?;
    Ok(())
}

/// What a keyword begins behind whole entries.
fn begin_part(key: Keyword) -> Result<Part, Stop>
    ensures { Begins (begins key) result }
{
    match key {
        Keyword::Rest => Ok(Part::WantsCycles { shifts: false }),
        Keyword::Shift => Ok(Part::WantsCycles { shifts: true }),
        Keyword::Capture => Ok(Part::WantsPattern),
        _ => Err(Stop::Refused),
    }
}

fn begin_program(key: Keyword) -> Result<Part, Stop>
    ensures { Begins (begins_program key) result }
{
    match key {
        Keyword::Program => Ok(Part::WantsForm),
        _ => Err(Stop::Refused),
    }
}

fn begin_test(key: Keyword) -> Result<Part, Stop>
    ensures { Begins (begins_test key) result }
{
    match key {
        Keyword::Test => Ok(Part::WantsModule),
        _ => Err(Stop::Refused),
    }
}

/// A keyword as the next word.
fn step_key(draft: &mut Draft, part: Part, key: Keyword) -> Result<Part, Stop>
    ensures { Steps (steps_key (draft_value draft.old) part key) result draft.new }
{
    match part {
        Part::WantsProgram => begin_program(key),
        Part::WantsTestWord => begin_test(key),
        Part::AfterEntry => begin_part(key),
        Part::WantsForm
        | Part::WantsModule
        | Part::WantsTest { .. }
        | Part::WantsCycles { .. }
        | Part::WantsPattern => Err(Stop::Refused),
    }
}

/// The number of a program's form, which is 1.
fn step_form(draft: &mut Draft, n: u64) -> Result<Part, Stop>
    ensures { Steps (steps_number (draft_value draft.old) Part.WantsForm n) result draft.new }
{
    if n == 1 {
        Ok(Part::WantsTestWord)
    } else {
        Err(Stop::Refused)
    }
}

/// The cycles of a Rest or of Shifts, at least one.
fn step_cycles(draft: &mut Draft, shifts: bool, n: u64) -> Result<Part, Stop>
    ensures { Steps (steps_number (draft_value draft.old) (Part.WantsCycles shifts) n) result
        draft.new }
{
    if n < 1 {
        return Err(Stop::Refused);
    }
    let entry = if shifts {
        Entry::Shift { cycles: n }
    } else {
        Entry::Rest { cycles: n }
    };
    push_entry(draft, entry)?;
    Ok(Part::AfterEntry)
}

/// A number as the next word.
fn step_number(draft: &mut Draft, part: Part, n: u64) -> Result<Part, Stop>
    ensures { Steps (steps_number (draft_value draft.old) part n) result draft.new }
{
    match part {
        Part::WantsForm => step_form(draft, n),
        Part::WantsModule => Ok(Part::WantsTest { module: n }),
        Part::WantsTest { module } => {
            draft.test = TestId { module, test: n };
            Ok(Part::AfterEntry)
        }
        Part::WantsCycles { shifts } => step_cycles(draft, shifts, n),
        Part::WantsPattern => {
            push_entry(draft, Entry::Capture { pattern: n })?;
            Ok(Part::AfterEntry)
        }
        Part::WantsProgram | Part::WantsTestWord | Part::AfterEntry => Err(Stop::Refused),
    }
}

/// The next word.
pub fn take_token(draft: &mut Draft, part: Part, token: Token<Keyword>) -> Result<Part, Stop>
    ensures { Steps (steps (at (draft_value draft.old) part) token) result draft.new }
{
    match token {
        Token::Key(key) => step_key(draft, part, key),
        Token::Number(n) => step_number(draft, part, n),
    }
}
