//! How far a search is, reported line by line as it goes.
ghost use Rattle.std.specs.Prelude.{◌≡◌, ◌≤◌, ◌<◌, ℕ, OnOk, Bool, length};
ghost use Rattle.outside.specs.Puts.{Puts};
ghost use Rattle.commands.specs.Progress.{MayAdd, reported_line};

use outside::{NoMemory, Put, Sink, WriteFault, extend, push_number, put_all};
use std::alloc::Global;

/// How often a long search reports.
pub const REPORTS: u64 = 10;

/// Room for a line, in bytes: two numbers and two words.
const LINE_ROOM: usize = 64;

/// Room for a line.
pub fn line_room(alloc: Global) -> Result<Vec<u8>, NoMemory> {
    Ok(Vec::with_capacity(alloc, LINE_ROOM)?)
}

/// A sink that takes all that is put and keeps nothing of it, for a caller that wants no reports. It meets no fault.
#[derive(Drop)]
pub struct Unheard;

impl Sink for Unheard {
    ghost use Rattle.std.specs.Prelude.{None};

    ghost written = { λ _. None };

    ghost faults = { λ _. 0 };

    ghost is_put = { λ before piece answer after. Unit {0} };

    /// The whole piece is taken.
    fn put(&mut self, piece: &[u8]) -> Put
        // The promises of every sink, where it says nothing of what was written.
        ensures within_piece { (n : ℕ) → result ≡ Put.Taken n → n ≤ length piece.now }
        ensures progress { (n : ℕ) → result ≡ Put.Taken n → 0 < length piece.now → 0 < n }

        // What this one adds.
        ensures whole { result ≡ Put.Taken (length piece.now) }
    {
        Put::Taken(piece.len())
    }
}

/// Writes a line of two numbers, each behind its words.
#[tactic(auto, unfolding(crate::specs::Progress::reported_line))]
fn write_line(
    line: &mut Vec<u8>,
    first: &[u8],
    done: u64,
    second: &[u8],
    best: u64,
) -> Result<(), NoMemory>
    ensures { OnOk result (line.new.items ≡ reported_line first.now done second.now best) }
{
    line.clear();
    extend(line, first)?;
    push_number(line, u128::from(done))?;
    extend(line, second)?;
    push_number(line, u128::from(best))?;
    extend(line, b"\n")
}

/// Reports how much is done and the best so far, each behind its words: a front of their line, or nothing where there is no
/// room for it. Where that fails, nothing comes of it.
#[tactic(auto, using(crate::proofs::Reporting::all_is_front))]
pub fn report_line<T: Sink>(
    progress: &mut T,
    line: &mut Vec<u8>,
    first: &[u8],
    done: u64,
    second: &[u8],
    best: u64,
)
    ensures faults { T.faults progress.old ≤ T.faults progress.new }
    ensures puts { (failed : Bool) × Puts T.is_put progress.old failed progress.new }
    ensures reported { MayAdd (reported_line first.now done second.now best)
        (T.written progress.old) (T.written progress.new) }
{
    match write_line(line, first, done, second, best) {
        Ok(()) => {}
        Err(NoMemory) => return,
    }
    match put_all(progress, line) {
        Ok(()) => {}
        Err(WriteFault) => {}
    }
}
