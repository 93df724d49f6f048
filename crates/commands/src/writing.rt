//! The end of a call: what was decided is written, once.
ghost use Rattle.std.specs.Prelude.{◌≤◌};
ghost use Rattle.commands.specs.Ends.{IsWritten, Writes, PutsFor, PutsVerdict};

use crate::lines::unread_line;
use crate::{Status, Verdict};
use outside::{Sink, WriteFault, put_all};

/// Writes a text, and answers the status that it is for, or that the output failed.
fn write_text<K: Sink>(status: Status, text: &[u8], out: &mut K) -> Status
    ensures faults_never_fall { K.faults out.old ≤ K.faults out.new }
    ensures written { IsWritten status text.now (K.faults out.old) (K.faults out.new)
        (K.written out.old) result (K.written out.new) }
    ensures puts { PutsFor K.is_put out.old status result out.new }
{
    match put_all(out, text) {
        Ok(()) => status,
        Err(WriteFault) => Status::WriteFault,
    }
}

/// Writes what a verdict says, once, and answers the status of the call. It takes no memory.
///
/// Nothing is written where memory runs out. Where the output fails, a prefix of the text is written, and the status is
/// `WriteFault`.
pub fn write_verdict<K: Sink>(verdict: Verdict, out: &mut K) -> Status
    ensures faults_never_fall { K.faults out.old ≤ K.faults out.new }
    ensures written { Writes verdict (K.faults out.old) (K.faults out.new) (K.written out.old)
        result (K.written out.new) }
    ensures puts { PutsVerdict K.is_put verdict out.old result out.new }
{
    match verdict {
        Verdict::Answered { status, text } => write_text(status, text.as_slice(), out),
        Verdict::CannotRead { file } => write_text(Status::ReadFault, unread_line(file), out),
        Verdict::NoMemory => Status::NoMemory,
    }
}
