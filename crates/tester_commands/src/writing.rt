//! Writes what a call ends with.
ghost use Rattle.std.specs.Prelude.{◌≤◌};
ghost use Rattle.commands.specs.Endings.{WritesEnding, PutsEnding};
ghost use Rattle.tester_commands.specs.Endings.{ending_value};

use crate::ending::Ending;
use crate::making::write_requested;
use crate::programs::write_data_run;
use crate::vectors::write_accepted;
use commands::{Status, write_verdict};
use outside::Sink;
use std::alloc::Global;

/// Writes what a call ends with, and answers its status. All memory is taken before the first byte.
pub fn write_ending<K: Sink>(alloc: Global, ending: Ending, out: &mut K) -> Status
    ensures faults_never_fall { K.faults out.old ≤ K.faults out.new }
    ensures written { WritesEnding (ending_value ending) (K.faults out.old) (K.faults out.new)
        (K.written out.old) result (K.written out.new) }
    ensures puts { PutsEnding K.is_put (ending_value ending) out.old result out.new }
{
    match ending {
        Ending::Decided(verdict) => write_verdict(verdict, out),
        Ending::Vectors { all, seed } => {
            let status = write_accepted(alloc, &all, seed, out);
            all.free();
            status
        }
        Ending::MadeData(request) => write_requested(alloc, &request, out),
        Ending::DataRun { form, run } => {
            let status = write_data_run(alloc, form, &run, out);
            run.free();
            status
        }
    }
}
