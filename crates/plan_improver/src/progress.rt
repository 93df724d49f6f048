//! How far a search is, reported as it goes.
ghost use Rattle.std.specs.Prelude.{◌≡◌, ◌<◌, ◌≤◌};
ghost use Rattle.plan_improver.specs.declared.progress.TheConstants.{REPORTED_FROM};
ghost use Rattle.plan_improver.specs.Reports.{MayPass, MayReport};

use arch_search::Search;
use commands::{REPORTS, report_line};
use outside::Sink;

/// From this number of tries on, it is reported how many were made.
const REPORTED_FROM: u64 = 100_000;

/// Reports how many tries were made, and the best cycles so far.
fn report_tries<T: Sink>(progress: &mut T, line: &mut Vec<u8>, tries: u64, cycles: u64)
    ensures faults { T.faults progress.old ≤ T.faults progress.new }
    ensures reported { MayPass tries (T.written progress.old) (T.written progress.new) }
{
    report_line(progress, line, b"tries ", tries, b" cycles ", cycles);
}

/// Tries `tries` changes. Where they are many, each tenth of them is reported.
pub(crate) fn run_reported<T: Sink>(
    search: &mut Search<'_>,
    tries: u64,
    line: &mut Vec<u8>,
    progress: &mut T,
)
    ensures never_worse { search.new ≤ search.old }
    ensures faults_never_fall { T.faults progress.old ≤ T.faults progress.new }
    ensures quiet { tries < REPORTED_FROM → progress.new ≡ progress.old }
    ensures reported { MayReport tries (T.written progress.old) (T.written progress.new) }
{
    if tries < REPORTED_FROM {
        search.run(tries);
        return;
    }
    let part = tries.div_ceil(REPORTS);
    let mut left = tries;
    while left > 0 {
        let now = part.min(left);
        search.run(now);
        left -= now;
        report_tries(progress, line, tries - left, search.cycles());
    }
}
