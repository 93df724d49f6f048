//! How far a search is, reported as it goes.
ghost use Rattle.std.specs.Prelude.{◌≡◌, ◌<◌, ◌≤◌};
ghost use Rattle.bound_prover.specs.declared.progress.TheConstants.{REPORTED_FROM};
ghost use Rattle.bound_prover.specs.Reports.{MayPass, MayReport};

use commands::{REPORTS, report_line};
use outside::Sink;
use proof_search::Search;

/// From this many nodes on it is reported how many are made.
const REPORTED_FROM: u64 = 10_000;

/// Searches on until `reached` nodes are made, and reports it where they are.
fn go_on_reported<T: Sink>(search: &mut Search, reached: u64, line: &mut Vec<u8>, progress: &mut T)
    ensures faults { T.faults progress.old ≤ T.faults progress.new }
    ensures reported { MayPass reached (T.written progress.old) (T.written progress.new) }
{
    search.go_on(reached);
    let made = search.made();
    if made < reached {
        return;
    }
    report_line(progress, line, b"nodes ", made, b" bound ", search.claim());
}

/// Searches until `nodes` nodes are made, or nothing is left to do. From `REPORTED_FROM` nodes on, each tenth of them is reported.
pub(crate) fn run_reported<T: Sink>(
    search: &mut Search,
    nodes: u64,
    line: &mut Vec<u8>,
    progress: &mut T,
)
    ensures faults_never_fall { T.faults progress.old ≤ T.faults progress.new }
    ensures quiet { nodes < REPORTED_FROM → progress.new ≡ progress.old }
    ensures reported { MayReport nodes (T.written progress.old) (T.written progress.new) }
{
    if nodes < REPORTED_FROM {
        search.go_on(nodes);
        return;
    }
    let part = nodes.div_ceil(REPORTS);
    let mut left = nodes;
    while left > 0 {
        let now = part.min(left);
        left -= now;
        go_on_reported(search, nodes - left, line, progress);
    }
}
