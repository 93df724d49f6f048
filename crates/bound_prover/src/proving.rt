//! The text of a proof for a chip under limits, from a search that promises nothing.
ghost use Rattle.std.specs.Prelude.{◌≡◌, ◌<◌, ◌≤◌, ℕ, IfOk};
ghost use Rattle.soc_model.specs.Chips.{soc_value};
ghost use Rattle.soc_model.specs.SoundChips.{IsSoundChip};
ghost use Rattle.plan_model.specs.SoundLimits.{IsSoundLimits};
ghost use Rattle.plan_model.specs.Views.{limits_value};
ghost use Rattle.bound_prover.specs.declared.progress.TheConstants.{REPORTED_FROM};
ghost use Rattle.bound_prover.specs.Proved.{IsProofText};
ghost use Rattle.bound_prover.specs.Reports.{MayReport};

use crate::accepting::{accepted_text, nothing_text};
use crate::choosing::{FoundProof, better_of};
use crate::progress::run_reported;
use commands::line_room;
use live_tests::{Problem, Resolved};
use outside::{NoMemory, Sink};
use plan_model::{Limits, Proof};
use proof_search::Search;
use soc_model::Soc;
use std::alloc::Global;

/// What a search without leaves Pack finds, after one of up to `nodes` nodes whose tables it takes over. It reports nothing.
fn searched_plain(alloc: Global, packed: Search, nodes: u64) -> Result<Proof, NoMemory> {
    let mut search = packed.plain_again(alloc)?;
    search.go_on(nodes);
    let proof = search.proof(alloc);
    search.free();
    proof
}

/// The better proof of a search with leaves Pack, which is done, and of one without them, where that may show more of the goal, `cycles`
/// cycles.
fn found_by(
    alloc: Global,
    packed: Search,
    cycles: u64,
    nodes: u64,
) -> Result<FoundProof, NoMemory> {
    let is_open = packed.found_pack() && packed.claim() < cycles;
    match packed.proof(alloc) {
        Ok(proof) => {
            if is_open {
                return better_of(alloc, proof, searched_plain(alloc, packed, nodes));
            }
            packed.free();
            FoundProof::new(alloc, proof)
        }
        Err(NoMemory) => {
            packed.free();
            Err(NoMemory)
        }
    }
}

/// The better proof of two searches of up to `nodes` nodes each that no good plan takes fewer than `cycles` cycles, or than as many as it
/// can show. Nothing is known of it. Leaves Pack change the order in which cases are divided, and so which lists are found: each search
/// can show what the other can't, and neither shows less with more nodes.
fn searched<T: Sink>(
    alloc: Global,
    problem: &Problem<'_>,
    cycles: u64,
    nodes: u64,
    progress: &mut T,
) -> Result<FoundProof, NoMemory>
    ensures faults_never_fall { T.faults progress.old ≤ T.faults progress.new }
    ensures quiet { nodes < REPORTED_FROM → progress.new ≡ progress.old }
    ensures reported { MayReport nodes (T.written progress.old) (T.written progress.new) }
{
    let mut line = line_room(alloc)?;
    let mut search = Search::new(alloc, problem, cycles, nodes, true)?;
    run_reported(&mut search, nodes, &mut line, progress);
    found_by(alloc, search, cycles, nodes)
}

/// The text of the proof that claims nothing, for a problem.
fn nothing_for(alloc: Global, problem: &Problem<'_>) -> Result<Vec<u8>, NoMemory>
    ensures { (cycles nodes : ℕ) → 1 ≤ nodes →
        IfOk result
        (λ text. IsProofText problem.now.soc problem.now.limits cycles nodes text.items) }
{
    // opened, so that its limits are known to be sound
    let _ = &problem.limits;
    nothing_text(alloc)
}

/// [`proved`], for a problem.
pub fn proved_text<T: Sink>(
    alloc: Global,
    problem: &Problem<'_>,
    cycles: u64,
    nodes: u64,
    progress: &mut T,
) -> Result<Vec<u8>, NoMemory>
    requires some { 1 ≤ nodes }
    ensures text { IfOk result
        (λ text. IsProofText problem.now.soc problem.now.limits cycles nodes text.items) }
    ensures faults_never_fall { T.faults progress.old ≤ T.faults progress.new }
    ensures quiet { nodes < REPORTED_FROM → progress.new ≡ progress.old }
    ensures reported { MayReport nodes (T.written progress.old) (T.written progress.new) }
{
    if cycles == 0 {
        return nothing_for(alloc, problem);
    }
    let found = searched(alloc, problem, cycles, nodes, progress)?;
    match accepted_text(alloc, problem, found, cycles, nodes)? {
        Some(text) => Ok(text),
        None => nothing_for(alloc, problem),
    }
}

/// The text of a proof by cases on buses, of at most `nodes` nodes: it is accepted for the chip under the limits, and claims at
/// most `cycles` cycles, as many as a search with leaves Pack could show, or one without them. Where these could show nothing, or where
/// the cycles are 0, it is the proof that claims nothing. From 10,000 nodes on each tenth of them that the search with leaves Pack made is
/// reported to `progress`, with its claim so far; a `progress` that fails changes nothing else. `NoMemory` where memory runs out.
pub fn proved<T: Sink>(
    alloc: Global,
    soc: &Soc,
    limits: &Limits,
    cycles: u64,
    nodes: u64,
    progress: &mut T,
) -> Result<Vec<u8>, NoMemory>
    requires chip { IsSoundChip (soc_value soc.now) }
    requires limits { IsSoundLimits (soc_value soc.now) (limits_value limits.now) }
    requires some { 1 ≤ nodes }
    ensures text { IfOk result (λ text. IsProofText (soc_value soc.now) (limits_value limits.now)
        cycles nodes text.items) }
    ensures faults_never_fall { T.faults progress.old ≤ T.faults progress.new }
    ensures quiet { nodes < REPORTED_FROM → progress.new ≡ progress.old }
    ensures reported { MayReport nodes (T.written progress.old) (T.written progress.new) }
{
    let resolved = Resolved::new(alloc, soc, limits)?;
    let problem = Problem::new(soc, limits, &resolved);
    proved_text(alloc, &problem, cycles, nodes, progress)
}
