//! Until when the children of each module run at the latest, and how that is taken back.
ghost use Rattle.std.specs.Prelude.{◌≡◌, ℕ, ◌<◌, ◌≤◌, true, Some, [], length, slice_get, vec_capacity, IfSome, IfOk};
ghost use Rattle.busy_times.specs.LatestEnds.{end_at as end_at_place, with_end, IsLater, IsBack};

use outside::NoMemory;
use std::alloc::Global;

/// For each module a cycle by which the placed tests of its children have ended. Tests are taken back in the order opposite to that of
/// placing, and so what stood there before is put back; the times of the children needn't be gone through.
#[derive(Drop)]
pub struct LatestEnds {
    /// The cycles, each at the place of its module.
    pub ends: Vec<u64>,
    /// With each placed test, what stood at the place of its parent before; 0 where it has none.
    pub before: Vec<u64>,
}

/// Ends for `modules` modules, with room for the placing of `tests` tests.
pub fn new_latest_ends(alloc: Global, modules: usize, tests: usize) -> Result<LatestEnds, NoMemory>
    ensures ends { IfOk result (λ latest. length latest.ends.items ≡ modules) }
    ensures before { IfOk result (λ latest. latest.before.items ≡ []) }
    ensures room { IfOk result (λ latest. tests ≤ vec_capacity latest.before) }
{
    Ok(LatestEnds {
        ends: vec![in alloc; 0; modules]?,
        before: Vec::with_capacity(alloc, tests)?,
    })
}

/// What stands at a place, where there is one, else 0.
fn end_at(ends: &Vec<u64>, place: Option<usize>) -> u64
    requires inside { IfSome place (λ k. k < length ends.now.items) }
    ensures { result ≡ end_at_place place ends.now.items }
{
    match place {
        Some(at) => ends[at],
        None => 0,
    }
}

/// Puts an end to a place, where there is one.
fn put_end(ends: &mut Vec<u64>, place: Option<usize>, end: u64)
    requires inside { IfSome place (λ k. k < length ends.old.items) }
    ensures { ends.new.items ≡ with_end place end ends.old.items }
{
    if let Some(at) = place {
        ends[at] = end;
    }
}

/// Notes the end of a test that is placed, a child of the module at a place, where there is one.
pub fn note_end(latest: &mut LatestEnds, place: Option<usize>, end: u64)
    requires inside { IfSome place (λ k. k < length latest.old.ends.items) }
    requires room { length latest.old.before.items < vec_capacity latest.old.before }
    ensures { IsLater place end latest.old latest.new }
{
    let was = end_at(&latest.ends, place);
    put_end(&mut latest.ends, place, was.max(end));
    latest.before.push_reserved(was);
}

/// Takes the end of the last placed test back, a child of the module at a place, where there is one.
pub fn forget_end(latest: &mut LatestEnds, place: Option<usize>)
    requires inside { IfSome place (λ k. k < length latest.old.ends.items) }
    requires some { 1 ≤ length latest.old.before.items }
    ensures { IsBack place latest.old latest.new }
{
    if let Some(was) = latest.before.pop() {
        put_end(&mut latest.ends, place, was);
    }
}

/// Whether the children of the module at a place are known to have ended by a cycle.
pub fn have_ended(latest: &LatestEnds, place: usize, cycle: u64) -> bool
    ensures { result ≡ true →
        (end : ℕ) × (slice_get latest.now.ends.items place ≡ Some end) × (end ≤ cycle) }
{
    let Some(end) = latest.ends.get(place) else {
        return false;
    };
    *end <= cycle
}
