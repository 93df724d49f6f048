//! What a program does, counted entry by entry, and the faults that the counts show.
ghost use Rattle.std.specs.Prelude.{◌≡◌, ℕ, ◌+◌, ◌^◌, ◌<◌, ◌≤◌, List, ◌∷◌, ◌++◌, [], nat_eq, length, IfOk, IfErr, OnOk, false};
ghost use Rattle.std.specs.List.{list_any};
ghost use Rattle.indexmap.specs.IndexSet.{keys, spare};
ghost use Rattle.shift_program.specs.Programs.{operations};
ghost use Rattle.shift_program.specs.Faults.{patterns_of, IsFault, IsFaultless};
ghost use Rattle.shift_program.specs.Counting.{needed_by, passed_more, starts_early as is_early, is_wrong as wrong, unloads_few as is_short, shift_fault as fault_of_shift, capture_fault as fault_of_capture, entry_fault as fault_of_entry, end_fault as fault_of_end};

use crate::{Entry, ProgramFault};
use indexmap::IndexSet;

/// The numbers that a program has to meet.
#[derive(Clone, Copy)]
pub struct Need {
    /// Cycles of setup at the beginning.
    pub setup: u64,
    /// Cells of the longest path in.
    pub si: u64,
    /// Cells of the longest path out.
    pub so: u64,
    /// Patterns of the test.
    pub patterns: u64,
}

/// What the entries so far did.
#[derive(Clone, Copy)]
pub struct Passed {
    /// Operations in all.
    pub operations: u128,
    /// Shifts since the last capture, or since the beginning.
    pub shifts: u128,
    /// Whether an entry was no Rest.
    pub acted: bool,
}

impl Passed {
    /// With one entry more.
    fn more(self, entry: Entry) -> Passed
        requires operations { self.operations + 2 ^ 64 ≤ 2 ^ 128 }
        requires shifts { self.shifts + 2 ^ 64 ≤ 2 ^ 128 }
        ensures next { result ≡ passed_more self entry }
        ensures operations { result.operations ≤ self.operations + 2 ^ 64 }
        ensures shifts { result.shifts ≤ self.shifts + 2 ^ 64 }
    {
        match entry {
            Entry::Rest { cycles } => Passed {
                operations: self.operations + u128::from(cycles),
                shifts: self.shifts,
                acted: self.acted,
            },
            Entry::Shift { cycles } => Passed {
                operations: self.operations + u128::from(cycles),
                shifts: self.shifts + u128::from(cycles),
                acted: true,
            },
            Entry::Capture { .. } => Passed {
                operations: self.operations + 1,
                shifts: 0,
                acted: true,
            },
        }
    }
}

/// Whether an entry that is no Rest comes before the setup is over, and is the first such.
fn starts_early(need: &Need, passed: Passed) -> bool
    ensures { result ≡ is_early need.now passed }
{
    !passed.acted && passed.operations < u128::from(need.setup)
}

/// Whether a capture is of no pattern of the test, or of one that was captured before.
fn is_wrong(need: &Need, seen: &IndexSet<u64>, pattern: u64) -> bool
    ensures { result ≡ wrong need.now (keys seen.now) pattern }
{
    pattern < 1 || need.patterns < pattern || seen.contains(&pattern)
}

/// Whether there was a capture, with fewer Shifts since than the longest path out has cells.
fn unloads_few(need: &Need, captures: usize, passed: Passed) -> bool
    ensures { (seen : List ℕ) → length seen ≡ captures → result ≡ is_short need.now seen passed }
{
    0 < captures && passed.shifts < u128::from(need.so)
}

/// The fault at a Shift entry.
fn shift_fault(need: &Need, passed: Passed, place: usize) -> Option<ProgramFault>
    ensures { result ≡ fault_of_shift need.now passed place }
{
    if starts_early(need, passed) {
        return Some(ProgramFault::Setup { place });
    }
    None
}

/// The fault at a Capture entry.
fn capture_fault(
    need: &Need,
    passed: Passed,
    seen: &IndexSet<u64>,
    pattern: u64,
    place: usize,
) -> Option<ProgramFault>
    ensures { result ≡ fault_of_capture need.now passed (keys seen.now) pattern place }
{
    if starts_early(need, passed) {
        return Some(ProgramFault::Setup { place });
    }
    if is_wrong(need, seen, pattern) {
        return Some(ProgramFault::Pattern { place });
    }
    if passed.shifts < u128::from(need.si) {
        return Some(ProgramFault::Load { place });
    }
    if unloads_few(need, seen.len(), passed) {
        return Some(ProgramFault::Unload { place });
    }
    None
}

/// The fault at an entry.
fn entry_fault(
    need: &Need,
    passed: Passed,
    seen: &IndexSet<u64>,
    entry: Entry,
    place: usize,
) -> Option<ProgramFault>
    ensures { result ≡ fault_of_entry need.now passed (keys seen.now) entry place }
{
    match entry {
        Entry::Rest { .. } => None,
        Entry::Shift { .. } => shift_fault(need, passed, place),
        Entry::Capture { pattern } => capture_fault(need, passed, seen, pattern, place),
    }
}

/// The fault at the end of a program.
fn end_fault(
    need: &Need,
    passed: Passed,
    seen: &IndexSet<u64>,
    place: usize,
) -> Option<ProgramFault>
    ensures { result ≡ fault_of_end need.now passed (keys seen.now) place }
{
    if (seen.len() as u64) < need.patterns {
        return Some(ProgramFault::Missing { place });
    }
    if unloads_few(need, seen.len(), passed) {
        return Some(ProgramFault::Unload { place });
    }
    None
}

/// Puts a pattern last.
fn put_pattern(seen: &mut IndexSet<u64>, pattern: u64)
    requires new { list_any (nat_eq pattern) (keys seen.old) ≡ false }
    requires space { 0 < spare seen.old }
    ensures filled { keys seen.new ≡ keys seen.old ++ pattern ∷ [] }
    ensures space_left { spare seen.old ≤ spare seen.new + 1 }
{
    let _ = seen.insert(pattern);
}

/// Notes the pattern that an entry captures.
fn note_capture(seen: &mut IndexSet<u64>, entry: Entry)
    requires new { (k : ℕ) → patterns_of entry ≡ k ∷ [] →
        list_any (nat_eq k) (keys seen.old) ≡ false }
    requires space { 0 < spare seen.old }
    ensures filled { keys seen.new ≡ keys seen.old ++ patterns_of entry }
    ensures space_left { length (keys seen.old) + spare seen.old
        ≤ length (keys seen.new) + spare seen.new }
{
    match entry {
        Entry::Rest { .. } | Entry::Shift { .. } => {}
        Entry::Capture { pattern } => put_pattern(seen, pattern),
    }
}

/// The number of operations of a program, where no fault shows; else the fault that shows first.
pub fn count_operations(
    need: &Need,
    entries: &[Entry],
    seen: &mut IndexSet<u64>,
) -> Result<u128, ProgramFault>
    requires space { length entries.now ≤ length (keys seen.old) + spare seen.old }
    ensures operations { IfOk result (λ n. n ≡ length (operations entries.now)) }
    ensures faultless { OnOk result (IsFaultless (needed_by need.now) entries.now) }
    ensures fault { IfErr result (IsFault (needed_by need.now) entries.now) }
    ensures space_left { length (keys seen.old) + spare seen.old
        ≤ length (keys seen.new) + spare seen.new }
{
    seen.clear();
    let mut passed = Passed {
        operations: 0,
        shifts: 0,
        acted: false,
    };
    let mut place = 0;
    for entry in entries {
        if let Some(fault) = entry_fault(need, passed, seen, *entry, place) {
            return Err(fault);
        }
        note_capture(seen, *entry);
        passed = passed.more(*entry);
        place += 1;
    }
    match end_fault(need, passed, seen, place) {
        Some(fault) => Err(fault),
        None => Ok(passed.operations),
    }
}
