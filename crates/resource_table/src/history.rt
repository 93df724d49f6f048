//! Notes of tests, which are changed one by one and taken back to what they were at a mark.
ghost use Rattle.std.specs.Prelude.{◌≡◌, ℕ, ◌+◌, ◌<◌, ◌≤◌, ◌⊎◌, ◌++◌, ◌∷◌, [], length, slice_set, replicate, vec_capacity, IfOk};
ghost use Rattle.resource_table.specs.Histories.{no_note, at_change, past_of, ArePlaces, IsHistory};

use outside::NoMemory;
use std::alloc::Global;

/// What is noted of a test.
#[derive(Clone, Copy)]
pub struct Note {
    /// A cycle before which it fits at no start.
    pub start: u64,
    /// One more than how many tests were placed as that was the least start at which it fits; 0 where none was found yet.
    pub depth: usize,
}

/// A note that was changed.
#[derive(Clone, Copy)]
pub struct Change {
    /// Its place.
    pub place: usize,
    /// What it was before.
    pub was: Note,
}

/// Notes with their changes since each mark.
#[derive(Drop)]
pub struct History {
    /// The notes.
    pub values: Vec<Note>,
    /// The changes, the last one last.
    pub log: Vec<Change>,
    /// For each mark how many changes there were.
    pub marks: Vec<usize>,
}

/// Nothing is noted.
const NO_NOTE: Note = Note { start: 0, depth: 0 };

/// `count` empty notes, with room for `marks` marks and `changes` changes.
pub fn new_history(
    alloc: Global,
    count: usize,
    marks: usize,
    changes: usize,
) -> Result<History, NoMemory>
    ensures values { IfOk result (λ h. h.values.items ≡ replicate count no_note) }
    ensures marks { IfOk result (λ h. h.marks.items ≡ []) }
    ensures history { IfOk result IsHistory }
    ensures room { IfOk result (λ h. marks ≤ vec_capacity h.marks) }
{
    Ok(History {
        values: vec![in alloc; NO_NOTE; count]?,
        log: Vec::with_capacity(alloc, changes)?,
        marks: Vec::with_capacity(alloc, marks)?,
    })
}

/// Puts a mark behind the last change, in room that is there.
pub fn mark_changes(history: &mut History)
    requires history { IsHistory history.old }
    requires room { length history.old.marks.items < vec_capacity history.old.marks }
    ensures history { IsHistory history.new }
    ensures values { history.new.values.items ≡ history.old.values.items }
    ensures past { past_of history.new ≡ past_of history.old ++ history.old.values.items ∷ [] }
    ensures room { vec_capacity history.new.marks ≡ vec_capacity history.old.marks }
{
    let changes = history.log.len();
    history.marks.push_reserved(changes);
}

/// Whether a note tells no later start than another, and half of the room for changes is used: the rest is for later starts.
fn is_spared(log: &Vec<Change>, was: Note, value: Note) -> bool {
    if was.start < value.start {
        return false;
    }
    log.len() >= log.capacity() / 2
}

/// Changes a note for one of a greater depth, where there is room for the change.
pub fn renew_note(history: &mut History, place: usize, value: Note)
    requires history { IsHistory history.old }
    requires place { place < length history.old.values.items }
    ensures history { IsHistory history.new }
    ensures values { (history.new.values.items ≡ history.old.values.items)
        ⊎ (history.new.values.items ≡ slice_set history.old.values.items place value) }
    ensures past { past_of history.new ≡ past_of history.old }
    ensures marks { history.new.marks ≡ history.old.marks }
{
    let was = history.values[place];
    if is_spared(&history.log, was, value) {
        return;
    }
    if was.depth < value.depth && history.log.len() < history.log.capacity() {
        history.log.push_reserved(Change { place, was });
        history.values[place] = value;
    }
}

/// Takes the last change back.
fn take_back(history: &mut History)
    requires places { ArePlaces history.old }
    requires some { 1 ≤ length history.old.log.items }
    ensures places { ArePlaces history.new }
    ensures changes { length history.new.log.items + 1 ≡ length history.old.log.items }
    ensures long { length history.new.values.items ≡ length history.old.values.items }
    ensures same { (n : ℕ) → n < length history.old.log.items →
        at_change history.new n ≡ at_change history.old n }
    ensures marks { history.new.marks ≡ history.old.marks }
{
    if let Some(last) = history.log.pop() {
        history.values[last.place] = last.was;
    }
}

/// Takes all changes since the last mark back, and the mark.
pub fn undo_to_mark(history: &mut History)
    requires history { IsHistory history.old }
    requires marked { 1 ≤ length history.old.marks.items }
    ensures history { IsHistory history.new }
    ensures long { length history.new.values.items ≡ length history.old.values.items }
    ensures past { past_of history.old ≡ past_of history.new ++ history.new.values.items ∷ [] }
    ensures room { vec_capacity history.new.marks ≡ vec_capacity history.old.marks }
{
    if let Some(changes) = history.marks.pop() {
        while history.log.len() > changes {
            take_back(history);
        }
    }
}

/// Takes all changes and marks away, and leaves no note.
pub fn forget_notes(history: &mut History)
    ensures values { history.new.values.items
        ≡ replicate (length history.old.values.items) no_note }
    ensures marks { history.new.marks.items ≡ [] }
    ensures history { IsHistory history.new }
    ensures room { vec_capacity history.new.marks ≡ vec_capacity history.old.marks }
{
    history.log.clear();
    history.marks.clear();
    history.values.fill(NO_NOTE);
}
