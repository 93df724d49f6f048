//! What rows run over: files in memory, what the outputs of a run are like, and what the last run wrote.
use crate::lines::{count_of, part};
use crate::texts::bytes_of_text;
use outside::{MemShelf, MemSink, NoMemory, copied, extend, push};
use std::alloc::Global;

/// The room of an output that takes every answer of the rows but for the largest, in bytes.
const ROOM_FOR_ALL: usize = 1_048_576;

/// The most bytes that an output takes a call, where nothing is said.
const MOST_A_CALL: usize = 7;

/// A file that is held.
#[derive(Drop)]
struct HeldFile {
    name: Vec<u8>,
    bytes: Vec<u8>,
}

/// What an output is like: its room, the most bytes of a call, and the calls that fail.
#[derive(Drop)]
struct OutputShape {
    room: usize,
    most: usize,
    failing: Vec<u64>,
}

impl OutputShape {
    /// An output that takes every answer.
    fn new(alloc: Global) -> OutputShape {
        OutputShape {
            room: ROOM_FOR_ALL,
            most: MOST_A_CALL,
            failing: Vec::new(alloc),
        }
    }

    /// By its words; an output that takes every answer where there is none.
    fn set(&mut self, words: &str) -> Result<(), NoMemory> {
        let (room, rest) = part(words);
        let (most, failing) = part(rest);
        self.room = if room.is_empty() {
            ROOM_FOR_ALL
        } else {
            count_of(room) as usize
        };
        self.most = if most.is_empty() {
            MOST_A_CALL
        } else {
            count_of(most) as usize
        };
        self.failing.clear();
        for word in failing.split_whitespace() {
            push(&mut self.failing, count_of(word))?;
        }
        Ok(())
    }

    /// An output of this shape.
    fn output(&self, alloc: Global) -> Result<MemSink, NoMemory> {
        let mut out = MemSink::new(alloc, self.room, self.most.max(1))?;
        for call in &self.failing {
            out.fail_at(*call)?;
        }
        Ok(out)
    }
}

/// Files with the shelf that holds them, whose count of loads runs on, what the outputs of a run are like, and what the last
/// run wrote to them.
#[derive(Drop)]
pub struct Rig {
    alloc: Global,
    files: Vec<HeldFile>,
    pub shelf: MemShelf,
    puts: OutputShape,
    reports: OutputShape,
    written: Vec<u8>,
    reported: Vec<u8>,
}

impl Rig {
    /// No file, and outputs that take every answer, seven bytes a call.
    pub fn new(alloc: Global) -> Rig {
        Rig {
            alloc,
            files: Vec::new(alloc),
            shelf: MemShelf::new(alloc),
            puts: OutputShape::new(alloc),
            reports: OutputShape::new(alloc),
            written: Vec::new(alloc),
            reported: Vec::new(alloc),
        }
    }

    /// The allocator of the rig.
    pub fn alloc(&self) -> Global {
        self.alloc
    }

    /// The bytes of a file, none where it isn't held.
    pub fn bytes_of(&self, name: &str) -> &[u8] {
        for file in self.files.iter().rev() {
            if file.name.as_slice() == name.as_bytes() {
                return &file.bytes;
            }
        }
        &[]
    }

    /// Has a file hold these bytes.
    pub fn hold_bytes(&mut self, name: &str, bytes: Vec<u8>) -> Result<(), NoMemory> {
        self.shelf.hold(name, &bytes)?;
        self.files
            .retain(|file| file.name.as_slice() != name.as_bytes());
        let name = copied(self.alloc, name.as_bytes())?;
        push(&mut self.files, HeldFile { name, bytes })
    }

    /// Has a file hold a text.
    pub fn hold(&mut self, name: &str, text: &str) -> Result<(), NoMemory> {
        let bytes = bytes_of_text(self.alloc, text)?;
        self.hold_bytes(name, bytes)
    }

    /// Appends `copies` copies of a text to what a file holds.
    pub fn hold_more(&mut self, name: &str, copies: u64, text: &str) -> Result<(), NoMemory> {
        let text = bytes_of_text(self.alloc, text)?;
        let mut bytes = copied(self.alloc, self.bytes_of(name))?;
        for _ in 0..copies {
            extend(&mut bytes, &text)?;
        }
        self.hold_bytes(name, bytes)
    }

    /// A new shelf over the same files, whose loads of these numbers fail.
    pub fn renew_shelf(&mut self, failing: &str) -> Result<(), NoMemory> {
        self.shelf = MemShelf::new(self.alloc);
        for file in &self.files {
            if let Ok(name) = str::from_utf8(&file.name) {
                self.shelf.hold(name, &file.bytes)?;
            }
        }
        for word in failing.split_whitespace() {
            self.shelf.fail_at(count_of(word))?;
        }
        Ok(())
    }

    /// What the output of the runs from here on is like: its room, the most bytes of a call, and the calls that fail.
    pub fn set_output(&mut self, words: &str) -> Result<(), NoMemory> {
        self.puts.set(words)
    }

    /// What the second output of the runs from here on is like.
    pub fn set_second_output(&mut self, words: &str) -> Result<(), NoMemory> {
        self.reports.set(words)
    }

    /// An output for one run.
    pub fn output(&self) -> Result<MemSink, NoMemory> {
        self.puts.output(self.alloc)
    }

    /// A second output for one run.
    pub fn second_output(&self) -> Result<MemSink, NoMemory> {
        self.reports.output(self.alloc)
    }

    /// Notes what a run wrote to its two outputs.
    pub fn note_run(&mut self, written: &[u8], reported: &[u8]) -> Result<(), NoMemory> {
        self.written = copied(self.alloc, written)?;
        self.reported = copied(self.alloc, reported)?;
        Ok(())
    }

    /// What the last run wrote.
    pub fn written(&self) -> &[u8] {
        &self.written
    }

    /// What the last run wrote to its second output.
    pub fn reported(&self) -> &[u8] {
        &self.reported
    }
}
