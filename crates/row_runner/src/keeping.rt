//! Parts of what a run wrote, by the words with which lines begin.
use crate::rig::Rig;
use outside::{NoMemory, extend};

/// The bytes before the first space or the end of a line.
fn first_word(line: &[u8]) -> &[u8] {
    let end = line
        .iter()
        .position(|byte| *byte == b' ' || *byte == b'\n')
        .unwrap_or(line.len());
    &line[..end]
}

/// `keep NAME BEGIN END`: a file holds the lines of what the last run wrote that stand behind the first one that begins with
/// the word BEGIN, from the first line on where that is empty, and before the next one that begins with the word END.
pub fn keep_lines(rig: &mut Rig, name: &str, begin: &str, end: &str) -> Result<(), NoMemory> {
    let mut kept = Vec::new(rig.alloc());
    let mut inside = begin.is_empty();
    for line in rig.written().split_inclusive(|byte| *byte == b'\n') {
        let word = first_word(line);
        if inside && !end.is_empty() && word == end.as_bytes() {
            break;
        }
        if inside {
            extend(&mut kept, line)?;
        } else if word == begin.as_bytes() {
            inside = true;
        }
    }
    rig.hold_bytes(name, kept)
}
