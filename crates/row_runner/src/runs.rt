//! Runs of the commands over files in memory.
use crate::lines::word_of;
use crate::rig::Rig;
use commands::Status;
use outside::{NoMemory, extend, push, push_number};
use soctest::soctest_with_progress;
use std::alloc::Global;

/// The words of a text, as those of a command line: `""` is an empty one.
pub fn words_of(alloc: Global, text: &str) -> Result<Vec<String>, NoMemory> {
    let mut words = Vec::new(alloc);
    for word in text.split_whitespace() {
        let Ok(word) = String::from_str(alloc, word_of(word)) else {
            return Err(NoMemory);
        };
        push(&mut words, word)?;
    }
    Ok(words)
}

/// The number of a status, a space, and what was written.
pub fn ended(alloc: Global, status: Status, written: &[u8]) -> Result<Vec<u8>, NoMemory> {
    let mut answer = Vec::new(alloc);
    push_number(&mut answer, u128::from(status.number()))?;
    extend(&mut answer, b" ")?;
    extend(&mut answer, written)?;
    Ok(answer)
}

/// `run WORDS`: the command of the words over the shelf of the rig.
pub fn run_of_command(rig: &mut Rig, words: &str) -> Result<Vec<u8>, NoMemory> {
    let alloc = rig.alloc();
    let words = words_of(alloc, words)?;
    let mut out = rig.output()?;
    let mut progress = rig.second_output()?;
    let status = soctest_with_progress(
        alloc,
        words.as_slice(),
        &mut rig.shelf,
        &mut out,
        &mut progress,
    );
    rig.note_run(out.bytes(), progress.bytes())?;
    ended(alloc, status, out.bytes())
}
