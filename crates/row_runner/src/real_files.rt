//! Files of the system: loads of them, and runs of the commands over them with a file as the output.
use crate::lines::{count_of, part};
use crate::rig::Rig;
use crate::runs::{ended, words_of};
use outside::{Loaded, NoMemory, RealShelf, RealSink, Shelf, copied, push_number};
use soctest::soctest;
use std::fs;
use std::rt::Files;

/// The greatest length of a file of the system that a file of the rig is to hold, in bytes.
const DATA_MOST: u64 = 33_554_432;

/// `data NAME FILE`: a file of the rig holds what a file of the system has. Reports whether that could be read.
pub fn hold_data<R: Files + AllocGlobal>(
    rt: &R,
    rig: &mut Rig,
    name: &str,
    file: &str,
) -> Result<bool, NoMemory> {
    let mut shelf = RealShelf::new(rt);
    let mut bytes = Vec::new(rt.alloc());
    match shelf.load(file, DATA_MOST, &mut bytes) {
        Loaded::Whole => {
            rig.hold_bytes(name, bytes)?;
            Ok(true)
        }
        _ => Ok(false),
    }
}

/// `real WORDS`: the command of the words over the files of the system, with a file as its output.
pub fn run_of_real_files<R: Files + AllocGlobal>(rt: &R, words: &str) -> Result<Vec<u8>, NoMemory> {
    let alloc = rt.alloc();
    let words = words_of(alloc, words)?;
    let Ok(file) = fs::create(rt, "written") else {
        return copied(alloc, b"no file can be written");
    };
    let mut shelf = RealShelf::new(rt);
    let mut out = RealSink::new(file);
    let status = soctest(alloc, words.as_slice(), &mut shelf, &mut out);
    let mut written = Vec::new(alloc);
    match shelf.load("written", u64::MAX, &mut written) {
        Loaded::Whole => ended(alloc, status, &written),
        _ => copied(alloc, b"what was written can't be read"),
    }
}

/// `load NAME LIMIT`: how a load of a file of the system ends, with the number of its bytes.
pub fn what_a_load_answers<R: Files + AllocGlobal>(
    rt: &R,
    words: &str,
) -> Result<Vec<u8>, NoMemory> {
    let (name, limit) = part(words.trim());
    let mut shelf = RealShelf::new(rt);
    let mut bytes = Vec::new(rt.alloc());
    let answer: &[u8] = match shelf.load(name, count_of(limit), &mut bytes) {
        Loaded::Whole => b"whole ",
        Loaded::TooLong => b"too long ",
        Loaded::Failed => b"failed ",
        Loaded::NoMemory => b"no memory ",
    };
    let mut text = copied(rt.alloc(), answer)?;
    push_number(&mut text, bytes.len() as u128)?;
    Ok(text)
}
