//! The files of the system. No contract can say what they hold.
ghost use Rattle.std.specs.Prelude.{◌≡◌, ◌≢◌, ◌≤◌, ◌⊎◌, [], None, vec_len};
ghost use Rattle.outside.specs.Counts.{next_count, IsCountedLoad};
ghost use Rattle.outside.specs.Held.{Rose, IsMissing, IsTooLong};

use crate::shelf::{Loaded, Shelf};
use std::fs::OpenFile;
use std::io::{ErrorKind, Read};
use std::marker::Model;
use std::rt::Files;
use std::{fs, io};

/// Reads the files of the system through a runtime, which opens them by their names as paths. It tells nothing of what
/// it holds, and counts as a fault whatever keeps it from reading a file, a missing file too. Its model is the number
/// of faults.
#[derive(Drop)]
pub struct RealShelf<'a, R: Files> {
    rt: &'a R,
    faults: u64,
}

impl<'a, R: Files> Model for RealShelf<'a, R> {
    ghost use Rattle.std.specs.Prelude.{ℕ};

    ghost Value = { ℕ };

    ghost view = { λ s. s.faults };
}

impl<'a, R: Files> RealShelf<'a, R> {
    /// A shelf over the files that `rt` opens, with no fault so far. It takes no memory.
    pub fn new(rt: &'a R) -> RealShelf<'a, R>
        ensures no_fault { result ≡ 0 }
    {
        RealShelf { rt, faults: 0 }
    }
}

impl<'a, R: Files> Shelf for RealShelf<'a, R> {
    ghost use Rattle.std.specs.Prelude.{None};
    ghost use Rattle.outside.specs.Counts.{IsCountedLoad};

    ghost held = { λ _. None };

    ghost faults = { λ s. s };

    ghost is_load = { λ s name limit answer bytes after. IsCountedLoad s answer after };

    /// Reads at most `limit + 1` bytes of the file. Out of memory is `NoMemory` and no fault; every other error is
    /// `Failed` and one fault more, up to the last value of the count.
    fn load(&mut self, name: &str, limit: u64, into: &mut Vec<u8>) -> Loaded
        // The promises of every shelf, where it says nothing of its model.
        ensures faults_never_fall { self.old ≤ self.new }
        ensures within_limit { result ≡ Loaded.Whole → vec_len into.new ≤ limit }
        ensures longer_is_too_long { IsTooLong None name.now limit →
            result ≢ Loaded.Failed → result ≢ Loaded.NoMemory → result ≡ Loaded.TooLong }
        ensures failed { result ≡ Loaded.Failed → Rose self.old self.new ⊎ IsMissing None name.now }
        ensures emptied { result ≢ Loaded.Whole → into.new.items ≡ [] }
        ensures load { IsCountedLoad self.old result self.new }

        // What this one adds.
        ensures fault_counted { result ≡ Loaded.Failed → self.new ≡ next_count self.old }
        ensures no_other_fault { result ≢ Loaded.Failed → self.new ≡ self.old }
    {
        into.clear();
        match read_at_most(self.rt, name, limit.saturating_add(1), into) {
            Ok(()) => {
                if into.len() as u64 > limit {
                    into.clear();
                    return Loaded::TooLong;
                }
                Loaded::Whole
            }
            Err(e) => {
                into.clear();
                if e.kind() == ErrorKind::OutOfMemory {
                    return Loaded::NoMemory;
                }
                self.faults = self.faults.saturating_add(1);
                Loaded::Failed
            }
        }
    }
}

/// Appends the first `most` bytes of the named file. Room is taken once, for as many bytes as the system says that it has.
fn read_at_most<R: Files>(rt: &R, name: &str, most: u64, into: &mut Vec<u8>) -> io::Result<()> {
    let file = fs::open(rt, name)?;
    let size = file.metadata()?.len();
    // One more byte, so that the end of the file is met before there is no room left.
    into.reserve_exact(size.min(most).saturating_add(1) as usize)?;
    file.take(most).read_to_end(into)?;
    Ok(())
}
