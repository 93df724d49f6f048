//! A writer of the system, as standard output. No contract can say what it received.
ghost use Rattle.std.specs.Prelude.{◌≡◌, ◌≢◌, ◌≤◌, ◌<◌, length, IfSome, ℕ};
ghost use Rattle.outside.specs.Counts.{next_count, IsCounted};
ghost use Rattle.outside.specs.Held.{Rose};

use crate::sink::{Put, Sink};
use std::io::Write;
use std::marker::Model;

/// Writes to one writer and flushes it after each put. It tells nothing of what was written, and counts each put that
/// fails. Its model is the number of faults.
#[derive(Drop)]
pub struct RealSink<W: Write + Drop> {
    out: W,
    faults: u64,
}

impl<W: Write + Drop> Model for RealSink<W> {
    ghost use Rattle.std.specs.Prelude.{ℕ};

    ghost Value = { ℕ };

    ghost view = { λ s. s.faults };
}

impl<W: Write + Drop> RealSink<W> {
    /// A sink over that writer, with no fault so far. It takes no memory.
    pub fn new(out: W) -> RealSink<W>
        ensures no_fault { result ≡ 0 }
    {
        RealSink { out, faults: 0 }
    }
}

impl<W: Write + Drop> Sink for RealSink<W> {
    ghost use Rattle.std.specs.Prelude.{None};
    ghost use Rattle.outside.specs.Counts.{IsCounted};

    ghost written = { λ _. None };

    ghost faults = { λ s. s };

    ghost is_put = { λ s piece answer after. IsCounted s answer after };

    /// One write and one flush. An error of either, and a write of no byte of a piece that has some, is `Failed` and
    /// one fault more, up to the last value of the count.
    fn put(&mut self, piece: &[u8]) -> Put
        // The promises of every sink, where it says nothing of its model.
        ensures faults_never_fall { self.old ≤ self.new }
        ensures within_piece { (n : ℕ) → result ≡ Put.Taken n → n ≤ length piece.now }
        ensures progress { (n : ℕ) → result ≡ Put.Taken n → 0 < length piece.now → 0 < n }
        ensures failed { result ≡ Put.Failed → Rose self.old self.new }
        ensures put { IsCounted self.old result self.new }

        // What this one adds.
        ensures fault_counted { result ≡ Put.Failed → self.new ≡ next_count self.old }
        ensures no_other_fault { result ≢ Put.Failed → self.new ≡ self.old }
    {
        match write_once(&mut self.out, piece) {
            Some(n) => Put::Taken(n),
            None => {
                self.faults = self.faults.saturating_add(1);
                Put::Failed
            }
        }
    }
}

/// How many bytes of the piece were written and flushed.
fn write_once<W: Write>(out: &mut W, piece: &[u8]) -> Option<usize>
    ensures within { IfSome result (λ n. n ≤ length piece.now) }
    ensures progress { IfSome result (λ n. 0 < length piece.now → 0 < n) }
{
    let Ok(n) = out.write(piece) else {
        return None;
    };
    if n == 0 && !piece.is_empty() {
        return None;
    }
    let Ok(()) = out.flush() else {
        return None;
    };
    Some(n)
}
