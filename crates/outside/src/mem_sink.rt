//! Output in memory, of a fixed room, with puts that fail where the caller wants them to.
ghost use Rattle.std.specs.Prelude.{◌≡◌, ◌∷◌, ◌++◌, ◌<◌, ◌≤◌, [], OnOk, OnErr, IfOk, length, take, Some, ℕ};
ghost use Rattle.std.specs.Bool.{OnTrue, OnFalse};
ghost use Rattle.outside.specs.Held.{Rose, Appended};
ghost use Rattle.outside.specs.SinkState.{share_of, after_taking, after_failing, fails_now, IsPut};

use crate::NoMemory;
use crate::growing::push;
use crate::sink::{Put, Sink};
use std::alloc::Global;
use std::marker::Model;

/// A sink that keeps in memory what was written and tells it. Its model is the bytes written, the room and the most of
/// one put in bytes, the list of the puts that are to fail, the number of puts so far and the number of faults.
///
/// Puts are counted from 0, and both numbers stay at the last value of a `u64`.
#[derive(Drop)]
pub struct MemSink {
    bytes: Vec<u8>,
    room: usize,
    most: usize,
    failing: Vec<u64>,
    calls: u64,
    faults: u64,
}

impl Model for MemSink {
    ghost use Rattle.std.specs.Prelude.{◌≤◌, vec_len, vec_capacity};
    ghost use Rattle.outside.specs.SinkState.{SinkState};

    ghost Value = { SinkState };

    ghost view = { λ s. record {
      written = s.bytes.items;
      room = s.room;
      most = s.most;
      failing = s.failing.items;
      calls = s.calls;
      faults = s.faults;
    } };

    ghost invariant = { λ s. (vec_len s.bytes ≤ s.room) × (s.room ≤ vec_capacity s.bytes)
        × (1 ≤ s.most) };
}

impl MemSink {
    /// A sink with room for `room` bytes in all, which takes at most `most` bytes in one put. Nothing is written, no
    /// put is to fail, none is counted, and there is no fault. The room is taken now, so that no put wants memory.
    pub fn new(alloc: Global, room: usize, most: usize) -> Result<MemSink, NoMemory>
        requires { 1 ≤ most }
        ensures { IfOk result (λ sink. sink
            ≡ record
            { written = []; room = room; most = most; failing = []; calls = 0; faults = 0 }) }
    {
        let bytes = Vec::with_capacity(alloc, room)?;
        Ok(MemSink {
            bytes,
            room,
            most,
            failing: Vec::new(alloc),
            calls: 0,
            faults: 0,
        })
    }

    /// Lists a put that is to fail, by its number from 0. All else stays. After `NoMemory` the sink is as it was.
    pub fn fail_at(&mut self, call: u64) -> Result<(), NoMemory>
        ensures ok { OnOk result
            (self.new ≡ record self.old { failing = self.old.failing ++ call ∷ [] }) }
        ensures err { OnErr result (self.new ≡ self.old) }
    {
        push(&mut self.failing, call)
    }

    /// All bytes that were written, in order.
    pub fn bytes(&self) -> &[u8]
        ensures { result.now ≡ self.now.written }
    {
        self.bytes.as_slice()
    }
}

impl Sink for MemSink {
    ghost use Rattle.std.specs.Prelude.{Some};
    ghost use Rattle.outside.specs.SinkState.{IsPut};

    ghost written = { λ s. Some s.written };

    ghost faults = { λ s. s.faults };

    ghost is_put = { λ s piece answer after. IsPut s piece answer after };

    /// A listed put, and one of a piece that is not empty where no room is left, is `Failed` and one fault more. Any
    /// other put takes as many bytes as the piece has, one put may take and there is room for, and raises no fault.
    fn put(&mut self, piece: &[u8]) -> Put
        // The promises of every sink.
        ensures faults_never_fall { self.old.faults ≤ self.new.faults }
        ensures taken { (n : ℕ) → result ≡ Put.Taken n →
            Appended (Some self.old.written) (take n piece.now) (Some self.new.written) }
        ensures within_piece { (n : ℕ) → result ≡ Put.Taken n → n ≤ length piece.now }
        ensures progress { (n : ℕ) → result ≡ Put.Taken n → 0 < length piece.now → 0 < n }
        ensures failed { result ≡ Put.Failed → Rose self.old.faults self.new.faults }
        ensures failed_writes_nothing { result ≡ Put.Failed →
            Some self.new.written ≡ Some self.old.written }
        ensures put { IsPut self.old piece.now result self.new }

        // What this one adds.
        ensures fails { OnTrue (fails_now self.old piece.now) (result ≡ Put.Failed) }
        ensures after_fault { OnTrue (fails_now self.old piece.now)
            (self.new ≡ after_failing self.old) }
        ensures takes { OnFalse (fails_now self.old piece.now)
            (self.new ≡ after_taking self.old piece.now) }
        ensures takes_count { OnFalse (fails_now self.old piece.now)
            (result ≡ Put.Taken (share_of self.old piece.now)) }
    {
        let call = self.calls;
        self.calls = call.saturating_add(1);
        let free = self.room - self.bytes.len();
        if self.failing.contains(&call) || (free == 0 && !piece.is_empty()) {
            self.faults = self.faults.saturating_add(1);
            return Put::Failed;
        }
        let n = piece.len().min(self.most).min(free);
        match self.bytes.extend_from_slice(&piece[..n]) {
            Ok(()) => Put::Taken(n),
            Err(_) => unreachable!(),
        }
    }
}
