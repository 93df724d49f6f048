//! Where output is written to.
ghost use Rattle.std.specs.Prelude.{◌≡◌, ℕ, ◌<◌, ◌≤◌, List, [], Option, length, IsOk, OnOk, OnErr, take, true, false};
ghost use Rattle.outside.specs.Held.{Rose, Appended, AppendedFront, AppendedShorter};
ghost use Rattle.outside.specs.Puts.{PutDownTo, PutUntilFailed, Puts};

/// How a put ended.
#[derive(Clone, Copy, PartialEq, Eq, Debug)]
pub enum Put {
    /// This number of bytes, from the front of the piece, was written.
    Taken(usize),
    /// Nothing was written.
    Failed,
}

/// Writing failed, and perhaps only a front of the bytes was written.
#[derive(Clone, Copy, PartialEq, Eq, Debug)]
pub struct WriteFault;

/// Takes bytes. It has three meanings: what was written, where it tells that; the number of faults that it met, which
/// never falls; and what a put is: from which state, of which piece and with which answer it comes to which state.
pub trait Sink {
    ghost use Rattle.outside.specs.declared.sink.Put.{Put};

    ghost written: { Self → Option (List ℕ) };

    ghost faults: { Self → ℕ };

    ghost is_put: { Self → List ℕ → Put → Self → Type 0 };

    /// Writes bytes from the front of the piece, after all that was written before.
    ///
    /// `Taken(n)` wrote the first `n` bytes, and at least one of a piece that is not empty. `Failed` wrote nothing, and
    /// comes only where the number of faults rose.
    fn put(&mut self, piece: &[u8]) -> Put
        ensures faults_never_fall { faults self.old ≤ faults self.new }

        ensures taken { (n : ℕ) → result ≡ Put.Taken n →
            Appended (written self.old) (take n piece.now) (written self.new) }
        ensures within_piece { (n : ℕ) → result ≡ Put.Taken n → n ≤ length piece.now }
        ensures progress { (n : ℕ) → result ≡ Put.Taken n → 0 < length piece.now → 0 < n }

        ensures failed { result ≡ Put.Failed → Rose (faults self.old) (faults self.new) }
        ensures failed_writes_nothing { result ≡ Put.Failed → written self.new ≡ written self.old }

        ensures put { is_put self.old piece.now result self.new };
}

/// Writes all the bytes, in as many puts as the sink wants, and makes no put where no byte is left. It takes no memory.
///
/// `WriteFault` comes only where the number of faults rose. Some front of the bytes is then written, and not all of them:
/// after the last byte nothing more is put, nor after a put that failed.
pub fn put_all<K: Sink>(out: &mut K, bytes: &[u8]) -> Result<(), WriteFault>
    ensures faults_never_fall { K.faults out.old ≤ K.faults out.new }
    ensures all { OnOk result (Appended (K.written out.old) bytes.now (K.written out.new)) }
    ensures front { OnErr result (AppendedFront (K.written out.old) bytes.now (K.written out.new)) }
    ensures shorter { OnErr result
        (AppendedShorter (K.written out.old) bytes.now (K.written out.new)) }
    ensures fault { OnErr result (Rose (K.faults out.old) (K.faults out.new)) }

    // With no bytes the sink is not called.
    ensures nothing_is_ok { bytes.now ≡ [] → IsOk result }
    ensures nothing_put { bytes.now ≡ [] → out.new ≡ out.old }

    // Each put is of all that is left, which is not empty: the last one took the last byte, or failed.
    ensures puts { OnOk result (PutDownTo K.is_put out.old bytes.now out.new []) }
    ensures puts_until_failed { OnErr result (PutUntilFailed K.is_put out.old bytes.now out.new) }

    // What a caller says of all its puts.
    ensures none_failed { OnOk result (Puts K.is_put out.old false out.new) }
    ensures last_failed { OnErr result (Puts K.is_put out.old true out.new) }
{
    let mut at = 0usize;
    while at < bytes.len() {
        match out.put(&bytes[at..]) {
            Put::Taken(n) => at += n,
            Put::Failed => return Err(WriteFault),
        }
    }
    Ok(())
}
