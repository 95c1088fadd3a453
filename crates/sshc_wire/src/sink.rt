//! Where bytes go.

ghost use Rattle.std.specs.Prelude.{◌≡◌, ℕ, ◌+◌, ◌<◌, ◌≤◌, List, length, take, Option, IfOk, OnOk, OnErr};
ghost use Rattle.sshc_wire.specs.Beside.{Beside};
ghost use Rattle.sshc_wire.specs.Contents.{append, WroteFront, WritesFor};
ghost use Rattle.sshc_wire.specs.Faults.{CountsOne, CountsEmpty, HasCause};

use crate::source::Failed;

/// Takes bytes one piece after another.
pub trait Sink {
    /// The bytes that it holds, where they are known.
    ghost contents: { Self → Option (List ℕ) };

    /// How often a write has failed.
    ghost faults: { Self → ℕ };

    /// How often it was written to.
    ghost writes: { Self → ℕ };

    /// How many of these writes took no byte of a piece that isn't empty.
    ghost empty_writes: { Self → ℕ };

    /// What it keeps beside what is written, as of a stream that is read too.
    ghost beside: { Self → Beside };

    /// Takes a front of the piece, at least a byte of one that isn't empty.
    fn write(&mut self, piece: &[u8]) -> Result<usize, Failed>
        ensures bound { IfOk result (λ n. n ≤ length piece.now) }
        ensures moves { IfOk result (λ n. 0 < length piece.now → 0 < n) }
        ensures bytes { IfOk result (λ n. contents self.new ≡ append (contents self.old) (take n piece.now)) }
        ensures none { OnErr result (contents self.new ≡ contents self.old) }
        ensures cause { HasCause (faults self.old) (faults self.new) result }
        ensures counted { CountsOne (writes self.old) (writes self.new) }
        ensures empty { CountsEmpty result (length piece.now) (empty_writes self.old) (empty_writes self.new) }
        ensures apart { beside self.new ≡ beside self.old };
}

/// Writes the whole piece, or a front of it. Each write but the last moves at least one byte.
pub fn write_whole<K: Sink>(sink: &mut K, piece: &[u8]) -> Result<(), Failed>
    ensures whole { OnOk result (K.contents sink.new ≡ append (K.contents sink.old) piece.now) }
    ensures cut { OnErr result (WroteFront (K.contents sink.old) (K.contents sink.new) piece.now) }
    ensures cause { HasCause (K.faults sink.old) (K.faults sink.new) result }
    ensures moved { OnOk result (K.writes sink.new ≤ K.writes sink.old + length piece.now) }
    ensures counted { K.writes sink.new ≤ K.writes sink.old + length piece.now + 1 }
    ensures writes { OnErr result
        (WritesFor (K.contents sink.old) (K.contents sink.new) (K.writes sink.old) (K.writes sink.new)) }
    ensures empty { OnOk result (K.empty_writes sink.new ≡ K.empty_writes sink.old) }
    ensures last { K.empty_writes sink.new ≤ K.empty_writes sink.old + 1 }
    ensures apart { K.beside sink.new ≡ K.beside sink.old }
{
    let mut written = 0usize;
    while written < piece.len() {
        match sink.write(&piece[written..]) {
            Ok(n) => written += n,
            Err(e) => return Err(e),
        }
    }
    Ok(())
}
