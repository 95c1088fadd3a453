//! Where the records of a run go.

ghost use Rattle.std.specs.Prelude.{◌≡◌, ◌+◌, ◌≤◌, ℕ, List, Option, OnOk, OnErr};
ghost use Rattle.sshc_wire.specs.Contents.{append, WroteFront, WritesMove, WritesFor};
ghost use Rattle.sshc_wire.specs.Faults.{HasCause};
ghost use Rattle.sshc_run_script.specs.RecordLines.{lines};

use crate::record_lines::{LineBuffer, write_lines};
use sshc_wire::{Failed, Outbox, Sink};

/// Where the records of a run go, in the order in which they are written. Contracts see what it holds as the lines of
/// the records, whatever the form in which it holds them: the promises of a run are about these lines.
pub(crate) trait RecordSink {
    /// The lines of the records that it holds, where they are known.
    ghost contents: { Self → Option (List ℕ) };

    /// How often a write has failed.
    ghost faults: { Self → ℕ };

    /// How often it was written to.
    ghost writes: { Self → ℕ };

    /// How many of these writes took no byte of a piece that isn't empty.
    ghost empty_writes: { Self → ℕ };

    /// Takes the records, or a front of their lines. `buffer` is memory for whoever makes lines.
    fn put_records(&mut self, buffer: &mut LineBuffer, records: &Outbox) -> Result<(), Failed>
        ensures whole { OnOk result (contents self.new ≡ append (contents self.old) (lines records.now.records)) }
        ensures cut { OnErr result (WroteFront (contents self.old) (contents self.new) (lines records.now.records)) }
        ensures moved { OnOk result
            (WritesMove (contents self.old) (contents self.new) (writes self.old) (writes self.new)) }
        ensures writes { OnErr result
            (WritesFor (contents self.old) (contents self.new) (writes self.old) (writes self.new)) }
        ensures cause { HasCause (faults self.old) (faults self.new) result }
        ensures moving { OnOk result (empty_writes self.new ≡ empty_writes self.old) }
        ensures last { empty_writes self.new ≤ empty_writes self.old + 1 };
}

/// Lines of hexadecimal digits, to any sink.
impl<K: Sink> RecordSink for K {
    ghost contents = { λ k. K.contents k };

    ghost faults = { λ k. K.faults k };

    ghost writes = { λ k. K.writes k };

    ghost empty_writes = { λ k. K.empty_writes k };

    fn put_records(&mut self, buffer: &mut LineBuffer, records: &Outbox) -> Result<(), Failed>
        ensures whole { OnOk result
            (K.contents self.new ≡ append (K.contents self.old) (lines records.now.records)) }
        ensures cut { OnErr result
            (WroteFront (K.contents self.old) (K.contents self.new) (lines records.now.records)) }
        ensures moved { OnOk result
            (WritesMove (K.contents self.old) (K.contents self.new) (K.writes self.old) (K.writes self.new)) }
        ensures writes { OnErr result
            (WritesFor (K.contents self.old) (K.contents self.new) (K.writes self.old) (K.writes self.new)) }
        ensures cause { HasCause (K.faults self.old) (K.faults self.new) result }
        ensures moving { OnOk result (K.empty_writes self.new ≡ K.empty_writes self.old) }
        ensures last { K.empty_writes self.new ≤ K.empty_writes self.old + 1 }
    {
        write_lines(buffer, self, records)
    }
}
