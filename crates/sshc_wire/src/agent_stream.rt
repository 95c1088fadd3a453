//! A stream to an agent.

ghost use Rattle.std.specs.Prelude.{◌≡◌};
ghost use Rattle.sshc_wire.specs.Beside.{side};

use crate::sink::Sink;
use crate::source::Source;

/// A stream to an agent (the ssh-agent draft, section 3): frames go out, answers come in. What
/// comes in, what was written and the counts of faults are those of its source and its sink.
pub trait AgentStream: Source + Sink {
    /// A read leaves what was written.
    ghost beside_reads: { (s : Self) → Self.Source.beside s
        ≡ side (Self.contents s) (Self.writes s) (Self.empty_writes s) (Self.Sink.faults s) };

    /// A write leaves what is to be read.
    ghost beside_writes: { (s : Self) → Self.Sink.beside s
        ≡ side (Self.left s) (Self.reads s) (Self.empty_reads s) (Self.Source.faults s) };
}
