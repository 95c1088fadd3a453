//! A source and a sink as one stream.

ghost use Rattle.std.specs.Prelude.{◌≡◌};
ghost use Rattle.sshc_wire.specs.Beside.{side};

use sshc_wire::{AgentStream, Failed, Sink, Source};

/// A stream that is read from one object and written to another.
#[derive(Drop)]
pub struct Duplex<R, W> {
    pub source: R,
    pub sink: W,
}

impl<R: Source, W: Sink> Source for Duplex<R, W> {
    ghost left = { λ s. R.left s.source };

    ghost faults = { λ s. R.faults s.source };

    ghost reads = { λ s. R.reads s.source };

    ghost empty_reads = { λ s. R.empty_reads s.source };

    ghost beside = { λ s. side (W.contents s.sink) (W.writes s.sink) (W.empty_writes s.sink) (W.faults s.sink) };

    fn read(&mut self, buf: &mut [u8]) -> Result<usize, Failed> {
        self.source.read(buf)
    }
}

impl<R: Source, W: Sink> Sink for Duplex<R, W> {
    ghost contents = { λ s. W.contents s.sink };

    ghost faults = { λ s. W.faults s.sink };

    ghost writes = { λ s. W.writes s.sink };

    ghost empty_writes = { λ s. W.empty_writes s.sink };

    ghost beside = { λ s. side (R.left s.source) (R.reads s.source) (R.empty_reads s.source) (R.faults s.source) };

    fn write(&mut self, piece: &[u8]) -> Result<usize, Failed> {
        self.sink.write(piece)
    }
}

impl<R: Source, W: Sink> AgentStream for Duplex<R, W> {
    ghost use Rattle.std.specs.Prelude.{refl};

    ghost beside_reads = { λ s. refl };

    ghost beside_writes = { λ s. refl };
}
