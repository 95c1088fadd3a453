//! A source and a sink in memory that move one byte a call, or as many as are asked for. For tests and rows.

ghost use Rattle.std.specs.Prelude.{Some};
ghost use Rattle.sshc_wire.specs.Beside.{no_side};

use crate::memory::{MemSink, MemSource};
use crate::sink::Sink;
use crate::source::{Failed, Source};

/// Bytes in memory: a read gives at most one of them if `is_slow`.
#[derive(Drop)]
pub struct PieceSource {
    pub source: MemSource,
    pub is_slow: bool,
}

impl Source for PieceSource {
    ghost left = { λ s. Some s.source.left };

    ghost faults = { λ s. s.source.faults };

    ghost reads = { λ s. s.source.calls };

    ghost empty_reads = { λ s. s.source.empty };

    ghost beside = { λ s. no_side };

    fn read(&mut self, buf: &mut [u8]) -> Result<usize, Failed> {
        let most = if self.is_slow {
            buf.len().min(1)
        } else {
            buf.len()
        };
        self.source.read(&mut buf[..most])
    }
}

/// A list of bytes in memory: a write takes at most one byte if `is_slow`.
#[derive(Drop)]
pub struct PieceSink {
    pub sink: MemSink,
    pub is_slow: bool,
}

impl Sink for PieceSink {
    ghost contents = { λ s. Some s.sink.contents };

    ghost faults = { λ s. s.sink.faults };

    ghost writes = { λ s. s.sink.calls };

    ghost empty_writes = { λ s. s.sink.empty };

    ghost beside = { λ s. no_side };

    fn write(&mut self, piece: &[u8]) -> Result<usize, Failed> {
        let most = if self.is_slow {
            piece.len().min(1)
        } else {
            piece.len()
        };
        self.sink.write(&piece[..most])
    }
}
