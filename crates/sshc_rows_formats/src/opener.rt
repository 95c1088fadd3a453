//! Opens streams over memory, or fails as a path that isn't there does, or as one that can't be opened.

ghost use Rattle.std.specs.Prelude.{◌≡◌, IfOk, None};

use crate::row::{bytes_of, numbers_of};
use sshc_ask::{Duplex, OpenFailed, Opener};
use sshc_wire::{MemSink, MemSource, NoMemory};
use std::alloc::Global;

/// A stream over memory.
pub type MemStream = Duplex<MemSource, MemSink>;

/// A stream that has these bytes left, of which the reads and the writes of these numbers fail.
pub fn stream_of(
    alloc: Global,
    bytes: &str,
    reads: &str,
    writes: &str,
) -> Result<MemStream, NoMemory>
    ensures { IfOk result (λ s. (s.source.calls ≡ 0) × (s.sink.calls ≡ 0)) }
{
    Ok(Duplex {
        source: MemSource::new(bytes_of(alloc, bytes), numbers_of(alloc, reads)?),
        sink: MemSink::new(Vec::new(alloc), numbers_of(alloc, writes)?),
    })
}

/// Opens a stream over memory, or fails.
#[derive(Drop)]
pub struct MemOpener {
    alloc: Global,
    /// The agent's bytes, in hexadecimal.
    answers: String,
    is_missing: bool,
    is_failing: bool,
    missing: u64,
    failures: u64,
}

impl MemOpener {
    /// An opener of streams from which these bytes, in hexadecimal, are read; by its way it `opens` them, they are
    /// `missing`, or it `fails`.
    pub fn new(alloc: Global, way: &str, answers: &str) -> Result<MemOpener, NoMemory> {
        Ok(MemOpener {
            alloc,
            answers: String::from_str(alloc, answers)?,
            is_missing: way == "missing",
            is_failing: way == "fails",
            missing: 0,
            failures: 0,
        })
    }
}

impl Opener for MemOpener {
    type Stream = MemStream;

    ghost paths = { λ o. None };

    ghost missing = { λ o. o.missing };

    ghost failures = { λ o. o.failures };

    fn open(&mut self, _path: &str) -> Result<MemStream, OpenFailed> {
        if self.is_missing {
            self.missing = self.missing.saturating_add(1);
            return Err(OpenFailed::NotFound);
        }
        if self.is_failing {
            self.failures = self.failures.saturating_add(1);
            return Err(OpenFailed::Other);
        }
        match stream_of(self.alloc, self.answers.as_str(), "", "") {
            Ok(stream) => Ok(stream),
            Err(NoMemory) => Err(OpenFailed::NoMemory),
        }
    }
}
