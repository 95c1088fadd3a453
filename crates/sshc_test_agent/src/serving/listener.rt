//! Streams in memory, one after another.

ghost use Rattle.std.specs.Prelude.{◌≡◌, Some};
ghost use Rattle.sshc_wire.specs.Beside.{no_side};

use sshc_agent::Listener;
use sshc_ask::Duplex;
use sshc_wire::{Failed, MemSink, MemSource, NoMemory, Sink};
use std::alloc::Global;
use std::marker::Model;
use std::sync::atomic::AtomicBool;
use std::sync::atomic::Ordering::SeqCst;

/// A sink in memory that raises a flag at each write.
#[derive(Drop)]
pub(crate) struct FlagSink<'a> {
    inner: MemSink,
    flag: Option<&'a AtomicBool>,
}

impl<'a> Sink for FlagSink<'a> {
    ghost contents = { λ s. Some s.inner.contents };

    ghost faults = { λ s. s.inner.faults };

    ghost writes = { λ s. s.inner.calls };

    ghost empty_writes = { λ s. s.inner.empty };

    ghost beside = { λ s. no_side };

    fn write(&mut self, piece: &[u8]) -> Result<usize, Failed> {
        if let Some(flag) = self.flag {
            flag.store(true, SeqCst);
        }
        self.inner.write(piece)
    }
}

/// Bytes to be read, and a sink that raises a flag.
pub(crate) type FlagStream<'a> = Duplex<MemSource, FlagSink<'a>>;

/// A stream of these bytes.
pub(crate) fn stream<'a>(
    alloc: Global,
    bytes: Vec<u8>,
    flag: Option<&'a AtomicBool>,
) -> FlagStream<'a> {
    Duplex {
        source: MemSource::new(bytes, Vec::new(alloc)),
        sink: FlagSink {
            inner: MemSink::new(Vec::new(alloc), Vec::new(alloc)),
            flag,
        },
    }
}

/// The same without a flag, where the first write fails.
pub(crate) fn failing_stream<'a>(
    alloc: Global,
    bytes: Vec<u8>,
) -> Result<FlagStream<'a>, NoMemory> {
    let mut failing = Vec::new(alloc);
    failing.push(0)?;
    Ok(Duplex {
        source: MemSource::new(bytes, Vec::new(alloc)),
        sink: FlagSink {
            inner: MemSink::new(Vec::new(alloc), failing),
            flag: None,
        },
    })
}

/// Accepts its streams from the last to the first. Then it fails, or runs out of memory.
#[derive(Drop)]
pub(crate) struct Streams<'a> {
    left: Vec<FlagStream<'a>>,
    starves: bool,
    faults: u64,
}

impl<'a> Model for Streams<'a> {
    ghost use Rattle.std.specs.Prelude.{ℕ};

    ghost Value = { ℕ };

    ghost view = { λ s. s.faults };
}

impl<'a> Streams<'a> {
    pub(crate) fn new(left: Vec<FlagStream<'a>>, starves: bool) -> Streams<'a> {
        Streams {
            left,
            starves,
            faults: 0,
        }
    }
}

impl<'a> Listener for Streams<'a> {
    type Stream = FlagStream<'a>;

    ghost faults = { λ s. s };

    fn accept(&mut self) -> Result<FlagStream<'a>, Failed> {
        match self.left.pop() {
            Some(stream) => Ok(stream),
            None if self.starves => Err(Failed::NoMemory),
            None => {
                self.faults = self.faults.saturating_add(1);
                Err(Failed::Fault)
            }
        }
    }
}
