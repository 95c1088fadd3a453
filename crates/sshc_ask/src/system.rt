//! Unix sockets, whose contents contracts can't see. The opener is proved against its trait; that a real socket behaves
//! so is not.

ghost use Rattle.std.specs.Prelude.{IfOk, None, ◌≡◌};
ghost use Rattle.sshc_ask.specs.Opens.{CountsFault};

use crate::duplex::Duplex;
use crate::opener::{OpenFailed, Opener};
use sshc_wire::{NoMemory, StdSink, StdSource};
use std::alloc::Global;
use std::io::{self, ErrorKind, Read, Write};
use std::marker::Model;
use std::net::Net;
use std::os::unix::net::UnixStream;
use std::sync::Arc;

/// A Unix socket with one descriptor, by which it is read and written.
#[derive(Drop)]
pub struct SharedSocket {
    socket: Arc<UnixStream, Global>,
}

impl Read for SharedSocket {
    fn read(&mut self, buf: &mut [u8]) -> io::Result<usize> {
        let mut socket: &UnixStream = &self.socket;
        socket.read(buf)
    }
}

impl Write for SharedSocket {
    fn write(&mut self, buf: &[u8]) -> io::Result<usize> {
        let mut socket: &UnixStream = &self.socket;
        socket.write(buf)
    }

    fn flush(&mut self) -> io::Result<()> {
        Ok(())
    }
}

/// A Unix socket with a buffer for reading.
pub type UnixAgentStream = Duplex<StdSource<SharedSocket>, StdSink<SharedSocket>>;

/// The socket as a stream that was neither read nor written. If memory runs out the socket is closed.
pub fn socket_stream(alloc: Global, socket: UnixStream) -> Result<UnixAgentStream, NoMemory>
    ensures unused { IfOk result (λ s. (s.source.calls ≡ 0) × (s.sink.calls ≡ 0)) }
{
    let Ok(reading) = Arc::new(alloc, socket) else {
        return Err(NoMemory);
    };
    let writing = Arc::try_clone(&reading)?;
    let source = StdSource::new(alloc, SharedSocket { socket: reading })?;
    Ok(Duplex {
        source,
        sink: StdSink::new(SharedSocket { socket: writing }),
    })
}

/// Opens Unix sockets. A path that doesn't exist is `NotFound`.
#[derive(Drop)]
pub struct UnixOpener<'a, R> {
    system: &'a R,
    alloc: Global,
    missing: u64,
    failures: u64,
}

impl<'a, R> Model for UnixOpener<'a, R> {
    ghost use Rattle.sshc_ask.specs.Opens.{CountedOpens};

    ghost Value = { CountedOpens };

    ghost view = { λ o. record { missing = o.missing; failures = o.failures } };
}

impl<'a, R: Net + AllocGlobal> UnixOpener<'a, R> {
    /// An opener that was not used yet.
    pub fn new(system: &'a R) -> UnixOpener<'a, R>
        ensures { result ≡ record { missing = 0; failures = 0 } }
    {
        UnixOpener {
            system,
            alloc: system.alloc(),
            missing: 0,
            failures: 0,
        }
    }

    fn connected(&self, path: &str) -> io::Result<UnixAgentStream>
        ensures unused { IfOk result (λ s. (s.source.calls ≡ 0) × (s.sink.calls ≡ 0)) }
    {
        let socket = UnixStream::connect(self.system, path)?;
        match socket_stream(self.alloc, socket) {
            Ok(stream) => Ok(stream),
            Err(NoMemory) => Err(io::Error::from(ErrorKind::OutOfMemory)),
        }
    }
}

/// Why opening failed, which is added to the counts.
fn failed(error: io::Error, missing: &mut u64, failures: &mut u64) -> OpenFailed
    ensures not_found { CountsFault OpenFailed.NotFound missing.old missing.new result }
    ensures other { CountsFault OpenFailed.Other failures.old failures.new result }
{
    match error.kind() {
        ErrorKind::NotFound => {
            *missing = missing.saturating_add(1);
            OpenFailed::NotFound
        }
        ErrorKind::OutOfMemory => OpenFailed::NoMemory,
        _ => {
            *failures = failures.saturating_add(1);
            OpenFailed::Other
        }
    }
}

impl<'a, R: Net + AllocGlobal> Opener for UnixOpener<'a, R> {
    type Stream = UnixAgentStream;

    ghost paths = { λ o. None };

    ghost missing = { λ o. o.missing };

    ghost failures = { λ o. o.failures };

    fn open(&mut self, path: &str) -> Result<UnixAgentStream, OpenFailed> {
        match self.connected(path) {
            Ok(stream) => Ok(stream),
            Err(error) => Err(failed(error, &mut self.missing, &mut self.failures)),
        }
    }
}
