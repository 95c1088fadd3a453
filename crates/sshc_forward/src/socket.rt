//! Sockets of the system as streams of pairs, each read by one thread, and written to and ended by another. That a real
//! socket behaves so is not proved.

ghost use Rattle.std.specs.Prelude.{◌≡◌, None};
ghost use Rattle.std.specs.Io.{ReadsAtMost, WritesAtMost};
ghost use Rattle.sshc_wire.specs.Beside.{no_side};

use crate::ends::StreamEnd;
use sshc_wire::{Failed, NoMemory, Sink, StdSink, StdSource};
use std::alloc::Global;
use std::io::{self, Read, Write};
use std::marker::Model;
use std::net::{Shutdown, TcpStream};
use std::os::unix::net::UnixStream;
use std::sync::Arc;

/// A socket of the system, which is read, written to and shut down by a shared reference.
pub trait Socket: Drop {
    fn receive(&self, buf: &mut [u8]) -> io::Result<usize>
        ensures bound { ReadsAtMost result buf.new };

    fn send(&self, piece: &[u8]) -> io::Result<usize>
        ensures bound { WritesAtMost result piece.now };

    fn shut(&self, how: Shutdown) -> io::Result<()>;
}

impl Socket for TcpStream {
    fn receive(&self, buf: &mut [u8]) -> io::Result<usize> {
        let mut socket: &TcpStream = self;
        socket.read(buf)
    }

    fn send(&self, piece: &[u8]) -> io::Result<usize> {
        let mut socket: &TcpStream = self;
        socket.write(piece)
    }

    fn shut(&self, how: Shutdown) -> io::Result<()> {
        self.shutdown(how)
    }
}

impl Socket for UnixStream {
    fn receive(&self, buf: &mut [u8]) -> io::Result<usize> {
        let mut socket: &UnixStream = self;
        socket.read(buf)
    }

    fn send(&self, piece: &[u8]) -> io::Result<usize> {
        let mut socket: &UnixStream = self;
        socket.write(piece)
    }

    fn shut(&self, how: Shutdown) -> io::Result<()> {
        self.shutdown(how)
    }
}

/// A socket that its reader and its writer share. It is closed once both are gone.
#[derive(Drop)]
pub struct SharedSocket<S: Socket> {
    socket: Arc<S, Global>,
}

impl<S: Socket> Read for SharedSocket<S> {
    fn read(&mut self, buf: &mut [u8]) -> io::Result<usize> {
        self.socket.receive(buf)
    }
}

impl<S: Socket> Write for SharedSocket<S> {
    fn write(&mut self, buf: &[u8]) -> io::Result<usize> {
        self.socket.send(buf)
    }

    fn flush(&mut self) -> io::Result<()> {
        Ok(())
    }
}

/// What is read from a socket, behind a buffer.
pub type SocketReader<S> = StdSource<SharedSocket<S>>;

/// What is written to a socket, and how it ends: by a shutdown of one direction, and of both.
#[derive(Drop)]
pub struct SocketWriter<S: Socket> {
    sink: StdSink<SharedSocket<S>>,
    socket: Arc<S, Global>,
}

impl<S: Socket> Model for SocketWriter<S> {
    ghost use Rattle.sshc_wire.specs.Faults.{Counted};

    ghost Value = { Counted };

    ghost view = { λ w. w.sink };
}

impl<S: Socket> Sink for SocketWriter<S> {
    ghost contents = { λ w. None };

    ghost faults = { λ w. w.faults };

    ghost writes = { λ w. w.calls };

    ghost empty_writes = { λ w. w.empty };

    ghost beside = { λ w. no_side };

    fn write(&mut self, piece: &[u8]) -> Result<usize, Failed> {
        self.sink.write(piece)
    }
}

impl<S: Socket> StreamEnd for SocketWriter<S> {
    fn end_writing(&mut self) {
        // One that can't be shut down is closed already.
        let _ = self.socket.shut(Shutdown::Write);
    }

    fn close(&mut self) {
        let _ = self.socket.shut(Shutdown::Both);
    }
}

/// The reader and the writer of a socket, for `serve_pair`. If memory runs out the socket is closed.
pub fn split_socket<S: Socket>(
    alloc: Global,
    socket: S,
) -> Result<(SocketReader<S>, SocketWriter<S>), NoMemory> {
    let shared = Arc::new(alloc, socket)?;
    let reader = SharedSocket {
        socket: Arc::try_clone(&shared)?,
    };
    let writer = SharedSocket {
        socket: Arc::try_clone(&shared)?,
    };
    let source = StdSource::new(alloc, reader)?;
    Ok((
        source,
        SocketWriter {
            sink: StdSink::new(writer),
            socket: shared,
        },
    ))
}
