//! Pairs served by `serve_pair` over a socket of the system, whose other end a local program holds: the call returns, and
//! the program reads the stream's end, whoever ends first.

use crate::answers::leave;
use crate::echo::{Echo, echoing};
use sshc_client::Error;
use sshc_forward::{serve_pair, split_socket};
use sshc_handle::{Handle, HandleCalls};
use sshc_sample_fakes::{Keeper, at_once, run_beside};
use std::alloc::Global;
use std::io::{self, Read, Write};
use std::net::Shutdown;
use std::os::unix::net::UnixStream;
use std::sync::Wait;
use std::test::*;
use std::thread::Threads;
use std::time::Clock;

/// How many bytes the local program sends before it ends its writing: more than two pieces of a read.
const SENT: usize = 70_000;

/// What the local program does at its end of the socket.
#[derive(Clone, Copy)]
enum Local {
    /// It sends five bytes, and then waits for the end.
    Waits,
    /// It sends its bytes, ends its writing, and reads to the end.
    Ends,
    /// It sends five bytes, reads them back, and the session is left while it waits for the end.
    Leaves,
}

/// Sends five bytes and reads to the end. Returns how many came.
fn knock(alloc: Global, socket: &mut UnixStream) -> io::Result<usize> {
    let mut came = Vec::new(alloc);
    socket.write_all(b"knock")?;
    socket.read_to_end(&mut came)
}

/// Sends bytes, ends the writing, and reads to the end. Returns how many came.
fn send_all(alloc: Global, socket: &mut UnixStream) -> io::Result<usize> {
    let mut came = Vec::new(alloc);
    let sent = Vec::from_elem(alloc, 0x5a, SENT)?;
    socket.write_all(sent.as_slice())?;
    socket.shutdown(Shutdown::Write)?;
    let count = socket.read_to_end(&mut came)?;
    if came.as_slice() == sent.as_slice() {
        Ok(count)
    } else {
        Ok(0)
    }
}

/// Sends five bytes, and reads them back.
fn knock_back(socket: &mut UnixStream) -> io::Result<bool> {
    let mut came = [0u8; 5];
    socket.write_all(b"knock")?;
    socket.read_exact(&mut came)?;
    Ok(came.as_slice() == b"knock".as_slice())
}

/// The same, and leaves the session and reads to the end. Returns how many bytes came then.
fn knock_and_leave<R: Wait>(
    rt: &R,
    alloc: Global,
    handle: &Handle<Keeper>,
    socket: &mut UnixStream,
) -> io::Result<usize> {
    let mut came = Vec::new(alloc);
    let is_back = knock_back(socket)?;
    let _ = leave(rt, handle);
    let count = socket.read_to_end(&mut came)?;
    if is_back { Ok(count) } else { Ok(SENT) }
}

/// What the local program does, and how many bytes came; `None` if a call of the socket failed.
fn talk<R: Wait>(
    rt: &R,
    alloc: Global,
    handle: &Handle<Keeper>,
    local: Local,
    socket: UnixStream,
) -> Option<usize> {
    let mut socket = socket;
    let came = match local {
        Local::Waits => knock(alloc, &mut socket),
        Local::Ends => send_all(alloc, &mut socket),
        Local::Leaves => knock_and_leave(rt, alloc, handle, &mut socket),
    };
    came.ok()
}

/// Opens a channel, and serves the socket with it.
fn serve<R: Threads + Wait + Sync>(
    rt: &R,
    alloc: Global,
    handle: &Handle<Keeper>,
    socket: UnixStream,
) -> Result<(), Error> {
    let (mut reader, mut writer) = split_socket(alloc, socket)?;
    let channel = handle.channel_open_direct_tcpip(rt, "echo", 7, "127.0.0.1", 1000)?;
    serve_pair(rt, alloc, handle, channel, &mut reader, &mut writer)?;
    Ok(())
}

/// Serves a socket whose other end the local program holds, and leaves.
fn serve_local<R: Threads + Wait + Sync>(
    rt: &R,
    alloc: Global,
    handle: &Handle<Keeper>,
    local: Local,
    near: UnixStream,
    far: UnixStream,
) -> (Option<usize>, Result<(), Error>) {
    let ended = at_once(
        rt,
        handle,
        |handle| talk(rt, alloc, handle, local, far),
        |handle| serve(rt, alloc, handle, near),
    );
    let _ = leave(rt, handle);
    ended
}

/// The same over a server of this kind.
fn served<R: Threads + Wait + Sync + Clock>(
    rt: &R,
    alloc: Global,
    echo: Echo,
    local: Local,
    near: UnixStream,
    far: UnixStream,
) -> Result<(Option<usize>, Result<(), Error>), Error> {
    let (handle, runner) = echoing(alloc, echo)?;
    let (ended, _run) = run_beside(
        rt,
        &handle,
        runner,
        |handle| serve_local(rt, alloc, handle, local, near, far),
    );
    Ok(ended)
}

/// A name, the server, what the local program does, and how many bytes come to it before the end.
const ENDS: &[(&str, Echo, Local, usize)] = &[
    ("the server closes first", Echo::Closes, Local::Waits, 0),
    (
        "the local program ends first",
        Echo::Back,
        Local::Ends,
        SENT,
    ),
    ("the session is left", Echo::Back, Local::Leaves, 0),
];

/// Whoever ends first, both ends of the pair come to an end.
#[test]
fn sockets_come_to_an_end(rt: HostRuntime) -> Result<(), Fail> {
    for (name, echo, local, count) in ENDS {
        let (near, far) = UnixStream::pair(&rt)?;
        let (came, ended) = served(&rt, rt.alloc(), *echo, *local, near, far)?;
        assert!(&rt; came == Some(*count) && ended == Ok(()), "{name}");
    }
    Ok(())
}
