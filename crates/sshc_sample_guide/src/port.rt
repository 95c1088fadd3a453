//! Logs in, has the server forward a port, and reads what a connection to it brings. The transport is filled by a thread
//! of its own, as one over a socket is, and wakes the runner. `docs/GUIDE.md` explains this program.

use crate::doorman::{Arrivals, Doorman, watch_door};
use crate::server::Forwarding;
use sshc_client::{ChannelMsg, Config, Error};
use sshc_handle::{AuthResult, Channel, Handle, HandleCalls, at_once, connect_stream};
use sshc_sample_fakes::{Host, StillClock, across_threads};
use sshc_toy::{RefusingVerifier, ToySigner};
use sshc_wire::{ChannelId, Disconnect};
use std::alloc::Global;
use std::sync::Wait;
use std::thread::{self, Threads};
use std::time::Clock;

/// The bytes that come on a channel, to its end.
fn read_all<R: Wait>(
    rt: &R,
    alloc: Global,
    channel: &mut Channel<Doorman>,
) -> Result<Vec<u8>, Error> {
    let mut bytes = Vec::new(alloc);
    for _ in rt.forever() {
        match channel.wait(rt) {
            Some(ChannelMsg::Data { body }) => bytes.extend_from_slice(body.as_slice())?,
            Some(_other) => {}
            None => break,
        }
    }
    Ok(bytes)
}

/// Logs in, and has the server forward port 8080. Returns the first connection that comes to it.
fn first_connection<R: Wait>(
    rt: &R,
    handle: &Handle<Doorman>,
    arrivals: &mut Arrivals,
) -> Result<ChannelId, Error> {
    if handle.authenticate_password(rt, "alice", "pw")? != AuthResult::Success {
        return Err(Error::NotAuthenticated);
    }
    handle.tcpip_forward(rt, "localhost", 8080)?;
    match arrivals.wait(rt) {
        Some(id) => Ok(id),
        None => Err(Error::Disconnect),
    }
}

/// What the first connection brings.
fn knocked<R: Wait>(
    rt: &R,
    alloc: Global,
    handle: &Handle<Doorman>,
    arrivals: &mut Arrivals,
) -> Result<Vec<u8>, Error> {
    let id = first_connection(rt, handle, arrivals)?;
    let mut channel = handle.channel(id)?;
    read_all(rt, alloc, &mut channel)
}

/// The same, and leaves the session, so that its runner ends.
fn knocked_and_left<R: Wait>(
    rt: &R,
    alloc: Global,
    handle: &Handle<Doorman>,
    arrivals: Arrivals,
) -> Result<Vec<u8>, Error> {
    let mut arrivals = arrivals;
    let bytes = knocked(rt, alloc, handle, &mut arrivals);
    // The server may have left before.
    let _ = handle.disconnect(rt, Disconnect::ByApplication, "done", "");
    bytes
}

/// Logs in over a transport that a thread fills, has a port forwarded, and returns what a connection to it brings.
pub fn knock<R: Threads + Wait + Sync + Clock>(rt: &R, alloc: Global) -> Result<Vec<u8>, Error> {
    let greeting = Host::new(alloc, 1).greeting()?;
    let (transport, server) = across_threads(alloc, Forwarding, greeting)?;
    let (doorman, arrivals) = watch_door(alloc, [8; 32])?;
    let (handle, runner) = connect_stream(
        alloc,
        Config::default_in(alloc)?,
        transport,
        doorman,
        ToySigner::new(alloc),
        RefusingVerifier,
        StillClock(0),
    )?;
    let mut runner = runner;
    let waker = runner.waker()?;
    let (bytes, _left) = at_once(
        rt,
        &handle,
        |handle| knocked_and_left(rt, alloc, handle, arrivals),
        |_handle| { thread::join(rt, || server.serve(rt, Some(&waker)), || runner.run(rt)) },
    );
    bytes
}
