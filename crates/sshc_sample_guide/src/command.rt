//! Logs in over a transport in memory, and runs a command.

use sshc_client::{ChannelMsg, Config, Error};
use sshc_handle::{AuthResult, ChannelCalls, Handle, HandleCalls, at_once, connect_stream};
use sshc_sample_fakes::{FakeTransport, Host, Keeper, StillClock};
use sshc_toy::{RefusingVerifier, ToySigner};
use sshc_wire::Disconnect;
use std::alloc::Global;
use std::sync::Wait;
use std::thread::Threads;
use std::time::Clock;

/// The output of a command, and its status.
#[derive(Drop)]
pub struct Output {
    pub bytes: Vec<u8>,
    pub status: Option<u32>,
}

/// Runs a command on a channel of its own, and reads to the channel's end.
fn run<R: Wait>(
    rt: &R,
    alloc: Global,
    handle: &Handle<Keeper>,
    command: &[u8],
) -> Result<Output, Error> {
    let mut channel = handle.channel_open_session(rt)?;
    channel.exec(rt, true, command)?;
    let mut output = Output {
        bytes: Vec::new(alloc),
        status: None,
    };
    for _ in rt.forever() {
        match channel.wait(rt) {
            Some(ChannelMsg::Data { body }) => output.bytes.extend_from_slice(body.as_slice())?,
            Some(ChannelMsg::ExitStatus { exit_status }) => output.status = Some(exit_status),
            Some(_other) => {}
            None => break,
        }
    }
    Ok(output)
}

/// Logs in and runs a command.
fn greet<R: Wait>(rt: &R, alloc: Global, handle: &Handle<Keeper>) -> Result<Output, Error> {
    if handle.authenticate_password(rt, "alice", "pw")? != AuthResult::Success {
        return Err(Error::NotAuthenticated);
    }
    run(rt, alloc, handle, b"greet")
}

/// The same, and leaves the session, so that its runner ends.
fn greet_and_leave<R: Wait>(
    rt: &R,
    alloc: Global,
    handle: &Handle<Keeper>,
) -> Result<Output, Error> {
    let output = greet(rt, alloc, handle);
    // The server may have left before.
    let _ = handle.disconnect(rt, Disconnect::ByApplication, "done", "");
    output
}

/// Logs in over a transport in memory, and runs a command.
pub fn greeted<R: Threads + Wait + Sync + Clock>(rt: &R, alloc: Global) -> Result<Output, Error> {
    let host = Host::new(alloc, 1);
    let coming = host.greeting()?;
    let (handle, runner) = connect_stream(
        alloc,
        Config::default_in(alloc)?,
        FakeTransport::new(host, coming, 1000),
        Keeper,
        ToySigner::new(alloc),
        RefusingVerifier,
        StillClock(0),
    )?;
    let (output, _left) = at_once(
        rt,
        &handle,
        |handle| greet_and_leave(rt, alloc, handle),
        |_handle| runner.run(rt),
    );
    output
}
