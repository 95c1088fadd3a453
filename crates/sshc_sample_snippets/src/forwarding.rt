//! A local port's stream served with a channel of a session, and the core of forwards by itself.

use sshc_client::Handler;
use sshc_forward::{ForwardCore, FwdEvent, FwdOutput, FwdRefused, StreamEnd, serve_pair};
use sshc_handle::{Handle, HandleCalls};
use sshc_wire::{Sink, Source};
use std::alloc::Global;
use std::sync::Wait;
use std::thread::Threads;

/// Joins a stream that was accepted to its channel, and returns what is to be done.
pub fn join_pair(core: &mut ForwardCore) -> Result<Vec<FwdOutput>, FwdRefused> {
    core.step(&FwdEvent::Opened {
        stream: 1,
        channel: 7,
    })
}

/// Opens a channel to port 7 of the server's host "echo" for a stream that came to a local port, and serves both until
/// the channel is closed. Whether it was served.
pub fn serve_local<
    H: Handler,
    S: Source + Send,
    K: Sink + StreamEnd + Send,
    R: Threads + Wait + Sync,
>(rt: &R, alloc: Global, handle: &Handle<H>, reader: &mut S, writer: &mut K) -> bool
where
    H::Error: Send,
{
    match handle.channel_open_direct_tcpip(rt, "echo", 7, "127.0.0.1", 1000) {
        Ok(channel) => serve_pair(rt, alloc, handle, channel, reader, writer).is_ok(),
        Err(_refused) => false,
    }
}
