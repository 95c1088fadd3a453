//! A server that awaits the packets of a list, and what the user of a channel is shown.

use crate::answers::let_go;
use sshc_client::{ChannelMsg, Config, Error};
use sshc_handle::{Channel, Handle, connect_stream};
use sshc_sample_fakes::{Coming, FakeRunner, FakeTransport, Host, Keeper, Server, TickingClock};
use sshc_toy::{RefusingVerifier, ToySigner};
use sshc_wire::NoMemory;
use std::alloc::Global;
use std::sync::Wait;

/// A packet that the server awaits, and the packet with which it answers; no bytes are no answer.
pub(crate) type Line = (&'static [u8], &'static [u8]);

/// A server that awaits these packets in this order. It closes the stream at another one.
#[derive(Drop)]
pub(crate) struct Script {
    host: Host,
    lines: &'static [Line],
    at: usize,
    /// The packet with which it closes the stream after an exchange that the client begins; with no bytes it doesn't.
    last: &'static [u8],
}

impl Server for Script {
    fn hear(&mut self, packet: &[u8], coming: &mut Coming) -> Result<(), NoMemory> {
        if self.at >= self.lines.len() {
            coming.end();
            return Ok(());
        }
        let (awaited, answer) = self.lines[self.at];
        self.at += 1;
        if packet != awaited {
            coming.end();
        } else if !answer.is_empty() {
            coming.packet(answer)?;
        }
        Ok(())
    }

    fn exchange(&mut self, coming: &mut Coming) -> Result<(), NoMemory> {
        self.host.exchange(coming)?;
        if self.last.is_empty() {
            return Ok(());
        }
        coming.packet(self.last)?;
        coming.end();
        Ok(())
    }
}

/// A server that awaits these packets, and goes on behind an exchange that the client begins.
pub(crate) fn awaiting(alloc: Global, lines: &'static [Line]) -> Script {
    script_with(alloc, lines, b"")
}

/// The same with a last packet.
fn script_with(alloc: Global, lines: &'static [Line], last: &'static [u8]) -> Script {
    Script {
        host: Host::new(alloc, 1),
        lines,
        at: 0,
        last,
    }
}

/// A session over such a server, which its first exchange opens unless it has to log in.
pub(crate) fn scripted(
    alloc: Global,
    anonymous: bool,
    lines: &'static [Line],
) -> Result<(Handle<Keeper>, FakeRunner<Script>), Error> {
    parting(alloc, anonymous, lines, b"")
}

/// The same over a server that closes the stream behind this packet, after an exchange that the client begins.
pub(crate) fn parting(
    alloc: Global,
    anonymous: bool,
    lines: &'static [Line],
    last: &'static [u8],
) -> Result<(Handle<Keeper>, FakeRunner<Script>), Error> {
    let coming = Host::new(alloc, 1).greeting()?;
    let mut config = Config::default_in(alloc)?;
    config.anonymous = anonymous;
    let script = script_with(alloc, lines, last);
    connect_stream(
        alloc,
        config,
        FakeTransport::new(script, coming, 1000),
        Keeper,
        ToySigner::new(alloc),
        RefusingVerifier,
        TickingClock { now: 0, step: 0 },
    )
}

/// One letter for what a channel's user is shown next; none at the end.
fn next_letter<R: Wait>(rt: &R, channel: &mut Channel<Keeper>) -> Option<char> {
    let msg = channel.wait(rt);
    let letter = letter_of(&msg);
    let_go(msg);
    letter
}

fn letter_of(msg: &Option<ChannelMsg>) -> Option<char> {
    match msg {
        Some(ChannelMsg::Open { .. }) => Some('o'),
        Some(ChannelMsg::Success) => Some('s'),
        Some(ChannelMsg::Failure) => Some('f'),
        Some(ChannelMsg::Close) => Some('c'),
        Some(_) => Some('?'),
        None => None,
    }
}

/// Whether the channel's user is shown just this, in order, as one letter a message: `o` that it is open, `s` and `f`
/// for a request that succeeded or failed, `c` that it is closed.
pub(crate) fn shows<R: Wait>(rt: &R, channel: &mut Channel<Keeper>, letters: &[char]) -> bool {
    for letter in letters {
        if next_letter(rt, channel) != Some(*letter) {
            return false;
        }
    }
    next_letter(rt, channel).is_none()
}
