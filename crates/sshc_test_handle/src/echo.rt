//! A server that accepts every channel and sends back on it what comes there.

use sshc_client::{Config, Error};
use sshc_handle::{Handle, connect_stream};
use sshc_sample_fakes::{Coming, FakeRunner, FakeTransport, Host, Keeper, Server, TickingClock};
use sshc_toy::{RefusingVerifier, ToySigner};
use sshc_wire::{Cursor, NoMemory, WireError, msg};
use std::alloc::Global;

/// The server's number of a channel is the client's and this.
const APART: u32 = 100;

/// What the server does when bytes come.
#[derive(Clone, Copy, PartialEq, Eq)]
pub(crate) enum Echo {
    /// It sends them back. Its end follows the client's.
    Back,
    /// It closes the channel.
    Closes,
}

#[derive(Drop)]
pub(crate) struct EchoServer {
    alloc: Global,
    host: Host,
    echo: Echo,
}

/// The client's number of a channel that is opened.
fn opened_by(packet: &[u8]) -> Result<u32, WireError> {
    let mut cursor = Cursor::new(packet);
    cursor.u8()?;
    cursor.bytes()?;
    cursor.u32()
}

/// The server's number in a packet of a channel, and what follows it.
fn named_by(packet: &[u8]) -> Result<(u32, &[u8]), WireError> {
    let mut cursor = Cursor::new(packet);
    cursor.u8()?;
    let number = cursor.u32()?;
    Ok((number, cursor.rest()))
}

impl EchoServer {
    /// A packet of this number for the client's channel.
    fn on(
        &self,
        number: u8,
        channel: u32,
        body: &[u8],
        coming: &mut Coming,
    ) -> Result<(), NoMemory> {
        let mut output = Vec::new(self.alloc);
        output.push(number)?;
        output.extend_from_slice(&channel.to_be_bytes())?;
        output.extend_from_slice(body)?;
        coming.packet(output.as_slice())
    }

    /// Opens a channel, with a window of 16 MiB and packets of at most 32 KiB.
    fn open(&self, packet: &[u8], coming: &mut Coming) -> Result<(), NoMemory> {
        let Ok(channel) = opened_by(packet) else {
            return Ok(());
        };
        let mut body = Vec::new(self.alloc);
        body.extend_from_slice(&channel.wrapping_add(APART).to_be_bytes())?;
        body.extend_from_slice(&[1, 0, 0, 0, 0, 0, 128, 0])?;
        self.on(
            msg::CHANNEL_OPEN_CONFIRMATION,
            channel,
            body.as_slice(),
            coming,
        )
    }

    /// Sends the packet of this number back on its channel.
    fn send_back(&self, kind: u8, packet: &[u8], coming: &mut Coming) -> Result<(), NoMemory> {
        let Ok((number, body)) = named_by(packet) else {
            return Ok(());
        };
        let channel = number.wrapping_sub(APART);
        if kind == msg::CHANNEL_DATA && self.echo == Echo::Closes {
            self.on(msg::CHANNEL_CLOSE, channel, b"", coming)
        } else {
            self.on(kind, channel, body, coming)
        }
    }
}

impl Server for EchoServer {
    fn hear(&mut self, packet: &[u8], coming: &mut Coming) -> Result<(), NoMemory> {
        let Some(kind) = packet.first() else {
            return Ok(());
        };
        match *kind {
            msg::DISCONNECT => {
                coming.end();
                Ok(())
            }
            msg::CHANNEL_OPEN => self.open(packet, coming),
            msg::CHANNEL_DATA => self.send_back(msg::CHANNEL_DATA, packet, coming),
            msg::CHANNEL_EOF => self.send_back(msg::CHANNEL_EOF, packet, coming),
            msg::CHANNEL_CLOSE => self.send_back(msg::CHANNEL_CLOSE, packet, coming),
            _ => Ok(()),
        }
    }

    fn exchange(&mut self, coming: &mut Coming) -> Result<(), NoMemory> {
        self.host.exchange(coming)
    }
}

/// A session over such a server, which its first exchange opens.
pub(crate) fn echoing(
    alloc: Global,
    echo: Echo,
) -> Result<(Handle<Keeper>, FakeRunner<EchoServer>), Error> {
    let host = Host::new(alloc, 1);
    let coming = host.greeting()?;
    let mut config = Config::default_in(alloc)?;
    config.anonymous = true;
    let server = EchoServer { alloc, host, echo };
    connect_stream(
        alloc,
        config,
        FakeTransport::new(server, coming, u64::MAX),
        Keeper,
        ToySigner::new(alloc),
        RefusingVerifier,
        TickingClock { now: 0, step: 0 },
    )
}
