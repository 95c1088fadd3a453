//! A server that logs in and grants every other request.

use crate::server::{Coming, Server};
use sshc_transport::{ExchangeKey, ExchangeNames, ExchangeResult, NamesChosen, TransportEvent};
use sshc_wire::{Cursor, NoMemory, Octets, Text, WireError};
use std::alloc::Global;

/// The blob of an Ed25519 key of 32 times 8.
pub const HOST_KEY: [u8; 51] = [
    0, 0, 0, 11, b's', b's', b'h', b'-', b'e', b'd', b'2', b'5', b'5', b'1', b'9', 0, 0, 0, 32, 8,
    8, 8, 8, 8, 8, 8, 8, 8, 8, 8, 8, 8, 8, 8, 8, 8, 8, 8, 8, 8, 8, 8, 8, 8, 8, 8, 8, 8, 8, 8, 8,
];

/// The names of the exchange: its method's name and no others.
fn names_chosen(alloc: Global) -> Result<NamesChosen, NoMemory> {
    let names = ExchangeNames {
        kex: Text::from_str(alloc, "curve25519-sha256")?,
        key: Text::new(alloc),
        cipher: Text::new(alloc),
        client_mac: Text::new(alloc),
        server_mac: Text::new(alloc),
        strict_kex: false,
    };
    NamesChosen::new(alloc, names)
}

/// Which of the requests that are answered together are granted.
#[derive(Clone, Copy, PartialEq, Eq)]
enum Grants {
    All,
    First,
    Nothing,
}

/// A server that holds requests back until so many have come, and then answers them in their order. It holds logins
/// back in the same way, and answers only the last of them. It logs in each user but `refused`, and answers a command
/// with some output.
#[derive(Drop)]
pub struct Host {
    alloc: Global,
    /// How many requests, or logins, are answered together.
    together: usize,
    waiting: Vec<Octets>,
    logins: usize,
    grants: Grants,
    /// The packet with which it answers a ping; no bytes are no answer.
    pong: &'static [u8],
    /// It closes the stream after its answer to the first of the requests.
    closes: bool,
    /// The client's number of the channel that was opened last.
    channel: u32,
}

/// The number after a packet's first string.
fn channel_of(packet: &[u8]) -> Result<u32, WireError> {
    let mut cursor = Cursor::new(packet);
    cursor.u8()?;
    cursor.bytes()?;
    cursor.u32()
}

/// The name and the flag of a request, after its number.
fn named(packet: &[u8]) -> Result<(&str, bool), WireError> {
    let mut cursor = Cursor::new(packet);
    cursor.u8()?;
    let name = cursor.text()?;
    Ok((name, cursor.boolean()?))
}

/// A request of a channel: the channel's number, the name and the flag.
fn named_on(packet: &[u8]) -> Result<(u32, &str, bool), WireError> {
    let mut cursor = Cursor::new(packet);
    cursor.u8()?;
    let id = cursor.u32()?;
    let name = cursor.text()?;
    Ok((id, name, cursor.boolean()?))
}

fn is_ping(packet: &[u8]) -> bool {
    matches!(named(packet), Ok(("keepalive@openssh.com", true)))
}

fn first_byte(packet: &[u8]) -> u8 {
    if packet.is_empty() { 0 } else { packet[0] }
}

impl Host {
    /// One that answers so many requests together, and grants the first of them.
    pub fn new(alloc: Global, together: usize) -> Host {
        Host {
            alloc,
            together,
            waiting: Vec::new(alloc),
            logins: 0,
            grants: Grants::First,
            pong: b"\x52",
            closes: false,
            channel: 0,
        }
    }

    /// One that grants every request, so many together.
    pub fn granting(alloc: Global, together: usize) -> Host {
        let mut host = Host::new(alloc, together);
        host.grants = Grants::All;
        host
    }

    /// One that refuses every request.
    pub fn refusing(alloc: Global) -> Host {
        let mut host = Host::new(alloc, 1);
        host.grants = Grants::Nothing;
        host
    }

    /// A host that answers each ping with this packet; with no bytes it doesn't answer.
    pub fn ponging(alloc: Global, pong: &'static [u8]) -> Host {
        let mut host = Host::new(alloc, 1);
        host.pong = pong;
        host
    }

    /// A host that holds so many requests back, answers the first, and closes the stream.
    pub fn closing(alloc: Global, together: usize) -> Host {
        let mut host = Host::new(alloc, together);
        host.closes = true;
        host
    }

    /// What comes at first: a key exchange.
    pub fn greeting(&self) -> Result<Coming, NoMemory> {
        let mut coming = Coming::new(self.alloc);
        coming.event(TransportEvent::PeerKexinit)?;
        coming.event(TransportEvent::Done(self.exchanged()?))?;
        Ok(coming)
    }

    fn exchanged(&self) -> Result<ExchangeResult, NoMemory> {
        let alloc = self.alloc;
        Ok(ExchangeResult {
            key: ExchangeKey::Key(Octets::from_slice(alloc, &HOST_KEY)?),
            session_hash: Octets::from_slice(alloc, b"session-id")?,
            signature: Octets::new(alloc),
            secret: None,
            names: names_chosen(alloc)?,
        })
    }

    /// A request waits, until there are enough of them.
    fn wait(&mut self, packet: &[u8], coming: &mut Coming) -> Result<(), NoMemory> {
        if first_byte(packet) == 90 {
            self.channel = channel_of(packet).unwrap_or(0);
        }
        self.waiting.push(Octets::from_slice(self.alloc, packet)?)?;
        if self.waiting.len() < self.together {
            Ok(())
        } else {
            self.answer_all(coming)
        }
    }

    /// Answers the requests that wait, or only the first of them if the stream is closed after it.
    fn answer_all(&mut self, coming: &mut Coming) -> Result<(), NoMemory> {
        let mut grants = self.grants != Grants::Nothing;
        for at in 0..self.waiting.len() {
            if at == 0 || !self.closes {
                self.answer_one(self.waiting[at].as_slice(), grants, coming)?;
            }
            grants = self.grants == Grants::All;
        }
        if self.closes {
            coming.end();
        }
        self.waiting.clear();
        Ok(())
    }

    fn answer_one(&self, asked: &[u8], grants: bool, coming: &mut Coming) -> Result<(), NoMemory> {
        if is_ping(asked) {
            self.answer_ping(coming)
        } else {
            answer(self.alloc, asked, grants, coming)
        }
    }

    /// Answers a ping with the host's packet for it, if that has bytes.
    fn answer_ping(&self, coming: &mut Coming) -> Result<(), NoMemory> {
        if self.pong.is_empty() {
            Ok(())
        } else {
            coming.packet(self.pong)
        }
    }

    /// The output of a command on the channel that was opened last: its bytes, its status, and the end of the channel.
    fn run(&self, packet: &[u8], coming: &mut Coming) -> Result<(), NoMemory> {
        let Ok((_, "exec", wants)) = named_on(packet) else {
            return Ok(());
        };
        if wants {
            self.on(99, b"", coming)?;
        }
        self.on(94, b"\0\0\0\x06hello\n", coming)?;
        self.on(98, b"\0\0\0\x0bexit-status\0\0\0\0\0", coming)?;
        self.on(96, b"", coming)?;
        self.on(97, b"", coming)
    }

    /// A packet of this number on the channel that was opened last.
    fn on(&self, number: u8, body: &[u8], coming: &mut Coming) -> Result<(), NoMemory> {
        let mut output = Vec::new(self.alloc);
        output.push(number)?;
        output.extend_from_slice(&self.channel.to_be_bytes())?;
        output.extend_from_slice(body)?;
        coming.packet(&output)
    }

    /// A login waits, until there are enough of them; a login that was replaced isn't answered.
    fn log_in(&mut self, packet: &[u8], coming: &mut Coming) -> Result<(), NoMemory> {
        self.logins = self.logins.saturating_add(1);
        if self.logins < self.together {
            Ok(())
        } else {
            self.answer_login(packet, coming)
        }
    }

    /// A login: of each user but one, by prompts where these are asked for; a key is asked to sign.
    fn answer_login(&self, packet: &[u8], coming: &mut Coming) -> Result<(), NoMemory> {
        match login_of(packet) {
            Ok(("refused", _)) => coming.packet(b"\x33\0\0\0\x08password\0"),
            Ok((_, "keyboard-interactive")) => {
                coming.packet(b"\x3c\0\0\0\x01n\0\0\0\0\0\0\0\0\0\0\0\x01\0\0\0\x01?\0")
            }
            Ok((_, "publickey")) => self.probed(packet, coming),
            Ok((_, "gssapi-with-mic")) => {
                coming.packet(b"\x3c\0\0\0\x0b\x06\x09\x2a\x86\x48\x86\xf7\x12\x01\x02\x02")
            }
            Ok(_) => coming.packet(b"\x34"),
            Err(_) => Ok(()),
        }
    }

    /// For a key without a signature a signature is asked for; a key with one is accepted.
    fn probed(&self, packet: &[u8], coming: &mut Coming) -> Result<(), NoMemory> {
        match probe_of(packet) {
            Ok(Some(key)) => {
                let mut output = Vec::new(self.alloc);
                output.push(60)?;
                output.extend_from_slice(key)?;
                coming.packet(&output)
            }
            Ok(None) => coming.packet(b"\x34"),
            Err(_) => Ok(()),
        }
    }
}

/// The user of a login, and its method.
fn login_of(packet: &[u8]) -> Result<(&str, &str), WireError> {
    let mut cursor = Cursor::new(packet);
    cursor.u8()?;
    let user = cursor.text()?;
    cursor.text()?;
    Ok((user, cursor.text()?))
}

/// The algorithm and the blob of a key that is asked about without a signature; `None` for one with a signature.
fn probe_of(packet: &[u8]) -> Result<Option<&[u8]>, WireError> {
    let mut cursor = Cursor::new(packet);
    cursor.u8()?;
    cursor.text()?;
    cursor.text()?;
    cursor.text()?;
    if cursor.boolean()? {
        Ok(None)
    } else {
        Ok(Some(cursor.rest()))
    }
}

/// Answers a request: an open of a channel, or a global request.
fn answer(alloc: Global, packet: &[u8], grants: bool, coming: &mut Coming) -> Result<(), NoMemory> {
    if first_byte(packet) == 90 {
        answer_open(alloc, packet, grants, coming)
    } else {
        answer_global(packet, grants, coming)
    }
}

fn answer_open(
    alloc: Global,
    packet: &[u8],
    grants: bool,
    coming: &mut Coming,
) -> Result<(), NoMemory> {
    let Ok(id) = channel_of(packet) else {
        return Ok(());
    };
    let mut output = Vec::new(alloc);
    output.push(if grants { 91 } else { 92 })?;
    output.extend_from_slice(&id.to_be_bytes())?;
    if grants {
        output.extend_from_slice(&[0, 0, 0, 7, 0, 0, 16, 0, 0, 0, 16, 0])?;
    } else {
        output.extend_from_slice(&[0, 0, 0, 1, 0, 0, 0, 0, 0, 0, 0, 0])?;
    }
    coming.packet(&output)
}

fn answer_global(packet: &[u8], grants: bool, coming: &mut Coming) -> Result<(), NoMemory> {
    match named(packet) {
        Ok((_, false)) | Err(_) => Ok(()),
        Ok(("tcpip-forward", true)) if grants => coming.packet(b"\x51\0\0\x0f\xb6"),
        Ok((_, true)) => {
            if grants {
                coming.packet(b"\x51")
            } else {
                coming.packet(b"\x52")
            }
        }
    }
}

impl Server for Host {
    fn hear(&mut self, packet: &[u8], coming: &mut Coming) -> Result<(), NoMemory> {
        match first_byte(packet) {
            1 => {
                coming.end();
                Ok(())
            }
            5 => coming.packet(b"\x06\0\0\0\x0cssh-userauth"),
            50 => self.log_in(packet, coming),
            61 | 63 | 66 => coming.packet(b"\x34"),
            80 | 90 => self.wait(packet, coming),
            98 => self.run(packet, coming),
            _ => Ok(()),
        }
    }

    fn exchange(&mut self, coming: &mut Coming) -> Result<(), NoMemory> {
        coming.event(TransportEvent::PeerKexinit)?;
        coming.event(TransportEvent::Done(self.exchanged()?))
    }
}
