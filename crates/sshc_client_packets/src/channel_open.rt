//! Opens of channels and their answers (RFC 4254, section 5.1).

ghost use Rattle.std.specs.Prelude.{◌≡◌, ◌++◌, [], IfOk, OnOk};
ghost use Rattle.sshc_wire.specs.Wire.{string_text, u32_text};
ghost use Rattle.sshc_client_packets.specs.ChannelOpens.{channel_open, channel_open_text, confirmation_text};
ghost use Rattle.sshc_client_packets.specs.ChannelOpens.{open_failure_text, open_fields, open_type, sender_text};

use crate::putting::{ADDRESSED, address_size, put_address, put_addressed, put_words};
use sshc_wire::{ChannelOpenFailure, NoMemory, Octets, msg, put_string, put_u32};
use std::alloc::Global;

/// A channel that is asked for, by its type.
#[derive(Clone, Copy)]
pub enum ChannelOpen<'a> {
    /// RFC 4254, section 6.1.
    Session,
    /// RFC 4254, section 6.3.2.
    X11 {
        originator_address: &'a str,
        originator_port: u32,
    },
    /// RFC 4254, section 7.2.
    DirectTcpIp {
        host_to_connect: &'a str,
        port_to_connect: u32,
        originator_address: &'a str,
        originator_port: u32,
    },
    /// OpenSSH's PROTOCOL, section 2.4.
    DirectStreamLocal {
        socket_path: &'a str,
    },
}

/// The sender's side of a channel: its number, its window at first and its packet size, in bytes.
#[derive(Clone, Copy, PartialEq, Eq)]
pub struct Sender {
    pub channel: u32,
    pub window_size: u32,
    pub max_packet_size: u32,
}

/// A confirmation: the recipient's number of the channel, and the sender's side.
#[derive(Clone, Copy, PartialEq, Eq)]
pub struct Confirmation {
    pub recipient: u32,
    pub sender: Sender,
}

impl<'a> ChannelOpen<'a> {
    /// The name of the channel's type.
    pub fn type_name(&self) -> &'static str
        ensures { result.now ≡ open_type (channel_open self.now) }
    {
        match self {
            ChannelOpen::Session => "session",
            ChannelOpen::X11 { .. } => "x11",
            ChannelOpen::DirectTcpIp { .. } => "direct-tcpip",
            ChannelOpen::DirectStreamLocal { .. } => "direct-streamlocal@openssh.com",
        }
    }

    /// How many bytes the type's fields take.
    fn size(&self) -> usize {
        match self {
            ChannelOpen::Session => 0,
            ChannelOpen::X11 {
                originator_address,
                ..
            } => address_size(originator_address),
            ChannelOpen::DirectTcpIp {
                host_to_connect,
                originator_address,
                ..
            } => address_size(host_to_connect).saturating_add(address_size(originator_address)),
            ChannelOpen::DirectStreamLocal { socket_path } => address_size(
                socket_path,
            ).saturating_add(4),
        }
    }
}

/// How many bytes a sender's side of a channel takes.
const SENDER: usize = 12;

/// How many bytes an open takes before its type's fields, without the type: its number, a length and the sender's side.
const OPEN: usize = 17;

/// How many bytes a refused open takes without its description: its head, the reason, two lengths and the language.
const OPEN_FAILURE: usize = 19;

/// A path, followed by an empty string and the number 0, which are reserved.
#[tactic(auto, using(std::proofs::lemmas::List::append_assoc))]
fn put_path(out: &mut Vec<u8>, socket_path: &str) -> Result<(), NoMemory>
    ensures { OnOk result
        (out.new.items ≡ out.old.items ++ string_text socket_path.now ++ string_text [] ++ u32_text 0) }
{
    put_words(out, socket_path)?;
    put_string(out, b"".as_slice())?;
    put_u32(out, 0)
}

#[tactic(auto, using(std::proofs::lemmas::List::append_assoc))]
fn put_fields(out: &mut Vec<u8>, asked: &ChannelOpen<'_>) -> Result<(), NoMemory>
    ensures { OnOk result (out.new.items ≡ out.old.items ++ open_fields (channel_open asked.now)) }
{
    match asked {
        ChannelOpen::Session => Ok(()),
        ChannelOpen::X11 {
            originator_address,
            originator_port,
        } => put_address(out, originator_address, *originator_port),
        ChannelOpen::DirectTcpIp {
            host_to_connect,
            port_to_connect,
            originator_address,
            originator_port,
        } => {
            put_address(out, host_to_connect, *port_to_connect)?;
            put_address(out, originator_address, *originator_port)
        }
        ChannelOpen::DirectStreamLocal { socket_path } => put_path(out, socket_path),
    }
}

#[tactic(auto, using(std::proofs::lemmas::List::append_assoc))]
fn put_sender(out: &mut Vec<u8>, sender: Sender) -> Result<(), NoMemory>
    ensures { OnOk result (out.new.items ≡ out.old.items ++ sender_text sender) }
{
    put_u32(out, sender.channel)?;
    put_u32(out, sender.window_size)?;
    put_u32(out, sender.max_packet_size)
}

/// CHANNEL_OPEN (RFC 4254, section 5.1).
#[tactic(auto, using(crate::proofs::Hints::joined), unfolding(crate::specs::ChannelOpens::channel_open_text))]
pub fn channel_open_packet(
    alloc: Global,
    asked: &ChannelOpen<'_>,
    sender: Sender,
) -> Result<Octets, NoMemory>
    ensures { IfOk result (λ packet. packet ≡ channel_open_text (channel_open asked.now) sender) }
{
    let size = asked.type_name().len().saturating_add(asked.size());
    let mut packet = Vec::with_capacity(alloc, size.saturating_add(OPEN))?;
    packet.push(msg::CHANNEL_OPEN)?;
    put_words(&mut packet, asked.type_name())?;
    put_sender(&mut packet, sender)?;
    put_fields(&mut packet, asked)?;
    Octets::from_vec(packet)
}

/// CHANNEL_OPEN_CONFIRMATION (RFC 4254, section 5.1).
#[tactic(auto, using(crate::proofs::Hints::joined), unfolding(crate::specs::ChannelOpens::confirmation_text))]
pub fn confirmation_packet(alloc: Global, confirmation: Confirmation) -> Result<Octets, NoMemory>
    ensures { IfOk result (λ packet. packet ≡ confirmation_text confirmation) }
{
    let mut packet = Vec::with_capacity(alloc, ADDRESSED + SENDER)?;
    put_addressed(
        &mut packet,
        msg::CHANNEL_OPEN_CONFIRMATION,
        confirmation.recipient,
    )?;
    put_sender(&mut packet, confirmation.sender)?;
    Octets::from_vec(packet)
}

/// CHANNEL_OPEN_FAILURE with the reason's own text, in English (RFC 4254, section 5.1).
#[tactic(auto, using(crate::proofs::Hints::joined), unfolding(crate::specs::ChannelOpens::open_failure_text))]
pub fn open_failure_packet(
    alloc: Global,
    recipient: u32,
    reason: ChannelOpenFailure,
) -> Result<Octets, NoMemory>
    ensures { IfOk result (λ packet. packet ≡ open_failure_text recipient reason) }
{
    let description = reason.description();
    let size = description.len().saturating_add(OPEN_FAILURE);
    let mut packet = Vec::with_capacity(alloc, size)?;
    put_addressed(&mut packet, msg::CHANNEL_OPEN_FAILURE, recipient)?;
    put_u32(&mut packet, reason.code())?;
    put_words(&mut packet, description)?;
    put_words(&mut packet, "en")?;
    Octets::from_vec(packet)
}
