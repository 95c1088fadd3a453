//! Channels that the peer opens (RFC 4254, section 5.1).

ghost use Rattle.std.specs.Prelude.{◌≡◌};
ghost use Rattle.sshc_wire.specs.Format.{no_bytes_at};
ghost use Rattle.sshc_client_packets.specs.Parts.{Gives, GivesAll, ReadsAll};
ghost use Rattle.sshc_client_packets.specs.PeerOpens.{address_at, direct_streamlocal_at, direct_tcpip_at};
ghost use Rattle.sshc_client_packets.specs.PeerOpens.{forwarded_streamlocal_at, forwarded_tcpip_at, lent_open};
ghost use Rattle.sshc_client_packets.specs.PeerOpens.{peer_open_of, server_open_at, server_open_of, x11_at};

use crate::channel_open::Sender;
use crate::channel_packets::sender;
use crate::error::PacketError;
use crate::taking::{text_of, u32_of};
use sshc_wire::{Cursor, ServerOpen, Text, WireError};
use std::alloc::Global;

/// The front of CHANNEL_OPEN: the type's name and the peer's side; what follows is read by the name.
#[derive(Clone, Copy)]
pub struct PeerOpen<'a> {
    pub kind: &'a str,
    pub sender: Sender,
    pub rest: &'a [u8],
}

/// The front of CHANNEL_OPEN (RFC 4254, section 5.1).
#[tactic(auto, unfolding(crate::specs::PeerOpens::peer_open_of))]
pub fn read_channel_open(body: &[u8]) -> Result<PeerOpen<'_>, WireError>
    ensures { ReadsAll lent_open result (peer_open_of body.now) }
{
    let mut packet = Cursor::new(body);
    let kind = packet.text()?;
    let sender = sender(&mut packet)?;
    Ok(PeerOpen {
        kind,
        sender,
        rest: packet.rest(),
    })
}

/// An address and a port.
#[tactic(auto, unfolding(crate::specs::PeerOpens::address_at))]
fn address(alloc: Global, c: &mut Cursor<'_>) -> Result<(Text, u32), PacketError>
    ensures { Gives (λ x. (x.0, x.1)) result c.new (address_at c.old) }
{
    let address = text_of(alloc, c)?;
    let port = u32_of(c)?;
    Ok((address, port))
}

#[tactic(auto, unfolding(crate::specs::PeerOpens::direct_tcpip_at))]
fn direct_tcpip(alloc: Global, c: &mut Cursor<'_>) -> Result<ServerOpen, PacketError>
    ensures { Gives (λ o. o) result c.new (direct_tcpip_at c.old) }
{
    let (host_to_connect, port_to_connect) = address(alloc, c)?;
    let (originator_address, originator_port) = address(alloc, c)?;
    Ok(ServerOpen::DirectTcpIp {
        host_to_connect,
        port_to_connect,
        originator_address,
        originator_port,
    })
}

#[tactic(auto, unfolding(crate::specs::PeerOpens::forwarded_tcpip_at))]
fn forwarded_tcpip(alloc: Global, c: &mut Cursor<'_>) -> Result<ServerOpen, PacketError>
    ensures { Gives (λ o. o) result c.new (forwarded_tcpip_at c.old) }
{
    let (connected_address, connected_port) = address(alloc, c)?;
    let (originator_address, originator_port) = address(alloc, c)?;
    Ok(ServerOpen::ForwardedTcpIp {
        connected_address,
        connected_port,
        originator_address,
        originator_port,
    })
}

#[tactic(auto, unfolding(crate::specs::PeerOpens::x11_at))]
fn x11(alloc: Global, c: &mut Cursor<'_>) -> Result<ServerOpen, PacketError>
    ensures { Gives (λ o. o) result c.new (x11_at c.old) }
{
    let (originator_address, originator_port) = address(alloc, c)?;
    Ok(ServerOpen::X11 {
        originator_address,
        originator_port,
    })
}

#[tactic(auto, unfolding(crate::specs::PeerOpens::direct_streamlocal_at))]
fn direct_streamlocal(alloc: Global, c: &mut Cursor<'_>) -> Result<ServerOpen, PacketError>
    ensures { Gives (λ o. o) result c.new (direct_streamlocal_at c.old) }
{
    let socket_path = text_of(alloc, c)?;
    Ok(ServerOpen::DirectStreamLocal { socket_path })
}

#[tactic(auto, unfolding(crate::specs::PeerOpens::forwarded_streamlocal_at))]
fn forwarded_streamlocal(alloc: Global, c: &mut Cursor<'_>) -> Result<ServerOpen, PacketError>
    ensures { Gives (λ o. o) result c.new (forwarded_streamlocal_at c.old) }
{
    let socket_path = text_of(alloc, c)?;
    Ok(ServerOpen::ForwardedStreamLocal { socket_path })
}

#[tactic(auto, unfolding(crate::specs::PeerOpens::server_open_at))]
fn server_open(alloc: Global, kind: &str, c: &mut Cursor<'_>) -> Result<ServerOpen, PacketError>
    ensures { Gives (λ o. o) result c.new (server_open_at kind.now c.old) }
{
    match kind {
        "session" => Ok(ServerOpen::Session),
        "direct-tcpip" => direct_tcpip(alloc, c),
        "direct-streamlocal@openssh.com" => direct_streamlocal(alloc, c),
        "x11" => x11(alloc, c),
        "forwarded-tcpip" => forwarded_tcpip(alloc, c),
        "forwarded-streamlocal@openssh.com" => forwarded_streamlocal(alloc, c),
        "auth-agent@openssh.com" => Ok(ServerOpen::AgentForward),
        _ => Ok(ServerOpen::Unknown),
    }
}

/// The fields of an open of this type; the bytes after them are ignored. Of an unknown type nothing is read.
#[tactic(auto, unfolding(crate::specs::PeerOpens::server_open_of))]
pub fn read_server_open(alloc: Global, kind: &str, fields: &[u8]) -> Result<ServerOpen, PacketError>
    ensures { GivesAll (λ o. o) result (server_open_of kind.now fields.now) }
{
    let mut c = Cursor::new(fields);
    server_open(alloc, kind, &mut c)
}
