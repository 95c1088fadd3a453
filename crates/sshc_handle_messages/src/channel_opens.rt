//! Opens of channels as messages.

ghost use Rattle.std.specs.Prelude.{◌≡◌, IfOk};
ghost use Rattle.sshc_handle_messages.specs.Messages.{asked_ticket};
ghost use Rattle.sshc_client.specs.declared.message.Msg.TheVariants as msgs;

use crate::logins::asked;
use sshc_client::Msg;
use sshc_wire::{NoMemory, Text};
use std::alloc::Global;

/// A channel of X11, from the address and the port of a client of it (RFC 4254, section 6.3.2).
pub fn x11(alloc: Global, address: &str, port: u32) -> Result<Msg, NoMemory>
    ensures { IfOk result (λ m. m ≡ msgs.ChannelOpenX11 address.now port asked_ticket) }
{
    Ok(Msg::ChannelOpenX11 {
        originator_address: Text::from_str(alloc, address)?,
        originator_port: port,
        ticket: asked(),
    })
}

/// A connection from the server to a host and a port, for one that came from an address and a port (RFC 4254, section
/// 7.2).
pub fn direct_tcpip(
    alloc: Global,
    host: &str,
    port: u32,
    address: &str,
    own_port: u32,
) -> Result<Msg, NoMemory>
    ensures { IfOk result (λ m. m ≡ msgs.ChannelOpenDirectTcpIp host.now port address.now own_port asked_ticket) }
{
    Ok(Msg::ChannelOpenDirectTcpIp {
        host_to_connect: Text::from_str(alloc, host)?,
        port_to_connect: port,
        originator_address: Text::from_str(alloc, address)?,
        originator_port: own_port,
        ticket: asked(),
    })
}

/// A connection from the server to a Unix socket (OpenSSH's PROTOCOL, section 2.4).
pub fn direct_streamlocal(alloc: Global, path: &str) -> Result<Msg, NoMemory>
    ensures { IfOk result (λ m. m ≡ msgs.ChannelOpenDirectStreamLocal path.now asked_ticket) }
{
    Ok(Msg::ChannelOpenDirectStreamLocal {
        socket_path: Text::from_str(alloc, path)?,
        ticket: asked(),
    })
}
