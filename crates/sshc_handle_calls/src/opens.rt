//! How channels are opened.

ghost use Rattle.sshc_client.specs.declared.message.Msg.TheVariants as msgs;
ghost use Rattle.sshc_handle_tickets.specs.Answers.{open_answer};
ghost use Rattle.sshc_handle_messages.specs.Messages.{asked_ticket};
ghost use Rattle.sshc_handle_calls.specs.Asking.{Asked, Asks};
ghost use Rattle.sshc_handle_calls.specs.Lines.{submitted};

use crate::line::{Line, ask};
use crate::reader::Opened;
use sshc_auth::Error;
use sshc_client::Msg;
use sshc_handle_messages::{asked, direct_streamlocal, direct_tcpip, x11};
use sshc_wire::ChannelId;
use std::alloc::Global;
use std::sync::Wait;

/// Opens a session channel (RFC 4254, section 6.1).
pub fn channel_open_session<L: Line, R: Wait>(rt: &R, line: &mut L) -> Result<ChannelId, Error>
    ensures { Asked open_answer (submitted (msgs.ChannelOpenSession asked_ticket))
        (L.calls line.old) (L.calls line.new) result }
{
    ask::<Opened, L, R>(rt, line, Msg::ChannelOpenSession { ticket: asked() })
}

/// Opens a channel of X11 (RFC 4254, section 6.3.2).
pub fn channel_open_x11<L: Line, R: Wait>(
    rt: &R,
    line: &mut L,
    alloc: Global,
    address: &str,
    port: u32,
) -> Result<ChannelId, Error>
    ensures { Asks open_answer (submitted (msgs.ChannelOpenX11 address.now port asked_ticket))
        (L.calls line.old) (L.calls line.new) result }
{
    let msg = x11(alloc, address, port)?;
    ask::<Opened, L, R>(rt, line, msg)
}

/// Opens a connection from the server to a host and a port, for one that came from an address and a port (RFC 4254,
/// section 7.2).
pub fn channel_open_direct_tcpip<L: Line, R: Wait>(
    rt: &R,
    line: &mut L,
    alloc: Global,
    host: &str,
    port: u32,
    address: &str,
    own_port: u32,
) -> Result<ChannelId, Error>
    ensures { Asks open_answer (submitted (msgs.ChannelOpenDirectTcpIp host.now port address.now own_port asked_ticket))
        (L.calls line.old) (L.calls line.new) result }
{
    let msg = direct_tcpip(alloc, host, port, address, own_port)?;
    ask::<Opened, L, R>(rt, line, msg)
}

/// Opens a connection from the server to a Unix socket (OpenSSH's PROTOCOL, section 2.4).
pub fn channel_open_direct_streamlocal<L: Line, R: Wait>(
    rt: &R,
    line: &mut L,
    alloc: Global,
    path: &str,
) -> Result<ChannelId, Error>
    ensures { Asks open_answer (submitted (msgs.ChannelOpenDirectStreamLocal path.now asked_ticket))
        (L.calls line.old) (L.calls line.new) result }
{
    let msg = direct_streamlocal(alloc, path)?;
    ask::<Opened, L, R>(rt, line, msg)
}
