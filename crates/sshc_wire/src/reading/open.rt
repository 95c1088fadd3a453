//! Reads a channel that the server opens.

ghost use Rattle.std.specs.Prelude.{◌≡◌, Ok, IfOk};
ghost use Rattle.sshc_wire.specs.RecordReads.{direct_tcpip_at, forwarded_tcpip_at, open_at, open_by, x11_at};

use crate::channel_record::ServerOpen;
use crate::cursor::Cursor;
use crate::error::RecordError;
use crate::reading::part::read_text;
use std::alloc::Global;

#[tactic(auto, unfolding(crate::specs::RecordReads::direct_tcpip_at))]
fn direct_tcpip(alloc: Global, c: &mut Cursor<'_>) -> Result<ServerOpen, RecordError>
    ensures { IfOk result (λ o. direct_tcpip_at c.old ≡ Ok (o, c.new)) }
{
    let host_to_connect = read_text(alloc, c)?;
    let port_to_connect = c.u32()?;
    let originator_address = read_text(alloc, c)?;
    let originator_port = c.u32()?;
    Ok(ServerOpen::DirectTcpIp {
        host_to_connect,
        port_to_connect,
        originator_address,
        originator_port,
    })
}

#[tactic(auto, unfolding(crate::specs::RecordReads::x11_at))]
fn x11(alloc: Global, c: &mut Cursor<'_>) -> Result<ServerOpen, RecordError>
    ensures { IfOk result (λ o. x11_at c.old ≡ Ok (o, c.new)) }
{
    let originator_address = read_text(alloc, c)?;
    let originator_port = c.u32()?;
    Ok(ServerOpen::X11 {
        originator_address,
        originator_port,
    })
}

#[tactic(auto, unfolding(crate::specs::RecordReads::forwarded_tcpip_at))]
fn forwarded_tcpip(alloc: Global, c: &mut Cursor<'_>) -> Result<ServerOpen, RecordError>
    ensures { IfOk result (λ o. forwarded_tcpip_at c.old ≡ Ok (o, c.new)) }
{
    let connected_address = read_text(alloc, c)?;
    let connected_port = c.u32()?;
    let originator_address = read_text(alloc, c)?;
    let originator_port = c.u32()?;
    Ok(ServerOpen::ForwardedTcpIp {
        connected_address,
        connected_port,
        originator_address,
        originator_port,
    })
}

/// The fields of a channel of the type of this number.
fn open_by(alloc: Global, number: u8, c: &mut Cursor<'_>) -> Result<ServerOpen, RecordError>
    ensures { IfOk result (λ o. open_by number c.old ≡ Ok (o, c.new)) }
{
    match number {
        0 => Ok(ServerOpen::Session),
        1 => direct_tcpip(alloc, c),
        2 => Ok(ServerOpen::DirectStreamLocal {
            socket_path: read_text(alloc, c)?,
        }),
        3 => x11(alloc, c),
        4 => forwarded_tcpip(alloc, c),
        5 => Ok(ServerOpen::ForwardedStreamLocal {
            socket_path: read_text(alloc, c)?,
        }),
        6 => Ok(ServerOpen::AgentForward),
        7 => Ok(ServerOpen::Unknown),
        _ => Err(RecordError::NotARecord),
    }
}

/// The number of a channel's type, and the channel's fields.
#[tactic(auto, unfolding(crate::specs::RecordReads::open_at))]
pub(super) fn read_open(alloc: Global, c: &mut Cursor<'_>) -> Result<ServerOpen, RecordError>
    ensures { IfOk result (λ o. open_at c.old ≡ Ok (o, c.new)) }
{
    let number = c.u8()?;
    open_by(alloc, number, c)
}
