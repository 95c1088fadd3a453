//! Requests of the peer's on a channel (RFC 4254, section 5.4).

ghost use Rattle.std.specs.Prelude.{◌≡◌};
ghost use Rattle.sshc_client_packets.specs.Parts.{GivesAll};
ghost use Rattle.sshc_client_packets.specs.PeerRequests.{exit_signal_of, exit_status_of, keepalive_of, peer_request_of};
ghost use Rattle.sshc_client_packets.specs.PeerRequests.{unknown_of, xon_xoff_of};

use crate::error::PacketError;
use crate::taking::{flag_of, text_of, u8_of, u32_of, words_of};
use sshc_wire::{Cursor, Sig, Text};
use std::alloc::Global;

/// What the peer asks or reports on a channel.
#[derive(PartialEq, Eq, Drop)]
pub enum PeerRequest {
    /// Whether the client may do flow control (RFC 4254, section 6.8).
    XonXoff {
        client_can_do: bool,
    },
    /// The exit status of the remote command (RFC 4254, section 6.10).
    ExitStatus {
        exit_status: u32,
    },
    /// The signal that ended the remote command (RFC 4254, section 6.10).
    ExitSignal {
        signal_name: Sig,
        core_dumped: bool,
        error_message: Text,
        lang_tag: Text,
    },
    /// Only a reply is asked for.
    Keepalive {
        want_reply: bool,
    },
    /// A request of another name.
    Unknown {
        want_reply: bool,
    },
}

#[tactic(auto, unfolding(crate::specs::PeerRequests::xon_xoff_of))]
fn xon_xoff(fields: &[u8]) -> Result<PeerRequest, PacketError>
    ensures { GivesAll (λ r. r) result (xon_xoff_of fields.now) }
{
    let mut c = Cursor::new(fields);
    let _want_reply = u8_of(&mut c)?;
    let client_can_do = flag_of(&mut c)?;
    c.ensure_end()?;
    Ok(PeerRequest::XonXoff { client_can_do })
}

#[tactic(auto, unfolding(crate::specs::PeerRequests::exit_status_of))]
fn exit_status(fields: &[u8]) -> Result<PeerRequest, PacketError>
    ensures { GivesAll (λ r. r) result (exit_status_of fields.now) }
{
    let mut c = Cursor::new(fields);
    let _want_reply = u8_of(&mut c)?;
    let exit_status = u32_of(&mut c)?;
    c.ensure_end()?;
    Ok(PeerRequest::ExitStatus { exit_status })
}

#[tactic(auto, unfolding(crate::specs::PeerRequests::exit_signal_of))]
fn exit_signal(alloc: Global, fields: &[u8]) -> Result<PeerRequest, PacketError>
    ensures { GivesAll (λ r. r) result (exit_signal_of fields.now) }
{
    let mut c = Cursor::new(fields);
    let _want_reply = u8_of(&mut c)?;
    let signal_name = Sig::from_name(alloc, words_of(&mut c)?)?;
    let core_dumped = flag_of(&mut c)?;
    let error_message = text_of(alloc, &mut c)?;
    let lang_tag = text_of(alloc, &mut c)?;
    c.ensure_end()?;
    Ok(PeerRequest::ExitSignal {
        signal_name,
        core_dumped,
        error_message,
        lang_tag,
    })
}

#[tactic(auto, unfolding(crate::specs::PeerRequests::keepalive_of))]
fn keepalive(fields: &[u8]) -> Result<PeerRequest, PacketError>
    ensures { GivesAll (λ r. r) result (keepalive_of fields.now) }
{
    let mut c = Cursor::new(fields);
    let want_reply = flag_of(&mut c)?;
    c.ensure_end()?;
    Ok(PeerRequest::Keepalive { want_reply })
}

#[tactic(auto, unfolding(crate::specs::PeerRequests::unknown_of))]
fn unknown(fields: &[u8]) -> Result<PeerRequest, PacketError>
    ensures { GivesAll (λ r. r) result (unknown_of fields.now) }
{
    let want_reply = flag_of(&mut Cursor::new(fields))?;
    Ok(PeerRequest::Unknown { want_reply })
}

/// Reads a request of this name from the bytes after the name.
#[tactic(auto, unfolding(crate::specs::PeerRequests::peer_request_of))]
pub fn read_channel_request(
    alloc: Global,
    name: &str,
    fields: &[u8],
) -> Result<PeerRequest, PacketError>
    ensures { GivesAll (λ r. r) result (peer_request_of name.now fields.now) }
{
    match name {
        "xon-xoff" => xon_xoff(fields),
        "exit-status" => exit_status(fields),
        "exit-signal" => exit_signal(alloc, fields),
        "keepalive@openssh.com" => keepalive(fields),
        _ => unknown(fields),
    }
}
