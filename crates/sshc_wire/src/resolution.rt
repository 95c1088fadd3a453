//! How a ticket is resolved.

ghost use Rattle.std.specs.Prelude.{◌≡◌, ◌++◌, OnOk, OnErr};
ghost use Rattle.sshc_wire.specs.Records.{resolution_text};
ghost use Rattle.sshc_wire.specs.Extending.{Extends};

use crate::channel_id::ChannelId;
use crate::channel_open_failure::ChannelOpenFailure;
use crate::error::NoMemory;
use crate::list::List;
use crate::methods::{MethodSet, put_methods};
use crate::names::put_names;
use crate::octets::Octets;
use crate::put::{put_bool, put_bytes, put_numbered};
use crate::text::Text;

/// Why the host keys that a server announced aren't proved (OpenSSH's PROTOCOL, section 2.5).
#[derive(Clone, Copy, Debug, PartialEq, Eq)]
pub enum HostKeysFault {
    /// The answer isn't one signature for each key.
    SshEncoding = 0,
    /// A signature isn't right.
    WrongServerSig = 1,
}

/// How a ticket is resolved.
#[derive(PartialEq, Eq, Drop)]
pub enum Resolution {
    /// The server accepted the authentication.
    AuthSuccess,
    /// The server refused it, with the methods that can go on.
    AuthFailure {
        remaining_methods: MethodSet,
        partial_success: bool,
    },
    /// The server announced the extension (RFC 8308).
    ExtInfoSeen,
    /// The signature algorithms that the server announced, if it did.
    SigAlgs {
        known: bool,
        names: List<Text>,
    },
    /// The channel is open.
    ChannelOpened {
        id: ChannelId,
    },
    ChannelOpenFailed {
        reason: ChannelOpenFailure,
    },
    /// The server listens on this port; 0 is the port that was asked for.
    ForwardPort {
        port: u32,
    },
    Done,
    Denied,
    Pong,
    HostKeysProved,
    HostKeysRefused(HostKeysFault),
    /// The answer to a global request of the user's own.
    GlobalReply {
        body: Octets,
    },
    /// Another request took the place of this one, or nothing can answer it.
    Dropped,
}

/// Writes the resolution's number and fields. Out of memory, a part of them may be written.
#[tactic(auto, using(crate::proofs::Extended::extended, crate::proofs::Extended::unextended))]
pub(crate) fn put_resolution_parts(
    out: &mut Vec<u8>,
    resolution: &Resolution,
) -> Result<(), NoMemory>
    ensures ok { OnOk result (out.new.items ≡ out.old.items ++ resolution_text resolution.now) }
    ensures err { OnErr result (Extends out.old.items out.new.items) }
{
    match resolution {
        Resolution::AuthSuccess => out.push(0x00)?,
        Resolution::AuthFailure {
            remaining_methods,
            partial_success,
        } => {
            out.push(0x01)?;
            put_methods(out, remaining_methods)?;
            put_bool(out, *partial_success)?;
        }
        Resolution::ExtInfoSeen => out.push(0x02)?,
        Resolution::SigAlgs { known, names } => {
            out.push(0x03)?;
            put_bool(out, *known)?;
            put_names(out, names.as_slice())?;
        }
        Resolution::ChannelOpened { id } => put_numbered(out, 0x04, id.0)?,
        Resolution::ChannelOpenFailed { reason } => put_numbered(out, 0x05, reason.code())?,
        Resolution::ForwardPort { port } => put_numbered(out, 0x06, *port)?,
        Resolution::Done => out.push(0x07)?,
        Resolution::Denied => out.push(0x08)?,
        Resolution::Pong => out.push(0x09)?,
        Resolution::HostKeysProved => out.push(0x0a)?,
        Resolution::HostKeysRefused(fault) => {
            out.push(0x0b)?;
            out.push(*fault as u8)?;
        }
        Resolution::GlobalReply { body } => {
            out.push(0x0c)?;
            put_bytes(out, body.as_slice())?;
        }
        Resolution::Dropped => out.push(0x0d)?,
    }
    Ok(())
}

/// Writes the resolution's number and fields, or nothing.
#[tactic(auto, using(crate::proofs::Extended::cut_back))]
pub fn put_resolution(out: &mut Vec<u8>, resolution: &Resolution) -> Result<(), NoMemory>
    ensures ok { OnOk result (out.new.items ≡ out.old.items ++ resolution_text resolution.now) }
    ensures err { OnErr result (out.new.items ≡ out.old.items) }
{
    let before = out.len();
    let written = put_resolution_parts(out, resolution);
    if written.is_err() {
        out.truncate(before);
    }
    written
}
