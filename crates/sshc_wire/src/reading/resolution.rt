//! Reads how a ticket is resolved.

ghost use Rattle.std.specs.Prelude.{◌≡◌, Ok, IfOk};
ghost use Rattle.sshc_wire.specs.RecordReads.{auth_failure_at, proof_of, resolution_at, resolution_by, sig_algs_at};

use crate::channel_id::ChannelId;
use crate::cursor::Cursor;
use crate::error::RecordError;
use crate::reading::part::{read_methods, read_names, read_octets, read_reason};
use crate::resolution::{HostKeysFault, Resolution};
use std::alloc::Global;

#[tactic(auto, unfolding(crate::specs::RecordReads::auth_failure_at))]
fn auth_failure(alloc: Global, c: &mut Cursor<'_>) -> Result<Resolution, RecordError>
    ensures { IfOk result (λ r. auth_failure_at c.old ≡ Ok (r, c.new)) }
{
    let remaining_methods = read_methods(alloc, c)?;
    let partial_success = c.boolean()?;
    Ok(Resolution::AuthFailure {
        remaining_methods,
        partial_success,
    })
}

#[tactic(auto, unfolding(crate::specs::RecordReads::sig_algs_at))]
fn sig_algs(alloc: Global, c: &mut Cursor<'_>) -> Result<Resolution, RecordError>
    ensures { IfOk result (λ r. sig_algs_at c.old ≡ Ok (r, c.new)) }
{
    let known = c.boolean()?;
    let names = read_names(alloc, c)?;
    Ok(Resolution::SigAlgs { known, names })
}

fn host_keys_fault(number: u8) -> Result<HostKeysFault, RecordError>
    ensures { IfOk result (λ f. f ≡ proof_of number) }
{
    match number {
        0 => Ok(HostKeysFault::SshEncoding),
        1 => Ok(HostKeysFault::WrongServerSig),
        _ => Err(RecordError::NotARecord),
    }
}

/// The fields of the resolution of this number.
fn resolution_by(alloc: Global, number: u8, c: &mut Cursor<'_>) -> Result<Resolution, RecordError>
    ensures { IfOk result (λ r. resolution_by number c.old ≡ Ok (r, c.new)) }
{
    match number {
        0x00 => Ok(Resolution::AuthSuccess),
        0x01 => auth_failure(alloc, c),
        0x02 => Ok(Resolution::ExtInfoSeen),
        0x03 => sig_algs(alloc, c),
        0x04 => Ok(Resolution::ChannelOpened {
            id: ChannelId(c.u32()?),
        }),
        0x05 => Ok(Resolution::ChannelOpenFailed {
            reason: read_reason(c)?,
        }),
        0x06 => Ok(Resolution::ForwardPort { port: c.u32()? }),
        0x07 => Ok(Resolution::Done),
        0x08 => Ok(Resolution::Denied),
        0x09 => Ok(Resolution::Pong),
        0x0a => Ok(Resolution::HostKeysProved),
        0x0b => Ok(Resolution::HostKeysRefused(host_keys_fault(c.u8()?)?)),
        0x0c => Ok(Resolution::GlobalReply {
            body: read_octets(alloc, c)?,
        }),
        0x0d => Ok(Resolution::Dropped),
        _ => Err(RecordError::NotARecord),
    }
}

/// A resolution's number and fields.
#[tactic(auto, unfolding(crate::specs::RecordReads::resolution_at))]
pub(super) fn read_resolution(alloc: Global, c: &mut Cursor<'_>) -> Result<Resolution, RecordError>
    ensures { IfOk result (λ r. resolution_at c.old ≡ Ok (r, c.new)) }
{
    let number = c.u8()?;
    resolution_by(alloc, number, c)
}
