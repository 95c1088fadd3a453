//! Reads what happened on a channel.

ghost use Rattle.std.specs.Prelude.{◌≡◌, Ok, IfOk};
ghost use Rattle.sshc_wire.specs.RecordReads.{confirmed_at, exit_signal_at, extended_data_at, happened_by};
ghost use Rattle.sshc_wire.specs.RecordReads.{open_failure_at, signal_at};

use crate::channel_record::ChannelRecord;
use crate::cursor::Cursor;
use crate::error::RecordError;
use crate::reading::part::{read_octets, read_reason, read_text};
use crate::signal::Sig;
use std::alloc::Global;

#[tactic(auto, unfolding(crate::specs::RecordReads::confirmed_at))]
fn confirmed(c: &mut Cursor<'_>) -> Result<ChannelRecord, RecordError>
    ensures { IfOk result (λ h. confirmed_at c.old ≡ Ok (h, c.new)) }
{
    let max_packet_size = c.u32()?;
    let window_size = c.u32()?;
    Ok(ChannelRecord::Open {
        max_packet_size,
        window_size,
    })
}

#[tactic(auto, unfolding(crate::specs::RecordReads::open_failure_at))]
fn open_failure(alloc: Global, c: &mut Cursor<'_>) -> Result<ChannelRecord, RecordError>
    ensures { IfOk result (λ h. open_failure_at c.old ≡ Ok (h, c.new)) }
{
    let reason = read_reason(c)?;
    let description = read_text(alloc, c)?;
    let language = read_text(alloc, c)?;
    Ok(ChannelRecord::OpenFailure {
        reason,
        description,
        language,
    })
}

#[tactic(auto, unfolding(crate::specs::RecordReads::extended_data_at))]
fn extended_data(alloc: Global, c: &mut Cursor<'_>) -> Result<ChannelRecord, RecordError>
    ensures { IfOk result (λ h. extended_data_at c.old ≡ Ok (h, c.new)) }
{
    let ext = c.u32()?;
    let body = read_octets(alloc, c)?;
    Ok(ChannelRecord::ExtendedData { ext, body })
}

/// The signal of the name that comes next.
#[tactic(auto, unfolding(crate::specs::RecordReads::signal_at), using(crate::proofs::ReadingLemmas::text_string))]
fn signal(alloc: Global, c: &mut Cursor<'_>) -> Result<Sig, RecordError>
    ensures { IfOk result (λ s. signal_at c.old ≡ Ok (s, c.new)) }
{
    Ok(Sig::from_name(alloc, c.text()?)?)
}

#[tactic(auto, unfolding(crate::specs::RecordReads::exit_signal_at))]
fn exit_signal(alloc: Global, c: &mut Cursor<'_>) -> Result<ChannelRecord, RecordError>
    ensures { IfOk result (λ h. exit_signal_at c.old ≡ Ok (h, c.new)) }
{
    let signal_name = signal(alloc, c)?;
    let core_dumped = c.boolean()?;
    let error_message = read_text(alloc, c)?;
    let lang_tag = read_text(alloc, c)?;
    Ok(ChannelRecord::ExitSignal {
        signal_name,
        core_dumped,
        error_message,
        lang_tag,
    })
}

/// What happened by the record of this number, after the channel's number.
pub(super) fn read_channel(
    alloc: Global,
    number: u8,
    c: &mut Cursor<'_>,
) -> Result<ChannelRecord, RecordError>
    ensures { IfOk result (λ h. happened_by number c.old ≡ Ok (h, c.new)) }
{
    match number {
        0x22 => confirmed(c),
        0x23 => Ok(ChannelRecord::Success),
        0x24 => Ok(ChannelRecord::Failure),
        0x25 => Ok(ChannelRecord::Close),
        0x26 => Ok(ChannelRecord::Eof),
        0x27 => open_failure(alloc, c),
        0x29 => Ok(ChannelRecord::Data {
            body: read_octets(alloc, c)?,
        }),
        0x2a => extended_data(alloc, c),
        0x2b => Ok(ChannelRecord::XonXoff {
            client_can_do: c.boolean()?,
        }),
        0x2c => Ok(ChannelRecord::ExitStatus {
            exit_status: c.u32()?,
        }),
        0x2d => exit_signal(alloc, c),
        0x2e => Ok(ChannelRecord::WindowAdjusted { new_size: c.u32()? }),
        _ => Err(RecordError::NotARecord),
    }
}
