//! Reads an event: its fields from its bytes, and its bytes from a source.

ghost use Rattle.std.specs.Prelude.{◌≡◌, ◌≤◌, ◌<◌, ◌⊎◌, ℕ, length, Result, IfOk, IfSome, IsNone, Err};
ghost use Rattle.std.specs.Int.{w32, from_be_bytes};
ghost use Rattle.sshc_wire.specs.Faults.{Rose};
ghost use Rattle.sshc_forward_core.specs.EventText.{one_number, two_numbers, number_and_bytes, accepted_at, event_at};
ghost use Rattle.sshc_forward_core.specs.EventText.{body_at};
ghost use Rattle.sshc_forward_core.specs.EventReading.{GivesAll, NextGives};

use crate::FwdEvent;
use crate::error::{EventFault, NextFault, not_read, read_failed};
use sshc_wire::{Cursor, Octets, Source, Text, read_into};
use std::alloc::Global;

/// The fewest bytes of an event after its length: a kind and a number.
const SHORTEST_EVENT: usize = 5;

/// The most bytes of an event after its length.
const LONGEST_EVENT: usize = 262144;

/// How many bytes the length of an event has.
const LENGTH: u64 = 4;

#[tactic(auto, unfolding(crate::specs::EventText::one_number, crate::specs::EventText::u32_at))]
fn one_number(body: &[u8]) -> Result<u32, EventFault>
    ensures { GivesAll (λ n. n) result (one_number body.now) }
{
    let mut c = Cursor::new(body);
    let n = c.u32()?;
    c.ensure_end()?;
    Ok(n)
}

#[tactic(auto, unfolding(crate::specs::EventText::two_numbers, crate::specs::EventText::u32_at))]
fn two_numbers(body: &[u8]) -> Result<(u32, u32), EventFault>
    ensures { GivesAll (λ n. n) result (two_numbers body.now) }
{
    let mut c = Cursor::new(body);
    let first = c.u32()?;
    let second = c.u32()?;
    c.ensure_end()?;
    Ok((first, second))
}

#[tactic(auto, unfolding(crate::proofs::By::number_and_bytes, crate::proofs::By::u32_at, crate::proofs::By::octets_at))]
fn number_and_bytes(alloc: Global, body: &[u8]) -> Result<(u32, Octets), EventFault>
    ensures { GivesAll (λ n. n) result (number_and_bytes body.now) }
{
    let mut c = Cursor::new(body);
    let n = c.u32()?;
    let bytes = c.bytes()?;
    c.ensure_end()?;
    Ok((n, Octets::from_slice(alloc, bytes)?))
}

/// The fields of an accepted stream.
#[tactic(auto, unfolding(crate::proofs::By::accepted_at, crate::proofs::By::u32_at, crate::proofs::By::words_at))]
fn accepted(alloc: Global, body: &[u8]) -> Result<FwdEvent, EventFault>
    ensures { GivesAll (λ e. e) result (accepted_at body.now) }
{
    let mut c = Cursor::new(body);
    let stream = c.u32()?;
    let host = c.text()?;
    let port = c.u32()?;
    let originator = c.text()?;
    let originator_port = c.u32()?;
    c.ensure_end()?;
    let host = Text::from_str(alloc, host)?;
    let originator = Text::from_str(alloc, originator)?;
    Ok(FwdEvent::Accepted {
        stream,
        host,
        port,
        originator,
        originator_port,
    })
}

/// The event of this kind with these fields.
#[tactic(auto, unfolding(crate::specs::EventText::event_at))]
fn event_of(alloc: Global, kind: u8, fields: &[u8]) -> Result<FwdEvent, EventFault>
    ensures { GivesAll (λ e. e) result (event_at kind fields.now) }
{
    match kind {
        1 => accepted(alloc, fields),
        2 => {
            let (stream, channel) = two_numbers(fields)?;
            Ok(FwdEvent::Opened { stream, channel })
        }
        3 => Ok(FwdEvent::OpenFailed {
            stream: one_number(fields)?,
        }),
        4 => {
            let (channel, stream) = two_numbers(fields)?;
            Ok(FwdEvent::Incoming { channel, stream })
        }
        5 => {
            let (stream, bytes) = number_and_bytes(alloc, fields)?;
            Ok(FwdEvent::Bytes { stream, bytes })
        }
        6 => Ok(FwdEvent::StreamEnd {
            stream: one_number(fields)?,
        }),
        7 => {
            let (channel, bytes) = number_and_bytes(alloc, fields)?;
            Ok(FwdEvent::Data { channel, bytes })
        }
        8 => Ok(FwdEvent::ChannelEof {
            channel: one_number(fields)?,
        }),
        9 => Ok(FwdEvent::ChannelClose {
            channel: one_number(fields)?,
        }),
        10 => Ok(FwdEvent::StreamFailed {
            stream: one_number(fields)?,
        }),
        _ => Err(EventFault::Bad),
    }
}

/// The event of these bytes, which follow its length.
#[tactic(auto, unfolding(crate::specs::EventText::body_at))]
fn event_in(alloc: Global, body: &[u8]) -> Result<FwdEvent, EventFault>
    ensures { GivesAll (λ e. e) result (body_at body.now) }
{
    match body {
        [] => Err(EventFault::Bad),
        [kind, fields @ ..] => event_of(alloc, *kind, fields),
    }
}

/// The length that four bytes encode, if an event may have that length.
fn length_of(head: &[u8]) -> Option<usize>
    ensures within { IfSome result (λ n. (5 ≤ n) × (n ≤ 262144)) }
    ensures some { IfSome result (λ n. n ≡ from_be_bytes w32 head.now) }
    ensures size { IfSome result (λ n. 4 ≤ length head.now) }
    ensures none { IsNone result → (length head.now < 4) ⊎ (from_be_bytes w32 head.now < 5)
        ⊎ (262144 < from_be_bytes w32 head.now) }
{
    if head.len() < 4 {
        return None;
    }
    let length = u32::from_be_bytes([head[0], head[1], head[2], head[3]]) as usize;
    if length < SHORTEST_EVENT || length > LONGEST_EVENT {
        return None;
    }
    Some(length)
}

/// Returns the next event and how many bytes it has with its length, or `None` at the end of the source. The event's
/// bytes are read into the buffer, whose memory is used again if it is large enough; no clause says so.
pub(crate) fn next_event<S: Source>(
    alloc: Global,
    buffer: &mut Vec<u8>,
    source: &mut S,
) -> Result<Option<(FwdEvent, u64)>, NextFault>
    ensures within { IfOk result (λ taken. IfSome taken (λ e. e.1 ≤ 262148)) }
    ensures gives { NextGives (S.left source.old) (S.left source.new) result }
    ensures later { S.faults source.old ≤ S.faults source.new }
    ensures fault { result ≡ Err NextFault.ReadFault → Rose (S.faults source.old) (S.faults source.new) }
    ensures told { (result ≡ Err NextFault.ReadFault → ⊥) → S.faults source.new ≡ S.faults source.old }
{
    if let Err(failed) = read_into(buffer, source, 4) {
        return Err(read_failed(failed));
    }
    if buffer.is_empty() {
        return Ok(None);
    }
    let Some(length) = length_of(buffer.as_slice()) else {
        return Err(NextFault::Bad);
    };
    if let Err(failed) = read_into(buffer, source, length) {
        return Err(read_failed(failed));
    }
    if buffer.len() < length {
        return Err(NextFault::Bad);
    }
    match event_in(alloc, buffer.as_slice()) {
        Ok(event) => Ok(Some((event, length as u64 + LENGTH))),
        Err(e) => Err(not_read(e)),
    }
}
