//! Bytes through a channel table: on open windows, by grants, after a flush, before a close, in small packets; and
//! channels that come and go.

use sshc_mux::{ChannelId, ChannelTable};
use sshc_wire::{NoMemory, Outbox};
use std::alloc::Global;

/// How many bytes a call passes in.
const CALL: usize = 32_768;

/// Our window; a low one is refilled to this.
const TARGET: u32 = 2_097_152;

/// What the outboxes held, and after how many events bytes waited.
#[derive(Clone, Copy)]
struct Counts {
    payloads: u64,
    bytes: u64,
    waits: u64,
}

impl Counts {
    fn new() -> Counts {
        Counts {
            payloads: 0,
            bytes: 0,
            waits: 0,
        }
    }

    /// Adds what the outbox holds, and clears it.
    fn take(&mut self, out: &mut Outbox) {
        for at in 0..out.len() {
            if let Some(packet) = out.packet(at) {
                self.payloads = self.payloads.saturating_add(1);
                self.bytes = self.bytes.saturating_add(packet.len() as u64);
            }
        }
        out.clear();
    }
}

/// A table of established channels with this window and packet size.
fn opened(
    alloc: Global,
    channels: u32,
    window: u32,
    packet: u32,
) -> Result<ChannelTable, NoMemory> {
    let mut table = ChannelTable::new(alloc);
    for _ in 0..channels {
        let id = table.open_user(TARGET, 32_768, None)?;
        let _ = table.confirm(id, id.0, window, packet);
    }
    Ok(table)
}

/// The channel whose turn it is.
fn turn_of(call: u32, channels: u32) -> ChannelId {
    ChannelId(call.checked_rem(channels).unwrap_or(0).saturating_add(1))
}

/// Sends the bytes, call by call over the channels in turn, on open windows.
fn sent(alloc: Global, channels: u32, calls: u32, packet: u32) -> Result<Counts, NoMemory> {
    let mut table = opened(alloc, channels, u32::MAX, packet)?;
    let body = Vec::from_elem(alloc, 0x5a, CALL)?;
    let mut counts = Counts::new();
    let mut out = Outbox::new(alloc);
    for call in 0..calls {
        table.data(turn_of(call, channels), body.as_slice(), false, &mut out)?;
        counts.take(&mut out);
    }
    Ok(counts)
}

/// Sends the bytes without a window, and lets them out by grants of half a call.
fn granted(alloc: Global, channels: u32, calls: u32) -> Result<Counts, NoMemory> {
    let mut table = opened(alloc, channels, 0, 32_768)?;
    let body = Vec::from_elem(alloc, 0x5a, CALL)?;
    let mut counts = Counts::new();
    let mut out = Outbox::new(alloc);
    for call in 0..calls {
        let id = turn_of(call, channels);
        table.data(id, body.as_slice(), false, &mut out)?;
        let _ = table.grant(id, 16_384, false, &mut out)?;
        let _ = table.grant(id, 16_384, false, &mut out)?;
        counts.take(&mut out);
    }
    Ok(counts)
}

/// Sends the bytes while an exchange runs, one call per channel, and flushes all after each such round.
fn flushed(alloc: Global, channels: u32, calls: u32) -> Result<Counts, NoMemory> {
    let mut table = opened(alloc, channels, u32::MAX, 32_768)?;
    let body = Vec::from_elem(alloc, 0x5a, CALL)?;
    let mut counts = Counts::new();
    let mut out = Outbox::new(alloc);
    for call in 0..calls {
        let id = turn_of(call, channels);
        table.data(id, body.as_slice(), true, &mut out)?;
        if id.0 == channels {
            table.flush_all(&mut out)?;
            counts.take(&mut out);
        }
    }
    table.flush_all(&mut out)?;
    counts.take(&mut out);
    Ok(counts)
}

/// In each call opens a channel and closes it with a call's bytes waiting, which a grant lets out, before EOF and our
/// close.
fn closed(alloc: Global, calls: u32) -> Result<Counts, NoMemory> {
    let mut table = ChannelTable::new(alloc);
    let body = Vec::from_elem(alloc, 0x5a, CALL)?;
    let mut counts = Counts::new();
    let mut out = Outbox::new(alloc);
    for _ in 0..calls {
        let id = table.open_user(TARGET, 32_768, None)?;
        let _ = table.confirm(id, id.0, 0, 32_768);
        table.data(id, body.as_slice(), false, &mut out)?;
        table.eof(id, &mut out)?;
        table.close_own(id, &mut out)?;
        let _ = table.grant(id, 32_768, false, &mut out)?;
        let _ = table.close_peer(id, &mut out)?;
        counts.take(&mut out);
    }
    Ok(counts)
}

/// Opens the channels, and then closes them, oldest first.
fn churned(alloc: Global, channels: u32) -> Result<Counts, NoMemory> {
    let mut table = opened(alloc, channels, u32::MAX, 32_768)?;
    let mut counts = Counts::new();
    let mut out = Outbox::new(alloc);
    for number in 0..channels {
        let _ = table.close_peer(ChannelId(number.saturating_add(1)), &mut out)?;
        counts.take(&mut out);
    }
    Ok(counts)
}

/// Small events over the channels in turn: a byte of ours, a byte of the peer's, and a grant, with a look for bytes
/// that wait.
fn small_events(alloc: Global, channels: u32, events: u32) -> Result<Counts, NoMemory> {
    let mut table = opened(alloc, channels, 0, 32_768)?;
    let mut counts = Counts::new();
    let mut out = Outbox::new(alloc);
    for event in 0..events {
        let id = turn_of(event / 3, channels);
        match event % 3 {
            0 => table.data(id, b"a", false, &mut out)?,
            1 => {
                let _ = table.received(id, 1, TARGET, &mut out)?;
            }
            _ => {
                let _ = table.grant(id, 1, false, &mut out)?;
            }
        }
        if table.has_any_pending_data() {
            counts.waits = counts.waits.saturating_add(1);
        }
        counts.take(&mut out);
    }
    Ok(counts)
}

/// Makes a run of this name: what is written in it. An unknown name makes no run.
fn counts_of(alloc: Global, name: &str, first: u32, second: u32) -> Result<Counts, NoMemory> {
    match name {
        "channels" => sent(alloc, first, second, 32_768),
        "packets" => sent(alloc, 1, second, first),
        "grants" => granted(alloc, first, second),
        "flushes" => flushed(alloc, first, second),
        "closes" => closed(alloc, second),
        "oldest-first" => churned(alloc, first),
        "events" => small_events(alloc, first, second),
        _ => Ok(Counts::new()),
    }
}

/// The line of a run of this name.
pub fn line(alloc: Global, name: &str, first: u32, second: u32) -> Result<String, NoMemory> {
    let counts = counts_of(alloc, name, first, second)?;
    Ok(format!(in alloc;
        "{name} {first} {second}: {} payloads of {} bytes, {} waits",
        counts.payloads, counts.bytes, counts.waits
    )?)
}
