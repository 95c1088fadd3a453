//! Serves one pair of a channel and a stream, by two threads.

use crate::ends::StreamEnd;
use crate::events::{channel_event, stream_event};
use crate::shared::{Shared, Taken};
use sshc_client::Handler;
use sshc_forward_core::{Given, PairEvent};
use sshc_handle::{Channel, Handle};
use sshc_wire::{Failed, NoMemory, Sink, Source, write_whole};
use std::alloc::Global;
use std::sync::Wait;
use std::thread;
use std::thread::Threads;

/// How many bytes of the stream are read at once.
const PIECE: usize = 32768;

/// Takes what the reader returns, piece by piece, until the stream has no more bytes or nothing of it is sent any more.
fn read_stream<H: Handler, S: Source, R: Wait>(
    rt: &R,
    shared: &Shared<'_, H>,
    reader: &mut S,
) -> Result<(), NoMemory> {
    let mut piece = Vec::new(shared.alloc);
    piece.resize(PIECE, 0u8)?;
    for _ in rt.forever() {
        let event = stream_event(shared.alloc, reader, &mut piece)?;
        let given = shared.take(rt, event)?.given;
        if given.eof || given.close || given.gone {
            return Ok(());
        }
    }
    unreachable!()
}

/// Takes an event of the channel, and writes its bytes to the stream. Returns which ends were given by then.
fn take_written<H: Handler, K: Sink, R: Wait>(
    rt: &R,
    shared: &Shared<'_, H>,
    event: PairEvent,
    writer: &mut K,
) -> Result<Given, NoMemory> {
    let Taken { bytes, given } = shared.take(rt, event)?;
    let Some(bytes) = bytes else {
        return Ok(given);
    };
    match write_whole(writer, bytes.as_slice()) {
        Ok(()) => Ok(given),
        Err(Failed::Fault) => Ok(shared.take(rt, PairEvent::StreamFailed)?.given),
        Err(Failed::NoMemory) => Err(NoMemory),
    }
}

/// Takes what happens on the channel, until the pair is gone. Once the channel has no more bytes the writing ends.
fn hear_channel<H: Handler, K: Sink + StreamEnd, R: Wait>(
    rt: &R,
    shared: &Shared<'_, H>,
    channel: &mut Channel<H>,
    writer: &mut K,
) -> Result<(), NoMemory> {
    let mut has_ended = false;
    for _ in rt.forever() {
        let Some(event) = channel_event(channel.wait(rt)) else {
            continue;
        };
        let given = take_written(rt, shared, event, writer)?;
        if given.gone {
            return Ok(());
        }
        if given.ending && !has_ended {
            writer.end_writing();
            has_ended = true;
        }
    }
    unreachable!()
}

/// The same to its end, at which the stream is closed, so that its reader's read returns.
fn hear_to_end<H: Handler, K: Sink + StreamEnd, R: Wait>(
    rt: &R,
    shared: &Shared<'_, H>,
    channel: &mut Channel<H>,
    writer: &mut K,
) -> Result<(), NoMemory> {
    let heard = shared.ended(rt, hear_channel(rt, shared, channel, writer));
    writer.close();
    heard
}

/// Serves a pair of an open channel and a stream, until the channel is closed. What the reader returns is sent on the
/// channel, in pieces of at most 32 KiB; its end is the channel's EOF, and a failed read or write closes the channel.
/// The channel's data is written to the writer, and its EOF ends the writing. Once both ends have come the channel is
/// closed. Once the channel is gone, since the peer has closed it or the session has ended, the stream is closed, and
/// the call returns. `NoMemory` if memory ran out in either thread.
///
/// A second thread reads the stream. The call returns once that thread has, which the stream's close has to bring about.
pub fn serve_pair<
    H: Handler,
    S: Source + Send,
    K: Sink + StreamEnd + Send,
    R: Threads + Wait + Sync,
>(
    rt: &R,
    alloc: Global,
    handle: &Handle<H>,
    channel: Channel<H>,
    reader: &mut S,
    writer: &mut K,
) -> Result<(), NoMemory>
where
    H::Error: Send,
{
    let mut channel = channel;
    let shared = Shared::new(alloc, handle, channel.id())?;
    let (read, heard) = thread::join(
        rt,
        || shared.ended(rt, read_stream(rt, &shared, reader)),
        || hear_to_end(rt, &shared, &mut channel, writer),
    );
    read?;
    heard
}
