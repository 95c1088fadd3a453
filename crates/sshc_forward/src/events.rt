//! The events of a pair: what its stream's reader returns, and what is heard on its channel.

ghost use Rattle.std.specs.Prelude.{◌≡◌, ◌<◌, vec_len};
ghost use Rattle.sshc_forward.specs.Serving.{StreamReads, channel_event};

use sshc_auth::ChannelMsg;
use sshc_forward_core::PairEvent;
use sshc_wire::{Failed, NoMemory, Octets, Source};
use std::alloc::Global;

/// The event for what a read into the buffer returns: its bytes, the stream's end, or its failure.
pub(crate) fn stream_event<S: Source>(
    alloc: Global,
    reader: &mut S,
    piece: &mut Vec<u8>,
) -> Result<PairEvent, NoMemory>
    requires { 0 < vec_len piece.old }
    ensures reads { StreamReads (S.left reader.old) (S.left reader.new) (S.faults reader.old) (S.faults reader.new)
        result }
    ensures room { vec_len piece.new ≡ vec_len piece.old }
{
    match reader.read(piece.as_mut_slice()) {
        Ok(0) => Ok(PairEvent::StreamEnd),
        Ok(count) => Ok(PairEvent::Bytes(Octets::from_slice(alloc, &piece.as_slice()[..count])?)),
        Err(Failed::Fault) => Ok(PairEvent::StreamFailed),
        Err(Failed::NoMemory) => Err(NoMemory),
    }
}

/// The event for what is heard on the channel; no message is the channel's close. `None` for what is passed over.
pub(crate) fn channel_event(msg: Option<ChannelMsg>) -> Option<PairEvent>
    ensures { result ≡ channel_event msg }
{
    match msg {
        None => Some(PairEvent::ChannelClose),
        Some(ChannelMsg::Data { body }) => Some(PairEvent::Data(body)),
        Some(ChannelMsg::Eof) => Some(PairEvent::ChannelEof),
        Some(ChannelMsg::Close) => Some(PairEvent::ChannelClose),
        Some(other) => {
            drop(other);
            None
        }
    }
}
