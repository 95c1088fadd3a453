//! What happens to streams and to channels.

use sshc_wire::{Octets, Text};

/// An event of a stream or of a channel. Streams and channels are named by numbers of the caller's.
#[derive(Drop, PartialEq, Eq)]
pub enum FwdEvent {
    /// A local stream was accepted, which is to reach this host and port.
    Accepted {
        stream: u32,
        host: Text,
        port: u32,
        originator: Text,
        originator_port: u32,
    },
    /// The channel for a stream that was accepted is open.
    Opened {
        stream: u32,
        channel: u32,
    },
    /// No channel can be had for the stream.
    OpenFailed {
        stream: u32,
    },
    /// The peer opened a channel, and this stream was connected for it.
    Incoming {
        channel: u32,
        stream: u32,
    },
    /// Bytes that were read from the stream.
    Bytes {
        stream: u32,
        bytes: Octets,
    },
    /// The stream has no more bytes.
    StreamEnd {
        stream: u32,
    },
    /// The channel's bytes.
    Data {
        channel: u32,
        bytes: Octets,
    },
    /// The channel has no more bytes.
    ChannelEof {
        channel: u32,
    },
    /// The channel is gone.
    ChannelClose {
        channel: u32,
    },
    /// A read or a write of the stream failed.
    StreamFailed {
        stream: u32,
    },
}
