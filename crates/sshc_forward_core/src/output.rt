//! What is to be done for an event.

use sshc_wire::{Octets, Text};

/// What the caller is to do, on the channel or on the stream that is named.
#[derive(Drop, PartialEq, Eq)]
pub enum FwdOutput {
    /// A channel to this host and port is to be opened for the stream (RFC 4254, section 7.2).
    OpenChannel {
        stream: u32,
        host: Text,
        port: u32,
        originator: Text,
        originator_port: u32,
    },
    /// The bytes are to be sent on the channel.
    SendData {
        channel: u32,
        bytes: Octets,
    },
    /// EOF is to be sent on the channel.
    SendEof {
        channel: u32,
    },
    /// The bytes are to be written to the stream.
    WriteBytes {
        stream: u32,
        bytes: Octets,
    },
    /// No more bytes will be written to the stream.
    EndWriting {
        stream: u32,
    },
    /// The stream is to be closed. The pair is gone.
    CloseStream {
        stream: u32,
    },
    /// The channel is to be closed.
    CloseChannel {
        channel: u32,
    },
}
