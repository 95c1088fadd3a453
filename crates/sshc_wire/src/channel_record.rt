//! What happens on a channel (RFC 4254, sections 5 and 6).

use crate::channel_open_failure::ChannelOpenFailure;
use crate::octets::Octets;
use crate::signal::Sig;
use crate::text::Text;

/// What the peer did on a channel, or what the session did there on its own.
#[derive(PartialEq, Eq, Drop)]
pub enum ChannelRecord {
    /// The peer confirmed our channel: its packet size and window in bytes.
    Open {
        max_packet_size: u32,
        window_size: u32,
    },
    Success,
    Failure,
    Close,
    Eof,
    /// The peer refused our channel.
    OpenFailure {
        reason: ChannelOpenFailure,
        description: Text,
        language: Text,
    },
    Data {
        body: Octets,
    },
    /// Data of the type `ext`; 1 is the standard error stream.
    ExtendedData {
        ext: u32,
        body: Octets,
    },
    XonXoff {
        client_can_do: bool,
    },
    ExitStatus {
        exit_status: u32,
    },
    ExitSignal {
        signal_name: Sig,
        core_dumped: bool,
        error_message: Text,
        lang_tag: Text,
    },
    /// The peer's window in bytes after a grant and what was sent then.
    WindowAdjusted {
        new_size: u32,
    },
}

/// A channel that the server opens, by its type (RFC 4254, sections 6.1, 6.3.2 and 7.2; OpenSSH's PROTOCOL).
#[derive(PartialEq, Eq, Drop)]
pub enum ServerOpen {
    Session,
    DirectTcpIp {
        host_to_connect: Text,
        port_to_connect: u32,
        originator_address: Text,
        originator_port: u32,
    },
    DirectStreamLocal {
        socket_path: Text,
    },
    X11 {
        originator_address: Text,
        originator_port: u32,
    },
    ForwardedTcpIp {
        connected_address: Text,
        connected_port: u32,
        originator_address: Text,
        originator_port: u32,
    },
    ForwardedStreamLocal {
        socket_path: Text,
    },
    AgentForward,
    Unknown,
}
