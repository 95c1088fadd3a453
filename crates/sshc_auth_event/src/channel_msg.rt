//! What a user asks of a channel, and what a channel reports (RFC 4254, sections 5 and 6).

use sshc_wire::{ChannelId, ChannelOpenFailure, List, Octets, Pty, Sig, Text};

/// A message on a channel. Those below the line `only reported` can't be asked for by a user.
#[derive(PartialEq, Eq, Drop)]
pub enum ChannelMsg {
    /// Bytes for the peer (RFC 4254, section 5.2).
    Data {
        body: Octets,
    },
    /// Bytes for the peer with a type code, 1 for standard error (RFC 4254, section 5.2).
    ExtendedData {
        ext: u32,
        body: Octets,
    },
    /// No more bytes will be sent (RFC 4254, section 5.3).
    Eof,
    /// The channel is to be closed (RFC 4254, section 5.3).
    Close,
    /// A terminal (RFC 4254, section 6.2). Width and height in characters, then in pixels.
    RequestPty {
        want_reply: bool,
        term: Text,
        col_width: u32,
        row_height: u32,
        pix_width: u32,
        pix_height: u32,
        terminal_modes: List<(Pty, u32)>,
    },
    /// The terminal's new size (RFC 4254, section 6.7), in characters, then in pixels.
    WindowChange {
        col_width: u32,
        row_height: u32,
        pix_width: u32,
        pix_height: u32,
    },
    /// X11 forwarding (RFC 4254, section 6.3.1).
    RequestX11 {
        want_reply: bool,
        single_connection: bool,
        x11_authentication_protocol: Text,
        x11_authentication_cookie: Text,
        x11_screen_number: u32,
    },
    /// A variable of the environment (RFC 4254, section 6.4).
    SetEnv {
        want_reply: bool,
        variable_name: Text,
        variable_value: Text,
    },
    /// The user's shell (RFC 4254, section 6.5).
    RequestShell {
        want_reply: bool,
    },
    /// A command (RFC 4254, section 6.5).
    Exec {
        want_reply: bool,
        command: Octets,
    },
    /// A signal for the remote process (RFC 4254, section 6.9).
    Signal {
        signal: Sig,
    },
    /// A subsystem by its name (RFC 4254, section 6.5).
    RequestSubsystem {
        want_reply: bool,
        name: Text,
    },
    /// Agent forwarding (`auth-agent-req@openssh.com`).
    AgentForward {
        want_reply: bool,
    },
    // ---- only reported
    /// The channel is open; sizes are the peer's, in bytes.
    Open {
        id: ChannelId,
        max_packet_size: u32,
        window_size: u32,
    },
    OpenFailure(ChannelOpenFailure),
    Success,
    Failure,
    /// Whether the client may do flow control (RFC 4254, section 6.8).
    XonXoff {
        client_can_do: bool,
    },
    /// The exit status of the remote command (RFC 4254, section 6.10).
    ExitStatus {
        exit_status: u32,
    },
    /// The signal that ended the remote command (RFC 4254, section 6.10).
    ExitSignal {
        signal_name: Sig,
        core_dumped: bool,
        error_message: Text,
        lang_tag: Text,
    },
    /// The peer's window, in bytes.
    WindowAdjusted {
        new_size: u32,
    },
}
