//! How a session ends without an error.

use sshc_wire::{Disconnect, Text};

/// What the peer says when it disconnects (RFC 4253, section 11.1).
#[derive(PartialEq, Eq, Drop)]
pub struct RemoteDisconnectInfo {
    pub reason_code: Disconnect,
    pub message: Text,
    pub lang_tag: Text,
}

/// How a session ends.
#[derive(PartialEq, Eq, Drop)]
pub enum Ended {
    /// The peer disconnected.
    RemoteDisconnect(RemoteDisconnectInfo),
    /// The user disconnected.
    Disconnected,
    /// No user is left.
    Closed,
    /// The script that was run is at its end. A step never returns this.
    ScriptEnd,
}
