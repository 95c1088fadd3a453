//! A handler's answer to a channel that the server opens.

use sshc_wire::ChannelOpenFailure;

/// A handler's answer to a channel that the server opens.
#[derive(Clone, Copy, PartialEq, Eq)]
pub enum OpenAnswer {
    Accept,
    Reject(ChannelOpenFailure),
    /// The user will answer.
    Later,
}
