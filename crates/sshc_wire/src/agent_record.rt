//! What an agent says on one of its connections.

use crate::message_type::MessageType;
use crate::octets::Octets;

/// Why an agent closes a connection.
#[derive(Clone, Copy, Debug, PartialEq, Eq)]
pub enum AgentFault {
    /// A frame's length is above the limit.
    TooLong = 1,
    /// A sign request can't be read.
    Unreadable = 2,
    /// The signer refused.
    SignerRefused = 3,
}

/// What an agent says on a connection.
#[derive(PartialEq, Eq, Drop)]
pub enum AgentRecord {
    /// A whole frame with its length.
    Answer(Octets),
    /// The user is asked whether the request is allowed.
    AskRequest(MessageType),
    /// The user is asked whether the key of this blob may sign.
    AskKey(Octets),
    Closed(AgentFault),
}
