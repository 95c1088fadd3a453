//! What a connection is told, and what it says.

ghost use Rattle.sshc_proxy_session.specs.SessionHistory.{AreBytes};

use crate::refusal::Refusal;
use sshc_wire::Octets;

/// An input of a connection.
#[derive(Drop, PartialEq, Eq)]
pub enum SessionInput {
    /// A frame of the client, without its length.
    Frame(Octets),
    /// An answer of the agent to the frame that was forwarded last, without its length.
    Upstream(Octets),
}

/// What follows an input.
#[derive(Drop, PartialEq, Eq)]
pub enum SessionOutput {
    /// A whole frame for the agent, with its length.
    Forward(Octets),
    /// A whole frame for the client, with its length.
    Answer(Octets),
    /// SUCCESS for the client: the session is bound.
    Bound,
    /// FAILURE for the client, and why.
    Refused(Refusal),
    Nothing,
    /// Out of memory: nothing changed.
    NoMemory,
}

impl SessionInput {
    /// A frame's numbers are bytes.
    pub(crate) fn knows_bytes(&self)
        ensures { AreBytes self.now }
    {
        match self {
            SessionInput::Frame(whole) => {
                let _bytes = whole.as_slice();
            }
            SessionInput::Upstream(_) => {}
        }
    }
}
