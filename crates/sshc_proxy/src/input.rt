//! What a proxy is told, and what it says.

use sshc_wire::Octets;

/// An input of a connection.
#[derive(Drop, PartialEq, Eq)]
pub enum ProxyInput {
    /// A frame of the client, without its length.
    Frame(Octets),
    /// An answer of the agent to the frame that was forwarded last, without its length.
    Upstream(Octets),
    /// The client went away.
    Close,
}

/// What follows an input.
#[derive(Drop, PartialEq, Eq)]
pub enum ProxyOutput {
    /// A whole frame for the agent, with its length.
    Forward(Octets),
    /// A whole frame for the client, with its length.
    Answer(Octets),
    Nothing,
    /// Out of memory: nothing changed.
    NoMemory,
}
