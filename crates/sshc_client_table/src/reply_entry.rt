//! Global requests whose replies are awaited (RFC 4254, section 4).

use sshc_key::PublicKey;
use sshc_wire::{List, Ticket};

/// What a request asked, as far as the meaning of its reply depends on it.
#[derive(Clone, Copy, PartialEq, Eq)]
pub enum ReplyKind {
    /// To listen on a port, which the reply may name.
    Forward,
    Ping,
    Keepalive,
    NoMoreSessions,
    /// To stop listening, or to listen on a socket.
    Done,
    /// To prove host keys.
    Proof,
    /// A request of the user's own.
    Own,
}

/// A request that was written with a reply wanted.
#[derive(PartialEq, Eq, Drop)]
pub struct ReplyEntry {
    pub kind: ReplyKind,
    /// Whom the answer is for.
    pub ticket: Option<Ticket>,
    /// The host keys that are to be proved; none of another request.
    pub keys: List<PublicKey>,
}
