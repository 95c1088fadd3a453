//! What an open session was made with.

use sshc_wire::Octets;

/// What an open session was made with, in addition to what its opening keeps.
#[derive(PartialEq, Eq, Drop)]
pub struct SessionSettings {
    /// The most bytes that a packet of the peer's may hold on a channel.
    pub max_packet_size: u32,
    /// The time until a keepalive, in milliseconds; no keepalives are sent if it isn't set.
    pub keepalive_interval: Option<u64>,
    /// How many keepalives in a row may stay unanswered; 0 means that there is no bound.
    pub keepalive_max: u64,
    /// The server's identification string (RFC 4253, section 4.2), which the transport reported.
    pub remote_sshid: Octets,
}
