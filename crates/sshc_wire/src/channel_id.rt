//! Our number of a channel (RFC 4254, section 5.1).

/// The number under which we know a channel; the peer's number of it is the recipient.
#[derive(Clone, Copy, PartialEq, Eq)]
pub struct ChannelId(pub u32);
