//! The numbers of the kinds of events that generated scripts have.

pub(crate) const PEER_KEXINIT: u8 = 0x01;

pub(crate) const EXCHANGE_DONE: u8 = 0x02;

pub(crate) const PAYLOAD: u8 = 0x03;

pub(crate) const AUTHENTICATE: u8 = 0x10;

pub(crate) const OPEN_SESSION: u8 = 0x17;

pub(crate) const TCPIP_FORWARD: u8 = 0x1b;

pub(crate) const CHANNEL: u8 = 0x21;

pub(crate) const KEEPALIVE: u8 = 0x27;

pub(crate) const AGENT_BYTES: u8 = 0x40;
