//! Packets of the connection protocol.

use sshc_client_packets::{ChannelRequest, channel_request_packet};
use sshc_wire::{NoMemory, Octets};
use std::alloc::Global;

/// The packet that asks to run a command on a channel (RFC 4254, section 6.5).
pub fn exec_packet(alloc: Global, recipient: u32, command: &[u8]) -> Result<Octets, NoMemory> {
    let request = ChannelRequest::Exec {
        want_reply: true,
        command,
    };
    channel_request_packet(alloc, recipient, &request)
}
