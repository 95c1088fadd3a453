//! Packets of the client as a whole.

use sshc_auth_request::disconnect_packet;
use sshc_wire::{Disconnect, NoMemory, Octets, Text};
use std::alloc::Global;

/// The packet with which a client leaves, in words of its own (RFC 4253, section 11.1).
pub fn farewell(alloc: Global, words: &str) -> Result<Octets, NoMemory> {
    let description = Text::from_str(alloc, words)?;
    let language = Text::from_str(alloc, "en")?;
    disconnect_packet(alloc, Disconnect::ByApplication, &description, &language)
}
