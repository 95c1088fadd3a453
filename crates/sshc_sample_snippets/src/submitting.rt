//! Messages of a handle's calls.

use sshc_client::Msg;
use sshc_handle_messages::forward;
use sshc_wire::NoMemory;
use std::alloc::Global;

/// The message that asks the server to listen on port 8080 of every address (RFC 4254, section 7.1).
pub fn forward_everywhere(alloc: Global) -> Result<Msg, NoMemory> {
    forward(alloc, "", 8080)
}
