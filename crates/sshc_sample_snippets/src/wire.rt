//! Reading the types of the wire.

use sshc_wire::{Cursor, WireError};

/// The name of a global request, and whether an answer is wanted (RFC 4254, section 4).
pub fn request_name(packet: &[u8]) -> Result<(&str, bool), WireError> {
    let mut packet = Cursor::new(packet);
    packet.u8()?;
    let name = packet.text()?;
    Ok((name, packet.boolean()?))
}
