//! Replies to requests of ours, each without its number (RFC 4254, sections 4 and 7.1).

ghost use Rattle.std.specs.Prelude.{◌≡◌};
ghost use Rattle.sshc_client_packets.specs.Parts.{ReadsAll};
ghost use Rattle.sshc_client_packets.specs.Replies.{forward_port, nothing_of};

use sshc_wire::{Cursor, WireError};

/// A reply with no fields.
pub fn read_nothing(body: &[u8]) -> Result<(), WireError>
    ensures { ReadsAll (λ u. u) result (nothing_of body.now) }
{
    Cursor::new(body).ensure_end()
}

/// The port on which the server listens: 0 if it is the one that was asked for, `None` if the bytes are neither empty
/// nor a number.
pub fn forward_port(body: &[u8]) -> Option<u32>
    ensures { result ≡ forward_port body.now }
{
    match body {
        [] => Some(0),
        [a, b, c, d] => Some(u32::from_be_bytes([*a, *b, *c, *d])),
        _ => None,
    }
}
