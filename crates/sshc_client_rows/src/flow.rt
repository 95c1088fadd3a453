//! The result of a row.

ghost use Rattle.std.specs.Prelude.{◌≡◌};
ghost use Rattle.sshc_client_rows.specs.Follows.{refusal_of};

use sshc_auth::{Ending, Error};
use sshc_client_packets::PacketError;

/// The result of a row that isn't refused.
#[derive(Drop)]
pub enum RowFlow {
    Went,
    Ended(Ending),
}

/// The session's error for a packet that can't be read.
pub fn refusal_of(e: PacketError) -> Error
    ensures { result ≡ refusal_of e }
{
    match e {
        PacketError::NoMemory => Error::NoMemory,
        PacketError::SshEncoding => Error::SshEncoding,
    }
}
