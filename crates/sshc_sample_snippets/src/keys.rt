//! Public keys as text.

use sshc_key::{Error, parse_public_key_base64};
use std::alloc::Global;

/// The line of a key file for a key in base64, as `ssh-ed25519 AAAA..`.
pub fn key_line(alloc: Global, base64: &str) -> Result<String, Error> {
    let key = parse_public_key_base64(alloc, base64)?;
    Ok(key.to_openssh()?)
}
