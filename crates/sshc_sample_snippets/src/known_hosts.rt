//! Known hosts files.

use sshc_hosts::{check_known_hosts_path, learn_known_hosts_path};
use sshc_key::{Error, PublicKey};
use sshc_wire::Files;
use std::alloc::Global;

/// Whether the file has this key for the host already; if it has no key for the host, the key is added. A changed key,
/// a revoked one, and a line for the host that can't be read, are errors.
pub fn trust_on_first_use<F: Files>(
    alloc: Global,
    files: &mut F,
    host: &str,
    port: u16,
    key: &PublicKey,
    path: &str,
) -> Result<bool, Error> {
    if check_known_hosts_path(alloc, files, host, port, key, path)? {
        return Ok(true);
    }
    learn_known_hosts_path(alloc, files, host, port, key, path)?;
    Ok(false)
}
