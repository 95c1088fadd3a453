//! Generated scripts.

use sshc_run::generate;
use sshc_wire::NoMemory;
use std::alloc::Global;

/// The bytes of a script with a login, an open channel and 100 blocks of events.
pub fn hundred_blocks(alloc: Global, seed: u64) -> Result<Vec<u8>, NoMemory> {
    Ok(generate(alloc, seed, 100)?.into_text())
}
