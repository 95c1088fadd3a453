//! Known hosts texts rewritten.

use sshc_audit::{drop_doubled, remove_host};
use sshc_wire::{NoMemory, Text};
use std::alloc::Global;

/// The text without a host, and without lines that repeat an earlier line.
pub fn without_host(alloc: Global, text: &str, host: &str, port: u16) -> Result<Text, NoMemory> {
    let left = remove_host(alloc, text, host, port)?;
    drop_doubled(alloc, left.as_str())
}
