//! What a case comes to.

use sshc_wire::{Failed, NoMemory, Sink, put_bytes, write_whole};
use std::alloc::Global;

/// What a program returns and leaves.
#[derive(Drop)]
pub struct Outcome {
    pub status: u8,
    /// The bytes of standard output.
    pub written: Vec<u8>,
    /// Of `sshc` the bytes of its files afterwards, of the proxy the bytes that the agent was sent.
    pub left: Vec<u8>,
}

/// The status, and both byte strings, each with its length in four bytes.
fn outcome_bytes(alloc: Global, outcome: &Outcome) -> Result<Vec<u8>, NoMemory> {
    let mut bytes = Vec::new(alloc);
    bytes.push(outcome.status)?;
    if outcome.written.len() >= 1 << 32 || outcome.left.len() >= 1 << 32 {
        return Err(NoMemory);
    }
    put_bytes(&mut bytes, outcome.written.as_slice())?;
    put_bytes(&mut bytes, outcome.left.as_slice())?;
    Ok(bytes)
}

/// Writes an outcome.
pub fn write_outcome<K: Sink>(
    alloc: Global,
    sink: &mut K,
    outcome: &Outcome,
) -> Result<(), Failed> {
    match outcome_bytes(alloc, outcome) {
        Ok(bytes) => write_whole(sink, bytes.as_slice()),
        Err(NoMemory) => Err(Failed::NoMemory),
    }
}
