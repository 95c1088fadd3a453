//! The command-line arguments. A row is: name | the arguments | how the agent's socket is opened (`opens`, `missing`,
//! `fails`) | the client's bytes, the numbers of its reads and of its writes that fail | the agent's bytes | the bytes
//! written to the client | the status. The paths of policies begin where the program runs; the agent's reads and writes don't fail.

use super::runs::is_written;
use crate::opener::{MemOpener, stream_of};
use crate::row::{field_of, words_of};
use sshc_proxy::proxy_words;
use sshc_toy::ToyVerifier;
use sshc_wire::StdFiles;
use std::alloc::Global;

/// Whether the row holds.
pub fn is_right(rt: &HostRuntime, line: &str) -> anyhow::Result<bool> {
    let alloc: Global = rt.alloc();
    let words = words_of(alloc, field_of(line, 1))?;
    let mut opener = MemOpener::new(alloc, field_of(line, 2), field_of(line, 6))?;
    let mut client = stream_of(
        alloc,
        field_of(line, 3),
        field_of(line, 4),
        field_of(line, 5),
    )?;
    let status = proxy_words(
        alloc,
        words.as_slice(),
        &mut StdFiles::new(rt),
        &mut opener,
        &mut client,
        &ToyVerifier::new(alloc),
    );
    let status = format!(in alloc; "{status}")?;
    Ok(is_written(alloc, &client, field_of(line, 7)) && status.as_str() == field_of(line, 8))
}
