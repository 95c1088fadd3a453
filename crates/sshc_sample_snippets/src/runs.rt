//! Scripts, their events and their runs.

use sshc_auth::Ended;
use sshc_run_reader::{NextError, RawEvent, next_event};
use sshc_run_script::{Config, RunError, ToySigner, ToyVerifier, run_script};
use sshc_wire::{MemSink, MemSource, NoMemory, Source};
use std::alloc::Global;

/// The record lines of a script's run against `localhost` at port 13265, and how it ended.
pub fn login_lines(
    alloc: Global,
    script: Vec<u8>,
    known: &str,
) -> Result<(MemSink, Result<Ended, RunError>), NoMemory> {
    let config = Config::default_in(alloc)?;
    let mut source = MemSource::new(script, Vec::new(alloc));
    let mut sink = MemSink::new(Vec::new(alloc), Vec::new(alloc));
    let mut signer = ToySigner::new(alloc);
    let verifier = ToyVerifier::new(alloc);
    let ended = run_script(
        alloc,
        &config,
        "localhost",
        13265,
        known,
        &mut signer,
        &verifier,
        &mut source,
        &mut sink,
    );
    Ok((sink, ended))
}

/// The next event of a script after the moment 0, if there is one, read into the buffer: its moment, its kind and its
/// fields' bytes.
pub fn next_of<'a, S: Source>(
    buffer: &'a mut Vec<u8>,
    source: &mut S,
) -> Result<Option<RawEvent<'a>>, NextError> {
    next_event(buffer, source, 0)
}
