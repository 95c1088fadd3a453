//! Runs of `sshc` and of forwards over memory.

use super::case::{Case, Kind};
use super::outcome::Outcome;
use super::relayed::relayed;
use sshc_forward_core::forward_words;
use sshc_run::{ToySigner, ToyVerifier, run_words};
use sshc_wire::{MemFiles, MemSink, MemSource, NoMemory, Octets, Text};
use std::alloc::Global;

/// The name of the file.
const FILE: &str = "file";

/// A source of these bytes, no read of which fails.
pub fn source_of(alloc: Global, bytes: &[u8]) -> Result<MemSource, NoMemory> {
    Ok(MemSource::new(Vec::from_slice(alloc, bytes)?, Vec::new(alloc)))
}

/// An empty sink, no write to which fails.
pub fn new_sink(alloc: Global) -> MemSink {
    MemSink::new(Vec::new(alloc), Vec::new(alloc))
}

fn words_of(alloc: Global, text: &str) -> Result<Vec<Text>, NoMemory> {
    let mut words = Vec::new(alloc);
    for word in text.split('\n') {
        words.push(Text::from_str(alloc, word)?)?;
    }
    Ok(words)
}

/// The one file.
fn files_of(alloc: Global, bytes: &[u8]) -> Result<MemFiles, NoMemory> {
    let mut files = Vec::new(alloc);
    files.push((
        Text::from_str(alloc, FILE)?,
        Octets::from_slice(alloc, bytes)?,
    ))?;
    Ok(MemFiles::new(files, Vec::new(alloc)))
}

/// The bytes of the files, one after the other.
fn left_in(alloc: Global, files: &MemFiles) -> Result<Vec<u8>, NoMemory> {
    let mut bytes = Vec::new(alloc);
    for (_name, text) in files.contents() {
        bytes.extend_from_slice(text.as_slice())?;
    }
    Ok(bytes)
}

fn run_sshc(alloc: Global, case: &Case<'_>) -> Result<Outcome, NoMemory> {
    let words = words_of(alloc, case.words)?;
    let mut files = files_of(alloc, case.file)?;
    let mut source = source_of(alloc, case.input)?;
    let mut sink = new_sink(alloc);
    let status = run_words(
        alloc,
        words.as_slice(),
        &mut files,
        &mut ToySigner::new(alloc),
        &ToyVerifier::new(alloc),
        &mut source,
        &mut sink,
    );
    Ok(Outcome {
        status,
        written: Vec::from_slice(alloc, sink.contents())?,
        left: left_in(alloc, &files)?,
    })
}

fn run_forwards(alloc: Global, case: &Case<'_>) -> Result<Outcome, NoMemory> {
    let mut source = source_of(alloc, case.input)?;
    let mut sink = new_sink(alloc);
    let status = forward_words(alloc, &[], &mut source, &mut sink);
    Ok(Outcome {
        status,
        written: Vec::from_slice(alloc, sink.contents())?,
        left: Vec::new(alloc),
    })
}

/// Runs a case.
pub fn outcome_of(alloc: Global, case: &Case<'_>) -> Result<Outcome, NoMemory> {
    match case.kind {
        Kind::Words => run_sshc(alloc, case),
        Kind::Proxy => relayed(alloc, case),
        Kind::Forwards => run_forwards(alloc, case),
    }
}
