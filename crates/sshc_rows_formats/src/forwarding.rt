//! Worked runs of forwards: the events of a row go through the core, over a source and a sink in memory. A row is:
//! name | the arguments | the numbers of the reads and of the writes that fail | the status | the events | the lines
//! that are written, separated by `;`. Events are in hexadecimal, in words that are put together.

use crate::row::{field_of, numbers_of, words_of};
use sshc_forward_core::forward_words;
use sshc_wire::{MemSink, MemSource, NoMemory};
use std::alloc::Global;

/// The bytes of the field's words; a word that can't be decoded has none.
fn events_of(alloc: Global, field: &str) -> Result<Vec<u8>, NoMemory> {
    let mut bytes = Vec::new(alloc);
    for word in field.split_whitespace() {
        if let Ok(some) = hex::decode(alloc, word) {
            bytes.extend_from_slice(some.as_slice())?;
        }
    }
    Ok(bytes)
}

/// The text of the lines.
fn text_of(alloc: Global, field: &str) -> Result<Vec<u8>, NoMemory> {
    let mut text = Vec::new(alloc);
    if field.is_empty() {
        return Ok(text);
    }
    for line in field.split(';') {
        text.extend_from_slice(line.trim().as_bytes())?;
        text.push(b'\n')?;
    }
    Ok(text)
}

/// Whether a run of the row's events writes the row's lines, and returns its status.
pub fn is_right(alloc: Global, line: &str) -> anyhow::Result<bool> {
    let words = words_of(alloc, field_of(line, 1))?;
    let reads = numbers_of(alloc, field_of(line, 2))?;
    let writes = numbers_of(alloc, field_of(line, 3))?;
    let mut source = MemSource::new(events_of(alloc, field_of(line, 5))?, reads);
    let mut sink = MemSink::new(Vec::new(alloc), writes);
    let status = forward_words(alloc, words.as_slice(), &mut source, &mut sink);
    let wanted = text_of(alloc, field_of(line, 6))?;
    Ok(field_of(line, 4).parse::<u8>() == Ok(status) && sink.contents() == wanted.as_slice())
}
