//! The lines of the file of vectors.

use base64::engine::general_purpose::STANDARD;
use std::alloc::Global;

/// A line: what the blob is, its name, its base64, and the error of a blob that is refused.
#[derive(Clone, Copy)]
pub struct Vector<'a> {
    pub kind: &'a str,
    pub name: &'a str,
    pub base64: &'a str,
    pub error: &'a str,
}

/// The vector in a line; `None` if the first word is `#` or a word is missing.
pub fn vector_of(line: &str) -> Option<Vector<'_>> {
    let mut words = line.split_whitespace();
    let kind = words.next()?;
    if kind == "#" {
        return None;
    }
    let name = words.next()?;
    let base64 = words.next()?;
    let error = words.next().unwrap_or("");
    Some(Vector {
        kind,
        name,
        base64,
        error,
    })
}

/// The bytes of which this is the base64; no bytes if it isn't valid base64.
pub fn blob_of(alloc: Global, base64: &str) -> anyhow::Result<Vec<u8>> {
    match STANDARD.decode(alloc, base64.as_bytes()) {
        Ok(blob) => Ok(blob),
        Err(_) => Ok(Vec::new(alloc)),
    }
}
