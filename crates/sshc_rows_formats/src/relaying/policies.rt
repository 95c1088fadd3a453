//! Policies as texts. A row is: name | the text, in hexadecimal | `rules` and their number, or `bad` and the number of
//! the first bad line.

use crate::row::{bytes_of, field_of};
use sshc_proxy::{PolicyError, parse_policy};
use std::alloc::Global;

/// What reading the text returns.
fn read(alloc: Global, text: &str) -> anyhow::Result<String> {
    match parse_policy(alloc, text) {
        Ok(policy) => Ok(format!(in alloc; "rules {}", policy.rules().len())?),
        Err(PolicyError::BadLine { line }) => Ok(format!(in alloc; "bad {line}")?),
        Err(PolicyError::NoMemory) => Ok(String::from_str(alloc, "no-memory")?),
    }
}

/// Whether the row holds.
pub fn is_right(alloc: Global, line: &str) -> anyhow::Result<bool> {
    let bytes = bytes_of(alloc, field_of(line, 1));
    match str::from_utf8(&bytes) {
        Ok(text) => Ok(read(alloc, text)?.as_str() == field_of(line, 2)),
        Err(_) => Ok(false),
    }
}
