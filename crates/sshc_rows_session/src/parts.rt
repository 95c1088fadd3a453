//! Bytes by words: `str:TEXT` and `hex:DIGITS` are strings of the wire (RFC 4251, section 5), `u32:N` a number, and
//! other words are the bytes of their hexadecimal digits. In `TEXT` a `+` stands for a space.

use sshc_wire::{NoMemory, Octets, put_bytes, put_u32};
use std::alloc::Global;

/// Adds the bytes of the digits. A word that isn't digits adds `?`, which no row has.
fn put_digits(alloc: Global, out: &mut Vec<u8>, digits: &str) -> Result<(), NoMemory> {
    match hex::decode(alloc, digits) {
        Ok(bytes) => Ok(out.extend_from_slice(&bytes)?),
        Err(_) => Ok(out.push(b'?')?),
    }
}

/// Adds a string of a text.
fn put_string(alloc: Global, out: &mut Vec<u8>, text: &str) -> Result<(), NoMemory> {
    let mut string = Vec::new(alloc);
    for byte in text.as_bytes() {
        string.push(if *byte == b'+' { b' ' } else { *byte })?;
    }
    let string = Octets::from_vec(string)?;
    put_bytes(out, string.as_slice())
}

/// Adds the bytes of a word.
fn put_part(alloc: Global, out: &mut Vec<u8>, word: &str) -> Result<(), NoMemory> {
    match word.split_once(':') {
        Some(("str", text)) => put_string(alloc, out, text),
        Some(("hex", digits)) => {
            let mut string = Vec::new(alloc);
            put_digits(alloc, &mut string, digits)?;
            let string = Octets::from_vec(string)?;
            put_bytes(out, string.as_slice())
        }
        Some(("u32", number)) => put_u32(out, number.parse::<u32>().unwrap_or(0)),
        _ => put_digits(alloc, out, word),
    }
}

/// The bytes of the words of a line.
pub fn bytes_of(alloc: Global, line: &str) -> Result<Vec<u8>, NoMemory> {
    let mut out = Vec::new(alloc);
    for word in line.split_whitespace() {
        put_part(alloc, &mut out, word)?;
    }
    Ok(out)
}
