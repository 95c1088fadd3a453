//! What must hold of a blob outside the grammar: it is refused with its error, and a refused cursor doesn't move.

use super::vector::Vector;
use sshc_key::{Error, parse_public_key_base64, read_key_pair, read_signature};
use sshc_wire::Cursor;
use std::alloc::Global;

/// Whether the error is the one that the vector names.
fn is_named(alloc: Global, error: Option<Error>, vector: &Vector<'_>) -> bool {
    match error {
        Some(error) => match format!(in alloc; "{error}") {
            Ok(name) => name.as_str() == vector.error,
            Err(_) => false,
        },
        None => false,
    }
}

pub fn is_no_key(alloc: Global, vector: &Vector<'_>) -> bool {
    let error = parse_public_key_base64(alloc, vector.base64).err();
    is_named(alloc, error, vector)
}

pub fn is_no_pair(alloc: Global, vector: &Vector<'_>, blob: &[u8]) -> bool {
    let mut c = Cursor::new(blob);
    let error = read_key_pair(alloc, &mut c).err();
    c.rest() == blob && is_named(alloc, error, vector)
}

pub fn is_no_signature(alloc: Global, vector: &Vector<'_>, blob: &[u8]) -> bool {
    let mut c = Cursor::new(blob);
    let error = read_signature(alloc, &mut c).err();
    c.rest() == blob && is_named(alloc, error, vector)
}
