//! Rows: the fields of a line.

use sshc_wire::{NoMemory, Text};
use std::alloc::Global;

/// Whether the line is a row.
pub fn is_row(line: &str) -> bool {
    !line.is_empty() && !line.starts_with("#")
}

/// The field at this place of a line, whose fields are separated by `|`, without white space around it; the empty text
/// for a missing field.
pub fn field_of(line: &str, place: usize) -> &str {
    match line.split('|').nth(place) {
        Some(field) => field.trim(),
        None => "",
    }
}

/// The bytes of a field in hexadecimal; no bytes if it can't be decoded.
pub fn bytes_of(alloc: Global, field: &str) -> Vec<u8> {
    match hex::decode(alloc, field) {
        Ok(bytes) => bytes,
        Err(_) => Vec::new(alloc),
    }
}

/// The numbers of a field, separated by white space.
pub fn numbers_of(alloc: Global, field: &str) -> Result<Vec<u64>, NoMemory> {
    let mut numbers = Vec::new(alloc);
    for word in field.split_whitespace() {
        if let Ok(number) = word.parse::<u64>() {
            numbers.push(number)?;
        }
    }
    Ok(numbers)
}

/// The word that is printed of a row.
pub fn verdict(is_right: bool) -> &'static str {
    if is_right { "ok" } else { "WRONG" }
}

/// The words of a field, separated by white space.
pub fn words_of(alloc: Global, field: &str) -> Result<Vec<Text>, NoMemory> {
    let mut words = Vec::new(alloc);
    for word in field.split_whitespace() {
        words.push(Text::from_str(alloc, word)?)?;
    }
    Ok(words)
}
