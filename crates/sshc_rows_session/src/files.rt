//! Files of rows, and what both tables share.

use sshc_wire::{Files, Found, NoMemory, StdFiles, Text};

/// What begins a row, behind the head of the file or the row before it.
pub const ROW: &str = "\nrow ";

/// The text of a file; empty if it can't be read.
pub fn text_of(rt: &HostRuntime, path: &str) -> Text {
    match StdFiles::new(rt).read_text(path) {
        Ok(Found::Text(text)) => text,
        _ => Text::new(rt.alloc()),
    }
}

/// A text up to the first space, and what is behind it.
pub fn first_word(text: &str) -> (&str, &str) {
    text.split_once(' ').unwrap_or((text, ""))
}

/// The first line, and the lines behind it.
pub fn first_line(text: &str) -> (&str, &str) {
    text.split_once('\n').unwrap_or((text, ""))
}

/// Adds a line.
pub fn put_line(text: &mut String, line: &str) -> Result<(), NoMemory> {
    text.push_str(line)?;
    Ok(text.push('\n')?)
}

/// Drops a value. A value of many variants is dropped here, where its type is any, and before a result of its own is
/// judged: a check takes it apart at each place where it might end.
pub fn let_go<T: Drop>(_value: T) {}
