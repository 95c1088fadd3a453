//! Worked rows of the auditor: the words of each row run over the files next to it. A row holds if the text written and
//! the status are those of the row; it is also printed whether ssh-keygen made the same file.

use crate::files::text_of;
use crate::row::{verdict, words_of};
use sshc_audit::audit_words;
use sshc_wire::{MemSink, NoMemory, StdFiles};

/// A row: its name, the status, the files with the expected text and with ssh-keygen's, and the auditor's words.
#[derive(Clone, Copy)]
struct Row<'a> {
    name: &'a str,
    status: &'a str,
    ours: &'a str,
    theirs: &'a str,
    words: &'a str,
}

/// The front of a text up to a space, and what is behind it.
fn word_of(text: &str) -> Option<(&str, &str)> {
    text.split_once(' ')
}

/// The row in a line. `None` if the line's first word is `#` or it has fewer than five words.
fn row_of(line: &str) -> Option<Row<'_>> {
    let (name, rest) = word_of(line)?;
    let (status, rest) = word_of(rest)?;
    let (ours, rest) = word_of(rest)?;
    let (theirs, words) = word_of(rest)?;
    if name == "#" {
        return None;
    }
    Some(Row {
        name,
        status,
        ours,
        theirs,
        words,
    })
}

/// Whether the auditor's words write the expected text, and return the expected status.
fn is_right(rt: &HostRuntime, row: &Row<'_>, wanted: &str) -> Result<bool, NoMemory> {
    let words = words_of(rt.alloc(), row.words)?;
    let mut sink = MemSink::new(Vec::new(rt.alloc()), Vec::new(rt.alloc()));
    let mut files = StdFiles::new(rt);
    let status = audit_words(rt.alloc(), words.as_slice(), &mut files, &mut sink);
    Ok(row.status.parse::<u8>() == Ok(status) && sink.contents() == wanted.as_bytes())
}

/// Prints the outcome of a row.
fn print_row(rt: &HostRuntime, row: &Row<'_>) -> anyhow::Result<()> {
    let wanted = text_of(rt, row.ours);
    let verdict = verdict(is_right(rt, row, wanted.as_str())?);
    let is_same = row.theirs == "-" || text_of(rt, row.theirs).as_str() == wanted.as_str();
    let keygen = if is_same {
        ""
    } else {
        ", where ssh-keygen differs"
    };
    println!(rt; "{verdict} {}{keygen}", row.name)?;
    Ok(())
}

/// Prints the outcome of each row of the text.
pub fn print_rows(rt: &HostRuntime, text: &str) -> anyhow::Result<()> {
    for line in text.lines() {
        if let Some(row) = row_of(line) {
            print_row(rt, &row)?;
        }
    }
    Ok(())
}
