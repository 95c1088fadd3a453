//! Whole runs: rows with a script's events, the expected lines and the expected result.

mod row;

use crate::files::{ROW, first_line};
use row::verdict;

/// Prints the verdicts on the rows of a text.
pub fn print_rows(rt: &HostRuntime, text: &str) -> anyhow::Result<()> {
    let (_head, rows) = text.split_once(ROW).unwrap_or((text, ""));
    for row in rows.split(ROW) {
        let (name, lines) = first_line(row);
        let output = verdict(rt.alloc(), name, lines)?;
        println!(rt; "{output}")?;
    }
    Ok(())
}
