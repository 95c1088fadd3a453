//! Steps of a session with a handler that keeps the list of its calls, and calls of the session's methods.

mod acting;
mod gave;
mod listening;
mod methods;
mod plan;
mod row;
mod settings;
mod stepped;
mod values;
mod words;

use crate::files::{ROW, first_line};
use row::verdict;

/// Prints the verdicts on the rows of a text. Before its first row stand the lines of fronts, which begin with `front`:
/// events that come before the rows that name the front.
pub fn print_rows(rt: &HostRuntime, text: &str) -> anyhow::Result<()> {
    let (fronts, rows) = text.split_once(ROW).unwrap_or((text, ""));
    for row in rows.split(ROW) {
        let (head, lines) = first_line(row);
        let output = verdict(rt.alloc(), fronts, head, lines)?;
        println!(rt; "{output}")?;
    }
    Ok(())
}
