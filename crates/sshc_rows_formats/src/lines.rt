//! Tables whose rows are lines.

use crate::row::{field_of, is_row, verdict};
use crate::{asking, forwarding, relaying};

/// What the rows of a table say.
#[derive(Clone, Copy)]
pub enum Table {
    /// Calls to an agent by its client.
    Asks,
    /// A proxy's policies as texts.
    Policies,
    /// Steps of a proxy's core.
    Steps,
    /// Runs of a proxy over two streams.
    Runs,
    /// The proxy's arguments.
    Words,
    /// Events of forwards.
    Forwards,
}

impl Table {
    /// The table of this name.
    pub fn named(name: &str) -> Option<Table> {
        match name {
            "asks" => Some(Table::Asks),
            "policies" => Some(Table::Policies),
            "steps" => Some(Table::Steps),
            "runs" => Some(Table::Runs),
            "words" => Some(Table::Words),
            "forwards" => Some(Table::Forwards),
            _ => None,
        }
    }

    /// Whether the row holds.
    fn is_right(self, rt: &HostRuntime, line: &str) -> anyhow::Result<bool> {
        match self {
            Table::Asks => asking::is_right(rt.alloc(), line),
            Table::Policies => relaying::policies::is_right(rt.alloc(), line),
            Table::Steps => relaying::steps::is_right(rt, line),
            Table::Runs => relaying::runs::is_right(rt, line),
            Table::Words => relaying::words::is_right(rt, line),
            Table::Forwards => forwarding::is_right(rt.alloc(), line),
        }
    }
}

/// Prints whether each row of the text holds.
pub fn print_rows(rt: &HostRuntime, table: Table, text: &str) -> anyhow::Result<()> {
    for line in text.lines() {
        if is_row(line) {
            let verdict = verdict(table.is_right(rt, line)?);
            println!(rt; "{verdict} {}", field_of(line, 0))?;
        }
    }
    Ok(())
}
