//! Worked channels: rows of calls, of their results, and of the packets that they write.

mod row;

use row::{is_right, put_line};

/// Prints whether a row holds, if the text begins with the line of one: `row`, its name, and `ours` or `theirs`.
fn print_row(rt: &HostRuntime, text: &str) -> anyhow::Result<()> {
    let (first, lines) = text.split_once('\n').unwrap_or((text, ""));
    if let Some(head) = first.strip_prefix("row ") {
        let (name, owner) = head.split_once(' ').unwrap_or((head, ""));
        let verdict = if is_right(rt.alloc(), owner == "ours", lines)? {
            "ok"
        } else {
            "WRONG"
        };
        println!(rt; "{verdict} {name}")?;
    }
    Ok(())
}

/// Prints whether each row of the text holds.
pub fn print_rows(rt: &HostRuntime, text: &str) -> anyhow::Result<()> {
    let mut row = String::new(rt.alloc());
    for line in text.lines() {
        if line.starts_with("row ") {
            print_row(rt, row.as_str())?;
            row = String::new(rt.alloc());
        }
        put_line(&mut row, line)?;
    }
    print_row(rt, row.as_str())
}
