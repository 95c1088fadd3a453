//! Worked sessions: steps of a session with a handler that keeps the list of its calls, calls of the session's methods,
//! and whole runs of scripts. The arguments name files of rows: `runs` has runs, each other file steps. It prints
//! whether each row has the expected lines.
#![tactic(auto)]

mod files;
mod parts;
mod runs;
mod steps;

use files::text_of;
use std::env;

/// Prints the verdicts on the rows of a file.
fn print_file(rt: &HostRuntime, path: &str) -> anyhow::Result<()> {
    let name = match path.rsplit_once('/') {
        Some((_folder, name)) => name,
        None => path,
    };
    println!(rt; "== {name}")?;
    let text = text_of(rt, path);
    if name == "runs" {
        runs::print_rows(rt, text.as_str())
    } else {
        steps::print_rows(rt, text.as_str())
    }
}

fn main(rt: HostRuntime) -> anyhow::Result<()> {
    let mut words = env::args(&rt)?;
    let _program = words.next();
    for path in words {
        print_file(&rt, path.as_str())?;
    }
    Ok(())
}
