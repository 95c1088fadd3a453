//! Worked rows of what needs no session, in tables: keys that other tools made, channels, calls to an agent by its
//! client, the auditor's arguments, the agent proxy, forwards, and packets of a session. Each row is printed with what
//! came of it. The arguments name the files of the tables, whose names say what their rows are; `packets` has no file.
#![tactic(auto)]

mod asking;
mod auditing;
mod channels;
mod files;
mod forwarding;
mod keys;
mod lines;
mod opener;
mod packets;
mod relaying;
mod row;

use files::text_of;
use lines::Table;
use std::env;

/// Prints the outcome of each row of a table.
fn print_table(rt: &HostRuntime, path: &str) -> anyhow::Result<()> {
    let name = match path.rsplit_once('/') {
        Some((_folder, name)) => name,
        None => path,
    };
    println!(rt; "== {name}")?;
    let text = text_of(rt, path);
    match name {
        "keys" => keys::print_rows(rt, text.as_str()),
        "channels" => channels::print_rows(rt, text.as_str()),
        "audits" => auditing::print_rows(rt, text.as_str()),
        "packets" => packets::print_rows(rt),
        _ => match Table::named(name) {
            Some(table) => lines::print_rows(rt, table, text.as_str()),
            None => Ok(println!(rt; "WRONG: no table has this name")?),
        },
    }
}

fn main(rt: HostRuntime) -> anyhow::Result<()> {
    let mut words = env::args(&rt)?;
    let _program = words.next();
    for path in words {
        print_table(&rt, path.as_str())?;
    }
    Ok(())
}
