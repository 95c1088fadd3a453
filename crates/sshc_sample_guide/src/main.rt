//! Two programs with threads, one after the other: one thread takes turns with a session, and the others hold its handle.
//! The first logs in, runs a command, and prints its output and its status; the second, which `docs/GUIDE.md` explains,
//! prints what a connection to a forwarded port brings. `faces` names each public item by the crate that people take it
//! from.
#![tactic(auto)]

mod command;
mod doorman;
mod faces;
mod port;
mod server;

fn main(rt: HostRuntime) -> anyhow::Result<()> {
    let alloc = rt.alloc();
    let output = command::greeted(&rt, alloc)?;
    print!(&rt;
        "{}",
        std::str::from_utf8(output.bytes.as_slice()).unwrap_or("no text")
    )?;
    match output.status {
        Some(status) => println!(&rt; "status {status}")?,
        None => println!(&rt; "no status")?,
    }
    let bytes = port::knock(&rt, alloc)?;
    println!(&rt;
        "{}",
        std::str::from_utf8(bytes.as_slice()).unwrap_or("no text")
    )?;
    Ok(())
}
