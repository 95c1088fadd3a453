//! Measurements, printed as counts, and many cases in one process.
//!
//! The first argument names what is run, two numbers how much of it (README.md lists them). Without arguments there is a
//! small run of each measurement, and then the cases of standard input.
#![tactic(auto)]

mod agent;
mod cases;
mod channels;
mod handle;
mod script;
mod waking;

use std::env;
use std::process::ExitCode;
use std::sync::Wait;
use std::thread::Threads;
use std::time::Clock;

/// The runs without arguments.
const SMALL: [(&str, u32, u32); 13] = [
    ("channels", 3, 10),
    ("packets", 1_000, 2),
    ("grants", 3, 10),
    ("flushes", 3, 10),
    ("closes", 1, 10),
    ("oldest-first", 10, 0),
    ("events", 3, 30),
    ("script", 12, 0),
    ("list", 3, 10),
    ("sign", 3, 10),
    ("pings", 1, 16),
    ("woken", 16, 0),
    ("channel", 16, 0),
];

/// The number in an argument; 0 if there is no number.
fn number(word: Option<String>) -> u32 {
    match word {
        Some(word) => word.as_str().parse::<u32>().unwrap_or(0),
        None => 0,
    }
}

/// The line of a session over a transport that another thread fills.
fn waking_line<R: Threads + Wait + Sync + AllocGlobal + Clock>(
    rt: &R,
    name: &str,
    first: u32,
    second: u32,
) -> anyhow::Result<String> {
    let answered = waking::answered(rt, name, u64::from(first), u64::from(second))?;
    Ok(format!(in rt.alloc(); "{answered} came back")?)
}

/// Makes one run, and returns its line.
fn line<R: Threads + Wait + Sync + AllocGlobal + Clock>(
    rt: &R,
    name: &str,
    first: u32,
    second: u32,
) -> anyhow::Result<String> {
    let alloc = rt.alloc();
    match name {
        "script" => Ok(script::line(alloc, first)?),
        "list" => Ok(agent::line(alloc, false, first, second)?),
        "sign" => Ok(agent::line(alloc, true, first, second)?),
        "pings" => handle::line(rt, first, second),
        "woken" | "polled" | "beside" | "idle" | "idle-polled" | "channel" => {
            waking_line(rt, name, first, second)
        }
        "channels" | "packets" | "grants" | "flushes" | "closes" | "oldest-first" | "events" => {
            Ok(channels::line(alloc, name, first, second)?)
        }
        _ => Ok(String::from_str(alloc, "NAME FIRST SECOND")?),
    }
}

fn main(rt: HostRuntime) -> anyhow::Result<ExitCode> {
    let mut words = env::args(&rt)?;
    let _program = words.next();
    let status = match words.next() {
        None => {
            for (name, first, second) in SMALL {
                println!(&rt; "{}", line(&rt, name, first, second)?)?;
            }
            cases::run(&rt)?
        }
        Some(name) if name.as_str() == "cases" => cases::run(&rt)?,
        Some(name) => {
            let first = number(words.next());
            let second = number(words.next());
            println!(&rt; "{}", line(&rt, name.as_str(), first, second)?)?;
            0
        }
    };
    Ok(ExitCode::from(status))
}
