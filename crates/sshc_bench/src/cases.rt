//! Many cases in one process: scripts, known hosts texts, policies with the streams of a proxy, events of forwards.
//! Each is run over memory by the call that its program makes, and its outcome is written before the next case is read.
//! README.md has the bytes of cases and outcomes.

mod case;
mod outcome;
mod relayed;
mod runs;

use case::{Broken, read_case};
use outcome::write_outcome;
use runs::outcome_of;
use sshc_wire::{Failed, NoMemory, StdSink, StdSource};
use std::io;

/// The status for bytes that are no case.
const BROKEN: u8 = 2;

pub const NO_MEMORY: u8 = 20;

const READ_FAULT: u8 = 21;

const WRITE_FAULT: u8 = 22;

fn broken_status(broken: Broken) -> u8 {
    match broken {
        Broken::NoMemory => NO_MEMORY,
        Broken::Fault => READ_FAULT,
        Broken::NoCase => BROKEN,
    }
}

/// Runs the cases of standard input, and returns the status: 0 at its end.
pub fn run(rt: &HostRuntime) -> Result<u8, NoMemory> {
    let mut source = StdSource::new(rt.alloc(), rt.reader())?;
    let mut sink = StdSink::new(io::writer(rt));
    let mut bytes = Vec::new(rt.alloc());
    for _case in 0..u64::MAX {
        let outcome = match read_case(&mut source, &mut bytes) {
            Ok(Some(case)) => outcome_of(rt.alloc(), &case)?,
            Ok(None) => return Ok(0),
            Err(broken) => return Ok(broken_status(broken)),
        };
        match write_outcome(rt.alloc(), &mut sink, &outcome) {
            Ok(()) => {}
            Err(Failed::NoMemory) => return Err(NoMemory),
            Err(Failed::Fault) => return Ok(WRITE_FAULT),
        }
    }
    Ok(0)
}
