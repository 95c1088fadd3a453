//! A login script with a long run of requests to authenticate, over memory.

use sshc_auth::Ended;
use sshc_run_script::{Config, RefusingSigner, RefusingVerifier, RunError, run_script};
use sshc_wire::{MemSink, MemSource, NoMemory, put_u32};
use std::alloc::Global;

/// The peer's KEXINIT came, and the exchange is done with the host key of the known hosts text.
const EXCHANGED: &[u8] =
    b"\0\0\0\x09\0\0\0\0\0\0\0\0\x01\0\0\0\x7e\0\0\0\0\0\0\0\0\x02\x01\0\0\0\x33\0\0\0\x0bssh-ed25519\0\0\0\x20\x97\
        \x43\xef\x2d\xda\x2e\xae\x39\xe3\x25\x81\x77\x02\xd6\x6e\x27\x94\xd5\xe6\xf3\xf7\xf7\x2e\xef\xf4\x04\x5e\x7f\
        \x4e\x21\xe6\x49\0\0\0\x0asession-id\0\0\0\0\0\0\0\0\0\0\0\0\x11curve25519-sha256\0\0\0\0\0\0\0\0\0\0\0\0\0\0\
        \0\0\0";

/// A request of `alice` by a password, around its ticket.
const ASKED: &[u8] = b"\0\0\0\x1d\0\0\0\0\0\0\0\0\x10";

const BY_PASSWORD: &[u8] = b"\0\0\0\x05alice\x01\0\0\0\x02pw";

/// The peer accepts the service.
const ACCEPTED: &[u8] = b"\0\0\0\x1a\0\0\0\0\0\0\0\0\x03\x06\0\0\0\x0cssh-userauth";

/// The peer lets the user in.
const LET_IN: &[u8] = b"\0\0\0\x0a\0\0\0\0\0\0\0\0\x03\x34";

/// A known hosts text with the host key.
const KNOWN: &str =
    "[localhost]:13265 ssh-ed25519 AAAAC3NzaC1lZDI1NTE5AAAAIJdD7y3aLq454yWBdwLWbieU1ebz9/cu7/QEXn9OIeZJ\n";

/// Requests under tickets from this one on.
fn push_asks(script: &mut Vec<u8>, first: u32, count: u32) -> Result<(), NoMemory> {
    for more in 0..count {
        script.extend_from_slice(ASKED)?;
        put_u32(script, first.saturating_add(more))?;
        script.extend_from_slice(BY_PASSWORD)?;
    }
    Ok(())
}

/// A login of so many events: all but four are requests, the first half of them before the service is accepted.
fn script_of(alloc: Global, events: u32) -> Result<Vec<u8>, NoMemory> {
    let asks = events.saturating_sub(4);
    let early = asks - asks / 2;
    let mut script = Vec::new(alloc);
    script.extend_from_slice(EXCHANGED)?;
    push_asks(&mut script, 1, early)?;
    script.extend_from_slice(ACCEPTED)?;
    push_asks(&mut script, early + 1, asks - early)?;
    script.extend_from_slice(LET_IN)?;
    Ok(script)
}

/// The name of a run's result.
fn told(answer: &Result<Ended, RunError>) -> &'static str {
    match answer {
        Ok(Ended::ScriptEnd) => "ended script-end",
        Ok(_) => "ended",
        Err(RunError::NoMemory) => "error no-memory",
        Err(_) => "error",
    }
}

/// Runs a login of so many events into a sink, and returns the name of its result.
fn run(alloc: Global, events: u32, sink: &mut MemSink) -> Result<&'static str, NoMemory> {
    let mut config = Config::default_in(alloc)?;
    config.max_events = events;
    let mut source = MemSource::new(script_of(alloc, events)?, Vec::new(alloc));
    let mut signer = RefusingSigner::new(alloc);
    let answer = run_script(
        alloc,
        &config,
        "localhost",
        13265,
        KNOWN,
        &mut signer,
        &RefusingVerifier,
        &mut source,
        sink,
    );
    Ok(told(&answer))
}

/// The line of a run of so many events: what was written, and the result.
pub fn line(alloc: Global, events: u32) -> Result<String, NoMemory> {
    let mut sink = MemSink::new(Vec::new(alloc), Vec::new(alloc));
    let told = run(alloc, events, &mut sink)?;
    let written = sink.contents();
    let lines = written.iter().filter(|byte| **byte == b'\n').count();
    Ok(format!(in alloc;
        "{events} events: {lines} lines of {} bytes, {told}",
        written.len()
    )?)
}
