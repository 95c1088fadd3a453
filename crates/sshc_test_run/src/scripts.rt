//! The script of a password login, its lines, and runs of scripts.

use sshc_auth::Ended;
use sshc_run_script::{Config, RefusingSigner, RefusingVerifier, RunError, run_script};
use sshc_wire::{MemSink, MemSource, NoMemory, Sink, Source};
use std::alloc::Global;

/// The peer's KEXINIT came.
pub(crate) const KEXINIT: &[u8] = b"\0\0\0\x09\0\0\0\0\0\0\0\0\x01";

/// An exchange is done: the host key, the session hash, and the name of the exchange.
pub(crate) const EXCHANGE: &[u8] = b"\
\0\0\0\x7e\0\0\0\0\0\0\0\0\x02\x01\0\0\0\x33\0\0\0\x0bssh-ed25519\0\0\0\x20\x97\x43\xef\x2d\xda\x2e\xae\x39\xe3\
\x25\x81\x77\x02\xd6\x6e\x27\x94\xd5\xe6\xf3\xf7\xf7\x2e\xef\xf4\x04\x5e\x7f\x4e\x21\xe6\x49\0\0\0\x0asession-id\
\0\0\0\0\0\0\0\0\0\0\0\0\x11curve25519-sha256\0\0\0\0\0\0\0\0\0\0\0\0\0\0\0\0\0";

/// The user asks to log in by the method `password`, with ticket 1.
pub(crate) const PASSWORD: &[u8] =
    b"\0\0\0\x1d\0\0\0\0\0\0\0\0\x10\0\0\0\x01\0\0\0\x05alice\x01\0\0\0\x02pw";

/// The user asks to log in by an Ed25519 pair that is at hand, with ticket 1.
pub(crate) const BY_PAIR: &[u8] =
    b"\0\0\0\x93\0\0\0\0\0\0\0\0\x10\0\0\0\x01\0\0\0\x05alice\x02\0\0\0w\0\0\0\x0bssh-ed25519\0\0\0 \x08\x08\
    \x08\x08\x08\x08\x08\x08\x08\x08\x08\x08\x08\x08\x08\x08\x08\x08\x08\x08\x08\x08\x08\x08\x08\x08\x08\x08\
    \x08\x08\x08\x08\0\0\0@\x07\x07\x07\x07\x07\x07\x07\x07\x07\x07\x07\x07\x07\x07\x07\x07\x07\x07\x07\x07\
    \x07\x07\x07\x07\x07\x07\x07\x07\x07\x07\x07\x07\x08\x08\x08\x08\x08\x08\x08\x08\x08\x08\x08\x08\x08\x08\
    \x08\x08\x08\x08\x08\x08\x08\x08\x08\x08\x08\x08\x08\x08\x08\x08\x08\x08\0";

/// The peer accepts the pair's key.
pub(crate) const KEY_ACCEPTED: &[u8] =
    b"\0\0\0P\0\0\0\0\0\0\0\0\x03<\0\0\0\x0bssh-ed25519\0\0\03\0\0\0\x0bssh-ed25519\0\0\0 \x08\x08\x08\x08\x08\
    \x08\x08\x08\x08\x08\x08\x08\x08\x08\x08\x08\x08\x08\x08\x08\x08\x08\x08\x08\x08\x08\x08\x08\x08\x08\x08\
    \x08";

/// The peer accepts the service.
pub(crate) const ACCEPTED: &[u8] = b"\0\0\0\x1a\0\0\0\0\0\0\0\0\x03\x06\0\0\0\x0cssh-userauth";

/// The peer lets the user in.
pub(crate) const SUCCESS: &[u8] = b"\0\0\0\x0a\0\0\0\0\0\0\0\0\x03\x34";

/// A password login: the peer's KEXINIT, the exchange, the request, and the peer's two packets.
pub(crate) const LOGIN: [&[u8]; 5] = [KEXINIT, EXCHANGE, PASSWORD, ACCEPTED, SUCCESS];

/// The places of the events of the login, and its end.
pub(crate) const PLACES: [usize; 6] = [0, 13, 143, 176, 206, 220];

/// How many events of the login are whole within so many bytes.
pub(crate) fn whole_events(size: usize) -> usize {
    PLACES
        .iter()
        .skip(1)
        .filter(|place| **place <= size)
        .count()
}

/// The lines of the login: the exchange's name, two packets, the ticket's answer, and that the session is open.
pub(crate) const LINES: &str = "2000000011637572766532353531392d736861323536
01050000000c7373682d7573657261757468
013200000005616c6963650000000e7373682d636f6e6e656374696f6e0000000870617373776f726400000000027077
040000000100
03
";

/// How many bytes of the lines are written after so many events of the login were taken.
pub(crate) const WRITTEN: [usize; 6] = [0, 0, 45, 82, 179, 195];

/// What a run has come to after so many events of the login: its place, and how many bytes of the lines are written.
pub(crate) fn after(taken: usize) -> Option<(usize, usize)> {
    match (PLACES.get(taken), WRITTEN.get(taken)) {
        (Some(place), Some(written)) => Some((*place, *written)),
        _ => None,
    }
}

/// A known hosts text that has the host key of the login.
pub(crate) const KNOWN: &str =
    "[localhost]:13265 ssh-ed25519 AAAAC3NzaC1lZDI1NTE5AAAAIJdD7y3aLq454yWBdwLWbieU1ebz9/cu7/QEXn9OIeZJ\n";

/// The bytes of these events, one after another.
pub(crate) fn script_of(alloc: Global, events: &[&[u8]]) -> Result<Vec<u8>, NoMemory> {
    let mut script = Vec::new(alloc);
    for event in events {
        script.extend_from_slice(event)?;
    }
    Ok(script)
}

/// Lets a value go. A value of many variants goes more cheaply here than where it is used.
pub(crate) fn let_go<T: Drop>(_value: T) {}

/// How a run ends.
#[derive(Clone, Copy, PartialEq, Eq)]
pub(crate) enum Ends {
    /// At the script's end.
    AtScriptEnd,
    /// By the user or the peer.
    Otherwise,
    By(RunError),
}

fn ends_of(answer: Result<Ended, RunError>) -> Ends {
    match answer {
        Ok(Ended::ScriptEnd) => Ends::AtScriptEnd,
        Ok(ended) => {
            let_go(ended);
            Ends::Otherwise
        }
        Err(e) => Ends::By(e),
    }
}

/// Runs a script by these settings, for the host of the known hosts text.
fn run_by<S: Source, K: Sink>(
    alloc: Global,
    config: &Config,
    known: &str,
    source: &mut S,
    sink: &mut K,
) -> Ends {
    let mut signer = RefusingSigner::new(alloc);
    ends_of(run_script(
        alloc,
        config,
        "localhost",
        13265,
        known,
        &mut signer,
        &RefusingVerifier,
        source,
        sink,
    ))
}

/// Runs a script with the default settings of a client, except for the bound on its events.
pub(crate) fn run_over<S: Source, K: Sink>(
    alloc: Global,
    known: &str,
    max_events: u32,
    source: &mut S,
    sink: &mut K,
) -> Ends {
    let Ok(mut config) = Config::default_in(alloc) else {
        return Ends::By(RunError::NoMemory);
    };
    config.max_events = max_events;
    run_by(alloc, &config, known, source, sink)
}

/// Whether these are the first so many bytes of the login's lines.
pub(crate) fn are_lines(bytes: &[u8], written: usize) -> bool {
    Some(bytes) == LINES.as_bytes().get(..written)
}

/// Whether a run of this script, with so many events at most, ends so, and writes the first so many bytes of the
/// login's lines.
pub(crate) fn gives(
    alloc: Global,
    known: &str,
    max_events: u32,
    script: Vec<u8>,
    ends: Ends,
    written: usize,
) -> bool {
    let mut source = MemSource::new(script, Vec::new(alloc));
    let mut sink = MemSink::new(Vec::new(alloc), Vec::new(alloc));
    let came = run_over(alloc, known, max_events, &mut source, &mut sink);
    came == ends && are_lines(sink.contents(), written)
}

/// Whether a run of this script by these settings ends so, and writes this text.
pub(crate) fn gives_text(
    alloc: Global,
    config: &Config,
    script: Vec<u8>,
    ends: Ends,
    text: &str,
) -> bool {
    let mut source = MemSource::new(script, Vec::new(alloc));
    let mut sink = MemSink::new(Vec::new(alloc), Vec::new(alloc));
    let came = run_by(alloc, config, KNOWN, &mut source, &mut sink);
    came == ends && sink.contents() == text.as_bytes()
}

/// The number of a call that fails, as a list; an empty one if none does.
pub(crate) fn calls(alloc: Global, call: Option<u64>) -> Result<Vec<u64>, NoMemory> {
    let mut calls = Vec::new(alloc);
    if let Some(call) = call {
        calls.push(call)?;
    }
    Ok(calls)
}
