//! Lines for the results of known hosts calls.

ghost use Rattle.std.specs.Prelude.{◌≡◌, ◌≤◌, IfOk, string_bytes};
ghost use Rattle.sshc_hosts_words.specs.Adding.{Adds};
ghost use Rattle.sshc_hosts_words.specs.Told.{refusal_line, refusal_status, told_refusal, told_verdict, told_learning};

use crate::adding::{KNOWN_FILE_STATUS, NO_MEMORY_STATUS, add_line};
use sshc_key::Error;
use sshc_wire::{NoMemory, Sink};
use std::alloc::Global;

/// The line for an error of known hosts. The calls have none of the last eight errors, which are named so that a new
/// error is given a name and a status.
fn refusal_line(alloc: Global, e: Error) -> Result<String, NoMemory>
    ensures { IfOk result (λ text. string_bytes text ≡ refusal_line e) }
{
    let name = match e {
        Error::ReadFault | Error::Utf8 => "known-file",
        Error::WriteFault => "known-write",
        Error::KeyChanged { line } => return Ok(format!(in alloc; "error key-changed {line}\n")?),
        Error::Decode => "decode",
        Error::SshKey => "ssh-key",
        Error::Revoked { line } => return Ok(format!(in alloc; "error revoked {line}\n")?),
        Error::NoMemory
        | Error::CouldNotReadKey
        | Error::NoHomeDir
        | Error::AgentProtocolError
        | Error::AgentFailure
        | Error::SshEncoding
        | Error::EnvVar
        | Error::BadAuthSock
        | Error::UnexpectedEnd => "no-memory",
    };
    Ok(format!(in alloc; "error {name}\n")?)
}

/// The status of an error of known hosts.
fn refusal_status(e: Error) -> u8
    ensures { result ≡ refusal_status e }
{
    match e {
        Error::ReadFault | Error::Utf8 => KNOWN_FILE_STATUS,
        Error::WriteFault => 4,
        Error::KeyChanged { .. } => 29,
        Error::Decode => 30,
        Error::SshKey => 31,
        Error::Revoked { .. } => 42,
        Error::NoMemory
        | Error::CouldNotReadKey
        | Error::NoHomeDir
        | Error::AgentProtocolError
        | Error::AgentFailure
        | Error::SshEncoding
        | Error::EnvVar
        | Error::BadAuthSock
        | Error::UnexpectedEnd => NO_MEMORY_STATUS,
    }
}

/// Writes the line for an error, and returns its status.
pub fn add_refusal<K: Sink>(alloc: Global, sink: &mut K, e: Error) -> u8
    ensures adds { Adds (told_refusal e).lines (told_refusal e).status (K.contents sink.old) (K.contents sink.new)
        (K.faults sink.old) (K.faults sink.new) result }
    ensures later { K.faults sink.old ≤ K.faults sink.new }
{
    match refusal_line(alloc, e) {
        Ok(line) => add_line(sink, line.as_str(), refusal_status(e)),
        Err(NoMemory) => NO_MEMORY_STATUS,
    }
}

/// Writes the line for a verdict, and returns its status.
pub fn add_verdict<K: Sink>(alloc: Global, sink: &mut K, answer: Result<bool, Error>) -> u8
    ensures adds { Adds (told_verdict answer).lines (told_verdict answer).status (K.contents sink.old)
        (K.contents sink.new) (K.faults sink.old) (K.faults sink.new) result }
    ensures later { K.faults sink.old ≤ K.faults sink.new }
{
    match answer {
        Ok(true) => add_line(sink, "known\n", 0),
        Ok(false) => add_line(sink, "unknown\n", 1),
        Err(e) => add_refusal(alloc, sink, e),
    }
}

/// Writes the line that a key was learned, or why not, and returns its status.
pub fn add_learning<K: Sink>(alloc: Global, sink: &mut K, answer: Result<(), Error>) -> u8
    ensures adds { Adds (told_learning answer).lines (told_learning answer).status (K.contents sink.old)
        (K.contents sink.new) (K.faults sink.old) (K.faults sink.new) result }
    ensures later { K.faults sink.old ≤ K.faults sink.new }
{
    match answer {
        Ok(()) => add_line(sink, "learned\n", 0),
        Err(e) => add_refusal(alloc, sink, e),
    }
}
