//! The line that reports the result of a run, and the program's status.

ghost use Rattle.std.specs.Prelude.{◌≡◌, ◌≤◌, IfOk, string_bytes};
ghost use Rattle.sshc_run_script.specs.Words.{end_name, error_name, answer_line, error_status, status_of};
ghost use Rattle.sshc_run_script.specs.Words.{is_write_fault, Tells};

use sshc_auth::Ended;
use sshc_hosts_words::{NO_MEMORY_STATUS, WRITE_FAULT_STATUS, add_line};
use sshc_run_script::RunError;
use sshc_wire::{NoMemory, Sink};
use std::alloc::Global;

fn end_name(ended: &Ended) -> &'static str
    ensures { result.now ≡ end_name ended.now }
{
    match ended {
        Ended::RemoteDisconnect(_) => "remote-disconnect",
        Ended::Disconnected => "disconnected",
        Ended::Closed => "closed",
        Ended::ScriptEnd => "script-end",
    }
}

/// The name of an error, with its place or line.
fn error_name(alloc: Global, e: RunError) -> Result<String, NoMemory>
    ensures { IfOk result (λ text. string_bytes text ≡ error_name e) }
{
    let name = match e {
        RunError::NoMemory => "no-memory",
        RunError::ReadFault => "read-fault",
        RunError::WriteFault => "write-fault",
        RunError::SignerFault => "signer-fault",
        RunError::BadEvent { at } => return Ok(format!(in alloc; "bad-event {at}")?),
        RunError::OutOfTurn { at } => return Ok(format!(in alloc; "out-of-turn {at}")?),
        RunError::ScriptTooLong => "script-too-long",
        RunError::TransportFailed => "transport-failed",
        RunError::UnknownKey => "unknown-key",
        RunError::KeyChanged { line } => return Ok(format!(in alloc; "key-changed {line}")?),
        RunError::Decode => "decode",
        RunError::SshKey => "ssh-key",
        RunError::Inconsistent => "inconsistent",
        RunError::Pending => "pending",
        RunError::NoAuthMethod => "no-auth-method",
        RunError::NotAuthenticated => "not-authenticated",
        RunError::SshEncoding => "ssh-encoding",
        RunError::InvalidDisconnect => "invalid-disconnect",
        RunError::RecvError => "recv-error",
        RunError::KeepaliveTimeout => "keepalive-timeout",
        RunError::InactivityTimeout => "inactivity-timeout",
        RunError::RekeyKey => "rekey-key",
        RunError::Revoked { line } => return Ok(format!(in alloc; "revoked {line}")?),
    };
    Ok(format!(in alloc; "{name}")?)
}

/// The line that reports a result.
pub(crate) fn answer_line(
    alloc: Global,
    answer: &Result<Ended, RunError>,
) -> Result<String, NoMemory>
    ensures { IfOk result (λ text. string_bytes text ≡ answer_line answer.now) }
{
    match answer {
        Ok(ended) => {
            let name = end_name(ended);
            Ok(format!(in alloc; "ended {name}\n")?)
        }
        Err(e) => {
            let name = error_name(alloc, *e)?;
            Ok(format!(in alloc; "error {name}\n")?)
        }
    }
}

fn error_status(e: RunError) -> u8
    ensures { result ≡ error_status e }
{
    match e {
        RunError::NoMemory => NO_MEMORY_STATUS,
        RunError::ReadFault => 21,
        RunError::WriteFault => WRITE_FAULT_STATUS,
        RunError::SignerFault => 23,
        RunError::BadEvent { .. } => 24,
        RunError::OutOfTurn { .. } => 25,
        RunError::ScriptTooLong => 26,
        RunError::TransportFailed => 27,
        RunError::UnknownKey => 28,
        RunError::KeyChanged { .. } => 29,
        RunError::Decode => 30,
        RunError::SshKey => 31,
        RunError::Inconsistent => 32,
        RunError::Pending => 33,
        RunError::NoAuthMethod => 34,
        RunError::NotAuthenticated => 35,
        RunError::SshEncoding => 36,
        RunError::InvalidDisconnect => 37,
        RunError::RecvError => 38,
        RunError::KeepaliveTimeout => 39,
        RunError::InactivityTimeout => 40,
        RunError::Revoked { .. } => 42,
        RunError::RekeyKey => 43,
    }
}

/// The status of a result.
pub(crate) fn status_of(answer: &Result<Ended, RunError>) -> u8
    ensures { result ≡ status_of answer.now }
{
    match answer {
        Ok(_) => 0,
        Err(e) => error_status(*e),
    }
}

/// Whether a write of the run failed.
fn is_write_fault(answer: &Result<Ended, RunError>) -> bool
    ensures { result ≡ is_write_fault answer.now }
{
    matches!(answer, Err(RunError::WriteFault))
}

/// Reports the result of a run, and returns its status. After a failed write nothing more is written.
pub(crate) fn tell<K: Sink>(alloc: Global, sink: &mut K, answer: &Result<Ended, RunError>) -> u8
    ensures tells { Tells answer.now (K.contents sink.old) (K.contents sink.new) (K.faults sink.old)
        (K.faults sink.new) result }
    ensures later { K.faults sink.old ≤ K.faults sink.new }
{
    if is_write_fault(answer) {
        return WRITE_FAULT_STATUS;
    }
    match answer_line(alloc, answer) {
        Ok(line) => add_line(sink, line.as_str(), status_of(answer)),
        Err(NoMemory) => NO_MEMORY_STATUS,
    }
}
