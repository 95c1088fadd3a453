//! The line that reports the result of a run, and the program's status.

ghost use Rattle.std.specs.Prelude.{◌≡◌, IfOk, string_bytes};
ghost use Rattle.sshc_forward_core.specs.ForwardPromises.{sink_state};
ghost use Rattle.sshc_forward_core.specs.ForwardWords.{error_name, answer_line, error_status, status_of, is_write_fault};
ghost use Rattle.sshc_forward_core.specs.ForwardWords.{Adds, Tells};

use crate::error::FwdError;
use sshc_wire::{Failed, NoMemory, Sink, write_whole};
use std::alloc::Global;

/// The status if memory ran out.
const NO_MEMORY_STATUS: u8 = 20;

/// The status if a write failed.
const WRITE_FAULT_STATUS: u8 = 22;

/// Writes a line, and returns its status, or that of a failed write.
pub(crate) fn add_line<K: Sink>(sink: &mut K, line: &str, status: u8) -> u8
    ensures { Adds line.now status (sink_state (K.contents sink.old) (K.faults sink.old))
        (sink_state (K.contents sink.new) (K.faults sink.new)) result }
{
    match write_whole(sink, line.as_bytes()) {
        Ok(()) => status,
        Err(Failed::Fault) => WRITE_FAULT_STATUS,
        Err(Failed::NoMemory) => NO_MEMORY_STATUS,
    }
}

/// The name of an error, with its place.
fn error_name(alloc: Global, e: FwdError) -> Result<String, NoMemory>
    ensures { IfOk result (λ text. string_bytes text ≡ error_name e) }
{
    let name = match e {
        FwdError::NoMemory => "no-memory",
        FwdError::ReadFault => "read-fault",
        FwdError::WriteFault => "write-fault",
        FwdError::BadEvent { at } => return Ok(format!(in alloc; "bad-event {at}")?),
        FwdError::Taken { at } => return Ok(format!(in alloc; "taken {at}")?),
    };
    Ok(format!(in alloc; "{name}")?)
}

/// The line that reports a result.
fn answer_line(alloc: Global, answer: Result<u64, FwdError>) -> Result<String, NoMemory>
    ensures { IfOk result (λ text. string_bytes text ≡ answer_line answer) }
{
    match answer {
        Ok(left) => Ok(format!(in alloc; "left {left}\n")?),
        Err(e) => {
            let name = error_name(alloc, e)?;
            Ok(format!(in alloc; "error {name}\n")?)
        }
    }
}

fn error_status(e: FwdError) -> u8
    ensures { result ≡ error_status e }
{
    match e {
        FwdError::NoMemory => NO_MEMORY_STATUS,
        FwdError::ReadFault => 21,
        FwdError::WriteFault => WRITE_FAULT_STATUS,
        FwdError::BadEvent { .. } => 24,
        FwdError::Taken { .. } => 44,
    }
}

/// The status of a result.
fn status_of(answer: Result<u64, FwdError>) -> u8
    ensures { result ≡ status_of answer }
{
    match answer {
        Ok(_) => 0,
        Err(e) => error_status(e),
    }
}

/// Whether a write of the run failed.
fn is_write_fault(answer: Result<u64, FwdError>) -> bool
    ensures { result ≡ is_write_fault answer }
{
    matches!(answer, Err(FwdError::WriteFault))
}

/// Reports the result of a run, and returns its status. After a failed write nothing more is written.
pub(crate) fn tell<K: Sink>(alloc: Global, sink: &mut K, answer: Result<u64, FwdError>) -> u8
    ensures { Tells answer (sink_state (K.contents sink.old) (K.faults sink.old))
        (sink_state (K.contents sink.new) (K.faults sink.new)) result }
{
    if is_write_fault(answer) {
        return WRITE_FAULT_STATUS;
    }
    match answer_line(alloc, answer) {
        Ok(line) => add_line(sink, line.as_str(), status_of(answer)),
        Err(NoMemory) => NO_MEMORY_STATUS,
    }
}
