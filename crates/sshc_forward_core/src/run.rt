//! Runs the events of a source, and writes what is to be done to a sink.

ghost use Rattle.std.specs.Prelude.{◌≡◌, ◌+◌, ◌<◌, ◌≤◌, ◌^◌, Err};
ghost use Rattle.sshc_wire.specs.Faults.{Rose};
ghost use Rattle.sshc_forward_core.specs.ForwardRun.{streams, OneGives, StepGives, WritesGive};
ghost use Rattle.sshc_forward_core.specs.ForwardPromises.{ForwardPromises, outside, source_state, sink_state};

use crate::error::{FwdError, not_taken};
use crate::event_reader::next_event;
use crate::output_lines::{LineBuffer, write_lines};
use crate::{ForwardCore, FwdEvent, FwdOutput, FwdRefused};
use sshc_wire::{Failed, Sink, Source};
use std::alloc::Global;

/// More events than a run can take before its places have no number: 2^64 bytes would be read.
const MOST_EVENTS: u64 = 1 << 45;

/// Writes the lines of an event's outputs, or a front of them.
fn write_outputs<K: Sink>(
    buffer: &mut LineBuffer,
    outputs: Vec<FwdOutput>,
    sink: &mut K,
) -> Result<(), FwdError>
    ensures gives { WritesGive outputs.items (K.contents sink.old) (K.contents sink.new) result }
    ensures fault { result ≡ Err FwdError.WriteFault → Rose (K.faults sink.old) (K.faults sink.new) }
    ensures told { (result ≡ Err FwdError.WriteFault → ⊥) → K.faults sink.new ≡ K.faults sink.old }
{
    match write_lines(buffer, sink, outputs.as_slice()) {
        Ok(()) => Ok(()),
        Err(Failed::Fault) => Err(FwdError::WriteFault),
        Err(Failed::NoMemory) => Err(FwdError::NoMemory),
    }
}

/// Does an event's step, and writes its lines or a front of them.
fn step_event<K: Sink>(
    core: &mut ForwardCore,
    event: &FwdEvent,
    at: u64,
    buffer: &mut LineBuffer,
    sink: &mut K,
) -> Result<(), FwdError>
    ensures gives { StepGives event.now (K.contents sink.old) (K.contents sink.new) core.old core.new at result }
    ensures fault { result ≡ Err FwdError.WriteFault → Rose (K.faults sink.old) (K.faults sink.new) }
    ensures told { (result ≡ Err FwdError.WriteFault → ⊥) → K.faults sink.new ≡ K.faults sink.old }
{
    match core.step(event) {
        Ok(outputs) => write_outputs(buffer, outputs, sink),
        Err(FwdRefused::Taken) => Err(FwdError::Taken { at }),
        Err(FwdRefused::NoMemory) => Err(FwdError::NoMemory),
    }
}

/// Takes the next event. Returns false at the end of the source.
fn take_event<S: Source, K: Sink>(
    alloc: Global,
    core: &mut ForwardCore,
    at: &mut u64,
    bytes: &mut Vec<u8>,
    buffer: &mut LineBuffer,
    source: &mut S,
    sink: &mut K,
) -> Result<bool, FwdError>
    requires { at.old + 262148 < 2 ^ 64 }
    ensures gives { OneGives (streams (S.left source.old) (K.contents sink.old))
        (streams (S.left source.new) (K.contents sink.new)) core.old core.new at.old at.new result }
    ensures within { at.new ≤ at.old + 262148 }
    ensures read_fault { result ≡ Err FwdError.ReadFault → Rose (S.faults source.old) (S.faults source.new) }
    ensures read_told { (result ≡ Err FwdError.ReadFault → ⊥) → S.faults source.new ≡ S.faults source.old }
    ensures write_fault { result ≡ Err FwdError.WriteFault → Rose (K.faults sink.old) (K.faults sink.new) }
    ensures write_told { (result ≡ Err FwdError.WriteFault → ⊥) → K.faults sink.new ≡ K.faults sink.old }
{
    match next_event(alloc, bytes, source) {
        Ok(None) => Ok(false),
        Ok(Some((event, size))) => match step_event(core, &event, *at, buffer, sink) {
            Ok(()) => {
                *at += size;
                Ok(true)
            }
            Err(e) => Err(e),
        },
        Err(e) => Err(not_taken(e, *at)),
    }
}

/// Reads events from the source and writes a line for each thing that is to be done, before the next event is read.
/// Returns how many pairs are left at the end of the source. After 2^45 events, which no source holds, it returns
/// `NoMemory`.
pub fn run_forward<S: Source, K: Sink>(
    alloc: Global,
    source: &mut S,
    sink: &mut K,
) -> Result<u64, FwdError>
    // What a run guarantees, each a field with its own name: specs/ForwardPromises.antt.
    ensures promises { ForwardPromises
        (outside (source_state (S.left source.old) (S.faults source.old))
        (sink_state (K.contents sink.old) (K.faults sink.old)))
        (outside (source_state (S.left source.new) (S.faults source.new))
        (sink_state (K.contents sink.new) (K.faults sink.new)))
        result }
{
    let mut core = ForwardCore::new(alloc);
    let mut at = 0u64;
    let mut bytes = Vec::new(alloc);
    let mut buffer = LineBuffer::new(alloc);
    for turn in 0..MOST_EVENTS {
        match take_event(
            alloc,
            &mut core,
            &mut at,
            &mut bytes,
            &mut buffer,
            source,
            sink,
        ) {
            Ok(true) => {}
            Ok(false) => return Ok(core.pair_count()),
            Err(e) => return Err(e),
        }
    }
    Err(FwdError::NoMemory)
}
