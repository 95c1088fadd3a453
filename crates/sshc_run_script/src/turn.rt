//! One event of a script: it is taken, and its records are written.

ghost use Rattle.std.specs.Prelude.{◌≡◌, ◌≢◌, ◌+◌, ◌++◌, ◌<◌, ◌≤◌, ◌^◌, Some, None, Ok, Err, IfNone, true, false};
ghost use Rattle.sshc_wire.specs.Faults.{Rose};
ghost use Rattle.sshc_key.specs.Signers.{since};
ghost use Rattle.sshc_client_table.specs.SessionState.{is_open};
ghost use Rattle.sshc_auth.specs.declared.ended.Ended.TheVariants.{ScriptEnd};
ghost use Rattle.sshc_run_script.specs.LoopInvariant.{Stays};
ghost use Rattle.sshc_run_script.specs.Outcome.{streams};
ghost use Rattle.sshc_run_script.specs.Ready.{IsReady};
ghost use Rattle.sshc_run_script.specs.RunFaults.{SignerTaken};
ghost use Rattle.sshc_run_script.specs.RunOutside.{sink_state, source_state, SinkTaken, SourceTaken};
ghost use Rattle.sshc_run_reader.specs.Script.{frame_at, size_of};
ghost use Rattle.sshc_run_script.specs.ScriptRun.{run, spot};
ghost use Rattle.sshc_run_script.specs.RunTurn.{kept, run_turn};
ghost use Rattle.sshc_run_script.specs.SessionPart.{is_session_kind};
ghost use Rattle.sshc_run_script.specs.SessionTurn.{session_turn, step_turn};
ghost use Rattle.sshc_run_script.specs.Turn.{error_of, handler_error_of};
ghost use Rattle.sshc_run_script.specs.TurnContracts.{hosts_of, step_answer, TakeGives, TurnGives, LimitGives};

use crate::error::RunError;
use crate::known_hosts_handler::{HandlerError, KnownHostsHandler};
use crate::point::Point;
use crate::record_sink::RecordSink;
use crate::serving::take_agent_event;
use crate::stepping::step_session;
use sshc_auth::{Ended, Error, Step};
use sshc_auth_event::Event;
use sshc_key::{LocalSigner, Verifier};
use sshc_run_reader::{EventError, EventKind, NextError, RawEvent, next_event, read_event};
use sshc_wire::{Failed, Source, read_up_to};
use std::alloc::Global;

fn error_at(place: u64, e: Error) -> RunError
    ensures { result ≡ error_of place e }
{
    match e {
        Error::NoMemory => RunError::NoMemory,
        Error::SignerFault => RunError::SignerFault,
        Error::OutOfTurn => RunError::OutOfTurn { at: place },
        Error::TransportFailed => RunError::TransportFailed,
        Error::UnknownKey => RunError::UnknownKey,
        Error::Inconsistent => RunError::Inconsistent,
        Error::Pending => RunError::Pending,
        Error::NoAuthMethod => RunError::NoAuthMethod,
        Error::NotAuthenticated => RunError::NotAuthenticated,
        Error::SshEncoding => RunError::SshEncoding,
        Error::InvalidDisconnect => RunError::InvalidDisconnect,
        Error::RecvError => RunError::RecvError,
        Error::KeepaliveTimeout => RunError::KeepaliveTimeout,
        Error::InactivityTimeout => RunError::InactivityTimeout,
        Error::RekeyKey => RunError::RekeyKey,
        // Errors of the handle's calls, which no step returns.
        Error::WrongServerSig
        | Error::RequestDenied
        | Error::ChannelOpenFailure(_)
        | Error::SendError
        | Error::Disconnect => RunError::Inconsistent,
    }
}

fn handler_error_at(place: u64, e: HandlerError) -> RunError
    ensures { result ≡ handler_error_of place e }
{
    match e {
        HandlerError::Client(e) => error_at(place, e),
        HandlerError::Key(sshc_key::Error::KeyChanged { line }) => RunError::KeyChanged { line },
        HandlerError::Key(sshc_key::Error::Revoked { line }) => RunError::Revoked { line },
        HandlerError::Key(sshc_key::Error::Decode) => RunError::Decode,
        HandlerError::Key(sshc_key::Error::NoMemory) => RunError::NoMemory,
        HandlerError::Key(_) => RunError::SshKey,
    }
}

pub fn event_error_at(place: u64, e: EventError) -> RunError
    ensures { result ≡ (elim e [ EventError.NoMemory ↦ RunError.NoMemory | EventError.Bad ↦ RunError.BadEvent place ]) }
{
    match e {
        EventError::NoMemory => RunError::NoMemory,
        EventError::Bad => RunError::BadEvent { at: place },
    }
}

fn next_error_at(place: u64, e: NextError) -> RunError
    ensures { result ≡ (elim e [
      | NextError.NoMemory ↦ RunError.NoMemory
      | NextError.ReadFault ↦ RunError.ReadFault
      | NextError.Bad ↦ RunError.BadEvent place
    ]) }
{
    match e {
        NextError::NoMemory => RunError::NoMemory,
        NextError::ReadFault => RunError::ReadFault,
        NextError::Bad => RunError::BadEvent { at: place },
    }
}

pub fn write_failed(failed: Failed) -> RunError
    ensures { result ≡ (elim failed [ Failed.Fault ↦ RunError.WriteFault | Failed.NoMemory ↦ RunError.NoMemory ]) }
{
    match failed {
        Failed::Fault => RunError::WriteFault,
        Failed::NoMemory => RunError::NoMemory,
    }
}

fn read_failed(failed: Failed) -> RunError
    ensures { result ≡ (elim failed [ Failed.Fault ↦ RunError.ReadFault | Failed.NoMemory ↦ RunError.NoMemory ]) }
{
    match failed {
        Failed::Fault => RunError::ReadFault,
        Failed::NoMemory => RunError::NoMemory,
    }
}

/// How the run stops at a step, or `None` if it continues.
fn stop_at(place: u64, step: Step<HandlerError>) -> Option<Result<Ended, RunError>>
    ensures { result ≡ step_answer place step }
{
    match step {
        Step::Went | Step::Opened => None,
        Step::Ended(e) => Some(Ok(e)),
        Step::Refused(e) => Some(Err(handler_error_at(place, e))),
        Step::Closed => Some(Err(RunError::Inconsistent)),
    }
}

/// Steps the session, and writes the records.
fn step_event<G: LocalSigner, V: Verifier, K: RecordSink>(
    at: &mut Point,
    event: &Event,
    gate: &mut KnownHostsHandler,
    signer: &mut G,
    verifier: &V,
    sink: &mut K,
) -> Option<Result<Ended, RunError>>
    requires ready { IsReady at.old.session }
    ensures gives { TakeGives
        (step_turn (is_open at.old.session.opening.phase) (hosts_of gate.old) (V.accepts verifier.now) at.old.place
        at.old.session event.now)
        (since (G.calls signer.old) (G.calls signer.new)) at.new.session (K.contents sink.old)
        (K.contents sink.new) result }
    ensures moved { (at.new.place ≡ at.old.place) × (at.new.last ≡ at.old.last) }
    ensures agents { at.new.agents ≡ at.old.agents }
    ensures ready { IfNone result (IsReady at.new.session) }
    ensures same { hosts_of gate.new ≡ hosts_of gate.old }
    ensures gained { G.calls signer.new ≡ G.calls signer.old ++ since (G.calls signer.old) (G.calls signer.new) }
    ensures sink { SinkTaken
        (sink_state (K.contents sink.old) (K.writes sink.old) (K.empty_writes sink.old) (K.faults sink.old))
        (sink_state (K.contents sink.new) (K.writes sink.new) (K.empty_writes sink.new) (K.faults sink.new)) result }
    ensures no_read { result ≢ Some (Err RunError.ReadFault) }
    ensures signer { SignerTaken (G.refusals signer.old) (G.refusals signer.new) result }
{
    let step = step_session(at, event, gate, signer, verifier);
    let written = sink.put_records(&mut at.buffers.lines, at.session.records());
    at.session.clear_records();
    match written {
        Ok(()) => stop_at(at.place, step),
        Err(failed) => Some(Err(write_failed(failed))),
    }
}

/// Takes an event of the session, and writes its records.
fn take_session_event<G: LocalSigner, V: Verifier, K: RecordSink>(
    alloc: Global,
    at: &mut Point,
    event: &RawEvent<'_>,
    gate: &mut KnownHostsHandler,
    signer: &mut G,
    verifier: &V,
    sink: &mut K,
) -> Option<Result<Ended, RunError>>
    requires ready { IsReady at.old.session }
    ensures gives { TakeGives
        (session_turn (hosts_of gate.old) (V.accepts verifier.now) at.old.session (frame_at at.old.place event.now))
        (since (G.calls signer.old) (G.calls signer.new)) at.new.session (K.contents sink.old)
        (K.contents sink.new) result }
    ensures moved { (at.new.place ≡ at.old.place) × (at.new.last ≡ at.old.last) }
    ensures agents { at.new.agents ≡ at.old.agents }
    ensures ready { IfNone result (IsReady at.new.session) }
    ensures same { hosts_of gate.new ≡ hosts_of gate.old }
    ensures gained { G.calls signer.new ≡ G.calls signer.old ++ since (G.calls signer.old) (G.calls signer.new) }
    ensures sink { SinkTaken
        (sink_state (K.contents sink.old) (K.writes sink.old) (K.empty_writes sink.old) (K.faults sink.old))
        (sink_state (K.contents sink.new) (K.writes sink.new) (K.empty_writes sink.new) (K.faults sink.new)) result }
    ensures no_read { result ≢ Some (Err RunError.ReadFault) }
    ensures signer { SignerTaken (G.refusals signer.old) (G.refusals signer.new) result }
{
    let place = at.place;
    match read_event(alloc, event.kind(), event.fields()) {
        Ok(event) => {
            let answer = step_event(at, &event, gate, signer, verifier, sink);
            drop(event);
            answer
        }
        Err(e) => Some(Err(event_error_at(place, e))),
    }
}

/// Whether events of this kind are the session's; the others are an agent's.
fn is_session_kind(kind: EventKind) -> bool
    ensures { result ≡ is_session_kind kind }
{
    !matches!(
        kind,
        EventKind::AgentBytes
            | EventKind::AgentRequestAnswer
            | EventKind::AgentKeyAnswer
            | EventKind::AgentClose
    )
}

/// Takes an event, and writes its records.
fn take_event<G: LocalSigner, V: Verifier, K: RecordSink>(
    alloc: Global,
    at: &mut Point,
    event: &RawEvent<'_>,
    gate: &mut KnownHostsHandler,
    signer: &mut G,
    verifier: &V,
    sink: &mut K,
) -> Option<Result<Ended, RunError>>
    requires ready { IsReady at.old.session }
    ensures gives { TakeGives
        (run_turn (hosts_of gate.old) (V.accepts verifier.now) (kept at.old.session at.old.agents)
        (frame_at at.old.place event.now))
        (since (G.calls signer.old) (G.calls signer.new)) (kept at.new.session at.new.agents) (K.contents sink.old)
        (K.contents sink.new) result }
    ensures moved { (at.new.place ≡ at.old.place) × (at.new.last ≡ at.old.last) }
    ensures ready { IfNone result (IsReady at.new.session) }
    ensures same { hosts_of gate.new ≡ hosts_of gate.old }
    ensures gained { G.calls signer.new ≡ G.calls signer.old ++ since (G.calls signer.old) (G.calls signer.new) }
    ensures sink { SinkTaken
        (sink_state (K.contents sink.old) (K.writes sink.old) (K.empty_writes sink.old) (K.faults sink.old))
        (sink_state (K.contents sink.new) (K.writes sink.new) (K.empty_writes sink.new) (K.faults sink.new)) result }
    ensures no_read { result ≢ Some (Err RunError.ReadFault) }
    ensures signer { SignerTaken (G.refusals signer.old) (G.refusals signer.new) result }
{
    if is_session_kind(event.kind()) {
        take_session_event(alloc, at, event, gate, signer, verifier, sink)
    } else {
        take_agent_event(
            alloc,
            &mut at.buffers,
            &mut at.agents,
            at.place,
            event,
            signer,
            sink,
        )
    }
}

/// Reads one event into the buffer, and takes it.
pub fn one_turn<S: Source, G: LocalSigner, V: Verifier, K: RecordSink>(
    alloc: Global,
    buffer: &mut Vec<u8>,
    at: &mut Point,
    gate: &mut KnownHostsHandler,
    source: &mut S,
    signer: &mut G,
    verifier: &V,
    sink: &mut K,
) -> Option<Result<Ended, RunError>>
    requires room { at.old.place + 262148 < 2 ^ 64 }
    requires ready { IsReady at.old.session }
    ensures gives { TurnGives (run (run_turn (hosts_of gate.old) (V.accepts verifier.now)))
        (spot at.old.place at.old.last (kept at.old.session at.old.agents))
        (spot at.new.place at.new.last (kept at.new.session at.new.agents))
        (streams (S.left source.old) (K.contents sink.old) (S.reads source.old) (G.calls signer.old))
        (streams (S.left source.new) (K.contents sink.new) (S.reads source.new) (G.calls signer.new)) result }
    ensures ended { result ≡ Some (Ok ScriptEnd) → Stays
        (spot at.old.place at.old.last (kept at.old.session at.old.agents))
        (spot at.new.place at.new.last (kept at.new.session at.new.agents))
        (streams (S.left source.old) (K.contents sink.old) (S.reads source.old) (G.calls signer.old))
        (streams (S.left source.new) (K.contents sink.new) (S.reads source.new) (G.calls signer.new)) }
    ensures ready { IfNone result (IsReady at.new.session) }
    ensures same { hosts_of gate.new ≡ hosts_of gate.old }
    ensures source { SourceTaken
        (source_state (S.left source.old) (S.reads source.old) (S.empty_reads source.old) (S.faults source.old))
        (source_state (S.left source.new) (S.reads source.new) (S.empty_reads source.new) (S.faults source.new))
        result }
    ensures sink { SinkTaken
        (sink_state (K.contents sink.old) (K.writes sink.old) (K.empty_writes sink.old) (K.faults sink.old))
        (sink_state (K.contents sink.new) (K.writes sink.new) (K.empty_writes sink.new) (K.faults sink.new)) result }
    ensures signer { SignerTaken (G.refusals signer.old) (G.refusals signer.new) result }
{
    let event = match next_event(buffer, source, at.last) {
        Ok(Some(event)) => event,
        Ok(None) => return Some(Ok(Ended::ScriptEnd)),
        Err(e) => return Some(Err(next_error_at(at.place, e))),
    };
    if let Some(answer) = take_event(alloc, at, &event, gate, signer, verifier, sink) {
        return Some(answer);
    }
    at.place += event.size();
    at.last = event.moment();
    None
}

/// The result of a run that may take no more events: whether the script is at its end.
pub fn at_limit<S: Source>(alloc: Global, source: &mut S) -> Result<Ended, RunError>
    ensures gives { LimitGives (S.left source.old) (S.left source.new) result }
    ensures count { S.reads source.new ≤ S.reads source.old + 1 }
    ensures last { S.empty_reads source.new ≤ S.empty_reads source.old + 1 }
    ensures later { S.faults source.old ≤ S.faults source.new }
    ensures fault { result ≡ Err RunError.ReadFault → Rose (S.faults source.old) (S.faults source.new) }
    ensures told { (result ≡ Err RunError.ReadFault → ⊥) → S.faults source.new ≡ S.faults source.old }
{
    match read_up_to(alloc, source, 1) {
        Ok(bytes) => {
            if bytes.is_empty() {
                Ok(Ended::ScriptEnd)
            } else {
                Err(RunError::ScriptTooLong)
            }
        }
        Err(failed) => Err(read_failed(failed)),
    }
}
