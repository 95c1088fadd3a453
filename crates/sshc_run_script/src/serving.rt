//! One event of an agent's connection: it is taken by the agent, and its records are written.

ghost use Rattle.std.specs.Prelude.{◌≡◌, ◌≢◌, ◌++◌, Some, Err};
ghost use Rattle.sshc_key.specs.Signers.{since};
ghost use Rattle.sshc_run_reader.specs.Script.{frame_at};
ghost use Rattle.sshc_run_script.specs.AgentsTurn.{agents_turn, served_turn};
ghost use Rattle.sshc_run_script.specs.RunFaults.{SignerTaken};
ghost use Rattle.sshc_run_script.specs.RunOutside.{sink_state, SinkTaken};
ghost use Rattle.sshc_run_script.specs.TurnContracts.{TakeGives};

use crate::error::RunError;
use crate::point::Buffers;
use crate::record_sink::RecordSink;
use crate::turn::{event_error_at, write_failed};
use sshc_auth::Ended;
use sshc_key::LocalSigner;
use sshc_run_agent::{AgentEvent, ServedAgent, read_agent_event};
use sshc_run_reader::RawEvent;
use sshc_wire::NoMemory;
use std::alloc::Global;

/// Serves an event at a moment in milliseconds, and writes the records.
fn serve_event<G: LocalSigner, K: RecordSink>(
    buffers: &mut Buffers,
    agents: &mut ServedAgent,
    moment: u64,
    event: &AgentEvent,
    signer: &mut G,
    sink: &mut K,
) -> Option<Result<Ended, RunError>>
    ensures gives { TakeGives (served_turn moment event.now agents.old)
        (since (G.calls signer.old) (G.calls signer.new)) agents.new (K.contents sink.old)
        (K.contents sink.new) result }
    ensures gained { G.calls signer.new ≡ G.calls signer.old ++ since (G.calls signer.old) (G.calls signer.new) }
    ensures sink { SinkTaken
        (sink_state (K.contents sink.old) (K.writes sink.old) (K.empty_writes sink.old) (K.faults sink.old))
        (sink_state (K.contents sink.new) (K.writes sink.new) (K.empty_writes sink.new) (K.faults sink.new)) result }
    ensures no_read { result ≢ Some (Err RunError.ReadFault) }
    ensures signer { SignerTaken (G.refusals signer.old) (G.refusals signer.new) result }
{
    match agents.take(moment, event, signer, &mut buffers.output) {
        Ok(()) => match sink.put_records(&mut buffers.lines, &buffers.output) {
            Ok(()) => None,
            Err(failed) => Some(Err(write_failed(failed))),
        },
        Err(NoMemory) => Some(Err(RunError::NoMemory)),
    }
}

/// Takes an event of an agent at its place, and writes its records.
pub fn take_agent_event<G: LocalSigner, K: RecordSink>(
    alloc: Global,
    buffers: &mut Buffers,
    agents: &mut ServedAgent,
    place: u64,
    event: &RawEvent<'_>,
    signer: &mut G,
    sink: &mut K,
) -> Option<Result<Ended, RunError>>
    ensures gives { TakeGives (agents_turn agents.old (frame_at place event.now))
        (since (G.calls signer.old) (G.calls signer.new)) agents.new (K.contents sink.old)
        (K.contents sink.new) result }
    ensures gained { G.calls signer.new ≡ G.calls signer.old ++ since (G.calls signer.old) (G.calls signer.new) }
    ensures sink { SinkTaken
        (sink_state (K.contents sink.old) (K.writes sink.old) (K.empty_writes sink.old) (K.faults sink.old))
        (sink_state (K.contents sink.new) (K.writes sink.new) (K.empty_writes sink.new) (K.faults sink.new)) result }
    ensures no_read { result ≢ Some (Err RunError.ReadFault) }
    ensures signer { SignerTaken (G.refusals signer.old) (G.refusals signer.new) result }
{
    match read_agent_event(alloc, event.kind(), event.fields()) {
        Ok(read) => serve_event(buffers, agents, event.moment(), &read, signer, sink),
        Err(e) => Some(Err(event_error_at(place, e))),
    }
}
