//! Events of an agent's connections, and how their fields are read (docs/FORMATS.md, "Events").

ghost use Rattle.std.specs.Prelude.{◌≡◌};
ghost use Rattle.sshc_run_reader.specs.Gives.{GivesAll};
ghost use Rattle.sshc_run_agent.specs.AgentEvents.{agent_event_of, bytes_event_of, close_event_of, key_answer_of};
ghost use Rattle.sshc_run_agent.specs.AgentEvents.{request_answer_of};

use sshc_agent_core::AgentInput;
use sshc_run_reader::{EventError, EventKind};
use sshc_wire::{Cursor, Octets};
use std::alloc::Global;

/// An event of one of the agent's connections.
#[derive(Drop)]
pub enum AgentEvent {
    /// Bytes, which need not be whole frames.
    Bytes { conn: u32, piece: Octets },
    /// The user's answer to a question, or the end of the connection by the client.
    Input { conn: u32, input: AgentInput },
}

#[tactic(auto, unfolding(crate::specs::AgentEvents::bytes_event_of, sshc_run_reader::specs::EventParts::u32_at))]
fn bytes_event(alloc: Global, c: &mut Cursor<'_>) -> Result<AgentEvent, EventError>
    ensures { GivesAll (λ e. e) result (bytes_event_of c.old) }
{
    let conn = c.u32()?;
    let piece = Octets::from_slice(alloc, c.rest())?;
    Ok(AgentEvent::Bytes { conn, piece })
}

#[tactic(auto, unfolding(crate::proofs::By::request_answer_of, crate::proofs::By::u32_at, crate::proofs::By::flag_at))]
fn request_answer(c: &mut Cursor<'_>) -> Result<AgentEvent, EventError>
    ensures { GivesAll (λ e. e) result (request_answer_of c.old) }
{
    let conn = c.u32()?;
    let is_allowed = c.boolean()?;
    c.ensure_end()?;
    Ok(AgentEvent::Input {
        conn,
        input: AgentInput::RequestAnswer(is_allowed),
    })
}

#[tactic(auto, unfolding(crate::proofs::By::key_answer_of, crate::proofs::By::u32_at, crate::proofs::By::flag_at))]
fn key_answer(c: &mut Cursor<'_>) -> Result<AgentEvent, EventError>
    ensures { GivesAll (λ e. e) result (key_answer_of c.old) }
{
    let conn = c.u32()?;
    let is_confirmed = c.boolean()?;
    c.ensure_end()?;
    Ok(AgentEvent::Input {
        conn,
        input: AgentInput::KeyAnswer(is_confirmed),
    })
}

#[tactic(auto, unfolding(crate::specs::AgentEvents::close_event_of, sshc_run_reader::specs::EventParts::u32_at))]
fn close_event(c: &mut Cursor<'_>) -> Result<AgentEvent, EventError>
    ensures { GivesAll (λ e. e) result (close_event_of c.old) }
{
    let conn = c.u32()?;
    c.ensure_end()?;
    Ok(AgentEvent::Input {
        conn,
        input: AgentInput::Close,
    })
}

/// Reads the agent's event of this kind from its fields. `Bad` if a field is too short, if bytes remain, or if the kind
/// is a session's.
#[tactic(auto, unfolding(crate::specs::AgentEvents::agent_event_of))]
pub fn read_agent_event(
    alloc: Global,
    kind: EventKind,
    fields: &[u8],
) -> Result<AgentEvent, EventError>
    ensures { GivesAll (λ e. e) result (agent_event_of kind fields.now) }
{
    let c = &mut Cursor::new(fields);
    match kind {
        EventKind::AgentBytes => bytes_event(alloc, c),
        EventKind::AgentRequestAnswer => request_answer(c),
        EventKind::AgentKeyAnswer => key_answer(c),
        EventKind::AgentClose => close_event(c),
        _ => Err(EventError::Bad),
    }
}
