//! Openings and sessions, event by event.

use sshc_auth::{Gate, Opening, Step};
use sshc_auth_event::Event;
use sshc_client::{Handler, Session};
use sshc_key::{LocalSigner, Verifier};
use sshc_wire::Outbox;

/// Whether one of these events opens the session. The records of the steps are added to `out`.
pub fn opens<G: Gate, S: LocalSigner>(
    opening: &mut Opening,
    events: &[Event],
    gate: &mut G,
    signer: &mut S,
    out: &mut Outbox,
) -> bool
where
    G::Error: Drop,
{
    for event in events {
        if let Step::Opened = opening.step(event, gate, signer, out) {
            return true;
        }
    }
    false
}

/// Hands these events to a session one by one, and returns all records; it stops after the event at which the session
/// ends or is refused.
pub fn step_all<H: Handler, S: LocalSigner, V: Verifier>(
    session: &mut Session,
    events: &[Event],
    handler: &mut H,
    signer: &mut S,
    verifier: &V,
) -> Outbox
where
    H::Error: Drop,
{
    for event in events {
        match session.step(event, handler, signer, verifier) {
            Step::Went | Step::Opened => {}
            _ => break,
        }
    }
    session.take_records()
}
