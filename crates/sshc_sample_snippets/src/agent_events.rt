//! An agent in a script.

use sshc_key::LocalSigner;
use sshc_run_agent::{ServedAgent, read_agent_event};
use sshc_run_reader::EventKind;
use sshc_wire::Outbox;
use std::alloc::Global;

/// Leaves in `out` the records of an agent's event at a moment in milliseconds. `false` if its fields can't be read, or
/// out of memory.
pub fn agent_records<G: LocalSigner>(
    alloc: Global,
    agent: &mut ServedAgent,
    now: u64,
    kind: EventKind,
    fields: &[u8],
    signer: &mut G,
    out: &mut Outbox,
) -> bool {
    match read_agent_event(alloc, kind, fields) {
        Ok(event) => agent.take(now, &event, signer, out).is_ok(),
        Err(_) => false,
    }
}
