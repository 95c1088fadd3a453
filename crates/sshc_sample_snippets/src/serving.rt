//! Connections of an agent that threads share.

use sshc_agent::{Clock, serve_one};
use sshc_agent_shared::{AgentShared, CallRefused, Seat, Settings};
use sshc_key::LocalSigner;
use sshc_wire::AgentStream;
use std::alloc::Global;
use std::sync::Wait;

/// Serves a connection until its stream ends or fails, and returns its seat. Each question of the agent is answered
/// with yes, and nothing is called before each call.
pub fn serve_stream<L: Settings, S: AgentStream, G: LocalSigner, C: Clock, R: Wait>(
    rt: &R,
    alloc: Global,
    shared: &AgentShared<L>,
    stream: &mut S,
    signer: &mut G,
    clock: &mut C,
) -> Result<Seat<L>, CallRefused> {
    let seat = shared.connect(rt)?;
    let (seat, _ended) = serve_one(rt, alloc, shared, seat, stream, &(), signer, &(), clock);
    Ok(seat)
}
