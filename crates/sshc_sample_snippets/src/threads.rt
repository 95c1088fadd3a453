//! One agent for many threads.

use sshc_agent_core::{AgentInput, AgentOutput};
use sshc_agent_shared::{AgentShared, CallRefused, Seat, Settings};
use sshc_key::LocalSigner;
use std::sync::Wait;

/// One input on a connection of its own. The seat has the call with its answer; `AgentShared::close` compares all seats
/// with the agent's history.
pub fn ask_once<L: Settings, G: LocalSigner, R: Wait>(
    rt: &R,
    shared: &AgentShared<L>,
    now: u64,
    input: AgentInput,
    signer: &mut G,
) -> Result<(Seat<L>, Result<AgentOutput, CallRefused>), CallRefused> {
    let seat = shared.connect(rt)?;
    Ok(shared.call(rt, seat, now, input, signer))
}
