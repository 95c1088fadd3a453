//! The agent core.

use sshc_agent_core::{AgentCore, AgentOutput, Frames};
use sshc_key::LocalSigner;
use sshc_wire::NoMemory;

/// The agent's answer, at a moment in milliseconds, to the next whole frame of one connection, after these bytes came;
/// `None` while no frame is whole. The bytes may come in any pieces.
pub fn answer_frame<G: LocalSigner>(
    agent: &mut AgentCore,
    frames: &mut Frames,
    now: u64,
    conn: u32,
    bytes: &[u8],
    signer: &mut G,
) -> Result<Option<AgentOutput>, NoMemory> {
    frames.push(bytes)?;
    match frames.next()? {
        Some(input) => Ok(Some(agent.step(now, conn, &input, signer))),
        None => Ok(None),
    }
}
