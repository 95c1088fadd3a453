//! The agent round: the agent reads the request that a client wrote, and the client reads the answer that the agent
//! wrote.
#![tactic(auto)]

ghost use Rattle.sshc_ask_laws.specs.AgentRound.{IsAgentRound};

/// The agent round, as a law about the definitions of the agent's client and of the agent. The function does nothing.
pub fn agent_round()
    ensures round { IsAgentRound }
{}
