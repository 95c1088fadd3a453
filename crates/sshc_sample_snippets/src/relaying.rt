//! A client of an agent behind a written policy.

use sshc_key::Verifier;
use sshc_proxy::{Policy, PolicyError, ProxyError, parse_policy, proxy_run};
use sshc_wire::AgentStream;
use std::alloc::Global;

/// The rules of a policy's text.
pub fn policy_of(alloc: Global, text: &str) -> Result<Policy, PolicyError> {
    parse_policy(alloc, text)
}

/// Serves a client until its bytes end: each frame is answered by the agent where the policy lets it pass.
pub fn serve_by_policy<S: AgentStream, U: AgentStream, V: Verifier>(
    policy: Policy,
    client: &mut S,
    agent: &mut U,
    verifier: &V,
) -> Result<(), ProxyError> {
    proxy_run(policy, client, agent, verifier)
}
