//! A client of an agent.

use sshc_ask::AgentClient;
use sshc_key::{AgentIdentity, Error};
use sshc_wire::AgentStream;
use std::alloc::Global;

/// The keys that an agent at the other end of a stream holds, and the stream, for more calls.
pub fn keys_of<S: AgentStream>(alloc: Global, stream: S) -> (S, Result<Vec<AgentIdentity>, Error>) {
    let mut client = AgentClient::connect(alloc, stream);
    let found = client.request_identities();
    (client.into_inner(), found)
}
