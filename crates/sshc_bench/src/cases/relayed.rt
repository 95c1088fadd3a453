//! Runs of the proxy over memory.

use super::case::Case;
use super::outcome::Outcome;
use super::runs::{new_sink, source_of};
use sshc_ask::Duplex;
use sshc_proxy::{Policy, PolicyError, ProxyError, parse_policy, proxy_run};
use sshc_run::ToyVerifier;
use sshc_wire::NoMemory;
use std::alloc::Global;

/// The policy isn't text.
const UNREAD_POLICY: u8 = 3;

const BAD_POLICY: u8 = 5;

/// The status with which the proxy's program ends after this result.
fn run_status(ended: Result<(), ProxyError>) -> u8 {
    match ended {
        Ok(()) => 0,
        Err(ProxyError::NoMemory) => 20,
        Err(ProxyError::ClientFault) => 21,
        Err(ProxyError::AgentFault) => 22,
        Err(ProxyError::TooLong) => 24,
        Err(ProxyError::UnexpectedEnd) => 25,
    }
}

/// No run, with this status and this line.
fn refused(alloc: Global, status: u8, line: &str) -> Result<Outcome, NoMemory> {
    Ok(Outcome {
        status,
        written: Vec::from_slice(alloc, line.as_bytes())?,
        left: Vec::new(alloc),
    })
}

/// Serves the client by the policy.
fn served(alloc: Global, policy: Policy, case: &Case<'_>) -> Result<Outcome, NoMemory> {
    let mut client = Duplex {
        source: source_of(alloc, case.input)?,
        sink: new_sink(alloc),
    };
    let mut agent = Duplex {
        source: source_of(alloc, case.answers)?,
        sink: new_sink(alloc),
    };
    let ended = proxy_run(policy, &mut client, &mut agent, &ToyVerifier::new(alloc));
    Ok(Outcome {
        status: run_status(ended),
        written: Vec::from_slice(alloc, client.sink.contents())?,
        left: Vec::from_slice(alloc, agent.sink.contents())?,
    })
}

/// Serves the client by the policy in the file, if it is one.
pub fn relayed(alloc: Global, case: &Case<'_>) -> Result<Outcome, NoMemory> {
    let Ok(text) = str::from_utf8(case.file) else {
        return refused(alloc, UNREAD_POLICY, "");
    };
    match parse_policy(alloc, text) {
        Ok(policy) => served(alloc, policy, case),
        Err(PolicyError::BadLine { line }) => {
            let output = format!(in alloc; "error policy {line}\n")?;
            refused(alloc, BAD_POLICY, output.as_str())
        }
        Err(PolicyError::NoMemory) => Err(NoMemory),
    }
}
