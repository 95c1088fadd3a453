//! Which blobs are at which deadline.

use crate::stepping::signer::CountingSigner;
use sshc_agent_core::{AgentCore, AgentInput};
use sshc_key::agent_msg;
use sshc_wire::{NoMemory, Octets, put_bytes};
use std::alloc::Global;
use std::test::Fail;

/// What an agent gets. A key is an Ed25519 key whose public part is 32 times one byte.
#[derive(Clone, Copy)]
enum Gets {
    /// The key for so many seconds.
    Adds(u8, u8),
    Removes(u8),
    Lists,
}

/// The moment in milliseconds, what the agent gets, and then the deadlines with their keys, in order.
type Line = (u64, Gets, &'static [(u64, &'static [u8])]);

/// Two keys at one deadline, one that is added again with another, removals, and an expiry.
const LINES: &[Line] = &[
    (0, Gets::Adds(1, 1), &[(1000, &[1])]),
    (0, Gets::Adds(2, 1), &[(1000, &[1, 2])]),
    (0, Gets::Adds(3, 2), &[(1000, &[1, 2]), (2000, &[3])]),
    (0, Gets::Adds(1, 2), &[(1000, &[2]), (2000, &[3, 1])]),
    (0, Gets::Removes(3), &[(1000, &[2]), (2000, &[1])]),
    (0, Gets::Adds(2, 1), &[(1000, &[2]), (2000, &[1])]),
    (999, Gets::Lists, &[(1000, &[2]), (2000, &[1])]),
    (1000, Gets::Lists, &[(2000, &[1])]),
    (1000, Gets::Removes(1), &[]),
];

/// Appends the blob of the key.
fn put_key(out: &mut Vec<u8>, key: u8) -> Result<(), NoMemory> {
    put_bytes(out, b"ssh-ed25519")?;
    put_bytes(out, &[key; 32])
}

/// A frame that adds the key for so many seconds.
fn adds(alloc: Global, key: u8, seconds: u8) -> Result<Octets, NoMemory> {
    let mut out = Vec::from_slice(alloc, &[agent_msg::ADD_ID_CONSTRAINED])?;
    put_key(&mut out, key)?;
    put_bytes(&mut out, &[key; 64])?;
    put_bytes(&mut out, b"")?;
    out.extend_from_slice(&[agent_msg::CONSTRAIN_LIFETIME, 0, 0, 0, seconds])?;
    Octets::from_vec(out)
}

/// A frame that removes the key.
fn removes(alloc: Global, key: u8) -> Result<Octets, NoMemory> {
    let mut out = Vec::from_slice(alloc, &[agent_msg::REMOVE_IDENTITY, 0, 0, 0, 51])?;
    put_key(&mut out, key)?;
    Octets::from_vec(out)
}

fn frame_of(alloc: Global, gets: Gets) -> Result<Octets, NoMemory> {
    match gets {
        Gets::Adds(key, seconds) => adds(alloc, key, seconds),
        Gets::Removes(key) => removes(alloc, key),
        Gets::Lists => Octets::from_slice(alloc, &[agent_msg::REQUEST_IDENTITIES]),
    }
}

/// Whether just these keys are at the deadline.
fn are_at(agent: &AgentCore, deadline: u64, keys: &[u8]) -> bool {
    match agent.deadlines().get(&deadline) {
        Some(blobs) => {
            let blobs = blobs.as_slice();
            let ends = blobs.iter().map(|blob| blob.as_slice().last());
            blobs.len() == keys.len() && ends.zip(keys).all(|(end, key)| end == Some(key))
        }
        None => false,
    }
}

/// Whether just these deadlines are there, with just these keys.
fn are_all(agent: &AgentCore, deadlines: &[(u64, &[u8])]) -> bool {
    agent.deadlines().len() == deadlines.len()
        && deadlines.iter().all(|at| are_at(agent, at.0, at.1))
}

/// The number of the first line that comes out otherwise.
fn first_other(
    alloc: Global,
    agent: &mut AgentCore,
    signer: &mut CountingSigner,
) -> Result<Option<usize>, NoMemory> {
    for (at, line) in LINES.iter().enumerate() {
        let input = AgentInput::Frame(frame_of(alloc, line.1)?);
        let _output = agent.step(line.0, 1, &input, signer);
        if !are_all(agent, line.2) {
            return Ok(Some(at));
        }
    }
    Ok(None)
}

#[test]
fn blobs_are_at_their_deadlines(rt: HostRuntime) -> Result<(), Fail> {
    let alloc = rt.alloc();
    let mut agent = AgentCore::new(alloc, false);
    let mut signer = CountingSigner::new(alloc);
    let other = first_other(alloc, &mut agent, &mut signer)?;
    assert_eq!(rt; other, None);
    Ok(())
}
