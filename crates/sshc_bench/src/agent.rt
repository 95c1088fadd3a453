//! The agent core over memory: listings of its keys, and signatures by them.

mod frames;

use frames::{adds, asks_to_sign, lists};
use sshc_agent_core::{AgentCore, AgentInput, AgentOutput};
use sshc_toy::ToySigner;
use sshc_wire::NoMemory;
use std::alloc::Global;

/// How many bytes an answer has; 0 for any other output.
fn size(output: &AgentOutput) -> u64 {
    match output {
        AgentOutput::Answer(frame) => frame.as_slice().len() as u64,
        _ => 0,
    }
}

/// Takes an input at a moment, and returns how many bytes the answer has.
fn answered(agent: &mut AgentCore, signer: &mut ToySigner, moment: u32, input: &AgentInput) -> u64 {
    let output = agent.step(u64::from(moment), 1, input, signer);
    size(&output)
}

/// Adds so many keys.
fn add(
    alloc: Global,
    agent: &mut AgentCore,
    signer: &mut ToySigner,
    keys: u32,
) -> Result<(), NoMemory> {
    for number in 0..keys {
        let input = AgentInput::Frame(adds(alloc, number)?);
        let _ = answered(agent, signer, 0, &input);
    }
    Ok(())
}

/// What is asked, made before it is asked: a listing, or a signature by each key.
fn inputs(alloc: Global, signs: bool, keys: u32) -> Result<Vec<AgentInput>, NoMemory> {
    let mut inputs = Vec::new(alloc);
    if signs {
        for number in 0..keys {
            inputs.push(AgentInput::Frame(asks_to_sign(alloc, number)?))?;
        }
    } else {
        inputs.push(AgentInput::Frame(lists(alloc)?))?;
    }
    Ok(inputs)
}

/// Asks for a listing, or for a signature by one key after the other. Returns how many bytes the answers have.
fn ask(
    alloc: Global,
    agent: &mut AgentCore,
    signer: &mut ToySigner,
    signs: bool,
    keys: u32,
    times: u32,
) -> Result<u64, NoMemory> {
    add(alloc, agent, signer, keys)?;
    let inputs = inputs(alloc, signs, keys)?;
    let mut bytes = 0u64;
    let mut at = 0usize;
    for time in 0..times {
        if let Some(input) = inputs.get(at) {
            bytes = bytes.saturating_add(answered(agent, signer, time, input));
        }
        at = if at < inputs.len().saturating_sub(1) {
            at + 1
        } else {
            0
        };
    }
    Ok(bytes)
}

/// The line of a run with so many keys, which asks so many times.
pub fn line(alloc: Global, signs: bool, keys: u32, times: u32) -> Result<String, NoMemory> {
    let mut signer = ToySigner::new(alloc);
    let mut agent = AgentCore::new(alloc, false);
    let asked = ask(alloc, &mut agent, &mut signer, signs, keys, times);
    let_go(agent);
    let bytes = asked?;
    let name = if signs { "sign" } else { "list" };
    Ok(format!(in alloc; "{name}: {keys} keys, {times} times, {bytes} bytes")?)
}

/// Drops a value. An agent is dropped here, where its type is any: a check takes it apart at each place where it might
/// end.
fn let_go<T: Drop>(_value: T) {}
