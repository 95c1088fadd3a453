//! Steps of a core. A row is: name | the policy's file | inputs | the outputs. An input is a connection's number and
//! `:frame:HEX`, `:answer:HEX` or `:close`; an output is `forward:HEX`, `answer:HEX`, `nothing` or `no-memory`.

use crate::files::policy_of;
use crate::row::{bytes_of, field_of};
use sshc_proxy::{Policy, ProxyCore, ProxyInput, ProxyOutput};
use sshc_toy::ToyVerifier;
use sshc_wire::{NoMemory, Octets};
use std::alloc::Global;

/// The part of an input's text at this place.
fn part_of(text: &str, place: usize) -> &str {
    match text.split(':').nth(place) {
        Some(part) => part,
        None => "",
    }
}

fn conn_of(text: &str) -> u32 {
    part_of(text, 0).parse::<u32>().unwrap_or(0)
}

fn input_of(alloc: Global, text: &str) -> Result<ProxyInput, NoMemory> {
    let body = Octets::from_vec(bytes_of(alloc, part_of(text, 2)))?;
    match part_of(text, 1) {
        "frame" => Ok(ProxyInput::Frame(body)),
        "answer" => Ok(ProxyInput::Upstream(body)),
        _ => Ok(ProxyInput::Close),
    }
}

/// The kind of an output, and its frame in hexadecimal.
fn add_frame(shown: &mut String, kind: &str, alloc: Global, frame: &Octets) -> anyhow::Result<()> {
    shown.push_str(kind)?;
    shown.push_str(&hex::encode(alloc, frame.as_slice())?)?;
    Ok(())
}

fn add_output(alloc: Global, shown: &mut String, output: &ProxyOutput) -> anyhow::Result<()> {
    if !shown.is_empty() {
        shown.push(' ')?;
    }
    match output {
        ProxyOutput::Forward(frame) => add_frame(shown, "forward:", alloc, frame),
        ProxyOutput::Answer(frame) => add_frame(shown, "answer:", alloc, frame),
        ProxyOutput::Nothing => Ok(shown.push_str("nothing")?),
        ProxyOutput::NoMemory => Ok(shown.push_str("no-memory")?),
    }
}

/// The outputs of a core with this policy.
fn outputs_of(alloc: Global, policy: Policy, inputs: &str) -> anyhow::Result<String> {
    let verifier = ToyVerifier::new(alloc);
    let mut core = ProxyCore::new(policy);
    let mut shown = String::new(alloc);
    for text in inputs.split_whitespace() {
        let input = input_of(alloc, text)?;
        let output = core.step(conn_of(text), &input, &verifier);
        add_output(alloc, &mut shown, &output)?;
    }
    Ok(shown)
}

/// Whether the row holds.
pub fn is_right(rt: &HostRuntime, line: &str) -> anyhow::Result<bool> {
    match policy_of(rt, field_of(line, 1)) {
        Ok(policy) => {
            let shown = outputs_of(rt.alloc(), policy, field_of(line, 2))?;
            Ok(shown.as_str() == field_of(line, 3))
        }
        Err(_) => Ok(false),
    }
}
