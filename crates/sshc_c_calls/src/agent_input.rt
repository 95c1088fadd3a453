//! The inputs of an agent by their numbers.

ghost use Rattle.std.specs.Prelude.{◌≡◌, IfErr, IfOk, Some};
ghost use Rattle.sshc_c_calls.specs.AgentInputs.{frame_of, input_of, RefusesInput};

use crate::status::{BAD_INPUT, NO_MEMORY};
use sshc_agent_core::AgentInput;
use sshc_key::agent_msg::MAX_AGENT_FRAME_LEN;
use sshc_wire::{NoMemory, Octets};
use std::alloc::Global;

/// A frame's length above the longest, as an input that says no more names it.
const OVERSIZE: u32 = 262145;

/// The input of this number: 0 is the frame, without its length; 1 a frame's length above 262144; 2 and 3 that the user
/// allows the request asked about, or not; 4 and 5 that the user confirms the use of the key asked about, or not; 6
/// that the client went away. Otherwise the status that refuses it.
pub fn input_of(alloc: Global, number: u32, frame: &[u8]) -> Result<AgentInput, u32>
    ensures input { IfOk result (λ input. input_of number frame.now ≡ Some input) }
    ensures refused { IfErr result (λ status. RefusesInput (input_of number frame.now) status) }
{
    match number {
        0 => frame_of(alloc, frame),
        1 => Ok(AgentInput::Oversize { length: OVERSIZE }),
        2 => Ok(AgentInput::RequestAnswer(true)),
        3 => Ok(AgentInput::RequestAnswer(false)),
        4 => Ok(AgentInput::KeyAnswer(true)),
        5 => Ok(AgentInput::KeyAnswer(false)),
        6 => Ok(AgentInput::Close),
        _ => Err(BAD_INPUT),
    }
}

/// The input of a frame, unless it is too long.
fn frame_of(alloc: Global, frame: &[u8]) -> Result<AgentInput, u32>
    ensures input { IfOk result (λ input. frame_of frame.now ≡ Some input) }
    ensures refused { IfErr result (λ status. RefusesInput (frame_of frame.now) status) }
{
    if frame.len() > MAX_AGENT_FRAME_LEN as usize {
        return Err(BAD_INPUT);
    }
    match Octets::from_slice(alloc, frame) {
        Ok(frame) => Ok(AgentInput::Frame(frame)),
        Err(NoMemory) => Err(NO_MEMORY),
    }
}
