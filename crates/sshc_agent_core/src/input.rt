//! Inputs of an agent and its outputs.

ghost use Rattle.std.specs.Prelude.{◌≡◌, IfOk};

use sshc_wire::{MessageType, NoMemory, Octets};

/// An input of a connection.
#[derive(Drop, PartialEq, Eq)]
pub enum AgentInput {
    /// A frame without its length, at most 262144 bytes.
    Frame(Octets),
    /// A frame's length above 262144.
    Oversize { length: u32 },
    /// The user's answer to an AskRequest.
    RequestAnswer(bool),
    /// The user's answer to an AskKey.
    KeyAnswer(bool),
    /// The client went away.
    Close,
}

/// The agent's output for one input.
#[derive(Drop, PartialEq, Eq)]
pub enum AgentOutput {
    /// A whole frame with its length.
    Answer(Octets),
    /// The user is asked whether the request is allowed.
    AskRequest(MessageType),
    /// The user is asked whether the key of this blob may sign.
    AskKey(Octets),
    Nothing,
    /// The connection is closed.
    Closed(Cause),
}

/// Why the agent closes a connection.
#[derive(Clone, Copy, PartialEq, Eq)]
pub enum Cause {
    TooLong,
    /// A sign request can't be read.
    Unreadable,
    SignerRefused,
    NoMemory,
}

impl AgentInput {
    pub fn copy(&self) -> Result<AgentInput, NoMemory>
        ensures { IfOk result (λ i. i ≡ self.now) }
    {
        match self {
            AgentInput::Frame(frame) => Ok(AgentInput::Frame(frame.copy()?)),
            AgentInput::Oversize { length } => Ok(AgentInput::Oversize { length: *length }),
            AgentInput::RequestAnswer(yes) => Ok(AgentInput::RequestAnswer(*yes)),
            AgentInput::KeyAnswer(yes) => Ok(AgentInput::KeyAnswer(*yes)),
            AgentInput::Close => Ok(AgentInput::Close),
        }
    }
}

impl AgentOutput {
    pub fn copy(&self) -> Result<AgentOutput, NoMemory>
        ensures { IfOk result (λ o. o ≡ self.now) }
    {
        match self {
            AgentOutput::Answer(frame) => Ok(AgentOutput::Answer(frame.copy()?)),
            AgentOutput::AskRequest(message) => Ok(AgentOutput::AskRequest(*message)),
            AgentOutput::AskKey(blob) => Ok(AgentOutput::AskKey(blob.copy()?)),
            AgentOutput::Nothing => Ok(AgentOutput::Nothing),
            AgentOutput::Closed(cause) => Ok(AgentOutput::Closed(*cause)),
        }
    }
}
