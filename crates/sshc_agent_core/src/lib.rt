//! The core of an SSH agent: keys, constraints, a lock and frames, as a state machine that takes moments, connections
//! and inputs.
#![tactic(auto)]

mod agent_core;
mod connections;
mod constraints;
mod entry;
mod error;
mod frames;
mod input;
mod key_list;
mod message;
mod signing;

pub use agent_core::AgentCore;
pub use connections::Standing;
pub use constraints::Constraints;
pub use entry::Entry;
pub use error::ServerError;
pub use frames::Frames;
pub use input::{AgentInput, AgentOutput, Cause};
pub use key_list::HeldKey;
pub use message::message_type;
pub use signing::{SignQuestion, Told};
pub use sshc_wire::MessageType;
