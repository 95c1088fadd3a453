//! What the calls of the C interface return, over values: statuses, bytes that are copied out, known hosts, and an agent
//! whose caller signs.
#![tactic(auto)]

mod agent;
mod agent_input;
mod copying;
mod hosts;
mod openssh_hosts;
mod question;
pub mod status;

pub use agent::AgentRun;
pub use agent_input::input_of;
pub use copying::copy_out;
pub use hosts::{HostAnswer, check_key, learn_key};
pub use openssh_hosts::check_openssh_key;
pub use question::Question;
