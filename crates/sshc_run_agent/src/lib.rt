//! An agent in a script: the events of its connections, and the records of each.
#![tactic(auto)]

mod event;
mod laws;
mod served;
mod step;

pub use event::{AgentEvent, read_agent_event};
pub use laws::input_laws;
pub use served::ServedAgent;
pub use step::step_input;
