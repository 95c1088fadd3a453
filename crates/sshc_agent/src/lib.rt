//! An agent served over any stream, each connection in a thread of its own; and, from the crates behind it, the agent
//! itself: its core, its frames, and one agent that connections share.
#![tactic(auto)]

mod accepting;
mod fetching;
mod generations;
mod lasting;
mod outside;
mod seats;
mod server;
mod serving;
mod turn;

pub use accepting::{Acceptor, LastingListener, NotAccepted};
pub use generations::serve_generations;
pub use lasting::serve_lasting_one;
pub use outside::{Agent, Listener, Pause};
pub use server::serve;
pub use serving::serve_one;
pub use sshc_agent_core::{
    AgentCore, AgentInput, AgentOutput, Cause, Entry, Frames, MessageType, ServerError,
};
pub use sshc_agent_shared::{
    AgentLasting, AgentShared, AgentState, Call, CallRefused, CloseError, Keeper, LastingRefused,
    Past, Seat,
};
pub use sshc_key::agent_msg as msg;
pub use sshc_wire::Clock;
