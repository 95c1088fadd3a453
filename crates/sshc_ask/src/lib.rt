//! A client of SSH agents: the calls of the agent protocol over any stream, and how such a stream is opened.
#![tactic(auto)]

mod answer;
mod calls;
mod client;
mod duplex;
mod exchange;
mod message;
mod opener;
mod sign_answer;
mod system;

pub use client::AgentClient;
pub use duplex::Duplex;
pub use opener::{OpenFailed, Opener, connect_env, connect_uds};
pub use system::{SharedSocket, UnixAgentStream, UnixOpener, socket_stream};
