//! The command-line arguments `agent SOCKET`: an agent at a Unix socket, with real streams, a real clock and a signer
//! for tests.
#![tactic(auto)]

mod clock;
mod folder;
mod listener;
mod signer;
mod words;

pub use clock::SystemClock;
pub use listener::UnixAgents;
pub use signer::FreshSigner;
pub use words::serve_words;
