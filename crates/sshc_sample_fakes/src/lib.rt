//! Stand-ins for what a session meets outside: a transport over memory with a server behind it, a handler that accepts
//! each host key, and clocks. For tests, examples and measurements.
#![tactic(auto)]

mod bell;
mod beside;
mod clock;
mod far;
mod host;
mod keeper;
mod keys;
mod server;
mod sessions;
mod transport;

pub use beside::{FakeRunner, run_beside};
pub use clock::{StillClock, TickingClock};
pub use far::{FarServer, FarTransport, across_threads};
pub use host::{HOST_KEY, Host};
pub use keeper::Keeper;
pub use keys::{fake_certificate, fake_key, fake_pair};
pub use server::{Coming, Server};
pub use sessions::{hosted, opened};
pub use sshc_handle::at_once;
pub use transport::FakeTransport;
