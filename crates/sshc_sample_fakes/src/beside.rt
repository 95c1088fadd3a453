//! A session that is used from several threads, which are all joined.

use crate::clock::TickingClock;
use crate::keeper::Keeper;
use crate::server::Server;
use crate::transport::FakeTransport;
use sshc_client::Error;
use sshc_handle::{Handle, Runner, at_once};
use sshc_toy::{RefusingVerifier, ToySigner};
use std::sync::Wait;
use std::thread::Threads;
use std::time::Clock;

/// A runner of a session over a server in memory.
pub type FakeRunner<P> = Runner<
    Keeper,
    FakeTransport<P>,
    ToySigner,
    RefusingVerifier,
    TickingClock,
>;

/// Runs a session in this thread while another uses its handle. Returns what the use returned, and what `run` returned.
pub fn run_beside<
    P: Server + Drop,
    A: Send,
    F: FnOnce(&Handle<Keeper>) -> A + Send,
    R: Threads + Wait + Clock,
>(rt: &R, handle: &Handle<Keeper>, runner: FakeRunner<P>, user: F) -> (A, Result<(), Error>)
    requires { F.IsAlwaysCallable user }
{
    at_once(rt, handle, user, |_handle| runner.run(rt))
}
