//! The seats of a server's connections.

use sshc_agent_shared::{AgentShared, Seat, Settings};
use std::alloc::Global;
use std::sync::Wait;
use std::sync::ledger::Ledger;

/// The seats that came back, and how many are still out. Room for these is reserved, so that no seat is lost because
/// memory runs out.
#[derive(Drop)]
pub(crate) struct Seats<L: Ledger> {
    back: Vec<Seat<L>>,
    out: usize,
}

impl<L: Settings> Seats<L> {
    pub(crate) fn new(alloc: Global) -> Seats<L> {
        Seats {
            back: Vec::new(alloc),
            out: 0,
        }
    }

    /// The seat of the agent's next connection. `None` if memory runs out or the agent's journal is full.
    pub(crate) fn connect<R: Wait>(&mut self, rt: &R, shared: &AgentShared<L>) -> Option<Seat<L>> {
        let out = self.out.saturating_add(1);
        self.back.reserve(out).ok()?;
        let seat = shared.connect(rt).ok()?;
        self.out = out;
        Some(seat)
    }

    /// Takes back the seat of a connection that ended; room for it is reserved.
    pub(crate) fn take_back(&mut self, seat: Seat<L>) {
        self.out = self.out.saturating_sub(1);
        let _ = self.back.push(seat);
    }

    /// The seats that came back.
    pub(crate) fn into_back(self) -> Vec<Seat<L>> {
        self.back
    }
}
