//! A maker of transports over memory.

use sshc_handle::Maker;
use sshc_sample_fakes::{FakeTransport, Server};
use sshc_wire::Failed;
use std::alloc::Global;
use std::net::SocketAddr;

/// Returns the transport that it was made with, once, and fails from then on. It keeps the addresses that it was asked
/// for.
#[derive(Drop)]
pub(crate) struct FakeMaker<P: Server + Drop> {
    ready: Option<FakeTransport<P>>,
    asked: Vec<SocketAddr>,
    faults: u64,
}

impl<P: Server + Drop> FakeMaker<P> {
    pub(crate) fn new(alloc: Global, ready: FakeTransport<P>) -> FakeMaker<P> {
        FakeMaker {
            ready: Some(ready),
            asked: Vec::new(alloc),
            faults: 0,
        }
    }

    /// The addresses that it was asked for, in order.
    pub(crate) fn asked(&self) -> &[SocketAddr] {
        &self.asked
    }
}

impl<P: Server + Drop> Maker for FakeMaker<P> {
    type T = FakeTransport<P>;

    ghost use Rattle.std.specs.Prelude.{None};

    // Unknown, since memory may run out for an address.
    ghost addresses = { λ _. None };

    ghost faults = { λ m. m.faults };

    fn make(&mut self, addr: SocketAddr) -> Result<FakeTransport<P>, Failed> {
        if self.asked.push(addr).is_err() {
            return Err(Failed::NoMemory);
        }
        match self.ready.take() {
            Some(transport) => Ok(transport),
            None => {
                self.faults = self.faults.saturating_add(1);
                Err(Failed::Fault)
            }
        }
    }
}
