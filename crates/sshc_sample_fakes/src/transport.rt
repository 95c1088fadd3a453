//! A transport over memory.

use crate::server::{Coming, Server};
use sshc_handle::is_short;
use sshc_transport::{Transport, TransportEvent};
use sshc_wire::{Failed, NoMemory};
use std::alloc::Global;

/// A transport whose server is in memory. Contracts don't see what was passed to it.
#[derive(Drop)]
pub struct FakeTransport<P: Server + Drop> {
    server: P,
    coming: Coming,
    /// How many calls of `hand` succeed; the later ones fail.
    good: u64,
    faults: u64,
}

impl<P: Server + Drop> FakeTransport<P> {
    /// With these first events, and so many packets taken before a call fails.
    pub fn new(server: P, coming: Coming, good: u64) -> FakeTransport<P> {
        FakeTransport {
            server,
            coming,
            good,
            faults: 0,
        }
    }

    /// The server sends this packet.
    pub fn comes(&mut self, packet: &[u8]) -> Result<(), NoMemory> {
        self.coming.packet(packet)
    }

    /// The server closes the stream after what it sent.
    pub fn ends(&mut self) {
        self.coming.end();
    }
}

impl<P: Server + Drop> Transport for FakeTransport<P> {
    ghost use Rattle.std.specs.Prelude.{None};

    ghost answers = { λ _. None };

    ghost handed = { λ _. None };

    ghost faults = { λ t. t.faults };

    fn next(&mut self) -> Result<Option<TransportEvent>, Failed> {
        match self.coming.next() {
            Some(event) => {
                if is_short(&event) {
                    Ok(Some(event))
                } else {
                    Ok(Some(TransportEvent::Failed))
                }
            }
            None => {
                if self.coming.is_over() {
                    Ok(None)
                } else {
                    Ok(Some(TransportEvent::Quiet))
                }
            }
        }
    }

    fn hand(&mut self, packet: &[u8]) -> Result<(), Failed> {
        if self.good == 0 {
            self.faults = self.faults.saturating_add(1);
            return Err(Failed::Fault);
        }
        self.good -= 1;
        match self.server.hear(packet, &mut self.coming) {
            Ok(()) => Ok(()),
            Err(NoMemory) => Err(Failed::NoMemory),
        }
    }

    fn begin_exchange(&mut self) -> Result<(), Failed> {
        match self.server.exchange(&mut self.coming) {
            Ok(()) => Ok(()),
            Err(NoMemory) => Err(Failed::NoMemory),
        }
    }

    fn remote_sshid(&self) -> &[u8] {
        b"SSH-2.0-fake"
    }
}
