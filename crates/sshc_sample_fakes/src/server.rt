//! What a server behind a transport over memory does.

use sshc_transport::TransportEvent;
use sshc_wire::{NoMemory, Octets};
use std::alloc::Global;
use std::collections::VecDeque;

/// The events that come from the server, the oldest first.
#[derive(Drop)]
pub struct Coming {
    alloc: Global,
    events: VecDeque<TransportEvent>,
    /// The server closes the stream after them.
    ends: bool,
}

impl Coming {
    pub fn new(alloc: Global) -> Coming {
        Coming {
            alloc,
            events: VecDeque::new(alloc),
            ends: false,
        }
    }

    pub fn event(&mut self, event: TransportEvent) -> Result<(), NoMemory> {
        self.events.push_back(event)?;
        Ok(())
    }

    /// A packet.
    pub fn packet(&mut self, packet: &[u8]) -> Result<(), NoMemory> {
        let packet = Octets::from_slice(self.alloc, packet)?;
        self.event(TransportEvent::Payload(packet))
    }

    /// The stream ends after the events so far.
    pub fn end(&mut self) {
        self.ends = true;
    }

    pub(crate) fn next(&mut self) -> Option<TransportEvent> {
        self.events.pop_front()
    }

    pub(crate) fn is_over(&self) -> bool {
        self.ends
    }
}

/// A server: it is passed each packet, and adds the events that come from it.
pub trait Server {
    /// The client handed over a packet.
    fn hear(&mut self, packet: &[u8], coming: &mut Coming) -> Result<(), NoMemory>;

    /// The client began a key exchange.
    fn exchange(&mut self, coming: &mut Coming) -> Result<(), NoMemory>;
}
