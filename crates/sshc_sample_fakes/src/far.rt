//! A transport whose server runs in a thread of its own, and which wakes its runner.

use crate::bell::Bell;
use crate::server::{Coming, Server};
use rtrb::{Consumer, Producer, RingBuffer};
use sshc_handle::{Waker, is_short};
use sshc_transport::{Transport, TransportEvent};
use sshc_wire::{Failed, NoMemory, Octets};
use std::alloc::Global;
use std::sync::atomic::{AtomicBool, Ordering};
use std::sync::{Arc, Wait};

/// How many packets, and how many events, may be under way at most.
const PLACES: usize = 256;

/// The end of the transport that a runner holds. Contracts don't see what was passed to it. When it goes, the server's
/// thread is woken, and ends.
pub struct FarTransport {
    alloc: Global,
    packets: Producer<Octets, Global>,
    events: Consumer<TransportEvent, Global>,
    /// Where the server's thread waits for packets.
    bell: Arc<Bell, Global>,
    is_over: Arc<AtomicBool, Global>,
    faults: u64,
}

impl Drop for FarTransport {
    fn drop(self) {
        let FarTransport {
            alloc: _,
            packets,
            events,
            bell,
            is_over,
            faults: _,
        } = self;
        drop(packets);
        drop(events);
        drop(is_over);
        bell.ring();
    }
}

/// The end that the server's thread holds.
#[derive(Drop)]
pub struct FarServer<P: Server + Drop> {
    server: P,
    coming: Coming,
    packets: Consumer<Octets, Global>,
    events: Producer<TransportEvent, Global>,
    bell: Arc<Bell, Global>,
    is_over: Arc<AtomicBool, Global>,
}

/// A transport and the thread's part behind it, which is this server with these first events.
pub fn across_threads<P: Server + Drop>(
    alloc: Global,
    server: P,
    coming: Coming,
) -> Result<(FarTransport, FarServer<P>), NoMemory> {
    let (packets_in, packets_out) = RingBuffer::new(alloc, PLACES)?;
    let (events_in, events_out) = RingBuffer::new(alloc, PLACES)?;
    let bell = Arc::new(alloc, Bell::new())?;
    let is_over = Arc::new(alloc, AtomicBool::new(false))?;
    let transport = FarTransport {
        alloc,
        packets: packets_in,
        events: events_out,
        bell: Arc::try_clone(&bell)?,
        is_over: Arc::try_clone(&is_over)?,
        faults: 0,
    };
    let far_server = FarServer {
        server,
        coming,
        packets: packets_out,
        events: events_in,
        bell,
        is_over,
    };
    Ok((transport, far_server))
}

impl Transport for FarTransport {
    ghost use Rattle.std.specs.Prelude.{None};

    ghost answers = { λ _. None };

    ghost handed = { λ _. None };

    ghost faults = { λ t. t.faults };

    fn next(&mut self) -> Result<Option<TransportEvent>, Failed> {
        // Whether the server has ended is asked before its last events are looked for.
        let is_over = self.is_over.load(Ordering::SeqCst);
        match self.events.pop() {
            Ok(event) => {
                if is_short(&event) {
                    Ok(Some(event))
                } else {
                    Ok(Some(TransportEvent::Failed))
                }
            }
            Err(_) => {
                if is_over {
                    Ok(None)
                } else {
                    Ok(Some(TransportEvent::Quiet))
                }
            }
        }
    }

    fn hand(&mut self, packet: &[u8]) -> Result<(), Failed> {
        let Ok(packet) = Octets::from_slice(self.alloc, packet) else {
            return Err(Failed::NoMemory);
        };
        match self.packets.push(packet) {
            Ok(()) => {
                self.bell.ring();
                Ok(())
            }
            Err(refused) => {
                drop(refused);
                self.faults = self.faults.saturating_add(1);
                Err(Failed::Fault)
            }
        }
    }

    fn begin_exchange(&mut self) -> Result<(), Failed> {
        self.faults = self.faults.saturating_add(1);
        Err(Failed::Fault)
    }

    fn remote_sshid(&self) -> &[u8] {
        b"SSH-2.0-far"
    }
}

impl<P: Server + Drop> FarServer<P> {
    /// Passes on the events that are there, and wakes the runner if it has a waker. Returns whether the stream is open.
    fn pass_on(&mut self, waker: Option<&Waker>) -> bool {
        for _ in 0..PLACES {
            let Some(event) = self.coming.next() else {
                break;
            };
            if let Err(refused) = self.events.push(event) {
                drop(refused);
                self.coming.end();
            }
        }
        let is_over = self.coming.is_over();
        self.is_over.store(is_over, Ordering::SeqCst);
        if let Some(waker) = waker {
            waker.wake();
        }
        !is_over
    }

    /// The server hears a packet; where memory runs out it closes the stream.
    fn hear(&mut self, packet: &Octets) {
        let heard = self.server.hear(packet.as_slice(), &mut self.coming);
        if heard.is_err() {
            self.coming.end();
        }
    }

    /// Hears packets until the stream is closed or the transport is gone, and wakes the runner for each packet.
    pub fn serve<R: Wait>(self, rt: &R, waker: Option<&Waker>) {
        let mut mine = self;
        let mut is_open = mine.pass_on(waker);
        let mut vain = 0;
        for _ in rt.forever() {
            if !is_open {
                break;
            }
            let seen = mine.bell.rings();
            match mine.packets.pop() {
                Ok(packet) => {
                    mine.hear(&packet);
                    is_open = mine.pass_on(waker);
                }
                Err(_) => {
                    if mine.packets.is_abandoned() {
                        break;
                    }
                    vain = mine.bell.wait(rt, seen, vain);
                }
            }
        }
    }
}
