//! A transport that its user can end.

use sshc_transport::{Transport, TransportEvent};
use sshc_wire::{Failed, NoMemory};
use std::alloc::Global;
use std::sync::Arc;
use std::sync::atomic::{AtomicBool, Ordering};

/// A transport that is at its end once its stopper was used. Contracts don't see what its `next` returned, since
/// another thread may use the stopper meanwhile.
#[derive(Drop)]
pub struct Stoppable<T: Transport + Drop> {
    transport: T,
    is_stopped: Arc<AtomicBool, Global>,
}

/// Ends the session of a stoppable transport, also while bytes wait for the peer's window or a key exchange runs.
#[derive(Drop)]
pub struct Stopper {
    is_stopped: Arc<AtomicBool, Global>,
}

impl Stopper {
    /// The transport is at its end from now on: the session's next turn that asks it ends the session as
    /// `Disconnected`. A runner that has a waker has to be woken too.
    pub fn stop(&self) {
        self.is_stopped.store(true, Ordering::SeqCst);
    }
}

/// This transport with a stopper.
pub fn with_stopper<T: Transport + Drop>(
    alloc: Global,
    transport: T,
) -> Result<(Stoppable<T>, Stopper), NoMemory> {
    let (mine, other) = shared_flag(alloc)?;
    Ok((
        Stoppable {
            transport,
            is_stopped: mine,
        },
        Stopper { is_stopped: other },
    ))
}

/// A flag that isn't set, twice.
fn shared_flag(
    alloc: Global,
) -> Result<(Arc<AtomicBool, Global>, Arc<AtomicBool, Global>), NoMemory> {
    let flag = Arc::new(alloc, AtomicBool::new(false))?;
    let other = Arc::try_clone(&flag)?;
    Ok((flag, other))
}

impl<T: Transport + Drop> Transport for Stoppable<T> {
    ghost use Rattle.std.specs.Prelude.{None};

    ghost answers = { λ s. None };

    ghost handed = { λ s. T.handed s.transport };

    ghost faults = { λ s. T.faults s.transport };

    fn next(&mut self) -> Result<Option<TransportEvent>, Failed> {
        if self.is_stopped.load(Ordering::SeqCst) {
            return Ok(None);
        }
        self.transport.next()
    }

    fn hand(&mut self, packet: &[u8]) -> Result<(), Failed> {
        self.transport.hand(packet)
    }

    fn begin_exchange(&mut self) -> Result<(), Failed> {
        self.transport.begin_exchange()
    }

    fn remote_sshid(&self) -> &[u8] {
        self.transport.remote_sshid()
    }
}
