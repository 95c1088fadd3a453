//! A handler that pins a host key, and tells another thread of the connections that come to a forwarded port.

ghost use Rattle.std.specs.Prelude.{◌≡◌};
ghost use Rattle.sshc_client.specs.Handling.{ended_by};

use rtrb::{Consumer, Producer, RingBuffer};
use sshc_client::{DisconnectReason, Error, Handler, OpenAnswer, Session};
use sshc_key::{KeyData, PublicKeyOrCertificate};
use sshc_wire::{ChannelId, ChannelOpenFailure, NoMemory};
use std::alloc::Global;
use std::sync::{Arc, Wait};
use std::thread::Parker;

/// How many connections may wait to be served; more are rejected.
const PLACES: usize = 16;

/// Accepts the server's key alone, and the connections that come to a port that the server forwards. When it goes, the
/// thread that waits for connections is woken, and learns that no more come.
pub struct Doorman {
    /// The server's Ed25519 key.
    pinned: [u8; 32],
    connections: Producer<ChannelId, Global>,
    /// Where the thread rests that serves the connections.
    bell: Arc<Parker, Global>,
}

impl Drop for Doorman {
    fn drop(self) {
        let Doorman {
            pinned: _,
            connections,
            bell,
        } = self;
        drop(connections);
        bell.unpark();
    }
}

/// The connections that came, for the thread that serves them.
#[derive(Drop)]
pub struct Arrivals {
    connections: Consumer<ChannelId, Global>,
    bell: Arc<Parker, Global>,
}

/// A handler that accepts this key, and what it tells of connections.
pub fn watch_door(alloc: Global, pinned: [u8; 32]) -> Result<(Doorman, Arrivals), NoMemory> {
    let (told, heard) = RingBuffer::new(alloc, PLACES)?;
    let bell = Arc::new(alloc, Parker::new())?;
    let other = Arc::try_clone(&bell)?;
    let doorman = Doorman {
        pinned,
        connections: told,
        bell,
    };
    let arrivals = Arrivals {
        connections: heard,
        bell: other,
    };
    Ok((doorman, arrivals))
}

impl Arrivals {
    /// Waits for a connection; `None` once the handler is gone.
    pub fn wait<R: Wait>(&mut self, rt: &R) -> Option<ChannelId> {
        for _ in rt.forever() {
            match self.connections.pop() {
                Ok(id) => return Some(id),
                Err(_) => {
                    if self.connections.is_abandoned() {
                        return None;
                    }
                    self.bell.park(rt);
                }
            }
        }
        unreachable!()
    }
}

impl Handler for Doorman {
    type Error = Error;

    ghost use Rattle.std.specs.Prelude.{[]};

    ghost at = { λ d. record { refusals = 0; setting = []; heard = [] } };

    // Which keys it accepts, its contract leaves open.
    ghost judges = { λ d key answer. Unit {0} };

    ghost told_as = { λ e. e };

    ghost keeps_defaults = { ⊥ };

    fn check_server_key(&mut self, key: &PublicKeyOrCertificate) -> Result<bool, Error> {
        match key {
            PublicKeyOrCertificate::PublicKey { key, .. } => match &key.key {
                KeyData::Ed25519 { public } => Ok(public.as_slice() == self.pinned.as_slice()),
                _ => Ok(false),
            },
            PublicKeyOrCertificate::Certificate(_) => Ok(false),
        }
    }

    #[tactic(auto, using(sshc_client_table::specs::GrownLaws::grown_same))]
    fn server_channel_open_forwarded_tcpip(
        &mut self,
        id: ChannelId,
        _host: &str,
        _port: u32,
        _originator_address: &str,
        _originator_port: u32,
        _session: &mut Session,
    ) -> Result<OpenAnswer, Error> {
        let told = self.connections.push(id);
        if told.is_err() {
            return Ok(OpenAnswer::Reject(ChannelOpenFailure::ResourceShortage));
        }
        self.bell.unpark();
        Ok(OpenAnswer::Accept)
    }

    fn disconnected(&mut self, reason: DisconnectReason<Error>) -> Result<(), Error>
        ensures default { result ≡ ended_by reason }
    {
        match reason {
            DisconnectReason::ReceivedDisconnect(_) => Ok(()),
            DisconnectReason::Error(e) => Err(e),
        }
    }

    fn from_client(e: Error) -> Error
        ensures { result ≡ e }
    {
        e
    }
}
