//! How a handle and its runner are made.

ghost use Rattle.std.specs.Prelude.{◌≡◌, ℕ, IfErr, List, Option};
ghost use Rattle.std.specs.declared.net.socket_addr.SocketAddr.{SocketAddr as Address};
ghost use Rattle.sshc_wire.specs.Faults.{HasCause};
ghost use Rattle.sshc_handle.specs.Making.{and_address};
ghost use Rattle.sshc_handle.specs.Refused.{IsMakers};

use crate::handle::Handle;
use crate::runner::Runner;
use crate::shared::{RunnersPart, Shared};
use sshc_auth::Error;
use sshc_client::{Config, Handler};
use sshc_handle_state::HandleState;
use sshc_key::{LocalSigner, Verifier};
use sshc_transport::Transport;
use sshc_wire::{Clock, Failed, NoMemory, Octets};
use std::alloc::Global;
use std::net::SocketAddr;
use std::sync::Arc;

/// Opens a stream to an address, and makes the transport over it. It keeps a count of its faults.
pub trait Maker {
    type T: Transport + Drop;

    /// The addresses that it was asked for, in order, if they are known.
    ghost addresses: { Self → Option (List Address) };

    /// How often it failed.
    ghost faults: { Self → ℕ };

    fn make(&mut self, addr: SocketAddr) -> Result<Self::T, Failed>
        ensures asked { addresses self.new ≡ and_address (addresses self.old) addr }
        ensures cause { HasCause (faults self.old) (faults self.new) result };
}

/// A new session under its lock, and the runner's part of it.
fn shared_over<H: Handler, T: Transport>(
    alloc: Global,
    config: Config,
    transport: &T,
) -> Result<(Arc<Shared<H>, Global>, Arc<Shared<H>, Global>), NoMemory> {
    let remote_sshid = Octets::from_slice(alloc, transport.remote_sshid())?;
    let state = HandleState::new(config, remote_sshid)?;
    let shared = Arc::new(alloc, Shared::new(alloc, state)?)?;
    let other = Arc::try_clone(&shared)?;
    Ok((shared, other))
}

/// A handle and its runner over a transport. It doesn't wait; `NoMemory` is the only error.
pub fn connect_stream<
    H: Handler + Drop,
    T: Transport + Drop,
    S: LocalSigner + Drop,
    V: Verifier + Drop,
    C: Clock + Drop,
>(
    alloc: Global,
    config: Config,
    transport: T,
    handler: H,
    signer: S,
    verifier: V,
    clock: C,
) -> Result<(Handle<H>, Runner<H, T, S, V, C>), Error>
    ensures { IfErr result (λ e. e ≡ Error.NoMemory) }
{
    match shared_over(alloc, config, &transport) {
        Ok((mine, shared)) => Ok((
            Handle { shared: mine },
            Runner {
                part: RunnersPart { shared },
                transport,
                handler,
                signer,
                verifier,
                clock,
                is_woken: false,
            },
        )),
        Err(NoMemory) => Err(Error::NoMemory),
    }
}

/// The same over a transport that the maker makes for an address; the maker is called once. `TransportFailed` if the
/// maker counted a fault.
pub fn connect<
    H: Handler + Drop,
    M: Maker,
    S: LocalSigner + Drop,
    V: Verifier + Drop,
    C: Clock + Drop,
>(
    alloc: Global,
    config: Config,
    addr: SocketAddr,
    maker: &mut M,
    handler: H,
    signer: S,
    verifier: V,
    clock: C,
) -> Result<(Handle<H>, Runner<H, M::T, S, V, C>), Error>
    ensures asked { M.addresses maker.new ≡ and_address (M.addresses maker.old) addr }
    ensures cause { IfErr result (λ e. IsMakers (M.faults maker.old) (M.faults maker.new) e) }
{
    match maker.make(addr) {
        Ok(transport) => connect_stream(alloc, config, transport, handler, signer, verifier, clock),
        Err(Failed::Fault) => Err(Error::TransportFailed),
        Err(Failed::NoMemory) => Err(Error::NoMemory),
    }
}
