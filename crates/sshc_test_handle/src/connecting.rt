//! How a handle and its runner are made over a transport of a maker's.

use crate::answers::let_go;
use crate::maker::FakeMaker;
use sshc_auth::Error;
use sshc_client::Config;
use sshc_handle::{HandleCalls, connect};
use sshc_sample_fakes::{FakeTransport, Host, Keeper, TickingClock};
use sshc_toy::{RefusingVerifier, ToySigner};
use sshc_wire::{Disconnect, NoMemory};
use std::alloc::Global;
use std::net::{Ipv4Addr, SocketAddr};
use std::sync::Wait;
use std::test::*;
use std::time::Clock;

/// Connects, leaves and runs to the end. Gives what the run answers.
fn connected<R: Wait + Clock>(
    rt: &R,
    alloc: Global,
    addr: SocketAddr,
    maker: &mut FakeMaker<Host>,
) -> Result<(), Error> {
    let (handle, runner) = connect(
        alloc,
        Config::default_in(alloc)?,
        addr,
        maker,
        Keeper,
        ToySigner::new(alloc),
        RefusingVerifier,
        TickingClock { now: 0, step: 0 },
    )?;
    match handle.disconnect(rt, Disconnect::ByApplication, "", "") {
        Ok(()) => runner.run(rt),
        Err(e) => {
            let_go(runner);
            Err(e)
        }
    }
}

/// Whether a maker that makes one transport is asked for two addresses, and the second connection fails.
fn asks_for_each<R: Wait + Clock>(rt: &R, alloc: Global) -> Result<bool, NoMemory> {
    let host = Host::new(alloc, 1);
    let coming = host.greeting()?;
    let mut maker = FakeMaker::new(alloc, FakeTransport::new(host, coming, 1000));
    let first = SocketAddr::from((Ipv4Addr::new(127, 0, 0, 1), 22));
    let second = SocketAddr::from((Ipv4Addr::new(127, 0, 0, 2), 2222));
    let one = connected(rt, alloc, first, &mut maker);
    let two = connected(rt, alloc, second, &mut maker);
    Ok(
        one == Err(Error::Disconnect)
            && two == Err(Error::TransportFailed)
            && maker.asked() == [first, second].as_slice(),
    )
}

/// The maker makes one transport, for the first address, and fails at the second.
#[test]
fn connects_by_a_maker(rt: HostRuntime) -> Result<(), Fail> {
    assert!(&rt; asks_for_each(&rt, rt.alloc())?);
    Ok(())
}
